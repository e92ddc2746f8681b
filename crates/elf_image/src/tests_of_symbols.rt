//! Symbols of a file that is put together field by field, and of that file with one field changed.

use super::*;
use host_io::first_of;
use std::alloc::{AllocError, Global};
use std::test::Fail;

/// The fields that aren't 0: place, size in bytes and value. Names stand at 52, two tables of three symbols at 64 and 112,
/// and the headers of four sections at 160: none, a symbol table, its names, and the second symbol table.
const FIELDS: [(usize, usize, u8); 39] = [
    (0, 1, 0x7F),
    (1, 1, b'E'),
    (2, 1, b'L'),
    (3, 1, b'F'),
    (4, 1, 1),
    (32, 4, 160),
    (46, 2, 40),
    (48, 2, 4),
    (53, 1, b'm'),
    (54, 1, b'a'),
    (55, 1, b'i'),
    (56, 1, b'n'),
    (58, 1, b'l'),
    (59, 1, b'o'),
    (60, 1, b'o'),
    (61, 1, b'p'),
    (80, 4, 1),
    (84, 4, 0x50),
    (96, 4, 6),
    (100, 4, 0x60),
    (128, 4, 1),
    (132, 4, 0x70),
    (144, 4, 6),
    (148, 4, 0x80),
    (204, 4, 2),
    (216, 4, 64),
    (220, 4, 48),
    (224, 4, 2),
    (236, 4, 16),
    (244, 4, 3),
    (256, 4, 52),
    (260, 4, 11),
    (284, 4, 2),
    (296, 4, 112),
    (300, 4, 48),
    (304, 4, 2),
    (316, 4, 16),
    (16, 2, 1),
    (18, 2, 3),
];

/// Puts a field into a file, in its byte order.
fn put(file: &mut Vec<u8>, big: bool, field: (usize, usize, u8)) {
    let (at, size, value) = field;
    let low = if big {
        at.saturating_add(size).saturating_sub(1)
    } else {
        at
    };
    if let Some(place) = file.get_mut(low) {
        *place = value;
    }
}

/// The file in a byte order, with one more field.
fn file_of(alloc: Global, big: bool, change: (usize, usize, u8)) -> Result<Vec<u8>, AllocError> {
    let mut file = vec![in alloc; 0u8; 320]?;
    for field in FIELDS {
        put(&mut file, big, field);
    }
    put(&mut file, big, (5, 1, if big { 2 } else { 1 }));
    put(&mut file, big, change);
    Ok(file)
}

/// One field changed, how many symbols the file then has, and the value of the last.
const CHANGES: [(usize, usize, u8, usize, u32); 21] = [
    (16, 2, 9, 3, 0x60),
    (3, 1, b'f', 0, 0),
    (4, 1, 2, 0, 0),
    (5, 1, 3, 0, 0),
    (46, 2, 41, 0, 0),
    (48, 2, 5, 0, 0),
    (48, 2, 3, 3, 0x60),
    (204, 4, 3, 3, 0x80),
    (236, 4, 24, 3, 0x80),
    (220, 4, 47, 0, 0),
    (220, 4, 32, 2, 0x50),
    (220, 4, 0, 0, 0),
    (217, 1, 2, 0, 0),
    (224, 4, 4, 0, 0),
    (224, 4, 1, 0, 0),
    (244, 4, 1, 0, 0),
    (260, 4, 10, 0, 0),
    (260, 4, 12, 3, 0x60),
    (96, 4, 10, 3, 0x60),
    (96, 4, 11, 0, 0),
    (100, 4, 0xFF, 3, 0xFF),
];

#[test]
fn a_changed_field_changes_the_symbols(rt: HostRuntime) -> Result<(), Fail> {
    for big in [false, true] {
        for (at, size, value, count, last) in CHANGES {
            let file = file_of(rt.alloc(), big, (at, size, value))?;
            let symbols = symbols(rt.alloc(), file.as_slice()).map_err(|_| "symbols")?;
            assert_eq!(rt; symbols.len(), count, "at {at} {value}");
            let found = symbols.as_slice().last().map(|symbol| symbol.value);
            assert_eq!(rt; found.unwrap_or(0), last, "at {at} {value}");
        }
    }
    Ok(())
}

#[test]
fn symbols_have_their_names_and_values(rt: HostRuntime) -> Result<(), Fail> {
    let file = file_of(rt.alloc(), true, (16, 2, 2))?;
    let symbols = symbols(rt.alloc(), file.as_slice()).map_err(|_| "symbols")?;
    for (k, name, value) in [(0, "", 0), (1, "main", 0x50), (2, "loop", 0x60)] {
        let symbol = symbols.get(k).ok_or("a symbol")?;
        assert!(rt; symbol.name.as_slice() == name.as_bytes() && symbol.value == value);
    }
    for len in [0, 3, 51, 52, 159, 319] {
        assert_eq!(rt;
            super::symbols(rt.alloc(), first_of(file.as_slice(), len))
                .map_err(|_| "symbols")?
                .len(),
            0
        );
    }
    Ok(())
}
