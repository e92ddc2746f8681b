//! Faults of a file that is put together field by field, and of that file with fields changed, in both byte orders.

use crate::{ElfFault, read_elf};
use host_io::first_of;
use std::alloc::{AllocError, Global};
use std::test::Fail;

/// A field: its place, its size in bytes and its value.
type Field = (usize, usize, u32);

/// The fields that aren't 0, but for the byte order: an executable with a PT_NOTE, and a PT_LOAD of 8 bytes at address 0,
/// whose bytes end the file.
#[rattlefmt::skip]
const FIELDS: [Field; 21] = [
    (0, 1, 0x7F), (1, 1, 0x45), (2, 1, 0x4C), (3, 1, 0x46), (4, 1, 1), (6, 1, 1),
    // e_type, e_machine, e_version, e_phoff, e_ehsize, e_phentsize, e_phnum
    (16, 2, 2), (18, 2, 189), (20, 4, 1), (28, 4, 52), (40, 2, 52), (42, 2, 32), (44, 2, 2),
    // p_type of the note; p_type, p_offset, p_filesz, p_memsz, p_flags, p_align of the other
    (52, 4, 4), (84, 4, 1), (88, 4, 116), (100, 4, 8), (104, 4, 8), (108, 4, 5), (112, 4, 1),
    // the first instruction
    (116, 1, 0xB8),
];

/// The bytes of the file.
const SIZE: usize = 124;

/// The memory of the core.
const MEMORY: u64 = 65_536;

/// Puts a field into a file, in its byte order.
fn put(file: &mut [u8], big: bool, field: Field) {
    let (at, size, value) = field;
    for k in 0..size.min(4) {
        let place = if big { size.min(4) - 1 - k } else { k };
        if let Some(byte) = file.get_mut(at.saturating_add(place)) {
            *byte = value.to_le_bytes()[k];
        }
    }
}

/// The file in a byte order, with these fields changed.
fn file_of(alloc: Global, big: bool, changes: &[Field]) -> Result<Vec<u8>, AllocError> {
    let mut file = vec![in alloc; 0u8; SIZE]?;
    put(file.as_mut_slice(), big, (5, 1, if big { 2 } else { 1 }));
    for field in FIELDS {
        put(file.as_mut_slice(), big, field);
    }
    for field in changes {
        put(file.as_mut_slice(), big, *field);
    }
    Ok(file)
}

/// The code and the place of a file's fault; 0 and 0 where it has an image.
fn refusal(alloc: Global, file: &[u8]) -> (u16, u32) {
    match read_elf(alloc, file, MEMORY) {
        Ok(_) => (0, 0),
        Err(ElfFault::Refused { code, at }) => (code, at),
        Err(ElfFault::NoMemory) => (u16::MAX, 0),
    }
}

/// Expected: each value is refused by the test of its field, at the place that this test tells.
#[test]
#[rattlefmt::skip]
fn each_wrong_value_is_refused(rt: HostRuntime) -> Result<(), Fail> {
    for (field, code, at) in [
        ((0, 1, 0x7E), 701, 0), ((1, 1, 0x65), 701, 0), ((2, 1, 0x6C), 701, 0), ((3, 1, 0), 701, 0),
        ((4, 1, 0), 702, 4), ((4, 1, 2), 702, 4), ((4, 1, 0xFF), 702, 4),
        ((5, 1, 0), 702, 4), ((5, 1, 3), 702, 4), ((5, 1, 0xFF), 702, 4),
        ((6, 1, 0), 703, 6), ((6, 1, 2), 703, 6), ((6, 1, 0xFF), 703, 6),
        ((20, 4, 0), 703, 6), ((20, 4, 2), 703, 6), ((20, 4, 0x0100_0000), 703, 6), ((20, 4, 0x0001_0001), 703, 6),
        ((16, 2, 0), 704, 16), ((16, 2, 1), 704, 16), ((16, 2, 3), 704, 16), ((16, 2, 4), 704, 16), ((16, 2, 0x0200), 704, 16), ((16, 2, 0xFFFF), 704, 16),
        ((18, 2, 0), 705, 18), ((18, 2, 188), 705, 18), ((18, 2, 190), 705, 18), ((18, 2, 0xBD00), 705, 18), ((18, 2, 0xBAAA), 705, 18), ((18, 2, 0xABBA), 705, 18),
        ((42, 2, 0), 707, 42), ((42, 2, 31), 707, 42), ((42, 2, 33), 707, 42), ((42, 2, 0x2020), 707, 42),
        ((28, 4, 61), 706, 61), ((28, 4, 124), 706, 124), ((28, 4, 0xFFFF_FFC0), 706, 0xFFFF_FFC0), ((28, 4, 0xFFFF_FFFF), 706, 0xFFFF_FFFF),
        ((44, 2, 3), 706, 52), ((44, 2, 0xFFFF), 706, 52),
        ((100, 4, 9), 710, 1), ((100, 4, 0xFFFF_FFFF), 710, 1), ((104, 4, 7), 710, 1), ((104, 4, 0), 710, 1),
        ((88, 4, 117), 706, 117), ((88, 4, 124), 706, 124), ((88, 4, 0xFFFF_FFFC), 706, 0xFFFF_FFFC), ((88, 4, 0xFFFF_FFFF), 706, 0xFFFF_FFFF),
        ((92, 4, 0xFFF9), 709, 1), ((92, 4, 0x0001_0000), 709, 1), ((92, 4, 0xFFFF_FFFC), 709, 1), ((92, 4, 0xFFFF_FFFF), 709, 1),
        ((104, 4, 65_537), 709, 1), ((104, 4, 0xFFFF_FFFF), 709, 1),
        ((44, 2, 0), 708, 0), ((44, 2, 1), 708, 0), ((28, 4, 60), 708, 0),
        ((84, 4, 0), 708, 0), ((84, 4, 2), 708, 0), ((84, 4, 4), 708, 0), ((84, 4, 0x0100_0000), 708, 0),
        ((92, 4, 0xFFF8), 712, 0), ((92, 4, 4), 712, 0),
        ((24, 4, 1), 712, 1), ((24, 4, 2), 712, 2), ((24, 4, 3), 712, 3), ((24, 4, 6), 712, 6), ((24, 4, 8), 712, 8), ((24, 4, 0xFFFF_FFFC), 712, 0xFFFF_FFFC),
    ] {
        for big in [false, true] {
            let file = file_of(rt.alloc(), big, &[field])?;
            let found = refusal(rt.alloc(), file.as_slice());
            assert!(rt; found == (code, at), "{field:?}, {big}: {found:?}");
        }
    }
    Ok(())
}

/// Expected: these fields aren't tested, and these values are right.
#[test]
#[rattlefmt::skip]
fn no_other_value_is_refused(rt: HostRuntime) -> Result<(), Fail> {
    for field in [
        // the operating system, its version and the bytes that fill e_ident
        (7, 1, 0xFF), (8, 1, 0xFF), (9, 4, 0xFFFF_FFFF), (13, 2, 0xFFFF), (15, 1, 0xFF),
        (18, 2, 0xBAAB), (24, 4, 4),
        // e_shoff, e_flags, e_ehsize, e_shentsize, e_shnum, e_shstrndx
        (32, 4, 0xFFFF_FFFF), (36, 4, 0xFFFF_FFFF), (40, 2, 0), (46, 2, 0xFFFF), (48, 2, 0xFFFF), (50, 2, 0xFFFF),
        // the note: another type, and each of its numbers
        (52, 4, 0), (52, 4, 0xFFFF_FFFF), (56, 4, 0xFFFF_FFFF), (60, 4, 0xFFFF_FFFF), (68, 4, 0xFFFF_FFFF), (72, 4, 0xFFFF_FFFF),
        // p_paddr, fewer bytes in the file, the whole memory, flags and alignment
        (96, 4, 0xFFFF_FFFF), (100, 4, 0), (100, 4, 7), (104, 4, 65_536), (108, 4, 0), (108, 4, 0xFFFF_FFFE), (112, 4, 0), (112, 4, 3),
        (88, 4, 0), (88, 4, 115),
    ] {
        for big in [false, true] {
            let file = file_of(rt.alloc(), big, &[field])?;
            let found = refusal(rt.alloc(), file.as_slice());
            assert!(rt; found == (0, 0), "{field:?}, {big}: {found:?}");
        }
    }
    Ok(())
}

/// Expected: where two fields are wrong together, or one makes good what the other would break.
#[test]
#[rattlefmt::skip]
fn fields_are_tested_together(rt: HostRuntime) -> Result<(), Fail> {
    let rows: [(&str, [Field; 2], u16, u32); 9] = [
        ("no program headers of a wrong size", [(42, 2, 31), (44, 2, 0)], 708, 0),
        ("no program headers past the end", [(28, 4, 0xFFFF_FFFF), (44, 2, 0)], 708, 0),
        ("more bytes in both", [(100, 4, 9), (104, 4, 9)], 706, 116),
        ("no bytes of the file past its end", [(88, 4, 0xFFFF_FFFF), (100, 4, 0)], 0, 0),
        ("no bytes in memory past its end", [(52, 4, 1), (60, 4, 0xFFFF_FFFF)], 0, 0),
        ("no bytes in memory before the entry", [(100, 4, 0), (104, 4, 0)], 708, 0),
        ("the memory's last instruction", [(92, 4, 0xFFF8), (24, 4, 0xFFFC)], 0, 0),
        ("the entry behind the last byte", [(104, 4, 12), (24, 4, 12)], 712, 12),
        ("the entry in the zeros", [(104, 4, 12), (24, 4, 8)], 0, 0),
    ];
    for (name, fields, code, at) in rows {
        for big in [false, true] {
            let file = file_of(rt.alloc(), big, &fields)?;
            let found = refusal(rt.alloc(), file.as_slice());
            assert!(rt; found == (code, at), "{name}, {big}: {found:?}");
        }
    }
    Ok(())
}

/// Expected: of several wrong fields the first test that fails is told. Each row is what is left when those before it are
/// mended.
#[test]
fn the_first_test_that_fails_is_told(rt: HostRuntime) -> Result<(), Fail> {
    let broken: [Field; 11] = [
        (0, 1, 0),
        (4, 1, 2),
        (6, 1, 0),
        (16, 2, 3),
        (18, 2, 1),
        (42, 2, 31),
        (28, 4, 61),
        (100, 4, 9),
        (88, 4, 117),
        (92, 4, 0xFFF9),
        (24, 4, 2),
    ];
    let told = [
        (701, 0),
        (702, 4),
        (703, 6),
        (704, 16),
        (705, 18),
        (707, 42),
        (706, 61),
        (710, 1),
        (706, 117),
        (709, 1),
        (712, 2),
    ];
    for (mended, expected) in told.iter().enumerate() {
        let left = broken.get(mended..).unwrap_or(&[]);
        for big in [false, true] {
            let file = file_of(rt.alloc(), big, left)?;
            let found = refusal(rt.alloc(), file.as_slice());
            assert!(rt; found == *expected, "{mended} mended, {big}: {found:?}");
        }
    }
    Ok(())
}

/// Expected: what the header's length hides, and a segment that shares bytes with another, before the entry.
#[test]
fn lengths_and_overlaps_have_their_place(rt: HostRuntime) -> Result<(), Fail> {
    for big in [false, true] {
        let other = file_of(rt.alloc(), big, &[(4, 1, 2)])?;
        let found = refusal(rt.alloc(), first_of(other.as_slice(), 51));
        assert!(rt; found == (706, 0), "51 bytes of another class: {found:?}");
        let text = file_of(rt.alloc(), big, &[(3, 1, 0)])?;
        let found = refusal(rt.alloc(), first_of(text.as_slice(), 51));
        assert!(rt; found == (701, 0), "51 bytes of another kind: {found:?}");
        let second = [
            (52, 4, 1),
            (56, 4, 116),
            (60, 4, 4),
            (68, 4, 8),
            (72, 4, 8),
            (24, 4, 2),
        ];
        let file = file_of(rt.alloc(), big, &second)?;
        let found = refusal(rt.alloc(), file.as_slice());
        assert!(rt; found == (711, 1), "two that share bytes: {found:?}");
    }
    Ok(())
}

/// Expected: the first test that a file of each length fails.
#[test]
fn each_length_is_refused(rt: HostRuntime) -> Result<(), Fail> {
    for (from, end, expected) in [
        (0, 4, (701, 0)),
        (4, 52, (706, 0)),
        (52, 116, (706, 52)),
        (116, 124, (706, 116)),
        (124, 125, (0, 0)),
    ] {
        for length in from..end {
            for big in [false, true] {
                let file = file_of(rt.alloc(), big, &[])?;
                let found = refusal(rt.alloc(), first_of(file.as_slice(), length));
                assert!(rt; found == expected, "{length} bytes, {big}: {found:?}");
            }
        }
    }
    Ok(())
}
