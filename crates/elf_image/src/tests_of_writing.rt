ghost use Rattle.std.specs.Prelude.{◌≡◌, ◌^◌, ◌<◌, ◌∷◌, [], IfOk, length};

use crate::{Image, Part, Parts, files_are_as_long_as_their_parts, write_elf};
use core_regs::Order;
use host_io::Blob;
use std::alloc::{AllocError, Global};

/// A part of four bytes.
fn part(
    alloc: Global,
    addr: u32,
    bytes: [u8; 4],
    zeros: u32,
    code: bool,
) -> Result<Part, AllocError>
    ensures bytes { IfOk result (λ part. length part.bytes ≡ 4) }
    ensures zeros { IfOk result (λ part. part.zeros ≡ zeros) }
{
    let bytes = Blob::from_vec(Vec::from_slice(alloc, &bytes)?);
    Ok(Part {
        addr,
        bytes,
        zeros,
        code,
    })
}

/// Whether the file of an image with these two parts is this one.
fn is_written_as(
    alloc: Global,
    order: Order,
    entry: u32,
    parts: (Part, Part),
    expected: &[u8],
) -> Result<bool, AllocError>
    requires first { length parts.0.bytes ≡ 4 }
    requires second { length parts.1.bytes ≡ 4 }
    requires zeros { parts.0.zeros < 100 }
    requires few { parts.1.zeros < 100 }
{
    files_are_as_long_as_their_parts();
    let mut list = Vec::new(alloc);
    list.push(parts.0)?;
    list.push(parts.1)?;
    let image = Image {
        order,
        entry,
        parts: Parts::from_vec(list),
    };
    Ok(match write_elf(alloc, &image) {
        Ok(file) => file.as_slice() == expected,
        Err(_) => false,
    })
}

/// Expected: the bytes of an executable with two segments, typed from the ELF32 specification.
#[test]
#[rattlefmt::skip]
fn files_have_the_bytes_of_an_executable(rt: HostRuntime) -> Result<(), AllocError> {
    let alloc = rt.alloc();
    let big = [
        0x7F, b'E', b'L', b'F', 1, 2, 1, 0, 0, 0, 0, 0, 0, 0, 0, 0,
        0, 2, 0, 189, 0, 0, 0, 1, 0, 0, 0x10, 0, 0, 0, 0, 52, 0, 0, 0, 0, 0, 0, 0, 0,
        0, 52, 0, 32, 0, 2, 0, 0, 0, 0, 0, 0,
        0, 0, 0, 1, 0, 0, 0, 116, 0, 0, 0x10, 0, 0, 0, 0x10, 0, 0, 0, 0, 4, 0, 0, 0, 4, 0, 0, 0, 5, 0, 0, 0, 1,
        0, 0, 0, 1, 0, 0, 0, 120, 0, 1, 0, 0, 0, 1, 0, 0, 0, 0, 0, 4, 0, 0, 0, 7, 0, 0, 0, 6, 0, 0, 0, 1,
        0xB8, 0, 0, 0, 1, 2, 3, 4,
    ];
    let parts = (part(alloc, 0x1000, [0xB8, 0, 0, 0], 0, true)?, part(alloc, 0x10000, [1, 2, 3, 4], 3, false)?);
    assert!(rt; is_written_as(alloc, Order::Big, 0x1000, parts, &big)?, "big endian");
    let little = [
        0x7F, b'E', b'L', b'F', 1, 1, 1, 0, 0, 0, 0, 0, 0, 0, 0, 0,
        2, 0, 189, 0, 1, 0, 0, 0, 0, 0x10, 0, 0, 52, 0, 0, 0, 0, 0, 0, 0, 0, 0, 0, 0,
        52, 0, 32, 0, 2, 0, 0, 0, 0, 0, 0, 0,
        1, 0, 0, 0, 116, 0, 0, 0, 0, 0x10, 0, 0, 0, 0x10, 0, 0, 4, 0, 0, 0, 4, 0, 0, 0, 5, 0, 0, 0, 1, 0, 0, 0,
        1, 0, 0, 0, 120, 0, 0, 0, 0, 0, 1, 0, 0, 0, 1, 0, 4, 0, 0, 0, 7, 0, 0, 0, 6, 0, 0, 0, 1, 0, 0, 0,
        0, 0, 0, 0xB8, 1, 2, 3, 4,
    ];
    let parts = (part(alloc, 0x1000, [0, 0, 0, 0xB8], 0, true)?, part(alloc, 0x10000, [1, 2, 3, 4], 3, false)?);
    assert!(rt; is_written_as(alloc, Order::Little, 0x1000, parts, &little)?, "little endian");
    Ok(())
}
