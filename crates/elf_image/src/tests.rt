use crate::{ElfFault, Parts, read_elf};
use core_regs::Order;
use std::alloc::{AllocError, Global};
use std::test::Fail;

/// A big-endian executable with one segment of 8 bytes at address 0, whose bytes end the file.
const FILE: [u8; 92] = [
    // e_ident
    0x7F, b'E', b'L', b'F', 1, 2, 1, 0, 0, 0, 0, 0, 0, 0, 0, 0,
    // e_type, e_machine, e_version
    0, 2, 0, 189, 0, 0, 0, 1,
    // e_entry, e_phoff, e_shoff, e_flags
    0, 0, 0, 0, 0, 0, 0, 52, 0, 0, 0, 0, 0, 0, 0, 0,
    // e_ehsize, e_phentsize, e_phnum, e_shentsize, e_shnum, e_shstrndx
    0, 52, 0, 32, 0, 1, 0, 0, 0, 0, 0, 0,
    // p_type, p_offset, p_vaddr, p_paddr
    0, 0, 0, 1, 0, 0, 0, 84, 0, 0, 0, 0, 0, 0, 0, 0,
    // p_filesz, p_memsz, p_flags, p_align
    0, 0, 0, 8, 0, 0, 0, 8, 0, 0, 0, 5, 0, 0, 0, 1, 0xB0, 0, 0, 1, 0x30, 0x60, 0x23, 0x45,
];

/// The memory of the core.
const MEMORY: u64 = 65_536;

/// The fault of a file, or `None` where it has an image.
fn refusal(alloc: Global, file: &[u8]) -> Option<(u16, u32)> {
    match read_elf(alloc, file, MEMORY) {
        Ok(_) => None,
        Err(ElfFault::Refused { code, at }) => Some((code, at)),
        Err(ElfFault::NoMemory) => Some((0, 0)),
    }
}

/// The file with other bytes from a place on.
fn changed(at: usize, change: &[u8]) -> [u8; 92] {
    let mut file = FILE;
    for (k, byte) in change.iter().enumerate() {
        if let Some(place) = file.get_mut(at.saturating_add(k)) {
            *place = *byte;
        }
    }
    file
}

#[test]
fn a_cut_file_is_refused_by_its_length(rt: HostRuntime) {
    let rows = [
        (0, 4, Some((701, 0))),
        (4, 52, Some((706, 0))),
        (52, 84, Some((706, 52))),
        (84, 92, Some((706, 84))),
        (92, 93, None),
    ];
    for (from, end, expected) in rows {
        for length in from..end {
            let file = FILE.get(..length).unwrap_or(&[]);
            assert!(rt; refusal(rt.alloc(), file) == expected, "{length} bytes");
        }
    }
}

#[test]
fn a_changed_field_is_refused_by_its_test(rt: HostRuntime) {
    let rows: [(&str, usize, &[u8], Option<(u16, u32)>); 24] = [
        ("e_ident begins", 3, &[b'f'], Some((701, 0))),
        ("EI_CLASS", 4, &[2], Some((702, 4))),
        ("EI_DATA 0", 5, &[0], Some((702, 4))),
        ("EI_DATA 3", 5, &[3], Some((702, 4))),
        ("EI_VERSION", 6, &[0], Some((703, 6))),
        ("EI_OSABI and on", 7, &[3, 1, 9, 9, 9, 9, 9, 9, 9], None),
        ("e_type", 16, &[0, 3], Some((704, 16))),
        ("e_machine 188", 18, &[0, 188], Some((705, 18))),
        ("e_machine BAAB hex", 18, &[0xBA, 0xAB], None),
        ("e_version", 20, &[0, 0, 0, 2], Some((703, 6))),
        ("e_entry 2", 24, &[0, 0, 0, 2], Some((712, 2))),
        ("e_entry 4", 24, &[0, 0, 0, 4], None),
        ("e_entry 8", 24, &[0, 0, 0, 8], Some((712, 8))),
        (
            "e_phoff",
            28,
            &[0xFF, 0xFF, 0xFF, 0xF0],
            Some((706, 4_294_967_280)),
        ),
        ("e_phentsize", 42, &[0, 31], Some((707, 42))),
        (
            "e_phentsize and e_phnum 0",
            42,
            &[0, 31, 0, 0],
            Some((708, 0)),
        ),
        ("e_phnum", 44, &[0xFF, 0xFF], Some((706, 52))),
        ("p_type", 52, &[0, 0, 0, 0], Some((708, 0))),
        (
            "p_offset",
            56,
            &[0xFF, 0xFF, 0xFF, 0xFF],
            Some((706, 4_294_967_295)),
        ),
        ("p_vaddr FFFC hex", 60, &[0, 0, 0xFF, 0xFC], Some((709, 0))),
        (
            "p_vaddr FFFFFFFC hex",
            60,
            &[0xFF, 0xFF, 0xFF, 0xFC],
            Some((709, 0)),
        ),
        ("p_filesz 9", 68, &[0, 0, 0, 9], Some((710, 0))),
        (
            "p_filesz 9 of p_memsz 9",
            68,
            &[0, 0, 0, 9, 0, 0, 0, 9],
            Some((706, 84)),
        ),
        ("p_memsz 0", 68, &[0, 0, 0, 0, 0, 0, 0, 0], Some((708, 0))),
    ];
    for (field, at, change, expected) in rows {
        let file = changed(at, change);
        assert!(rt; refusal(rt.alloc(), &file) == expected, "{field}");
    }
}

/// The fields of a program header, but for p_paddr and p_align.
#[derive(Clone, Copy)]
struct Segment {
    p_type: u32,
    p_offset: u32,
    p_vaddr: u32,
    p_filesz: u32,
    p_memsz: u32,
    p_flags: u32,
}

const PT_LOAD: u32 = 1;

const PT_NOTE: u32 = 4;

const PT_GNU_STACK: u32 = 0x6474_E551;

fn load(p_offset: u32, p_vaddr: u32, p_filesz: u32, p_memsz: u32, p_flags: u32) -> Segment {
    Segment {
        p_type: PT_LOAD,
        p_offset,
        p_vaddr,
        p_filesz,
        p_memsz,
        p_flags,
    }
}

/// Bytes of a file in a byte order.
#[derive(Drop)]
struct Bytes {
    order: Order,
    bytes: Vec<u8>,
}

impl Bytes {
    fn half(&mut self, value: u16) -> Result<(), AllocError> {
        let bytes = match self.order {
            Order::Big => value.to_be_bytes(),
            Order::Little => value.to_le_bytes(),
        };
        self.bytes.extend_from_slice(&bytes)
    }

    fn word(&mut self, value: u32) -> Result<(), AllocError> {
        let bytes = match self.order {
            Order::Big => value.to_be_bytes(),
            Order::Little => value.to_le_bytes(),
        };
        self.bytes.extend_from_slice(&bytes)
    }

    fn words(&mut self, values: &[u32]) -> Result<(), AllocError> {
        for value in values {
            self.word(*value)?;
        }
        Ok(())
    }

    /// The ELF header, with section headers behind the segments.
    fn header(&mut self, entry: u32, count: u16) -> Result<(), AllocError> {
        let data = match self.order {
            Order::Big => 2,
            Order::Little => 1,
        };
        let ident = [
            0x7F, b'E', b'L', b'F', 1, data, 1, 0, 0, 0, 0, 0, 0, 0, 0, 0,
        ];
        self.bytes.extend_from_slice(&ident)?;
        self.half(2)?;
        self.half(189)?;
        self.words(&[1, entry, 52, 0x1000, 0])?;
        for value in [52, 32, count, 40, 12, 11] {
            self.half(value)?;
        }
        Ok(())
    }

    fn segment(&mut self, s: &Segment) -> Result<(), AllocError> {
        self.words(&[s.p_type, s.p_offset, s.p_vaddr, s.p_vaddr])?;
        self.words(&[s.p_filesz, s.p_memsz, s.p_flags, 4])
    }
}

/// A file with these segments and bytes of 0, 1, 2 .. behind the headers, up to `size` bytes.
fn file_of(
    alloc: Global,
    order: Order,
    entry: u32,
    segments: &[Segment],
    size: usize,
) -> Result<Vec<u8>, AllocError> {
    let mut file = Bytes {
        order,
        bytes: Vec::new(alloc),
    };
    let count = u16::try_from(segments.len()).unwrap_or(u16::MAX);
    file.header(entry, count)?;
    for segment in segments {
        file.segment(segment)?;
    }
    for k in file.bytes.len()..size {
        file.bytes.push((k % 256) as u8).map_err(|_| AllocError)?;
    }
    Ok(file.bytes)
}

/// The address, the number of bytes, the first of them, the zeros and the flag of each part.
fn shape(parts: &Parts, k: usize) -> Option<(u32, usize, Option<u8>, u32, bool)> {
    let part = parts.get(k)?;
    let first = part.bytes.get(0).copied();
    Some((part.addr, part.bytes.len(), first, part.zeros, part.code))
}

/// Vectors at 0, code, read-only data, small data, data with bss, and heap and stack, as GNU `ld`
/// lays them out, with segments that load nothing between them.
#[test]
fn an_image_of_the_gnu_tools_is_read(rt: HostRuntime) -> Result<(), Fail> {
    let segments = [
        Segment {
            p_type: PT_NOTE,
            p_offset: 0xFFFF,
            p_vaddr: 0,
            p_filesz: 0x24,
            p_memsz: 0x24,
            p_flags: 4,
        },
        load(0x200, 0, 0x28, 0x28, 5),
        load(0x250, 0x50, 0x102, 0x104, 5),
        load(0x400, 0x158, 0x11, 0x14, 4),
        load(0x420, 0x16C, 8, 0x10, 6),
        load(0x430, 0x100, 0, 0, 6),
        load(0x430, 0x17C, 0x20, 0x120, 6),
        load(0x450, 0x2A0, 0, 0xC00, 6),
        Segment {
            p_type: PT_GNU_STACK,
            p_offset: 0,
            p_vaddr: 0,
            p_filesz: 0,
            p_memsz: 0,
            p_flags: 6,
        },
    ];
    let parts = [
        Some((0, 0x28, Some(0), 0, true)),
        Some((0x50, 0x102, Some(0x50), 2, true)),
        Some((0x158, 0x11, Some(0), 3, false)),
        Some((0x16C, 8, Some(0x20), 8, false)),
        Some((0x17C, 0x20, Some(0x30), 0x100, false)),
        Some((0x2A0, 0, None, 0xC00, false)),
        None,
    ];
    for order in [Order::Big, Order::Little] {
        let file = file_of(rt.alloc(), order, 0x50, &segments, 0x450)?;
        let image = read_elf(rt.alloc(), &file, 0x1000)?;
        assert!(rt; image.order == order && image.entry == 0x50, "{order:?}");
        for (k, expected) in parts.iter().enumerate() {
            assert!(rt; shape(&image.parts, k) == *expected, "{order:?}, part {k}");
        }
    }
    Ok(())
}

#[test]
fn segments_are_tested_together(rt: HostRuntime) -> Result<(), Fail> {
    let alloc = rt.alloc();
    let rows: [(&str, u32, &[Segment], Option<(u16, u32)>); 9] = [
        (
            "apart",
            8,
            &[load(0, 0, 8, 8, 5), load(0, 8, 8, 8, 5)],
            None,
        ),
        (
            "overlap",
            0,
            &[load(0, 0, 8, 8, 5), load(0, 4, 8, 8, 5)],
            Some((711, 1)),
        ),
        (
            "overlap with one that isn't the neighbour",
            0,
            &[
                load(0, 0, 8, 8, 5),
                load(0, 0x100, 0, 8, 5),
                load(0, 7, 0, 1, 5),
            ],
            Some((711, 2)),
        ),
        (
            "overlap of zeros around another",
            0,
            &[
                load(0, 0x20, 8, 8, 5),
                load(0, 0, 0, 0x40, 5),
                load(0, 0, 0, 0x40, 5),
            ],
            Some((711, 1)),
        ),
        (
            "a segment without bytes in another",
            0,
            &[load(0, 0, 8, 8, 5), load(0xFFFF_FFFF, 4, 0, 0, 5)],
            None,
        ),
        (
            "the first segment's memory before the second's sizes",
            0,
            &[load(0, 0xFFFC, 8, 8, 5), load(0, 0, 9, 8, 5)],
            Some((709, 0)),
        ),
        (
            "the file's bytes before the memory",
            0,
            &[load(0xFFFF, 0xFFFC, 8, 8, 5)],
            Some((706, 0xFFFF)),
        ),
        (
            "sizes of a segment without bytes",
            0,
            &[load(0, 0, 8, 8, 5), load(0, 0, 1, 0, 5)],
            Some((710, 1)),
        ),
        (
            "the memory's last byte",
            0xFFF8,
            &[load(0, 0xFFF8, 8, 8, 5)],
            None,
        ),
    ];
    for (name, entry, segments, expected) in rows {
        let file = file_of(alloc, Order::Big, entry, segments, 0x100)?;
        assert!(rt; refusal(alloc, &file) == expected, "{name}");
    }
    Ok(())
}
