use crate::{AsmFault, Assembled, assemble};
use core_regs::Order;
use itoa::Buffer;
use std::alloc::{AllocError, Global};

/// What a source assembles to.
fn assembled(alloc: Global, source: &[u8], order: Order) -> Result<Assembled, AsmFault> {
    if source.len() > 0x40_0000 {
        return Err(AsmFault::NoMemory);
    }
    assemble(alloc, source, order)
}

/// Whether a source is one part at this address with these first bytes, so many in all.
fn is_part(
    alloc: Global,
    source: &[u8],
    order: Order,
    addr: u32,
    first: &[u8],
    count: usize,
) -> bool {
    match assembled(alloc, source, order) {
        Ok(Assembled { image, .. }) => match image.parts.as_slice() {
            [part] => {
                let bytes = part.bytes.as_slice();
                bytes.len() == count
                    && bytes.len() >= first.len()
                    && &bytes[..first.len()] == first
                    && part.addr == addr
                    && part.zeros == 0
                    && part.code
            }
            _ => false,
        },
        Err(_) => false,
    }
}

/// Expected: the address, the first bytes and the number of bytes of the one part of each source.
#[test]
#[rattlefmt::skip]
fn sources_are_their_bytes(rt: HostRuntime) {
    for (source, addr, first, count) in [
        ("addik r3, r0, 0x12345", 0u32, b"\xB0\x00\x00\x01\x30\x60\x23\x45".as_slice(), 8usize),
        ("addik r3, r0, 5\nput r3, rfsl0\nbri end\nend: bri 0", 0, b"\x30\x60\x00\x05\x6C\x03\x80\x00\xB8\x00\x00\x04\xB8\x00\x00\x00".as_slice(), 16),
        ("bri end\n.space 32760\nend: bri 0", 0, b"\xB8\x00\x7F\xFC\x00\x00".as_slice(), 32768),
        ("bri end\n.space 32768\nend: bri 0", 0, b"\xB0\x00\x00\x00\xB8\x00\x80\x04".as_slice(), 32780),
        ("x: addik r3, r0, 0x12345\n.word x", 0, b"\xB0\x00\x00\x01\x30\x60\x23\x45\x00\x00\x00\x00".as_slice(), 12),
        ("nop\nx: .align 8\n.word x", 0, b"\x80\x00\x00\x00\x00\x00\x00\x00\x00\x00\x00\x04".as_slice(), 12),
        ("nop\n.align 8\nx: .word x, -1, 0xFFFFFFFF", 0, b"\x80\x00\x00\x00\x00\x00\x00\x00\x00\x00\x00\x08\xFF\xFF\xFF\xFF\xFF\xFF\xFF\xFF".as_slice(), 20),
        (".org 64\n.half -1, 1\n.byte -1, 2\n.ascii \"a\\n\\\"\"", 64, b"\xFF\xFF\x00\x01\xFF\x02a\n\"".as_slice(), 9),
        ("imm 1\naddik r3, r0, -32768", 0, b"\xB0\x00\x00\x01\x30\x60\x80\x00".as_slice(), 8),
        ("clz r4, r3\nswapb r5, r3\nswaph r6, r3", 0, b"\x90\x83\x00\xE0\x90\xA3\x01\xE0\x90\xC3\x01\xE2".as_slice(), 12),
        ("addik r3, r0, 0xFFFFFFFF", 0, b"\xB0\x00\xFF\xFF\x30\x60\xFF\xFF".as_slice(), 8),
        ("brid 8\n.space 0\nx: nop", 0, b"\xB8\x10\x00\x08\x80\x00\x00\x00".as_slice(), 8),
        (".org 8\n.org 8\nnop", 8, b"\x80\x00\x00\x00".as_slice(), 4),
        (".org 67108860\nnop", 67_108_860, b"\x80\x00\x00\x00".as_slice(), 4),
        (".space 1048576", 0, b"\x00".as_slice(), 1_048_576),
    ] {
        assert!(rt; is_part(rt.alloc(), source.as_bytes(), Order::Big, addr, first, count), "{source}");
    }
    let little = b"addik r3, r0, 0x12345\n.word 0x01020304\n.half 0x0506\n.byte 7".as_slice();
    assert!(rt; is_part(rt.alloc(), little, Order::Little, 0, b"\x01\x00\x00\xB0\x45\x23\x60\x30\x04\x03\x02\x01\x06\x05\x07".as_slice(), 15), "little");
}

/// Expected: the number, the line and the column of the first fault of each source.
#[test]
#[rattlefmt::skip]
fn faults_are_told(rt: HostRuntime) {
    for (source, code, line, column) in [
        ("addik r3, r0\nfoo", 1102u16, 1u32, 1u32), ("foo", 1101, 1, 1), ("x: x: nop", 1105, 1, 4),
        (".byte 1\nnop", 1103, 2, 1), (".byte 1\n x: nop", 1103, 2, 5), (".byte 1\nbslli r3, r4, 32", 1103, 2, 15),
        ("brid 8\naddik r3, r0, 0x12345", 1106, 2, 1), ("brid 8\nbri 0", 1106, 2, 1), ("brid 8\nx: addik r3, r0, far\n.space 32768\nfar: bri 0", 1106, 2, 4),
        ("brid 8", 1107, 1, 1), ("brid 8\n.word 1", 1107, 1, 1), ("brid 8\n.org 64\nnop", 1107, 1, 1), (" beqid r3, 8\n.align 8\nnop", 1107, 1, 2),
        (".org 8\n.word 1\n.org 8\n.word 2", 1111, 3, 1), (".word 1\n.org 0\n.byte 1", 1111, 2, 1), (".org 12\nnop\n.org 8\nnop\nx: .org 4\n.space 12", 1111, 5, 4),
        ("nop\n.org 0\nnop\n.org 0\nnop\nbrid 8", 1111, 2, 1), ("brid 8\n.org 0\nnop", 1107, 1, 1), ("nop\n.org 0\nnop\n.org 0\nfoo", 1101, 5, 1),
        (".space 1048577", 1112, 1, 1), (".space 4294967295", 1112, 1, 1), (".space 1048576\nx: .byte 1", 1112, 2, 4), (".org 67108868", 1112, 1, 1), (".org 67108864\n.byte 1", 1112, 2, 1),
        ("brid 8\n.word 1\nfoo", 1101, 3, 1), (".byte 1\nnop\n.org 0\n.word 0", 1103, 2, 1),
    ] {
        match assembled(rt.alloc(), source.as_bytes(), Order::Big) {
            Err(fault) => assert!(rt; fault == AsmFault::Refused { code, line, column }, "{source}: {fault:?}"),
            Ok(_) => assert!(rt; false, "{source}"),
        }
    }
    for source in ["", "brid 8\naddik r3, r0, far\n.space 8\nfar: bri 0", ".org 67108864", "x: .entry x", ".org 8\nnop\n.org 4\nnop\n.org 12\nnop"] {
        assert!(rt; assembled(rt.alloc(), source.as_bytes(), Order::Big).is_ok(), "{source}");
    }
}

/// A source of so many parts, each a byte in two lines.
fn parts(alloc: Global, count: u32) -> Result<Vec<u8>, AllocError> {
    let mut source = Vec::new(alloc);
    for k in 0..count {
        let mut digits = Buffer::new();
        source.extend_from_slice(b".org ")?;
        source.extend_from_slice(digits.format(k.saturating_mul(4)).as_bytes())?;
        source.extend_from_slice(b"\n.byte 0\n")?;
    }
    Ok(source)
}

/// Expected: 65,534 parts are the most; the next one is refused at its `.org`.
#[test]
fn parts_are_counted(rt: HostRuntime) -> Result<(), AllocError> {
    let source = parts(rt.alloc(), 65_534)?;
    assert!(rt; assembled(rt.alloc(), source.as_slice(), Order::Big).is_ok());
    let source = parts(rt.alloc(), 65_536)?;
    let fault = assembled(rt.alloc(), source.as_slice(), Order::Big).err();
    let wanted = AsmFault::Refused {
        code: 1112,
        line: 131_069,
        column: 1,
    };
    assert!(rt; fault == Some(wanted), "{fault:?}");
    Ok(())
}

/// Expected: where each program begins, and the address and line of each instruction word.
#[test]
fn entries_and_lines_are_told(rt: HostRuntime) {
    for (source, entry) in [
        ("nop\nx: nop\n.entry x", 4u32),
        (".org 64\nnop", 64),
        (".entry a\n.entry b\na: nop\nb: nop", 4),
        ("", 0),
    ] {
        match assembled(rt.alloc(), source.as_bytes(), Order::Big) {
            Ok(answer) => assert!(rt; answer.image.entry == entry, "{source}"),
            Err(_) => assert!(rt; false, "{source}"),
        }
    }
    let source = b"nop\n.word 1\n\naddik r3, r0, 0x12345".as_slice();
    match assembled(rt.alloc(), source, Order::Big) {
        Ok(Assembled { lines, .. }) => {
            assert!(rt; lines.len() == 3, "{}", lines.len());
            for (k, addr, line) in [(0usize, 0u32, 1u32), (1, 8, 4), (2, 12, 4)] {
                let told = lines.get(k);
                assert!(rt;
                    matches!(told, Some(l) if l.addr == addr && l.line == line),
                    "{k}"
                );
            }
        }
        Err(_) => assert!(rt; false, "memory"),
    }
}
