use crate::read_source;
use asm_statement::Labels;
use std::alloc::{AllocError, Global};

/// The code, the line and the column of the first fault of a source's lines; no numbers where there is none.
fn first_fault(alloc: Global, source: &[u8]) -> Option<(u16, u32, u32)> {
    if source.len() > 0x40_0000 {
        return Some((0, 0, 0));
    }
    match read_source(alloc, source) {
        Ok(reading) => match reading.marked.first.get() {
            Some(fault) => Some((fault.rule.code(), fault.line, fault.column)),
            None => None,
        },
        Err(_) => Some((0, 0, 0)),
    }
}

/// Expected: the fault of each source by the rules on faults of the first round.
#[test]
#[rattlefmt::skip]
fn first_faults(rt: HostRuntime) {
    for (source, code, line, column) in [
        ("foo", 1101u16, 1u32, 1u32), ("nop\n\n  5 nop", 1101, 3, 3), (", nop", 1101, 1, 1), (": nop", 1101, 1, 1), ("x: \"a\"", 1101, 1, 4),
        ("addik r3, r0\nfoo", 1102, 1, 1), ("x: add r3, r4, 5", 1102, 1, 4), (".word rfsl0", 1102, 1, 1), ("imm 1\naddik r3, r0, x\nx: nop", 1102, 2, 1),
        ("imm 1\ny: .space 0\n.global z\n.align 4\naddik r3, r0, x\nx: nop", 1102, 5, 1),
        ("bslli r3, r4, 32", 1103, 1, 15), (".byte 255, 256", 1103, 1, 12), ("imm 1\naddik r3, r0, 65536", 1103, 2, 15),
        (" bri nowhere", 1104, 1, 6), ("nop\n.entry x", 1104, 2, 8), (".word 1, x", 1104, 1, 10), ("bri x\n@ x:", 1104, 1, 5),
        ("x: x: nop", 1105, 1, 4), ("x: nop\n y:x :nop", 1105, 2, 4), ("x: x: @", 1105, 1, 4), ("x:\nx: foo @", 1105, 2, 1),
        (".foo", 1108, 1, 1), ("x: .foo @", 1108, 1, 4),
        ("nop\n 0x", 1109, 2, 2), (".ascii \"ab", 1109, 1, 8), (".ascii \"\t\"", 1109, 1, 8), ("addik r3, r0, 12ab", 1109, 1, 15), ("1_", 1109, 1, 1),
        ("nop @", 1110, 1, 5), ("nop\r nop", 1110, 1, 4), ("nop\r", 1110, 1, 4), ("nop\r\r\n", 1110, 1, 4), ("addik r3, +1", 1110, 1, 11), ("bri x\nx: @", 1110, 2, 4), ("# caf\u{e9}\nnop \u{e9}", 1110, 2, 5), ("caf\u{e9}", 1101, 1, 1),
        (".word 1,1,1,1,1,1,1,1,1,1,1,1,1,1,1,1,1,1,1,1,", 1112, 1, 46), (".word 1,1,1,1,1,1,1,1,1,1,1,1,1,1,1,1,1,1,1,1@", 1110, 1, 46),
        ("foo @", 1101, 1, 1), ("foo\n@", 1101, 1, 1),
    ] {
        let found = first_fault(rt.alloc(), source.as_bytes());
        assert!(rt; found == Some((code, line, column)), "{source}: {found:?}");
    }
    for source in [
        "", "\n", "nop\r\n", "# @ \"\n", "x: .org 64\nbri x\n", "bri x\nx:", "r5: nop\nbrai r5x\nr5x:", "imm 1\n.align 8\naddik r3, r0, x\nx: nop",
        "imm 1\n.org 64\naddik r3, r0, x\nx: nop", "imm 1\nnop\naddik r3, r0, x\nx: nop", ".word 1,1,1,1,1,1,1,1,1,1,1,1,1,1,1,1,1,1,1,x\nx:",
    ] {
        let found = first_fault(rt.alloc(), source.as_bytes());
        assert!(rt; found.is_none(), "{source}: {found:?}");
    }
}

/// Expected: columns count bytes, however many a line has, and a comment holds any byte.
#[test]
fn long_lines_have_their_columns(rt: HostRuntime) -> Result<(), AllocError> {
    let rows: [(u8, &[u8], (u16, u32, u32)); 4] = [
        (b' ', b"foo", (1101, 1, 70_001)),
        (b'\t', b"x: x: nop", (1105, 1, 70_004)),
        (b'#', b"\xFF\x00\r\nfoo", (1101, 2, 1)),
        (b'\n', b" nop \xFF", (1110, 70_001, 6)),
    ];
    for (byte, end, fault) in rows {
        let mut source = vec![in rt.alloc(); byte; 70_000]?;
        source.extend_from_slice(end)?;
        let found = first_fault(rt.alloc(), source.as_slice());
        assert!(rt; found == Some(fault), "{byte}: {found:?}");
    }
    Ok(())
}

/// Expected: each label stands before the item that comes next, and the last `.entry` counts.
#[test]
fn labels_stand_before_items(rt: HostRuntime) {
    let source = b".entry c\na: b: nop\n.word 1, 2\nc: .entry a\n.ascii \"xy\"\nd:".as_slice();
    match read_source(rt.alloc(), source) {
        Ok(reading) => {
            let labels = &reading.marked.labels;
            assert!(rt; reading.items.len() == 5, "{}", reading.items.len());
            for (name, item) in [("a", 0usize), ("b", 0), ("c", 3), ("d", 5)] {
                assert!(rt; labels.find(name.as_bytes()) == Some(item), "{name}");
            }
            assert!(rt; labels.find(b"e".as_slice()).is_none(), "no label");
            assert!(rt; reading.entry == Some(0), "{:?}", reading.entry);
        }
        Err(_) => assert!(rt; false, "memory"),
    }
}
