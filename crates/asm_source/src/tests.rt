use crate::{Fault, First, Item, Operand, Rule, has_slot, is_relative};
use asm_layout::Piece;
use mb_decode::Instr;
use op_table::Op;

/// An instruction with a value.
fn instruction(op: Op, value: Option<Operand>, after_imm: bool) -> Item {
    let instr = Instr {
        op,
        rd: 0,
        ra: 0,
        rb: 0,
        imm: 0,
        flags: 0,
    };
    Item::Instruction {
        instr,
        value,
        after_imm,
    }
}

/// Expected: the fault with the least line, then the least column, then the least number.
#[test]
#[rattlefmt::skip]
fn the_first_fault_is_answered(rt: HostRuntime) {
    let faults = [
        Fault { line: 3, column: 1, rule: Rule::UnknownMnemonic },
        Fault { line: 2, column: 7, rule: Rule::OutOfRange },
        Fault { line: 2, column: 4, rule: Rule::TooMuch },
        Fault { line: 2, column: 4, rule: Rule::SharedByte },
        Fault { line: 2, column: 5, rule: Rule::UnknownMnemonic },
    ];
    let mut first = First::none();
    for fault in faults {
        first.note(fault);
    }
    assert!(rt; first.get() == Some(faults[3]), "{:?}", first.get());
    for (code, rule) in [
        (1101, Rule::UnknownMnemonic), (1102, Rule::WrongOperands), (1103, Rule::OutOfRange), (1104, Rule::Undefined),
        (1105, Rule::DefinedTwice), (1106, Rule::BadInSlot), (1107, Rule::EmptySlot), (1108, Rule::UnknownDirective),
        (1109, Rule::BadLiteral), (1110, Rule::BadCharacter), (1111, Rule::SharedByte), (1112, Rule::TooMuch),
    ] {
        assert!(rt; rule.code() == code, "{rule:?}");
    }
}

/// Expected: the bytes of an instruction with a number, and whether it has a prefix.
#[test]
#[rattlefmt::skip]
fn numbers_past_16_bits_have_a_prefix(rt: HostRuntime) {
    for (number, after_imm, bytes) in [
        (0i64, false, 4), (32767, false, 4), (-32768, false, 4), (32768, false, 8), (-32769, false, 8),
        (0xFFFF_8000, false, 8), (32768, true, 4), (65535, true, 4),
    ] {
        let item = instruction(Op::Addik, Some(Operand::Number(number)), after_imm);
        let piece = item.piece();
        assert!(rt; matches!(piece, Piece::Bytes(count) if count == bytes), "{number}: {piece:?}");
        assert!(rt; item.prefixed(false) == (bytes == 8), "{number}");
    }
    for (op, relative, slot) in [
        (Op::Bri, true, false), (Op::Brai, false, false), (Op::Brid, true, true), (Op::Bralid, false, true), (Op::Brki, false, false),
        (Op::Beqi, true, false), (Op::Beqid, true, true), (Op::Rtsd, false, true), (Op::Addik, false, false), (Op::Swi, false, false),
    ] {
        assert!(rt; is_relative(op) == relative && has_slot(op) == slot, "{op:?}");
        let piece = instruction(op, Some(Operand::Label(7)), false).piece();
        assert!(rt; matches!(piece, Piece::Labelled { label: 7, relative: by } if by == relative), "{op:?}: {piece:?}");
    }
}
