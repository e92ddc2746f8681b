use crate::{Named, Slot, mnemonic, port_of, register_of, shape_of, special_name, with_special};
use op_table::{Op, row_of};

/// Expected: the operands of an instruction in the order of UG984's assembly syntax, and its special register.
#[test]
#[rattlefmt::skip]
fn instructions_have_their_operands(rt: HostRuntime) {
    for (op, count, first, last, special) in [
        (Op::Add, 3, Slot::RegisterD, Slot::RegisterB, ""),
        (Op::Swi, 3, Slot::RegisterD, Slot::Value, ""),
        (Op::Bslli, 3, Slot::RegisterD, Slot::Number { below: 32 }, ""),
        (Op::Bri, 1, Slot::Value, Slot::Value, ""),
        (Op::Imm, 1, Slot::Upper, Slot::Upper, ""),
        (Op::Mbar, 1, Slot::Number { below: 32 }, Slot::Number { below: 32 }, ""),
        (Op::Beqid, 2, Slot::RegisterA, Slot::Value, ""),
        (Op::MfsRedr, 2, Slot::RegisterD, Slot::Special, "redr"),
        (Op::Mts, 2, Slot::Special, Slot::RegisterA, "rmsr"),
        (Op::Put, 2, Slot::RegisterA, Slot::Port, ""),
        (Op::Getd, 2, Slot::RegisterD, Slot::RegisterB, ""),
    ] {
        let row = row_of(op);
        let shape = shape_of(row.form, row.kind);
        assert!(rt; shape.len() == count, "{op:?}");
        assert!(rt; shape.first() == Some(&first), "{op:?}");
        assert!(rt; shape.last() == Some(&last), "{op:?}");
        assert!(rt; special_name(row.kind) == special.as_bytes(), "{op:?}");
    }
}

/// Expected: what each word names, the letters of a stream access in the order t, n, e, c, a.
#[test]
#[rattlefmt::skip]
fn words_are_mnemonics(rt: HostRuntime) {
    for (word, op, flags, bare) in [
        ("addik", Op::Addik, 0, false), ("wdc.clear", Op::WdcClear, 0, false), ("mfs", Op::MfsRpc, 0, false),
        ("nop", Op::Or, 0, true), ("la", Op::Addik, 0, false), ("or", Op::Or, 0, false),
        ("get", Op::Get, 0, false), ("eget", Op::Get, 1, false), ("tnecagetd", Op::Getd, 31, false),
        ("put", Op::Put, 0, false), ("tput", Op::Put, 4, false), ("tncaputd", Op::Putd, 30, false), ("ncput", Op::Put, 24, false),
    ] {
        assert!(rt; mnemonic(word.as_bytes()) == Some(Named { op, flags, bare }), "{word}");
    }
    for word in ["", "foo", "addi k", "ADD", "eput", "ntget", "ttget", "naddik", "get ", ".word"] {
        assert!(rt; mnemonic(word.as_bytes()).is_none(), "{word}");
    }
}

/// Expected: the registers and ports that words name, without a leading zero.
#[test]
#[rattlefmt::skip]
fn words_are_registers(rt: HostRuntime) {
    for (word, register, port) in [
        ("r0", Some(0), None), ("r9", Some(9), None), ("r31", Some(31), None), ("rfsl0", None, Some(0)), ("rfsl15", None, Some(15)),
        ("r32", None, None), ("r03", None, None), ("R3", None, None), ("rfsl16", None, None), ("r", None, None), ("", None, None),
    ] {
        assert!(rt; register_of(word.as_bytes()) == register, "{word}");
        assert!(rt; port_of(word.as_bytes()) == port, "{word}");
    }
    for (op, word, expected) in [
        (Op::MfsRpc, "redr", Some(Op::MfsRedr)), (Op::MfsRpc, "rmsr", Some(Op::MfsRmsr)), (Op::MfsRpc, "rfsl0", None),
        (Op::Mts, "rmsr", Some(Op::Mts)), (Op::Mts, "rpc", None), (Op::MfsRpc, "", None),
    ] {
        assert!(rt; with_special(op, word.as_bytes()) == expected, "{word}");
    }
}
