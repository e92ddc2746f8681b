use crate::{Instr, decode, encode};
use op_table::{COUNT, Form, Op, row};

/// An instruction without fields.
fn bare(op: Op) -> Instr {
    Instr {
        op,
        rd: 0,
        ra: 0,
        rb: 0,
        imm: 0,
        flags: 0,
    }
}

fn three(op: Op, rd: u8, ra: u8, rb: u8) -> Instr {
    Instr {
        rd,
        ra,
        rb,
        ..bare(op)
    }
}

fn with_imm(op: Op, rd: u8, ra: u8, imm: u16) -> Instr {
    Instr {
        rd,
        ra,
        imm,
        ..bare(op)
    }
}

fn get(rd: u8, imm: u16, flags: u8) -> Instr {
    Instr {
        rd,
        imm,
        flags,
        ..bare(Op::Get)
    }
}

fn put(ra: u8, imm: u16, flags: u8) -> Instr {
    Instr {
        ra,
        imm,
        flags,
        ..bare(Op::Put)
    }
}

#[test]
fn reads_the_words_of_programs(rt: HostRuntime) {
    for (word, meant) in [
        (0x0000_0000, bare(Op::Add)),
        (0x00A3_2000, three(Op::Add, 5, 3, 4)),
        (0x10C4_2000, three(Op::Addk, 6, 4, 4)),
        (0x14A3_2001, three(Op::Cmp, 5, 3, 4)),
        (0x14C3_2003, three(Op::Cmpu, 6, 3, 4)),
        (0x3060_0000, with_imm(Op::Addik, 3, 0, 0)),
        (0x3060_0001, with_imm(Op::Addik, 3, 0, 1)),
        (0x3060_0002, with_imm(Op::Addik, 3, 0, 2)),
        (0x3060_0005, with_imm(Op::Addik, 3, 0, 5)),
        (0x3060_0007, with_imm(Op::Addik, 3, 0, 7)),
        (0x3060_FFFF, with_imm(Op::Addik, 3, 0, 0xFFFF)),
        (0x3080_0000, with_imm(Op::Addik, 4, 0, 0)),
        (0x3080_0001, with_imm(Op::Addik, 4, 0, 1)),
        (0x3080_0002, with_imm(Op::Addik, 4, 0, 2)),
        (0x3080_0007, with_imm(Op::Addik, 4, 0, 7)),
        (0x3080_FFF9, with_imm(Op::Addik, 4, 0, 0xFFF9)),
        (0x30A0_0009, with_imm(Op::Addik, 5, 0, 9)),
        (0x40A3_2002, three(Op::Mulhsu, 5, 3, 4)),
        (0x48A3_2000, three(Op::Idiv, 5, 3, 4)),
        (0x6463_0401, with_imm(Op::Bslli, 3, 3, 1)),
        (0x6C60_0000, get(3, 0, 0)),
        (0x6C80_0402, get(4, 2, 1)),
        (0x6C03_8000, put(3, 0, 0)),
        (0x6C03_8001, put(3, 1, 0)),
        (0x6C03_8800, put(3, 0, 2)),
        (0x6C03_A000, put(3, 0, 8)),
        (0x6C04_8000, put(4, 0, 0)),
        (0x6C05_8000, put(5, 0, 0)),
        (0x6C06_8000, put(6, 0, 0)),
        (0x6C07_8000, put(7, 0, 0)),
        (0x6C08_8000, put(8, 0, 0)),
        (0x6C11_8000, put(17, 0, 0)),
        (0x9410_0100, with_imm(Op::Msrset, 0, 0, 0x100)),
        (0x94C0_8001, with_imm(Op::MfsRmsr, 6, 0, 0)),
        (0x94C0_8005, with_imm(Op::MfsResr, 6, 0, 0)),
        (0x94E0_8001, with_imm(Op::MfsRmsr, 7, 0, 0)),
        (0x94E0_8003, with_imm(Op::MfsRear, 7, 0, 0)),
        (0x9500_800B, with_imm(Op::MfsRbtr, 8, 0, 0)),
        (0xB000_1234, with_imm(Op::Imm, 0, 0, 0x1234)),
        (0xB000_3080, with_imm(Op::Imm, 0, 0, 0x3080)),
        (0xB000_8000, with_imm(Op::Imm, 0, 0, 0x8000)),
        (0xB650_0000, with_imm(Op::Rtbd, 0, 16, 0)),
        (0xB800_0000, with_imm(Op::Bri, 0, 0, 0)),
        (0xB800_FFFC, with_imm(Op::Bri, 0, 0, 0xFFFC)),
        (0xB808_0040, with_imm(Op::Brai, 0, 0, 0x40)),
        (0xB810_0008, with_imm(Op::Brid, 0, 0, 8)),
        (0xB810_002C, with_imm(Op::Brid, 0, 0, 0x2C)),
        (0xBC25_FFEC, with_imm(Op::Bnei, 0, 5, 0xFFEC)),
        (0xE8A0_0002, with_imm(Op::Lwi, 5, 0, 2)),
        (0xE8A0_5678, with_imm(Op::Lwi, 5, 0, 0x5678)),
        (0xF860_0010, with_imm(Op::Swi, 3, 0, 0x10)),
    ] {
        assert!(rt; decode(word) == Some(meant), "word {word:08X}");
        assert!(rt; encode(&meant) == Some(word), "word {word:08X}");
    }
    for word in [0x6C60_8000, 0x5800_0000, 0xFFFF_FFFF] {
        assert!(rt; decode(word).is_none(), "word {word:08X}");
    }
}

/// What a word of a form reads as when all its field bits are set, and a reserved bit of the form that leads to no other row.
#[rattlefmt::skip]
fn filled(form: Form, op: Op) -> (Instr, Option<u32>) {
    let none = bare(op);
    match form {
        Form::A => (three(op, 31, 31, 31), Some(0x4)),
        Form::U => (three(op, 31, 31, 0), Some(0x8000)),
        Form::B => (with_imm(op, 31, 31, 0xFFFF), None),
        Form::S => (with_imm(op, 31, 31, 31), Some(0x8000)),
        Form::R => (three(op, 0, 0, 31), Some(0x4)),
        Form::Rl => (three(op, 31, 0, 31), Some(0x4)),
        Form::I => (with_imm(op, 0, 0, 0xFFFF), Some(0x0200_0000)),
        Form::Il => (with_imm(op, 31, 0, 0xFFFF), Some(0x0001_0000)),
        Form::Cr => (three(op, 0, 31, 31), Some(0x1)),
        Form::Ci => (with_imm(op, 0, 31, 0xFFFF), Some(0x0100_0000)),
        Form::M => (three(op, 31, 0, 0), Some(0x0002_0000)),
        Form::N => (with_imm(op, 0, 0, 31), Some(0x1)),
        Form::T => (three(op, 0, 31, 0), Some(0x2)),
        Form::E => (with_imm(op, 31, 0, 0x7FFF), Some(0x8000)),
        Form::G => (Instr { rd: 31, imm: 15, flags: 31, ..none }, Some(0x10)),
        Form::P => (Instr { ra: 31, imm: 15, flags: 30, ..none }, Some(0x400)),
        Form::Gd => (Instr { rd: 31, rb: 31, flags: 31, ..none }, Some(0x1)),
        Form::Pd => (Instr { ra: 31, rb: 31, flags: 30, ..none }, Some(0x20)),
    }
}

#[test]
fn reads_each_row(rt: HostRuntime) {
    for k in 0..COUNT {
        if let Some(row) = row(k) {
            let (full, reserved) = filled(row.form, row.op);
            assert!(rt; decode(row.bits) == Some(bare(row.op)), "{full:?} alone");
            assert!(rt;
                decode(row.bits | !row.mask) == Some(full),
                "{full:?} filled"
            );
            assert!(rt;
                encode(&full) == Some(row.bits | !row.mask),
                "{full:?} filled"
            );
            if let Some(bit) = reserved {
                assert!(rt;
                    decode(row.bits | bit).is_none(),
                    "{full:?} with a reserved bit"
                );
            }
        }
    }
}

#[test]
fn refuses_fields_out_of_range(rt: HostRuntime) {
    for i in [
        three(Op::Add, 32, 0, 0),
        Instr {
            imm: 1,
            ..bare(Op::Add)
        },
        with_imm(Op::Bslli, 3, 3, 32),
        with_imm(Op::Msrset, 3, 0, 0x8000),
        with_imm(Op::Mbar, 0, 0, 32),
        with_imm(Op::Mbar, 2, 0, 0),
        get(3, 16, 0),
        get(3, 0, 32),
        put(3, 0, 1),
        three(Op::Bri, 1, 0, 0),
    ] {
        assert!(rt; encode(&i).is_none(), "{i:?}");
    }
}

/// Expected: the registers that are read, each as a bit of its number, and the one that is written.
#[test]
fn tells_the_registers(rt: HostRuntime) {
    for (i, read, written) in [
        (three(Op::Add, 5, 3, 4), 1 << 3 | 1 << 4, Some(5)),
        (three(Op::Add, 0, 0, 0), 0, None),
        (three(Op::Lw, 5, 3, 4), 1 << 3 | 1 << 4, Some(5)),
        (three(Op::Sw, 5, 3, 4), 1 << 3 | 1 << 4 | 1 << 5, None),
        (with_imm(Op::Sbi, 31, 0, 8), 1 << 31, None),
        (three(Op::Wdc, 0, 3, 4), 1 << 3 | 1 << 4, None),
        (three(Op::Beqd, 0, 3, 4), 1 << 3 | 1 << 4, None),
        (three(Op::Brld, 15, 0, 4), 1 << 4, Some(15)),
        (with_imm(Op::Brki, 16, 0, 8), 0, Some(16)),
        (with_imm(Op::Rtsd, 0, 15, 8), 1 << 15, None),
        (with_imm(Op::Imm, 0, 0, 8), 0, None),
        (with_imm(Op::Mbar, 0, 0, 16), 0, None),
        (with_imm(Op::MfsRmsr, 6, 0, 0), 0, Some(6)),
        (with_imm(Op::Mts, 0, 6, 0), 1 << 6, None),
        (with_imm(Op::Msrset, 6, 0, 2), 0, Some(6)),
        (get(3, 1, 16), 0, Some(3)),
        (put(3, 1, 4), 1 << 3, None),
        (
            Instr {
                rd: 3,
                rb: 4,
                flags: 4,
                ..bare(Op::Getd)
            },
            1 << 4,
            Some(3),
        ),
        (
            Instr {
                ra: 3,
                rb: 4,
                ..bare(Op::Putd)
            },
            1 << 3 | 1 << 4,
            None,
        ),
    ] {
        let mut seen: u32 = 0;
        for register in 0..32u8 {
            if i.reads(register) {
                seen |= 1 << register;
            }
        }
        assert!(rt; seen == read, "{i:?} reads");
        assert!(rt; i.written() == written, "{i:?} writes");
    }
}
