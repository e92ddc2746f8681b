//! Corner values in each place: a table for each row of the instruction set, worked out from UG984's
//! equations over integers. A table's line is rA, its column rB.
ghost use Rattle.std.specs.Prelude.{◌<◌};

use crate::{
    DivFault, Divider, LogicKind, MulKind, Quotient, ShiftKind, UnaryKind, adder, barrel, compare,
    count_zeros, divide, logic, multiply, pattern, pcmpeq, pcmpne, sext8, sext16, sra, src, srl,
    swap_bytes, swap_halves, unary,
};
use std::process::Abort;

static CORNERS: [u32; 5] = [0, 1, 0x7FFF_FFFF, 0x8000_0000, 0xFFFF_FFFF];

fn corner(i: usize) -> u32
    requires { i < 5 }
{
    CORNERS[i]
}

/// Compares an answer with its place in a table.
fn agree(rt: &impl Abort, table: &[[u32; 5]; 5], i: usize, j: usize, answer: u32)
    requires i { i < 5 }
    requires j { j < 5 }
{
    assert_eq!(rt; answer, table[i][j], "line {i}, column {j}");
}

/// `add`.
static SUM: [[u32; 5]; 5] = [
    [0, 1, 0x7FFF_FFFF, 0x8000_0000, 0xFFFF_FFFF],
    [1, 2, 0x8000_0000, 0x8000_0001, 0],
    [
        0x7FFF_FFFF,
        0x8000_0000,
        0xFFFF_FFFE,
        0xFFFF_FFFF,
        0x7FFF_FFFE,
    ],
    [0x8000_0000, 0x8000_0001, 0xFFFF_FFFF, 0, 0x7FFF_FFFF],
    [0xFFFF_FFFF, 0, 0x7FFF_FFFE, 0x7FFF_FFFF, 0xFFFF_FFFE],
];

/// The carry of `add`.
static CARRY: [[u32; 5]; 5] = [
    [0, 0, 0, 0, 0],
    [0, 0, 0, 0, 1],
    [0, 0, 0, 0, 1],
    [0, 0, 0, 1, 1],
    [0, 1, 1, 1, 1],
];

/// `addc` with the carry set.
static SUM_AND_ONE: [[u32; 5]; 5] = [
    [1, 2, 0x8000_0000, 0x8000_0001, 0],
    [2, 3, 0x8000_0001, 0x8000_0002, 1],
    [0x8000_0000, 0x8000_0001, 0xFFFF_FFFF, 0, 0x7FFF_FFFF],
    [0x8000_0001, 0x8000_0002, 0, 1, 0x8000_0000],
    [0, 1, 0x7FFF_FFFF, 0x8000_0000, 0xFFFF_FFFF],
];

/// The carry of `addc` with the carry set.
static CARRY_AND_ONE: [[u32; 5]; 5] = [
    [0, 0, 0, 0, 1],
    [0, 0, 0, 0, 1],
    [0, 0, 0, 1, 1],
    [0, 0, 1, 1, 1],
    [1, 1, 1, 1, 1],
];

/// `rsub`: b + not a + 1.
static DIFFERENCE: [[u32; 5]; 5] = [
    [0, 1, 0x7FFF_FFFF, 0x8000_0000, 0xFFFF_FFFF],
    [0xFFFF_FFFF, 0, 0x7FFF_FFFE, 0x7FFF_FFFF, 0xFFFF_FFFE],
    [0x8000_0001, 0x8000_0002, 0, 1, 0x8000_0000],
    [0x8000_0000, 0x8000_0001, 0xFFFF_FFFF, 0, 0x7FFF_FFFF],
    [1, 2, 0x8000_0000, 0x8000_0001, 0],
];

/// The carry of `rsub`, set where nothing is borrowed.
static NO_BORROW: [[u32; 5]; 5] = [
    [1, 1, 1, 1, 1],
    [0, 1, 1, 1, 1],
    [0, 0, 1, 1, 1],
    [0, 0, 0, 1, 1],
    [0, 0, 0, 0, 1],
];

#[test]
fn adds(rt: HostRuntime) {
    for i in 0..5 {
        for j in 0..5 {
            let (a, b) = (corner(i), corner(j));
            agree(&rt, &SUM, i, j, adder(a, b, false).value);
            agree(&rt, &CARRY, i, j, u32::from(adder(a, b, false).carry));
            agree(&rt, &SUM_AND_ONE, i, j, adder(a, b, true).value);
            agree(
                &rt,
                &CARRY_AND_ONE,
                i,
                j,
                u32::from(adder(a, b, true).carry),
            );
            agree(&rt, &DIFFERENCE, i, j, adder(!a, b, true).value);
            agree(&rt, &NO_BORROW, i, j, u32::from(adder(!a, b, true).carry));
        }
    }
}

/// `and`.
static AND: [[u32; 5]; 5] = [
    [0, 0, 0, 0, 0],
    [0, 1, 1, 0, 1],
    [0, 1, 0x7FFF_FFFF, 0, 0x7FFF_FFFF],
    [0, 0, 0, 0x8000_0000, 0x8000_0000],
    [0, 1, 0x7FFF_FFFF, 0x8000_0000, 0xFFFF_FFFF],
];

/// `or`.
static OR: [[u32; 5]; 5] = [
    [0, 1, 0x7FFF_FFFF, 0x8000_0000, 0xFFFF_FFFF],
    [1, 1, 0x7FFF_FFFF, 0x8000_0001, 0xFFFF_FFFF],
    [
        0x7FFF_FFFF,
        0x7FFF_FFFF,
        0x7FFF_FFFF,
        0xFFFF_FFFF,
        0xFFFF_FFFF,
    ],
    [
        0x8000_0000,
        0x8000_0001,
        0xFFFF_FFFF,
        0x8000_0000,
        0xFFFF_FFFF,
    ],
    [
        0xFFFF_FFFF,
        0xFFFF_FFFF,
        0xFFFF_FFFF,
        0xFFFF_FFFF,
        0xFFFF_FFFF,
    ],
];

/// `xor`.
static XOR: [[u32; 5]; 5] = [
    [0, 1, 0x7FFF_FFFF, 0x8000_0000, 0xFFFF_FFFF],
    [1, 0, 0x7FFF_FFFE, 0x8000_0001, 0xFFFF_FFFE],
    [0x7FFF_FFFF, 0x7FFF_FFFE, 0, 0xFFFF_FFFF, 0x8000_0000],
    [0x8000_0000, 0x8000_0001, 0xFFFF_FFFF, 0, 0x7FFF_FFFF],
    [0xFFFF_FFFF, 0xFFFF_FFFE, 0x8000_0000, 0x7FFF_FFFF, 0],
];

/// `andn`.
static ANDN: [[u32; 5]; 5] = [
    [0, 0, 0, 0, 0],
    [1, 0, 0, 1, 0],
    [0x7FFF_FFFF, 0x7FFF_FFFE, 0, 0x7FFF_FFFF, 0],
    [0x8000_0000, 0x8000_0000, 0x8000_0000, 0, 0],
    [0xFFFF_FFFF, 0xFFFF_FFFE, 0x8000_0000, 0x7FFF_FFFF, 0],
];

#[test]
fn joins_bits(rt: HostRuntime) {
    for i in 0..5 {
        for j in 0..5 {
            let (a, b) = (corner(i), corner(j));
            agree(&rt, &AND, i, j, logic(a, b, LogicKind::And));
            agree(&rt, &OR, i, j, logic(a, b, LogicKind::Or));
            agree(&rt, &XOR, i, j, logic(a, b, LogicKind::Xor));
            agree(&rt, &ANDN, i, j, logic(a, b, LogicKind::Andn));
        }
    }
}

/// `cmp`.
static COMPARED_SIGNED: [[u32; 5]; 5] = [
    [0, 1, 0x7FFF_FFFF, 0x8000_0000, 0xFFFF_FFFF],
    [0xFFFF_FFFF, 0, 0x7FFF_FFFE, 0xFFFF_FFFF, 0xFFFF_FFFE],
    [0x8000_0001, 0x8000_0002, 0, 0x8000_0001, 0x8000_0000],
    [0, 1, 0x7FFF_FFFF, 0, 0x7FFF_FFFF],
    [1, 2, 0, 0x8000_0001, 0],
];

/// `cmpu`.
static COMPARED: [[u32; 5]; 5] = [
    [0, 1, 0x7FFF_FFFF, 0, 0x7FFF_FFFF],
    [0xFFFF_FFFF, 0, 0x7FFF_FFFE, 0x7FFF_FFFF, 0x7FFF_FFFE],
    [0x8000_0001, 0x8000_0002, 0, 1, 0],
    [0x8000_0000, 0x8000_0001, 0xFFFF_FFFF, 0, 0x7FFF_FFFF],
    [0x8000_0001, 0x8000_0002, 0x8000_0000, 0x8000_0001, 0],
];

#[test]
fn compares(rt: HostRuntime) {
    for i in 0..5 {
        for j in 0..5 {
            let (a, b) = (corner(i), corner(j));
            agree(&rt, &COMPARED_SIGNED, i, j, compare(a, b, true));
            agree(&rt, &COMPARED, i, j, compare(a, b, false));
        }
    }
}

/// `pcmpbf`.
static FIRST_EQUAL: [[u32; 5]; 5] = [
    [1, 1, 0, 2, 0],
    [1, 1, 0, 2, 0],
    [0, 0, 1, 0, 2],
    [2, 2, 0, 1, 0],
    [0, 0, 2, 0, 1],
];

/// `pcmpeq`.
static EQUAL: [[u32; 5]; 5] = [
    [1, 0, 0, 0, 0],
    [0, 1, 0, 0, 0],
    [0, 0, 1, 0, 0],
    [0, 0, 0, 1, 0],
    [0, 0, 0, 0, 1],
];

/// `pcmpne`.
static DIFFERENT: [[u32; 5]; 5] = [
    [0, 1, 1, 1, 1],
    [1, 0, 1, 1, 1],
    [1, 1, 0, 1, 1],
    [1, 1, 1, 0, 1],
    [1, 1, 1, 1, 0],
];

#[test]
fn compares_patterns(rt: HostRuntime) {
    for i in 0..5 {
        for j in 0..5 {
            let (a, b) = (corner(i), corner(j));
            agree(&rt, &FIRST_EQUAL, i, j, pattern(a, b));
            agree(&rt, &EQUAL, i, j, pcmpeq(a, b));
            agree(&rt, &DIFFERENT, i, j, pcmpne(a, b));
        }
    }
    assert_eq!(rt; pattern(0x1122_3344, 0x5566_3344), 3);
    assert_eq!(rt; pattern(0x1122_3344, 0x5566_7744), 4);
}

/// `mul`.
static LOW: [[u32; 5]; 5] = [
    [0, 0, 0, 0, 0],
    [0, 1, 0x7FFF_FFFF, 0x8000_0000, 0xFFFF_FFFF],
    [0, 0x7FFF_FFFF, 1, 0x8000_0000, 0x8000_0001],
    [0, 0x8000_0000, 0x8000_0000, 0, 0x8000_0000],
    [0, 0xFFFF_FFFF, 0x8000_0001, 0x8000_0000, 1],
];

/// `mulh`.
static HIGH: [[u32; 5]; 5] = [
    [0, 0, 0, 0, 0],
    [0, 0, 0, 0xFFFF_FFFF, 0xFFFF_FFFF],
    [0, 0, 0x3FFF_FFFF, 0xC000_0000, 0xFFFF_FFFF],
    [0, 0xFFFF_FFFF, 0xC000_0000, 0x4000_0000, 0],
    [0, 0xFFFF_FFFF, 0xFFFF_FFFF, 0, 0],
];

/// `mulhsu`.
static HIGH_SU: [[u32; 5]; 5] = [
    [0, 0, 0, 0, 0],
    [0, 0, 0, 0, 0],
    [0, 0, 0x3FFF_FFFF, 0x3FFF_FFFF, 0x7FFF_FFFE],
    [0, 0xFFFF_FFFF, 0xC000_0000, 0xC000_0000, 0x8000_0000],
    [0, 0xFFFF_FFFF, 0xFFFF_FFFF, 0xFFFF_FFFF, 0xFFFF_FFFF],
];

/// `mulhu`.
static HIGH_U: [[u32; 5]; 5] = [
    [0, 0, 0, 0, 0],
    [0, 0, 0, 0, 0],
    [0, 0, 0x3FFF_FFFF, 0x3FFF_FFFF, 0x7FFF_FFFE],
    [0, 0, 0x3FFF_FFFF, 0x4000_0000, 0x7FFF_FFFF],
    [0, 0, 0x7FFF_FFFE, 0x7FFF_FFFF, 0xFFFF_FFFE],
];

#[test]
fn multiplies(rt: HostRuntime) {
    for i in 0..5 {
        for j in 0..5 {
            let (a, b) = (corner(i), corner(j));
            agree(&rt, &LOW, i, j, multiply(a, b, MulKind::Low));
            agree(&rt, &HIGH, i, j, multiply(a, b, MulKind::High));
            agree(&rt, &HIGH_SU, i, j, multiply(a, b, MulKind::HighSu));
            agree(&rt, &HIGH_U, i, j, multiply(a, b, MulKind::HighU));
        }
    }
    // -1 with its sign by 2 without one
    assert_eq!(rt; multiply(0xFFFF_FFFF, 2, MulKind::HighSu), 0xFFFF_FFFF);
}

/// `bsll`, by the low five bits of rB.
static LEFT: [[u32; 5]; 5] = [
    [0, 0, 0, 0, 0],
    [1, 2, 0x8000_0000, 1, 0x8000_0000],
    [
        0x7FFF_FFFF,
        0xFFFF_FFFE,
        0x8000_0000,
        0x7FFF_FFFF,
        0x8000_0000,
    ],
    [0x8000_0000, 0, 0, 0x8000_0000, 0],
    [
        0xFFFF_FFFF,
        0xFFFF_FFFE,
        0x8000_0000,
        0xFFFF_FFFF,
        0x8000_0000,
    ],
];

/// `bsrl`, by the low five bits of rB.
static RIGHT: [[u32; 5]; 5] = [
    [0, 0, 0, 0, 0],
    [1, 0, 0, 1, 0],
    [0x7FFF_FFFF, 0x3FFF_FFFF, 0, 0x7FFF_FFFF, 0],
    [0x8000_0000, 0x4000_0000, 1, 0x8000_0000, 1],
    [0xFFFF_FFFF, 0x7FFF_FFFF, 1, 0xFFFF_FFFF, 1],
];

/// `bsra`, by the low five bits of rB.
static ARITHMETIC: [[u32; 5]; 5] = [
    [0, 0, 0, 0, 0],
    [1, 0, 0, 1, 0],
    [0x7FFF_FFFF, 0x3FFF_FFFF, 0, 0x7FFF_FFFF, 0],
    [
        0x8000_0000,
        0xC000_0000,
        0xFFFF_FFFF,
        0x8000_0000,
        0xFFFF_FFFF,
    ],
    [
        0xFFFF_FFFF,
        0xFFFF_FFFF,
        0xFFFF_FFFF,
        0xFFFF_FFFF,
        0xFFFF_FFFF,
    ],
];

#[test]
fn shifts(rt: HostRuntime) {
    for i in 0..5 {
        for j in 0..5 {
            let (a, n) = (corner(i), (corner(j) & 31) as u8);
            agree(&rt, &LEFT, i, j, barrel(a, n, ShiftKind::Left));
            agree(&rt, &RIGHT, i, j, barrel(a, n, ShiftKind::Right));
            agree(&rt, &ARITHMETIC, i, j, barrel(a, n, ShiftKind::Arith));
        }
    }
    assert_eq!(rt; barrel(0x9234_5678, 12, ShiftKind::Left), 0x4567_8000);
    assert_eq!(rt; barrel(0x9234_5678, 20, ShiftKind::Right), 0x0000_0923);
    assert_eq!(rt; barrel(0x9234_5678, 8, ShiftKind::Arith), 0xFF92_3456);
}

/// `sra`, `src` without and with the carry set, `srl`, and the carry after each of them.
static BY_ONE: [[u32; 5]; 5] = [
    [0, 0, 0x8000_0000, 0, 0],
    [0, 0, 0x8000_0000, 0, 1],
    [0x3FFF_FFFF, 0x3FFF_FFFF, 0xBFFF_FFFF, 0x3FFF_FFFF, 1],
    [0xC000_0000, 0x4000_0000, 0xC000_0000, 0x4000_0000, 0],
    [0xFFFF_FFFF, 0x7FFF_FFFF, 0xFFFF_FFFF, 0x7FFF_FFFF, 1],
];

#[test]
fn shifts_by_one(rt: HostRuntime) {
    for i in 0..5 {
        let a = corner(i);
        agree(&rt, &BY_ONE, i, 0, sra(a).value);
        agree(&rt, &BY_ONE, i, 1, src(a, false).value);
        agree(&rt, &BY_ONE, i, 2, src(a, true).value);
        agree(&rt, &BY_ONE, i, 3, srl(a).value);
        agree(&rt, &BY_ONE, i, 4, u32::from(sra(a).carry));
        agree(&rt, &BY_ONE, i, 4, u32::from(src(a, true).carry));
        agree(&rt, &BY_ONE, i, 4, u32::from(srl(a).carry));
    }
}

#[test]
fn extends_signs(rt: HostRuntime) {
    assert_eq!(rt; sext8(0x1234_567F), 0x0000_007F);
    assert_eq!(rt; sext8(0x0000_0080), 0xFFFF_FF80);
    assert_eq!(rt; sext16(0x1234_7FFF), 0x0000_7FFF);
    assert_eq!(rt; sext16(0x0000_8000), 0xFFFF_8000);
}

/// Expected: 32 for 0, and n for the word whose highest bit that is set is bit n from the top.
#[test]
fn counts_leading_zeros(rt: HostRuntime) {
    for (word, zeros) in [
        (0, 32u32),
        (1, 31),
        (2, 30),
        (3, 30),
        (0x0000_FFFF, 16),
        (0x0001_0000, 15),
        (0x7FFF_FFFF, 1),
        (0x8000_0000, 0),
        (0xFFFF_FFFF, 0),
    ] {
        assert!(rt; count_zeros(word) == zeros, "{word}");
    }
}

#[test]
fn turns_words_round(rt: HostRuntime) {
    assert_eq!(rt; swap_bytes(0x1122_3344), 0x4433_2211);
    assert_eq!(rt; swap_bytes(0x0000_0001), 0x0100_0000);
    assert_eq!(rt; swap_bytes(0x8000_0000), 0x0000_0080);
    assert_eq!(rt; swap_halves(0x1122_3344), 0x3344_1122);
    assert_eq!(rt; swap_halves(0x0000_0001), 0x0001_0000);
    assert_eq!(rt; swap_halves(0x8000_0000), 0x0000_8000);
}

/// Expected: what each instruction of one register makes of 0080FF80 hex.
#[test]
fn each_kind_of_one_word(rt: HostRuntime) {
    for (kind, answer) in [
        (UnaryKind::ExtendByte, 0xFFFF_FF80u32),
        (UnaryKind::ExtendHalf, 0xFFFF_FF80),
        (UnaryKind::CountZeros, 8),
        (UnaryKind::SwapBytes, 0x80FF_8000),
        (UnaryKind::SwapHalves, 0xFF80_0080),
    ] {
        assert!(rt; unary(0x0080_FF80, kind) == answer, "{kind:?}");
    }
    assert_eq!(rt; unary(0x0000_7F80, UnaryKind::ExtendHalf), 0x0000_7F80);
}

/// `idiv`: rB / rA.
static SIGNED_QUOTIENT: [[u32; 5]; 5] = [
    [0, 0, 0, 0, 0],
    [0, 1, 0x7FFF_FFFF, 0x8000_0000, 0xFFFF_FFFF],
    [0, 0, 1, 0xFFFF_FFFF, 0],
    [0, 0, 0, 1, 0],
    [0, 0xFFFF_FFFF, 0x8000_0001, 0x8000_0000, 1],
];

/// `idivu`: rB / rA.
static QUOTIENT: [[u32; 5]; 5] = [
    [0, 0, 0, 0, 0],
    [0, 1, 0x7FFF_FFFF, 0x8000_0000, 0xFFFF_FFFF],
    [0, 0, 1, 1, 2],
    [0, 0, 0, 1, 1],
    [0, 0, 0, 0, 1],
];

/// The quotient of 32 steps, of which the last one alone ends the division.
fn in_steps(dividend: u32, divisor: u32, signed: bool) -> Option<Quotient> {
    let mut divider = Divider::start(dividend, divisor, signed);
    for _ in 0..32u8 {
        if divider.done() {
            return None;
        }
        divider.step();
    }
    if divider.done() {
        Some(divider.quotient())
    } else {
        None
    }
}

#[test]
fn divides(rt: HostRuntime) {
    for i in 0..5 {
        for j in 0..5 {
            let (a, b) = (corner(i), corner(j));
            agree(&rt, &SIGNED_QUOTIENT, i, j, divide(b, a, true).value);
            agree(&rt, &QUOTIENT, i, j, divide(b, a, false).value);
        }
    }
    // -7 / 2 is -3
    assert_eq!(rt; divide(0xFFFF_FFF9, 2, true).value, 0xFFFF_FFFD);
    assert_eq!(rt; divide(7, 0, true).fault, Some(DivFault::Zero));
    assert_eq!(rt;
        divide(0x8000_0000, 0xFFFF_FFFF, true).fault,
        Some(DivFault::Overflow)
    );
    assert_eq!(rt; divide(0x8000_0000, 0xFFFF_FFFF, false).fault, None);
    assert_eq!(rt; divide(0x8000_0000, 1, true).fault, None);
}

#[test]
fn divides_in_steps(rt: HostRuntime) {
    for i in 0..5 {
        for j in 0..5 {
            let (a, b) = (corner(i), corner(j));
            assert_eq!(rt; in_steps(b, a, true), Some(divide(b, a, true)));
            assert_eq!(rt; in_steps(b, a, false), Some(divide(b, a, false)));
        }
    }
}
