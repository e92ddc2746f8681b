//! The forms of an instruction word (UG984, "MicroBlaze Instruction Set Architecture", "Formats").

/// What a field of an instruction word holds.
#[derive(Clone, Copy, PartialEq, Eq, Debug)]
pub enum Part {
    /// The numbers of the registers rD, rA and rB.
    Rd,
    Ra,
    Rb,
    /// An immediate; also a stream's port, a shift count, or the number of `mbar`.
    Imm,
    /// The letters n, c, t, a and e of a `get`, n the highest.
    Letters,
    /// The letters n, c, t and a of a `put`, which has no e, the lowest.
    PutLetters,
}

/// A field of an instruction word.
#[derive(Clone, Copy, PartialEq, Eq, Debug)]
pub struct Field {
    /// What it holds.
    pub part: Part,
    /// The first of its bits; bit 0 is the highest of the word.
    pub first: u8,
    /// How many bits it has.
    pub width: u8,
}

/// The forms of an instruction word, by the fields that they have: `Form::fields`.
#[derive(Clone, Copy, PartialEq, Eq, Debug)]
pub enum Form {
    /// Three registers.
    A,
    /// Two registers, rD and rA.
    U,
    /// Two registers and an immediate.
    B,
    /// Two registers and a shift count.
    S,
    /// rB: a branch without a link.
    R,
    /// rD and rB: a branch that links.
    Rl,
    /// An immediate: a branch without a link, and `imm`.
    I,
    /// rD and an immediate: a branch that links.
    Il,
    /// rA and rB: a conditional branch, and the cache instructions.
    Cr,
    /// rA and an immediate: a conditional branch, and the returns.
    Ci,
    /// rD: a move from a special register.
    M,
    /// A number in the place of rD: `mbar`.
    N,
    /// rA: a move to a special register.
    T,
    /// rD and a 15-bit immediate: the changes of MSR bits.
    E,
    /// rD, letters and a port: `get`.
    G,
    /// rA, letters and a port: `put`.
    P,
    /// rD, rB and letters: `getd`.
    Gd,
    /// rA, rB and letters: `putd`.
    Pd,
}
