//! What the instructions do: the pages of UG984's instruction set, as small enums.

use core_regs::Size;

/// What an instruction does, whatever form its second operand has.
#[derive(Clone, Copy, Debug, PartialEq, Eq)]
pub enum Kind {
    /// A sum: with C added where `carry` is set; C becomes the carry out but where `keep` is set.
    Add {
        carry: bool,
        keep: bool,
    },
    /// A difference: the second operand less rA, with C in place of 1 where `carry` is set.
    Rsub {
        carry: bool,
        keep: bool,
    },
    Compare {
        signed: bool,
    },
    Multiply(MulKind),
    Shift(ShiftKind),
    Divide {
        signed: bool,
    },
    Logic(LogicKind),
    /// The number of the first byte from the top that is equal in both operands.
    FirstEqualByte,
    /// Whether the operands are equal, or unequal where that is wanted.
    IsEqual {
        wanted: bool,
    },
    ShiftByOne(TopBit),
    /// What is made of rA alone.
    Unary(UnaryKind),
    /// The cache instructions do nothing.
    Cache,
    MoveFrom(Special),
    MoveToMsr,
    SetMsr,
    ClearMsr,
    /// A branch: to the operand itself where it is absolute, else from pc on.
    Branch {
        absolute: bool,
        delayed: bool,
        linked: bool,
    },
    Break,
    BranchIf {
        condition: Condition,
        delayed: bool,
    },
    Return(Return),
    Prefix,
    Barrier,
    Load(Size),
    Store(Size),
    /// A get, from the port that rB names where it is dynamic.
    Get {
        dynamic: bool,
    },
    /// A put, to the port that rB names where it is dynamic.
    Put {
        dynamic: bool,
    },
}

/// What comes in at the top of a shift by one.
#[derive(Clone, Copy, Debug, PartialEq, Eq)]
pub enum TopBit {
    /// The old top bit.
    Sign,
    Carry,
    Zero,
}

/// The special registers that `mfs` reads.
#[derive(Clone, Copy, Debug, PartialEq, Eq)]
pub enum Special {
    /// The instruction's own address.
    Pc,
    Msr,
    Ear,
    Esr,
    Btr,
    Edr,
}

/// How rA compares with 0, as a signed number, where a branch is taken.
#[derive(Clone, Copy, Debug, PartialEq, Eq)]
pub enum Condition {
    Equal,
    Unequal,
    Less,
    LessOrEqual,
    Greater,
    GreaterOrEqual,
}

/// From what a return leads back.
#[derive(Clone, Copy, Debug, PartialEq, Eq)]
pub enum Return {
    Subroutine,
    Interrupt,
    Break,
    Exception,
}

/// Where the second operand of an instruction stands.
#[derive(Clone, Copy, Debug, PartialEq, Eq)]
pub enum Second {
    /// In rB.
    Register,
    /// In 16 bits of the word, with the prefix that is held or else with their sign.
    Immediate,
    /// In the five low bits of the word.
    Count,
}

/// The bitwise operations; `Andn` is a and not b.
#[derive(Clone, Copy, Debug, PartialEq, Eq)]
pub enum LogicKind {
    And,
    Or,
    Xor,
    Andn,
}

/// What is made of one word.
#[derive(Clone, Copy, Debug, PartialEq, Eq)]
pub enum UnaryKind {
    /// Its low byte with the sign.
    ExtendByte,
    /// Its low half with the sign.
    ExtendHalf,
    /// How many zeros stand above its highest bit that is set.
    CountZeros,
    /// Its bytes in the reverse order.
    SwapBytes,
    /// Its halves in the reverse order.
    SwapHalves,
}

/// Which word of a product is wanted, and which operands have signs.
#[derive(Clone, Copy, Debug, PartialEq, Eq)]
pub enum MulKind {
    /// The low word.
    Low,
    /// The high word, both with their signs.
    High,
    /// The high word, a with its sign and b without.
    HighSu,
    /// The high word, both without signs.
    HighU,
}

/// The shifts by a number of places.
#[derive(Clone, Copy, Debug, PartialEq, Eq)]
pub enum ShiftKind {
    /// To the left.
    Left,
    /// To the right, filled with 0.
    Right,
    /// To the right, filled with the top bit.
    Arith,
}

/// How soon the register of an instruction can be used.
#[derive(Clone, Copy, Debug, PartialEq, Eq)]
pub enum Latency {
    /// By the next instruction.
    Single,
    /// Of a multiply or a barrel shift.
    Multiply,
    /// Of a load or a get.
    Load,
}
