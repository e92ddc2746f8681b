ghost use Rattle.std.specs.Prelude.{◌≡◌, ◌∷◌, [], Option, Some, None};
ghost use Rattle.asm_source.specs.Faults.{code_of, comes_first, lesser};

use std::marker::Model;

/// What is wrong in a source.
#[derive(Clone, Copy, PartialEq, Eq, Debug)]
pub enum Rule {
    /// 1101: a statement that begins with no known mnemonic.
    UnknownMnemonic,
    /// 1102: the wrong number or kind of operands.
    WrongOperands,
    /// 1103: a number outside its field, or an instruction at an address that is no multiple of 4.
    OutOfRange,
    /// 1104: a label that is nowhere defined.
    Undefined,
    /// 1105: a label that is defined twice.
    DefinedTwice,
    /// 1106: what stands in a slot needs a prefix, or isn't allowed there.
    BadInSlot,
    /// 1107: no instruction of its part directly follows one with a slot.
    EmptySlot,
    /// 1108: an unknown directive.
    UnknownDirective,
    /// 1109: what begins as a number or a text is none.
    BadLiteral,
    /// 1110: a byte outside the syntax.
    BadCharacter,
    /// 1111: a part that shares a byte with an earlier one.
    SharedByte,
    /// 1112: too many bytes, parts or tokens, or an address past the limit.
    TooMuch,
}

impl Rule {
    /// The number of the fault.
    #[rattlefmt::skip]
    pub fn code(self) -> u16
        ensures { result ≡ code_of self }
    {
        match self {
            Rule::UnknownMnemonic => 1101,
            Rule::WrongOperands => 1102,
            Rule::OutOfRange => 1103,
            Rule::Undefined => 1104,
            Rule::DefinedTwice => 1105,
            Rule::BadInSlot => 1106,
            Rule::EmptySlot => 1107,
            Rule::UnknownDirective => 1108,
            Rule::BadLiteral => 1109,
            Rule::BadCharacter => 1110,
            Rule::SharedByte => 1111,
            Rule::TooMuch => 1112,
        }
    }
}

/// A fault of a source, and the line and column at which it stands, both counted from 1.
#[derive(Clone, Copy, PartialEq, Eq, Debug)]
pub struct Fault {
    pub line: u32,
    pub column: u32,
    pub rule: Rule,
}

impl Fault {
    /// Whether it is answered before another: at an earlier line, or column, or with a lesser number.
    fn comes_first(self, other: Fault) -> bool
        ensures { result ≡ comes_first self other }
    {
        self.line < other.line
            || self.line == other.line
                && (self.column < other.column
                    || self.column == other.column && self.rule.code() < other.rule.code())
    }
}

/// The first of the faults that were noted. It means that fault, or that there is none.
#[derive(Debug, Drop)]
pub struct First {
    fault: Option<Fault>,
}

impl Model for First {
    ghost use Rattle.std.specs.Prelude.{Option};
    ghost use Rattle.asm_source.specs.declared.fault.Fault.{Fault};

    ghost Value = { Option Fault };

    ghost view = { λ f. f.fault };
}

impl First {
    /// No fault yet.
    pub fn none() -> Self
        ensures { result ≡ None }
    {
        First { fault: None }
    }

    /// The first fault.
    pub fn get(&self) -> Option<Fault>
        ensures { result ≡ self.now }
    {
        self.fault
    }

    /// Notes a fault.
    pub fn note(&mut self, fault: Fault)
        ensures { self.new ≡ lesser self.old fault }
    {
        match self.fault {
            None => self.fault = Some(fault),
            Some(first) => {
                if fault.comes_first(first) {
                    self.fault = Some(fault);
                }
            }
        }
    }
}
