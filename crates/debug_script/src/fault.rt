//! What is wrong with a script.
ghost use Rattle.std.specs.Prelude.{◌≡◌};
ghost use Rattle.debug_script.specs.Scripts.{code_of, refusal};
ghost use Rattle.debug_script.specs.declared.fault.ScriptFault.TheVariants.{NoMemory as NoMemoryToRead};

use host_io::NoMemory;

/// What a line breaks, by the number of the fault.
#[derive(Clone, Copy, Debug, PartialEq, Eq)]
pub enum ScriptRule {
    /// 1201: the first word is no command.
    UnknownCommand,
    /// 1202: the command has fewer or more words.
    WrongWordCount,
    /// 1203: the board has no core of that name.
    NoSuchCore,
    /// 1204: a number is none or out of range, or the core's image has no symbol of that name.
    BadNumber,
    /// 1205: no probe of that name is attached at this line.
    NoSuchProbe,
    /// 1206: there are 64 breakpoints before this one.
    TooManyBreakpoints,
}

impl ScriptRule {
    /// The number of the fault.
    pub fn code(self) -> u16
        ensures { result ≡ code_of self }
    {
        match self {
            ScriptRule::UnknownCommand => 1201,
            ScriptRule::WrongWordCount => 1202,
            ScriptRule::NoSuchCore => 1203,
            ScriptRule::BadNumber => 1204,
            ScriptRule::NoSuchProbe => 1205,
            ScriptRule::TooManyBreakpoints => 1206,
        }
    }

    /// The refusal of a script whose line of this number, counted from 1, breaks the rule.
    pub fn at(self, line: u32) -> ScriptFault
        ensures { result ≡ refusal self line }
    {
        ScriptFault::Refused {
            code: self.code(),
            line,
        }
    }
}

/// Why a script was not read.
#[derive(Clone, Copy, Debug, PartialEq, Eq)]
pub enum ScriptFault {
    /// The first line that is refused, counted from 1, and the least of its faults, 1201 to 1206.
    Refused { code: u16, line: u32 },
    /// There was no memory for the script.
    NoMemory,
}

impl From<NoMemory> for ScriptFault {
    ghost from_gives = { λ _ fault. fault ≡ NoMemoryToRead };

    fn from(_error: NoMemory) -> Self {
        ScriptFault::NoMemory
    }
}
