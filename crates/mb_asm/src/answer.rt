//! What `assemble` answers.
ghost use Rattle.std.specs.Prelude.{◌≡◌};
ghost use Rattle.mb_asm.specs.Assembly.{refusal};
ghost use Rattle.mb_asm.specs.declared.answer.AsmFault.TheVariants.{NoMemory as OutOfMemory};

use crate::word_lines::Lines;
use asm_source::Fault;
use elf_image::Image;
use host_io::NoMemory;

/// An image, and the source line of each of its instruction words.
#[derive(Debug, Drop)]
pub struct Assembled {
    pub image: Image,
    pub lines: Lines,
}

/// Why a source isn't assembled.
#[derive(Clone, Copy, Debug, PartialEq, Eq)]
pub enum AsmFault {
    /// Its first fault, 1101 to 1112, and the line and column at which it stands, both counted from 1.
    Refused { code: u16, line: u32, column: u32 },
    /// Memory was refused.
    NoMemory,
}

impl From<NoMemory> for AsmFault {
    ghost from_gives = { λ _ fault. fault ≡ OutOfMemory };

    fn from(_error: NoMemory) -> Self {
        AsmFault::NoMemory
    }
}

/// The answer to a source with this fault.
pub fn refusal(fault: Fault) -> AsmFault
    ensures { result ≡ refusal fault }
{
    AsmFault::Refused {
        code: fault.rule.code(),
        line: fault.line,
        column: fault.column,
    }
}
