//! Why a file gives no image.
ghost use Rattle.std.specs.Prelude.{◌≡◌};
ghost use Rattle.elf_image.specs.Tests.{code_of, fault_at, refusal};
ghost use Rattle.elf_image.specs.declared.fault.ElfFault.TheVariants.{NoMemory as NoMemoryToRead};

use host_io::NoMemory;
use thiserror::Error;

/// Why a file gives no image.
#[derive(Clone, Copy, Debug, PartialEq, Eq, Error)]
pub enum ElfFault {
    /// The first test that fails, and an offset, an index or an address that tells where.
    #[error("image fault {code} at {at}")]
    Refused { code: u16, at: u32 },
    /// Memory was refused.
    #[error("no memory")]
    NoMemory,
}

impl From<NoMemory> for ElfFault {
    ghost from_gives = { λ _ fault. fault ≡ NoMemoryToRead };

    fn from(_error: NoMemory) -> Self {
        ElfFault::NoMemory
    }
}

/// What is wrong with a file, each with its code (the ELF32 specification has the fields).
#[derive(Clone, Copy, Debug, PartialEq, Eq)]
pub enum ElfRule {
    /// 701: the file doesn't begin as ELF.
    NoMagic,
    /// 702: it isn't of class 32, or its byte order is unknown.
    UnknownFormat,
    /// 703: one of its versions isn't the current one.
    UnknownVersion,
    /// 704: it isn't an executable (ET_EXEC).
    NotExecutable,
    /// 705: its machine isn't MicroBlaze, by its number or the old one.
    OtherMachine,
    /// 706: the header, the program headers or a segment's bytes don't lie in the file.
    PastFileEnd,
    /// 707: it has program headers whose size isn't 32.
    OtherHeaderSize,
    /// 708: no PT_LOAD has bytes in memory.
    NothingToLoad,
    /// 709: a PT_LOAD passes the memory's end.
    PastMemoryEnd,
    /// 710: a PT_LOAD has more bytes in the file than in memory.
    MoreThanItsMemory,
    /// 711: a PT_LOAD shares a byte in memory with an earlier one.
    Overlap,
    /// 712: the entry isn't a multiple of 4 in a PT_LOAD.
    BadEntry,
}

impl ElfRule {
    /// The number that tells what is wrong, 701 to 712.
    pub fn code(self) -> u16
        ensures { result ≡ code_of self }
    {
        match self {
            ElfRule::NoMagic => 701,
            ElfRule::UnknownFormat => 702,
            ElfRule::UnknownVersion => 703,
            ElfRule::NotExecutable => 704,
            ElfRule::OtherMachine => 705,
            ElfRule::PastFileEnd => 706,
            ElfRule::OtherHeaderSize => 707,
            ElfRule::NothingToLoad => 708,
            ElfRule::PastMemoryEnd => 709,
            ElfRule::MoreThanItsMemory => 710,
            ElfRule::Overlap => 711,
            ElfRule::BadEntry => 712,
        }
    }

    /// This fault at a place.
    pub fn at(self, at: u32) -> Fault
        ensures { result ≡ fault_at self at }
    {
        Fault { rule: self, at }
    }
}

/// A test that fails: what is wrong, and an offset, an index or an address that tells where.
#[derive(Clone, Copy, Debug, PartialEq, Eq)]
pub struct Fault {
    pub rule: ElfRule,
    pub at: u32,
}

impl Fault {
    /// The answer to a file with this fault.
    pub fn refusal(self) -> ElfFault
        ensures { result ≡ refusal self }
    {
        ElfFault::Refused {
            code: self.rule.code(),
            at: self.at,
        }
    }
}
