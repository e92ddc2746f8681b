//! What a core does, and what it is told and tells of it.

use axi_link::Item;
use core_regs::{Size, StopCause, Take, WaitOn, Write};
use mb_decode::Instr;
use op_table::Latency;

/// An address of the bus that no device answers, or that refuses the access.
#[derive(Clone, Copy, Debug, PartialEq, Eq)]
pub struct BusError;

/// The breaks that are pending (UG984, "Breaks").
#[derive(Clone, Copy, Debug, PartialEq, Eq)]
pub struct Breaks {
    pub maskable: bool,
    pub nonmaskable: bool,
}

/// What can still come to a core: whether it has an interrupt controller, and of each kind of break whether one is
/// pending or left.
#[derive(Clone, Copy, Debug, PartialEq, Eq)]
pub struct Hopes {
    pub interrupt: bool,
    pub maskable: bool,
    pub nonmaskable: bool,
}

/// What a core did at its ports: a take, an access to a link, or an access to the bus.
#[derive(Clone, Copy, Debug, PartialEq, Eq)]
pub enum Action {
    /// A take began.
    Took(Take),
    /// The first item left a port.
    Got { port: u8, item: Item },
    /// An item went into a port.
    Sent { port: u8, item: Item },
    /// A test saw the first item of a port, which stays.
    Seen { port: u8, item: Item },
    /// A test found room in a port.
    Room { port: u8 },
    /// A port was empty or, where `full` is set, full.
    Missed { port: u8, full: bool },
    /// A word was read from the bus.
    Read { addr: u32, word: u32 },
    /// The bus refused a read.
    ReadRefused { addr: u32 },
    /// A word was written to the bus.
    Wrote { addr: u32, word: u32 },
    /// The bus refused a write.
    WriteRefused { addr: u32, word: u32 },
}

/// An act of a core.
#[derive(Clone, Copy, Debug, PartialEq, Eq)]
pub enum Act {
    /// An instruction retired.
    Retired,
    /// `mbar` retired and put the core to sleep.
    Slept,
    /// An interrupt or a break was taken.
    Took(Take),
    /// An exception was raised, with this value of ESR.
    Raised(u32),
    /// The core stopped.
    Stopped(StopCause),
}

/// Why a core does nothing.
#[derive(Clone, Copy, Debug, PartialEq, Eq)]
pub enum Idle {
    /// It stands at the branch to itself, and no take can come.
    Ended,
    /// It sleeps.
    Asleep,
    /// Its link access waits for this port.
    Waits(WaitOn),
    /// It stopped.
    Stopped(StopCause),
}

/// The outcome of one chance to act.
#[derive(Clone, Copy, Debug, PartialEq, Eq)]
pub enum Step {
    Did(Act),
    Idle(Idle),
}

/// The word at pc, and the instruction that it means, if any.
#[derive(Clone, Copy, Debug, PartialEq, Eq)]
pub struct Here {
    pub word: u32,
    pub instr: Option<Instr>,
}

/// The values of the registers that an instruction's fields rA, rB and rD name.
#[derive(Clone, Copy, Debug, PartialEq, Eq)]
pub struct Operands {
    pub a: u32,
    pub b: u32,
    pub d: u32,
}

/// The store of an act: the low byte, the low half or the whole of a word, at an address in memory or past its end.
#[derive(Clone, Copy, Debug, PartialEq, Eq)]
pub struct Store {
    pub addr: u32,
    pub size: Size,
    pub word: u32,
}

/// The register that an instruction makes late, also where a missed get doesn't write it.
#[derive(Clone, Copy, Debug, PartialEq, Eq)]
pub struct Late {
    pub reg: u8,
    pub latency: Latency,
}

/// What a core is told of its act: all that changes but its control registers.
#[derive(Clone, Copy, Debug, PartialEq, Eq)]
pub struct Done {
    pub act: Act,
    /// The register that is written; `None` where it would be register 0.
    pub write: Option<Write>,
    pub store: Option<Store>,
    pub late: Option<Late>,
    /// Whether a branch was taken, or a return or a break instruction was done.
    pub jumped: bool,
}

/// The outcome of one chance to act, for a core that keeps its registers itself.
#[derive(Clone, Copy, Debug, PartialEq, Eq)]
pub enum Outcome {
    Did(Done),
    Idle(Idle),
}

impl Default for Action {
    /// What fills the places of a log that are not used.
    fn default() -> Action {
        Action::Room { port: 0 }
    }
}
