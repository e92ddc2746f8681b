//! What happened in a run.
use axi_link::Item;
use core_regs::{StopCause, Take, WaitOn};
use std::mem::size_of;

/// The core's number in an entry that belongs to no core.
pub const NO_CORE: u16 = 0xFFFF;

/// One entry of a journal.
#[derive(Clone, Copy, Debug, PartialEq, Eq)]
pub struct Entry {
    /// The number of the cycle, from 0.
    pub cycle: u64,
    /// The number of the core's act, from 0; 0 where there is no core.
    pub act: u64,
    /// The number of the core in board order; `NO_CORE` where the host or a UART did it.
    pub core: u16,
    pub what: What,
}

/// Fields lie in the order in which they are written, so `act` stands before `core`: behind it there would be a gap of six
/// bytes.
const _: () = prove!(size_of::<Entry>() <= 32);

/// What an entry says. A `port` is the number of a stream port, 0 to 15.
#[derive(Clone, Copy, Debug, PartialEq, Eq)]
pub enum What {
    /// A get took the item.
    Got { port: u8, item: Item },
    /// A put sent the item.
    Sent { port: u8, item: Item },
    /// A test get saw the item, which stays.
    Seen { port: u8, item: Item },
    /// A test put found room.
    Room { port: u8 },
    /// An access that doesn't wait found no item, or no room where `full`.
    Missed { port: u8, full: bool },
    /// The bus answered a read with the word.
    Read { addr: u32, word: u32 },
    /// The bus refused a read.
    ReadRefused { addr: u32 },
    /// The bus took a write of the word.
    Wrote { addr: u32, word: u32 },
    /// The bus refused a write of the word.
    WriteRefused { addr: u32, word: u32 },
    /// The core took an interrupt or a break.
    Took(Take),
    /// The core raised an exception, and its ESR is this.
    Raised { esr: u32 },
    /// The core went to sleep.
    Slept,
    /// The core stopped for good.
    Stopped(StopCause),
    /// The core began to wait. This is no act.
    Wait(WaitOn),
    /// The core's interrupt line rose. This is no act.
    LineUp,
    /// The core's interrupt line fell. This is no act.
    LineDown,
    /// The host put an item of an input file into the link of this number.
    HostSent { link: u16, item: Item },
    /// The host took an item out of the link of this number, for its output file.
    HostGot { link: u16, item: Item },
    /// A byte left the UART of this number.
    Left { uart: u16, byte: u8 },
}
