//! What the program answers.
ghost use Rattle.std.specs.Prelude.{◌≡◌};
ghost use Rattle.mb_sim.specs.Runs.{code_of};

use host_io::{FileName, Name, Place};

/// The answer of the top call.
#[derive(Debug, Drop)]
pub enum Status {
    /// The run came to rest with each core at its end or asleep, and all was written and printed.
    Ended,
    /// The run came to rest, no core is stopped, and one waits for a link; all was written and printed.
    Waiting,
    /// The run came to rest with a core stopped, and all was written and printed.
    Stopped,
    /// The run came to its limit of cycles, and all was written and printed.
    CyclesSpent,
    /// The journal may have had too little room for one more cycle, and all was written and printed.
    JournalFull,
    /// The words are no command, or the journal is to go to a file of the board.
    Usage,
    /// The file can't be read, or isn't there.
    ReadFault { file: FileName },
    /// The board file has a fault: its code, 601 to 620, and the path of its key.
    BadBoard { code: u16, place: Place },
    /// The image of a core has a fault: its code, 701 to 712, and an offset, an index or an address.
    BadImage { core: Name, code: u16, at: u32 },
    /// The file, or the stream `output`, can't be written.
    WriteFault { file: FileName },
    /// There was no memory.
    NoMemory,
    /// A source has a fault, the first of which is at this line and column, counted from 1: its code, 1101 to 1112.
    BadSource { code: u16, line: u32, column: u32 },
    /// A script has a fault: its code, 1201 to 1206, the least of the first line that has one, counted from 1.
    BadScript { code: u16, line: u32 },
    /// An input file isn't whole items with control 0 or 1: the offset of the first such item.
    BadInput { file: FileName, offset: u32 },
    /// The file is longer than its limit.
    TooLong { file: FileName },
}

impl Status {
    /// The number with which the process ends.
    pub fn code(&self) -> u8
        ensures { result ≡ code_of self.now }
    {
        match self {
            Status::Ended => 0,
            Status::Waiting => 1,
            Status::Stopped => 2,
            Status::CyclesSpent => 3,
            Status::Usage => 4,
            Status::ReadFault { .. } => 5,
            Status::BadBoard { .. } => 6,
            Status::BadImage { .. } => 7,
            Status::WriteFault { .. } => 8,
            Status::NoMemory => 9,
            Status::JournalFull => 10,
            Status::BadSource { .. } => 11,
            Status::BadScript { .. } => 12,
            Status::BadInput { .. } => 13,
            Status::TooLong { .. } => 15,
        }
    }
}
