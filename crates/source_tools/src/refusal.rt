//! Why a source or an image isn't done.
use host_io::FileName;

/// Why a source isn't assembled, or an image isn't listed: the first cause in the order of work.
#[derive(Debug, Drop)]
pub enum Refusal {
    /// The file can't be read, or isn't there. The shelf has counted a fault.
    CannotRead { file: FileName },
    /// The file is longer than its limit.
    TooLong { file: FileName },
    /// The first fault of a source: its code, 1101 to 1112, and its line and column, counted from 1.
    BadSource { code: u16, line: u32, column: u32 },
    /// The first test of an image that fails: its code, 701 to 712, and an offset, an index or an address.
    BadImage { code: u16, at: u32 },
    /// The file, or the output stream as `output`, can't be written. The shelf or the sink has counted a fault.
    CannotWrite { file: FileName },
    /// There was no memory.
    NoMemory,
}
