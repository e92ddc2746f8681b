//! Why there is no script.

/// Why there is no script.
#[derive(Clone, Copy, Debug, PartialEq, Eq)]
pub enum ScriptRefusal {
    /// The source can't be read. It has counted a fault.
    CannotRead,
    /// The script is longer than 1,048,576 bytes.
    TooLong,
    /// The first line that is refused, counted from 1, and the least of its faults, 1201 to 1206.
    Refused { code: u16, line: u32 },
    /// There was no memory.
    NoMemory,
}
