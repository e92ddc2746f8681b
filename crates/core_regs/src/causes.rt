//! What cores are told and tell: orders and sizes of accesses, takes, waits, and why a core stopped.
/// The byte order of a core's memory and bus accesses.
#[derive(Clone, Copy, PartialEq, Eq, Debug)]
pub enum Order {
    Big,
    Little,
}

/// The size of a memory access: 1, 2 or 4 bytes.
#[derive(Clone, Copy, PartialEq, Eq, Debug)]
pub enum Size {
    Byte,
    Half,
    Word,
}

/// What a core takes from outside, between two instructions.
#[derive(Clone, Copy, PartialEq, Eq, Debug)]
pub enum Take {
    Interrupt,
    /// A break that is held off while MSR's BIP or EIP is set.
    Break,
    NonMaskable,
}

/// The link port that a core waits for: to put where `full`, until it has room, and else to get,
/// until it has an item.
#[derive(Clone, Copy, PartialEq, Eq, Debug)]
pub struct WaitOn {
    pub port: u8,
    pub full: bool,
}

/// Why a core stopped for good: a fault that exceptions were off for, or a slot's misuse.
#[derive(Clone, Copy, PartialEq, Eq, Debug)]
pub enum StopCause {
    /// The word is no instruction of this core.
    Illegal(u32),
    /// The word may not stand in a delay slot.
    Slot(u32),
    /// The pc is no multiple of four, or outside the memory.
    InstrBus(u32),
    /// The address that no memory and no device answered.
    DataBus(u32),
}
