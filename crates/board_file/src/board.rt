//! What a board file says.
use crate::list::RowList;
use host_io::{FileName, Name};

/// The order in which the cores tick within a cycle.
#[derive(Clone, Copy, Debug, PartialEq, Eq)]
pub enum Turn {
    /// Board order.
    Ascending,
    /// The reverse of board order.
    Descending,
    /// Board order, beginning one core later in each cycle.
    Rotating,
}

/// How the instructions of a core pass through its stages.
#[derive(Clone, Copy, Debug, PartialEq, Eq)]
pub enum Pipeline {
    /// One instruction at a time.
    Plain,
    /// Three stages.
    Three,
    /// Five stages.
    Five,
    /// Eight stages.
    Eight,
}

/// An end of a link.
#[derive(Drop)]
pub enum End {
    /// A port, 0 to 15, of the core at this place of the board's cores.
    Port { core: u16, port: u8 },
    /// A file that is read or written.
    File(FileName),
}

/// A core of a board.
#[derive(Drop)]
pub struct CoreRow {
    /// The core's own name.
    pub name: Name,
    /// The ELF file that is loaded into its memory.
    pub image: FileName,
    /// How its instructions pass through its stages.
    pub pipeline: Pipeline,
    /// It ticks in each cycle that this divides, 1 to 1,000,000.
    pub clock: u32,
    /// The bytes of its memory.
    pub memory: u32,
}

/// A link of a board.
#[derive(Drop)]
pub struct LinkRow {
    /// The link's own name.
    pub name: Name,
    /// The most items that it holds, 1 to 4,096.
    pub depth: u16,
    /// The end that puts items in.
    pub from: End,
    /// The end that takes items out.
    pub to: End,
}

/// A timer on the bus of a core.
#[derive(Drop)]
pub struct TimerRow {
    /// The timer's own name.
    pub name: Name,
    /// The place of its core in the board's cores.
    pub core: u16,
    /// The address of its first register.
    pub base: u32,
    /// Its input of the core's interrupt controller, 0 to 31.
    pub irq: Option<u8>,
    /// It moves in each cycle that this divides, 1 to 1,000,000.
    pub clock: u32,
}

/// An interrupt controller on the bus of a core.
#[derive(Drop)]
pub struct IntcRow {
    /// The controller's own name.
    pub name: Name,
    /// The place of its core in the board's cores.
    pub core: u16,
    /// The address of its first register.
    pub base: u32,
    /// It moves in each cycle that this divides, 1 to 1,000,000.
    pub clock: u32,
}

/// A UART on the bus of a core.
#[derive(Drop)]
pub struct UartRow {
    /// The UART's own name.
    pub name: Name,
    /// The place of its core in the board's cores.
    pub core: u16,
    /// The address of its first register.
    pub base: u32,
    /// The file of the bytes that it sends.
    pub output: FileName,
    /// Its input of the core's interrupt controller, 0 to 31.
    pub irq: Option<u8>,
    /// The file of the bytes that reach it.
    pub input: Option<FileName>,
    /// It moves a byte in each cycle that this times its clock divides, 1 to 1,000,000.
    pub every: u32,
    /// What multiplies `every`, 1 to 1,000,000.
    pub clock: u32,
}

/// A break that a core is given.
#[derive(Drop)]
pub struct EventRow {
    /// The event's own name.
    pub name: Name,
    /// The place of its core in the board's cores.
    pub core: u16,
    /// The cycle from which the break is pending.
    pub cycle: u64,
    /// Whether the break is non-maskable.
    pub nonmaskable: bool,
}

/// The cores of a board, in ascending byte order of their names.
pub type Cores = RowList<CoreRow>;

/// The links of a board, in ascending byte order of their names.
pub type Links = RowList<LinkRow>;

/// The timers of a board, in ascending byte order of their names.
pub type Timers = RowList<TimerRow>;

/// The interrupt controllers of a board, in ascending byte order of their names.
pub type Intcs = RowList<IntcRow>;

/// The UARTs of a board, in ascending byte order of their names.
pub type Uarts = RowList<UartRow>;

/// The break events of a board, in ascending byte order of their names.
pub type Events = RowList<EventRow>;

/// A board.
#[derive(Drop)]
pub struct BoardFile {
    /// The version of the file's format.
    pub version: u8,
    /// The order in which the cores tick.
    pub turn: Turn,
    /// Whether the cores are joined by their links alone, so that what they send depends on no timing.
    pub network: bool,
    /// The cores, whose places the other rows name.
    pub cores: Cores,
    /// The links between cores and files.
    pub links: Links,
    /// The timers.
    pub timers: Timers,
    /// The interrupt controllers, at most one of a core.
    pub intcs: Intcs,
    /// The UARTs.
    pub uarts: Uarts,
    /// The breaks that cores are given.
    pub events: Events,
}
