//! The tables of a board file and their keys.
ghost use Rattle.std.specs.Prelude.{◌≡◌, ◌==◌, if◌then◌else◌};
ghost use Rattle.board_file.specs.Keys.{key_of, key_text, row_keys, table_key, tables, top_keys};

use KeyRule::{May, Needs};

/// A key of a board file.
#[derive(Clone, Copy, Debug)]
pub enum Key {
    Base,
    Clock,
    Core,
    Cycle,
    Depth,
    Event,
    Every,
    From,
    FromFile,
    FromPort,
    Image,
    Input,
    Intc,
    Irq,
    Kind,
    Link,
    Memory,
    Network,
    Order,
    Output,
    Pipeline,
    Timer,
    To,
    ToFile,
    ToPort,
    Uart,
    Version,
}

/// A kind of number that has limits of its own.
#[derive(Clone, Copy, Debug)]
pub enum Quantity {
    /// A core or a device has its turn in each cycle that this divides.
    Clock,
    /// The number of a cycle.
    Cycle,
    /// The most items of a link.
    Depth,
    /// An address of a device.
    Base,
    /// An input of an interrupt controller.
    Irq,
    /// The bytes of a memory.
    Memory,
    /// A port of a core.
    Port,
}

/// What the value of a key is to be.
#[derive(Clone, Copy, Debug)]
pub enum Kind {
    BreakName,
    CoreName,
    File,
    Flag,
    Number(Quantity),
    OrderName,
    PipelineName,
    Rows,
    VersionNumber,
}

/// A key that a table has: one that each of its rows needs, or one that may be left out.
#[derive(Clone, Copy, Debug)]
pub enum KeyRule {
    Needs(Key, Kind),
    May(Key, Kind),
}

/// The tables of a board file, whose rows stand under their names.
#[derive(Clone, Copy, Debug)]
pub enum Rows {
    Core,
    Link,
    Timer,
    Intc,
    Uart,
    Event,
}

static TABLES: [Rows; 6] = [
    Rows::Core,
    Rows::Link,
    Rows::Timer,
    Rows::Intc,
    Rows::Uart,
    Rows::Event,
];

static TOP_KEYS: [KeyRule; 9] = [
    Needs(Key::Version, Kind::VersionNumber),
    May(Key::Order, Kind::OrderName),
    May(Key::Network, Kind::Flag),
    Needs(Key::Core, Kind::Rows),
    May(Key::Link, Kind::Rows),
    May(Key::Timer, Kind::Rows),
    May(Key::Intc, Kind::Rows),
    May(Key::Uart, Kind::Rows),
    May(Key::Event, Kind::Rows),
];

static CORE_KEYS: [KeyRule; 4] = [
    Needs(Key::Image, Kind::File),
    Needs(Key::Pipeline, Kind::PipelineName),
    May(Key::Clock, Kind::Number(Quantity::Clock)),
    May(Key::Memory, Kind::Number(Quantity::Memory)),
];

static LINK_KEYS: [KeyRule; 7] = [
    May(Key::Depth, Kind::Number(Quantity::Depth)),
    May(Key::From, Kind::CoreName),
    May(Key::FromPort, Kind::Number(Quantity::Port)),
    May(Key::FromFile, Kind::File),
    May(Key::To, Kind::CoreName),
    May(Key::ToPort, Kind::Number(Quantity::Port)),
    May(Key::ToFile, Kind::File),
];

static TIMER_KEYS: [KeyRule; 3] = [
    Needs(Key::Core, Kind::CoreName),
    Needs(Key::Base, Kind::Number(Quantity::Base)),
    May(Key::Irq, Kind::Number(Quantity::Irq)),
];

static CLOCKED_TIMER_KEYS: [KeyRule; 4] = [
    Needs(Key::Core, Kind::CoreName),
    Needs(Key::Base, Kind::Number(Quantity::Base)),
    May(Key::Irq, Kind::Number(Quantity::Irq)),
    May(Key::Clock, Kind::Number(Quantity::Clock)),
];

static INTC_KEYS: [KeyRule; 2] = [
    Needs(Key::Core, Kind::CoreName),
    Needs(Key::Base, Kind::Number(Quantity::Base)),
];

static CLOCKED_INTC_KEYS: [KeyRule; 3] = [
    Needs(Key::Core, Kind::CoreName),
    Needs(Key::Base, Kind::Number(Quantity::Base)),
    May(Key::Clock, Kind::Number(Quantity::Clock)),
];

static UART_KEYS: [KeyRule; 6] = [
    Needs(Key::Core, Kind::CoreName),
    Needs(Key::Base, Kind::Number(Quantity::Base)),
    Needs(Key::Output, Kind::File),
    May(Key::Irq, Kind::Number(Quantity::Irq)),
    May(Key::Input, Kind::File),
    May(Key::Every, Kind::Number(Quantity::Clock)),
];

static CLOCKED_UART_KEYS: [KeyRule; 7] = [
    Needs(Key::Core, Kind::CoreName),
    Needs(Key::Base, Kind::Number(Quantity::Base)),
    Needs(Key::Output, Kind::File),
    May(Key::Irq, Kind::Number(Quantity::Irq)),
    May(Key::Input, Kind::File),
    May(Key::Every, Kind::Number(Quantity::Clock)),
    May(Key::Clock, Kind::Number(Quantity::Clock)),
];

static EVENT_KEYS: [KeyRule; 3] = [
    Needs(Key::Core, Kind::CoreName),
    Needs(Key::Cycle, Kind::Number(Quantity::Cycle)),
    Needs(Key::Kind, Kind::BreakName),
];

/// All tables of a board file.
#[tactic(auto, unfolding(crate::specs::Keys::tables))]
pub fn all_tables() -> &'static [Rows]
    ensures { result.now ≡ tables }
{
    &TABLES
}

/// The keys of the file itself.
#[tactic(auto, unfolding(crate::specs::Keys::top_keys))]
pub fn keys_of_file() -> &'static [KeyRule]
    ensures { result.now ≡ top_keys }
{
    &TOP_KEYS
}

/// The keys of a device, which has a clock of its own from version 2 on.
fn keys_of_version(
    version: u8,
    keys: &'static [KeyRule],
    clocked: &'static [KeyRule],
) -> &'static [KeyRule]
    ensures { result.now ≡ (if version == 2 then clocked.now else keys.now) }
{
    if version == 2 { clocked } else { keys }
}

impl KeyRule {
    /// The key that the rule is about.
    pub fn key(self) -> Key
        ensures { result ≡ key_of self }
    {
        match self {
            Needs(key, _) => key,
            May(key, _) => key,
        }
    }
}

impl Rows {
    /// The key of the file under which the rows stand.
    #[tactic(auto, unfolding(crate::specs::Keys::table_key))]
    pub fn key(self) -> Key
        ensures { result ≡ table_key self }
    {
        match self {
            Rows::Core => Key::Core,
            Rows::Link => Key::Link,
            Rows::Timer => Key::Timer,
            Rows::Intc => Key::Intc,
            Rows::Uart => Key::Uart,
            Rows::Event => Key::Event,
        }
    }

    /// The keys of each row in a version of the format.
    #[tactic(auto, unfolding(crate::specs::Keys::row_keys))]
    pub fn keys(self, version: u8) -> &'static [KeyRule]
        ensures { result.now ≡ row_keys version self }
    {
        match self {
            Rows::Core => &CORE_KEYS,
            Rows::Link => &LINK_KEYS,
            Rows::Timer => keys_of_version(version, &TIMER_KEYS, &CLOCKED_TIMER_KEYS),
            Rows::Intc => keys_of_version(version, &INTC_KEYS, &CLOCKED_INTC_KEYS),
            Rows::Uart => keys_of_version(version, &UART_KEYS, &CLOCKED_UART_KEYS),
            Rows::Event => &EVENT_KEYS,
        }
    }
}

impl Key {
    /// How the key is written.
    #[tactic(auto, unfolding(crate::specs::Keys::key_text))]
    pub fn text(self) -> &'static str
        ensures { result.now ≡ key_text self }
    {
        match self {
            Key::Base => "base",
            Key::Clock => "clock",
            Key::Core => "core",
            Key::Cycle => "cycle",
            Key::Depth => "depth",
            Key::Event => "event",
            Key::Every => "every",
            Key::From => "from",
            Key::FromFile => "from_file",
            Key::FromPort => "from_port",
            Key::Image => "image",
            Key::Input => "input",
            Key::Intc => "intc",
            Key::Irq => "irq",
            Key::Kind => "kind",
            Key::Link => "link",
            Key::Memory => "memory",
            Key::Network => "network",
            Key::Order => "order",
            Key::Output => "output",
            Key::Pipeline => "pipeline",
            Key::Timer => "timer",
            Key::To => "to",
            Key::ToFile => "to_file",
            Key::ToPort => "to_port",
            Key::Uart => "uart",
            Key::Version => "version",
        }
    }
}
