ghost use Rattle.std.specs.Prelude.{⊤, ◌≡◌, [], ◌∷◌, codes};
ghost use Rattle.uart_lite.specs.Machine.{register_at};

use bitflags::{Flag, Flags, bitflag_items};

/// The registers of the UART (PG142, Register Space).
#[derive(Clone, Copy, Debug, PartialEq, Eq)]
pub enum Register {
    /// A read takes the oldest byte that arrived.
    Rx,
    /// A write adds a byte that is to leave.
    Tx,
    /// Status.
    Stat,
    /// Control.
    Ctrl,
}

impl Register {
    /// The register at an offset of the window, in bytes; None where there is none.
    pub fn at(offset: u32) -> Option<Register>
        ensures { result ≡ register_at offset }
    {
        match offset {
            0x0 => Some(Register::Rx),
            0x4 => Some(Register::Tx),
            0x8 => Some(Register::Stat),
            0xC => Some(Register::Ctrl),
            _ => None,
        }
    }
}

/// The bits of the status register (PG142, Status Register).
#[derive(Clone, Copy, Debug, PartialEq, Eq)]
pub struct Stat(pub u32);

bitflag_items! {
    impl Stat: u32 {
        /// RX isn't empty.
        const RX_VALID = 0x1;
        /// RX is full.
        const RX_FULL = 0x2;
        /// TX is empty.
        const TX_EMPTY = 0x4;
        /// TX is full.
        const TX_FULL = 0x8;
        /// Interrupts are enabled.
        const INTR_ENABLED = 0x10;
        /// A byte arrived at a full RX and was lost.
        const OVERRUN = 0x20;
    }
}

impl Flags for Stat {
    type Bits = u32;

    ghost exact = { ⊤ };

    ghost table = { (codes "RX_VALID", 0x1) ∷ (codes "RX_FULL", 0x2) ∷ (codes "TX_EMPTY", 0x4)
        ∷ (codes "TX_FULL", 0x8) ∷ (codes "INTR_ENABLED", 0x10) ∷ (codes "OVERRUN", 0x20) ∷ [] };

    ghost set_of = { λ r. r.0 };

    fn flags<'a>() -> &'a [Flag<Stat>] {
        Stat::FLAGS
    }

    fn bits(&self) -> u32 {
        self.0
    }

    fn from_bits_retain(bits: u32) -> Stat {
        Stat(bits)
    }
}

/// The bits of the control register (PG142, Control Register).
#[derive(Clone, Copy, Debug, PartialEq, Eq)]
pub struct Ctrl(pub u32);

bitflag_items! {
    impl Ctrl: u32 {
        /// Empties TX.
        const RST_TX = 0x1;
        /// Empties RX.
        const RST_RX = 0x2;
        /// Enables interrupts; a write without it disables them.
        const ENABLE_INTR = 0x10;
    }
}

impl Flags for Ctrl {
    type Bits = u32;

    ghost exact = { ⊤ };

    ghost table = { (codes "RST_TX", 0x1) ∷ (codes "RST_RX", 0x2) ∷ (codes "ENABLE_INTR", 0x10) ∷ [] };

    ghost set_of = { λ r. r.0 };

    fn flags<'a>() -> &'a [Flag<Ctrl>] {
        Ctrl::FLAGS
    }

    fn bits(&self) -> u32 {
        self.0
    }

    fn from_bits_retain(bits: u32) -> Ctrl {
        Ctrl(bits)
    }
}
