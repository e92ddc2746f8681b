ghost use Rattle.axi_timer.specs.Machine.{register_at};
ghost use Rattle.std.specs.Prelude.{⊤, ◌≡◌, [], ◌∷◌, codes};

use bitflags::{Flag, Flags, bitflag_items};

/// The registers of the two counters (PG079, Register Space).
#[derive(Clone, Copy, Debug, PartialEq, Eq)]
pub enum Register {
    /// Control and status of the first counter.
    Tcsr0,
    /// What the first counter loads.
    Tlr0,
    /// The count of the first counter.
    Tcr0,
    /// Control and status of the second counter.
    Tcsr1,
    /// What the second counter loads.
    Tlr1,
    /// The count of the second counter.
    Tcr1,
}

impl Register {
    /// The register at an offset of the window, in bytes; None where there is none.
    pub fn at(offset: u32) -> Option<Register>
        ensures { result ≡ register_at offset }
    {
        match offset {
            0x00 => Some(Register::Tcsr0),
            0x04 => Some(Register::Tlr0),
            0x08 => Some(Register::Tcr0),
            0x10 => Some(Register::Tcsr1),
            0x14 => Some(Register::Tlr1),
            0x18 => Some(Register::Tcr1),
            _ => None,
        }
    }
}

/// The bits of a control and status register (PG079, Control/Status Register).
#[derive(Clone, Copy, Debug, PartialEq, Eq)]
pub struct Tcsr(pub u32);

bitflag_items! {
    impl Tcsr: u32 {
        /// Capture mode in place of generate mode, which this timer doesn't have.
        const MDT = 0x1;
        /// The counter counts down.
        const UDT = 0x2;
        /// The external generate signal is enabled, which has no effect here.
        const GENT = 0x4;
        /// The external capture trigger is enabled, which this timer doesn't have.
        const CAPT = 0x8;
        /// A counter that passed its end is loaded anew.
        const ARHT = 0x10;
        /// The counter is loaded in each cycle.
        const LOAD = 0x20;
        /// The output is high while TINT is set.
        const ENIT = 0x40;
        /// The counter counts.
        const ENT = 0x80;
        /// The counter passed its end; a write of 1 clears it.
        const TINT = 0x100;
        /// Pulse width modulation, which this timer doesn't have.
        const PWMA = 0x200;
        /// Both counters are enabled together.
        const ENALL = 0x400;
        /// The counters make one of 64 bits, which this timer doesn't have.
        const CASC = 0x800;
    }
}

impl Flags for Tcsr {
    type Bits = u32;

    ghost exact = { ⊤ };

    ghost table = { (codes "MDT", 0x1) ∷ (codes "UDT", 0x2) ∷ (codes "GENT", 0x4) ∷ (codes "CAPT", 0x8)
        ∷ (codes "ARHT", 0x10) ∷ (codes "LOAD", 0x20) ∷ (codes "ENIT", 0x40) ∷ (codes "ENT", 0x80)
        ∷ (codes "TINT", 0x100) ∷ (codes "PWMA", 0x200) ∷ (codes "ENALL", 0x400) ∷ (codes "CASC", 0x800) ∷ [] };

    ghost set_of = { λ r. r.0 };

    fn flags<'a>() -> &'a [Flag<Tcsr>] {
        Tcsr::FLAGS
    }

    fn bits(&self) -> u32 {
        self.0
    }

    fn from_bits_retain(bits: u32) -> Tcsr {
        Tcsr(bits)
    }
}
