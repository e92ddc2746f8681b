ghost use Rattle.axi_intc.specs.Machine.{register_at};
ghost use Rattle.std.specs.Prelude.{⊤, ◌≡◌, [], ◌∷◌, codes};

use bitflags::{Flag, Flags, bitflag_items};

/// The registers of the controller (PG099, Register Space).
#[derive(Clone, Copy, Debug, PartialEq, Eq)]
pub enum Register {
    /// Interrupt status: the inputs that asked and weren't acknowledged since.
    Isr,
    /// Interrupts pending: those of them that are enabled.
    Ipr,
    /// Interrupt enable.
    Ier,
    /// Interrupt acknowledge: a 1 clears the bit of ISR.
    Iar,
    /// Set interrupt enables: a 1 sets the bit of IER.
    Sie,
    /// Clear interrupt enables: a 1 clears the bit of IER.
    Cie,
    /// Interrupt vector: the lowest number that is pending.
    Ivr,
    /// Master enable.
    Mer,
}

impl Register {
    /// The register at an offset of the window, in bytes; None where there is none.
    pub fn at(offset: u32) -> Option<Register>
        ensures { result ≡ register_at offset }
    {
        match offset {
            0x00 => Some(Register::Isr),
            0x04 => Some(Register::Ipr),
            0x08 => Some(Register::Ier),
            0x0C => Some(Register::Iar),
            0x10 => Some(Register::Sie),
            0x14 => Some(Register::Cie),
            0x18 => Some(Register::Ivr),
            0x1C => Some(Register::Mer),
            _ => None,
        }
    }
}

/// The bits of the master enable register (PG099, Master Enable Register).
#[derive(Clone, Copy, Debug, PartialEq, Eq)]
pub struct Mer(pub u32);

bitflag_items! {
    impl Mer: u32 {
        /// The output is enabled.
        const ME = 0x1;
        /// Inputs reach ISR, and writes don't; once set it stays.
        const HIE = 0x2;
    }
}

impl Flags for Mer {
    type Bits = u32;

    ghost exact = { ⊤ };

    ghost table = { (codes "ME", 0x1) ∷ (codes "HIE", 0x2) ∷ [] };

    ghost set_of = { λ r. r.0 };

    fn flags<'a>() -> &'a [Flag<Mer>] {
        Mer::FLAGS
    }

    fn bits(&self) -> u32 {
        self.0
    }

    fn from_bits_retain(bits: u32) -> Mer {
        Mer(bits)
    }
}
