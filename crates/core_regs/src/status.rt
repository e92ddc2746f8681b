//! MSR, by the names of its bits.
ghost use Rattle.std.specs.Prelude.{⊤, [], ◌∷◌, codes};

use bitflags::{Flag, Flags, bitflag_items};

/// The machine status register (UG984, Machine Status Register).
#[derive(Clone, Copy, PartialEq, Eq, Debug)]
pub struct Msr(pub u32);

bitflag_items! {
    impl Msr: u32 {
        /// Interrupt enable.
        const IE = 0x2;
        /// Carry.
        const C = 0x4;
        /// Break in progress.
        const BIP = 0x8;
        /// A stream item's control bit was not the expected one.
        const FSL = 0x10;
        /// Instruction cache enable, which has no effect here.
        const ICE = 0x20;
        /// Division by zero or division overflow.
        const DZO = 0x40;
        /// Data cache enable, which has no effect here.
        const DCE = 0x80;
        /// Exception enable.
        const EE = 0x100;
        /// Exception in progress.
        const EIP = 0x200;
        /// Processor version registers are there: always 0.
        const PVR = 0x400;
        /// A copy of the carry.
        const CC = 0x8000_0000;
    }
}

impl Flags for Msr {
    type Bits = u32;

    ghost exact = { ⊤ };

    ghost table = { (codes "IE", 0x2) ∷ (codes "C", 0x4) ∷ (codes "BIP", 0x8) ∷ (codes "FSL", 0x10)
        ∷ (codes "ICE", 0x20) ∷ (codes "DZO", 0x40) ∷ (codes "DCE", 0x80) ∷ (codes "EE", 0x100)
        ∷ (codes "EIP", 0x200) ∷ (codes "PVR", 0x400) ∷ (codes "CC", 0x80000000) ∷ [] };

    ghost set_of = { λ m. m.0 };

    fn flags<'a>() -> &'a [Flag<Msr>] {
        Msr::FLAGS
    }

    fn bits(&self) -> u32 {
        self.0
    }

    fn from_bits_retain(bits: u32) -> Msr {
        Msr(bits)
    }
}
