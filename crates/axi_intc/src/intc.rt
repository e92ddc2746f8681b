ghost use Rattle.axi_intc.specs.Machine.{cycled, enabled, fresh, lowest, pending, value_of, written};
ghost use Rattle.std.specs.Prelude.{◌≡◌};

use crate::registers::{Mer, Register};
use bitflags::Flags;
use bus_map::{Access, BadAccess, Device};

/// What IVR reads where nothing is pending.
const NO_VECTOR: u32 = 0xFFFF_FFFF;

/// An interrupt controller of 32 inputs (PG099), in normal mode.
#[derive(Clone, Copy, Debug, PartialEq, Eq)]
pub struct Intc {
    /// The inputs that asked and weren't acknowledged since, input n as bit n.
    pub isr: u32,
    /// The inputs that are enabled.
    pub ier: u32,
    /// The master enable register.
    pub mer: Mer,
}

impl Intc {
    /// A controller with all registers 0.
    pub fn new() -> Intc
        ensures { result ≡ fresh }
    {
        Intc {
            isr: 0,
            ier: 0,
            mer: Mer::from_bits_retain(0),
        }
    }

    /// One cycle: with HIE the inputs that are high are set in ISR. Bit n of `inputs` is input n.
    pub fn cycle(&mut self, inputs: u32)
        ensures { self.new ≡ cycled inputs self.old }
    {
        if self.mer.intersects(Mer::HIE) {
            self.isr |= inputs;
        }
    }

    fn pending(&self) -> u32
        ensures { result ≡ pending self.now }
    {
        self.isr & self.ier
    }

    fn read(&self, r: Register) -> u32
        ensures { result ≡ value_of self.now r }
    {
        match r {
            Register::Isr => self.isr,
            Register::Ipr => self.pending(),
            Register::Ier => self.ier,
            Register::Iar => 0,
            Register::Sie => 0,
            Register::Cie => 0,
            Register::Ivr => lowest(self.pending()),
            Register::Mer => self.mer.bits(),
        }
    }

    fn write(&mut self, r: Register, word: u32)
        ensures { self.new ≡ written self.old r word }
    {
        match r {
            Register::Isr => {
                if !self.mer.intersects(Mer::HIE) {
                    self.isr = word;
                }
            }
            Register::Ipr => {}
            Register::Ier => self.ier = word,
            Register::Iar => self.isr &= !word,
            Register::Sie => self.ier |= word,
            Register::Cie => self.ier &= !word,
            Register::Ivr => {}
            Register::Mer => {
                self.mer = enabled(Mer::from_bits_retain(word), self.mer);
            }
        }
    }
}

/// The lowest number of a bit that is set.
fn lowest(word: u32) -> u32
    ensures { result ≡ lowest word }
{
    if word == 0 {
        NO_VECTOR
    } else {
        word.trailing_zeros()
    }
}

/// The master enable register after a write: ME as in the word, HIE also where it was set.
fn enabled(word: Mer, old: Mer) -> Mer
    ensures { result.0 ≡ enabled word.0 old.0 }
{
    let hardware = old.union(word).intersection(Mer::HIE);
    word.intersection(Mer::ME).union(hardware)
}

impl Device for Intc {
    ghost use Rattle.axi_intc.specs.Machine.{accessed, answer, output};

    ghost answer = { λ c a. answer c a };

    ghost accessed = { λ c a. accessed c a };

    ghost output = { λ c. output c };

    ghost asked = { λ c. c };

    /// `BadAccess` comes exactly where the offset has no register.
    fn access(&mut self, a: Access) -> Result<u32, BadAccess> {
        match a {
            Access::Read(offset) => match Register::at(offset) {
                Some(r) => Ok(self.read(r)),
                None => Err(BadAccess),
            },
            Access::Write(offset, word) => match Register::at(offset) {
                Some(r) => {
                    self.write(r, word);
                    Ok(0)
                }
                None => Err(BadAccess),
            },
        }
    }

    /// Whether ME is set and an input is pending.
    fn line(&mut self) -> bool {
        self.mer.intersects(Mer::ME) && self.pending() != 0
    }
}
