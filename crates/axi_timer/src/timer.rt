ghost use Rattle.axi_timer.specs.Machine.{cycled, fresh, is_taken, value_of, written};
ghost use Rattle.std.specs.Prelude.{◌≡◌};

use crate::counter::Counter;
use crate::registers::{Register, Tcsr};
use bitflags::Flags;
use bus_map::{Access, BadAccess, Device};

/// MDT, CAPT, PWMA, CASC and the bits that the register doesn't have: no write may set them.
const BARRED: Tcsr = Tcsr(0xFFFF_FA09);

/// A timer of two counters with one output (PG079), in generate mode.
#[derive(Clone, Copy, Debug, PartialEq, Eq)]
pub struct Timer {
    pub first: Counter,
    pub second: Counter,
}

impl Timer {
    /// A timer with all registers 0.
    pub fn new() -> Timer
        ensures { result ≡ fresh }
    {
        Timer {
            first: Counter::new(),
            second: Counter::new(),
        }
    }

    /// One cycle: each counter is loaded, counts or rests.
    pub fn cycle(&mut self)
        ensures { self.new ≡ cycled self.old }
    {
        self.first.cycle();
        self.second.cycle();
    }

    fn read(&self, r: Register) -> u32
        ensures { result ≡ value_of self.now r }
    {
        match r {
            Register::Tcsr0 => self.first.tcsr.bits(),
            Register::Tlr0 => self.first.tlr,
            Register::Tcr0 => self.first.tcr,
            Register::Tcsr1 => self.second.tcsr.bits(),
            Register::Tlr1 => self.second.tlr,
            Register::Tcr1 => self.second.tcr,
        }
    }

    fn write(&mut self, r: Register, word: u32)
        ensures { self.new ≡ written self.old r word }
    {
        match r {
            Register::Tcsr0 => {
                self.first.control(Tcsr::from_bits_retain(word));
                self.second.follow(Tcsr::from_bits_retain(word));
            }
            Register::Tlr0 => self.first.tlr = word,
            Register::Tcr0 => {}
            Register::Tcsr1 => {
                self.first.follow(Tcsr::from_bits_retain(word));
                self.second.control(Tcsr::from_bits_retain(word));
            }
            Register::Tlr1 => self.second.tlr = word,
            Register::Tcr1 => {}
        }
    }
}

/// Whether a register takes a word.
fn is_taken(r: Register, word: u32) -> bool
    ensures { result ≡ is_taken r word }
{
    match r {
        Register::Tcsr0 => !Tcsr::from_bits_retain(word).intersects(BARRED),
        Register::Tlr0 => true,
        Register::Tcr0 => true,
        Register::Tcsr1 => !Tcsr::from_bits_retain(word).intersects(BARRED),
        Register::Tlr1 => true,
        Register::Tcr1 => true,
    }
}

impl Device for Timer {
    ghost use Rattle.axi_timer.specs.Machine.{accessed, answer, output};

    ghost answer = { λ t a. answer t a };

    ghost accessed = { λ t a. accessed t a };

    ghost output = { λ t. output t };

    ghost asked = { λ t. t };

    /// `BadAccess` comes exactly where the offset has no register, or where a bit of MDT, CAPT, PWMA, CASC or one that
    /// TCSR doesn't have is written.
    fn access(&mut self, a: Access) -> Result<u32, BadAccess> {
        match a {
            Access::Read(offset) => match Register::at(offset) {
                Some(r) => Ok(self.read(r)),
                None => Err(BadAccess),
            },
            Access::Write(offset, word) => match Register::at(offset) {
                Some(r) if is_taken(r, word) => {
                    self.write(r, word);
                    Ok(0)
                }
                _ => Err(BadAccess),
            },
        }
    }

    /// Whether a counter has TINT and ENIT.
    fn line(&mut self) -> bool {
        self.first.asks() || self.second.asks()
    }
}
