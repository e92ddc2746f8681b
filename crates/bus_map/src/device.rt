ghost use Rattle.std.specs.Prelude.{◌≡◌, IsErr};
ghost use Rattle.bus_map.specs.Answers.{Answers};

/// An access of a word to a device, by its offset in the device's window, in bytes.
#[derive(Clone, Copy, Debug, PartialEq, Eq)]
pub enum Access {
    /// The word at the offset is read.
    Read(u32),
    /// The second number is written to the offset.
    Write(u32, u32),
}

/// The device refuses the access: a bus error to the core. Nothing changed.
#[derive(Clone, Copy, Debug, PartialEq, Eq)]
pub struct BadAccess;

/// A device on the bus of a core, with registers of 32 bits and one output that leads to an interrupt controller or to
/// the core.
pub trait Device {
    ghost use Rattle.std.specs.Prelude.{ℕ, Bool, Option};
    ghost use Rattle.bus_map.specs.declared.device.Access.{Access};

    /// What an access answers: a word, or None where it is refused. A write that is taken answers 0.
    ghost answer: { Self → Access → Option ℕ };

    /// The device after an access.
    ghost accessed: { Self → Access → Self };

    /// Whether the output is high.
    ghost output: { Self → Bool };

    /// The device after its output was asked for.
    ghost asked: { Self → Self };

    /// Reads or writes a register. A write that is taken answers 0; a refused access changes nothing.
    fn access(&mut self, a: Access) -> Result<u32, BadAccess>
        ensures answer { Answers (answer self.old a) result }
        ensures leaves { self.new ≡ accessed self.old a }
        ensures refused { IsErr result → self.new ≡ self.old };

    /// Whether the output is high. Where the output is an edge, it is used up by this call.
    fn line(&mut self) -> bool
        ensures high { result ≡ output self.old }
        ensures leaves { self.new ≡ asked self.old };
}
