//! The commands of a script.
ghost use Rattle.std.specs.Prelude.{◌≡◌};
ghost use Rattle.debug_script.specs.Commands.{verb_of};

use host_io::Name;

/// The first word of a line.
#[derive(Clone, Copy, Debug, PartialEq, Eq)]
pub enum Verb {
    Break,
    Step,
    Run,
    Regs,
    Mem,
    Links,
    Where,
    Probe,
    Detach,
    Probes,
}

impl Verb {
    /// The verb that a word is.
    #[tactic(auto, unfolding(crate::specs::Commands::verb_of))]
    pub fn from_word(word: &[u8]) -> Option<Verb>
        ensures { result ≡ verb_of word.now }
    {
        if word == b"break".as_slice() {
            Some(Verb::Break)
        } else if word == b"step".as_slice() {
            Some(Verb::Step)
        } else if word == b"run".as_slice() {
            Some(Verb::Run)
        } else if word == b"regs".as_slice() {
            Some(Verb::Regs)
        } else if word == b"mem".as_slice() {
            Some(Verb::Mem)
        } else if word == b"links".as_slice() {
            Some(Verb::Links)
        } else if word == b"where".as_slice() {
            Some(Verb::Where)
        } else if word == b"probe".as_slice() {
            Some(Verb::Probe)
        } else if word == b"drop".as_slice() {
            Some(Verb::Detach)
        } else if word == b"list".as_slice() {
            Some(Verb::Probes)
        } else {
            None
        }
    }
}

/// A command of a script. A `core` is its place in board order.
#[derive(Debug, Drop)]
pub enum Command {
    /// Adds a breakpoint: `run` stops after a cycle in which the core acted and after which its pc is the address.
    Break { core: usize, addr: u32 },
    /// Does so many cycles, and prints the cycle number.
    Step { cycles: u64 },
    /// The same, but stops also at a breakpoint and where a probe asked.
    Run { cycles: u64 },
    /// Prints the registers of a core.
    Regs { core: usize },
    /// Prints so many bytes of a core's memory.
    Mem { core: usize, addr: u32, count: u16 },
    /// Prints what each link holds.
    Links,
    /// Prints where each core is.
    Where,
    /// Prints what a probe found.
    Probe { name: Name },
    /// Detaches a probe.
    Detach { name: Name },
    /// Prints the names and kinds of the probes that are attached.
    Probes,
}
