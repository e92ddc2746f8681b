//! What a core sees of its outside, and what it can do there.

ghost use Rattle.std.specs.Prelude.{◌≡◌, ◌<◌, ◌≤◌, ℕ, List, Result};
ghost use Rattle.isa_step.specs.Resting.{IsAnnounced};
ghost use Rattle.isa_step.specs.Shown.{Adds, ReadBy, SentBy, Shown, TakenBy, WrittenBy, tested_of};
ghost use Rattle.isa_step.specs.declared.acts.Action.{Action};
ghost use Rattle.isa_step.specs.declared.acts.Action.TheVariants.{Missed, Took};

use crate::acts::{Action, Breaks, BusError, Hopes};
use axi_link::Item;
use core_regs::Take;

/// What can be seen through a shared reference: the latched interrupt line, breaks, and 16 ports.
pub trait Sees {
    /// All that is seen.
    ghost shows: { Self → Shown };

    /// The latched interrupt line.
    fn line(&self) -> bool
        ensures { result ≡ (shows self.now).line };

    /// The breaks that are pending.
    fn breaks(&self) -> Breaks
        ensures { result ≡ (shows self.now).breaks };

    /// What can still come.
    fn hopes(&self) -> Hopes
        ensures { result ≡ (shows self.now).hopes };

    /// The first item of a port, `None` exactly where it is empty.
    fn peek(&self, port: u8) -> Option<Item>
        requires { port < 16 }
        ensures { result ≡ (shows self.now).first port };

    /// Whether a port has room for an item.
    fn room(&self, port: u8) -> bool
        requires { port < 16 }
        ensures { result ≡ (shows self.now).room port };

    /// What has come was announced for: the line is high only where there is a controller, and a break is pending only
    /// where `hopes` tells one of its kind.
    ghost announced: { (s : Self) → IsAnnounced (shows s) };
}

/// The outside of a core. Each call has room for its one action, keeps it at the end of the actions done, and leaves
/// the object as its own meaning says of that action.
pub trait Ports: Sees {
    /// The actions that were done, the oldest first.
    ghost done: { Self → List Action };

    /// How many more actions there is room for.
    ghost spare: { Self → ℕ };

    /// What an action leaves.
    ghost leaves: { Self → Action → Self → Type 0 };

    /// An interrupt or a break is taken.
    fn took(&mut self, t: Take)
        requires { 1 ≤ spare self.old }
        ensures { Adds done spare leaves self.old (Took t) self.new };

    /// Takes the first item of a port. `None` exactly where it is empty, and then nothing changed.
    fn take(&mut self, port: u8) -> Option<Item>
        requires port { port < 16 }
        requires spare { 1 ≤ spare self.old }
        ensures item { result ≡ (Self.shows self.old).first port }
        ensures moves { TakenBy done spare leaves port result self.old self.new };

    /// Puts an item into a port, or hands it back exactly where there is no room, and then nothing changed.
    fn put(&mut self, port: u8, item: Item) -> Result<(), Item>
        requires port { port < 16 }
        requires spare { 1 ≤ spare self.old }
        ensures { SentBy done spare leaves port item ((Self.shows self.old).room port) result self.old self.new };

    /// An access that doesn't wait found its port empty or, where `full` is set, full.
    fn missed(&mut self, port: u8, full: bool)
        requires port { port < 16 }
        requires spare { 1 ≤ spare self.old }
        ensures { Adds done spare leaves self.old (Missed port full) self.new };

    /// A test saw an item or, where none is handed in, found room.
    fn tested(&mut self, port: u8, item: Option<Item>)
        requires port { port < 16 }
        requires spare { 1 ≤ spare self.old }
        ensures { Adds done spare leaves self.old (tested_of port item) self.new };

    /// Reads a word from the bus.
    fn read(&mut self, addr: u32) -> Result<u32, BusError>
        requires { 1 ≤ spare self.old }
        ensures { ReadBy done spare leaves addr ((Self.shows self.old).bus_word addr) result self.old self.new };

    /// Writes a word to the bus.
    fn write(&mut self, addr: u32, word: u32) -> Result<(), BusError>
        requires { 1 ≤ spare self.old }
        ensures { WrittenBy done spare leaves addr word ((Self.shows self.old).bus_takes addr word) result self.old self.new };
}
