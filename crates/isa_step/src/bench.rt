//! Ports in memory, for tests and examples.

ghost use Rattle.isa_step.specs.Benches.{bench_shows, no_breaks, no_hopes};
ghost use Rattle.std.specs.Prelude.{◌≡◌, ◌-◌, [], false, length, replicate, None};

use crate::acts::{Action, Breaks, BusError, Hopes};
use crate::ports::{Ports, Sees};
use arrayvec::ArrayVec;
use axi_link::Item;
use core_regs::Take;

/// How many actions a bench keeps.
const KEPT: usize = 32;

/// Ports in memory: each holds one item at most in either direction, and the bus has one word at most, at one address.
#[derive(Drop)]
pub struct BenchPorts {
    pub line: bool,
    pub breaks: Breaks,
    /// What can still come, beside what has come already.
    pub hopes: Hopes,
    /// What each port has for the core.
    pub inputs: [Option<Item>; 16],
    /// What the core put into each port.
    pub outputs: [Option<Item>; 16],
    pub bus: Option<u32>,
    pub bus_addr: u32,
    pub log: ArrayVec<Action, 32>,
}

impl BenchPorts {
    /// Ports that show nothing but room.
    pub fn new() -> BenchPorts
        ensures events { (result.line ≡ false) × (result.breaks ≡ no_breaks) × (result.hopes ≡ no_hopes) }
        ensures ports { (result.inputs ≡ replicate 16 None) × (result.outputs ≡ replicate 16 None) }
        ensures bus { result.bus ≡ None }
        ensures log { result.log.items ≡ [] }
    {
        BenchPorts {
            line: false,
            breaks: Breaks {
                maskable: false,
                nonmaskable: false,
            },
            hopes: Hopes {
                interrupt: false,
                maskable: false,
                nonmaskable: false,
            },
            inputs: [None; 16],
            outputs: [None; 16],
            bus: None,
            bus_addr: 0,
            log: ArrayVec::new(),
        }
    }

    /// How many more actions there is room for.
    pub fn spare(&self) -> usize
        ensures { result ≡ 32 - length self.now.log.items }
    {
        KEPT - self.log.len()
    }
}

impl Sees for BenchPorts {
    ghost use Rattle.std.specs.Prelude.{refl};
    ghost use Rattle.isa_step.specs.Benches.{bench_shows};

    ghost shows = { bench_shows };

    fn line(&self) -> bool {
        self.line
    }

    fn breaks(&self) -> Breaks {
        self.breaks
    }

    fn hopes(&self) -> Hopes {
        Hopes {
            interrupt: self.line || self.hopes.interrupt,
            maskable: self.breaks.maskable || self.hopes.maskable,
            nonmaskable: self.breaks.nonmaskable || self.hopes.nonmaskable,
        }
    }

    fn peek(&self, port: u8) -> Option<Item> {
        self.inputs[port as usize]
    }

    fn room(&self, port: u8) -> bool {
        self.outputs[port as usize].is_none()
    }

    ghost announced = { λ b. record { interrupt = λ e. rw e refl; maskable = λ e. rw e refl; nonmaskable = λ e. rw e refl } };
}

impl Ports for BenchPorts {
    ghost use Rattle.isa_step.specs.Benches.{BenchLeaves};
    ghost use Rattle.std.specs.Prelude.{◌-◌, length};

    ghost done = { λ b. b.log.items };

    ghost spare = { λ b. 32 - length b.log.items };

    ghost leaves = { BenchLeaves };

    fn took(&mut self, t: Take) {
        self.log.push(Action::Took(t));
    }

    fn take(&mut self, port: u8) -> Option<Item> {
        match self.inputs[port as usize] {
            Some(item) => {
                self.inputs[port as usize] = None;
                self.log.push(Action::Got { port, item });
                Some(item)
            }
            None => None,
        }
    }

    fn put(&mut self, port: u8, item: Item) -> Result<(), Item> {
        if self.outputs[port as usize].is_some() {
            return Err(item);
        }
        self.outputs[port as usize] = Some(item);
        self.log.push(Action::Sent { port, item });
        Ok(())
    }

    fn missed(&mut self, port: u8, full: bool) {
        self.log.push(Action::Missed { port, full });
    }

    fn tested(&mut self, port: u8, item: Option<Item>) {
        match item {
            Some(item) => self.log.push(Action::Seen { port, item }),
            None => self.log.push(Action::Room { port }),
        }
    }

    fn read(&mut self, addr: u32) -> Result<u32, BusError> {
        match self.bus {
            Some(word) if addr == self.bus_addr => {
                self.log.push(Action::Read { addr, word });
                Ok(word)
            }
            _ => {
                self.log.push(Action::ReadRefused { addr });
                Err(BusError)
            }
        }
    }

    fn write(&mut self, addr: u32, word: u32) -> Result<(), BusError> {
        if self.bus.is_some() && addr == self.bus_addr {
            self.bus = Some(word);
            self.log.push(Action::Wrote { addr, word });
            return Ok(());
        }
        self.log.push(Action::WriteRefused { addr, word });
        Err(BusError)
    }
}
