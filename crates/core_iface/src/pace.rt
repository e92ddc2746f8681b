//! The time of a plain core.

ghost use Rattle.std.specs.Prelude.{◌≡◌, ◌<◌, ◌≤◌, ◌^◌, ◌+◌, IfSome, true};
ghost use Rattle.std.specs.Option.{option_copied};
ghost use Rattle.mb_decode.specs.Meaning.{NamesRegisters};
ghost use Rattle.timing_law.specs.Past.{fresh};
ghost use Rattle.timing_law.specs.declared.pipe.Pipe.TheVariants.{Plain};
ghost use Rattle.core_iface.specs.Pace.{led, moved, stayed, stopped, turned, went, went_by};
ghost use Rattle.core_iface.specs.PlainTimes.{IsPlain};

use isa_step::{Act, Done, Here};
use mb_decode::Instr;
use prepared_act::{Flow, flow_of, late_register};
use std::marker::Model;
use timing_law::{Past, Pipe, instr_of, is_ahead};

/// The acts and ticks of a plain core so far, and its past, no number of which lies ahead.
#[derive(Drop)]
pub(crate) struct Pace {
    ticks: u64,
    /// The ticks without an act.
    stays: u64,
    /// The tick after the last act, where another tick has passed since or the core stopped; `None` where it is this one.
    free: Option<u64>,
    redirect: u64,
    /// The tick from which each register can be used. What stands at register 0 counts for nothing.
    ready: [u64; 32],
}

impl Model for Pace {
    ghost use Rattle.std.specs.Prelude.{◌<◌, ◌≤◌, IfSome};
    ghost use Rattle.core_iface.specs.Pace.{Times};
    ghost use Rattle.core_iface.specs.PlainTimes.{IsPlain, times_of};

    ghost Value = { Times };

    ghost view = { λ p. times_of p.ticks p.stays p.free p.redirect p.ready };

    ghost invariant = { λ p. (p.stays ≤ p.ticks) × IfSome p.free (λ tick. tick < p.ticks) × IsPlain (times_of p.ticks p.stays p.free p.redirect p.ready) };
}

/// The tick from which the word at pc is decoded, after an instruction that leads somewhere.
#[inline(always)]
fn lead(redirect: &mut u64, flow: Flow, pc: u32, after: u64)
    ensures { redirect.new ≡ led flow pc after redirect.old }
{
    match flow {
        Flow::On => {}
        Flow::Jumped => *redirect = after,
        Flow::Stored(addr) => {
            if is_ahead(addr, pc) {
                *redirect = after;
            }
        }
    }
}

impl Pace {
    /// The time of a core before its first tick.
    pub(crate) fn new() -> Pace
        ensures value { result ≡ record { acts = 0; ticks = 0; past = fresh Plain } }
        ensures plain { IsPlain result }
    {
        Pace {
            ticks: 0,
            stays: 0,
            free: None,
            redirect: 0,
            ready: [0; 32],
        }
    }

    /// How many acts were done.
    pub(crate) fn acts(&self) -> u64
        ensures acts { result ≡ self.now.acts }
        ensures fewer { result ≤ self.now.ticks }
    {
        self.ticks - self.stays
    }

    /// How many ticks passed.
    pub(crate) fn ticks(&self) -> u64
        ensures { result ≡ self.now.ticks }
    {
        self.ticks
    }

    /// The numbers of the past.
    pub(crate) fn past(&self) -> Past
        ensures { result ≡ self.now.past }
    {
        let mut ready = self.ready;
        ready[0] = 0;
        Past {
            pipe: Pipe::Plain,
            first: 0,
            next: self.next(),
            ready,
            redirect: self.redirect,
        }
    }

    fn next(&self) -> u64
        ensures { result ≡ self.now.past.next }
    {
        self.free.unwrap_or(self.ticks)
    }

    /// Whether the last tick did an act that isn't a stop.
    pub(crate) fn is_free(&self) -> bool
        ensures { result ≡ true → self.now.past.next ≡ self.now.ticks }
    {
        self.free.is_none()
    }

    /// Passes a tick without an act.
    pub(crate) fn stay(&mut self)
        requires { self.old.ticks < 2 ^ 62 }
        ensures value { self.new ≡ stayed self.old }
        ensures plain { IsPlain self.new }
    {
        self.free = Some(self.next());
        self.ticks += 1;
        self.stays += 1;
    }

    /// Passes a tick in which the core stopped.
    fn stop(&mut self)
        requires { self.old.ticks < 2 ^ 62 }
        ensures value { self.new ≡ stopped self.old }
        ensures plain { IsPlain self.new }
    {
        self.free = Some(self.next());
        self.ticks += 1;
    }

    /// Passes a take or a raise.
    fn turn(&mut self)
        requires { self.old.ticks < 2 ^ 62 }
        ensures value { self.new ≡ turned self.old }
        ensures plain { IsPlain self.new }
    {
        self.free = None;
        self.ticks += 1;
        self.redirect = self.ticks;
    }

    /// Passes an instruction that retired right after another act, by the register that it makes late, where it leads and
    /// the pc after it.
    #[inline(always)]
    pub(crate) fn go(&mut self, late: u32, flow: Flow, pc: u32)
        requires young { self.old.ticks < 2 ^ 62 }
        requires free { self.old.past.next ≡ self.old.ticks }
        requires late { late < 32 }
        ensures value { self.new ≡ went late flow pc self.old }
        ensures plain { IsPlain self.new }
        ensures free { self.new.past.next ≡ self.new.ticks }
    {
        self.ticks += 1;
        let after = self.ticks;
        self.ready[late as usize] = after;
        lead(&mut self.redirect, flow, pc, after);
    }

    /// Passes an instruction that retired.
    fn retire(&mut self, i: Option<&Instr>, flow: Flow, pc: u32)
        requires young { self.old.ticks < 2 ^ 62 }
        requires names { IfSome (option_copied i) NamesRegisters }
        ensures value { self.new ≡ went_by (option_copied i.entry) flow pc self.old }
        ensures plain { IsPlain self.new }
    {
        match i {
            Some(i) => {
                self.free = None;
                self.go(u32::from(late_register(i)), flow, pc);
            }
            None => self.stop(),
        }
    }

    /// Passes an act, by the word at which it was done and the pc after it.
    pub(crate) fn act(&mut self, here: &Option<Here>, done: &Done, pc: u32)
        requires young { self.old.ticks < 2 ^ 62 }
        requires timed { IsPlain self.old }
        requires names { IfSome here.now (λ h. IfSome h.instr NamesRegisters) }
        ensures value { self.new ≡ moved here.now done.now pc self.old }
        ensures plain { IsPlain self.new }
    {
        match done.act {
            Act::Retired | Act::Slept => self.retire(instr_of(here), flow_of(done), pc),
            Act::Took(_) | Act::Raised(_) => self.turn(),
            Act::Stopped(_) => self.stop(),
        }
    }
}
