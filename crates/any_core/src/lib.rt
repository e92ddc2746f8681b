//! A core of any pipeline, as the row of a board names it.
#![tactic(auto)]

#[cfg(test)]
mod tests;

ghost use Rattle.std.specs.Prelude.{◌≡◌, ◌<◌, ◌^◌, true, false};
ghost use Rattle.core_iface.specs.Cores.{made};
ghost use Rattle.core_iface.specs.Ticks.{TicksAlone};
ghost use Rattle.any_core.specs.Any.{slack_of};

use byte_mem::Memory;
use core_iface::{Core, Flight, PlainCore, Tick};
use core_regs::Arch;
use isa_step::{Idle, Ports, Sees};
use pipe_eight::EightCore;
use pipe_five::FiveCore;
use pipe_three::ThreeCore;
use timing_law::{Past, Pipe};

/// A core of one of the pipelines.
#[derive(Drop)]
pub enum AnyCore {
    Plain(PlainCore),
    Three(ThreeCore),
    Five(FiveCore),
    Eight(EightCore),
}

impl AnyCore {
    ghost use Rattle.any_core.specs.States.{any_state};

    /// A core of a pipeline with this view before its first tick.
    pub fn new(pipe: Pipe, memory: Memory, arch: Arch) -> AnyCore
        ensures { any_state result ≡ made pipe (slack_of pipe) arch memory }
    {
        match pipe {
            Pipe::Plain => AnyCore::Plain(PlainCore::new(memory, arch)),
            Pipe::Three => AnyCore::Three(ThreeCore::new(memory, arch)),
            Pipe::Five => AnyCore::Five(FiveCore::new(memory, arch)),
            Pipe::Eight => AnyCore::Eight(EightCore::new(memory, arch)),
        }
    }

    /// What a core with stages does at once: a function of its own, so that a plain core needs no table of jumps.
    #[inline(never)]
    fn tick_staged(&mut self) -> bool
        requires young { (any_state self.old).ticks < 2 ^ 62 }
        ensures done { result ≡ true → TicksAlone (any_state self.old) (any_state self.new) }
        ensures kept { result ≡ false → any_state self.new ≡ any_state self.old }
    {
        match self {
            AnyCore::Plain(_) => false,
            AnyCore::Three(core) => core.tick_at_once(),
            AnyCore::Five(core) => core.tick_at_once(),
            AnyCore::Eight(core) => core.tick_at_once(),
        }
    }
}

impl Core for AnyCore {
    ghost use Rattle.any_core.specs.States.{any_state};
    ghost use Rattle.any_core.specs.declared.AnyCore.TheVariants.{Plain, Three, Five, Eight};
    ghost use Rattle.core_iface.specs.Cores.{IsSplit};
    ghost use Rattle.std.proofs.Common.{refl, sym};

    ghost state = { any_state };

    fn tick<P: Ports>(&mut self, ports: &mut P) -> Tick {
        match self {
            AnyCore::Plain(core) => core.tick(ports),
            AnyCore::Three(core) => core.tick(ports),
            AnyCore::Five(core) => core.tick(ports),
            AnyCore::Eight(core) => core.tick(ports),
        }
    }

    #[inline(always)]
    fn tick_at_once(&mut self) -> bool {
        if let AnyCore::Plain(core) = self {
            return core.tick_at_once();
        }
        self.tick_staged()
    }

    fn arch(&self) -> Arch {
        match self {
            AnyCore::Plain(core) => core.arch(),
            AnyCore::Three(core) => core.arch(),
            AnyCore::Five(core) => core.arch(),
            AnyCore::Eight(core) => core.arch(),
        }
    }

    fn acts(&self) -> u64 {
        match self {
            AnyCore::Plain(core) => core.acts(),
            AnyCore::Three(core) => core.acts(),
            AnyCore::Five(core) => core.acts(),
            AnyCore::Eight(core) => core.acts(),
        }
    }

    fn ticks(&self) -> u64 {
        match self {
            AnyCore::Plain(core) => core.ticks(),
            AnyCore::Three(core) => core.ticks(),
            AnyCore::Five(core) => core.ticks(),
            AnyCore::Eight(core) => core.ticks(),
        }
    }

    fn slack(&self) -> u8 {
        match self {
            AnyCore::Plain(core) => core.slack(),
            AnyCore::Three(core) => core.slack(),
            AnyCore::Five(core) => core.slack(),
            AnyCore::Eight(core) => core.slack(),
        }
    }

    fn depth(&self) -> u8 {
        match self {
            AnyCore::Plain(core) => core.depth(),
            AnyCore::Three(core) => core.depth(),
            AnyCore::Five(core) => core.depth(),
            AnyCore::Eight(core) => core.depth(),
        }
    }

    fn file(&self, reg: u8) -> u32 {
        match self {
            AnyCore::Plain(core) => core.file(reg),
            AnyCore::Three(core) => core.file(reg),
            AnyCore::Five(core) => core.file(reg),
            AnyCore::Eight(core) => core.file(reg),
        }
    }

    fn flight(&self, k: usize) -> Option<Flight> {
        match self {
            AnyCore::Plain(core) => core.flight(k),
            AnyCore::Three(core) => core.flight(k),
            AnyCore::Five(core) => core.flight(k),
            AnyCore::Eight(core) => core.flight(k),
        }
    }

    fn settle(&self, reg: u8) -> u8 {
        match self {
            AnyCore::Plain(core) => core.settle(reg),
            AnyCore::Three(core) => core.settle(reg),
            AnyCore::Five(core) => core.settle(reg),
            AnyCore::Eight(core) => core.settle(reg),
        }
    }

    fn past(&self) -> Past {
        match self {
            AnyCore::Plain(core) => core.past(),
            AnyCore::Three(core) => core.past(),
            AnyCore::Five(core) => core.past(),
            AnyCore::Eight(core) => core.past(),
        }
    }

    fn byte(&self, addr: u32) -> Option<u8> {
        match self {
            AnyCore::Plain(core) => core.byte(addr),
            AnyCore::Three(core) => core.byte(addr),
            AnyCore::Five(core) => core.byte(addr),
            AnyCore::Eight(core) => core.byte(addr),
        }
    }

    fn idle<P: Sees>(&self, ports: &P) -> Option<Idle> {
        match self {
            AnyCore::Plain(core) => core.idle(ports),
            AnyCore::Three(core) => core.idle(ports),
            AnyCore::Five(core) => core.idle(ports),
            AnyCore::Eight(core) => core.idle(ports),
        }
    }

    ghost split = { λ core. elim core as (λ c. IsSplit (any_state c)) [ Plain c ↦ refl | Three c ↦ sym c.forwarded | Five c ↦ sym c.forwarded | Eight c ↦ sym c.forwarded ] };
}
