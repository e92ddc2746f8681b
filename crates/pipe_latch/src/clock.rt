//! The time of a core with stages: how far they are, and its past.

ghost use Rattle.std.specs.Prelude.{◌≡◌, ℕ, ◌<◌, ◌≤◌, ◌^◌, ◌+◌, ◌-◌, IfSome, Some, nat_lt, slice_index, true};
ghost use Rattle.std.specs.Option.{option_copied};
ghost use Rattle.mb_decode.specs.Meaning.{NamesRegisters};
ghost use Rattle.op_table.specs.Kinds.{stores};
ghost use Rattle.timing_law.specs.Past.{fresh};
ghost use Rattle.timing_law.specs.Table.{depth_of, first_of};
ghost use Rattle.pipe_latch.specs.Clocks.{filled, holds, jump_by, left_later, loaded, moved, set, stayed, went};

use isa_step::{Done, Here};
use mb_decode::Instr;
use op_table::Kind;
use prepared_act::{Flow, Prepared};
use std::marker::Model;
use timing_law::{Jump, Past, Pipe, is_ahead};

/// The slack after an act: more than any instruction waits.
const SLACK: u8 = 63;

/// The time of a core with stages, in ticks to come, and its past.
#[derive(Drop)]
pub struct Clock {
    acts: u64,
    ticks: u64,
    slack: u8,
    /// In how many ticks no stage holds the instruction at pc back: the pipeline is full, the word is decoded again after a
    /// flush, execution is free, and the last operand is ready.
    wait: u8,
    /// The steps that the divider has left to do for it.
    left: u8,
    /// When each register can be used, among what else is told of the past.
    past: Past,
}

impl Model for Clock {
    ghost use Rattle.pipe_latch.specs.Clocks.{Clocked, IsTimed};

    ghost Value = { Clocked };

    ghost view = { λ c. record { acts = c.acts; ticks = c.ticks; slack = c.slack; wait = c.wait; left = c.left; past = c.past } };

    ghost invariant = { λ c. IsTimed (record { acts = c.acts; ticks = c.ticks; slack = c.slack; wait = c.wait; left = c.left; past = c.past }) };
}

fn is_store(kind: Kind) -> bool
    ensures { result ≡ stores kind }
{
    matches!(kind, Kind::Store(_))
}

/// Where an instruction that retired leads, by the pc after it.
#[inline(always)]
fn jump_by(flow: Flow, pc: u32) -> Jump
    ensures { result ≡ jump_by flow pc }
{
    match flow {
        Flow::On => Jump::On,
        Flow::Jumped => Jump::Taken,
        Flow::Stored(addr) => if is_ahead(addr, pc) {
            Jump::Struck
        } else {
            Jump::On
        },
    }
}

impl Clock {
    /// The time of a core before its first tick, which has no instruction to hold back yet.
    pub fn new(pipe: Pipe) -> Clock
        ensures { result ≡ record { acts = 0; ticks = 0; slack = 63; wait = first_of pipe; left = 0; past = fresh pipe } }
    {
        Clock {
            acts: 0,
            ticks: 0,
            slack: SLACK,
            wait: pipe.first(),
            left: 0,
            past: Past::new(pipe),
        }
    }

    /// How many acts were done.
    pub fn acts(&self) -> u64
        ensures acts { result ≡ self.now.acts }
        ensures fewer { result ≤ self.now.ticks }
    {
        self.acts
    }

    /// How many ticks passed.
    pub fn ticks(&self) -> u64
        ensures { result ≡ self.now.ticks }
    {
        self.ticks
    }

    /// How many ticks may at most be answered by `Filling` before the next act.
    pub fn slack(&self) -> u8
        ensures slack { result ≡ self.now.slack }
        ensures below { result < 64 }
    {
        self.slack
    }

    /// For how many ticks a result is in flight.
    pub fn depth(&self) -> u8
        ensures { result ≡ depth_of self.now.past.pipe }
    {
        self.past.pipe.depth()
    }

    /// The numbers of the past.
    pub fn past(&self) -> Past
        ensures { result ≡ self.now.past }
    {
        self.past
    }

    /// In how many ticks a register can be used.
    pub fn settle(&self, reg: u8) -> u8
        requires { reg < 32 }
        ensures { result ≡ slice_index self.now.past.ready reg - self.now.ticks }
    {
        self.past.ready[reg as usize].saturating_sub(self.ticks) as u8
    }

    /// Whether the instruction at pc is held back.
    #[inline(always)]
    pub fn holds(&self) -> bool
        ensures { result ≡ holds self.now }
    {
        self.wait > 0 || self.left > 0
    }

    /// What a tick leaves of the divider's steps: it does one, unless a stage before it holds the instruction back.
    #[inline(always)]
    fn left_later(&self) -> u8
        ensures { result ≡ left_later self.now }
    {
        if self.wait > 0 {
            self.left
        } else {
            self.left.saturating_sub(1)
        }
    }

    /// Passes a tick without an act, which leaves a slack.
    #[inline(always)]
    fn pass(&mut self, slack: u8)
        requires young { self.old.ticks < 2 ^ 62 }
        requires below { slack < 64 }
        requires covered { self.old.wait - 1 + left_later self.old ≤ slack }
        ensures { self.new ≡ record (stayed self.old) { slack = slack } }
    {
        self.left = self.left_later();
        self.slack = slack;
        self.wait = self.wait.saturating_sub(1);
        self.ticks += 1;
    }

    /// Passes a tick in which nothing was due.
    #[inline(always)]
    pub fn stay(&mut self)
        requires young { self.old.ticks < 2 ^ 62 }
        ensures { self.new ≡ stayed self.old }
    {
        let slack = self.slack;
        self.pass(slack);
    }

    /// Passes a tick in which the instruction at pc is held back.
    #[inline(always)]
    pub fn fill(&mut self)
        requires young { self.old.ticks < 2 ^ 62 }
        requires holds { holds self.old ≡ true }
        ensures times { self.new ≡ filled self.old }
        ensures less { 0 < self.old.slack }
    {
        let slack = self.slack - 1;
        self.pass(slack);
    }

    /// Passes a tick with an act, by the word at which it was done and the pc after it.
    pub fn act(&mut self, here: &Option<Here>, done: &Done, pc: u32)
        requires names { IfSome here.now (λ h. IfSome h.instr NamesRegisters) }
        requires young { self.old.ticks < 2 ^ 62 }
        ensures { self.new ≡ moved here.now done.now pc self.old }
    {
        self.past.pass(here, done, pc, self.ticks);
        self.acts += 1;
        self.ticks += 1;
        self.slack = SLACK;
    }

    /// Passes a tick with an instruction that retired, by where it leads and the pc after it.
    #[inline(always)]
    pub fn retire(&mut self, word: &Prepared, flow: Flow, pc: u32)
        requires young { self.old.ticks < 2 ^ 62 }
        ensures { self.new ≡ went word.now.instr flow pc self.old }
    {
        self.past.retired_as(
            &word.instr,
            word.kind,
            word.latency,
            self.ticks,
            jump_by(flow, pc),
        );
        self.acts += 1;
        self.ticks += 1;
        self.slack = SLACK;
    }

    /// The stages begin to hold back the instruction at pc, after an act.
    #[inline(always)]
    pub fn begin(&mut self, i: Option<&Instr>, in_slot: bool)
        requires names { IfSome (option_copied i) NamesRegisters }
        requires slack { self.old.slack ≡ 63 }
        ensures { self.new ≡ set (option_copied i.entry) in_slot self.old }
    {
        let begins = self.past.begins(i, in_slot);
        let extra = self.past.extra(i);
        self.load(begins, extra);
    }

    /// The same of an inner instruction, which is no divide.
    #[inline(always)]
    pub fn begin_inner(&mut self, word: &Prepared, in_slot: bool)
        requires inner { word.now.is_inner ≡ true }
        requires slack { self.old.slack ≡ 63 }
        ensures { self.new ≡ set (Some word.now.instr) in_slot self.old }
    {
        let begins = self
            .past
            .begins_by(&word.instr, is_store(word.kind), in_slot);
        self.load(begins, 0);
    }

    /// Loads the counters for an instruction that may begin in a tick, and of which the divider does so many steps.
    #[inline(always)]
    fn load(&mut self, begins: u64, extra: u64)
        requires near { begins ≤ self.old.ticks + 30 }
        requires extra { extra ≤ 33 }
        requires slack { self.old.slack ≡ 63 }
        ensures { self.new ≡ loaded begins extra self.old }
    {
        self.wait = begins.saturating_sub(self.ticks) as u8;
        self.left = extra.saturating_sub(self.ticks.saturating_sub(begins)) as u8;
    }
}
