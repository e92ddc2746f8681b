//! A core with stages: what all pipelines but the plain one share.

ghost use Rattle.std.specs.Prelude.{◌≡◌, ℕ, ◌<◌, ◌≤◌, ◌&&◌, ◌^◌, IfSome, is_some, length, None, true, false};
ghost use Rattle.core_regs.specs.State.{bare, reg, write_of};
ghost use Rattle.isa_step.specs.Due.{here_at};
ghost use Rattle.isa_step.specs.Requests.{is_link};
ghost use Rattle.timing_law.specs.Passing.{instr_of};
ghost use Rattle.timing_law.specs.Table.{depth_of};
ghost use Rattle.core_iface.specs.Cores.{made};
ghost use Rattle.core_iface.specs.Flights.{applied};
ghost use Rattle.core_iface.specs.Ticks.{is_pending};
ghost use Rattle.core_iface.specs.Words.{IsKept, goes_on};
ghost use Rattle.pipe_latch.specs.Clocks.{IsSet, set};
ghost use Rattle.pipe_latch.specs.Latches.{AreWords, InStages, flown};
ghost use Rattle.pipe_latch.specs.Stages.{HasStages, pipe_with};
ghost use Rattle.pipe_latch.specs.Props.{stages_prop, words_prop};
ghost use Rattle.std.proofs.Props.{props};

use crate::{Clock, Flights, Queue};
use byte_mem::Memory;
use core_iface::{Core, Flight, Tick, Words, is_pending, rest_of};
use core_regs::{Arch, Write};
use isa_step::{END_WORD, Here, Idle, Outcome, Ports, Sees, act, idle_at};
use op_table::{Kind, kind_of};
use prepared_act::{Prepared, act_at_once, flow_of};
use timing_law::{Past, Pipe, instr_of};

/// A core of three, five or eight stages.
#[derive(Drop)]
pub struct StagedCore<const STAGES: u8> {
    /// What a program sees: results in flight are in its registers.
    arch: Arch,
    /// The register file, which they haven't reached.
    file: [u32; 32],
    memory: Memory,
    flights: Flights,
    queue: Queue,
    clock: Clock,
    words: Words,
    /// Whether the core runs, is awake, and stands at a word at which an act is due whatever the ports show.
    at_once: bool,
    /// Whether that word is kept, and its act inner.
    is_logged: bool,
    ghost stages: { HasStages STAGES },
    ghost pipe: { clock.past.pipe ≡ pipe_with STAGES },
    ghost flying: { InStages (depth_of (pipe_with STAGES)) 0 flights.stages } by { stages_prop (depth_of (pipe_with STAGES)) 0 flights.stages },
    ghost forwarded: { arch.regs ≡ applied (flown 0 flights.stages) file },
    ghost fetched: { AreWords memory queue.order queue.words } by { words_prop memory queue.order queue.words },
    ghost set: { IsSet clock (instr_of (here_at (bare arch) memory)) (is_some arch.slot) } by { Prim.hlevel props },
    ghost runs: { at_once ≡ true → arch.stopped ≡ None },
    ghost awake: { at_once ≡ true → arch.asleep ≡ false },
    ghost kept: { is_logged ≡ true → IsKept words.kept arch memory } by { Prim.hlevel props },
    ghost goes: { at_once ≡ true → goes_on (here_at (bare arch) memory) ≡ true },
}

/// The pipeline with so many stages.
fn pipe_with(stages: u8) -> Pipe
    ensures { result ≡ pipe_with stages }
{
    match stages {
        3 => Pipe::Three,
        5 => Pipe::Five,
        _ => Pipe::Eight,
    }
}

/// Whether the tick only lets stages pass: it is early for what is pending.
fn fills<P: Sees>(early: bool, here: &Option<Here>, a: &Arch, p: &P) -> bool
    ensures { result ≡ early && is_pending here.now (bare a.now) (P.shows p.now) }
{
    early && is_pending(here, a, p)
}

/// What an inner act wrote.
#[inline(always)]
fn written(word: &Prepared, a: &Arch) -> Option<Write>
    ensures value { result ≡ write_of word.now.result (reg a.now.regs word.now.result) }
    ensures named { IfSome result (λ w. w.reg < 32) }
{
    if word.result == 0 {
        None
    } else {
        Some(Write {
            reg: word.result,
            value: a.get(word.result),
        })
    }
}

/// There are 32 registers: what the proof of an act at once needs of their type.
#[inline(always)]
fn are_all(regs: &[u32; 32])
    ensures { length regs.now ≡ 32 }
{}

/// Whether a core runs and is awake.
#[inline(always)]
fn is_up(a: &Arch) -> bool
    ensures awake { result ≡ true → a.now.asleep ≡ false }
    ensures runs { result ≡ true → a.now.stopped ≡ None }
{
    !a.asleep && a.stopped.is_none()
}

fn is_link(kind: Kind) -> bool
    ensures { result ≡ is_link kind }
{
    matches!(kind, Kind::Get { .. } | Kind::Put { .. })
}

/// Whether an act is due at a word whatever the ports show: it is neither the end nor an access to a link.
fn goes_on(here: &Option<Here>) -> bool
    ensures { result ≡ goes_on here.now }
{
    match here {
        Some(
            Here {
                word,
                instr: Some(i),
            },
        ) => *word != END_WORD && !is_link(kind_of(i.op)),
        Some(Here { word, instr: None }) => *word != END_WORD,
        None => true,
    }
}

/// Meets a word at pc that is not inner. Whether an act is due there whatever the ports show.
#[cold]
#[inline(never)]
fn meet_other(words: &Words, clock: &mut Clock, a: &Arch, m: &Memory) -> bool
    requires { clock.old.slack ≡ 63 }
    ensures clock { clock.new ≡ set (instr_of (here_at (bare a.now) m.now)) (is_some a.now.slot) clock.old }
    ensures goes { result ≡ goes_on (here_at (bare a.now) m.now) }
{
    let here = words.here_at(a, m);
    clock.begin(instr_of(&here), a.slot.is_some());
    goes_on(&here)
}

/// Meets the word at pc: the stages begin to hold it back. Whether an act is due whatever the ports show.
#[inline(always)]
fn meet(
    words: &mut Words,
    is_logged: &mut bool,
    clock: &mut Clock,
    queue: &Queue,
    a: &Arch,
    m: &Memory,
) -> bool
    requires slack { clock.old.slack ≡ 63 }
    requires words { AreWords m.now queue.now.order queue.now.words }
    ensures clock { clock.new ≡ set (instr_of (here_at (bare a.now) m.now)) (is_some a.now.slot) clock.old }
    ensures runs { result ≡ true → a.now.stopped ≡ None }
    ensures awake { result ≡ true → a.now.asleep ≡ false }
    ensures kept { is_logged.new ≡ true → IsKept words.new.kept a.now m.now }
    ensures goes { result ≡ true → goes_on (here_at (bare a.now) m.now) ≡ true }
{
    if words.look_at(a, m, queue.word_at_pc(a, m)) {
        *is_logged = true;
        clock.begin_inner(words.at(a.pc), a.slot.is_some());
        is_up(a)
    } else {
        *is_logged = false;
        meet_other(words, clock, a, m) && is_up(a)
    }
}

impl<const STAGES: u8> StagedCore<STAGES> {
    ghost use Rattle.pipe_latch.specs.Cores.{staged_state};
    ghost use Rattle.core_iface.specs.Ticks.{TicksAlone};

    /// A core with this view before its first tick.
    pub fn new(memory: Memory, arch: Arch) -> StagedCore<STAGES>
        requires { HasStages STAGES }
        ensures { staged_state result ≡ made (pipe_with STAGES) 63 arch memory }
    {
        let queue = Queue::new(arch.order, arch.pc);
        let mut words = Words::new();
        let mut clock = Clock::new(pipe_with(STAGES));
        let mut is_logged = false;
        let at_once = meet(
            &mut words,
            &mut is_logged,
            &mut clock,
            &queue,
            &arch,
            &memory,
        );
        StagedCore {
            file: arch.regs,
            arch,
            memory,
            flights: Flights::new(),
            queue,
            clock,
            words,
            at_once,
            is_logged,
        }
    }

    /// A tick that can be done at once.
    #[inline(never)]
    fn go(&mut self) -> bool
        requires young { self.old.clock.ticks < 2 ^ 62 }
        requires at_once { self.old.at_once ≡ true }
        ensures done { result ≡ true → TicksAlone (staged_state self.old) (staged_state self.new) }
        ensures kept { result ≡ false → staged_state self.new ≡ staged_state self.old }
    {
        let depth = self.clock.depth();
        if self.clock.holds() {
            self.flights.advance(depth, &mut self.file);
            self.queue.fetch(&self.memory, self.arch.pc);
            self.clock.fill();
            return true;
        }
        if !self.is_logged {
            return false;
        }
        are_all(&self.arch.regs);
        let pc = self.arch.pc;
        let word = self.words.at(pc);
        let Some(flow) = act_at_once(word, &mut self.arch, &mut self.memory) else {
            return false;
        };
        self.flights.advance(depth, &mut self.file);
        self.flights.begin(written(word, &self.arch));
        self.clock.retire(word, flow, self.arch.pc);
        self.queue.follow(flow, pc, self.arch.pc);
        self.queue.fetch(&self.memory, self.arch.pc);
        self.at_once = meet(
            &mut self.words,
            &mut self.is_logged,
            &mut self.clock,
            &self.queue,
            &self.arch,
            &self.memory,
        );
        true
    }
}

impl<const STAGES: u8> Core for StagedCore<STAGES> {
    ghost use Rattle.pipe_latch.specs.Cores.{staged_state};
    ghost use Rattle.std.proofs.Common.{sym};

    ghost state = { staged_state };

    #[inline(never)]
    fn tick<P: Ports>(&mut self, ports: &mut P) -> Tick {
        let here = self.words.here_at(&self.arch, &self.memory);
        let fills = fills(self.clock.holds(), &here, &self.arch, ports);
        let operands = self.flights.operands(&self.file, &here);
        let depth = self.clock.depth();
        self.flights.advance(depth, &mut self.file);
        if fills {
            self.queue.fetch(&self.memory, self.arch.pc);
            self.clock.fill();
            return Tick::Filling;
        }
        let pc = self.arch.pc;
        match act(&here, &operands, &mut self.arch, &mut self.memory, ports) {
            Outcome::Did(done) => {
                self.arch.write_back(done.write);
                self.flights.begin(done.write);
                self.clock.act(&here, &done, self.arch.pc);
                self.queue.follow(flow_of(&done), pc, self.arch.pc);
                self.queue.fetch(&self.memory, self.arch.pc);
                self.at_once = meet(
                    &mut self.words,
                    &mut self.is_logged,
                    &mut self.clock,
                    &self.queue,
                    &self.arch,
                    &self.memory,
                );
                Tick::Acted(done.act)
            }
            Outcome::Idle(idle) => {
                self.at_once = false;
                self.is_logged = false;
                self.queue.fetch(&self.memory, self.arch.pc);
                self.clock.stay();
                rest_of(idle, &here, &self.arch, ports)
            }
        }
    }

    #[inline(always)]
    fn tick_at_once(&mut self) -> bool {
        self.at_once && self.go()
    }

    fn arch(&self) -> Arch {
        self.arch
    }

    fn acts(&self) -> u64 {
        self.clock.acts()
    }

    fn ticks(&self) -> u64 {
        self.clock.ticks()
    }

    fn slack(&self) -> u8 {
        self.clock.slack()
    }

    fn depth(&self) -> u8 {
        self.clock.depth()
    }

    fn file(&self, reg: u8) -> u32 {
        self.file[reg as usize]
    }

    fn flight(&self, k: usize) -> Option<Flight> {
        self.flights.flight(k)
    }

    fn settle(&self, reg: u8) -> u8 {
        self.clock.settle(reg)
    }

    fn past(&self) -> Past {
        self.clock.past()
    }

    fn byte(&self, addr: u32) -> Option<u8> {
        self.memory.byte(addr)
    }

    fn idle<P: Sees>(&self, ports: &P) -> Option<Idle> {
        if self.at_once {
            return None;
        }
        idle_at(
            &self.arch,
            &self.words.here_at(&self.arch, &self.memory),
            ports,
        )
    }

    ghost split = { λ c. sym c.forwarded };
}
