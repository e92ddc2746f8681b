//! The numbers of a core's past.

ghost use Rattle.std.specs.Prelude.{◌≡◌, ◌<◌, ◌≤◌, ◌^◌, IfSome, Some, max};
ghost use Rattle.std.specs.Option.{option_copied};
ghost use Rattle.isa_step.specs.Requests.{late_at, latency_of};
ghost use Rattle.op_table.specs.Table.{is_store, kind_of};
ghost use Rattle.mb_decode.specs.Meaning.{NamesRegisters};
ghost use Rattle.timing_law.specs.Past.{begins_at, due_at, fetched_at, fresh, marked, operands_at, retired, turned, used};
ghost use Rattle.timing_law.specs.Table.{extra_for, late_of};

use crate::pipe::{Jump, Pipe};
use isa_step::{Kind, Late, Latency, kind_of, latency_of};
use mb_decode::Instr;
use op_table::is_store;

/// What times the next act of a core, in ticks of the core from 0 on.
#[derive(Clone, Copy, Debug, PartialEq, Eq)]
pub struct Past {
    pub pipe: Pipe,
    /// The first tick in which an instruction can act.
    pub first: u64,
    /// The tick from which the core is free for its next act.
    pub next: u64,
    /// The tick from which each register can be used.
    pub ready: [u64; 32],
    /// The tick from which the word at pc is decoded, where a branch or a trap led to it.
    pub redirect: u64,
}

/// A number that counts only where a register is read.
fn used(reads: bool, number: u64) -> u64
    ensures { result ≡ used reads number }
{
    if reads { number } else { 0 }
}

/// The tick from which an instruction can use each register that it reads, by whether it stores.
#[tactic(auto, unfolding(crate::specs::Past::operands_at))]
#[inline(always)]
fn operands_of(i: &Instr, stores: bool, ready: &[u64; 32]) -> u64
    requires names { NamesRegisters i.now }
    requires store { stores ≡ is_store i.now.op }
    ensures { result ≡ operands_at (Some i.now) ready.now }
{
    used(i.ra != 0, ready[i.ra as usize])
        .max(used(i.rb != 0, ready[i.rb as usize]))
        .max(used(i.rd != 0 && stores, ready[i.rd as usize]))
}

/// The tick from which an instruction can use each register that it reads.
#[tactic(auto, unfolding(crate::specs::Past::operands_at))]
pub fn operands_at(i: Option<&Instr>, ready: &[u64; 32]) -> u64
    requires names { IfSome (option_copied i) NamesRegisters }
    ensures { result ≡ operands_at (option_copied i.entry) ready.now }
{
    match i {
        Some(i) => operands_of(i, is_store(i.op), ready),
        None => 0,
    }
}

/// The register that an instruction of a latency makes late.
#[inline(always)]
fn late_as(rd: u8, latency: Option<Latency>) -> Option<Late>
    requires { rd < 32 }
    ensures value { result ≡ late_at rd latency }
    ensures names { IfSome result (λ l. l.reg < 32) }
{
    match latency {
        Some(latency) if rd != 0 => Some(Late { reg: rd, latency }),
        _ => None,
    }
}

/// The register that an instruction makes late, also where a get that missed doesn't write it.
pub fn late_of(i: &Instr) -> Option<Late>
    requires { NamesRegisters i.now }
    ensures value { result ≡ late_of i.now }
    ensures names { IfSome result (λ l. l.reg < 32) }
{
    late_as(i.rd, latency_of(i.op))
}

impl Past {
    /// The past of a core before its first tick.
    pub fn new(pipe: Pipe) -> Past
        ensures { result ≡ fresh pipe }
    {
        Past {
            pipe,
            first: u64::from(pipe.first()),
            next: 0,
            ready: [0; 32],
            redirect: 0,
        }
    }

    /// The tick from which an instruction whose operands are ready in a tick may begin.
    #[inline(always)]
    fn begins_with(&self, operands: u64, in_slot: bool) -> u64
        ensures { result ≡ max (max (fetched_at self.now in_slot) self.now.next) operands }
    {
        let redirect = if in_slot { 0 } else { self.redirect };
        self.first.max(redirect).max(self.next).max(operands)
    }

    /// The tick from which an instruction may begin: it acts when its further ticks have passed.
    pub fn begins(&self, i: Option<&Instr>, in_slot: bool) -> u64
        requires { IfSome (option_copied i) NamesRegisters }
        ensures { result ≡ begins_at self.now (option_copied i.entry) in_slot }
    {
        self.begins_with(operands_at(i, &self.ready), in_slot)
    }

    /// The same of an instruction of which it is known whether it stores.
    #[inline(always)]
    pub fn begins_by(&self, i: &Instr, stores: bool, in_slot: bool) -> u64
        requires names { NamesRegisters i.now }
        requires store { stores ≡ is_store i.now.op }
        ensures { result ≡ begins_at self.now (Some i.now) in_slot }
    {
        self.begins_with(operands_of(i, stores, &self.ready), in_slot)
    }

    /// The tick from which an instruction may act; `None` is an act whose word isn't there or doesn't decode. The word in
    /// the slot of a branch was fetched with it, so that no redirect holds it back.
    #[tactic(auto, unfolding(crate::specs::Past::due_at))]
    pub fn due(&self, i: Option<&Instr>, in_slot: bool) -> u64
        requires names { IfSome (option_copied i) NamesRegisters }
        requires young { begins_at self.now (option_copied i) in_slot < 2 ^ 63 }
        ensures { result ≡ due_at self.now (option_copied i.entry) in_slot }
    {
        self.begins(i, in_slot) + self.extra(i)
    }

    /// The further ticks of an instruction.
    pub fn extra(&self, i: Option<&Instr>) -> u64
        ensures value { result ≡ extra_for self.now.pipe (option_copied i.entry) }
        ensures few { result ≤ 33 }
    {
        match i {
            Some(i) => u64::from(self.pipe.extra(kind_of(i.op))),
            None => 0,
        }
    }

    /// Passes an instruction that retired in a tick.
    pub fn retired(&mut self, i: &Instr, at: u64, jump: Jump)
        requires names { NamesRegisters i.now }
        requires young { at < 2 ^ 63 }
        ensures { self.new ≡ retired i.now at jump self.old }
    {
        self.retired_as(i, kind_of(i.op), latency_of(i.op), at, jump);
    }

    /// The same of an instruction whose kind and latency are known.
    #[inline(always)]
    pub fn retired_as(
        &mut self,
        i: &Instr,
        kind: Kind,
        latency: Option<Latency>,
        at: u64,
        jump: Jump,
    )
        requires names { NamesRegisters i.now }
        requires kind { kind ≡ kind_of i.now.op }
        requires latency { latency ≡ latency_of (kind_of i.now.op) }
        requires young { at < 2 ^ 63 }
        ensures { self.new ≡ retired i.now at jump self.old }
    {
        self.next = at + u64::from(self.pipe.hold(kind));
        self.mark(late_as(i.rd, latency), at);
        match jump {
            Jump::On => {}
            Jump::Taken => self.redirect = at + u64::from(self.pipe.branch()),
            Jump::Struck => self.redirect = at + u64::from(self.pipe.turn()),
        }
    }

    fn mark(&mut self, late: Option<Late>, at: u64)
        requires names { IfSome late (λ l. l.reg < 32) }
        requires young { at < 2 ^ 63 }
        ensures { self.new ≡ record self.old { ready = marked self.old.pipe at late self.old.ready } }
    {
        if let Some(late) = late {
            self.ready[late.reg as usize] = at + u64::from(self.pipe.ready(late.latency));
        }
    }

    /// Passes a take or a raise in a tick.
    pub fn turned(&mut self, at: u64)
        requires { at < 2 ^ 63 }
        ensures { self.new ≡ turned at self.old }
    {
        self.next = at + 1;
        self.redirect = at + u64::from(self.pipe.turn());
    }
}
