//! Why a core does nothing, told through a shared reference.

ghost use Rattle.std.specs.Prelude.{◌≡◌, IfSome, List, ℕ};
ghost use Rattle.core_regs.specs.State.{bare};
ghost use Rattle.mb_decode.specs.Meaning.{NamesRegisters};
ghost use Rattle.isa_step.specs.Due.{met};
ghost use Rattle.op_table.specs.Table.{kind_of};
ghost use Rattle.isa_step.specs.Resting.{idle_by, idle_of, idle_request, is_quiet};
ghost use Rattle.isa_step.specs.Requests.{request_of, operands_of, requested, requested_kind};

use crate::acts::{Here, Idle, Operands};
use crate::letters::is_nonblocking;
use crate::operands::{Given, read_operands, supply};
use crate::ports::Sees;
use crate::step::{is_atomic_here, is_banned, is_closed, is_end, is_link, met};
use crate::stream::port_of;
use core_regs::{Arch, WaitOn};
use delay_imm::may_take;
use mb_decode::Instr;
use op_table::{Kind, belongs_into_slot, kind_of};

/// Whether no take can come.
#[tactic(auto, unfolding(crate::specs::Resting::is_quiet))]
fn is_quiet<P: Sees>(a: &Arch, here: &Option<Here>, p: &P) -> bool
    ensures { result ≡ is_quiet (bare a.now) here.now (P.shows p.now) }
{
    is_closed(a, p.hopes()) || !may_take(a, is_atomic_here(here))
}

/// A get or a put that waits for its port.
#[tactic(auto, unfolding(crate::specs::Requests::request_of), using(crate::proofs::NeverWait::links_alone_wait))]
fn idle_access<P: Sees>(kind: Kind, g: &Given, a: &Arch, p: &P) -> Option<Idle>
    ensures { (m : List ℕ) → result ≡ idle_request (bare a.now) (request_of kind g.now (bare a.now) m) (P.shows p.now) }
{
    match kind {
        Kind::Get { dynamic } => {
            let port = port_of(g, dynamic);
            if p.peek(port).is_none() && !is_nonblocking(g.flags) {
                Some(Idle::Waits(WaitOn { port, full: false }))
            } else {
                None
            }
        }
        Kind::Put { dynamic } => {
            let port = port_of(g, dynamic);
            if !p.room(port) && !is_nonblocking(g.flags) {
                Some(Idle::Waits(WaitOn { port, full: true }))
            } else {
                None
            }
        }
        _ => None,
    }
}

/// An instruction at which nothing can be taken.
#[tactic(auto, using(crate::proofs::NeverWait::links_alone_wait))]
fn idle_instr<P: Sees>(i: &Instr, word: u32, o: &Operands, a: &Arch, p: &P) -> Option<Idle>
    requires { NamesRegisters i.now }
    ensures { (m : List ℕ) → result ≡ idle_request (bare a.now) (requested_kind (kind_of i.now.op) i.now word o.now (bare a.now) m) (P.shows p.now) }
{
    let kind = kind_of(i.op);
    if is_banned(i, kind, a.network) {
        return None;
    }
    if a.slot.is_some() && !belongs_into_slot(i.op) {
        return None;
    }
    if !is_link(kind) {
        return None;
    }
    idle_access(kind, &supply(i, kind, o, a), a, p)
}

/// The word at pc, at which nothing can be taken.
#[tactic(auto, unfolding(crate::specs::Requests::requested))]
fn idle_here<P: Sees>(here: &Option<Here>, o: &Operands, a: &Arch, p: &P) -> Option<Idle>
    requires { IfSome here.now (λ here. IfSome here.instr NamesRegisters) }
    ensures { (m : List ℕ) → result ≡ idle_request (bare a.now) (requested here.now o.now (bare a.now) m) (P.shows p.now) }
{
    let Some(here) = here else {
        return None;
    };
    if is_end(here.word, a) {
        return if is_closed(a, p.hopes()) {
            Some(Idle::Ended)
        } else {
            None
        };
    }
    match &here.instr {
        Some(i) => idle_instr(i, here.word, o, a, p),
        None => None,
    }
}

/// As `idle`, `here` being the word at pc and what it means.
pub fn idle_at<P: Sees>(a: &Arch, here: &Option<Here>, p: &P) -> Option<Idle>
    requires { IfSome here.now (λ here. IfSome here.instr NamesRegisters) }
    ensures { (m : List ℕ) → result ≡ idle_by here.now (operands_of here.now a.now.regs) (bare a.now) m (P.shows p.now) a.now.stopped }
{
    if let Some(cause) = a.stopped {
        return Some(Idle::Stopped(cause));
    }
    if !is_quiet(a, here, p) {
        return None;
    }
    if a.asleep {
        return Some(Idle::Asleep);
    }
    idle_here(here, &read_operands(here, &a.regs), a, p)
}

/// Why a core rests for good, `here` being the word at pc: it stopped, or sleeps, or has ended, or its link access
/// waits, and no interrupt or break can come. `None` in every other state.
pub fn idle<P: Sees>(a: &Arch, here: Option<u32>, p: &P) -> Option<Idle>
    ensures { (m : List ℕ) → result ≡ idle_of a.now here m (P.shows p.now) }
{
    idle_at(a, &met(here), p)
}
