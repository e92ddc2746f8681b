//! The one act that is due. The first of nine rules that applies decides it (UG984, Interrupts, Exceptions, and Break):
//!
//! 1. A stopped core does nothing.
//! 2. A pending break or interrupt is taken, where none is held off: by a prefix or a slot, by a link access with `a`
//!    before or next, by MSR.
//! 3. A sleeping core does nothing.
//! 4. A pc that is no multiple of four, or outside the memory, is an instruction bus fault.
//! 5. At the branch to itself, `END_WORD`, with no prefix and no slot held, the core has ended, where no break and no
//!    interrupt can come any more; else the word is done as the branch that it is.
//! 6. A word that means no instruction is illegal, and so is a link access with `n` on a network board.
//! 7. An instruction in a slot that it doesn't belong into stops the core.
//! 8. A link access without `n` waits for an item, or for room.
//! 9. Else the instruction is done.

ghost use Rattle.std.specs.Prelude.{◌≡◌, ◌≤◌, ◌+◌, IfSome, List, ℕ, None, true};
ghost use Rattle.core_regs.specs.State.{bare};
ghost use Rattle.mb_decode.specs.Meaning.{NamesRegisters};
ghost use Rattle.isa_step.specs.Effects.{Does, HaltLoop, faults};
ghost use Rattle.isa_step.specs.Due.{due, due_with, here_at, is_closed, is_masked, met, pick, reply, take_by, take_due, takes};
ghost use Rattle.op_table.specs.Table.{kind_of};
ghost use Rattle.isa_step.specs.Performing.{Makes, Names, NamesOf, Performed, Stepped};
ghost use Rattle.isa_step.specs.Requests.{halt_loop, is_atomic_here, is_banned, is_end, is_link, requested, requested_kind};

use crate::acts::{Act, Done, Here, Hopes, Idle, Operands, Outcome, Step};
use crate::commit::{raise, stop};
use crate::execute::execute;
use crate::letters::{is_atomic, is_nonblocking};
use crate::operands::{read_operands, supply};
use crate::ports::{Ports, Sees};
use byte_mem::Memory;
use core_regs::{Arch, Msr, Size, StopCause, Take};
use delay_imm::{branch, may_take};
use mb_decode::{Instr, decode};
use op_table::{Kind, belongs_into_slot, kind_of};
use trap_entry::{Cause, divert};

/// The word that ends a program, the branch to itself `bri 0`.
pub const END_WORD: u32 = 0xB800_0000;

/// A fault of the instruction itself: it is raised, or stops the core.
fn faults(a: &mut Arch, cause: &Cause, why: StopCause) -> Done
    ensures names { NamesOf result }
    ensures makes { Makes (faults (bare a.old) cause.now why None) result a.old a.new }
{
    if a.exceptions_on() {
        raise(a, cause)
    } else {
        stop(a, why)
    }
}

pub fn is_link(kind: Kind) -> bool
    ensures { result ≡ is_link kind }
{
    matches!(kind, Kind::Get { .. } | Kind::Put { .. })
}

/// Whether an instruction is an illegal word on a network board.
pub fn is_banned(i: &Instr, kind: Kind, network: bool) -> bool
    ensures { result ≡ is_banned i.now kind network }
{
    network && is_link(kind) && is_nonblocking(i.flags)
}

/// An instruction in its place, or in a slot that it doesn't belong into.
fn do_instr<P: Ports>(
    i: &Instr,
    word: u32,
    o: &Operands,
    a: &mut Arch,
    m: &mut Memory,
    p: &mut P,
) -> Outcome
    requires registers { NamesRegisters i.now }
    requires spare { 1 ≤ P.spare p.old }
    ensures names { Names result }
    ensures performs { Performed P.done P.spare P.leaves (reply (bare a.old) (requested_kind (kind_of i.now.op) i.now word o.now (bare a.old) m.old) (P.shows p.old)) result a.old m.old p.old a.new m.new p.new }
{
    let kind = kind_of(i.op);
    // rule 6, on a network board
    if is_banned(i, kind, a.network) {
        return Outcome::Did(faults(a, &Cause::Illegal, StopCause::Illegal(word)));
    }
    // rule 7
    if a.slot.is_some() && !belongs_into_slot(i.op) {
        return Outcome::Did(stop(a, StopCause::Slot(word)));
    }
    // rules 8 and 9
    let given = supply(i, kind, o, a);
    execute(kind, &given, a, m, p)
}

/// Whether a word at pc is the branch to itself that ends a program, with no prefix and no slot held.
pub fn is_end(word: u32, a: &Arch) -> bool
    ensures { result ≡ is_end word a.now }
{
    word == END_WORD && a.prefix.is_none() && a.slot.is_none()
}

fn is_masked(a: &Arch) -> bool
    ensures { result ≡ is_masked a.now }
{
    a.has(Msr::BIP) || a.has(Msr::EIP)
}

/// Whether no take can come any more.
#[tactic(auto, unfolding(crate::specs::Due::is_closed))]
pub fn is_closed(a: &Arch, hopes: Hopes) -> bool
    ensures { result ≡ is_closed (bare a.now) hopes }
{
    let masked = is_masked(a);
    !hopes.nonmaskable
        && (!hopes.maskable || masked)
        && (!hopes.interrupt || !a.has(Msr::IE) || masked)
}

/// The word that ends a program: the core has ended, or the word is done as the branch that it is.
fn halt_loop<P: Ports>(a: &mut Arch, p: &P) -> Outcome
    ensures names { Names result }
    ensures performs { (m : List ℕ) → Performed P.done P.spare P.leaves (reply (bare a.old) (HaltLoop (halt_loop (bare a.old))) (P.shows p.now)) result a.old m p.now a.new m p.now }
{
    if is_closed(a, p.hopes()) {
        return Outcome::Idle(Idle::Ended);
    }
    let here = a.pc;
    branch(a, here, false);
    Outcome::Did(Done {
        act: Act::Retired,
        write: None,
        store: None,
        late: None,
        jumped: true,
    })
}

/// The word at pc.
#[tactic(auto, unfolding(crate::specs::Requests::requested))]
fn do_here<P: Ports>(
    here: &Option<Here>,
    o: &Operands,
    a: &mut Arch,
    m: &mut Memory,
    p: &mut P,
) -> Outcome
    requires registers { IfSome here.now (λ here. IfSome here.instr NamesRegisters) }
    requires spare { 1 ≤ P.spare p.old }
    ensures names { Names result }
    ensures performs { Performed P.done P.spare P.leaves (reply (bare a.old) (requested here.now o.now (bare a.old) m.old) (P.shows p.old)) result a.old m.old p.old a.new m.new p.new }
{
    // rule 4
    let Some(here) = here else {
        let pc = a.pc;
        return Outcome::Did(faults(a, &Cause::InstrBus, StopCause::InstrBus(pc)));
    };
    // rule 5
    if is_end(here.word, a) {
        return halt_loop(a, p);
    }
    match &here.instr {
        Some(i) => do_instr(i, here.word, o, a, m, p),
        // rule 6
        None => Outcome::Did(faults(a, &Cause::Illegal, StopCause::Illegal(here.word))),
    }
}

/// Whether the word at pc is a link access with the letter `a`, before which nothing is taken.
pub fn is_atomic_here(here: &Option<Here>) -> bool
    ensures { result ≡ is_atomic_here here.now }
{
    match here {
        Some(Here { instr: Some(i), .. }) => is_link(kind_of(i.op)) && is_atomic(i.flags),
        _ => false,
    }
}

fn pick(nonmaskable: bool, maskable: bool, interrupt: bool) -> Option<Take>
    ensures { result ≡ pick nonmaskable maskable interrupt }
{
    if nonmaskable {
        Some(Take::NonMaskable)
    } else if maskable {
        Some(Take::Break)
    } else if interrupt {
        Some(Take::Interrupt)
    } else {
        None
    }
}

/// The interrupt or break that is taken where one may come.
fn take_offered<P: Sees>(a: &Arch, p: &P) -> Option<Take>
    ensures { result ≡ take_by (bare a.now) (P.shows p.now) true }
{
    let breaks = p.breaks();
    let open = !is_masked(a);
    pick(
        breaks.nonmaskable,
        breaks.maskable && open,
        p.line() && a.has(Msr::IE) && open,
    )
}

/// The interrupt or break that is taken now.
#[tactic(auto, unfolding(crate::specs::Due::take_due), using(crate::proofs::Taking::none_by))]
pub fn take_due<P: Sees>(here: &Option<Here>, a: &Arch, p: &P) -> Option<Take>
    ensures { result ≡ take_due here.now (bare a.now) (P.shows p.now) }
{
    match take_offered(a, p) {
        Some(take) => {
            if may_take(a, is_atomic_here(here)) {
                Some(take)
            } else {
                None
            }
        }
        None => None,
    }
}

/// Takes an interrupt or a break.
fn take<P: Ports>(t: Take, a: &mut Arch, p: &mut P) -> Outcome
    requires { 1 ≤ P.spare p.old }
    ensures names { Names result }
    ensures performs { (m : List ℕ) → Performed P.done P.spare P.leaves (Does (takes (bare a.old) t)) result a.old m p.old a.new m p.new }
{
    p.took(t);
    let link = divert(a, t);
    Outcome::Did(Done {
        act: Act::Took(t),
        write: Some(link),
        store: None,
        late: None,
        jumped: false,
    })
}

/// Does the one act that is due by the word at pc and the values of its operands, or nothing where none is. It changes
/// all of the core but its registers, and answers what is left to write.
#[tactic(auto, unfolding(crate::specs::Due::due_with))]
pub fn act<P: Ports>(
    here: &Option<Here>,
    o: &Operands,
    a: &mut Arch,
    m: &mut Memory,
    p: &mut P,
) -> Outcome
    requires registers { IfSome here.now (λ here. IfSome here.instr NamesRegisters) }
    requires spare { 1 ≤ P.spare p.old }
    ensures names { Names result }
    ensures performs { Performed P.done P.spare P.leaves (due_with here.now o.now (bare a.old) m.old (P.shows p.old)) result a.old m.old p.old a.new m.new p.new }
{
    // rule 1
    if let Some(cause) = a.stopped {
        return Outcome::Idle(Idle::Stopped(cause));
    }
    match take_due(here, a, p) {
        // rule 2
        Some(t) => take(t, a, p),
        None => {
            // rule 3
            if a.asleep {
                Outcome::Idle(Idle::Asleep)
            } else {
                do_here(here, o, a, m, p)
            }
        }
    }
}

/// A word and what it means.
pub fn met(word: Option<u32>) -> Option<Here>
    ensures here { result ≡ met word }
    ensures registers { IfSome result (λ here. IfSome here.instr NamesRegisters) }
{
    match word {
        Some(word) => Some(Here {
            word,
            instr: decode(word),
        }),
        None => None,
    }
}

/// The word at pc, where pc is a multiple of four that lies in memory, and what it means.
#[tactic(auto, unfolding(crate::specs::Due::here_at))]
pub fn here_at(a: &Arch, m: &Memory) -> Option<Here>
    ensures here { result ≡ here_at (bare a.now) m.now }
    ensures registers { IfSome result (λ here. IfSome here.instr NamesRegisters) }
{
    if a.pc % 4 != 0 {
        return None;
    }
    match m.read(a.pc, Size::Word, a.order) {
        Ok(word) => met(Some(word)),
        Err(_) => None,
    }
}

/// Does the one act that is due, `here` being the word at pc and what it means, or answers why none is and changes
/// nothing.
pub fn perform_here<P: Ports>(here: &Option<Here>, a: &mut Arch, m: &mut Memory, p: &mut P) -> Step
    requires here { here.now ≡ here_at (bare a.old) m.old }
    requires registers { IfSome here.now (λ here. IfSome here.instr NamesRegisters) }
    requires spare { 1 ≤ P.spare p.old }
    ensures step { Stepped P.done P.spare P.leaves (due (record { arch = a.old; memory = m.old }) (P.shows p.old)) result (record { arch = a.old; memory = m.old }) p.old (record { arch = a.new; memory = m.new }) p.new }
    ensures spare { P.spare p.old ≤ P.spare p.new + 1 }
{
    let operands = read_operands(here, &a.regs);
    match act(here, &operands, a, m, p) {
        Outcome::Did(done) => {
            a.write_back(done.write);
            Step::Did(done.act)
        }
        Outcome::Idle(idle) => Step::Idle(idle),
    }
}

/// Does the one act that is due, or answers why none is and changes nothing.
pub fn perform<P: Ports>(a: &mut Arch, m: &mut Memory, p: &mut P) -> Step
    requires { 1 ≤ P.spare p.old }
    ensures step { Stepped P.done P.spare P.leaves (due (record { arch = a.old; memory = m.old }) (P.shows p.old)) result (record { arch = a.old; memory = m.old }) p.old (record { arch = a.new; memory = m.new }) p.new }
    ensures spare { P.spare p.old ≤ P.spare p.new + 1 }
{
    let here = here_at(a, m);
    perform_here(&here, a, m, p)
}
