ghost use Rattle.std.specs.Prelude.{◌≡◌, IsTrue};
ghost use Rattle.trap_entry.specs.Entries.{diverted, entered, is_return, left_by, link_of_raise, link_of_take, raised, trapped};

use crate::cause::{Cause, esr_of};
use core_regs::{Arch, Msr, Take, Write};
use op_table::Op;

/// The address of the interrupt handler.
const INTERRUPT_VECTOR: u32 = 0x10;
/// The address of the break handler.
const BREAK_VECTOR: u32 = 0x18;
/// The address of the handler of hardware exceptions.
const EXCEPTION_VECTOR: u32 = 0x20;

/// All of a take but its register: moves to the handler and ends sleep; an interrupt clears IE, a break of either
/// kind sets BIP. Answers the write that is left, of pc to r14 or, for a break, r16.
pub fn divert(a: &mut Arch, t: Take) -> Write
    ensures state { a.new ≡ diverted a.old t }
    ensures link { result ≡ link_of_take a.old t }
{
    let value = a.pc;
    a.asleep = false;
    match t {
        Take::Interrupt => {
            a.put_flag(Msr::IE, false);
            a.pc = INTERRUPT_VECTOR;
            Write { reg: 14, value }
        }
        Take::Break | Take::NonMaskable => {
            a.put_flag(Msr::BIP, true);
            a.pc = BREAK_VECTOR;
            Write { reg: 16, value }
        }
    }
}

/// Takes an interrupt or a break: as `divert`, with pc in r14 or, for a break, r16.
pub fn enter(a: &mut Arch, t: Take)
    ensures { a.new ≡ entered a.old t }
{
    let link = divert(a, t);
    a.write_back(Some(link));
}

/// All of a raised fault but its register: moves to the handler, sets ESR and EIP, clears EE, and ends prefix, slot and
/// atomic latch. An unaligned access and a data bus fault set EAR, a stream fault sets EDR, and BTR is the target that
/// the slot held, where there is one. Answers the write that is left: of pc + 4 to r17, and none in a slot.
pub fn trap(a: &mut Arch, c: &Cause) -> Option<Write>
    ensures state { a.new ≡ trapped a.old c.now }
    ensures link { result ≡ link_of_raise a.old }
{
    let in_slot = a.slot.is_some();
    let value = a.pc.wrapping_add(4);
    a.put_flag(Msr::EIP, true);
    a.put_flag(Msr::EE, false);
    a.pc = EXCEPTION_VECTOR;
    a.ear = c.address().unwrap_or(a.ear);
    a.esr = esr_of(c, in_slot);
    a.btr = a.slot.unwrap_or(a.btr);
    a.edr = c.word().unwrap_or(a.edr);
    a.prefix = None;
    a.slot = None;
    a.atomic = false;
    if in_slot {
        None
    } else {
        Some(Write { reg: 17, value })
    }
}

/// Raises a fault: as `trap`, with pc + 4 in r17, which stays in a slot.
pub fn raise(a: &mut Arch, c: &Cause)
    ensures { a.new ≡ raised a.old c.now }
{
    let link = trap(a, c);
    a.write_back(link);
}

/// Changes MSR and ESR as a return does: `rtid` sets IE, `rtbd` clears BIP, `rted` sets EE and clears EIP and ESR, and
/// `rtsd` changes nothing.
pub fn leave(a: &mut Arch, op: Op)
    requires { IsTrue (is_return op) }
    ensures { a.new ≡ left_by a.old op }
{
    match op {
        Op::Rtid => a.put_flag(Msr::IE, true),
        Op::Rtbd => a.put_flag(Msr::BIP, false),
        Op::Rted => {
            a.put_flag(Msr::EE, true);
            a.put_flag(Msr::EIP, false);
            a.esr = 0;
        }
        _ => {}
    }
}
