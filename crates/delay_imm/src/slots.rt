ghost use Rattle.delay_imm.specs.Slots.{advanced, branched, immediate_of, may_take, prefixed};
ghost use Rattle.std.specs.Prelude.{◌≡◌};

use core_regs::Arch;
use mb_word::sign16;

/// The immediate operand of an instruction: its 16 bits below those of the `imm` before it, or with their sign where
/// no prefix is held.
pub fn immediate(a: &Arch, imm: u16) -> u32
    ensures { result ≡ immediate_of a.now.prefix imm }
{
    match a.prefix {
        Some(high) => (u32::from(high) << 16) + u32::from(imm),
        None => sign16(imm),
    }
}

/// Moves past the instruction at pc: to the target that its slot holds, or to the next word modulo 2^32. A prefix and
/// a slot end here, whether the instruction used them or not; `atomic` is the new atomic latch.
pub fn advance(a: &mut Arch, atomic: bool)
    ensures { a.new ≡ advanced a.old atomic }
{
    a.pc = match a.slot {
        Some(target) => target,
        None => a.pc.wrapping_add(4),
    };
    a.prefix = None;
    a.slot = None;
    a.atomic = atomic;
}

/// Moves past an `imm` and holds its 16 bits as the prefix of the next instruction; of two prefixes the last counts.
pub fn hold_prefix(a: &mut Arch, imm: u16)
    ensures { a.new ≡ prefixed a.old imm }
{
    advance(a, false);
    a.prefix = Some(imm);
}

/// Moves to the target of a branch, or, where it is delayed, to the word after it, which stands in its slot: the
/// target is held until that instruction is done. A branch never stands in a slot itself; one that did would drop the
/// target that is held, and go on as if there were none.
pub fn branch(a: &mut Arch, target: u32, delayed: bool)
    ensures { a.new ≡ branched a.old target delayed }
{
    if delayed {
        a.pc = a.pc.wrapping_add(4);
        a.slot = Some(target);
    } else {
        a.pc = target;
        a.slot = None;
    }
    a.prefix = None;
    a.atomic = false;
}

/// Whether an interrupt or a break may be taken at pc: no prefix and no slot is held and the last instruction was no
/// atomic link access; the word at pc is none either, or the core is asleep before it.
pub fn may_take(a: &Arch, atomic_here: bool) -> bool
    ensures { result ≡ may_take a.now atomic_here }
{
    a.prefix.is_none() && a.slot.is_none() && !a.atomic && (!atomic_here || a.asleep)
}
