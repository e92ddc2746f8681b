//! Why the act at pc is held back, told before the tick.

ghost use Rattle.std.specs.Prelude.{◌≡◌, ◌%◌, IfSome, is_some};
ghost use Rattle.std.specs.Option.{option_copied};
ghost use Rattle.byte_mem.specs.Access.{loaded};
ghost use Rattle.board_profile.specs.Profiles.{spent_as};
ghost use Rattle.board_run.specs.Boards.{core_of};
ghost use Rattle.core_regs.specs.declared.causes.Size.TheVariants.{Word};
ghost use Rattle.exact_machine.specs.Profile.{reason, reason_by};
ghost use Rattle.isa_step.specs.Due.{here_of};
ghost use Rattle.mb_decode.specs.Meaning.{NamesRegisters};
ghost use Rattle.timing_law.specs.Passing.{instr_of};

use crate::profile::Spent;
use core_iface::Core;
use core_regs::Order;
use mb_decode::{Instr, decode};
use timing_law::{Past, operands_at};

/// The word at an address of a core's memory; `None` exactly where a byte of it lies past the end.
#[tactic(auto, unfolding(byte_mem::specs::Access::loaded))]
fn word_at<C: Core>(core: &C, addr: u32, order: Order) -> Option<u32>
    requires aligned { addr % 4 ≡ 0 }
    ensures { result ≡ loaded (C.state core.now).view.memory Word order addr }
{
    let bytes = [
        core.byte(addr)?,
        core.byte(addr + 1)?,
        core.byte(addr + 2)?,
        core.byte(addr + 3)?,
    ];
    Some(match order {
        Order::Big => u32::from_be_bytes(bytes),
        Order::Little => u32::from_le_bytes(bytes),
    })
}

/// The instruction that the word at pc means; `None` where it isn't there or means none.
#[tactic(auto, unfolding(isa_step::specs::Due::here_at))]
fn instr_here<C: Core>(core: &C) -> Option<Instr>
    ensures instr { result ≡ instr_of (here_of (C.state core.now).view) }
    ensures names { IfSome result NamesRegisters }
{
    let arch = core.arch();
    if arch.pc % 4 != 0 {
        return None;
    }
    decode(word_at(core, arch.pc, arch.order)?)
}

/// The first reason for which an act is held back in a tick; a divide where there is no other.
pub(crate) fn reason_by(past: &Past, instr: Option<&Instr>, in_slot: bool, tick: u64) -> Spent
    requires names { IfSome (option_copied instr) NamesRegisters }
    ensures { spent_as result ≡ reason_by past.now (option_copied instr.entry) in_slot tick }
{
    let redirect = if in_slot { 0 } else { past.redirect };
    if tick < past.first {
        Spent::Starting
    } else if tick < past.next {
        Spent::Holding
    } else if tick < operands_at(instr, &past.ready) {
        Spent::Reading
    } else if tick < redirect {
        Spent::Redirecting
    } else {
        Spent::Dividing
    }
}

/// Why a core's act would be held back in its next tick.
pub(crate) fn reason<C: Core>(core: &C) -> Spent
    ensures { spent_as result ≡ reason (core_of (C.state core.now)) }
{
    let instr = instr_here(core);
    let past = core.past();
    reason_by(
        &past,
        instr.as_ref(),
        core.arch().slot.is_some(),
        core.ticks(),
    )
}
