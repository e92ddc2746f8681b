//! The branches, breaks and returns.

ghost use Rattle.std.specs.Prelude.{◌≡◌};
ghost use Rattle.core_regs.specs.State.{bare};
ghost use Rattle.isa_step.specs.Branches.{ahead, branches, branches_if, breaks_off, holds, returns};
ghost use Rattle.isa_step.specs.Performing.{Makes, NamesGiven, NamesOf};

use crate::acts::Done;
use crate::commit::{into_rd, jump, retire};
use crate::operands::Given;
use core_regs::{Arch, Msr};
use delay_imm::{advance, branch};
use mb_word::is_negative;
use op_table::{Condition, Op, Return};
use trap_entry::leave;

/// So far from pc on.
fn ahead(a: &Arch, offset: u32) -> u32
    ensures { result ≡ ahead a.now offset }
{
    a.pc.wrapping_add(offset)
}

/// `br` and its forms.
pub fn branches(g: &Given, a: &mut Arch, absolute: bool, delayed: bool, linked: bool) -> Done
    requires { NamesGiven g.now }
    ensures names { NamesOf result }
    ensures makes { Makes (branches g.now (bare a.old) absolute delayed linked) result a.old a.new }
{
    let link = if linked { into_rd(g, a.pc) } else { None };
    let target = if absolute { g.b } else { ahead(a, g.b) };
    branch(a, target, delayed);
    jump(g, link)
}

/// `brk` and `brki`.
pub fn breaks_off(g: &Given, a: &mut Arch) -> Done
    requires { NamesGiven g.now }
    ensures names { NamesOf result }
    ensures makes { Makes (breaks_off g.now (bare a.old)) result a.old a.new }
{
    let link = into_rd(g, a.pc);
    branch(a, g.b, false);
    a.put_flag(Msr::BIP, true);
    jump(g, link)
}

/// How a register compares with 0.
pub fn holds(condition: Condition, x: u32) -> bool
    ensures { result ≡ holds condition x }
{
    let negative = is_negative(x);
    match condition {
        Condition::Equal => x == 0,
        Condition::Unequal => x != 0,
        Condition::Less => negative,
        Condition::LessOrEqual => negative || x == 0,
        Condition::Greater => !(negative || x == 0),
        Condition::GreaterOrEqual => !negative,
    }
}

/// The conditional branches.
pub fn branches_if(g: &Given, a: &mut Arch, delayed: bool, taken: bool) -> Done
    requires { NamesGiven g.now }
    ensures names { NamesOf result }
    ensures makes { Makes (branches_if g.now (bare a.old) delayed taken) result a.old a.new }
{
    if taken {
        let target = ahead(a, g.b);
        branch(a, target, delayed);
        return jump(g, None);
    }
    if delayed {
        let behind_slot = ahead(a, 8);
        branch(a, behind_slot, true);
    } else {
        advance(a, false);
    }
    retire(g, None)
}

/// `rtsd`, `rtid`, `rtbd` and `rted`.
pub fn returns(g: &Given, a: &mut Arch, from: Return) -> Done
    requires { NamesGiven g.now }
    ensures names { NamesOf result }
    ensures makes { Makes (returns g.now (bare a.old) from) result a.old a.new }
{
    branch(a, g.a.wrapping_add(g.b), true);
    match from {
        Return::Subroutine => leave(a, Op::Rtsd),
        Return::Interrupt => leave(a, Op::Rtid),
        Return::Break => leave(a, Op::Rtbd),
        Return::Exception => leave(a, Op::Rted),
    }
    jump(g, None)
}
