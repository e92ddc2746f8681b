//! The arithmetic, shift and compare instructions.

ghost use Rattle.std.specs.Prelude.{◌≡◌, ◌+◌, ◌^◌, ◌*◌};
ghost use Rattle.core_regs.specs.State.{bare};
ghost use Rattle.mb_word.specs.Word.{bit_of};
ghost use Rattle.isa_step.specs.Arithmetic.{adds, cause_of, divides, equality, shifts_by_one, subtracts, sums};
ghost use Rattle.isa_step.specs.Performing.{Makes, NamesGiven, NamesOf};

use crate::acts::Done;
use crate::commit::{into_rd, raise, retire, yields};
use crate::operands::Given;
use alu_units::{DivFault, adder, divide, pcmpeq, pcmpne, sra, src, srl};
use core_regs::{Arch, Msr};
use delay_imm::advance;
use mb_word::Sum;
use op_table::TopBit;
use trap_entry::Cause;

/// rD = a sum, whose carry out goes to C but where it is kept.
fn sums(g: &Given, a: &mut Arch, keep: bool, sum: Sum) -> Done
    requires { NamesGiven g.now }
    ensures names { NamesOf result }
    ensures makes { Makes (sums g.now (bare a.old) keep (sum.value + 2 ^ 32 * bit_of sum.carry)) result a.old a.new }
{
    advance(a, false);
    if !keep {
        a.put_flag(Msr::C, sum.carry);
    }
    retire(g, into_rd(g, sum.value))
}

/// `add` and its forms.
pub fn adds(g: &Given, a: &mut Arch, with_carry: bool, keep: bool) -> Done
    requires { NamesGiven g.now }
    ensures names { NamesOf result }
    ensures makes { Makes (adds g.now (bare a.old) with_carry keep) result a.old a.new }
{
    let carry = with_carry && a.has(Msr::C);
    sums(g, a, keep, adder(g.a, g.b, carry))
}

/// `rsub` and its forms.
pub fn subtracts(g: &Given, a: &mut Arch, with_carry: bool, keep: bool) -> Done
    requires { NamesGiven g.now }
    ensures names { NamesOf result }
    ensures makes { Makes (subtracts g.now (bare a.old) with_carry keep) result a.old a.new }
{
    let carry = !with_carry || a.has(Msr::C);
    sums(g, a, keep, adder(g.b, !g.a, carry))
}

fn cause_of(fault: DivFault) -> Cause
    ensures { result ≡ cause_of fault }
{
    match fault {
        DivFault::Zero => Cause::DivideZero,
        DivFault::Overflow => Cause::DivideOverflow,
    }
}

/// `idiv` and `idivu`.
pub fn divides(g: &Given, a: &mut Arch, signed: bool) -> Done
    requires { NamesGiven g.now }
    ensures names { NamesOf result }
    ensures makes { Makes (divides g.now (bare a.old) signed) result a.old a.new }
{
    let quotient = divide(g.b, g.a, signed);
    let Some(fault) = quotient.fault else {
        return yields(g, a, quotient.value);
    };
    if a.exceptions_on() {
        a.put_flag(Msr::DZO, true);
        return raise(a, &cause_of(fault));
    }
    advance(a, false);
    a.put_flag(Msr::DZO, true);
    retire(g, into_rd(g, quotient.value))
}

/// `pcmpeq` and `pcmpne`.
pub fn equality(g: &Given, wanted: bool) -> u32
    ensures { result ≡ equality g.now wanted }
{
    if wanted {
        pcmpeq(g.a, g.b)
    } else {
        pcmpne(g.a, g.b)
    }
}

/// `sra`, `src` and `srl`.
pub fn shifts_by_one(g: &Given, a: &mut Arch, top: TopBit) -> Done
    requires { NamesGiven g.now }
    ensures names { NamesOf result }
    ensures makes { Makes (shifts_by_one g.now (bare a.old) top) result a.old a.new }
{
    let shifted = match top {
        TopBit::Sign => sra(g.a),
        TopBit::Carry => src(g.a, a.has(Msr::C)),
        TopBit::Zero => srl(g.a),
    };
    advance(a, false);
    a.put_flag(Msr::C, shifted.carry);
    retire(g, into_rd(g, shifted.value))
}
