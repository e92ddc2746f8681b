//! Acts that ask nothing of the outside and retire.

ghost use Rattle.std.specs.Prelude.{◌≡◌, ◌<◌, ℕ, List, Some, ◌+◌, ◌*◌, ◌^◌, ◌&&◌, ◌==◌, if◌then◌else◌, not, is_some, true, false, None, IfSome};
ghost use Rattle.core_regs.specs.State.{bare, reg, with_reg};
ghost use Rattle.delay_imm.specs.Slots.{advanced, branched, immediate_of};
ghost use Rattle.mb_word.specs.Word.{bit_of};
ghost use Rattle.isa_step.specs.Arithmetic.{adds, subtracts, sums, shifts_by_one};
ghost use Rattle.isa_step.specs.Branches.{branches, branches_if, holds, returns};
ghost use Rattle.op_table.specs.Table.{kind_of, second_of};
ghost use Rattle.op_table.specs.declared.kinds.Return.TheVariants.{Subroutine};
ghost use Rattle.isa_step.specs.Special.{holds_prefix};
ghost use Rattle.isa_step.specs.Due.{met};
ghost use Rattle.isa_step.specs.Requests.{belongs_into_slot, effect_of, request_of, operands_by, second_value, requested_kind};
ghost use Rattle.prepared_act.specs.Prepared.{is_inner};
ghost use Rattle.prepared_act.specs.Retiring.{IsRetired, arch_after, Retires, RetiresRequest, StaysUp, Suits, supplied, view_of};

use crate::accessing::{leaves, loads, stores};
use crate::flow::Flow;
use crate::prepared::Prepared;
use alu_units::{
    adder, barrel, compare, logic, multiply, pattern, pcmpeq, pcmpne, sra, src, srl, unary,
};
use byte_mem::Memory;
use core_regs::{Arch, Msr};
use delay_imm::{advance, branch, hold_prefix, immediate};
use mb_decode::Instr;
use mb_word::{Sum, is_negative};
use op_table::{Condition, Kind, Return, Second, TopBit};

/// 16 bits below those of a prefix.
#[inline(always)]
fn below(high: u16, imm: u16) -> u32
    ensures { result ≡ immediate_of (Some high) imm }
{
    (u32::from(high) << 16) + u32::from(imm)
}

/// The value of the second operand.
#[inline(always)]
fn second_value(q: &Prepared, a: &Arch) -> u32
    ensures { result ≡ second_value (second_of q.now.instr.op) (bare a.now) q.now.instr (operands_by (Some q.now.instr) a.now.regs) }
{
    match q.second {
        Second::Register => a.get(q.instr.rb),
        Second::Immediate => match a.prefix {
            Some(high) => below(high, q.instr.imm),
            None => q.extended,
        },
        Second::Count => q.extended,
    }
}

/// rD = a sum, whose carry out goes to C but where it is kept.
#[inline(always)]
fn sums(i: &Instr, a: &mut Arch, keep: bool, sum: Sum, x: u32, y: u32)
    requires { i.now.rd < 32 }
    ensures { a.new ≡ arch_after a.old (sums (supplied i.now x y a.old) (bare a.old) keep (sum.value + 2 ^ 32 * bit_of sum.carry)) }
{
    if !keep {
        a.put_flag(Msr::C, sum.carry);
    }
    leaves(i.rd, a, sum.value);
}

/// `add` and its forms.
#[inline(always)]
fn adds(i: &Instr, a: &mut Arch, with_carry: bool, keep: bool, x: u32, y: u32)
    requires { i.now.rd < 32 }
    ensures { a.new ≡ arch_after a.old (adds (supplied i.now x y a.old) (bare a.old) with_carry keep) }
{
    let carry = with_carry && a.has(Msr::C);
    sums(i, a, keep, adder(x, y, carry), x, y);
}

/// `rsub` and its forms.
#[inline(always)]
fn subtracts(i: &Instr, a: &mut Arch, with_carry: bool, keep: bool, x: u32, y: u32)
    requires { i.now.rd < 32 }
    ensures { a.new ≡ arch_after a.old (subtracts (supplied i.now x y a.old) (bare a.old) with_carry keep) }
{
    let carry = !with_carry || a.has(Msr::C);
    sums(i, a, keep, adder(y, !x, carry), x, y);
}

/// `sra`, `src` and `srl`.
#[inline(always)]
fn shifts_by_one(i: &Instr, a: &mut Arch, top: TopBit, x: u32, y: u32)
    requires { i.now.rd < 32 }
    ensures { a.new ≡ arch_after a.old (shifts_by_one (supplied i.now x y a.old) (bare a.old) top) }
{
    let shifted = match top {
        TopBit::Sign => sra(x),
        TopBit::Carry => src(x, a.has(Msr::C)),
        TopBit::Zero => srl(x),
    };
    a.put_flag(Msr::C, shifted.carry);
    leaves(i.rd, a, shifted.value);
}

/// How a register compares with 0.
#[inline(always)]
fn holds(condition: Condition, x: u32) -> bool
    ensures { result ≡ holds condition x }
{
    let negative = is_negative(x);
    match condition {
        Condition::Equal => x == 0,
        Condition::Unequal => x != 0,
        Condition::Less => negative,
        Condition::LessOrEqual => negative || x == 0,
        Condition::Greater => !(negative || x == 0),
        Condition::GreaterOrEqual => !negative,
    }
}

/// `pcmpeq` and `pcmpne`.
#[inline(always)]
fn equality(x: u32, y: u32, wanted: bool) -> u32
    ensures { result ≡ bit_of (if wanted then x == y else not (x == y)) }
{
    if wanted { pcmpeq(x, y) } else { pcmpne(x, y) }
}

/// `rtsd`.
#[inline(always)]
fn returns(i: &Instr, a: &mut Arch, x: u32, y: u32)
    ensures { a.new ≡ arch_after a.old (returns (supplied i.now x y a.old) (bare a.old) Subroutine) }
{
    branch(a, x.wrapping_add(y), true);
}

/// `br` and its forms.
#[inline(always)]
fn branches(i: &Instr, a: &mut Arch, absolute: bool, delayed: bool, linked: bool, x: u32, y: u32)
    requires { i.now.rd < 32 }
    ensures { a.new ≡ arch_after a.old (branches (supplied i.now x y a.old) (bare a.old) absolute delayed linked) }
{
    let here = a.pc;
    let target = if absolute { y } else { here.wrapping_add(y) };
    if linked {
        a.set(i.rd, here);
    }
    branch(a, target, delayed);
}

/// The conditional branches.
#[inline(always)]
fn branches_if(i: &Instr, a: &mut Arch, delayed: bool, taken: bool, x: u32, y: u32) -> Flow
    ensures up { StaysUp a.old a.new }
    ensures done { (m : List ℕ) → IsRetired (branches_if (supplied i.now x y a.old) (bare a.old) delayed taken) result (view_of a.old m) (view_of a.new m) }
{
    let here = a.pc;
    if taken {
        branch(a, here.wrapping_add(y), delayed);
        Flow::Jumped
    } else if delayed {
        branch(a, here.wrapping_add(8), true);
        Flow::On
    } else {
        advance(a, false);
        Flow::On
    }
}

/// An instruction of an inner kind, by the values of rA and of the second operand. Nothing changes where it answers
/// `None`.
#[tactic(auto, unfolding(isa_step::specs::Requests::request_of, isa_step::specs::Requests::effect_of))]
#[inline(always)]
fn retire_kind(kind: &Kind, i: &Instr, a: &mut Arch, m: &mut Memory, x: u32, y: u32) -> Option<Flow>
    requires { i.now.rd < 32 }
    ensures done { IfSome result (λ flow. RetiresRequest (request_of kind.now (supplied i.now x y a.old) (bare a.old) m.old) flow (view_of a.old m.old) (view_of a.new m.new)) }
    ensures arch { result ≡ None → a.new ≡ a.old }
    ensures memory { result ≡ None → m.new ≡ m.old }
    ensures up { StaysUp a.old a.new }
{
    match *kind {
        Kind::Add { carry, keep } => {
            adds(i, a, carry, keep, x, y);
            Some(Flow::On)
        }
        Kind::Rsub { carry, keep } => {
            subtracts(i, a, carry, keep, x, y);
            Some(Flow::On)
        }
        Kind::Compare { signed } => {
            leaves(i.rd, a, compare(x, y, signed));
            Some(Flow::On)
        }
        Kind::Multiply(part) => {
            leaves(i.rd, a, multiply(x, y, part));
            Some(Flow::On)
        }
        Kind::Shift(shift) => {
            leaves(i.rd, a, barrel(x, (y % 32) as u8, shift));
            Some(Flow::On)
        }
        Kind::Logic(operation) => {
            leaves(i.rd, a, logic(x, y, operation));
            Some(Flow::On)
        }
        Kind::FirstEqualByte => {
            leaves(i.rd, a, pattern(x, y));
            Some(Flow::On)
        }
        Kind::IsEqual { wanted } => {
            leaves(i.rd, a, equality(x, y, wanted));
            Some(Flow::On)
        }
        Kind::Return(Return::Subroutine) => {
            returns(i, a, x, y);
            Some(Flow::Jumped)
        }
        Kind::ShiftByOne(top) => {
            shifts_by_one(i, a, top, x, y);
            Some(Flow::On)
        }
        Kind::Unary(operation) => {
            leaves(i.rd, a, unary(x, operation));
            Some(Flow::On)
        }
        Kind::Branch {
            absolute,
            delayed,
            linked,
        } => {
            branches(i, a, absolute, delayed, linked, x, y);
            Some(Flow::Jumped)
        }
        Kind::BranchIf { condition, delayed } => {
            Some(branches_if(i, a, delayed, holds(condition, x), x, y))
        }
        Kind::Prefix => {
            hold_prefix(a, i.imm);
            Some(Flow::On)
        }
        Kind::Load(size) => loads(i, a, m, size, x, y),
        Kind::Store(size) => stores(i, a, m, size, x, y),
        _ => None,
    }
}

/// An instruction of an inner kind in its place.
#[inline(always)]
fn retire_instr(q: &Prepared, a: &mut Arch, m: &mut Memory) -> Option<Flow>
    requires inner { is_inner (kind_of q.now.instr.op) ≡ true }
    requires fits { (is_some a.old.slot && not (belongs_into_slot q.now.kind)) ≡ false }
    ensures done { IfSome result (λ flow. RetiresRequest (requested_kind (kind_of q.now.instr.op) q.now.instr q.now.word (operands_by (Some q.now.instr) a.old.regs) (bare a.old) m.old) flow (view_of a.old m.old) (view_of a.new m.new)) }
    ensures arch { result ≡ None → a.new ≡ a.old }
    ensures memory { result ≡ None → m.new ≡ m.old }
    ensures up { StaysUp a.old a.new }
{
    let x = a.get(q.instr.ra);
    let y = second_value(q, a);
    retire_kind(&q.kind, &q.instr, a, m, x, y)
}

/// Does the act of a core that runs and is awake at once, where it asks nothing of the outside and retires, and
/// answers where it leads: nothing changes else. It is the act that is due where nothing is offered to the core.
#[inline(always)]
pub fn act_at_once(q: &Prepared, a: &mut Arch, m: &mut Memory) -> Option<Flow>
    requires suits { Suits q.now a.old }
    requires runs { a.old.stopped ≡ None }
    requires awake { a.old.asleep ≡ false }
    ensures done { IfSome result (λ flow. Retires (met (Some q.now.word)) a.old m.old flow a.new m.new) }
    ensures arch { result ≡ None → a.new ≡ a.old }
    ensures memory { result ≡ None → m.new ≡ m.old }
    ensures up { StaysUp a.old a.new }
{
    retire_instr(q, a, m)
}
