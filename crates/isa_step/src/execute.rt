//! One instruction, by its kind.

ghost use Rattle.std.specs.Prelude.{◌≡◌, ◌≤◌};
ghost use Rattle.core_regs.specs.State.{bare};
ghost use Rattle.isa_step.specs.Due.{reply};
ghost use Rattle.isa_step.specs.Performing.{Makes, Names, NamesGiven, NamesOf, Performed};
ghost use Rattle.isa_step.specs.Requests.{effect_of, request_of};

use crate::acts::{Done, Outcome};
use crate::arithmetic::{adds, divides, equality, shifts_by_one, subtracts};
use crate::branch::{branches, branches_if, breaks_off, holds, returns};
use crate::commit::{retire, yields};
use crate::memory::{loads, stores};
use crate::operands::Given;
use crate::ports::Ports;
use crate::special::{barrier, clears_msr, holds_prefix, moves_to_msr, sets_msr, special_value};
use crate::stream::{gets, puts};
use alu_units::{barrel, compare, logic, multiply, pattern, unary};
use byte_mem::Memory;
use core_regs::Arch;
use delay_imm::advance;
use op_table::Kind;

/// An instruction that asks nothing of the outside.
#[tactic(auto, unfolding(crate::specs::Requests::effect_of))]
fn compute(kind: Kind, g: &Given, a: &mut Arch) -> Done
    requires { NamesGiven g.now }
    ensures names { NamesOf result }
    ensures makes { Makes (effect_of kind g.now (bare a.old)) result a.old a.new }
{
    match kind {
        Kind::Add { carry, keep } => adds(g, a, carry, keep),
        Kind::Rsub { carry, keep } => subtracts(g, a, carry, keep),
        Kind::Compare { signed } => yields(g, a, compare(g.a, g.b, signed)),
        Kind::Multiply(part) => yields(g, a, multiply(g.a, g.b, part)),
        Kind::Shift(shift) => yields(g, a, barrel(g.a, (g.b % 32) as u8, shift)),
        Kind::Divide { signed } => divides(g, a, signed),
        Kind::Logic(operation) => yields(g, a, logic(g.a, g.b, operation)),
        Kind::FirstEqualByte => yields(g, a, pattern(g.a, g.b)),
        Kind::IsEqual { wanted } => yields(g, a, equality(g, wanted)),
        Kind::ShiftByOne(top) => shifts_by_one(g, a, top),
        Kind::Unary(operation) => yields(g, a, unary(g.a, operation)),
        Kind::MoveFrom(special) => {
            let value = special_value(a, special);
            yields(g, a, value)
        }
        Kind::MoveToMsr => moves_to_msr(g, a),
        Kind::SetMsr => sets_msr(g, a),
        Kind::ClearMsr => clears_msr(g, a),
        Kind::Branch {
            absolute,
            delayed,
            linked,
        } => branches(g, a, absolute, delayed, linked),
        Kind::Break => breaks_off(g, a),
        Kind::BranchIf { condition, delayed } => branches_if(g, a, delayed, holds(condition, g.a)),
        Kind::Return(from) => returns(g, a, from),
        Kind::Prefix => holds_prefix(g, a),
        Kind::Barrier => barrier(g, a),
        Kind::Cache | Kind::Load(_) | Kind::Store(_) | Kind::Get { .. } | Kind::Put { .. } => {
            advance(a, false);
            retire(g, None)
        }
    }
}

/// An instruction, by the values of its operands.
#[tactic(auto, unfolding(crate::specs::Requests::request_of))]
pub fn execute<P: Ports>(kind: Kind, g: &Given, a: &mut Arch, m: &mut Memory, p: &mut P) -> Outcome
    requires given { NamesGiven g.now }
    requires spare { 1 ≤ P.spare p.old }
    ensures names { Names result }
    ensures performs { Performed P.done P.spare P.leaves (reply (bare a.old) (request_of kind g.now (bare a.old) m.old) (P.shows p.old)) result a.old m.old p.old a.new m.new p.new }
{
    match kind {
        Kind::Load(size) => loads(g, a, m, p, size),
        Kind::Store(size) => stores(g, a, m, p, size),
        Kind::Get { dynamic } => gets(g, a, p, dynamic),
        Kind::Put { dynamic } => puts(g, a, p, dynamic),
        kind => Outcome::Did(compute(kind, g, a)),
    }
}
