//! The divider, which finds a bit of the quotient in a step, and what a division answers.
ghost use Rattle.alu_units.specs.Division.{Division, IsPartial, IsTowardsZero, fault_of, magnitude, quotient_of, signs_differ, with_sign};
ghost use Rattle.alu_units.specs.Integers.{value_of};
ghost use Rattle.std.specs.Prelude.{IsTrue, min, ◌≡◌, ◌+◌, ◌/◌, ◌^◌, ◌≤◌, ◌<◌, ◌↔◌};

use crate::faults::DivFault;
use mb_word::is_negative;
use std::marker::Model;

/// The answer of a division: its quotient, and where that isn't the right one, why.
#[derive(Clone, Copy, PartialEq, Eq, Debug)]
pub struct Quotient {
    pub value: u32,
    pub fault: Option<DivFault>,
}

/// A division that is done in 32 steps, a bit of the quotient each.
///
/// Callers see its operands and how many steps are done.
#[derive(Debug, Drop)]
pub struct Divider {
    dividend: u32,
    divisor: u32,
    signed: bool,
    rest: u32,
    quotient: u32,
    steps: u8,
}

impl Model for Divider {
    ghost use Rattle.alu_units.specs.Division.{Division, IsPartial, magnitude};

    ghost Value = { Division };

    ghost view = { λ d. record { dividend = d.dividend; divisor = d.divisor; signed = d.signed; steps = d.steps } };

    ghost invariant = { λ d. IsPartial (magnitude d.signed d.dividend) (magnitude d.signed d.divisor) d.rest d.quotient d.steps };
}

/// A word without its sign.
fn without_sign(signed: bool, a: u32) -> u32
    ensures { result ≡ magnitude signed a }
{
    if signed && is_negative(a) {
        a.wrapping_neg()
    } else {
        a
    }
}

/// Whether the signs of two words differ, where words have signs.
fn signs_differ(signed: bool, a: u32, b: u32) -> bool
    ensures { result ≡ signs_differ signed a b }
{
    signed && is_negative(a) != is_negative(b)
}

/// A magnitude with its sign.
fn with_sign(negative: bool, magnitude: u32) -> u32
    ensures { result ≡ with_sign negative magnitude }
{
    if negative {
        magnitude.wrapping_neg()
    } else {
        magnitude
    }
}

/// Why a division has no right quotient.
#[tactic(auto, unfolding(crate::specs::Division::fault_of))]
fn fault(dividend: u32, divisor: u32, signed: bool) -> Option<DivFault>
    ensures { result ≡ fault_of dividend divisor signed }
{
    if divisor == 0 {
        Some(DivFault::Zero)
    } else if signed && dividend == 0x8000_0000 && divisor == 0xFFFF_FFFF {
        Some(DivFault::Overflow)
    } else {
        None
    }
}

/// The answer of a division, from the quotient of its operands without their signs.
fn answer(dividend: u32, divisor: u32, signed: bool, unsigned: u32) -> Quotient
    requires { unsigned ≡ magnitude signed dividend / magnitude signed divisor }
    ensures value { result.value ≡ quotient_of dividend divisor signed }
    ensures fault { result.fault ≡ fault_of dividend divisor signed }
    ensures towards_zero { result.fault ≡ None → IsTowardsZero (value_of signed dividend) (value_of signed divisor) (value_of signed result.value) }
{
    let negative = signs_differ(signed, dividend, divisor);
    Quotient {
        value: with_sign(negative, unsigned),
        fault: fault(dividend, divisor, signed),
    }
}

/// A whole division at once, towards 0 (UG984, `idiv` and `idivu`).
///
/// A divisor of 0 gives 0 and `Zero`; 80000000 hex by -1 gives 80000000 hex and `Overflow`.
pub fn divide(dividend: u32, divisor: u32, signed: bool) -> Quotient
    ensures value { result.value ≡ quotient_of dividend divisor signed }
    ensures fault { result.fault ≡ fault_of dividend divisor signed }
    ensures towards_zero { result.fault ≡ None → IsTowardsZero (value_of signed dividend) (value_of signed divisor) (value_of signed result.value) }
{
    let by = without_sign(signed, divisor);
    let unsigned = if by == 0 {
        0
    } else {
        without_sign(signed, dividend) / by
    };
    answer(dividend, divisor, signed, unsigned)
}

/// The rest and the quotient after one more step.
#[derive(Clone, Copy)]
struct Turn {
    rest: u32,
    quotient: u32,
}

/// Takes the divisor off the doubled rest where it can.
fn next_turn(over: u32, by: u32, rest: u32, quotient: u32, steps: u8) -> Turn
    requires open { steps < 32 }
    requires partial { IsPartial over by rest quotient steps }
    ensures { IsPartial over by result.rest result.quotient (steps + 1) }
{
    let next_bit = (over >> (31 - steps)) & 1;
    let doubled = 2 * u64::from(rest) + u64::from(next_bit);
    if doubled >= u64::from(by) {
        Turn {
            rest: (doubled - u64::from(by)) as u32,
            quotient: 2 * quotient + 1,
        }
    } else {
        Turn {
            rest: doubled as u32,
            quotient: 2 * quotient,
        }
    }
}

impl Divider {
    /// A division with no step done.
    pub fn start(dividend: u32, divisor: u32, signed: bool) -> Divider
        ensures { result ≡ record { dividend = dividend; divisor = divisor; signed = signed; steps = 0 } }
    {
        Divider {
            dividend,
            divisor,
            signed,
            rest: 0,
            quotient: 0,
            steps: 0,
        }
    }

    /// Does one of the 32 steps; a step after them changes nothing.
    pub fn step(&mut self)
        ensures { self.new ≡ record self.old { steps = min (self.old.steps + 1) 32 } }
    {
        if self.steps < 32 {
            let over = without_sign(self.signed, self.dividend);
            let by = without_sign(self.signed, self.divisor);
            let next = next_turn(over, by, self.rest, self.quotient, self.steps);
            self.rest = next.rest;
            self.quotient = next.quotient;
            self.steps += 1;
        }
    }

    /// Whether all steps are done.
    pub fn done(&self) -> bool
        ensures { IsTrue result ↔ (self.now.steps ≡ 32) }
    {
        self.steps == 32
    }

    /// The quotient of the operands without their signs, 0 where there is no divisor.
    fn unsigned_quotient(&self) -> u32
        requires { self.now.steps ≡ 32 }
        ensures { result ≡ magnitude self.now.signed self.now.dividend / magnitude self.now.signed self.now.divisor }
    {
        if self.divisor == 0 { 0 } else { self.quotient }
    }

    /// The answer that `divide` gives too. All steps are to be `done` before.
    pub fn quotient(&self) -> Quotient
        requires { self.now.steps ≡ 32 }
        ensures value { result.value ≡ quotient_of self.now.dividend self.now.divisor self.now.signed }
        ensures fault { result.fault ≡ fault_of self.now.dividend self.now.divisor self.now.signed }
        ensures towards_zero { result.fault ≡ None → IsTowardsZero (value_of self.now.signed self.now.dividend) (value_of self.now.signed self.now.divisor) (value_of self.now.signed result.value) }
    {
        answer(
            self.dividend,
            self.divisor,
            self.signed,
            self.unsigned_quotient(),
        )
    }
}
