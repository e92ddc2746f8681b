//! The arithmetic units of a MicroBlaze core (UG984), each equal to its equation.
//!
//! Operands come in the order of the instructions: `a` is rA, `b` is rB or the immediate. `adder`, `logic`, `compare` and
//! the like are one function of words each; `multiply`, `barrel` and `unary` have a kind that says which; a
//! `Divider` divides in 32 steps, and `divide` at once, with a `DivFault` where there is no right quotient.
//!
//! ```text
//! let sum = adder(2, 3, true); // 6, with the carry
//! let quotient = divide(21, 7, true); // 3, signed
//! ```
#![tactic(auto)]

mod divider;
mod faults;
mod products;
mod shifts;
#[cfg(test)]
mod tests;
mod words;

pub use divider::{Divider, Quotient, divide};
pub use faults::DivFault;
pub use op_table::{LogicKind, MulKind, ShiftKind, UnaryKind};
pub use products::multiply;
pub use shifts::{Shifted, barrel, sra, src, srl};
pub use words::{
    adder, compare, count_zeros, logic, pattern, pcmpeq, pcmpne, sext8, sext16, swap_bytes,
    swap_halves, unary,
};
