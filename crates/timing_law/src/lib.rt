//! When an act of a core is due, by the stages of its pipeline.
//!
//! A core does its next instruction not before each of five things has come: the first tick of its pipeline, the end of
//! what holds it since its last act, the results that the instruction reads, the word at pc where a branch or a trap led
//! elsewhere, and the further ticks of a divide. [`Pipe`] has the ticks of each, and [`Past`] the few numbers that a core
//! keeps of the acts that it did. That these are the numbers of the whole list of its acts is the law [`past_is_exact`].
//!
//!     let mut past = Past::new(Pipe::Eight);
//!     past.retired(&load, 4, Jump::On); // lwi r3, r3, 0 in tick 4
//!     let tick = past.due(Some(&load), false); // 9: r3 can be used five ticks later
#![tactic(auto)]

mod laws;
mod passing;
mod past;
mod pipe;
#[cfg(test)]
mod tests;

pub use laws::past_is_exact;
pub use passing::{instr_of, is_ahead, jump_of};
pub use past::{Past, late_of, operands_at};
pub use pipe::{Jump, Pipe};
