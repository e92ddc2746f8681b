//! Ranges of bytes, no two of which share one: whether another does, in log n steps for n ranges.
#![tactic(auto)]

mod kept;

pub use kept::{Range, Ranges};
