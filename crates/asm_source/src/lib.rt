//! What a source means: its items, their words and bytes in the grown layout, and the first of its faults.
#![tactic(auto)]

mod fault;
mod item;
mod law;
#[cfg(test)]
mod tests;

pub use fault::{Fault, First, Rule};
pub use item::{Item, Operand, Span, Written, has_slot, is_relative, is_short};
pub use law::{
    faultless_is_near, faultless_is_small, first_is_least, image_is_one, parts_may_stop,
    slot_needs_prefix,
};
