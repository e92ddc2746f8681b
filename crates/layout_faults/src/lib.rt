//! The faults of a source that need its layout: unaligned instructions, slots, sizes, and parts that share a byte.
#![tactic(auto)]

mod items;
mod parts;
mod second;
mod slots;
mod written;

pub use second::second_fault;
