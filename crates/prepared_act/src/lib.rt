//! Acts that are done at once: those of most instructions, which ask nothing of the outside and retire.
//!
//! A word is prepared when it is met first: [`Prepared`] is its meaning with all that can be told of its act before the
//! operands are known (its kind, where its second operand stands, its immediate with its sign, whether it may stand in
//! the slot of a branch). [`act_at_once`] then does the act of a core by one `match` on the kind, with the registers of
//! the core in place. Where it answers where the instruction leads that is the act which is due by the nine rules of
//! `isa_step`, as long as no interrupt and no break is offered to the core; where it answers `None` nothing has changed, and
//! the whole act does it.
//!
//!     let add = Prepared::of(0x0064_2800); // add r3, r4, r5
//!     if add.suits(&arch) {
//!         let flow = act_at_once(&add, &mut arch, &mut memory); // Some(Flow::On)
//!     }
#![tactic(auto)]

mod accessing;
mod at_once;
mod flow;
mod prepared;
#[cfg(test)]
mod tests;

pub use at_once::act_at_once;
pub use flow::{Flow, flow_of};
pub use prepared::{Prepared, late_register};
