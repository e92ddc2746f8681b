//! What the pipelines are made of.
//!
//! [`Flights`] are the results that an act has computed and that haven't reached the register file: they pass the stages
//! behind execution, and the next instruction gets them forwarded, the youngest first. [`Queue`] has the words that were
//! fetched ahead: each is the word that memory has at its address, so that a store into one of them lets all go. [`Clock`] has
//! the time of the stages, as two counters that fall by themselves (until no stage holds the instruction at pc back, and
//! until the divider has done its steps), and the past of the core. A core of a number of stages holds one of each and puts
//! them together in its `tick`, and in `tick_at_once` where nothing is asked of the outside.
#![tactic(auto)]

mod clock;
mod fetching;
mod in_flight;
mod staged;
#[cfg(test)]
mod tests;

pub use clock::Clock;
pub use fetching::{Fetched, Queue};
pub use in_flight::Flights;
pub use staged::StagedCore;
