//! The probes of a board, which are told the entries of its journal as they come.
//!
//! A probe watches a run from outside: it counts or keeps entries, and may ask the board to stop. A board stands on
//! `ProbeSet` alone and tells it each `Entry`; the answer is whether a probe asked to stop.
//!
//! ```text
//! let mut probes = ProbeSet::new();
//! probes.attach(alloc, Name::from_text("count")?, Box::new(alloc, CountProbe::new())?)?;
//! let stop = probes.tell(&entry);
//! ```
#![tactic(auto)]

mod attached;
mod last;
mod probe;
mod set;
#[cfg(test)]
mod tests;

pub use attached::Attached;
pub use last::Last;
pub use probe::{Probe, ProbeKind, ProbeState};
pub use set::{AttachFault, AttachRefused, ProbeSet};
