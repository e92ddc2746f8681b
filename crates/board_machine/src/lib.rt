//! The board machine: what a board of cores is and does, one event at a time, on plain lists. It is the definition that the
//! board of `board_run` is proved to follow; here is no code that runs.
//!
//! A board is a schedule, its cores and a fabric: all that ports, host and devices see or change, with the journal in it
//! (`specs/World.antt`, `specs/Fabric.antt`). An `Event` is the atomic step, and a cycle is a list of events; a run goes on up
//! to the first cycle at which an end comes, a `RunEnd` (`specs/Cycles.antt`). A board is at `Rest` where nothing can happen
//! any more (`specs/Resting.antt`). `specs/History.antt` says what a journal tells of each core, and `specs/Runs.antt`
//! what every run keeps. What is free in the machine is only how many ticks, at most 63, pass before each act: the
//! pipelines decide that.
//!
//! ```text
//! -- an entry, and what it says is done: an item that core 0 sends at port 3 is in the link and in the journal
//! entered 0 act (Sent 3 item) fabric
//! ```
#![tactic(auto)]

mod events;
mod parts;

pub use events::{Event, HostPart, Rest, RunEnd};
pub use parts::Spot;
