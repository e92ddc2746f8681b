//! The profile of a board: for each core, what each of its ticks was spent on.
//!
//! A `ProfiledBoard` is a board with nine counts a core (`Profile`). `run` plays the board event by event, as the exact
//! machine does (`exact_machine`), and counts each tick once: an act, a wait at a link, a sleep, a rest for good, or the
//! reason for which the act at pc was held back (`reason`). The counts stand beside the board, so that a run without them
//! costs nothing more.
//!
//! ```text
//! let mut board = ProfiledBoard::new(rt.alloc(), board)?;
//! let end = board.run(1_000_000, &mut ProbeSet::new());
//! let acted = board.profile(0).acted;
//! ```
#![tactic(auto)]

mod board;
mod line;
mod profile;
mod reason;
#[cfg(test)]
mod tests;

pub use board::ProfiledBoard;
pub use line::{ProfileLine, profile_line};
pub use profile::{Profile, Spent};
