//! The demonstration: a ring of 2 to 16 cores on all pipelines, which is run under three orders.
//!
//! `demo` makes the ring of a number from values, runs it by the board machine up to the first of its ends, ascending,
//! descending and rotating, and prints a summary of what left each run. `ring` makes the board, `program` its cores, `run`
//! makes the runs, `tally` counts what left them, `summary` makes the lines, and `show` prints them. The law `rings_are_networks` says that the order can't
//! change what leaves.
//!
//! ```text
//! let end = demo(rt.alloc(), 0, &mut StdSink::new(rt.stdout()))?;
//! ```
#![tactic(auto)]

mod law;
mod program;
mod ring;
mod run;
mod show;
mod summary;
mod tally;
#[cfg(test)]
mod tests;

pub use law::rings_are_networks;
pub use show::demo;
