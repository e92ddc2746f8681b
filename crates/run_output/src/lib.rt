//! What a run of a board puts out: the files of its links, its UARTs and its journal, and its report.
//!
//! `Outputs::reserve` takes all memory before the run. After it `Outputs::write` writes the files in board order, the
//! journal last, and `Outputs::print_report` prints the report; both know of the run by its journal alone. Each goes over the
//! journal once: the files by threads through it, from what left by one link to what left by it next (`Threads`), the
//! report by counts (`Tally`).
//!
//! ```text
//! let mut outputs = Outputs::reserve(rt.alloc(), file, 1_048_576)?;
//! outputs.write(rt.alloc(), &mut shelf, board.journal(), &None)?;
//! outputs.print_report(rt.alloc(), &mut out, &ends, board.journal(), code, cycles)?;
//! ```
#![tactic(auto)]

mod chunks;
mod files;
mod laws;
mod outputs;
mod pieces;
mod print;
mod report;
mod tally;
#[cfg(test)]
mod tests;
mod threads;

pub use laws::writings_are_told;
pub use outputs::{OutputFault, Outputs};
pub use report::{CoreEnd, CoreEnds, core_line};
