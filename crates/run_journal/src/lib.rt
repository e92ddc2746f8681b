//! The journal of a run: what happened, in order, and the text of each entry.
//!
//! A `Journal` is a list of `Entry` that only grows, and takes no memory after `reserve`. An entry is a cycle number, a core
//! and the number of its act (or `NO_CORE`), and a `What`: an item that was got or sent, a take, a fault, a byte that left a
//! UART. Definitions here say what a list of entries tells of files and of a core's answers. `line_of` is the text of an
//! entry; `add_number`, `add_hex`, `word` and the like put such texts together, for the report too.
//!
//! ```text
//! let mut journal = Journal::reserve(rt.alloc(), 1_048_576)?;
//! journal.push(entry);
//! let line = line_of(&entry, &core, &part); // with the names of the entry's core, and of its link or UART
//! out.write_all(rt.alloc(), line.as_bytes())?;
//! ```
#![tactic(auto)]

mod entry;
mod journal;
mod line;
#[cfg(test)]
mod tests;

pub use entry::{Entry, NO_CORE, What};
pub use host_io::NoMemory;
pub use journal::Journal;
pub use line::{add_hex, add_number, add_word, line_of, side, stopped, word};
