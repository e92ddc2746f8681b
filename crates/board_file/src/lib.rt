//! Board files: what a board is, and the reader of its TOML text.
//!
//! What is wrong with a file is a list of faults, each a code with a place, and a file that has faults is refused with
//! the least of them: the least code, and of this code the first place in byte order. A file without faults is the
//! board whose rows are the rows of its tables, in ascending byte order of their names.
//!
//! `read_board` gives a `BoardFile`, whose fields are lists of rows (`CoreRow`, `LinkRow`, `TimerRow`, `IntcRow`, `UartRow`,
//! `EventRow`), or a `BoardFault`. A row names a core by its place in `cores`.
//!
//! ```text
//! let board = read_board(rt.alloc(), text)?;
//! for core in board.cores.as_slice() {
//!     println!(rt; "{} runs {}", core.name.as_text(), core.image.as_text())?;
//! }
//! ```
#![tactic(auto)]

mod board;
mod bus;
mod claims;
mod fault;
mod keys;
mod list;
mod read;
mod reader;
mod rows;
mod rules;
mod tree;

pub use board::{
    BoardFile, CoreRow, Cores, End, EventRow, Events, IntcRow, Intcs, LinkRow, Links, Pipeline,
    TimerRow, Timers, Turn, UartRow, Uarts,
};
pub use fault::BoardFault;
pub use list::RowList;
pub use reader::read_board;

#[cfg(test)]
mod tests;
