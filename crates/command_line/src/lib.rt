//! Reads the words of the command line: the command that they mean, exactly where they mean one.
//!
//! `read_words` gives a `Command`, with the values of its options and their defaults, or a `WordsFault`: `Usage` exactly
//! where the words mean no command. `split` hands each command's words to `clap`, `number` reads decimal numbers within
//! their limits, and `reader` makes the command. `profile` and `debug` take the same words, so that one form serves both
//! (`BoardCommand` tells which). File names obey the rule of `host_io::FileName`; no file is opened here.
//!
//! ```text
//! match read_words(rt.alloc(), &["run", "board.toml", "--cycles", "500"])? {
//!     Command::Run { board, cycles, .. } => println!(rt; "{} for {cycles} cycles", board.as_text())?,
//!     _ => {}
//! }
//! ```
#![tactic(auto)]

mod command;
mod number;
mod reader;
mod split;

pub use command::{Command, WordsFault};
pub use reader::read_words;

#[cfg(test)]
mod tests;
