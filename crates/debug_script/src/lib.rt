//! Reads scripts of the debugger: the commands of a text, or its first line that is refused.
//!
//! A script has a command a line, words separated by single spaces. `read_script` checks the whole of it: that each word
//! is a command, a core, a number, a symbol of the core's image or a probe that is still attached at this line. What is
//! refused is told by the number of the line and the least of its faults, 1201 to 1206 (`ScriptRule`).
//!
//! ```text
//! let script = read_script(rt.alloc(), b"break b 4\nrun 10\nregs b\n", &names)?;
//! for command in script.as_slice() { .. }
//! ```
#![tactic(auto)]

mod command;
mod fault;
mod line;
mod names;
mod numbers;
mod parts;
mod progress;
mod script;
#[cfg(test)]
mod tests;

pub use command::Command;
pub use fault::{ScriptFault, ScriptRule};
pub use names::{Names, ScriptNames, SymbolLists};
pub use script::{Script, read_script};
