//! The debugger: runs a script on a board, and prints what its commands ask for.
//!
//! `run_script` does the commands of a `Script` in order, and writes what each prints before the next one begins. `step` and
//! `run` alone move the board, by whole cycles, so the board at the end is one that plain cycles give. Nothing of a board
//! can be changed by a script; `drop` detaches a probe.
//!
//! ```text
//! let script = read_script(rt.alloc(), b"break b 4\nrun 10\nregs b\n", &names)?;
//! let end = run_script(rt.alloc(), &script, &mut board, &names, 10_000, &mut probes, &mut out)?;
//! ```
#![tactic(auto)]

mod board_texts;
mod breaks;
mod lines;
mod moves;
mod probe_texts;
mod run;
#[cfg(test)]
mod tests;

pub use debug_script::{Names, Script, ScriptFault, ScriptNames, SymbolLists, read_script};
pub use run::{ScriptEnd, run_script};
