//! What a debugger needs beside a board that runs: the names that a script may use, and the script itself.
//!
//! `script_names` takes the names from a board, the symbols of its images and the probes that are attached. `load_script` reads
//! a source to its end and checks the script whole: it gives the commands, or why there are none (`ScriptRefusal`).
//!
//! ```text
//! let symbols = load_symbols(rt.alloc(), &mut shelf, board.cores.as_slice())?;
//! let names = script_names(rt.alloc(), &board, symbols, &probes)?;
//! let script = load_script(rt.alloc(), &mut source, &names)?;
//! ```
#![tactic(auto)]

mod law;
mod names;
mod reading;
mod refusal;
#[cfg(test)]
mod tests;

pub use law::scripts_are_not_refused;
pub use names::script_names;
pub use reading::load_script;
pub use refusal::ScriptRefusal;
