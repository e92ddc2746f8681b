//! One act of a MicroBlaze core: the nine rules that decide it, and the effect of each instruction (UG984).
//!
//! `perform` does the act that is due on an `Arch` and a `Memory`, over `Ports`: what a core sees of its outside (`Sees`:
//! links, breaks, its interrupt line, its bus), and what it does there, an `Action` each. It answers a `Step`: the `Act`,
//! or why there is none (`Idle`). `act` is the same over the word at pc (`Here`) and the values of its `Operands`, and
//! answers what is left to write; so pipelines hand in operands that they forwarded. `idle` tells from a shared reference
//! why a core does nothing. The nine rules stand at the head of `step`. `BenchPorts` are ports in memory.
//!
//! ```text
//! match perform(&mut arch, &mut memory, &mut ports) {
//!     Step::Did(act) => println!(rt; "{act:?}")?,
//!     Step::Idle(why) => println!(rt; "idle: {why:?}")?,
//! }
//! ```
#![tactic(auto)]

mod acts;
mod arithmetic;
mod bench;
mod branch;
mod commit;
mod execute;
mod laws;
mod letters;
mod memory;
mod operands;
mod ports;
mod resting;
mod special;
mod step;
mod stream;
#[cfg(test)]
mod tests;

pub use acts::{
    Act, Action, Breaks, BusError, Done, Here, Hopes, Idle, Late, Operands, Outcome, Step, Store,
};
pub use bench::BenchPorts;
pub use laws::{acts_are_told, rest_is_final};
pub use op_table::{Kind, Latency, kind_of, latency_of};
pub use operands::{Given, read_operands, supply};
pub use ports::{Ports, Sees};
pub use resting::{idle, idle_at};
pub use step::{END_WORD, act, here_at, is_atomic_here, is_closed, is_end, met, perform, take_due};
