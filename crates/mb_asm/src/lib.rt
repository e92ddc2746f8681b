//! Assembles a source: the image, and the line of each of its instruction words, or its first fault.
//!
//! ```text
//! match assemble(alloc, source, Order::Big) {
//!     Ok(assembled) => write_elf(alloc, &assembled.image),
//!     Err(AsmFault::Refused { code, line, column }) => ..
//! }
//! ```
#![tactic(auto)]

mod answer;
mod assembling;
mod law;
mod laying;
#[cfg(test)]
mod tests;
mod word_lines;

pub use answer::{AsmFault, Assembled};
pub use assembling::assemble;
pub use law::faults_are_in_order;
pub use word_lines::{Line, Lines};
