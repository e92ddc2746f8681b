//! The commands on sources and images: `asm` assembles a source to an ELF file, `dis` prints the instruction words of an
//! ELF file.
//!
//! Both read their file from a `Shelf` within its limit. What an answer says of the files and the output, and what stays
//! the same, is `SaysAsm` and `SaysDis`; a `Refusal` is the first cause in the order of work.
//!
//! ```text
//! asm(rt.alloc(), &mut shelf, &source, &output, Order::Big)?;
//! dis(rt.alloc(), &mut shelf, &output, &mut StdSink::new(rt.stdout()))?;
//! ```
#![tactic(auto)]

mod assembling;
mod disassembling;
mod elf_file;
mod law;
mod listing;
mod loading;
mod refusal;

pub use assembling::asm;
pub use disassembling::dis;
pub use law::{asm_is_complete, dis_is_complete, faults_are_told};
pub use refusal::Refusal;

#[cfg(test)]
mod tests;
