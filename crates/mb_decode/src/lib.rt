//! Instruction words of UG984 as instructions, and back.
//!
//! An `Instr` is a row of the instruction table (`Op`) with the values of its fields: registers, immediate, and the letters
//! of a stream access. `decode` gives the instruction that a word means, `None` exactly where no row matches it; `encode`
//! gives the word of an instruction whose fields fit. `round_trips` states that each is the other's inverse. The table
//! and its forms are those of `op_table`: nothing here knows a single instruction.
//!
//! ```text
//! let addik = decode(0x3064_1234);    // Some(Instr { op: Op::Addik, rd: 3, ra: 4, rb: 0, imm: 0x1234, flags: 0 })
//! let illegal = decode(0x5800_0000);  // None: floating point
//! ```
#![tactic(auto)]

mod decoding;
mod encoding;
mod fields;
mod instruction;
mod registers;
#[cfg(test)]
mod tests;

pub use decoding::decode;
pub use encoding::{encode, round_trips};
pub use instruction::Instr;
