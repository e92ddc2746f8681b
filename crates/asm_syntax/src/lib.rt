//! How instructions are written: mnemonics, and the operands of each form. The assembler and the disassembler stand on it.
//!
//! `mnemonic` finds what a name means, a `Named`: an instruction, and the letters of a stream access, whose text is
//! `letters`. Where several instructions share a name, `with_special` finds the one of a special register. `shape_of` lists
//! the operands of a form, a `Slot` each; the definitions say how a slot is written and what it reads as. Names of
//! registers and ports go both ways: `register_name` and `register_of`, `port_name` and `port_of`.
//!
//! ```text
//! let row = row_of(Op::Addik);
//! let shape = shape_of(row.form, row.kind);   // RegisterD, RegisterA, Value: addik r3, r4, -1
//! let third = register_of(b"r3");             // Some(3)
//! ```
#![tactic(auto)]

mod mnemonics;
mod names;
mod registers;
mod slot;
mod stream_letters;
#[cfg(test)]
mod tests;

pub use mnemonics::{Named, mnemonic};
pub use names::{special_name, with_special};
pub use registers::{OperandText, port_name, port_of, register_name, register_of};
pub use slot::{Slot, shape_of};
pub use stream_letters::letters;
