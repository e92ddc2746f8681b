//! The text of an instruction word, and that it reads back.
//!
//! `text_of` gives the text of any word: the mnemonic and the operands of the instruction that it means, or `.word` and its
//! digits where it means none. How operands are written and read is said once, in `asm_syntax`: `text_reads_back` states
//! that the text of an instruction, read as a line of a source, is that instruction again.
//!
//! ```text
//! let addik = text_of(0x3060_FFFF);   // addik r3, r0, -1
//! let data = text_of(0x6C60_8000);    // .word 0x6C608000
//! ```
#![tactic(auto)]

mod law;
mod mnemonic;
mod operands;
#[cfg(test)]
mod tests;
mod text;

pub use law::text_reads_back;
pub use text::text_of;
