//! The instruction table of UG984. One `Row` says all of an instruction: its mnemonic, its form and the bits of its words,
//! where its second operand stands, how soon its register can be used, whether a delay slot takes it, and, as a `Kind`,
//! what it does.
//!
//! `row_of(Op::Addik)` is the row of `addik`: form B, bits 30000000 hex, an immediate, `Kind::Add { carry: false, keep:
//! true }`. `candidates` are the rows that a word can be of, by its opcode; no word is of two (`at_most_one_row`).
//!
//! A further row is a variant of `Op` and a line of `ROWS` at the same place, counted in `COUNT`, and a line of the
//! definition `rows` at that place. The index by opcode changes only where the row is the first of its opcode.
#![tactic(auto)]

mod entry;
mod form;
mod kinds;
mod lookup;
mod mnemonic;
mod op;
mod table;
#[cfg(test)]
mod tests;

pub use entry::Row;
pub use form::{Field, Form, Part};
pub use kinds::{
    Condition, Kind, Latency, LogicKind, MulKind, Return, Second, ShiftKind, Special, TopBit,
    UnaryKind,
};
pub use lookup::{
    at_most_one_row, belongs_into_slot, candidates, every_row_is_known, is_store, kind_of,
    latency_of, names_differ, row, row_of, second_of,
};
pub use mnemonic::Mnemonic;
pub use op::Op;
pub use table::COUNT;
