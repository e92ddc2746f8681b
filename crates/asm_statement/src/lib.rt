//! The statements of a source: what their operands may be, and what they mean.
#![tactic(auto)]

mod directive;
mod instruction;
mod labels;
mod operands;
mod separated;
mod statement;
#[cfg(test)]
mod tests;
mod values;

pub use directive::{Directive, alignment, directive_of};
pub use instruction::read_instruction;
pub use labels::{Labels, Unknown, is_label_name};
pub use operands::{Note, Operation, bytes_at};
pub use separated::operands_of;
pub use statement::{Rest, add_statement};
pub use values::{Head, add_operands, fault_for};
