//! Reads the lines of a source: its labels, its items, where it begins, and the first fault of its lines.
#![tactic(auto)]

mod label_table;
mod labels;
mod law;
mod lines;
mod reading;
mod source;
#[cfg(test)]
mod tests;

pub use label_table::LabelTable;
pub use labels::Marked;
pub use law::{items_are_in_order, lines_have_a_least};
pub use reading::Reading;
pub use source::read_source;
