//! The file of a link: items in order, each one a control byte and the four bytes of its word, the most significant first.
//!
//! `item_bytes` is an `Item` as it stands in a file, `read_items` gives the items of a file, and `fault_in` the offset of the
//! first item that isn't whole or whose control byte is neither 0 nor 1. Laws say that what is written is read back.
//!
//! ```text
//! let bytes = item_bytes(Item { word: 0x2A, control: true }); // [1, 0, 0, 0, 0x2A]
//! let items = read_items(rt.alloc(), &bytes)?; // one item, the same
//! ```
#![tactic(auto)]

mod file;
mod law;

pub use file::{fault_in, item_bytes, read_items};
pub use host_io::NoMemory;
pub use law::{faults_break_files, files_are_read_back, files_hold_their_items};

#[cfg(test)]
mod tests;
