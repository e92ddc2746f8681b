//! Output that is written piece by piece, and what is left of it where a piece is refused.
//!
//! `write_file` writes a file whole: it makes the file empty, and then adds its bytes in pieces of at most 65,536. What it
//! leaves is said by `Wrote`. How texts that are added to a sink one after another make up one text is proved here too, for
//! those that print lists.
//!
//! ```text
//! match write_file(rt.alloc(), &mut shelf, &name, &bytes) {
//!     Ok(()) => println!(rt; "{} bytes", bytes.len())?,
//!     Err(StoreFault::Failed) => println!(rt; "cannot write {}", name.as_text())?,
//!     Err(StoreFault::NoMemory) => println!(rt; "no memory")?,
//! }
//! ```
#![tactic(auto)]

mod file;
#[cfg(test)]
mod tests;

pub use file::write_file;
