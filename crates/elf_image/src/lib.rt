//! Reads ELF32 executables for MicroBlaze: the image, or the first test that fails. Writes the file of an image.
//!
//! `read_elf` gives an `Image`: the byte order, the address of the first instruction, and the `Parts` that are loaded, each
//! some bytes at an address with zeros after them. That an image fits into the memory, that its parts share no address and
//! that it starts within one is proved. A file that fails a test is refused (`ElfFault`) by the code of the first that
//! fails, 701 to 712, with an offset, an index or an address; what the codes mean is said at `read_elf`. `write_elf` gives
//! the file of an image, which reads back (`written_files_read_back`).
//!
//! ```text
//! let image = read_elf(rt.alloc(), file, 65_536)?;
//! for part in image.parts.as_slice() {
//!     println!(rt; "{} bytes at {}", part.bytes.len(), part.addr)?;
//! }
//! ```
#![tactic(auto)]

mod fault;
mod field;
mod header;
mod image;
mod law;
mod overlap;
mod parts;
mod reader;
mod section;
mod segment;
mod symbol;
mod symbol_table;
mod writing;

pub use fault::ElfFault;
pub use image::{Image, Part, Parts};
pub use law::sharing_means_an_address;
pub use reader::read_elf;
pub use symbol::{Symbol, Symbols};
pub use symbol_table::symbols;
pub use writing::{files_are_as_long_as_their_parts, write_elf, written_files_read_back};

#[cfg(test)]
mod tests;
#[cfg(test)]
mod tests_of_faults;
#[cfg(test)]
mod tests_of_symbols;
#[cfg(test)]
mod tests_of_writing;
