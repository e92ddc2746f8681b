//! The outside: files and streams with their faults, and the names, the small texts and the digits that go with them.
//!
//! A program is written over the traits `Shelf` (files by name), `Source` (bytes to read) and `Sink` (bytes to write), whose
//! contracts say what each answer leaves: all was done, or a fault was counted and at most a prefix was moved. What they are
//! given is
//!
//! - real: `DirShelf`, `StdSource`, `StdSink`, over the operating system's files, any reader and any writer;
//! - in memory: `SureShelf`, `SureSource`, `SureSink`, which do not fail;
//! - in memory with planned faults: `MemShelf`, `MemSource`, `MemSink`, which fail at chosen calls after chosen bytes.
//!
//! `read_whole` reads any source to its end, up to a limit:
//!
//! ```text
//! let text = read_whole(&mut StdSource::new(rt.stdin()), rt.alloc(), 1_048_576)?;
//! ```
#![tactic(auto)]

mod blob;
mod digits;
mod faults;
mod files;
mod names;
mod plan;
mod planned;
mod real;
mod streams;
mod sure;
#[cfg(test)]
mod tests;
mod texts;
mod traits;

pub use blob::{Blob, Blobs};
pub use digits::{hex_16, hex_of, hex_of_byte};
pub use faults::{LoadFault, NoMemory, ReadFailed, ShelfFaults, StoreFault};
pub use files::MemFile;
pub use names::{FileName, Name, is_file_name};
pub use plan::Failing;
pub use planned::{MemShelf, MemSink, MemSource};
pub use real::{DirShelf, StdSink, StdSource};
pub use streams::read_whole;
pub use sure::{SureShelf, SureSink, SureSource};
pub use texts::{LongText, Place, ShortText, Text, first_of};
pub use traits::{Shelf, Sink, Source};
