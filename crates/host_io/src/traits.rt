//! What the program needs of the outside.
ghost use Rattle.std.specs.Prelude.{◌≡◌, IsTrue};
ghost use Rattle.host_io.specs.Names.{is_file_name};
ghost use Rattle.host_io.specs.Outside.{ShelfState, SinkState, SourceState, Loads, Starts, Appends, Adds, Reads};

use crate::{Blob, LoadFault, ReadFailed, StoreFault};
use std::alloc::Global;

/// Files by their names.
pub trait Shelf {
    /// The files, where the shelf tells them, and its faults.
    ghost state: { Self → ShelfState };

    /// The bytes of a file of at most `limit` bytes. No file changes.
    fn load(&mut self, alloc: Global, name: &str, limit: usize) -> Result<Blob, LoadFault>
        requires { IsTrue (is_file_name name.now) }
        ensures answer { Loads (state self.old) (state self.new) name.now limit result }
        ensures files { (state self.new).files ≡ (state self.old).files };

    /// Makes a file empty, and makes it where it isn't there.
    fn start(&mut self, alloc: Global, name: &str) -> Result<(), StoreFault>
        requires { IsTrue (is_file_name name.now) }
        ensures answer { Starts (state self.old) (state self.new) name.now result };

    /// Adds bytes at the end of a file that is there.
    fn append(&mut self, alloc: Global, name: &str, bytes: &[u8]) -> Result<(), StoreFault>
        requires { IsTrue (is_file_name name.now) }
        ensures answer { Appends (state self.old) (state self.new) name.now bytes.now result };
}

/// Bytes to read.
pub trait Source {
    /// The bytes that are left, where the source tells them, and its faults.
    ghost state: { Self → SourceState };

    /// Moves the first bytes that are left into the buffer, and answers their count: 0 only at the end, or where the
    /// buffer has no room.
    fn read(&mut self, buffer: &mut [u8]) -> Result<usize, ReadFailed>
        ensures answer { Reads (state self.old) (state self.new) buffer.new result };
}

/// Where bytes are written.
pub trait Sink {
    /// The bytes that were written, where the sink tells them, and its faults.
    ghost state: { Self → SinkState };

    /// Adds all of the bytes; after a refusal a prefix of them was added.
    fn write_all(&mut self, alloc: Global, bytes: &[u8]) -> Result<(), StoreFault>
        ensures answer { Adds (state self.old) (state self.new) bytes.now result };
}
