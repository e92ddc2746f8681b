//! Files and streams in memory that do not fail: for callers that plan no faults, and the inside of those that fail by a
//! plan (`MemShelf`, `MemSource`, `MemSink`).
ghost use Rattle.std.specs.Prelude.{◌≡◌, ◌≢◌, IfSome, IsOk, IsTrue, None, OnErr, Some, option_copied};
ghost use Rattle.host_io.specs.Names.{is_file_name};
ghost use Rattle.host_io.specs.MemFiles.{lookup};
ghost use Rattle.host_io.specs.Outside.{Adds, Appends, IsMissing, Loads, Reads, SameFiles, Starts};
ghost use Rattle.host_io.specs.Sure.{sure_files, sure_shelf, sure_sink, sure_source};

use crate::faults::ShelfFaults;
use crate::files::{MemFile, content_of, empty_file, extend_file};
use crate::{Blob, LoadFault, ReadFailed, Shelf, Sink, Source, StoreFault};
use std::alloc::Global;
use std::io::{Cursor, Read};

/// Files in memory. A call fails only where it asks for a file that isn't there.
#[derive(Drop)]
pub struct SureShelf {
    pub(crate) files: Vec<MemFile>,
    pub(crate) faults: ShelfFaults,
}

impl SureShelf {
    /// These files, with no fault counted.
    pub fn new(files: Vec<MemFile>) -> Self
        ensures { sure_shelf result ≡ record {
          files = Some (lookup files.items);
          faults = record { load_faults = 0; write_faults = 0; bad = None };
        } }
    {
        SureShelf {
            files,
            faults: ShelfFaults::none(),
        }
    }

    /// The content of a file, or `None` exactly where it isn't there.
    pub fn content(&self, name: &str) -> Option<&[u8]>
        ensures { IfSome (sure_shelf self.now).files (λ files. files name.now ≡ option_copied result) }
    {
        content_of(self.files.as_slice(), name)
    }
}

impl Shelf for SureShelf {
    ghost state = { sure_shelf };

    fn load(&mut self, alloc: Global, name: &str, limit: usize) -> Result<Blob, LoadFault>
        requires { IsTrue (is_file_name name.now) }
        ensures answer { Loads (sure_shelf self.old) (sure_shelf self.new) name.now limit result }
        ensures files { (sure_shelf self.new).files ≡ (sure_shelf self.old).files }
        ensures sure { result ≡ Err LoadFault.Failed → IsMissing (sure_shelf self.old) name.now }
    {
        let Some(bytes) = content_of(self.files.as_slice(), name) else {
            self.faults.count_load(name);
            return Err(LoadFault::Failed);
        };
        if bytes.len() > limit {
            return Err(LoadFault::TooLong);
        }
        Ok(Blob::from_vec(Vec::from_slice(alloc, bytes)?))
    }

    fn start(&mut self, alloc: Global, name: &str) -> Result<(), StoreFault>
        requires { IsTrue (is_file_name name.now) }
        ensures answer { Starts (sure_shelf self.old) (sure_shelf self.new) name.now result }
        ensures sure { result ≢ Err StoreFault.Failed }
        ensures kept { OnErr result (SameFiles (sure_files self.old) (sure_files self.new)) }
    {
        empty_file(&mut self.files, alloc, name)?;
        Ok(())
    }

    fn append(&mut self, _alloc: Global, name: &str, bytes: &[u8]) -> Result<(), StoreFault>
        requires { IsTrue (is_file_name name.now) }
        ensures answer { Appends (sure_shelf self.old) (sure_shelf self.new) name.now bytes.now result }
        ensures sure { result ≡ Err StoreFault.Failed → IsMissing (sure_shelf self.old) name.now }
    {
        let extended = extend_file(&mut self.files, name, bytes);
        if extended == Err(StoreFault::Failed) {
            self.faults.count_write(name);
        }
        extended
    }
}

/// Bytes to read, in memory. No read fails.
#[derive(Drop)]
pub struct SureSource {
    bytes: Cursor<Vec<u8>>,
}

impl SureSource {
    /// These bytes, with no fault counted.
    pub fn new(bytes: Vec<u8>) -> Self
        ensures { sure_source result ≡ record { left = Some bytes.items; faults = 0 } }
    {
        SureSource {
            bytes: Cursor::new(bytes),
        }
    }
}

impl Source for SureSource {
    ghost state = { sure_source };

    fn read(&mut self, buffer: &mut [u8]) -> Result<usize, ReadFailed>
        ensures answer { Reads (sure_source self.old) (sure_source self.new) buffer.new result }
        ensures sure { IsOk result }
    {
        match self.bytes.read(buffer) {
            Ok(count) => Ok(count),
            Err(_) => Err(ReadFailed),
        }
    }
}

/// What was written, in memory. No write fails.
#[derive(Drop)]
pub struct SureSink {
    written: Vec<u8>,
}

impl SureSink {
    /// These bytes as those that were written before, with no fault counted.
    pub fn new(written: Vec<u8>) -> Self
        ensures { sure_sink result ≡ record { written = Some written.items; faults = 0 } }
    {
        SureSink { written }
    }

    /// All that was written.
    pub fn written(&self) -> &[u8]
        ensures { (sure_sink self.now).written ≡ Some result.now }
    {
        self.written.as_slice()
    }
}

impl Sink for SureSink {
    ghost state = { sure_sink };

    fn write_all(&mut self, _alloc: Global, bytes: &[u8]) -> Result<(), StoreFault>
        ensures answer { Adds (sure_sink self.old) (sure_sink self.new) bytes.now result }
        ensures sure { result ≢ Err StoreFault.Failed }
        ensures kept { OnErr result ((sure_sink self.new).written ≡ (sure_sink self.old).written) }
    {
        self.written.extend_from_slice(bytes)?;
        Ok(())
    }
}
