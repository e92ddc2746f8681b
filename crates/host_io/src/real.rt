//! The real files and streams. They count their faults; what the operating system does is trusted.
ghost use Rattle.std.specs.Prelude.{◌≡◌, ◌≤◌, IfOk, None, OnErr, OnOk, length};
ghost use Rattle.std.specs.Io.KnownBytes.{Appends};
ghost use Rattle.host_io.specs.Outside.{Adds};
ghost use Rattle.host_io.specs.Real.{dir_shelf, held, std_sink, std_source};
ghost use Rattle.host_io.specs.Streams.{AppendsPrefix};

use crate::faults::ShelfFaults;
use crate::streams::{read_some, read_whole, write_whole};
use crate::{Blob, LoadFault, ReadFailed, Shelf, Sink, Source, StoreFault};
use std::alloc::Global;
use std::fs::{self, OpenFile, OpenOptions};
use std::io::{self, Read, Write};
use std::rt::Files;

/// The files of the folder that the program runs in.
#[derive(Drop)]
pub struct DirShelf<'a, R: Files> {
    files: &'a R,
    pub(crate) faults: ShelfFaults,
}

impl<'a, R: Files> DirShelf<'a, R> {
    /// The files as they are, with no fault counted.
    pub fn new(files: &'a R) -> Self
        ensures { dir_shelf result ≡ record {
          files = None;
          faults = record { load_faults = 0; write_faults = 0; bad = None };
        } }
    {
        DirShelf {
            files,
            faults: ShelfFaults::none(),
        }
    }
}

impl<'a, R: Files> Shelf for DirShelf<'a, R> {
    ghost state = { dir_shelf };

    fn load(&mut self, alloc: Global, name: &str, limit: usize) -> Result<Blob, LoadFault> {
        let read = read_file(self.files, alloc, name, limit);
        if let Err(LoadFault::Failed) = &read {
            self.faults.count_load(name);
        }
        read
    }

    fn start(&mut self, _alloc: Global, name: &str) -> Result<(), StoreFault> {
        match fs::create(self.files, name) {
            Ok(_) => Ok(()),
            Err(_) => {
                self.faults.count_write(name);
                Err(StoreFault::Failed)
            }
        }
    }

    fn append(&mut self, _alloc: Global, name: &str, bytes: &[u8]) -> Result<(), StoreFault> {
        match append_to_file(self.files, name, bytes) {
            Ok(()) => Ok(()),
            Err(_) => {
                self.faults.count_write(name);
                Err(StoreFault::Failed)
            }
        }
    }
}

/// The bytes of a real file of at most `limit` bytes.
fn read_file<R: Files>(
    files: &R,
    alloc: Global,
    name: &str,
    limit: usize,
) -> Result<Blob, LoadFault>
    ensures { IfOk result (λ blob. length blob ≤ limit) }
{
    let file = fs::open(files, name).map_err(|_| LoadFault::Failed)?;
    read_whole(&mut StdSource::new(file), alloc, limit)
}

/// Adds bytes at the end of a real file that is there.
fn append_to_file<R: Files>(files: &R, name: &str, bytes: &[u8]) -> io::Result<()> {
    let mut file = OpenOptions::new().append(true).open(files, name)?;
    write_whole(&mut file, bytes)
}

/// A reader as a source.
#[derive(Drop)]
pub struct StdSource<R: Read + Drop> {
    reader: R,
    faults: u64,
}

impl<R: Read + Drop> StdSource<R> {
    /// What the reader gives from here on, with no fault counted.
    pub fn new(reader: R) -> Self
        ensures { std_source R.remaining result ≡ record { left = R.remaining reader; faults = 0 } }
    {
        StdSource { reader, faults: 0 }
    }
}

impl<R: Read + Drop> Source for StdSource<R> {
    ghost state = { std_source R.remaining };

    fn read(&mut self, buffer: &mut [u8]) -> Result<usize, ReadFailed> {
        match read_some(&mut self.reader, buffer) {
            Ok(count) => Ok(count),
            Err(_) => {
                self.faults = self.faults.saturating_add(1);
                Err(ReadFailed)
            }
        }
    }
}

/// A writer as a sink.
#[derive(Drop)]
pub struct StdSink<W: Write + Drop> {
    writer: W,
    faults: u64,
}

impl<W: Write + Drop> StdSink<W> {
    /// The writer as it is, with no fault counted.
    pub fn new(writer: W) -> Self
        ensures state { std_sink result ≡ record { written = None; faults = 0 } }
        ensures held { held W.contents result ≡ W.contents writer }
    {
        StdSink { writer, faults: 0 }
    }
}

impl<W: Write + Drop> Sink for StdSink<W> {
    ghost state = { std_sink };

    /// Adds all of the bytes to what the writer holds; after a refusal a prefix of them was added.
    fn write_all(&mut self, _alloc: Global, bytes: &[u8]) -> Result<(), StoreFault>
        ensures answer { Adds (std_sink self.old) (std_sink self.new) bytes.now result }
        ensures whole { OnOk result (Appends (held W.contents self.old) (held W.contents self.new) bytes.now) }
        ensures part { OnErr result (AppendsPrefix (held W.contents self.old) (held W.contents self.new) bytes.now) }
    {
        match write_whole(&mut self.writer, bytes) {
            Ok(()) => Ok(()),
            Err(_) => {
                self.faults = self.faults.saturating_add(1);
                Err(StoreFault::Failed)
            }
        }
    }
}
