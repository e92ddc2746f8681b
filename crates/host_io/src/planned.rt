//! Files and streams in memory that fail where they are told to. A call that is to fail moves exactly the planned number
//! of bytes first, or all where there are fewer; a `load`, a `start` and a `read` that are to fail change nothing.
ghost use Rattle.std.specs.Prelude.{◌≡◌, ◌≢◌, ◌↔◌, IfSome, IsErr, IsNone, IsSome, IsTrue, None, OnErr, Some, option_copied};
ghost use Rattle.host_io.specs.Names.{is_file_name};
ghost use Rattle.host_io.specs.MemFiles.{lookup};
ghost use Rattle.host_io.specs.Outside.{Adds, Appends, IsMissing, Loads, Reads, SameFiles, Starts};
ghost use Rattle.host_io.specs.Planned.{AddsThenFails, AppendsThenFails, after_call, mem_files, mem_shelf, mem_sink, mem_source, planned, shelf_plan, sink_plan, source_plan};

use crate::files::{MemFile, extend_file};
use crate::plan::{Failing, Plan};
use crate::texts::first_of;
use crate::{
    Blob, LoadFault, ReadFailed, Shelf, Sink, Source, StoreFault, SureShelf, SureSink, SureSource,
};
use std::alloc::Global;

/// Files in memory, and the calls that are to fail.
#[derive(Drop)]
pub struct MemShelf {
    shelf: SureShelf,
    plan: Plan,
}

impl MemShelf {
    /// These files, with no fault counted, and the calls that are to fail.
    pub fn new(files: Vec<MemFile>, failing: Vec<Failing>) -> Self
        ensures state { mem_shelf result ≡ record {
          files = Some (lookup files.items);
          faults = record { load_faults = 0; write_faults = 0; bad = None };
        } }
        ensures plan { shelf_plan result ≡ record { failing = failing; calls = 0 } }
    {
        MemShelf {
            shelf: SureShelf::new(files),
            plan: Plan::new(failing),
        }
    }

    /// The content of a file, or `None` exactly where it isn't there.
    pub fn content(&self, name: &str) -> Option<&[u8]>
        ensures { IfSome (mem_shelf self.now).files (λ files. files name.now ≡ option_copied result) }
    {
        self.shelf.content(name)
    }
}

impl Shelf for MemShelf {
    ghost state = { mem_shelf };

    fn load(&mut self, alloc: Global, name: &str, limit: usize) -> Result<Blob, LoadFault>
        requires { IsTrue (is_file_name name.now) }
        ensures answer { Loads (mem_shelf self.old) (mem_shelf self.new) name.now limit result }
        ensures files { (mem_shelf self.new).files ≡ (mem_shelf self.old).files }
        ensures planned { IsSome (planned (shelf_plan self.old)) → result ≡ Err LoadFault.Failed }
        ensures sure { IsNone (planned (shelf_plan self.old)) → result ≡ Err LoadFault.Failed
            → IsMissing (mem_shelf self.old) name.now }
        ensures counted { shelf_plan self.new ≡ after_call (shelf_plan self.old) }
    {
        if self.plan.next().is_some() {
            self.shelf.faults.count_load(name);
            return Err(LoadFault::Failed);
        }
        self.shelf.load(alloc, name, limit)
    }

    fn start(&mut self, alloc: Global, name: &str) -> Result<(), StoreFault>
        requires { IsTrue (is_file_name name.now) }
        ensures answer { Starts (mem_shelf self.old) (mem_shelf self.new) name.now result }
        ensures planned { (result ≡ Err StoreFault.Failed) ↔ IsSome (planned (shelf_plan self.old)) }
        ensures kept { OnErr result (SameFiles (mem_files self.old) (mem_files self.new)) }
        ensures counted { shelf_plan self.new ≡ after_call (shelf_plan self.old) }
    {
        if self.plan.next().is_some() {
            self.shelf.faults.count_write(name);
            return Err(StoreFault::Failed);
        }
        self.shelf.start(alloc, name)
    }

    fn append(&mut self, alloc: Global, name: &str, bytes: &[u8]) -> Result<(), StoreFault>
        requires { IsTrue (is_file_name name.now) }
        ensures answer { Appends (mem_shelf self.old) (mem_shelf self.new) name.now bytes.now result }
        ensures planned { IfSome (planned (shelf_plan self.old)) (λ moved.
            AppendsThenFails moved name.now bytes.now (mem_files self.old) (mem_files self.new) result) }
        ensures sure { IsNone (planned (shelf_plan self.old)) → result ≡ Err StoreFault.Failed
            → IsMissing (mem_shelf self.old) name.now }
        ensures counted { shelf_plan self.new ≡ after_call (shelf_plan self.old) }
    {
        let Some(moved) = self.plan.next() else {
            return self.shelf.append(alloc, name, bytes);
        };
        match extend_file(&mut self.shelf.files, name, first_of(bytes, moved)) {
            Err(StoreFault::NoMemory) => Err(StoreFault::NoMemory),
            _ => {
                self.shelf.faults.count_write(name);
                Err(StoreFault::Failed)
            }
        }
    }
}

/// Bytes to read, in memory, and the calls that are to fail.
#[derive(Drop)]
pub struct MemSource {
    source: SureSource,
    plan: Plan,
    faults: u64,
}

impl MemSource {
    /// These bytes, with no fault counted, and the calls that are to fail.
    pub fn new(bytes: Vec<u8>, failing: Vec<Failing>) -> Self
        ensures state { mem_source result ≡ record { left = Some bytes.items; faults = 0 } }
        ensures plan { source_plan result ≡ record { failing = failing; calls = 0 } }
    {
        MemSource {
            source: SureSource::new(bytes),
            plan: Plan::new(failing),
            faults: 0,
        }
    }
}

impl Source for MemSource {
    ghost state = { mem_source };

    fn read(&mut self, buffer: &mut [u8]) -> Result<usize, ReadFailed>
        ensures answer { Reads (mem_source self.old) (mem_source self.new) buffer.new result }
        ensures planned { IsErr result ↔ IsSome (planned (source_plan self.old)) }
        ensures kept { OnErr result (buffer.new ≡ buffer.old) }
        ensures counted { source_plan self.new ≡ after_call (source_plan self.old) }
    {
        if self.plan.next().is_some() {
            self.faults = self.faults.saturating_add(1);
            return Err(ReadFailed);
        }
        self.source.read(buffer)
    }
}

/// What was written, in memory, and the calls that are to fail.
#[derive(Drop)]
pub struct MemSink {
    sink: SureSink,
    plan: Plan,
    faults: u64,
}

impl MemSink {
    /// These bytes as those that were written before, with no fault counted, and the calls that are to fail.
    pub fn new(written: Vec<u8>, failing: Vec<Failing>) -> Self
        ensures state { mem_sink result ≡ record { written = Some written.items; faults = 0 } }
        ensures plan { sink_plan result ≡ record { failing = failing; calls = 0 } }
    {
        MemSink {
            sink: SureSink::new(written),
            plan: Plan::new(failing),
            faults: 0,
        }
    }

    /// All that was written.
    pub fn written(&self) -> &[u8]
        ensures { (mem_sink self.now).written ≡ Some result.now }
    {
        self.sink.written()
    }
}

impl Sink for MemSink {
    ghost state = { mem_sink };

    fn write_all(&mut self, alloc: Global, bytes: &[u8]) -> Result<(), StoreFault>
        ensures answer { Adds (mem_sink self.old) (mem_sink self.new) bytes.now result }
        ensures planned { IfSome (planned (sink_plan self.old)) (λ moved.
            AddsThenFails moved bytes.now (mem_sink self.old).written (mem_sink self.new).written result) }
        ensures sure { IsNone (planned (sink_plan self.old)) → result ≢ Err StoreFault.Failed }
        ensures counted { sink_plan self.new ≡ after_call (sink_plan self.old) }
    {
        let Some(moved) = self.plan.next() else {
            return self.sink.write_all(alloc, bytes);
        };
        self.sink.write_all(alloc, first_of(bytes, moved))?;
        self.faults = self.faults.saturating_add(1);
        Err(StoreFault::Failed)
    }
}
