//! How calls of the outside fail, and how faults are counted.
ghost use Rattle.std.specs.Prelude.{◌≡◌, IsTrue, None};
ghost use Rattle.host_io.specs.Names.{is_file_name};
ghost use Rattle.host_io.specs.declared.faults.LoadFault.TheVariants.{Failed, NoMemory};
ghost use Rattle.host_io.specs.declared.faults.StoreFault.TheVariants.{NoMemory as NoMemoryToStore};
ghost use Rattle.host_io.specs.Outside.{CountsLoadFault, CountsWriteFault};

use crate::FileName;
use std::alloc::{AllocError, AllocFailed};

/// How a load fails.
#[derive(Clone, Copy, Debug, PartialEq, Eq)]
pub enum LoadFault {
    /// The file is longer than the limit.
    TooLong,
    /// The file can't be read, or isn't there. The shelf has counted a fault.
    Failed,
    /// There was no memory for the bytes.
    NoMemory,
}

/// How a write fails.
#[derive(Clone, Copy, Debug, PartialEq, Eq)]
pub enum StoreFault {
    /// The file or stream can't be written. The shelf or sink has counted a fault.
    Failed,
    /// There was no memory for the bytes.
    NoMemory,
}

/// Memory was refused. A call that takes memory, and can fail in no other way, fails so.
#[derive(Clone, Copy, Debug, PartialEq, Eq)]
pub struct NoMemory;

impl From<AllocError> for NoMemory {
    fn from(_error: AllocError) -> Self {
        NoMemory
    }
}

impl<T: Drop> From<AllocFailed<T>> for NoMemory {
    fn from(_error: AllocFailed<T>) -> Self {
        NoMemory
    }
}

/// A read that failed. The source has counted a fault.
#[derive(Clone, Copy, Debug, PartialEq, Eq)]
pub struct ReadFailed;

impl From<AllocError> for LoadFault {
    ghost from_gives = { λ _ fault. fault ≡ NoMemory };

    fn from(_error: AllocError) -> Self {
        LoadFault::NoMemory
    }
}

impl From<ReadFailed> for LoadFault {
    ghost from_gives = { λ _ fault. fault ≡ Failed };

    fn from(_error: ReadFailed) -> Self {
        LoadFault::Failed
    }
}

impl From<AllocError> for StoreFault {
    ghost from_gives = { λ _ fault. fault ≡ NoMemoryToStore };

    fn from(_error: AllocError) -> Self {
        StoreFault::NoMemory
    }
}

/// The faults of a shelf. The counts never fall, and stay where they reach the end of 64 bits.
#[derive(Debug, Drop)]
pub struct ShelfFaults {
    /// How many loads failed.
    pub load_faults: u64,
    /// How many other calls failed.
    pub write_faults: u64,
    /// The name in the last call that failed.
    pub bad: Option<FileName>,
}

impl ShelfFaults {
    /// No fault yet.
    pub fn none() -> Self
        ensures { result ≡ record { load_faults = 0; write_faults = 0; bad = None } }
    {
        ShelfFaults {
            load_faults: 0,
            write_faults: 0,
            bad: None,
        }
    }

    /// Counts a load that failed.
    pub fn count_load(&mut self, name: &str)
        requires { IsTrue (is_file_name name.now) }
        ensures { CountsLoadFault self.old self.new name.now }
    {
        self.load_faults = self.load_faults.saturating_add(1);
        self.bad = Some(FileName::of(name));
    }

    /// Counts another call that failed.
    pub fn count_write(&mut self, name: &str)
        requires { IsTrue (is_file_name name.now) }
        ensures { CountsWriteFault self.old self.new name.now }
    {
        self.write_faults = self.write_faults.saturating_add(1);
        self.bad = Some(FileName::of(name));
    }
}
