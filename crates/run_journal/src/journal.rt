//! A list of entries that only grows, and takes no memory after it is made.
ghost use Rattle.std.specs.Prelude.{◌≡◌, ◌↔◌, ◌<◌, ◌≤◌, IfOk, IsSome, length, slice_get};
ghost use Rattle.run_journal.specs.Log.{empty, with_newest};

use crate::entry::Entry;
use host_io::NoMemory;
use std::alloc::Global;
use std::marker::Model;

/// What happened in a run, in order: a list of entries that only grows.
///
/// All its memory is taken by `reserve`: no other call takes any.
#[derive(Drop)]
pub struct Journal {
    entries: Vec<Entry>,
    limit: usize,
}

impl Model for Journal {
    ghost use Rattle.std.specs.Prelude.{◌-◌, ◌≤◌, vec_len, vec_capacity};
    ghost use Rattle.run_journal.specs.Log.{Log};

    ghost Value = { Log };

    ghost view = { λ j. record { entries = j.entries.items; spare = j.limit - vec_len j.entries } };

    ghost invariant = { λ j. (vec_len j.entries ≤ j.limit) × (j.limit ≤ vec_capacity j.entries) };
}

impl Journal {
    /// Makes an empty journal with room for `n` entries. It fails only for want of memory.
    pub fn reserve(alloc: Global, n: usize) -> Result<Journal, NoMemory>
        ensures { IfOk result (λ j. j ≡ empty n) }
    {
        let entries = Vec::with_capacity(alloc, n)?;
        Ok(Journal { entries, limit: n })
    }

    /// Adds an entry at the end.
    pub fn push(&mut self, e: Entry)
        requires { 1 ≤ self.old.spare }
        ensures { self.new ≡ with_newest e self.old }
    {
        let _ = self.entries.push(e);
    }

    /// How many more entries there is room for.
    pub fn spare(&self) -> usize
        ensures { result ≡ self.now.spare }
    {
        self.limit - self.entries.len()
    }

    /// The number of entries.
    pub fn len(&self) -> usize
        ensures { result ≡ length self.now.entries }
    {
        self.entries.len()
    }

    /// The entries, the oldest first.
    pub fn entries(&self) -> &[Entry]
        ensures { result.now ≡ self.now.entries }
    {
        self.entries.as_slice()
    }

    /// Entry `k`, counted from 0; `None` exactly where `k` isn't below `len`.
    pub fn entry(&self, k: usize) -> Option<Entry>
        ensures entry { result ≡ slice_get self.now.entries k }
        ensures within { IsSome result ↔ (k < length self.now.entries) }
    {
        self.entries.get(k).copied()
    }
}
