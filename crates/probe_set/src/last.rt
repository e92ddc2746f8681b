//! The newest entries of a trace.
ghost use Rattle.std.specs.Prelude.{◌≡◌, ◌↔◌, ◌<◌, ◌≤◌, [], IsSome, length, slice_get};
ghost use Rattle.probe_set.specs.Folds.{kept_with};

use run_journal::{Entry, NO_CORE, What};
use std::marker::Model;

/// How many entries a trace keeps.
const KEPT: usize = 16;

/// Fills a place that has no entry yet.
const NO_ENTRY: Entry = Entry {
    cycle: 0,
    act: 0,
    core: NO_CORE,
    what: What::Slept,
};

/// The newest entries that a probe was told, at most 16, the oldest first.
#[derive(Debug, Drop)]
pub struct Last {
    entries: [Entry; 16],
    len: usize,
}

impl Model for Last {
    ghost use Rattle.std.specs.Prelude.{◌≡◌, ◌≤◌, List, length, take};
    ghost use Rattle.run_journal.specs.declared.entry.Entry.{Entry};

    ghost Value = { List Entry };

    ghost view = { λ l. take l.len l.entries };

    ghost invariant = { λ l. (l.len ≤ 16) × (length l.entries ≡ 16) };
}

impl Last {
    /// No entry.
    pub fn new() -> Last
        ensures { result ≡ [] }
    {
        Last {
            entries: [NO_ENTRY; 16],
            len: 0,
        }
    }

    /// The same entries once more.
    pub fn copied(&self) -> Last
        ensures { result ≡ self.now }
    {
        Last {
            entries: self.entries,
            len: self.len,
        }
    }

    /// Adds an entry at the end, and lets the oldest go where there were 16.
    pub fn keep(&mut self, e: Entry)
        ensures { self.new ≡ kept_with e self.old }
    {
        if self.len < KEPT {
            self.entries[self.len] = e;
            self.len += 1;
        } else {
            self.entries.rotate_left(1);
            self.entries[KEPT - 1] = e;
        }
    }

    /// How many entries there are.
    pub fn len(&self) -> usize
        ensures count { result ≡ length self.now }
        ensures few { result ≤ 16 }
    {
        self.len
    }

    /// The entries, the oldest first.
    pub fn as_slice(&self) -> &[Entry]
        ensures { result.now ≡ self.now }
    {
        &self.entries[..self.len]
    }

    /// Entry `k`, counted from the oldest, which is 0; `None` exactly where `k` isn't below `len`.
    pub fn get(&self, k: usize) -> Option<Entry>
        ensures entry { result ≡ slice_get self.now k }
        ensures within { IsSome result ↔ (k < length self.now) }
    {
        self.as_slice().get(k).copied()
    }
}
