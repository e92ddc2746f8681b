ghost use Rattle.std.specs.Prelude.{◌≡◌, ◌++◌, ◌∷◌, [], List, OnOk, false};
ghost use Rattle.std.specs.BTreeMap.{get};
ghost use Rattle.std.specs.List.{list_any};
ghost use Rattle.std.specs.Ordering.{nat_cmp};
ghost use Rattle.byte_ranges.specs.Ranges.{IsLastBelow, Keeps, has_bytes, shares_byte};
ghost use Rattle.byte_ranges.specs.declared.kept.Range.{Range};

use host_io::NoMemory;
use std::alloc::Global;
use std::collections::BTreeMap;

/// The bytes from one address up to, but without, another.
#[derive(Clone, Copy, PartialEq, Eq, Debug)]
pub struct Range {
    pub from: u64,
    pub to: u64,
}

impl Range {
    /// Whether there are any.
    pub fn has_bytes(self) -> bool
        ensures { result ≡ has_bytes self }
    {
        self.from < self.to
    }
}

/// Ranges none of which shares a byte with another.
#[derive(Drop)]
pub struct Ranges {
    /// The end of each range by its start.
    pub ends: BTreeMap<u64, u64>,
}

impl Ranges {
    /// No ranges.
    pub fn new(alloc: Global) -> Self
        ensures { Keeps [] (get nat_cmp result.ends) }
    {
        Ranges {
            ends: BTreeMap::new(alloc),
        }
    }

    /// The end of the last range that begins below an address.
    fn last_end(&self, address: u64) -> Option<u64>
        ensures { IsLastBelow (get nat_cmp self.now.ends) address result }
    {
        match self.ends.range(..address).next_back() {
            Some((_, end)) => Some(*end),
            None => None,
        }
    }

    /// Whether a range shares a byte with one of these.
    pub fn meets(&self, range: Range) -> bool
        ensures { (earlier : List Range) → Keeps earlier (get nat_cmp self.now.ends) → result ≡ list_any (shares_byte range) earlier }
    {
        if !range.has_bytes() {
            return false;
        }
        match self.last_end(range.to) {
            Some(end) => range.from < end,
            None => false,
        }
    }

    /// Adds a range that shares no byte with one of these.
    pub fn add(&mut self, range: Range) -> Result<(), NoMemory>
        ensures ok { OnOk result ((earlier : List Range) → Keeps earlier (get nat_cmp self.old.ends) → list_any (shares_byte range) earlier ≡ false → Keeps (earlier ++ range ∷ []) (get nat_cmp self.new.ends)) }
    {
        if !range.has_bytes() {
            return Ok(());
        }
        self.ends.insert(range.from, range.to)?;
        Ok(())
    }
}
