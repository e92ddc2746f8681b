//! The test that no two segments share a byte in memory, in n log n steps for n segments.
ghost use Rattle.std.specs.Prelude.{◌≡◌, ◌++◌, ◌∷◌, [], List, OnOk, IfOk, false, true, length};
ghost use Rattle.std.specs.BTreeMap.{get};
ghost use Rattle.std.specs.List.{list_any};
ghost use Rattle.std.specs.Ordering.{nat_cmp};
ghost use Rattle.elf_image.specs.Ranges.{IsLastBelow, Keeps};
ghost use Rattle.elf_image.specs.Tests.{first_failing, overlap_tests, shares_byte};
ghost use Rattle.elf_image.specs.declared.segment.ProgramHeader.{ProgramHeader};

use crate::fault::{ElfRule, Fault};
use crate::segment::ProgramHeader;
use host_io::NoMemory;
use std::alloc::Global;
use std::collections::BTreeMap;

/// The ranges of segments in memory, none of which shares a byte with another.
#[derive(Drop)]
pub struct Ranges {
    /// The end of each range by its start.
    pub ends: BTreeMap<u64, u64>,
}

impl Ranges {
    fn new(alloc: Global) -> Self
        ensures { Keeps [] (get nat_cmp result.ends) }
    {
        Ranges {
            ends: BTreeMap::new(alloc),
        }
    }

    /// The end of the last range that begins below an address.
    fn last_end(&self, address: u64) -> Option<u64>
        ensures { IsLastBelow (get nat_cmp self.now.ends) address result }
    {
        match self.ends.range(..address).next_back() {
            Some((_, end)) => Some(*end),
            None => None,
        }
    }

    /// Whether a segment shares a byte with one of these.
    fn meets(&self, header: &ProgramHeader) -> bool
        ensures { (earlier : List ProgramHeader) → Keeps earlier (get nat_cmp self.now.ends) → result ≡ list_any (shares_byte header.now) earlier }
    {
        if !header.has_bytes() {
            return false;
        }
        match self.last_end(header.end()) {
            Some(end) => header.start() < end,
            None => false,
        }
    }

    /// Adds the range of a segment that shares no byte with one of these.
    fn add(&mut self, header: &ProgramHeader) -> Result<(), NoMemory>
        ensures ok { OnOk result ((earlier : List ProgramHeader) → Keeps earlier (get nat_cmp self.old.ends) → list_any (shares_byte header.now) earlier ≡ false → Keeps (earlier ++ header.now ∷ []) (get nat_cmp self.new.ends)) }
    {
        if !header.has_bytes() {
            return Ok(());
        }
        self.ends.insert(header.start(), header.end())?;
        Ok(())
    }
}

/// The first segment that shares a byte with an earlier one.
pub fn overlap_fault(alloc: Global, loads: &[ProgramHeader]) -> Result<Option<Fault>, NoMemory>
    ensures { IfOk result (λ fault. fault ≡ first_failing (overlap_tests [] loads.now)) }
{
    let mut ranges = Ranges::new(alloc);
    for header in loads {
        if ranges.meets(header) {
            return Ok(Some(ElfRule::Overlap.at(header.index)));
        }
        ranges.add(header)?;
    }
    Ok(None)
}
