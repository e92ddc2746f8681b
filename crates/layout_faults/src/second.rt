//! The first fault of a source in its layout.
ghost use Rattle.std.specs.Prelude.{◌≡◌, ◌+◌, ◌≤◌, ◌^◌, IfOk, length};
ghost use Rattle.asm_layout.specs.Places.{ArePlaces, member};
ghost use Rattle.asm_source.specs.Faults.{least};
ghost use Rattle.asm_source.specs.Items.{pieces};
ghost use Rattle.asm_source.specs.Second.{items_of, second_faults};

use crate::items::note_items;
use crate::parts::{note_parts, spans_of};
use asm_source::{Fault, First, Written};
use host_io::NoMemory;
use std::alloc::Global;

/// The first of the faults that a source has in a layout: a place for each item and one behind the last, and whether the label
/// of each has a prefix.
#[tactic(auto, unfolding(asm_source::specs::Second::second_faults))]
pub fn second_fault(
    alloc: Global,
    all: &[Written],
    places: &[u64],
    grown: &[bool],
) -> Result<Option<Fault>, NoMemory>
    requires few { length all.now ≤ 2 ^ 24 }
    requires room { length places.now ≡ length all.now + 1 }
    requires same { length grown.now ≡ length all.now }
    requires laid { ArePlaces (pieces (items_of all.now)) (member grown.now) (length all.now) places.now }
    ensures { IfOk result (λ fault. fault ≡ least (second_faults all.now (member grown.now))) }
{
    let mut first = First::none();
    note_items(&mut first, all, places, grown);
    let spans = spans_of(alloc, all, places, grown)?;
    note_parts(alloc, &mut first, spans.as_slice())?;
    Ok(first.get())
}
