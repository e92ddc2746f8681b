//! The faults of items, one by one.
ghost use Rattle.std.specs.Prelude.{◌≡◌, ◌+◌, ◌-◌, ◌<◌, ◌^◌, ◌%◌, ◌==◌, ◌&&◌, not, flat_map, length, min};
ghost use Rattle.std.specs.List.{range_with_len};
ghost use Rattle.asm_layout.specs.Layout.{Numbers};
ghost use Rattle.asm_layout.specs.Places.{ArePlaces, member};
ghost use Rattle.asm_source.specs.Faults.{least_after};
ghost use Rattle.asm_source.specs.Items.{pieces};
ghost use Rattle.asm_source.specs.Second.{is_instruction, item_faults, items_of, size_before};

use crate::slots::note_slot;
use crate::written::{is_instruction, note_if, size_of, written_at};
use asm_source::{First, Item, Rule, Written};

/// How many bytes the items up to item `k` have, where those before it have so many. A number that 64 bits don't hold is the
/// greatest that they do.
fn size_with(all: &[Written], places: &[u64], k: usize, before: u64) -> u64
    requires within { k < length all.now }
    requires room { length places.now ≡ length all.now + 1 }
    ensures { (F : Numbers) → ArePlaces (pieces (items_of all.now)) F (length all.now) places.now → before ≡ min (size_before all.now F k) (2 ^ 64 - 1) → result ≡ min (size_before all.now F (k + 1)) (2 ^ 64 - 1) }
{
    before.saturating_add(size_of(all, places, k))
}

/// Whether an item at a place is an instruction that isn't aligned.
fn is_unaligned(item: Item, place: u64) -> bool
    ensures { result ≡ (is_instruction item && not (place % 4 == 0)) }
{
    is_instruction(item) && place % 4 != 0
}

/// Notes the faults of item `k`, where so many bytes stand up to its end.
fn note_item(
    first: &mut First,
    all: &[Written],
    places: &[u64],
    grown: &[bool],
    k: usize,
    size: u64,
)
    requires within { k < length all.now }
    requires room { length places.now ≡ length all.now + 1 }
    requires same { length grown.now ≡ length all.now }
    requires laid { ArePlaces (pieces (items_of all.now)) (member grown.now) (length all.now) places.now }
    requires size { size ≡ min (size_before all.now (member grown.now) (k + 1)) (2 ^ 64 - 1) }
    ensures { first.new ≡ least_after first.old (item_faults all.now (member grown.now) k) }
{
    let w = written_at(all, k);
    let unaligned = is_unaligned(w.item, places[k]);
    note_if(first, unaligned, Rule::OutOfRange, w);
    note_if(first, 0x10_0000 < size, Rule::TooMuch, w);
    note_if(first, 0x400_0000 < places[k + 1], Rule::TooMuch, w);
    note_slot(first, all, places, grown, k);
}

/// Notes the faults of all items.
pub fn note_items(first: &mut First, all: &[Written], places: &[u64], grown: &[bool])
    requires room { length places.now ≡ length all.now + 1 }
    requires same { length grown.now ≡ length all.now }
    requires laid { ArePlaces (pieces (items_of all.now)) (member grown.now) (length all.now) places.now }
    ensures { first.new ≡ least_after first.old (flat_map (item_faults all.now (member grown.now)) (range_with_len 0 (length all.now))) }
{
    let mut size = 0;
    for k in 0..all.len() {
        size = size_with(all, places, k, size);
        note_item(first, all, places, grown, k, size);
    }
}
