//! Items, and the bytes that they have in a layout.
ghost use Rattle.std.specs.Prelude.{◌≡◌, ◌+◌, ◌<◌, length};
ghost use Rattle.asm_layout.specs.Layout.{Numbers};
ghost use Rattle.asm_layout.specs.Places.{ArePlaces};
ghost use Rattle.asm_source.specs.Faults.{least_after};
ghost use Rattle.asm_source.specs.Items.{pieces};
ghost use Rattle.asm_source.specs.Second.{fault_if, is_instruction, is_part, is_solid, items_of, size_of, written};

use asm_source::{Fault, First, Item, Rule, Written};

/// Notes a fault at an item, where something fails.
pub fn note_if(first: &mut First, fails: bool, rule: Rule, w: Written)
    ensures { first.new ≡ least_after first.old (fault_if fails rule w) }
{
    if fails {
        first.note(Fault {
            line: w.line,
            column: w.column,
            rule,
        });
    }
}

/// Whether it is an instruction.
pub fn is_instruction(item: Item) -> bool
    ensures { result ≡ is_instruction item }
{
    match item {
        Item::Instruction { .. } => true,
        _ => false,
    }
}

/// Whether it begins a part.
pub fn is_part(item: Item) -> bool
    ensures { result ≡ is_part item }
{
    match item {
        Item::Part(_) => true,
        _ => false,
    }
}

/// Item `k`.
pub fn written_at(all: &[Written], k: usize) -> Written
    requires { k < length all.now }
    ensures { result ≡ written all.now k }
{
    all[k]
}

/// How many bytes item `k` has, in the layout whose places these are.
pub fn size_of(all: &[Written], places: &[u64], k: usize) -> u64
    requires within { k < length all.now }
    requires room { length places.now ≡ length all.now + 1 }
    ensures { (F : Numbers) → ArePlaces (pieces (items_of all.now)) F (length all.now) places.now → result ≡ size_of all.now F k }
{
    if is_part(written_at(all, k).item) {
        return 0;
    }
    places[k + 1].saturating_sub(places[k])
}

/// Whether item `k` parts what stands before it from what stands behind it.
pub fn is_solid(all: &[Written], places: &[u64], k: usize) -> bool
    requires within { k < length all.now }
    requires room { length places.now ≡ length all.now + 1 }
    ensures { (F : Numbers) → ArePlaces (pieces (items_of all.now)) F (length all.now) places.now → result ≡ is_solid all.now F k }
{
    is_part(written_at(all, k).item) || size_of(all, places, k) != 0
}
