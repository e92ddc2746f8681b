//! What stands in the slot of a branch.
ghost use Rattle.std.specs.Prelude.{◌≡◌, ◌+◌, ◌-◌, ◌<◌, ◌≤◌, IfSome, ℕ, length};
ghost use Rattle.asm_layout.specs.Layout.{Numbers};
ghost use Rattle.asm_layout.specs.Places.{ArePlaces, member};
ghost use Rattle.asm_source.specs.Faults.{least_after};
ghost use Rattle.asm_source.specs.Items.{pieces};
ghost use Rattle.asm_source.specs.Second.{in_slot, items_of, next_solid, slot_faults, written};

use crate::written::{is_solid, note_if, written_at};
use asm_source::{First, Item, Rule, Written, has_slot};
use op_table::row_of;

/// The first item from one on that parts what stands before it from what stands behind it.
fn next_solid(all: &[Written], places: &[u64], from: usize) -> Option<usize>
    requires within { from ≤ length all.now }
    requires room { length places.now ≡ length all.now + 1 }
    ensures next { (F : Numbers) → ArePlaces (pieces (items_of all.now)) F (length all.now) places.now → result ≡ next_solid all.now F (length all.now - from) from }
    ensures within { IfSome result (λ k. k < length all.now) }
{
    for k in from..all.len() {
        if is_solid(all, places, k) {
            return Some(k);
        }
    }
    None
}

/// Notes what is wrong with an item in the slot of a branch; `long` tells whether its label, where it has one, needs a prefix.
fn note_in_slot(first: &mut First, branch: Written, w: Written, long: bool)
    ensures { (F : Numbers) (k : ℕ) → F k ≡ long → first.new ≡ least_after first.old (in_slot F branch w k w.item) }
{
    match w.item {
        Item::Instruction { instr, .. } => {
            let fails = w.item.prefixed(long) || !row_of(instr.op).slot_ok;
            note_if(first, fails, Rule::BadInSlot, w);
        }
        _ => note_if(first, true, Rule::EmptySlot, branch),
    }
}

/// Notes what is wrong with the slot of item `k`.
pub fn note_slot(first: &mut First, all: &[Written], places: &[u64], grown: &[bool], k: usize)
    requires within { k < length all.now }
    requires room { length places.now ≡ length all.now + 1 }
    requires same { length grown.now ≡ length all.now }
    requires laid { ArePlaces (pieces (items_of all.now)) (member grown.now) (length all.now) places.now }
    ensures { first.new ≡ least_after first.old (slot_faults all.now (member grown.now) k (written all.now k).item) }
{
    let branch = written_at(all, k);
    if let Item::Instruction { instr, .. } = branch.item {
        if has_slot(instr.op) {
            match next_solid(all, places, k + 1) {
                None => note_if(first, true, Rule::EmptySlot, branch),
                Some(next) => note_in_slot(first, branch, written_at(all, next), grown[next]),
            }
        }
    }
}
