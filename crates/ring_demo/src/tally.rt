//! What left a run.
ghost use Rattle.std.specs.Prelude.{◌≡◌, ◌+◌, ◌-◌, ◌<◌, ◌≤◌, ◌%◌, ◌^◌, length, slice_get, sum};
ghost use Rattle.ring_demo.specs.Summary.{IsTally, word_at, word_left};

use run_journal::{Journal, What};

/// How many items left, and the sum of their words modulo 2^32.
#[derive(Clone, Copy)]
pub struct Tally {
    pub items: u64,
    pub sum: u32,
}

/// What the entries of a run say of the items that left.
pub fn tally_of(journal: &Journal) -> Tally
    ensures { IsTally result journal.now.entries }
{
    let mut tally = Tally { items: 0, sum: 0 };
    for k in 0..journal.len() {
        tally = with_entry(tally, journal, k);
    }
    tally
}

/// A tally with entry `k` of a journal.
fn with_entry(tally: Tally, journal: &Journal, k: usize) -> Tally
    requires { tally.items < 2 ^ 64 - 1 }
    ensures items { result.items ≡ tally.items + length (word_at (slice_get journal.now.entries k)) }
    ensures few { result.items ≤ tally.items + 1 }
    ensures sum { result.sum ≡ (tally.sum + sum (word_at (slice_get journal.now.entries k))) % 2 ^ 32 }
{
    match journal.entry(k) {
        Some(entry) => with_item(tally, &entry.what),
        None => tally,
    }
}

/// A tally with what an entry says, where it tells of an item that left.
fn with_item(tally: Tally, what: &What) -> Tally
    requires { tally.items < 2 ^ 64 - 1 }
    ensures items { result.items ≡ tally.items + length (word_left what.now) }
    ensures few { result.items ≤ tally.items + 1 }
    ensures sum { result.sum ≡ (tally.sum + sum (word_left what.now)) % 2 ^ 32 }
{
    match what {
        What::HostGot { item, .. } => Tally {
            items: tally.items + 1,
            sum: tally.sum.wrapping_add(item.word),
        },
        _ => tally,
    }
}
