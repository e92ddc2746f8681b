//! The faults of parts.
ghost use Rattle.std.specs.Prelude.{◌≡◌, ◌+◌, ◌<◌, ◌≤◌, ◌^◌, ◌∷◌, ◌++◌, [], List, IfOk, OnOk, drop, length, nat_lt, ◌&&◌};
ghost use Rattle.byte_ranges.specs.Ranges.{has_bytes};
ghost use Rattle.asm_layout.specs.Layout.{Numbers};
ghost use Rattle.asm_layout.specs.Places.{ArePlaces, member};
ghost use Rattle.asm_source.specs.declared.item.Span.{Span};
ghost use Rattle.asm_source.specs.Faults.{least_after};
ghost use Rattle.asm_source.specs.Items.{pieces};
ghost use Rattle.asm_source.specs.Second.{items_of, kept_with, part_faults, spans_from, written};

use crate::written::{is_part, note_if, written_at};
use asm_source::{First, Item, Rule, Span, Written};
use byte_ranges::{Range, Ranges};
use host_io::NoMemory;
use std::alloc::Global;

/// The item at which the first part begins; any where there is none.
fn first_item(all: &[Written]) -> Written
    ensures { result ≡ written all.now 0 }
{
    match all {
        [] => Written {
            item: Item::Space(0),
            line: 0,
            column: 0,
        },
        [first, ..] => *first,
    }
}

/// The parts that ended, and the one that is open: where it begins, and its item.
#[derive(Drop)]
struct Spans {
    ended: Vec<Span>,
    from: u64,
    org: Written,
}

impl Spans {
    /// Ends the open part at a place.
    fn end(&mut self, to: u64) -> Result<(), NoMemory>
        ensures { OnOk result (self.new.ended.items ≡ self.old.ended.items ++ record { range = record { from = self.old.from; to = to }; org = self.old.org } ∷ []) }
    {
        let range = Range {
            from: self.from,
            to,
        };
        let org = self.org;
        self.ended.push(Span { range, org })?;
        Ok(())
    }

    /// Goes on behind item `k`.
    fn pass(&mut self, all: &[Written], places: &[u64], k: usize) -> Result<(), NoMemory>
        requires within { k < length all.now }
        requires room { length places.now ≡ length all.now + 1 }
        ensures { OnOk result ((F : Numbers) (total : List Span) → ArePlaces (pieces (items_of all.now)) F (length all.now) places.now
            → self.old.ended.items ++ spans_from all.now F k self.old.from self.old.org (drop k all.now) ≡ total
            → self.new.ended.items ++ spans_from all.now F (k + 1) self.new.from self.new.org (drop (k + 1) all.now) ≡ total) }
    {
        let w = written_at(all, k);
        if !is_part(w.item) {
            return Ok(());
        }
        self.end(places[k])?;
        self.from = places[k + 1];
        self.org = w;
        Ok(())
    }
}

/// The parts of a source: where each begins and ends.
pub fn spans_of(
    alloc: Global,
    all: &[Written],
    places: &[u64],
    grown: &[bool],
) -> Result<Vec<Span>, NoMemory>
    requires room { length places.now ≡ length all.now + 1 }
    requires laid { ArePlaces (pieces (items_of all.now)) (member grown.now) (length all.now) places.now }
    ensures { IfOk result (λ spans. spans.items ≡ spans_from all.now (member grown.now) 0 0 (written all.now 0) all.now) }
{
    let mut spans = Spans {
        ended: Vec::new(alloc),
        from: 0,
        org: first_item(all),
    };
    for k in 0..all.len() {
        spans.pass(all, places, k)?;
    }
    spans.end(places[all.len()])?;
    let Spans { ended, .. } = spans;
    Ok(ended)
}

/// How many parts are kept with one more.
fn kept_with(range: Range, kept: usize) -> usize
    requires { kept + 1 < 2 ^ 64 }
    ensures count { result ≡ kept_with range kept }
    ensures few { result ≤ kept + 1 }
{
    if range.has_bytes() { kept + 1 } else { kept }
}

/// Whether a part is kept beside so many others, and is one too many.
fn is_too_many(range: Range, kept: usize) -> bool
    requires { kept + 1 < 2 ^ 64 }
    ensures { result ≡ (has_bytes range && nat_lt 65_534 (kept + 1)) }
{
    range.has_bytes() && 65_534 < kept + 1
}

/// Notes the faults of parts, up to the first that shares a byte with an earlier one.
pub fn note_parts(alloc: Global, first: &mut First, spans: &[Span]) -> Result<(), NoMemory>
    ensures { OnOk result (first.new ≡ least_after first.old (part_faults 0 [] spans.now)) }
{
    let mut ranges = Ranges::new(alloc);
    let mut kept = 0;
    for k in 0..spans.len() {
        let Span { range, org } = spans[k];
        if ranges.meets(range) {
            note_if(first, true, Rule::SharedByte, org);
            return Ok(());
        }
        note_if(first, is_too_many(range, kept), Rule::TooMuch, org);
        kept = kept_with(range, kept);
        ranges.add(range)?;
    }
    Ok(())
}
