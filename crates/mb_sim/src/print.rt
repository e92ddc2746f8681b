//! Printing the items that left.
ghost use Rattle.std.specs.Prelude.{◌≡◌, slice_get};
ghost use Rattle.host_io.specs.Outside.{Adds};
ghost use Rattle.mb_sim.specs.Lines.{item_line};
ghost use Rattle.mb_sim.specs.Raw.{printed, printed_at, printed_by};

use axi_link::Item;
use host_io::{ShortText, Sink, StoreFault, hex_of};
use run_journal::{Entry, Journal, What};
use std::alloc::Global;

/// Writes a line for each item that the host got, in order.
pub fn print_items<O: Sink>(alloc: Global, out: &mut O, journal: &Journal) -> Result<(), StoreFault>
    ensures { Adds (O.state out.old) (O.state out.new) (printed journal.now.entries) result }
{
    for k in 0..journal.len() {
        print_at(alloc, out, journal, k)?;
    }
    Ok(())
}

/// Writes the line of the item of an entry, where the host got one.
#[tactic(auto, using(piece_output::proofs::Added::adds_nothing))]
fn print_at<O: Sink>(
    alloc: Global,
    out: &mut O,
    journal: &Journal,
    k: usize,
) -> Result<(), StoreFault>
    ensures { Adds (O.state out.old) (O.state out.new) (printed_at (slice_get journal.now.entries k)) result }
{
    match journal.entry(k) {
        Some(entry) => print_entry(alloc, out, &entry),
        None => Ok(()),
    }
}

/// Writes the line of an entry's item, where the host got one.
#[tactic(auto, using(piece_output::proofs::Added::adds_nothing))]
fn print_entry<O: Sink>(alloc: Global, out: &mut O, entry: &Entry) -> Result<(), StoreFault>
    ensures { Adds (O.state out.old) (O.state out.new) (printed_by entry.now.what) result }
{
    match entry.what {
        What::HostGot { item, .. } => out.write_all(alloc, item_line(item).as_bytes()),
        _ => Ok(()),
    }
}

/// The line of an item: its control bit, a space, eight digits and a line feed.
fn item_line(item: Item) -> ShortText
    ensures { result ≡ item_line item }
{
    let mut line = ShortText::new();
    line.push(if item.control { b"1" } else { b"0" });
    line.push(b" ");
    line.push(&hex_of(item.word));
    line.push(b"\n");
    line
}
