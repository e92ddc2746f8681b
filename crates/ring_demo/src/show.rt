//! The demonstration.
ghost use Rattle.std.specs.Prelude.{◌≡◌};
ghost use Rattle.host_io.specs.Outside.{Rose};
ghost use Rattle.ring_demo.specs.Runs.{end_of, end_then};
ghost use Rattle.ring_demo.specs.Demo.{HasSummary, Prints, Shows};

use crate::run::{Runs, run_all};
use crate::summary::summary_of;
use board_run::{Rest, RunEnd};
use host_io::{Sink, StoreFault};
use std::alloc::Global;

/// Runs the ring of a number in each order, and then prints the summary. It answers how the first of the runs ended that
/// didn't come to rest with each core at its end or asleep, or that all of them did so.
pub fn demo<O: Sink>(alloc: Global, number: u32, out: &mut O) -> Result<RunEnd, StoreFault>
    ensures shows { Shows number (O.state out.old) (O.state out.new) result }
    // where no fault of the sink was counted, the summary is printed
    ensures complete { ¬ Rose (O.state out.old).faults (O.state out.new).faults → HasSummary result }
{
    match run_all(alloc, number) {
        Some(runs) => print(alloc, number, &runs, out),
        None => Err(StoreFault::NoMemory),
    }
}

/// Prints the summary of the runs of the ring of a number, and tells their end.
fn print<O: Sink>(
    alloc: Global,
    number: u32,
    runs: &Runs,
    out: &mut O,
) -> Result<RunEnd, StoreFault>
    ensures { Prints number runs.now (O.state out.old) (O.state out.new) result }
{
    let text = summary_of(number, runs);
    out.write_all(alloc, text.as_bytes())?;
    Ok(end_of(runs))
}

/// How the first of the runs ended that didn't come to rest with each core at its end or asleep, or that all of them did
/// so.
fn end_of(runs: &Runs) -> RunEnd
    ensures { result ≡ end_of runs.now }
{
    end_then(
        runs.ascending.end,
        end_then(runs.descending.end, runs.rotating.end),
    )
}

/// The end of a run, or that of later runs where it came to rest with each core at its end or asleep.
fn end_then(end: RunEnd, later: RunEnd) -> RunEnd
    ensures { result ≡ end_then end later }
{
    match end {
        RunEnd::Rest(Rest::Ended) => later,
        RunEnd::Rest(Rest::Waiting) => end,
        RunEnd::Rest(Rest::Stopped) => end,
        RunEnd::CyclesSpent => end,
        RunEnd::JournalFull => end,
    }
}
