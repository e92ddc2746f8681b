//! `demo`: the ring of a number under three orders, and the summary of its runs.
ghost use Rattle.std.specs.Prelude.{◌≡◌};
ghost use Rattle.mb_sim.specs.Demo.{IsShown, status_of_demo};
ghost use Rattle.mb_sim.specs.Top.{CountsWrites};

use crate::raw::output;
use crate::runs::status_of;
use crate::status::Status;
use board_run::RunEnd;
use host_io::{Sink, StoreFault};
use ring_demo::demo;
use std::alloc::Global;

/// Runs the ring of a number in each order, and prints the summary.
pub fn show_ring<O: Sink>(alloc: Global, number: u32, out: &mut O) -> Status
    ensures shown { IsShown number (O.state out.old) (O.state out.new) result }
    ensures writes { CountsWrites (O.state out.old).faults (O.state out.new).faults result }
{
    let shown = demo(alloc, number, out);
    status_of_demo(shown)
}

/// The status of a demonstration.
fn status_of_demo(shown: Result<RunEnd, StoreFault>) -> Status
    ensures { result ≡ status_of_demo shown }
{
    match shown {
        Ok(end) => status_of(end),
        Err(StoreFault::Failed) => Status::WriteFault { file: output() },
        Err(StoreFault::NoMemory) => Status::NoMemory,
    }
}
