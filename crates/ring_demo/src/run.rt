//! Runs of a ring.
ghost use Rattle.std.specs.Prelude.{◌≡◌, [], IfSome};
ghost use Rattle.ring_demo.specs.Runs.{HasRun, HasRuns, ring_start};

use crate::program::ring_cores;
use crate::ring::{cores_of, ring_board};
use crate::tally::{Tally, tally_of};
use any_core::AnyCore;
use board_file::Turn;
use board_run::{Board, Inputs, RunEnd};
use host_io::Blobs;
use probe_set::ProbeSet;
use std::alloc::Global;

/// The limit of cycles of each run.
const CYCLES: u64 = 10_000_000;

/// The room for journal entries of each run.
const ENTRIES: usize = 1_048_576;

/// How a run ended, and what left it.
#[derive(Clone, Copy)]
pub struct Ran {
    pub end: RunEnd,
    pub tally: Tally,
}

/// A run in each order.
#[derive(Clone, Copy)]
pub struct Runs {
    pub ascending: Ran,
    pub descending: Ran,
    pub rotating: Ran,
}

/// Runs the ring of a number in each order; `None` for want of memory.
pub fn run_all(alloc: Global, number: u32) -> Option<Runs>
    ensures { IfSome result (HasRuns number) }
{
    Some(Runs {
        ascending: run_ring(alloc, Turn::Ascending, number)?,
        descending: run_ring(alloc, Turn::Descending, number)?,
        rotating: run_ring(alloc, Turn::Rotating, number)?,
    })
}

/// Runs the ring of a number in an order; `None` for want of memory.
fn run_ring(alloc: Global, turn: Turn, number: u32) -> Option<Ran>
    ensures { IfSome result (HasRun turn number) }
{
    let mut board = build_ring(alloc, turn, number)?;
    let end = board.run(CYCLES, &mut ProbeSet::new());
    let tally = tally_of(board.journal());
    Some(Ran { end, tally })
}

/// The ring of a number before its first event; `None` for want of memory.
fn build_ring(alloc: Global, turn: Turn, number: u32) -> Option<Board<AnyCore>>
    ensures { IfSome result (λ b. b ≡ ring_start turn number) }
{
    let file = ring_board(alloc, turn, number)?;
    let cores = ring_cores(alloc, number, cores_of(number))?;
    let inputs = no_inputs(alloc);
    match Board::build(alloc, &file, cores, inputs, ENTRIES) {
        Ok(board) => Some(board),
        Err(_) => None,
    }
}

/// The content of no input file.
fn no_inputs(alloc: Global) -> Inputs
    ensures links { result.links ≡ [] }
    ensures uarts { result.uarts ≡ [] }
{
    Inputs {
        links: Blobs::from_vec(Vec::new(alloc)),
        uarts: Blobs::from_vec(Vec::new(alloc)),
    }
}
