//! `profile`: a board with its images and input files, to its report and what the ticks of its cores were spent on.
ghost use Rattle.std.specs.Prelude.{◌≡◌, ◌<◌, ◌≤◌, ◌^◌, IfSome, flat_map, length, map, replicate};
ghost use Rattle.std.specs.List.{enumerate_from};
ghost use Rattle.any_core.specs.States.{any_state};
ghost use Rattle.exact_machine.specs.Profile.{nothing};
ghost use Rattle.exact_machine.specs.Runs.{exact_start};
ghost use Rattle.exact_machine.specs.Stepping.{CanRun};
ghost use Rattle.host_io.specs.Outside.{Adds};
ghost use Rattle.board_run.specs.Boards.{AreNew, IsBuildable};
ghost use Rattle.mb_sim.specs.Profiled.{PlaysProfiled, PrintsProfiled, SaysProfile, line_of_profile, profile_text};
ghost use Rattle.mb_sim.specs.Runs.{code_of, status_of};
ghost use Rattle.mb_sim.specs.Top.{CountsLoads, CountsWrites};
ghost use Rattle.mb_sim.specs.Probes.{AreYoung};
ghost use Rattle.probe_set.specs.Sets.{HaveRoom, items_of, named};

use crate::raw::output;
use crate::run::{BoardEnds, Ready, RunWords, prepare, status_of_refusal};
use crate::runs::status_of;
use crate::status::Status;
use any_core::AnyCore;
use board_file::CoreRow;
use board_load::{Job, load_job};
use board_profile::{ProfiledBoard, profile_line};
use board_run::RunEnd;
use host_io::{Shelf, Sink, StoreFault};
use probe_set::ProbeSet;
use run_output::Outputs;
use std::alloc::Global;

/// A board with its profiles before its first event, and the memory for its report.
#[derive(Drop)]
struct ReadyToCount {
    board: ProfiledBoard<AnyCore>,
    outputs: Outputs,
}

/// Runs the board of a file, writes no file, and prints the report and a line for the profile of each core.
pub fn profile<S: Shelf, O: Sink>(
    alloc: Global,
    words: &RunWords,
    shelf: &mut S,
    out: &mut O,
    probes: &mut ProbeSet,
) -> Status
    requires young { AreYoung (map (λ a. named a.name (state_of (a.probe.vtable, a.probe.value))) (items_of probes.old.probes)) }
    requires few { words.now.cycles ≤ 1_000_000_000_000 }
    ensures says { SaysProfile words.now (S.state shelf.old) (S.state shelf.new) (O.state out.old) (O.state out.new)
        (map (λ a. named a.name (state_of (a.probe.vtable, a.probe.value))) (items_of probes.old.probes))
        (map (λ a. named a.name (state_of (a.probe.vtable, a.probe.value))) (items_of probes.new.probes)) result }
    ensures loads { CountsLoads (S.state shelf.old).faults.load_faults (S.state shelf.new).faults.load_faults result }
    ensures writes { CountsWrites (O.state out.old).faults (O.state out.new).faults result }
    ensures shelf_writes { CountsWrites (S.state shelf.old).faults.write_faults (S.state shelf.new).faults.write_faults result }
{
    let job = match load_job(alloc, shelf, &words.file, &words.journal) {
        Ok(job) => job,
        Err(refusal) => return status_of_refusal(refusal),
    };
    match make_counting(alloc, job, words.entries) {
        Some(ready) => count(alloc, ready, words.cycles, out, probes),
        None => Status::NoMemory,
    }
}

/// Takes all the memory that the run needs; `None` for want of it.
fn make_counting(alloc: Global, job: Job, entries: u32) -> Option<ReadyToCount>
    requires new { AreNew job.board.cores (map any_state job.cores.items) }
    requires buildable { IsBuildable job.board }
    ensures file { IfSome result (λ r. r.outputs ≡ job.board) }
    ensures room { IfSome result (λ r. r.board.world.fabric.spare < 2 ^ 32) }
    ensures start { IfSome result (λ r. r.board.world ≡ exact_start job.board (map (λ core. (any_state core).view) job.cores.items) (record { links = job.inputs.links; uarts = job.inputs.uarts }) entries) }
    ensures none { IfSome result (λ r. r.board.profiles ≡ replicate (length r.board.world.cores) nothing) }
{
    let Ready { board, outputs } = prepare(alloc, job, entries)?;
    let board = ProfiledBoard::new(alloc, board).ok()?;
    Some(ReadyToCount { board, outputs })
}

/// Runs a board and prints what it gives.
fn count<O: Sink>(
    alloc: Global,
    ready: ReadyToCount,
    cycles: u64,
    out: &mut O,
    probes: &mut ProbeSet,
) -> Status
    requires room { HaveRoom ready.board.world.fabric.spare (map (λ a. named a.name (state_of (a.probe.vtable, a.probe.value))) (items_of probes.old.probes)) }
    requires can { CanRun cycles ready.board.world }
    requires count { length ready.board.world.cores ≡ length ready.outputs.cores }
    ensures plays { PlaysProfiled cycles ready.outputs ready.board (O.state out.old) (O.state out.new)
        (map (λ a. named a.name (state_of (a.probe.vtable, a.probe.value))) (items_of probes.old.probes))
        (map (λ a. named a.name (state_of (a.probe.vtable, a.probe.value))) (items_of probes.new.probes)) result }
{
    let mut ready = ready;
    let end = ready.board.run(cycles, probes);
    print(alloc, &mut ready, end, out)
}

/// Prints the report and the profiles of a run that ended so.
fn print<O: Sink>(alloc: Global, ready: &mut ReadyToCount, end: RunEnd, out: &mut O) -> Status
    requires count { length ready.old.board.world.cores ≡ length ready.old.outputs.cores }
    ensures { PrintsProfiled ready.old.outputs ready.old.board end (O.state out.old) (O.state out.new) result }
{
    match print_all(alloc, ready, end, out) {
        Ok(()) => status_of(end),
        Err(StoreFault::Failed) => Status::WriteFault { file: output() },
        Err(StoreFault::NoMemory) => Status::NoMemory,
    }
}

/// Prints the report of a run, and then the profiles.
fn print_all<O: Sink>(
    alloc: Global,
    ready: &mut ReadyToCount,
    end: RunEnd,
    out: &mut O,
) -> Result<(), StoreFault>
    requires count { length ready.old.board.world.cores ≡ length ready.old.outputs.cores }
    ensures { Adds (O.state out.old) (O.state out.new) (profile_text ready.old.outputs ready.old.board end) result }
{
    let ReadyToCount { board, outputs } = ready;
    let (code, cycles) = (status_of(end).code(), board.board().number());
    let ends = BoardEnds {
        board: board.board(),
    };
    outputs.print_report(alloc, out, &ends, board.board().journal(), code, cycles)?;
    print_profiles(alloc, out, outputs.board().cores.as_slice(), board)
}

/// Prints a line for each core.
fn print_profiles<O: Sink>(
    alloc: Global,
    out: &mut O,
    rows: &[CoreRow],
    board: &ProfiledBoard<AnyCore>,
) -> Result<(), StoreFault>
    requires { length board.now.world.cores ≡ length rows.now }
    ensures { Adds (O.state out.old) (O.state out.new) (flat_map (line_of_profile board.now.profiles) (enumerate_from 0 rows.now)) result }
{
    for k in 0..board.board().cores() {
        let row = &rows[k as usize];
        let profile = board.profile(k);
        let line = profile_line(&row.name, &profile);
        out.write_all(alloc, line.as_bytes())?;
    }
    Ok(())
}
