//! `debug`: a board with its images and input files, and a script that is done on it.
ghost use Rattle.std.specs.Prelude.{◌≡◌, ◌+◌, ◌<◌, ◌≤◌, ◌^◌, IfSome, codes, map};
ghost use Rattle.any_core.specs.States.{any_state};
ghost use Rattle.exact_machine.specs.Runs.{exact_start};
ghost use Rattle.exact_machine.specs.Stepping.{CanRun};
ghost use Rattle.board_run.specs.Boards.{AreNew, IsBuildable};
ghost use Rattle.mb_sim.specs.Debugged.{DoesScript, SaysDebug, status_of_script};
ghost use Rattle.mb_sim.specs.Top.{CountsLoads, CountsWrites};
ghost use Rattle.mb_sim.specs.Probes.{AreYoung};
ghost use Rattle.debug_job.specs.Loading.{script_limit};
ghost use Rattle.host_io.specs.Streams.{TakesAtMost};
ghost use Rattle.probe_set.specs.Sets.{HaveRoom, items_of, named};

use crate::raw::output;
use crate::run::{RunWords, status_of_refusal};
use crate::status::Status;
use any_core::AnyCore;
use board_load::{Job, load_job, load_symbols};
use board_run::Board;
use debug_job::{ScriptRefusal, load_script, script_names};
use debug_script::{Script, ScriptNames};
use host_io::{FileName, Shelf, Sink, Source};
use mb_debug::{ScriptEnd, run_script};
use probe_set::ProbeSet;
use std::alloc::Global;

/// Reads the board of a file and then the script, checks both whole, does the script's commands, and prints what they ask for. No
/// file is written.
#[tactic(auto, using(crate::proofs::Debugging::takes_none))]
pub fn debug<S: Shelf, C: Source, O: Sink>(
    alloc: Global,
    words: &RunWords,
    shelf: &mut S,
    script: &mut C,
    out: &mut O,
    probes: &mut ProbeSet,
) -> Status
    requires young { AreYoung (map (λ a. named a.name (state_of (a.probe.vtable, a.probe.value))) (items_of probes.old.probes)) }
    requires few { words.now.cycles ≤ 1_000_000_000_000 }
    ensures says { SaysDebug words.now (S.state shelf.old) (S.state shelf.new) (C.state script.old) (C.state script.new) (O.state out.old) (O.state out.new)
        (map (λ a. named a.name (state_of (a.probe.vtable, a.probe.value))) (items_of probes.old.probes))
        (map (λ a. named a.name (state_of (a.probe.vtable, a.probe.value))) (items_of probes.new.probes)) result }
    ensures loads { CountsLoads (S.state shelf.old).faults.load_faults (S.state shelf.new).faults.load_faults result }
    ensures reads { CountsLoads (C.state script.old).faults (C.state script.new).faults result }
    ensures taken { TakesAtMost (script_limit + 1) (C.state script.old).left (C.state script.new).left }
    ensures writes { CountsWrites (O.state out.old).faults (O.state out.new).faults result }
    ensures shelf_writes { CountsWrites (S.state shelf.old).faults.write_faults (S.state shelf.new).faults.write_faults result }
{
    let job = match load_job(alloc, shelf, &words.file, &words.journal) {
        Ok(job) => job,
        Err(refusal) => return status_of_refusal(refusal),
    };
    let symbols = match load_symbols(alloc, shelf, job.board.cores.as_slice()) {
        Ok(symbols) => symbols,
        Err(refusal) => return status_of_refusal(refusal),
    };
    let Ok(names) = script_names(alloc, &job.board, symbols, probes) else {
        return Status::NoMemory;
    };
    let commands = match load_script(alloc, script, &names) {
        Ok(commands) => commands,
        Err(refusal) => return status_of_script(refusal),
    };
    match begin(alloc, job, words.entries) {
        Some(board) => do_script(alloc, board, &commands, &names, words.cycles, out, probes),
        None => Status::NoMemory,
    }
}

/// The name by which the script is told.
fn script() -> FileName
    ensures { result ≡ codes "script" }
{
    FileName::from_text("script").unwrap()
}

/// The status of a script that isn't read.
fn status_of_script(refusal: ScriptRefusal) -> Status
    ensures { result ≡ status_of_script refusal }
{
    match refusal {
        ScriptRefusal::CannotRead => Status::ReadFault { file: script() },
        ScriptRefusal::TooLong => Status::TooLong { file: script() },
        ScriptRefusal::Refused { code, line } => Status::BadScript { code, line },
        ScriptRefusal::NoMemory => Status::NoMemory,
    }
}

/// The board of a job before its first event; `None` for want of memory.
fn begin(alloc: Global, job: Job, entries: u32) -> Option<Board<AnyCore>>
    requires new { AreNew job.board.cores (map any_state job.cores.items) }
    requires buildable { IsBuildable job.board }
    ensures room { IfSome result (λ board. board.fabric.spare < 2 ^ 32) }
    ensures start { IfSome result (λ board. board ≡ exact_start job.board (map (λ core. (any_state core).view) job.cores.items) (record { links = job.inputs.links; uarts = job.inputs.uarts }) entries) }
{
    let Job {
        board: file,
        cores,
        inputs,
    } = job;
    let board = Board::build(alloc, &file, cores, inputs, entries as usize).ok()?;
    Some(board)
}

/// Does a script on a board, and prints what its commands ask for.
fn do_script<O: Sink>(
    alloc: Global,
    board: Board<AnyCore>,
    script: &Script,
    names: &ScriptNames,
    cycles: u64,
    out: &mut O,
    probes: &mut ProbeSet,
) -> Status
    requires room { HaveRoom board.fabric.spare (map (λ a. named a.name (state_of (a.probe.vtable, a.probe.value))) (items_of probes.old.probes)) }
    requires can { CanRun cycles board }
    ensures { DoesScript cycles script.now names.now board (O.state out.old) (O.state out.new)
        (map (λ a. named a.name (state_of (a.probe.vtable, a.probe.value))) (items_of probes.old.probes))
        (map (λ a. named a.name (state_of (a.probe.vtable, a.probe.value))) (items_of probes.new.probes)) result }
{
    let mut board = board;
    match run_script(alloc, script, &mut board, names, cycles, probes, out) {
        Ok(_) => Status::Ended,
        Err(ScriptEnd::WriteFault) => Status::WriteFault { file: output() },
        Err(ScriptEnd::NoMemory) => Status::NoMemory,
    }
}
