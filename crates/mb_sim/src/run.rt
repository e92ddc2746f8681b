//! `run`: a board with its images and input files, to its output files, journal and report.
ghost use Rattle.std.specs.Prelude.{◌≡◌, ◌<◌, ◌≤◌, ◌^◌, IfSome, Ok, codes, length, map, slice_get};
ghost use Rattle.any_core.specs.States.{any_state};
ghost use Rattle.exact_machine.specs.Runs.{exact_start};
ghost use Rattle.exact_machine.specs.Stepping.{CanRun};
ghost use Rattle.board_run.specs.Boards.{AreNew, IsBuildable};
ghost use Rattle.mb_sim.specs.Board.{Plays, Prints, PutsOut, Says, status_of_output, status_of_refusal};
ghost use Rattle.mb_sim.specs.Top.{CountsLoads, CountsWrites};
ghost use Rattle.mb_sim.specs.Probes.{AreYoung};
ghost use Rattle.probe_set.specs.Sets.{HaveRoom, items_of, named};

use crate::raw::output;
use crate::runs::status_of;
use crate::status::Status;
use any_core::AnyCore;
use board_load::{Job, Refusal, load_job};
use board_run::{Board, RunEnd};
use core_iface::Core;
use host_io::{FileName, Shelf, Sink, StoreFault};
use probe_set::ProbeSet;
use run_output::{CoreEnd, CoreEnds, OutputFault, Outputs};
use std::alloc::Global;

/// The words of `run`.
#[derive(Debug, Drop)]
pub struct RunWords {
    /// The board file.
    pub file: FileName,
    /// The limit of cycles.
    pub cycles: u64,
    /// The room for journal entries.
    pub entries: u32,
    /// The file for the journal, where one is named.
    pub journal: Option<FileName>,
}

/// A board before its first event, and the memory for what its run puts out.
#[derive(Drop)]
pub(crate) struct Ready {
    pub(crate) board: Board<AnyCore>,
    pub(crate) outputs: Outputs,
}

/// How the cores of a board stand.
#[derive(Clone, Copy)]
pub(crate) struct BoardEnds<'a> {
    pub(crate) board: &'a Board<AnyCore>,
}

impl CoreEnds for BoardEnds<'_> {
    ghost use Rattle.std.specs.Prelude.{length};
    ghost use Rattle.mb_sim.specs.Board.{ends_of};

    ghost count = { λ e. length e.board.now.cores };

    ghost ends = { λ e. ends_of e.board.now };

    fn count(&self) -> u16 {
        self.board.cores()
    }

    fn end(&self, core: u16) -> CoreEnd {
        let chosen = self.board.core(core);
        CoreEnd {
            idle: self.board.idle(core),
            pc: chosen.arch().pc,
            acts: chosen.acts(),
        }
    }
}

/// Runs the board of a file, writes its files and then the journal, and prints the report.
pub fn run<S: Shelf, O: Sink>(
    alloc: Global,
    words: &RunWords,
    shelf: &mut S,
    out: &mut O,
    probes: &mut ProbeSet,
) -> Status
    requires young { AreYoung (map (λ a. named a.name (state_of (a.probe.vtable, a.probe.value))) (items_of probes.old.probes)) }
    requires few { words.now.cycles ≤ 1_000_000_000_000 }
    ensures says { Says words.now (S.state shelf.old) (S.state shelf.new) (O.state out.old) (O.state out.new)
        (map (λ a. named a.name (state_of (a.probe.vtable, a.probe.value))) (items_of probes.old.probes))
        (map (λ a. named a.name (state_of (a.probe.vtable, a.probe.value))) (items_of probes.new.probes)) result }
    ensures loads { CountsLoads (S.state shelf.old).faults.load_faults (S.state shelf.new).faults.load_faults result }
    ensures writes { CountsWrites (O.state out.old).faults (O.state out.new).faults result }
    ensures shelf_writes { CountsWrites (S.state shelf.old).faults.write_faults (S.state shelf.new).faults.write_faults result }
{
    let job = match load_job(alloc, shelf, &words.file, &words.journal) {
        Ok(job) => job,
        Err(refusal) => return status_of_refusal(refusal),
    };
    match prepare(alloc, job, words.entries) {
        Some(ready) => play(alloc, ready, words, shelf, out, probes),
        None => Status::NoMemory,
    }
}

/// The status of a board that isn't run.
pub(crate) fn status_of_refusal(refusal: Refusal) -> Status
    ensures { result ≡ status_of_refusal refusal }
{
    match refusal {
        Refusal::Usage => Status::Usage,
        Refusal::CannotRead { file } => Status::ReadFault { file },
        Refusal::BadBoard { code, place } => Status::BadBoard { code, place },
        Refusal::BadImage { core, code, at } => Status::BadImage { core, code, at },
        Refusal::BadInput { file, offset } => Status::BadInput { file, offset },
        Refusal::TooLong { file } => Status::TooLong { file },
        Refusal::NoMemory => Status::NoMemory,
    }
}

/// Takes all the memory that the run needs; `None` for want of it.
pub(crate) fn prepare(alloc: Global, job: Job, entries: u32) -> Option<Ready>
    requires new { AreNew job.board.cores (map any_state job.cores.items) }
    requires buildable { IsBuildable job.board }
    ensures file { IfSome result (λ r. r.outputs ≡ job.board) }
    ensures room { IfSome result (λ r. r.board.fabric.spare < 2 ^ 32) }
    ensures start { IfSome result (λ r. r.board ≡ exact_start job.board (map (λ core. (any_state core).view) job.cores.items) (record { links = job.inputs.links; uarts = job.inputs.uarts }) entries) }
{
    let Job {
        board: file,
        cores,
        inputs,
    } = job;
    let board = Board::build(alloc, &file, cores, inputs, entries as usize).ok()?;
    let outputs = Outputs::reserve(alloc, file, entries).ok()?;
    Some(Ready { board, outputs })
}

/// Runs a board and puts out what it gives.
fn play<S: Shelf, O: Sink>(
    alloc: Global,
    ready: Ready,
    words: &RunWords,
    shelf: &mut S,
    out: &mut O,
    probes: &mut ProbeSet,
) -> Status
    requires room { HaveRoom ready.board.fabric.spare (map (λ a. named a.name (state_of (a.probe.vtable, a.probe.value))) (items_of probes.old.probes)) }
    requires can { CanRun words.now.cycles ready.board }
    requires count { length ready.board.cores ≡ length ready.outputs.cores }
    ensures plays { Plays words.now ready.outputs ready.board (S.state shelf.old) (S.state shelf.new) (O.state out.old) (O.state out.new)
        (map (λ a. named a.name (state_of (a.probe.vtable, a.probe.value))) (items_of probes.old.probes))
        (map (λ a. named a.name (state_of (a.probe.vtable, a.probe.value))) (items_of probes.new.probes)) result }
{
    let mut ready = ready;
    let end = ready.board.run(words.cycles, probes);
    write_results(alloc, &mut ready, end, &words.journal, shelf, out)
}

/// Writes the files of a run that ended so, and then its report.
fn write_results<S: Shelf, O: Sink>(
    alloc: Global,
    ready: &mut Ready,
    end: RunEnd,
    journal: &Option<FileName>,
    shelf: &mut S,
    out: &mut O,
) -> Status
    requires count { length ready.old.board.cores ≡ length ready.old.outputs.cores }
    ensures puts { PutsOut journal.now ready.old.outputs ready.old.board end (S.state shelf.old) (S.state shelf.new) (O.state out.old) (O.state out.new) result }
{
    let Ready { board, outputs } = ready;
    match outputs.write(alloc, shelf, board.journal(), journal) {
        Ok(()) => print(alloc, outputs, board, end, out),
        Err(fault) => status_of_output(fault),
    }
}

/// The status of a file that isn't written.
fn status_of_output(fault: OutputFault) -> Status
    ensures { result ≡ status_of_output fault }
{
    match fault {
        OutputFault::Failed { file } => Status::WriteFault { file },
        OutputFault::NoMemory => Status::NoMemory,
    }
}

/// Prints the report of a run that ended so.
fn print<O: Sink>(
    alloc: Global,
    outputs: &mut Outputs,
    board: &Board<AnyCore>,
    end: RunEnd,
    out: &mut O,
) -> Status
    requires count { length board.now.cores ≡ length outputs.old.cores }
    ensures { Prints outputs.old board.now end (O.state out.old) (O.state out.new) result }
{
    let status = status_of(end);
    let ends = BoardEnds { board };
    match outputs.print_report(
        alloc,
        out,
        &ends,
        board.journal(),
        status.code(),
        board.number(),
    ) {
        Ok(()) => status,
        Err(StoreFault::Failed) => Status::WriteFault { file: output() },
        Err(StoreFault::NoMemory) => Status::NoMemory,
    }
}
