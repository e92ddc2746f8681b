//! `raw`: a flat image on a board of one plain core, whose port 0 leads to the output.
ghost use Rattle.std.specs.Prelude.{◌≡◌, ◌≤◌, ◌∷◌, [], IfErr, IfNone, IfOk, IfSome, OnErr, OnOk, codes, length, map};
ghost use Rattle.board_run.specs.Runs.{IsRunOf};
ghost use Rattle.mb_sim.specs.Raw.{memory_of, no_inputs, raw_board, raw_core, raw_link, raw_start, raw_view};
ghost use Rattle.mb_sim.specs.Top.{CountsLoads, CountsWrites, HasRunTo, Refuses, Says};
ghost use Rattle.mb_sim.specs.Probes.{AreYoung, TellsProbes};
ghost use Rattle.probe_set.specs.Sets.{items_of, named};

use crate::print::print_items;
use crate::runs::status_of;
use crate::status::Status;
use any_core::AnyCore;
use board_file::{
    BoardFile, CoreRow, Cores, End, Events, Intcs, LinkRow, Links, Pipeline, Timers, Turn, Uarts,
};
use board_run::{Board, Inputs, RunEnd};
use byte_mem::Memory;
use core_regs::{Arch, Order};
use host_io::{Blobs, FileName, LoadFault, Name, Shelf, Sink, StoreFault};
use probe_set::ProbeSet;
use std::alloc::Global;
use timing_law::Pipe;

/// The bytes of the core's memory.
const MEMORY: usize = 65_536;

/// The room for journal entries.
const ENTRIES: usize = 1_048_576;

/// A run that ended.
#[derive(Drop)]
struct Ran {
    end: RunEnd,
    board: Board<AnyCore>,
}

/// Runs a file as an image at 0, and prints the items that left.
pub fn raw<S: Shelf, O: Sink>(
    alloc: Global,
    file: &FileName,
    cycles: u64,
    shelf: &mut S,
    out: &mut O,
    probes: &mut ProbeSet,
) -> Status
    requires young { AreYoung (map (λ a. named a.name (state_of (a.probe.vtable, a.probe.value))) (items_of probes.old.probes)) }
    requires few { cycles ≤ 1_000_000_000_000 }
    ensures says { Says (record { file = file.now; cycles = cycles }) (S.state shelf.old) (S.state shelf.new) (O.state out.old) (O.state out.new)
        (map (λ a. named a.name (state_of (a.probe.vtable, a.probe.value))) (items_of probes.old.probes))
        (map (λ a. named a.name (state_of (a.probe.vtable, a.probe.value))) (items_of probes.new.probes)) result }
    ensures loads { CountsLoads (S.state shelf.old).faults.load_faults (S.state shelf.new).faults.load_faults result }
    ensures writes { CountsWrites (O.state out.old).faults (O.state out.new).faults result }
    ensures files { (S.state shelf.new).files ≡ (S.state shelf.old).files }
    ensures shelf_writes { (S.state shelf.new).faults.write_faults ≡ (S.state shelf.old).faults.write_faults }
{
    let ran = match run_file(alloc, file, cycles, shelf, probes) {
        Ok(ran) => ran,
        Err(status) => return status,
    };
    match print_items(alloc, out, ran.board.journal()) {
        Ok(()) => status_of(ran.end),
        Err(StoreFault::Failed) => Status::WriteFault { file: output() },
        Err(StoreFault::NoMemory) => Status::NoMemory,
    }
}

/// Runs a file as an image at 0; the status where there is no such run.
fn run_file<S: Shelf>(
    alloc: Global,
    file: &FileName,
    cycles: u64,
    shelf: &mut S,
    probes: &mut ProbeSet,
) -> Result<Ran, Status>
    requires young { AreYoung (map (λ a. named a.name (state_of (a.probe.vtable, a.probe.value))) (items_of probes.old.probes)) }
    requires few { cycles ≤ 1_000_000_000_000 }
    ensures ok { IfOk result (λ ran. HasRunTo (record { file = file.now; cycles = cycles }) (S.state shelf.old)
        (map (λ a. named a.name (state_of (a.probe.vtable, a.probe.value))) (items_of probes.old.probes))
        (map (λ a. named a.name (state_of (a.probe.vtable, a.probe.value))) (items_of probes.new.probes)) ran.end ran.board) }
    ensures refused { IfErr result (λ status. Refuses (record { file = file.now; cycles = cycles }) (S.state shelf.old) (S.state shelf.new) status) }
    ensures untold { OnErr result (map (λ a. named a.name (state_of (a.probe.vtable, a.probe.value))) (items_of probes.new.probes)
        ≡ map (λ a. named a.name (state_of (a.probe.vtable, a.probe.value))) (items_of probes.old.probes)) }
    ensures loads { OnOk result ((S.state shelf.new).faults ≡ (S.state shelf.old).faults) }
    ensures failed { IfErr result (λ status.
        CountsLoads (S.state shelf.old).faults.load_faults (S.state shelf.new).faults.load_faults status) }
    ensures files { (S.state shelf.new).files ≡ (S.state shelf.old).files }
    ensures shelf_writes { (S.state shelf.new).faults.write_faults ≡ (S.state shelf.old).faults.write_faults }
{
    let image = match shelf.load(alloc, file.as_text(), MEMORY) {
        Ok(image) => image,
        Err(LoadFault::TooLong) => return Err(Status::TooLong {
            file: file.copied(),
        }),
        Err(LoadFault::Failed) => return Err(Status::ReadFault {
            file: file.copied(),
        }),
        Err(LoadFault::NoMemory) => return Err(Status::NoMemory),
    };
    match run_image(alloc, file, image.as_slice(), cycles, probes) {
        Some(ran) => Ok(ran),
        None => Err(Status::NoMemory),
    }
}

/// Runs an image at 0; `None` for want of memory.
fn run_image(
    alloc: Global,
    file: &FileName,
    image: &[u8],
    cycles: u64,
    probes: &mut ProbeSet,
) -> Option<Ran>
    requires young { AreYoung (map (λ a. named a.name (state_of (a.probe.vtable, a.probe.value))) (items_of probes.old.probes)) }
    requires fits { length image.now ≤ 65_536 }
    requires few { cycles ≤ 1_000_000_000_000 }
    ensures ran { IfSome result (λ ran. IsRunOf (raw_board file.now) (raw_view image.now ∷ []) no_inputs 1_048_576 cycles ran.board ran.end) }
    ensures tells { IfSome result (λ ran. TellsProbes ran.board
        (map (λ a. named a.name (state_of (a.probe.vtable, a.probe.value))) (items_of probes.old.probes))
        (map (λ a. named a.name (state_of (a.probe.vtable, a.probe.value))) (items_of probes.new.probes))) }
    ensures untold { IfNone result (map (λ a. named a.name (state_of (a.probe.vtable, a.probe.value))) (items_of probes.new.probes)
        ≡ map (λ a. named a.name (state_of (a.probe.vtable, a.probe.value))) (items_of probes.old.probes)) }
{
    let mut board = board_with(alloc, file, image)?;
    let end = board.run(cycles, probes);
    Some(Ran { end, board })
}

/// The board with an image before its first event; `None` for want of memory.
fn board_with(alloc: Global, file: &FileName, image: &[u8]) -> Option<Board<AnyCore>>
    requires fits { length image.now ≤ 65_536 }
    ensures { IfSome result (λ b. b ≡ raw_start file.now image.now) }
{
    let memory = memory_with(alloc, image)?;
    let mut cores = Vec::new(alloc);
    cores
        .push(AnyCore::new(Pipe::Plain, memory, Arch::fresh(0, Order::Big, false)))
        .ok()?;
    let inputs = Inputs {
        links: Blobs::from_vec(Vec::new(alloc)),
        uarts: Blobs::from_vec(Vec::new(alloc)),
    };
    Board::build(alloc, &raw_board(alloc, file)?, cores, inputs, ENTRIES).ok()
}

/// A memory that begins with these bytes, and zeros behind them; `None` for want of memory.
fn memory_with(alloc: Global, image: &[u8]) -> Option<Memory>
    requires { length image.now ≤ 65_536 }
    ensures { IfSome result (λ memory. memory ≡ memory_of image.now) }
{
    let Ok(mut memory) = Memory::new(alloc, MEMORY as u64) else {
        return None;
    };
    let Ok(()) = memory.fill(0, image) else {
        return None;
    };
    Some(memory)
}

/// The board's core.
fn raw_core(file: &FileName) -> CoreRow
    ensures { result ≡ raw_core file.now }
{
    CoreRow {
        name: Name::from_text("raw").unwrap(),
        image: file.copied(),
        pipeline: Pipeline::Plain,
        clock: 1,
        memory: MEMORY as u32,
    }
}

/// The board's link.
fn raw_link() -> LinkRow
    ensures { result ≡ raw_link }
{
    LinkRow {
        name: Name::from_text("out").unwrap(),
        depth: 16,
        from: End::Port { core: 0, port: 0 },
        to: End::File(output()),
    }
}

/// The board; `None` for want of memory.
fn raw_board(alloc: Global, file: &FileName) -> Option<BoardFile>
    ensures { IfSome result (λ b. b ≡ raw_board file.now) }
{
    let mut cores = Vec::new(alloc);
    cores.push(raw_core(file)).ok()?;
    let mut links = Vec::new(alloc);
    links.push(raw_link()).ok()?;
    Some(BoardFile {
        version: 1,
        turn: Turn::Ascending,
        network: false,
        cores: Cores::from_vec(cores),
        links: Links::from_vec(links),
        timers: Timers::from_vec(Vec::new(alloc)),
        intcs: Intcs::from_vec(Vec::new(alloc)),
        uarts: Uarts::from_vec(Vec::new(alloc)),
        events: Events::from_vec(Vec::new(alloc)),
    })
}

/// The name by which the output stream is told.
pub fn output() -> FileName
    ensures { result ≡ codes "output" }
{
    FileName::from_text("output").unwrap()
}
