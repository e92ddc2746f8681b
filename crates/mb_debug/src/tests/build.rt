//! Boards of plain cores without devices, and scripts that are done on them.
ghost use Rattle.std.specs.Prelude.{◌≡◌, ◌≤◌, ◌<◌, ◌^◌, ℕ, IfOk, IsTrue, Some, map, slice_get};
ghost use Rattle.board_run.specs.Boards.{AreNew, IsBuildable, IsNew};
ghost use Rattle.core_iface.specs.Plain.{plain_state};
ghost use Rattle.exact_machine.specs.Stepping.{CanRun};
ghost use Rattle.probe_set.specs.Sets.{HaveRoom, items_of, named};

use crate::{Names, ScriptEnd, ScriptNames, SymbolLists, read_script, run_script};
use board_file::{
    BoardFile, CoreRow, Cores, End, Events, Intcs, LinkRow, Links, Pipeline, Timers, Turn, Uarts,
};
use board_run::{Board, Inputs, RunEnd};
use byte_mem::Memory;
use core_iface::PlainCore;
use core_regs::{Arch, Order};
use host_io::{Blob, Blobs, FileName, Name, Sink};
use probe_set::{Attached, Probe, ProbeSet};
use std::alloc::Global;
use std::test::Fail;

/// Where a link begins or ends.
#[derive(Clone, Copy)]
pub(super) enum At {
    Port(u16, u8),
    File,
}

/// A board of plain cores and links of depth 1, how far it may run, and the room of its journal.
#[derive(Clone, Copy)]
pub(super) struct Setup<'a> {
    pub(super) core_names: &'a [&'a str],
    /// The words of each core from address 0 on.
    pub(super) cores: &'a [&'a [u32]],
    pub(super) link_names: &'a [&'a str],
    pub(super) links: &'a [(At, At)],
    /// The content of the input file of a link.
    pub(super) input: &'a [u8],
    pub(super) limit: u32,
    pub(super) entries: u32,
}

pub(super) fn name(text: &str) -> Result<Name, Fail> {
    Ok(Name::from_text(text).ok_or("a name")?)
}

fn file_name() -> Result<FileName, Fail> {
    Ok(FileName::from_text("file").ok_or("a file name")?)
}

fn end(at: At) -> Result<End, Fail> {
    Ok(match at {
        At::Port(core, port) => End::Port { core, port },
        At::File => End::File(file_name()?),
    })
}

fn core_rows(alloc: Global, names: &[&str]) -> Result<Vec<CoreRow>, Fail> {
    let mut rows = Vec::new(alloc);
    for text in names {
        rows.push(CoreRow {
            name: name(text)?,
            image: file_name()?,
            pipeline: Pipeline::Plain,
            clock: 1,
            memory: 4_096,
        })?;
    }
    Ok(rows)
}

fn link_rows(alloc: Global, links: &[(At, At)]) -> Result<Vec<LinkRow>, Fail> {
    let mut rows = Vec::new(alloc);
    for (from, to) in links {
        rows.push(LinkRow {
            name: name("l")?,
            depth: 1,
            from: end(*from)?,
            to: end(*to)?,
        })?;
    }
    Ok(rows)
}

fn file_of(alloc: Global, setup: &Setup<'_>) -> Result<BoardFile, Fail> {
    Ok(BoardFile {
        version: 1,
        turn: Turn::Ascending,
        network: false,
        cores: Cores::from_vec(core_rows(alloc, setup.core_names)?),
        links: Links::from_vec(link_rows(alloc, setup.links)?),
        timers: Timers::from_vec(Vec::new(alloc)),
        intcs: Intcs::from_vec(Vec::new(alloc)),
        uarts: Uarts::from_vec(Vec::new(alloc)),
        events: Events::from_vec(Vec::new(alloc)),
    })
}

/// Whether each core has a clock that divides numbers.
fn has_clocks(rows: &[CoreRow]) -> bool
    ensures { IsTrue result → (k : _) (row : _) → slice_get rows.now k ≡ Some row → 1 ≤ row.clock }
{
    rows.iter().all(|row| row.clock >= 1)
}

/// Whether each link has a depth in its range.
fn has_depths(rows: &[LinkRow]) -> bool
    ensures { IsTrue result → (k : _) (row : _) → slice_get rows.now k ≡ Some row → (1 ≤ row.depth) × (row.depth ≤ 4096) }
{
    rows.iter().all(|row| row.depth >= 1 && row.depth <= 4_096)
}

/// Whether a board without devices can be built of a file.
fn is_buildable(file: &BoardFile) -> bool
    ensures { IsTrue result → IsBuildable file.now }
{
    if file.cores.len() > 64 || file.links.len() > 256 {
        return false;
    }
    if file.timers.len() > 0 || file.intcs.len() > 0 || file.uarts.len() > 0 {
        return false;
    }
    if !has_clocks(file.cores.as_slice()) {
        return false;
    }
    has_depths(file.links.as_slice())
}

/// A memory that begins with these words.
fn memory_with(alloc: Global, words: &[u32]) -> Result<Memory, Fail> {
    let mut bytes = Vec::new(alloc);
    for word in words {
        bytes.extend_from_slice(&word.to_be_bytes())?;
    }
    let mut memory = Memory::new(alloc, 4_096).ok().ok_or("no memory")?;
    memory
        .fill(0, bytes.as_slice())
        .ok()
        .ok_or("too many words")?;
    Ok(memory)
}

/// A new core of a row.
#[tactic(auto, using(board_run::proofs::Built::made_is_new))]
fn new_core(alloc: Global, row: &CoreRow, words: &[u32]) -> Result<PlainCore, Fail>
    ensures { IfOk result (λ c. IsNew row.now (plain_state c)) }
{
    if row.pipeline != Pipeline::Plain {
        return Err("another pipeline".into());
    }
    let memory = memory_with(alloc, words)?;
    Ok(PlainCore::new(memory, Arch::fresh(0, Order::Big, false)))
}

/// A new core for each row.
fn new_cores(alloc: Global, rows: &[CoreRow], words: &[&[u32]]) -> Result<Vec<PlainCore>, Fail>
    ensures { IfOk result (λ v. AreNew rows.now (map (λ c. plain_state c) v.items)) }
{
    let mut cores = Vec::new(alloc);
    for row in rows {
        let words = words.get(cores.len()).ok_or("no words")?;
        cores.push(new_core(alloc, row, words)?)?;
    }
    Ok(cores)
}

/// The content of the input files of a board.
fn inputs(alloc: Global, setup: &Setup<'_>) -> Result<Inputs, Fail> {
    let mut blobs = Vec::new(alloc);
    blobs.push(Blob::from_vec(Vec::from_slice(alloc, setup.input)?))?;
    Ok(Inputs {
        links: Blobs::from_vec(blobs),
        uarts: Blobs::from_vec(Vec::new(alloc)),
    })
}

/// The board at its beginning.
fn built(alloc: Global, setup: &Setup<'_>) -> Result<Board<PlainCore>, Fail>
    ensures can { IfOk result (λ b. CanRun setup.now.limit b) }
    ensures room { IfOk result (λ b. b.fabric.spare < 2 ^ 32) }
{
    if setup.limit > 1_000_000 {
        return Err("too many cycles".into());
    }
    let file = file_of(alloc, setup)?;
    if !is_buildable(&file) {
        return Err("not buildable".into());
    }
    let cores = new_cores(alloc, file.cores.as_slice(), setup.cores)?;
    let inputs = inputs(alloc, setup)?;
    match Board::build(alloc, &file, cores, inputs, setup.entries as usize) {
        Ok(board) => Ok(board),
        Err(_) => Err("no board".into()),
    }
}

pub(super) fn names_of(alloc: Global, texts: &[&str]) -> Result<Names, Fail> {
    let mut names = Vec::new(alloc);
    for text in texts {
        names.push(name(text)?)?;
    }
    Ok(Names::from_vec(names))
}

fn attached_names(alloc: Global, probes: &ProbeSet) -> Result<Names, Fail> {
    let mut names = Vec::new(alloc);
    for one in probes.attached() {
        names.push(one.name.copied())?;
    }
    Ok(Names::from_vec(names))
}

/// The names that a script may use on a board with probes of these names. Its images have no symbols.
pub(super) fn script_names(
    alloc: Global,
    setup: &Setup<'_>,
    probes: Names,
) -> Result<ScriptNames, Fail> {
    Ok(ScriptNames {
        cores: names_of(alloc, setup.core_names)?,
        links: names_of(alloc, setup.link_names)?,
        uarts: names_of(alloc, &[])?,
        probes,
        symbols: SymbolLists::from_vec(Vec::new(alloc)),
    })
}

fn count_of(one: &Attached) -> u64
    ensures { result ≡ (state_of (one.now.probe.vtable, one.now.probe.value)).count }
{
    one.probe.state().count
}

/// Whether no probe has counted far.
fn are_young(probes: &ProbeSet) -> bool
    ensures { IsTrue result → (n : ℕ) → n < 2 ^ 32
        → HaveRoom n (map (λ a. named a.name (state_of (a.probe.vtable, a.probe.value))) (items_of probes.now.probes)) }
{
    for one in probes.attached() {
        if count_of(one) > 1 << 32 {
            return false;
        }
    }
    true
}

/// Does a script on a new board: how it ended, and the cycle at which the board then stands.
pub(super) fn done<O: Sink>(
    alloc: Global,
    setup: &Setup<'_>,
    script: &str,
    probes: &mut ProbeSet,
    out: &mut O,
) -> Result<(Result<RunEnd, ScriptEnd>, u64), Fail> {
    let names = script_names(alloc, setup, attached_names(alloc, probes)?)?;
    if script.len() > 1_048_576 || !are_young(probes) {
        return Err("too much".into());
    }
    let script = read_script(alloc, script.as_bytes(), &names).map_err(|_| "a script")?;
    let mut board = built(alloc, setup)?;
    let limit = u64::from(setup.limit);
    let end = run_script(alloc, &script, &mut board, &names, limit, probes, out);
    let number = board.number();
    Ok((end, number))
}
