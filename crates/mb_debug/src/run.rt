//! Scripts on a board.
ghost use Rattle.std.specs.Prelude.{◌≡◌, [], ⊤, IfOk, List, OnErr, OnOk, map};
ghost use Rattle.exact_machine.specs.Stepping.{CanRun};
ghost use Rattle.mb_debug.specs.Breaks.{place_of};
ghost use Rattle.mb_debug.specs.Prints.{said};
ghost use Rattle.mb_debug.specs.Scenes.{scene};
ghost use Rattle.mb_debug.specs.Scripts.{ByCycles, Does, DoesOne, Ran, last_end, session};
ghost use Rattle.mb_debug.specs.Scripts.{end_of_write};
ghost use Rattle.mb_debug.specs.declared.breaks.Place.{Place};
ghost use Rattle.mb_debug.specs.declared.run.ScriptEnd.TheVariants.{NoMemory as NoMemoryToGoOn};
ghost use Rattle.probe_set.specs.Sets.{HaveRoom, items_of, named};

use crate::board_texts::{add, add_cores, add_links, add_mem, add_regs};
use crate::breaks::{self, Breakpoint};
use crate::lines::{cycle_line, dropped_line};
use crate::moves::{run, step};
use crate::probe_texts::{add_kinds, add_probe};
use board_machine::RunEnd;
use board_run::Board;
use core_iface::Core;
use debug_script::{Command, Script, ScriptNames};
use host_io::{NoMemory, Sink, StoreFault};
use probe_set::{Probe, ProbeSet};
use std::alloc::Global;

/// Why a script was not done to its end.
#[derive(Clone, Copy, Debug, PartialEq, Eq)]
pub enum ScriptEnd {
    /// A write failed.
    WriteFault,
    /// There was no memory for a breakpoint or a text.
    NoMemory,
}

impl From<NoMemory> for ScriptEnd {
    ghost from_gives = { λ _ end. end ≡ NoMemoryToGoOn };

    fn from(_error: NoMemory) -> Self {
        ScriptEnd::NoMemory
    }
}

impl From<StoreFault> for ScriptEnd {
    ghost from_gives = { λ fault end. end ≡ end_of_write fault };

    fn from(fault: StoreFault) -> Self {
        match fault {
            StoreFault::Failed => ScriptEnd::WriteFault,
            StoreFault::NoMemory => ScriptEnd::NoMemory,
        }
    }
}

/// What a command prints, of the board and the probes that it leaves.
fn text_of<C: Core>(
    alloc: Global,
    command: &Command,
    board: &Board<C>,
    names: &ScriptNames,
    probes: &ProbeSet,
) -> Result<Vec<u8>, NoMemory>
    ensures { IfOk result (λ text. text.items ≡ said names.now command.now
        (scene board.now (map (λ a. named a.name (state_of (a.probe.vtable, a.probe.value))) (items_of probes.now.probes)))) }
{
    let mut text = Vec::new(alloc);
    match command {
        Command::Break { .. } => {}
        Command::Step { .. } => add(&mut text, cycle_line(board.number()).as_bytes())?,
        Command::Run { .. } => add(&mut text, cycle_line(board.number()).as_bytes())?,
        Command::Regs { core } => add_regs(&mut text, board, *core)?,
        Command::Mem { core, addr, count } => add_mem(&mut text, board, *core, *addr, *count)?,
        Command::Links => add_links(&mut text, board, names)?,
        Command::Where => add_cores(&mut text, board, names)?,
        Command::Probe { name } => add_probe(&mut text, names, &probes.state(name))?,
        Command::Detach { name } => add(&mut text, dropped_line(name).as_bytes())?,
        Command::Probes => add_kinds(&mut text, probes)?,
    }
    Ok(text)
}

/// Does a command: `step` and `run` alone move the board. Only a breakpoint takes memory.
fn dispatch<C: Core>(
    command: &Command,
    board: &mut Board<C>,
    breaks: &mut Vec<Breakpoint>,
    limit: u64,
    probes: &mut ProbeSet,
) -> Result<(), NoMemory>
    requires can { CanRun limit board.old }
    requires room { HaveRoom board.old.fabric.spare (map (λ a. named a.name (state_of (a.probe.vtable, a.probe.value))) (items_of probes.old.probes)) }
    ensures ok { OnOk result (Does limit command.now
        (session board.old (map (λ a. named a.name (state_of (a.probe.vtable, a.probe.value))) (items_of probes.old.probes)) (map place_of breaks.old.items))
        (session board.new (map (λ a. named a.name (state_of (a.probe.vtable, a.probe.value))) (items_of probes.new.probes)) (map place_of breaks.new.items))) }
    ensures err { OnErr result (
        session board.new (map (λ a. named a.name (state_of (a.probe.vtable, a.probe.value))) (items_of probes.new.probes)) (map place_of breaks.new.items)
        ≡ session board.old (map (λ a. named a.name (state_of (a.probe.vtable, a.probe.value))) (items_of probes.old.probes)) (map place_of breaks.old.items)) }
{
    match command {
        Command::Break { core, addr } => breaks::add(breaks, *core, *addr),
        Command::Step { cycles } => {
            step(board, limit, *cycles, probes);
            Ok(())
        }
        Command::Run { cycles } => {
            run(board, limit, *cycles, breaks.as_mut_slice(), probes);
            Ok(())
        }
        Command::Detach { name } => {
            let _was = probes.detach(name);
            Ok(())
        }
        Command::Regs { .. } => Ok(()),
        Command::Mem { .. } => Ok(()),
        Command::Links => Ok(()),
        Command::Where => Ok(()),
        Command::Probe { .. } => Ok(()),
        Command::Probes => Ok(()),
    }
}

/// Does a command, and writes what it prints.
fn do_one<C: Core, O: Sink>(
    alloc: Global,
    command: &Command,
    board: &mut Board<C>,
    breaks: &mut Vec<Breakpoint>,
    names: &ScriptNames,
    limit: u64,
    probes: &mut ProbeSet,
    out: &mut O,
) -> Result<(), ScriptEnd>
    requires can { CanRun limit board.old }
    requires room { HaveRoom board.old.fabric.spare (map (λ a. named a.name (state_of (a.probe.vtable, a.probe.value))) (items_of probes.old.probes)) }
    ensures { DoesOne names.now limit command.now
        (session board.old (map (λ a. named a.name (state_of (a.probe.vtable, a.probe.value))) (items_of probes.old.probes)) (map place_of breaks.old.items))
        (session board.new (map (λ a. named a.name (state_of (a.probe.vtable, a.probe.value))) (items_of probes.new.probes)) (map place_of breaks.new.items))
        (O.state out.old) (O.state out.new) result }
{
    dispatch(command, board, breaks, limit, probes)?;
    let text = text_of(alloc, command, board, names, probes)?;
    out.write_all(alloc, text.as_slice())?;
    Ok(())
}

/// The end at which a board stands: rest, a full journal, or neither.
fn last_end<C: Core>(board: &Board<C>) -> RunEnd
    ensures { result ≡ last_end board.now }
{
    match board.still() {
        Some(rest) => RunEnd::Rest(rest),
        None => {
            if board.journal().spare() < board.need() {
                RunEnd::JournalFull
            } else {
                RunEnd::CyclesSpent
            }
        }
    }
}

/// Does the commands of a script in order. What a command prints is written before the next one begins.
///
/// `step` and `run` do at most the cycles up to the limit, and stop where the run ends: at rest, at the limit, or where the
/// journal is full. All other commands leave the board, and no command changes it but by cycles. `Ok` gives the board's
/// last end: rest, a full journal, or `CyclesSpent` where neither holds. After `WriteFault`, which comes only where the
/// sink's faults rose, and after `NoMemory` the first commands were done, and a prefix of their texts was written.
pub fn run_script<C: Core, O: Sink>(
    alloc: Global,
    s: &Script,
    b: &mut Board<C>,
    names: &ScriptNames,
    limit: u64,
    probes: &mut ProbeSet,
    out: &mut O,
) -> Result<RunEnd, ScriptEnd>
    requires can { CanRun limit b.old }
    requires room { HaveRoom b.old.fabric.spare (map (λ a. named a.name (state_of (a.probe.vtable, a.probe.value))) (items_of probes.old.probes)) }
    ensures ran { (places : List Place) × Ran names.now limit s.now
        (session b.old (map (λ a. named a.name (state_of (a.probe.vtable, a.probe.value))) (items_of probes.old.probes)) [])
        (session b.new (map (λ a. named a.name (state_of (a.probe.vtable, a.probe.value))) (items_of probes.new.probes)) places)
        (O.state out.old) (O.state out.new) result }
    ensures cycles { ByCycles b.old b.new }
{
    // it tells that each core has its clock
    let _ = b.entry_count();
    let mut breaks = Vec::new(alloc);
    for command in s.as_slice() {
        do_one(alloc, command, b, &mut breaks, names, limit, probes, out)?;
    }
    Ok(last_end(b))
}
