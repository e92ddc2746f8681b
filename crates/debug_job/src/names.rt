//! The names of a board and of its probes.
ghost use Rattle.std.specs.Prelude.{◌≡◌, IfOk, map};
ghost use Rattle.debug_job.specs.Names.{names_of};
ghost use Rattle.probe_set.specs.Sets.{items_of};

use board_file::{BoardFile, CoreRow, LinkRow, UartRow};
use debug_script::{Names, ScriptNames, SymbolLists};
use elf_image::Symbols;
use host_io::{Name, NoMemory};
use probe_set::{Attached, ProbeSet};
use std::alloc::{AllocError, Global};

fn core_names(alloc: Global, rows: &[CoreRow]) -> Result<Vec<Name>, AllocError>
    ensures { IfOk result (λ names. names.items ≡ map (λ row. row.name) rows.now) }
{
    rows.iter().map(|row| row.name.copied()).collect(alloc)
}

fn link_names(alloc: Global, rows: &[LinkRow]) -> Result<Vec<Name>, AllocError>
    ensures { IfOk result (λ names. names.items ≡ map (λ row. row.name) rows.now) }
{
    rows.iter().map(|row| row.name.copied()).collect(alloc)
}

fn uart_names(alloc: Global, rows: &[UartRow]) -> Result<Vec<Name>, AllocError>
    ensures { IfOk result (λ names. names.items ≡ map (λ row. row.name) rows.now) }
{
    rows.iter().map(|row| row.name.copied()).collect(alloc)
}

fn probe_names(alloc: Global, attached: &[Attached]) -> Result<Vec<Name>, NoMemory>
    ensures { IfOk result (λ names. names.items ≡ map (λ probe. probe.name) attached.now) }
{
    let mut names = Vec::new(alloc);
    for probe in attached {
        names.push(probe.name.copied())?;
    }
    Ok(names)
}

/// What a script may name: the cores, links and UARTs of a board in its order, the probes of a set in order of attachment, and the
/// symbols of each core's image, a list for each core in board order. `NoMemory` is only for want of memory.
pub fn script_names(
    alloc: Global,
    board: &BoardFile,
    symbols: Vec<Symbols>,
    probes: &ProbeSet,
) -> Result<ScriptNames, NoMemory>
    ensures { IfOk result (λ names. names ≡ names_of board.now symbols.items (map (λ a. a.name) (items_of probes.now.probes))) }
{
    Ok(ScriptNames {
        cores: Names::from_vec(core_names(alloc, board.cores.as_slice())?),
        links: Names::from_vec(link_names(alloc, board.links.as_slice())?),
        uarts: Names::from_vec(uart_names(alloc, board.uarts.as_slice())?),
        probes: Names::from_vec(probe_names(alloc, probes.attached())?),
        symbols: SymbolLists::from_vec(symbols),
    })
}
