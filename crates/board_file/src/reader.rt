//! A board from the bytes of its file.
ghost use Rattle.std.specs.Prelude.{◌≡◌, true, Some, None, [], flat_map, IfOk, IfErr, OnOk};
ghost use Rattle.toml.specs.View.{table_view};
ghost use Rattle.board_file.specs.Board.{IsRead, IsRefusal, base_faults, faults, irq_faults, naming_faults, within_tables};
ghost use Rattle.board_file.specs.Bus.{below_faults, lone_faults, sum_faults};
ghost use Rattle.board_file.specs.Claims.{bases, controllers, core_claims, file_claims, gets, irqs, puts, twice_faults};
ghost use Rattle.board_file.specs.Faults.{least, least_after};
ghost use Rattle.board_file.specs.Rows.{board_of, board_with, core_row, event_row, intc_row, link_row, rows_by, timer_row, uart_row};
ghost use Rattle.board_file.specs.Rules.{table_faults, top_faults};
ghost use Rattle.board_file.specs.Tree.{IsTomlOf, are_ascending, rows_in};
ghost use Rattle.board_file.specs.declared.keys.Rows.{Rows};

use crate::board::BoardFile;
use crate::bus::{check_bases, check_lone_irqs, check_sum};
use crate::claims::{
    check_claims, claims_on_cores, claims_on_files, core_controllers, device_bases, device_irqs,
    get_ports, put_ports,
};
use crate::fault::{BoardFault, BoardRule, Fault};
use crate::keys::{Rows, all_tables};
use crate::list::RowList;
use crate::rows::{read_rows, turn_of};
use crate::rules::{check_table, check_top, requested_network, version_of};
use host_io::{NoMemory, Place};
use std::alloc::Global;
use toml::Table;

fn parse(alloc: Global, file: &[u8]) -> Result<Table, BoardFault>
    ensures ok { IfOk result (λ t. IsTomlOf file.now (table_view t)) }
    ensures err { IfErr result (IsRefusal file.now) }
{
    match toml::table_from_slice(alloc, file) {
        Ok(table) => Ok(table),
        Err(error) => {
            if error.is_memory() {
                return Err(BoardFault::NoMemory);
            }
            Err(BoardFault::Refused {
                code: BoardRule::NotToml.code(),
                place: Place::from_bytes(b""),
            })
        }
    }
}

/// Offers the faults of the file's own keys, and those that stand in one table.
#[tactic(auto, unfolding(crate::specs::Board::within_tables))]
fn check_tables(root: &Table, best: &mut Option<Fault>)
    ensures { best.new ≡ least_after best.old (within_tables (table_view root.now)) }
{
    check_top(root, best);
    check_each_table(root, all_tables(), best);
}

fn check_each_table(root: &Table, tables: &[Rows], best: &mut Option<Fault>)
    ensures { best.new ≡ least_after best.old (flat_map (table_faults (table_view root.now)) tables.now) }
{
    for table in tables {
        check_table(root, *table, best);
    }
}

/// Offers the faults of two rows that name one file or one port.
#[tactic(auto, unfolding(crate::specs::Board::naming_faults))]
fn check_names(alloc: Global, root: &Table, best: &mut Option<Fault>) -> Result<(), NoMemory>
    ensures { OnOk result (best.new ≡ least_after best.old (naming_faults (table_view root.now))) }
{
    let files = claims_on_files(alloc, root)?;
    check_claims(BoardRule::FileTwice, &files, best);
    let puts = claims_on_cores(alloc, root, put_ports())?;
    check_claims(BoardRule::PortTwice, &puts, best);
    let gets = claims_on_cores(alloc, root, get_ports())?;
    check_claims(BoardRule::PortTwice, &gets, best);
    Ok(())
}

/// Offers the faults of the addresses of devices.
#[tactic(auto, unfolding(crate::specs::Board::base_faults))]
fn check_addresses(alloc: Global, root: &Table, best: &mut Option<Fault>) -> Result<(), NoMemory>
    ensures { OnOk result (best.new ≡ least_after best.old (base_faults (table_view root.now))) }
{
    let claims = claims_on_cores(alloc, root, device_bases())?;
    check_claims(BoardRule::BadBase, &claims, best);
    check_bases(root, &claims, best);
    Ok(())
}

/// Offers the faults of interrupt controllers and of their inputs.
#[tactic(auto, unfolding(crate::specs::Board::irq_faults))]
fn check_irqs(alloc: Global, root: &Table, best: &mut Option<Fault>) -> Result<(), NoMemory>
    ensures { OnOk result (best.new ≡ least_after best.old (irq_faults (table_view root.now))) }
{
    let controllers = claims_on_cores(alloc, root, core_controllers())?;
    check_claims(BoardRule::InterruptTwice, &controllers, best);
    let irqs = claims_on_cores(alloc, root, device_irqs())?;
    check_claims(BoardRule::InterruptTwice, &irqs, best);
    check_lone_irqs(&controllers, &irqs, best);
    Ok(())
}

/// The least fault of a tree.
#[tactic(auto, unfolding(crate::specs::Board::faults))]
fn least_fault(alloc: Global, root: &Table) -> Result<Option<Fault>, NoMemory>
    ensures { IfOk result (λ found. found ≡ least (faults (table_view root.now))) }
{
    let mut best = None;
    check_tables(root, &mut best);
    check_names(alloc, root, &mut best)?;
    check_addresses(alloc, root, &mut best)?;
    check_irqs(alloc, root, &mut best)?;
    check_sum(root, &mut best);
    Ok(best)
}

/// The board of a tree.
#[tactic(auto, unfolding(crate::specs::Rows::board_of), using(crate::proofs::Ascending::each_ascends))]
fn make_board(alloc: Global, root: &Table) -> Result<BoardFile, NoMemory>
    ensures ascends { IfOk result (λ _. (r : Rows) → are_ascending (rows_in (table_view root.now) r) ≡ true) }
    ensures board { IfOk result (λ board. board ≡ board_of (table_view root.now)) }
{
    let cores = read_rows(alloc, root, Rows::Core, &[])?;
    let links = read_rows(alloc, root, Rows::Link, &cores)?;
    let timers = read_rows(alloc, root, Rows::Timer, &cores)?;
    let intcs = read_rows(alloc, root, Rows::Intc, &cores)?;
    let uarts = read_rows(alloc, root, Rows::Uart, &cores)?;
    let events = read_rows(alloc, root, Rows::Event, &cores)?;
    Ok(BoardFile {
        version: version_of(root),
        turn: turn_of(root),
        network: requested_network(root),
        cores: RowList::from_vec(cores),
        links: RowList::from_vec(links),
        timers: RowList::from_vec(timers),
        intcs: RowList::from_vec(intcs),
        uarts: RowList::from_vec(uarts),
        events: RowList::from_vec(events),
    })
}

/// Reads a board file, or answers the least code that has a fault with the first place of that code in byte order.
///
/// # Errors
///
/// 601 for bytes that are no TOML, 602 to 620 for a fault of the tree, and want of memory.
pub fn read_board(alloc: Global, file: &[u8]) -> Result<BoardFile, BoardFault>
    ensures ok { IfOk result (IsRead file.now) }
    ensures err { IfErr result (IsRefusal file.now) }
{
    let root = parse(alloc, file)?;
    if let Some(fault) = least_fault(alloc, &root)? {
        return Err(fault.refusal());
    }
    let board = make_board(alloc, &root)?;
    Ok(board)
}
