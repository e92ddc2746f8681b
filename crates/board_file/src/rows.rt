//! The rows of a board, from the tree of its file.
ghost use Rattle.std.specs.Prelude.{◌≡◌, ◌++◌, true, Some, None, Option, List, ℕ, option_and_then, option_map, option_to_list, position, unwrap_or, IfOk, OnOk};
ghost use Rattle.std.specs.Str.{bytes_eq};
ghost use Rattle.toml.specs.Data.{as_str, as_table, Members};
ghost use Rattle.toml.specs.View.{view, table_view};
ghost use Rattle.board_file.specs.Read.{break_in, file_at, name_of, number_at, only_if, pipeline_in, right, turn_in};
ghost use Rattle.board_file.specs.Rows.{core_at, core_made, core_row, device_clock, end_made, event_made, event_row, from_end, intc_made, intc_row, link_made, link_row, place_of, row_in, rows_by, small, timer_made, timer_row, to_end, turn_in_file, uart_made, uart_row};
ghost use Rattle.board_file.specs.Tree.{are_ascending, at_key, rows_in};
ghost use Rattle.board_file.specs.declared.board.CoreRow.{CoreRow};

use crate::board::{CoreRow, End, EventRow, IntcRow, LinkRow, Pipeline, TimerRow, Turn, UartRow};
use crate::keys::{Key, Quantity, Rows};
use crate::read::{board_name, file_found, number_found, read_break, read_pipeline, read_turn};
use crate::tree::{table_rows, value_at};
use host_io::{FileName, Name, NoMemory};
use std::alloc::Global;
use toml::{Table, Value};

/// A row of a board that is read from its table.
pub trait Row: Sized + Drop {
    /// The row of a name and its keys on a board of these cores, where they are right.
    ghost meaning: { List CoreRow → List ℕ → Members → Option Self };

    fn read(cores: &[CoreRow], name: &str, members: &Table) -> Option<Self>
        ensures { result ≡ meaning cores.now name.now (table_view members.now) };
}

fn add_row<R: Row>(rows: &mut Vec<R>, row: Option<R>) -> Result<(), NoMemory>
    ensures { OnOk result (rows.new.items ≡ rows.old.items ++ option_to_list row) }
{
    match row {
        Some(row) => rows.push(row)?,
        None => {}
    }
    Ok(())
}

fn add_row_of<R: Row>(
    cores: &[CoreRow],
    name: &str,
    value: &Value,
    rows: &mut Vec<R>,
) -> Result<(), NoMemory>
    ensures { OnOk result (rows.new.items ≡ rows.old.items ++ option_to_list (row_in (R.meaning cores.now) name.now (as_table (view value.now)))) }
{
    match value.as_table() {
        Some(members) => add_row(rows, R::read(cores, name, members)),
        None => Ok(()),
    }
}

#[tactic(auto, using(crate::proofs::Ascending::names_ascend))]
fn add_rows<R: Row>(cores: &[CoreRow], members: &Table, rows: &mut Vec<R>) -> Result<(), NoMemory>
    ensures ascending { are_ascending (table_view members.now) ≡ true }
    ensures rows { OnOk result (rows.new.items ≡ rows.old.items ++ rows_by (R.meaning cores.now) (table_view members.now)) }
{
    'members: for (name, value) in members.iter() {
        add_row_of(cores, name.as_str(), value, rows)?;
    }
    Ok(())
}

/// The rows of a table that are right, in ascending byte order of their names.
pub fn read_rows<R: Row>(
    alloc: Global,
    root: &Table,
    table: Rows,
    cores: &[CoreRow],
) -> Result<Vec<R>, NoMemory>
    ensures ascending { are_ascending (rows_in (table_view root.now) table) ≡ true }
    ensures rows { IfOk result (λ v. v.items ≡ rows_by (R.meaning cores.now) (rows_in (table_view root.now) table)) }
{
    let mut rows = Vec::new(alloc);
    match table_rows(root, table) {
        Some(members) => add_rows(cores, members, &mut rows)?,
        None => {}
    }
    Ok(rows)
}

fn position_of(cores: &[CoreRow], name: &str) -> Option<usize>
    ensures { result ≡ position (λ core. bytes_eq name.now core.name) cores.now }
{
    cores.iter().position(|core| name == core.name.as_text())
}

/// A core's place in the cores of the board.
fn place_of_core(cores: &[CoreRow], name: &str) -> Option<u16>
    ensures { result ≡ place_of cores.now name.now }
{
    match position_of(cores, name) {
        Some(place) => place_if_small(place),
        None => None,
    }
}

fn place_if_small(place: usize) -> Option<u16>
    ensures { result ≡ small place }
{
    if place < 65_536 {
        Some(place as u16)
    } else {
        None
    }
}

fn text_at<'a>(members: &'a Table, key: Key) -> Option<&'a str>
    ensures { option_map (λ s. s.now) result ≡ option_and_then as_str (at_key key (table_view members.now)) }
{
    match value_at(members, key) {
        Some(value) => value.as_str(),
        None => None,
    }
}

/// The place of the core that a key names.
#[tactic(auto, unfolding(crate::specs::Rows::core_at))]
fn core_found(cores: &[CoreRow], key: Key, members: &Table) -> Option<u16>
    ensures { result ≡ core_at cores.now key (table_view members.now) }
{
    match text_at(members, key) {
        Some(name) => place_of_core(cores, name),
        None => None,
    }
}

/// The pipeline of a core.
fn pipeline_found(members: &Table) -> Option<Pipeline>
    ensures { result ≡ right pipeline_in (at_key Key.Pipeline (table_view members.now)) }
{
    match value_at(members, Key::Pipeline) {
        Some(value) => read_pipeline(value).ok(),
        None => None,
    }
}

/// The clock of a core, or the turns of a UART, with a default.
#[tactic(auto, unfolding(crate::specs::Read::is_number))]
fn clock_found(members: &Table, key: Key, default: u32) -> u32
    ensures { result ≡ unwrap_or (number_at Quantity.Clock key (table_view members.now)) default }
{
    match number_found(Quantity::Clock, members, key) {
        Some(number) => number as u32,
        None => default,
    }
}

/// The clock of a device, or 1.
#[tactic(auto, unfolding(crate::specs::Rows::device_clock))]
fn device_clock_found(members: &Table) -> u32
    ensures { result ≡ device_clock (table_view members.now) }
{
    clock_found(members, Key::Clock, 1)
}

/// The bytes of a core's memory, or 65,536.
#[tactic(auto, unfolding(crate::specs::Read::is_number))]
fn memory_found(members: &Table) -> u32
    ensures { result ≡ unwrap_or (number_at Quantity.Memory Key.Memory (table_view members.now)) 65536 }
{
    match number_found(Quantity::Memory, members, Key::Memory) {
        Some(number) => number as u32,
        None => 65_536,
    }
}

/// The most items of a link, or 16.
#[tactic(auto, unfolding(crate::specs::Read::is_number))]
fn depth_found(members: &Table) -> u16
    ensures { result ≡ unwrap_or (number_at Quantity.Depth Key.Depth (table_view members.now)) 16 }
{
    match number_found(Quantity::Depth, members, Key::Depth) {
        Some(number) => number as u16,
        None => 16,
    }
}

/// The port of an end of a link.
#[tactic(auto, unfolding(crate::specs::Read::is_number))]
fn port_found(members: &Table, key: Key) -> Option<u8>
    ensures { result ≡ number_at Quantity.Port key (table_view members.now) }
{
    match number_found(Quantity::Port, members, key) {
        Some(number) => Some(number as u8),
        None => None,
    }
}

/// The input of an interrupt controller.
#[tactic(auto, unfolding(crate::specs::Read::is_number))]
fn irq_found(members: &Table) -> Option<u8>
    ensures { result ≡ number_at Quantity.Irq Key.Irq (table_view members.now) }
{
    match number_found(Quantity::Irq, members, Key::Irq) {
        Some(number) => Some(number as u8),
        None => None,
    }
}

/// The address of a device.
#[tactic(auto, unfolding(crate::specs::Read::is_number))]
fn base_found(members: &Table) -> Option<u32>
    ensures { result ≡ number_at Quantity.Base Key.Base (table_view members.now) }
{
    match number_found(Quantity::Base, members, Key::Base) {
        Some(number) => Some(number as u32),
        None => None,
    }
}

/// Whether a break is non-maskable.
fn break_found(members: &Table) -> Option<bool>
    ensures { result ≡ right break_in (at_key Key.Kind (table_view members.now)) }
{
    match value_at(members, Key::Kind) {
        Some(value) => read_break(value).ok(),
        None => None,
    }
}

fn core_of(
    name: Option<Name>,
    image: Option<FileName>,
    pipeline: Option<Pipeline>,
    clock: u32,
    memory: u32,
) -> Option<CoreRow>
    ensures { result ≡ core_made name image pipeline clock memory }
{
    Some(CoreRow {
        name: name?,
        image: image?,
        pipeline: pipeline?,
        clock,
        memory,
    })
}

impl Row for CoreRow {
    ghost use Rattle.board_file.specs.Rows.{core_row};

    ghost meaning = { core_row };

    #[tactic(auto, unfolding(crate::specs::Rows::core_row))]
    fn read(_cores: &[CoreRow], name: &str, members: &Table) -> Option<CoreRow> {
        core_of(
            board_name(name),
            file_found(members, Key::Image),
            pipeline_found(members),
            clock_found(members, Key::Clock, 1),
            memory_found(members),
        )
    }
}

fn end_of(core: Option<u16>, port: Option<u8>, file: Option<FileName>) -> Option<End>
    ensures { result ≡ end_made core port file }
{
    match file {
        Some(file) => Some(End::File(file)),
        None => Some(End::Port {
            core: core?,
            port: port?,
        }),
    }
}

/// The end of a link that puts items in.
#[tactic(auto, unfolding(crate::specs::Rows::from_end))]
fn from_found(cores: &[CoreRow], members: &Table) -> Option<End>
    ensures { result ≡ from_end cores.now (table_view members.now) }
{
    end_of(
        core_found(cores, Key::From, members),
        port_found(members, Key::FromPort),
        file_found(members, Key::FromFile),
    )
}

/// The end of a link that takes items out.
#[tactic(auto, unfolding(crate::specs::Rows::to_end))]
fn to_found(cores: &[CoreRow], members: &Table) -> Option<End>
    ensures { result ≡ to_end cores.now (table_view members.now) }
{
    end_of(
        core_found(cores, Key::To, members),
        port_found(members, Key::ToPort),
        file_found(members, Key::ToFile),
    )
}

fn link_of(name: Option<Name>, depth: u16, from: Option<End>, to: Option<End>) -> Option<LinkRow>
    ensures { result ≡ link_made name depth from to }
{
    Some(LinkRow {
        name: name?,
        depth,
        from: from?,
        to: to?,
    })
}

impl Row for LinkRow {
    ghost use Rattle.board_file.specs.Rows.{link_row};

    ghost meaning = { link_row };

    #[tactic(auto, unfolding(crate::specs::Rows::link_row))]
    fn read(cores: &[CoreRow], name: &str, members: &Table) -> Option<LinkRow> {
        link_of(
            board_name(name),
            depth_found(members),
            from_found(cores, members),
            to_found(cores, members),
        )
    }
}

fn timer_of(
    name: Option<Name>,
    core: Option<u16>,
    base: Option<u32>,
    irq: Option<u8>,
    clock: u32,
) -> Option<TimerRow>
    ensures { result ≡ timer_made name core base irq clock }
{
    Some(TimerRow {
        name: name?,
        core: core?,
        base: base?,
        irq,
        clock,
    })
}

impl Row for TimerRow {
    ghost use Rattle.board_file.specs.Rows.{timer_row};

    ghost meaning = { timer_row };

    #[tactic(auto, unfolding(crate::specs::Rows::timer_row))]
    fn read(cores: &[CoreRow], name: &str, members: &Table) -> Option<TimerRow> {
        timer_of(
            board_name(name),
            core_found(cores, Key::Core, members),
            base_found(members),
            irq_found(members),
            device_clock_found(members),
        )
    }
}

fn intc_of(name: Option<Name>, core: Option<u16>, base: Option<u32>, clock: u32) -> Option<IntcRow>
    ensures { result ≡ intc_made name core base clock }
{
    Some(IntcRow {
        name: name?,
        core: core?,
        base: base?,
        clock,
    })
}

impl Row for IntcRow {
    ghost use Rattle.board_file.specs.Rows.{intc_row};

    ghost meaning = { intc_row };

    #[tactic(auto, unfolding(crate::specs::Rows::intc_row))]
    fn read(cores: &[CoreRow], name: &str, members: &Table) -> Option<IntcRow> {
        intc_of(
            board_name(name),
            core_found(cores, Key::Core, members),
            base_found(members),
            device_clock_found(members),
        )
    }
}

fn uart_of(
    name: Option<Name>,
    core: Option<u16>,
    base: Option<u32>,
    output: Option<FileName>,
    irq: Option<u8>,
    input: Option<FileName>,
    every: u32,
    clock: u32,
) -> Option<UartRow>
    ensures { result ≡ uart_made name core base output irq input every clock }
{
    Some(UartRow {
        name: name?,
        core: core?,
        base: base?,
        output: output?,
        irq,
        input,
        every,
        clock,
    })
}

impl Row for UartRow {
    ghost use Rattle.board_file.specs.Rows.{uart_row};

    ghost meaning = { uart_row };

    #[tactic(auto, unfolding(crate::specs::Rows::uart_row))]
    fn read(cores: &[CoreRow], name: &str, members: &Table) -> Option<UartRow> {
        uart_of(
            board_name(name),
            core_found(cores, Key::Core, members),
            base_found(members),
            file_found(members, Key::Output),
            irq_found(members),
            file_found(members, Key::Input),
            clock_found(members, Key::Every, 64),
            device_clock_found(members),
        )
    }
}

fn event_of(
    name: Option<Name>,
    core: Option<u16>,
    cycle: Option<u64>,
    nonmaskable: Option<bool>,
) -> Option<EventRow>
    ensures { result ≡ event_made name core cycle nonmaskable }
{
    Some(EventRow {
        name: name?,
        core: core?,
        cycle: cycle?,
        nonmaskable: nonmaskable?,
    })
}

impl Row for EventRow {
    ghost use Rattle.board_file.specs.Rows.{event_row};

    ghost meaning = { event_row };

    #[tactic(auto, unfolding(crate::specs::Rows::event_row))]
    fn read(cores: &[CoreRow], name: &str, members: &Table) -> Option<EventRow> {
        event_of(
            board_name(name),
            core_found(cores, Key::Core, members),
            number_found(Quantity::Cycle, members, Key::Cycle),
            break_found(members),
        )
    }
}

/// The order of the cores.
#[tactic(auto, unfolding(crate::specs::Rows::turn_in_file))]
pub fn turn_of(root: &Table) -> Turn
    ensures { result ≡ turn_in_file (table_view root.now) }
{
    match value_at(root, Key::Order) {
        Some(value) => read_turn(value).unwrap_or(Turn::Ascending),
        None => Turn::Ascending,
    }
}
