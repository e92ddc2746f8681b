//! What the value of a key means, or what is wrong with it.
ghost use Rattle.std.specs.Prelude.{◌≡◌, IsTrue, true, Some, None, Ok, Err, ok_or, option_and_then, option_map, option_copied, IfOk, IfSome};
ghost use Rattle.std.specs.List.{list_all};
ghost use Rattle.std.specs.Result.{result_err, result_map_both, result_ok};
ghost use Rattle.toml.specs.Data.{as_bool, as_integer, as_str, as_table};
ghost use Rattle.toml.specs.View.{view, table_view};
ghost use Rattle.host_io.specs.Names.{is_file_name, is_name};
ghost use Rattle.board_file.specs.Read.{break_in, break_of, core_in, core_name_at, core_of, file_at, file_in, file_of, flag_in, is_board_name, is_name_byte, is_number, judged, key_code, missing_code, name_of, number_at, number_code, number_in, number_of, only_if, pipeline_in, pipeline_of, right, table_in, turn_in, turn_of, value_code, version_in, version_of};

use crate::board::{Pipeline, Turn};
use crate::fault::BoardRule;
use crate::keys::{Key, KeyRule, Kind, Quantity};
use crate::tree::{names_core, value_at};
use host_io::{FileName, Name};
use toml::{Table, Value};

fn is_board_name_byte(byte: u8) -> bool
    ensures { result ≡ is_name_byte byte }
{
    matches!(byte, b'a'..=b'z' | b'0'..=b'9' | b'_')
}

fn has_name_bytes(bytes: &[u8]) -> bool
    ensures { result ≡ list_all is_name_byte bytes.now }
{
    bytes.iter().all(|byte| is_board_name_byte(*byte))
}

/// Whether a text is a name of a part of a board: 1 to 24 of a to z, 0 to 9 and `_`.
#[tactic(auto, unfolding(crate::specs::Read::is_board_name))]
pub fn is_board_name(name: &str) -> bool
    ensures rule { result ≡ is_board_name name.now }
    ensures fits { IsTrue result → is_name name.now ≡ true }
{
    let bytes = name.as_bytes();
    !bytes.is_empty() && bytes.len() <= 24 && has_name_bytes(bytes)
}

#[tactic(auto, unfolding(crate::specs::Read::is_number))]
fn is_number_of(quantity: Quantity, number: u64) -> bool
    ensures { result ≡ is_number quantity number }
{
    match quantity {
        Quantity::Port => number <= 15,
        Quantity::Irq => number <= 31,
        Quantity::Base => number <= 4_294_963_200 && number % 4096 == 0,
        Quantity::Clock => 1 <= number && number <= 1_000_000,
        Quantity::Depth => 1 <= number && number <= 4096,
        Quantity::Cycle => number <= 1_000_000_000_000,
        Quantity::Memory => 4096 <= number && number <= 67_108_864 && number % 4096 == 0,
    }
}

#[tactic(auto, unfolding(crate::specs::Read::number_code))]
fn fault_of_number(quantity: Quantity) -> BoardRule
    ensures { result ≡ number_code quantity }
{
    match quantity {
        Quantity::Memory => BoardRule::BadMemory,
        _ => BoardRule::BadValue,
    }
}

fn number_if_right(quantity: Quantity, number: i64) -> Option<u64>
    ensures value { result ≡ number_of quantity number }
    ensures right { IfSome result (λ n. is_number quantity n ≡ true) }
{
    if number >= 0 && is_number_of(quantity, number as u64) {
        Some(number as u64)
    } else {
        None
    }
}

/// A number of a quantity; `WrongType` for a value of another kind, and `BadValue`, of a memory `BadMemory`, for another number.
#[tactic(auto, unfolding(crate::specs::Read::number_in))]
pub fn read_number(quantity: Quantity, value: &Value) -> Result<u64, BoardRule>
    ensures value { result ≡ number_in quantity (view value.now) }
    ensures right { IfOk result (λ n. is_number quantity n ≡ true) }
{
    match value.as_integer() {
        Some(number) => number_if_right(quantity, number).ok_or(fault_of_number(quantity)),
        None => Err(BoardRule::WrongType),
    }
}

/// A name of a file; `WrongType` for a value of another kind, and `BadFileName` for a text outside the rule.
#[tactic(auto, unfolding(crate::specs::Read::file_in))]
pub fn read_file(value: &Value) -> Result<FileName, BoardRule>
    ensures { result ≡ file_in (view value.now) }
{
    match value.as_str() {
        Some(text) => file_if_right(text).ok_or(BoardRule::BadFileName),
        None => Err(BoardRule::WrongType),
    }
}

#[tactic(auto, using(crate::proofs::Somes::only_if_some))]
fn file_if_right(text: &str) -> Option<FileName>
    ensures { result ≡ file_of text.now }
{
    FileName::from_text(text)
}

fn core_if_there<'a>(root: &Table, name: &'a str) -> Option<&'a str>
    ensures { option_map (λ s. s.now) result ≡ core_of (table_view root.now) name.now }
{
    if names_core(root, name) {
        Some(name)
    } else {
        None
    }
}

/// The name of a core that is there; `WrongType` for a value of another kind, and `UnknownCore` for another name.
#[tactic(auto, unfolding(crate::specs::Read::core_in))]
pub fn read_core<'a>(root: &Table, value: &'a Value) -> Result<&'a str, BoardRule>
    ensures { result_map_both (λ s. s.now) (λ code. code) result ≡ core_in (table_view root.now) (view value.now) }
{
    match value.as_str() {
        Some(name) => core_if_there(root, name).ok_or(BoardRule::UnknownCore),
        None => Err(BoardRule::WrongType),
    }
}

fn pipeline_named(text: &str) -> Option<Pipeline>
    ensures { result ≡ pipeline_of text.now }
{
    if text == "plain" {
        return Some(Pipeline::Plain);
    }
    if text == "three" {
        return Some(Pipeline::Three);
    }
    if text == "five" {
        return Some(Pipeline::Five);
    }
    if text == "eight" {
        return Some(Pipeline::Eight);
    }
    None
}

/// A pipeline by its name; `WrongType` for a value of another kind, and `UnknownPipeline` for another text.
#[tactic(auto, unfolding(crate::specs::Read::pipeline_in))]
pub fn read_pipeline(value: &Value) -> Result<Pipeline, BoardRule>
    ensures { result ≡ pipeline_in (view value.now) }
{
    match value.as_str() {
        Some(text) => pipeline_named(text).ok_or(BoardRule::UnknownPipeline),
        None => Err(BoardRule::WrongType),
    }
}

fn turn_named(text: &str) -> Option<Turn>
    ensures { result ≡ turn_of text.now }
{
    if text == "ascending" {
        return Some(Turn::Ascending);
    }
    if text == "descending" {
        return Some(Turn::Descending);
    }
    if text == "rotating" {
        return Some(Turn::Rotating);
    }
    None
}

/// An order of the cores by its name; `WrongType` for a value of another kind, and `UnknownOrder` for another text.
#[tactic(auto, unfolding(crate::specs::Read::turn_in))]
pub fn read_turn(value: &Value) -> Result<Turn, BoardRule>
    ensures { result ≡ turn_in (view value.now) }
{
    match value.as_str() {
        Some(text) => turn_named(text).ok_or(BoardRule::UnknownOrder),
        None => Err(BoardRule::WrongType),
    }
}

fn break_named(text: &str) -> Option<bool>
    ensures { result ≡ break_of text.now }
{
    if text == "nonmaskable" {
        return Some(true);
    }
    if text == "break" {
        return Some(false);
    }
    None
}

/// Whether a break is non-maskable; `WrongType` for a value of another kind, and `BadValue` for another text.
#[tactic(auto, unfolding(crate::specs::Read::break_in))]
pub fn read_break(value: &Value) -> Result<bool, BoardRule>
    ensures { result ≡ break_in (view value.now) }
{
    match value.as_str() {
        Some(text) => break_named(text).ok_or(BoardRule::BadValue),
        None => Err(BoardRule::WrongType),
    }
}

fn known_version(number: i64) -> Option<u8>
    ensures { result ≡ version_of number }
{
    if number == 1 {
        return Some(1);
    }
    if number == 2 {
        return Some(2);
    }
    None
}

/// A version of the format; `UnknownVersion` for any other value.
#[tactic(auto, unfolding(crate::specs::Read::version_in))]
pub fn read_version(value: &Value) -> Result<u8, BoardRule>
    ensures { result ≡ version_in (view value.now) }
{
    match value.as_integer() {
        Some(number) => known_version(number).ok_or(BoardRule::UnknownVersion),
        None => Err(BoardRule::UnknownVersion),
    }
}

/// A truth value; `WrongType` for a value of another kind.
#[tactic(auto, unfolding(crate::specs::Read::flag_in))]
pub fn read_flag(value: &Value) -> Result<bool, BoardRule>
    ensures { result ≡ flag_in (view value.now) }
{
    value.as_bool().ok_or(BoardRule::WrongType)
}

#[tactic(auto, unfolding(crate::specs::Read::table_in))]
fn read_table<'a>(value: &'a Value) -> Result<&'a Table, BoardRule>
    ensures { result_map_both (λ t. table_view t.now) (λ code. code) result ≡ table_in (view value.now) }
{
    value.as_table().ok_or(BoardRule::WrongType)
}

/// What is wrong with a value that isn't right for its kind.
#[tactic(auto, unfolding(crate::specs::Read::value_code))]
fn value_fault(root: &Table, kind: Kind, value: &Value) -> Option<BoardRule>
    ensures { result ≡ value_code (table_view root.now) kind (view value.now) }
{
    match kind {
        Kind::Flag => read_flag(value).err(),
        Kind::Number(quantity) => read_number(quantity, value).err(),
        Kind::File => read_file(value).err(),
        Kind::CoreName => read_core(root, value).err(),
        Kind::PipelineName => read_pipeline(value).err(),
        Kind::OrderName => read_turn(value).err(),
        Kind::BreakName => read_break(value).err(),
        Kind::VersionNumber => read_version(value).err(),
        Kind::Rows => read_table(value).err(),
    }
}

#[tactic(auto, unfolding(crate::specs::Read::missing_code))]
fn missing_fault(kind: Kind) -> BoardRule
    ensures { result ≡ missing_code kind }
{
    match kind {
        Kind::VersionNumber => BoardRule::UnknownVersion,
        _ => BoardRule::Missing,
    }
}

/// What is wrong with a key that is missing or not right.
#[tactic(auto, unfolding(crate::specs::Read::key_code))]
pub fn key_fault(root: &Table, rule: KeyRule, value: Option<&Value>) -> Option<BoardRule>
    ensures { result ≡ key_code (table_view root.now) rule (option_map (λ v. view v.now) value.entry) }
{
    match value {
        None => match rule {
            KeyRule::Needs(_, kind) => Some(missing_fault(kind)),
            KeyRule::May(_, _) => None,
        },
        Some(value) => match rule {
            KeyRule::Needs(_, kind) => value_fault(root, kind, value),
            KeyRule::May(_, kind) => value_fault(root, kind, value),
        },
    }
}

/// A text as the name of a part of a board, where it is one.
pub fn board_name(text: &str) -> Option<Name>
    ensures { result ≡ name_of text.now }
{
    if is_board_name(text) {
        Name::from_text(text)
    } else {
        None
    }
}

/// The number at a key, where it is there and right.
#[tactic(auto, unfolding(crate::specs::Read::number_at))]
pub fn number_found(quantity: Quantity, members: &Table, key: Key) -> Option<u64>
    ensures value { result ≡ number_at quantity key (table_view members.now) }
    ensures right { IfSome result (λ n. is_number quantity n ≡ true) }
{
    match value_at(members, key) {
        Some(value) => read_number(quantity, value).ok(),
        None => None,
    }
}

/// The name of a file at a key, where it is there and right.
#[tactic(auto, unfolding(crate::specs::Read::file_at))]
pub fn file_found(members: &Table, key: Key) -> Option<FileName>
    ensures { result ≡ file_at key (table_view members.now) }
{
    match value_at(members, key) {
        Some(value) => read_file(value).ok(),
        None => None,
    }
}

/// The name of a core at a key, where the core is there.
#[tactic(auto, unfolding(crate::specs::Read::core_name_at))]
pub fn core_found<'a>(root: &Table, members: &'a Table, key: Key) -> Option<&'a str>
    ensures { option_map (λ s. s.now) result ≡ core_name_at (table_view root.now) key (table_view members.now) }
{
    match value_at(members, key) {
        Some(value) => read_core(root, value).ok(),
        None => None,
    }
}
