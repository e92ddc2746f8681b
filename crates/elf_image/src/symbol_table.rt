//! The symbols of a file, read from its symbol table.
ghost use Rattle.std.specs.Prelude.{◌≡◌, ◌≤◌, ◌+◌, ◌==◌, ◌/◌, IfOk, drop, length, position};
ghost use Rattle.elf_image.specs.Symbols.{all_of, before_zero, symbol_at, symbols_from, symbols_of, symbols_there};

use crate::field::{order, word_at};
use crate::parts::rest_of;
use crate::section::{entries_of, first_symbol_table, has_sections, strings_of};
use crate::symbol::{Symbol, Symbols};
use core_regs::Order;
use host_io::{Blob, NoMemory, first_of};
use std::alloc::Global;

/// The size of an Elf32_Sym in bytes.
const SYMBOL_SIZE: usize = 16;

/// The place of the first byte that is 0.
fn first_zero(bytes: &[u8]) -> Option<usize>
    ensures { result ≡ position (λ b. b == 0) bytes.now }
{
    bytes.iter().position(|byte| *byte == 0)
}

/// The bytes of `strings` before the first from `at` on that is 0.
fn name_at(alloc: Global, strings: &[u8], at: usize) -> Result<Option<Blob>, NoMemory>
    ensures { IfOk result (λ name. name ≡ before_zero (drop at strings.now)) }
{
    let rest = rest_of(strings, at);
    match first_zero(rest) {
        Some(count) => Ok(Some(Blob::from_vec(Vec::from_slice(alloc, first_of(rest, count))?))),
        None => Ok(None),
    }
}

/// The symbol whose entry stands at a place, where its name is one.
#[tactic(auto, unfolding(crate::specs::Symbols::symbol_at))]
fn symbol_at(
    alloc: Global,
    order: Order,
    entries: &[u8],
    strings: &[u8],
    at: usize,
) -> Result<Option<Symbol>, NoMemory>
    requires { at + 16 ≤ length entries.now }
    ensures { IfOk result (λ symbol. symbol ≡ symbol_at order entries.now strings.now at) }
{
    let value = word_at(order, entries, at + 4);
    match name_at(alloc, strings, word_at(order, entries, at) as usize)? {
        Some(name) => Ok(Some(Symbol { name, value })),
        None => Ok(None),
    }
}

/// The symbols of all entries, where each has a name.
fn read_symbols(
    alloc: Global,
    order: Order,
    entries: &[u8],
    strings: &[u8],
) -> Result<Option<Symbols>, NoMemory>
    ensures { IfOk result (λ symbols. symbols ≡ all_of (symbols_from order entries.now strings.now 0 (length entries.now / 16))) }
{
    let mut symbols = Vec::new(alloc);
    for k in 0..entries.len() / SYMBOL_SIZE {
        match symbol_at(alloc, order, entries, strings, SYMBOL_SIZE * k)? {
            Some(symbol) => symbols.push(symbol)?,
            None => return Ok(None),
        }
    }
    Ok(Some(Symbols::from_vec(symbols)))
}

/// The symbols of the whole symbol table, where the file has one.
#[tactic(auto, unfolding(crate::specs::Symbols::symbols_there))]
fn symbols_there(alloc: Global, file: &[u8]) -> Result<Option<Symbols>, NoMemory>
    ensures { IfOk result (λ symbols. symbols ≡ symbols_there file.now) }
{
    if !has_sections(file) {
        return Ok(None);
    }
    let Some(table) = first_symbol_table(file) else {
        return Ok(None);
    };
    let Some(entries) = entries_of(file, &table) else {
        return Ok(None);
    };
    let Some(strings) = strings_of(file, table.sh_link) else {
        return Ok(None);
    };
    read_symbols(alloc, order(file), entries, strings)
}

/// The symbols of a file, of every kind, in the order of its symbol table: their names, and their values as they are.
///
/// The symbol table is the first section of type SHT_SYMTAB with entries of 16 bytes, and its names are in the section of
/// type SHT_STRTAB that its link names (ELF32). The list is empty where there is no such table or it isn't whole: where
/// the file isn't ELF of class 32 in a known byte order, where the section headers, the table or the names pass its end,
/// where an entry is cut short, or where a name doesn't begin in the section of names or has no byte 0 behind it there.
/// A first table that isn't whole hides later ones. `NoMemory` is only for want of memory.
pub fn symbols(alloc: Global, file: &[u8]) -> Result<Symbols, NoMemory>
    ensures { IfOk result (λ symbols. symbols ≡ symbols_of file.now) }
{
    match symbols_there(alloc, file)? {
        Some(symbols) => Ok(symbols),
        None => Ok(Symbols::from_vec(Vec::new(alloc))),
    }
}
