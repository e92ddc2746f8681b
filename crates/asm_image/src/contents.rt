//! What an item puts at its place.
ghost use Rattle.std.specs.Prelude.{◌≡◌, ◌+◌, ◌<◌, ◌^◌, List, ℕ, OnOk, length, replicate};
ghost use Rattle.asm_layout.specs.declared.piece.Piece.{Piece};
ghost use Rattle.asm_layout.specs.Layout.{Numbers, place};
ghost use Rattle.asm_layout.specs.Places.{AreBelow, ArePlaces};
ghost use Rattle.asm_source.specs.Source.{HasWord, IsSpelled, contents, instruction_contents, plain};
ghost use Rattle.asm_image.specs.Built.{Puts};

use crate::numbers::{own_place, value_of, word_of};
use crate::words::{half_bytes, put, put_code, put_value, word_bytes};
use asm_source::{Item, Operand, is_relative};
use core_regs::Order;
use host_io::NoMemory;
use mb_decode::Instr;

/// Adds zeros.
fn put_zeros(out: &mut Vec<u8>, order: Order, count: u64) -> Result<(), NoMemory>
    ensures { OnOk result (Puts order out.old.items out.new.items (plain (replicate count 0))) }
{
    for k in 0..count {
        let _ = k;
        out.push(0)?;
    }
    Ok(())
}

/// Adds an instruction that begins at `here`.
fn put_instruction(
    out: &mut Vec<u8>,
    order: Order,
    places: &[u64],
    instr: Instr,
    value: Option<Operand>,
    long: bool,
    here: u64,
) -> Result<(), NoMemory>
    requires spelled { IsSpelled instr value }
    requires here { here < 2 ^ 62 }
    requires some { 0 < length places.now }
    requires below { (n : ℕ) → length places.now ≡ n + 1 → AreBelow n places.now }
    ensures { OnOk result ((all : List Piece) (F : Numbers) → length places.now ≡ length all + 1 → ArePlaces all F (length all) places.now → Puts order out.old.items out.new.items (instruction_contents (place all F) instr value long here)) }
{
    match value {
        None => put_code(out, order, instr),
        Some(operand) => {
            let own = own_place(here, long);
            let number = value_of(places, is_relative(instr.op), own, operand);
            put_value(out, order, instr, long, word_of(number))
        }
    }
}

/// Adds what an item puts at its place, from `here` up to `next`; `long` tells whether it has a prefix.
pub fn put_item(
    out: &mut Vec<u8>,
    order: Order,
    places: &[u64],
    item: Item,
    long: bool,
    here: u64,
    next: u64,
) -> Result<(), NoMemory>
    requires spelled { HasWord item }
    requires here { here < 2 ^ 62 }
    requires some { 0 < length places.now }
    requires below { (n : ℕ) → length places.now ≡ n + 1 → AreBelow n places.now }
    ensures { OnOk result ((all : List Piece) (F : Numbers) → length places.now ≡ length all + 1 → ArePlaces all F (length all) places.now → Puts order out.old.items out.new.items (contents order (place all F) item long here next)) }
{
    match item {
        Item::Instruction { instr, value, .. } => {
            put_instruction(out, order, places, instr, value, long, here)
        }
        Item::Word(operand) => {
            let number = value_of(places, false, here, operand);
            put(out, order, &word_bytes(order, word_of(number)))
        }
        Item::Half(half) => put(out, order, &half_bytes(order, half)),
        Item::Byte(byte) => put(out, order, &[byte]),
        Item::Space(_) => put_zeros(out, order, next.saturating_sub(here)),
        Item::Aligned(_) => put_zeros(out, order, next.saturating_sub(here)),
        Item::Part(_) => put(out, order, &[]),
    }
}
