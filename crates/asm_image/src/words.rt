//! Bytes, half-words, words and instructions that are added to a part.
ghost use Rattle.std.specs.Prelude.{◌≡◌, ◌++◌, ◌∷◌, ◌%◌, ◌^◌, ◌<◌, [], ℕ, OnOk};
ghost use Rattle.op_table.specs.Table.{row_for};
ghost use Rattle.mb_decode.specs.Meaning.{Fits, Means};
ghost use Rattle.asm_source.specs.Source.{Code, bytes_of, imm, plain, with_value};
ghost use Rattle.asm_image.specs.Built.{Puts};

use byteorder::{BigEndian, ByteOrder, LittleEndian};
use core_regs::Order;
use host_io::NoMemory;
use mb_decode::{Instr, encode};
use op_table::Op;

/// The bytes of a half-word.
pub fn half_bytes(order: Order, half: u16) -> [u8; 2]
    ensures { result ≡ bytes_of order 2 half }
{
    let mut bytes = [0; 2];
    match order {
        Order::Big => BigEndian::write_u16(&mut bytes, half),
        Order::Little => LittleEndian::write_u16(&mut bytes, half),
    }
    bytes
}

/// The bytes of a word.
pub fn word_bytes(order: Order, word: u32) -> [u8; 4]
    ensures { result ≡ bytes_of order 4 word }
{
    let mut bytes = [0; 4];
    match order {
        Order::Big => BigEndian::write_u32(&mut bytes, word),
        Order::Little => LittleEndian::write_u32(&mut bytes, word),
    }
    bytes
}

/// Adds bytes.
fn add_bytes(out: &mut Vec<u8>, bytes: &[u8]) -> Result<(), NoMemory>
    ensures { OnOk result (out.new.items ≡ out.old.items ++ bytes.now) }
{
    out.extend_from_slice(bytes).map_err(|_| NoMemory)
}

/// Adds bytes of data.
pub fn put(out: &mut Vec<u8>, order: Order, bytes: &[u8]) -> Result<(), NoMemory>
    ensures { OnOk result (Puts order out.old.items out.new.items (plain bytes.now)) }
{
    add_bytes(out, bytes)?;
    Ok(())
}

/// The word of an instruction that has one.
fn word_of(instr: Instr) -> u32
    requires { Fits (row_for instr.op).form instr }
    ensures { Means result instr }
{
    encode(&instr).unwrap()
}

/// Adds the word of an instruction.
pub fn put_code(out: &mut Vec<u8>, order: Order, instr: Instr) -> Result<(), NoMemory>
    requires { Fits (row_for instr.op).form instr }
    ensures { OnOk result (Puts order out.old.items out.new.items (Code instr ∷ [])) }
{
    let word = word_of(instr);
    let bytes = word_bytes(order, word);
    add_bytes(out, &bytes)?;
    Ok(())
}

/// The prefix with this half.
fn imm(half: u16) -> Instr
    ensures prefix { result ≡ imm half }
    ensures spelled { Fits (row_for result.op).form result }
{
    Instr {
        op: Op::Imm,
        rd: 0,
        ra: 0,
        rb: 0,
        imm: half,
        flags: 0,
    }
}

/// An instruction with the low half of a value.
fn with_low(instr: Instr, value: u32) -> Instr
    ensures { result ≡ record instr { imm = value % 2 ^ 16 } }
{
    Instr {
        imm: (value % 0x1_0000) as u16,
        ..instr
    }
}

/// Adds an instruction with its value: the high half in a prefix where it is `long`, the low half in itself.
pub fn put_value(
    out: &mut Vec<u8>,
    order: Order,
    instr: Instr,
    long: bool,
    value: u32,
) -> Result<(), NoMemory>
    requires { (half : ℕ) → half < 2 ^ 16 → Fits (row_for instr.op).form (record instr { imm = half }) }
    ensures { OnOk result (Puts order out.old.items out.new.items (with_value instr long value)) }
{
    let low = with_low(instr, value);
    if long {
        let prefix = imm((value / 0x1_0000) as u16);
        put_code(out, order, prefix)?;
        put_code(out, order, low)?;
        return Ok(());
    }
    put_code(out, order, low)
}
