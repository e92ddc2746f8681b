//! The lines of an image.
ghost use Rattle.std.specs.Prelude.{◌≡◌, ◌+◌, ◌*◌, ◌≤◌, length};
ghost use Rattle.std.specs.List.{All};
ghost use Rattle.elf_image.specs.Elf.{FitsIn};
ghost use Rattle.elf_image.specs.Fields.{number_at};
ghost use Rattle.host_io.specs.Outside.{Adds};
ghost use Rattle.source_tools.specs.Listing.{line_at, lines_of, listing, part_lines, word_line};

use byteorder::{BigEndian, ByteOrder, LittleEndian};
use core_regs::Order;
use elf_image::{Image, Part};
use host_io::{LongText, Sink, StoreFault, hex_of};
use mb_dis::text_of;
use std::alloc::Global;

/// Writes the lines of an image, part by part: a line for each whole word of the bytes of each part that is code.
pub fn print_image<O: Sink>(alloc: Global, out: &mut O, image: &Image) -> Result<(), StoreFault>
    requires fits { All (FitsIn 4_294_967_296) image.now.parts }
    ensures { Adds (O.state out.old) (O.state out.new) (listing image.now) result }
{
    let parts = image.parts.as_slice();
    for k in 0..parts.len() {
        print_part(alloc, out, image.order, &parts[k])?;
    }
    Ok(())
}

/// Writes the lines of a part, where it is code.
#[tactic(auto, using(piece_output::proofs::Added::adds_nothing), unfolding(crate::specs::Listing::part_lines))]
fn print_part<O: Sink>(
    alloc: Global,
    out: &mut O,
    order: Order,
    part: &Part,
) -> Result<(), StoreFault>
    requires fits { FitsIn 4_294_967_296 part.now }
    ensures { Adds (O.state out.old) (O.state out.new) (part_lines order part.now) result }
{
    if !part.code {
        return Ok(());
    }
    print_words(alloc, out, order, part.addr, part.bytes.as_slice())
}

/// Writes a line for each whole word of bytes that begin at an address.
fn print_words<O: Sink>(
    alloc: Global,
    out: &mut O,
    order: Order,
    address: u32,
    bytes: &[u8],
) -> Result<(), StoreFault>
    requires fits { address + length bytes.now ≤ 4_294_967_296 }
    ensures { Adds (O.state out.old) (O.state out.new) (lines_of order address bytes.now) result }
{
    for k in 0..bytes.len() / 4 {
        let line = line_at(order, address, bytes, k);
        out.write_all(alloc, line.as_bytes())?;
    }
    Ok(())
}

/// The line of word `k` of bytes that begin at an address.
#[tactic(auto, unfolding(crate::specs::Listing::line_at))]
fn line_at(order: Order, address: u32, bytes: &[u8], k: usize) -> LongText
    requires within { 4 * k + 4 ≤ length bytes.now }
    requires fits { address + length bytes.now ≤ 4_294_967_296 }
    ensures { result ≡ line_at order address bytes.now k }
{
    let place = 4 * k;
    word_line(address + place as u32, word_at(order, bytes, place))
}

/// The word of the four bytes from a place on.
fn word_at(order: Order, bytes: &[u8], place: usize) -> u32
    requires { place + 4 ≤ length bytes.now }
    ensures { result ≡ number_at order 4 place bytes.now }
{
    match order {
        Order::Big => BigEndian::read_u32(&bytes[place..]),
        Order::Little => LittleEndian::read_u32(&bytes[place..]),
    }
}

/// The line of a word: its address, its digits and its text, and a line feed.
fn word_line(address: u32, word: u32) -> LongText
    ensures { result ≡ word_line address word }
{
    let text = text_of(word);
    let mut line = LongText::new();
    line.push(&hex_of(address));
    line.push(b" ");
    line.push(&hex_of(word));
    line.push(b" ");
    line.push(text.as_bytes());
    line.push(b"\n");
    line
}
