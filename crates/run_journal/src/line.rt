//! The text of an entry.
ghost use Rattle.std.specs.Prelude.{◌≡◌, ◌+◌, ◌<◌, ◌≤◌, ◌++◌, codes, length};
ghost use Rattle.host_io.specs.Digits.{hex_of_byte};
ghost use Rattle.run_journal.specs.Lines.{access, bit, hex, item_at, item_of, item_words, line_of, number, shown_core, side, stop_words, take_name, value_of, word, words_of};

use crate::entry::{Entry, NO_CORE, What};
use axi_link::Item;
use core_regs::{StopCause, Take, WaitOn};
use host_io::{LongText, Name, ShortText, Text, hex_of, hex_of_byte};
use itoa::Buffer;

/// The line of an entry: cycle, core, act and what was done, with one space between and a line feed at the end.
///
/// `who` is the name of the entry's core, and `part` that of its link or UART. A name that the line lacks isn't used.
pub fn line_of(e: &Entry, who: &Name, part: &Name) -> LongText
    ensures { result ≡ line_of e.now who.now part.now }
{
    let mut line = LongText::new();
    line.push(Buffer::new().format(e.cycle).as_bytes());
    let core: &[u8] = if e.core == NO_CORE {
        b"-"
    } else {
        who.as_bytes()
    };
    add_word(&mut line, core);
    add_number(&mut line, e.act);
    line.push(words_of(&e.what, part).as_bytes());
    line.push(b"\n");
    line
}

/// What was done, each word after a space.
fn words_of(what: &What, part: &Name) -> ShortText
    ensures { result ≡ words_of what.now part.now }
{
    match *what {
        What::Got { port, item } => item_at(b"got", port, item),
        What::Sent { port, item } => item_at(b"sent", port, item),
        What::Seen { port, item } => item_at(b"seen", port, item),
        What::Room { port } => room(port),
        What::Missed { port, full } => side(b"missed", WaitOn { port, full }),
        What::Read { addr, word } => access(b"read", addr, word),
        What::ReadRefused { addr } => value_of(b"readrefused", addr),
        What::Wrote { addr, word } => access(b"wrote", addr, word),
        What::WriteRefused { addr, word } => access(b"writerefused", addr, word),
        What::Took(take) => took(take),
        What::Raised { esr } => value_of(b"raised", esr),
        What::Slept => word(b"slept"),
        What::Stopped(cause) => stopped(cause),
        What::Wait(on) => side(b"wait", on),
        What::LineUp => word(b"lineup"),
        What::LineDown => word(b"linedown"),
        What::HostSent { item, .. } => item_of(b"hostsent", part, item),
        What::HostGot { item, .. } => item_of(b"hostgot", part, item),
        What::Left { byte, .. } => left(part, byte),
    }
}

/// An item that went through the port of a core.
fn item_at(kind: &[u8], port: u8, item: Item) -> ShortText
    requires { length kind.now ≤ 16 }
    ensures { result ≡ item_at kind.now port item }
{
    let mut text = word(kind);
    add_number(&mut text, port as u64);
    add_item(&mut text, item);
    text
}

/// An item that the host moved at a link.
fn item_of(kind: &[u8], link: &Name, item: Item) -> ShortText
    requires { length kind.now ≤ 16 }
    ensures { result ≡ item_of kind.now link.now item }
{
    let mut text = word(kind);
    add_word(&mut text, link.as_bytes());
    add_item(&mut text, item);
    text
}

/// The room that a test put found at a port.
fn room(port: u8) -> ShortText
    ensures { result ≡ word (codes "room") ++ number port }
{
    let mut text = word(b"room");
    add_number(&mut text, port as u64);
    text
}

/// What a core waits for, or did not find: room for a put, or an item for a get.
pub fn side(kind: &[u8], on: WaitOn) -> ShortText
    requires { length kind.now ≤ 16 }
    ensures { result ≡ side kind.now on }
{
    let mut text = word(kind);
    add_word(&mut text, if on.full { b"put" } else { b"get" });
    add_number(&mut text, on.port as u64);
    text
}

/// A 32-bit value.
fn value_of(kind: &[u8], value: u32) -> ShortText
    requires { length kind.now ≤ 16 }
    ensures text { result ≡ value_of kind.now value }
    ensures short { length result ≡ length kind.now + 10 }
{
    let mut text = word(kind);
    add_hex(&mut text, value);
    text
}

/// An access to the bus.
fn access(kind: &[u8], addr: u32, value: u32) -> ShortText
    requires { length kind.now ≤ 16 }
    ensures { result ≡ access kind.now addr value }
{
    let mut text = value_of(kind, addr);
    add_hex(&mut text, value);
    text
}

/// What a core took from outside.
fn took(take: Take) -> ShortText
    ensures { result ≡ word (codes "took") ++ word (take_name take) }
{
    let mut text = word(b"took");
    match take {
        Take::Interrupt => add_word(&mut text, b"interrupt"),
        Take::Break => add_word(&mut text, b"break"),
        Take::NonMaskable => add_word(&mut text, b"nonmaskable"),
    }
    text
}

/// That a core stopped, and why.
pub fn stopped(cause: StopCause) -> ShortText
    ensures { result ≡ word (codes "stopped") ++ stop_words cause }
{
    let mut text = word(b"stopped");
    text.push(stop_words(cause).as_bytes());
    text
}

/// Why a core stopped, and the word, pc or address of it.
fn stop_words(cause: StopCause) -> ShortText
    ensures text { result ≡ stop_words cause }
    ensures short { length result ≤ 20 }
{
    match cause {
        StopCause::Illegal(word) => value_of(b"illegal", word),
        StopCause::Slot(word) => value_of(b"slot", word),
        StopCause::InstrBus(pc) => value_of(b"ibus", pc),
        StopCause::DataBus(addr) => value_of(b"dbus", addr),
    }
}

/// A byte that left a UART.
fn left(uart: &Name, byte: u8) -> ShortText
    ensures { result ≡ word (codes "left") ++ word uart.now ++ word (hex_of_byte byte) }
{
    let mut text = word(b"left");
    add_word(&mut text, uart.as_bytes());
    add_word(&mut text, &hex_of_byte(byte));
    text
}

/// A text of one word.
pub fn word(text: &[u8]) -> ShortText
    requires { length text.now ≤ 16 }
    ensures text { result ≡ word text.now }
    ensures longer { length result ≡ 1 + length text.now }
{
    let mut words = ShortText::new();
    add_word(&mut words, text);
    words
}

/// Adds an item: its control bit and its word.
fn add_item(text: &mut ShortText, item: Item)
    requires { length text.old + 11 ≤ 64 }
    ensures { text.new ≡ text.old ++ item_words item }
{
    add_word(text, if item.control { b"1" } else { b"0" });
    add_hex(text, item.word);
}

/// Adds a 32-bit word in hexadecimal.
pub fn add_hex<const ROOM: usize>(text: &mut Text<ROOM>, value: u32)
    requires { length text.old + 9 ≤ ROOM }
    ensures added { text.new ≡ text.old ++ hex value }
    ensures longer { length text.new ≡ length text.old + 9 }
{
    add_word(text, &hex_of(value));
}

/// Adds a number in decimal.
pub fn add_number<const ROOM: usize>(text: &mut Text<ROOM>, n: u64)
    requires { length text.old + 21 ≤ ROOM }
    ensures added { text.new ≡ text.old ++ number n }
    ensures short { length text.new ≤ length text.old + 21 }
{
    add_word(text, Buffer::new().format(n).as_bytes());
}

/// Adds a word, after a space.
pub fn add_word<const ROOM: usize>(text: &mut Text<ROOM>, more: &[u8])
    requires { length text.old + length more.now < ROOM }
    ensures added { text.new ≡ text.old ++ word more.now }
    ensures longer { length text.new ≡ length text.old + 1 + length more.now }
{
    text.push(b" ");
    text.push(more);
}
