//! The text of a summary.
ghost use Rattle.std.specs.Prelude.{◌≡◌, ◌+◌, ◌≤◌, ◌++◌, length};
ghost use Rattle.ring_demo.specs.Summary.{order_line, order_name, summary_of};

use crate::ring::cores_of;
use crate::run::Runs;
use crate::tally::Tally;
use board_file::Turn;
use host_io::Text;
use run_journal::{add_hex, add_number, add_word};

/// A summary, of at most 256 bytes.
pub type Summary = Text<256>;

/// The summary of the ring of a number: a line for the ring, and one for each order.
pub fn summary_of(number: u32, runs: &Runs) -> Summary
    ensures { result ≡ summary_of number runs.now }
{
    let mut text = Summary::new();
    text.push(b"demo");
    add_number(&mut text, u64::from(number));
    add_word(&mut text, b"cores");
    add_number(&mut text, u64::from(cores_of(number)));
    text.push(b"\n");
    add_line(&mut text, Turn::Ascending, runs.ascending.tally);
    add_line(&mut text, Turn::Descending, runs.descending.tally);
    add_line(&mut text, Turn::Rotating, runs.rotating.tally);
    text
}

/// Adds the line of an order.
fn add_line(text: &mut Summary, turn: Turn, tally: Tally)
    requires { length text.old + 52 ≤ 256 }
    ensures added { text.new ≡ text.old ++ order_line turn tally }
    ensures short { length text.new ≤ length text.old + 52 }
{
    text.push(order_name(turn));
    add_word(text, b"items");
    add_number(text, tally.items as u64);
    add_word(text, b"sum");
    add_hex(text, tally.sum);
    text.push(b"\n");
}

/// The name of an order.
fn order_name(turn: Turn) -> &'static [u8]
    ensures name { result.now ≡ order_name turn }
    ensures short { length result.now ≤ 10 }
{
    match turn {
        Turn::Ascending => b"ascending",
        Turn::Descending => b"descending",
        Turn::Rotating => b"rotating",
    }
}
