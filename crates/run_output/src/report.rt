//! The lines of a report.
ghost use Rattle.std.specs.Prelude.{◌≡◌, ◌<◌, ℕ};
ghost use Rattle.run_output.specs.Report.{core_line, end_words, link_line, status_line, uart_line};

use host_io::{LongText, Name, ShortText};
use isa_step::Idle;
use run_journal::{add_hex, add_number, add_word, side, stopped, word};

/// How a core stands at the end of a run.
#[derive(Clone, Copy, Debug, PartialEq, Eq)]
pub struct CoreEnd {
    /// Why it rests for good, or `None` where it doesn't.
    pub idle: Option<Idle>,
    /// The address of its next instruction.
    pub pc: u32,
    /// The number of its acts.
    pub acts: u64,
}

/// How the cores of a board stand at the end of a run.
pub trait CoreEnds {
    ghost use Rattle.run_output.specs.declared.report.CoreEnd.{CoreEnd};

    /// The number of cores.
    ghost count: { Self → ℕ };

    /// How the core of a number stands.
    ghost ends: { Self → ℕ → CoreEnd };

    /// The number of cores.
    fn count(&self) -> u16
        ensures { result ≡ count self.now };

    /// How the core of a number stands.
    fn end(&self, core: u16) -> CoreEnd
        requires { core < count self.now }
        ensures { result ≡ ends self.now core };
}

/// The line of the run: the code of its status, its cycles, and the number of its entries.
#[tactic(auto, unfolding(crate::specs::Report::status_line))]
pub fn status_line(code: u8, cycles: u64, entries: u64) -> LongText
    ensures { result ≡ status_line code cycles entries }
{
    let mut line = LongText::new();
    line.push(b"status");
    add_number(&mut line, code as u64);
    add_word(&mut line, b"cycles");
    add_number(&mut line, cycles);
    add_word(&mut line, b"entries");
    add_number(&mut line, entries);
    line.push(b"\n");
    line
}

/// The line of a core: why it rests, its pc, and the number of its acts.
#[tactic(auto, unfolding(crate::specs::Report::core_line))]
pub fn core_line(name: &Name, idle: Option<Idle>, pc: u32, acts: u64) -> LongText
    ensures { result ≡ core_line name.now idle pc acts }
{
    let mut line = LongText::new();
    line.push(b"core");
    add_word(&mut line, name.as_bytes());
    line.push(end_words(idle).as_bytes());
    add_word(&mut line, b"pc");
    add_hex(&mut line, pc);
    add_word(&mut line, b"acts");
    add_number(&mut line, acts);
    line.push(b"\n");
    line
}

/// Why a core rests for good, or that it doesn't.
fn end_words(idle: Option<Idle>) -> ShortText
    ensures { result ≡ end_words idle }
{
    match idle {
        Some(Idle::Ended) => word(b"ended"),
        Some(Idle::Asleep) => word(b"asleep"),
        Some(Idle::Waits(on)) => side(b"waits", on),
        Some(Idle::Stopped(cause)) => stopped(cause),
        None => word(b"runs"),
    }
}

/// The line of a link: how many items went in and came out.
#[tactic(auto, unfolding(crate::specs::Report::link_line))]
pub fn link_line(name: &Name, sent: u64, taken: u64) -> LongText
    ensures { result ≡ link_line name.now sent taken }
{
    let mut line = LongText::new();
    line.push(b"link");
    add_word(&mut line, name.as_bytes());
    add_word(&mut line, b"sent");
    add_number(&mut line, sent);
    add_word(&mut line, b"taken");
    add_number(&mut line, taken);
    line.push(b"\n");
    line
}

/// The line of a UART: how many bytes left it.
#[tactic(auto, unfolding(crate::specs::Report::uart_line))]
pub fn uart_line(name: &Name, left: u64) -> LongText
    ensures { result ≡ uart_line name.now left }
{
    let mut line = LongText::new();
    line.push(b"uart");
    add_word(&mut line, name.as_bytes());
    add_word(&mut line, b"left");
    add_number(&mut line, left);
    line.push(b"\n");
    line
}
