//! The line that a status writes to the error stream.
ghost use Rattle.std.specs.Prelude.{◌≡◌, ◌+◌, ◌≤◌, length};
ghost use Rattle.mb_sim.specs.Lines.{line_with, told};
ghost use Rattle.mb_sim.specs.Top.{IsTold};

use crate::status::Status;
use host_io::{FileName, LongText, Name, Place, Sink};
use itoa::Buffer;
use std::alloc::Global;

/// Writes the line of a status, where it has one. What the stream answers is let go.
pub fn tell<E: Sink>(alloc: Global, err: &mut E, status: &Status)
    ensures { IsTold (E.state err.old) (E.state err.new) (told status.now) }
{
    let line = message_line(status);
    if !line.as_bytes().is_empty() {
        let _ = err.write_all(alloc, line.as_bytes());
    }
}

/// The line of a status, or the empty text where the command ran.
fn message_line(status: &Status) -> LongText
    ensures { result ≡ told status.now }
{
    match status {
        Status::Ended
        | Status::Waiting
        | Status::Stopped
        | Status::CyclesSpent
        | Status::JournalFull => LongText::new(),
        Status::Usage => line_with(b"usage", b"", b""),
        Status::ReadFault { file } => line_with(b"cannot read ", file.as_bytes(), b""),
        Status::WriteFault { file } => line_with(b"cannot write ", file.as_bytes(), b""),
        Status::BadBoard { code, place } => board_line(*code, place),
        Status::BadImage { core, code, at } => image_line(core, *code, *at),
        Status::NoMemory => line_with(b"no memory", b"", b""),
        Status::BadSource { code, line, column } => source_line(*code, *line, *column),
        Status::BadScript { code, line } => script_line(*code, *line),
        Status::BadInput { file, offset } => input_line(file, *offset),
        Status::TooLong { file } => line_with(b"", file.as_bytes(), b" is too long"),
    }
}

/// The line of the program that says this.
fn line_with(before: &[u8], shown: &[u8], after: &[u8]) -> LongText
    requires before { length before.now ≤ 32 }
    requires shown { length shown.now ≤ 64 }
    requires after { length after.now ≤ 32 }
    ensures { result ≡ line_with before.now shown.now after.now }
{
    let mut line = LongText::new();
    line.push(b"mbsim: ");
    line.push(before);
    line.push(shown);
    line.push(after);
    line.push(b"\n");
    line
}

/// The line of a fault of a board file.
fn board_line(code: u16, place: &Place) -> LongText
    ensures { result ≡ told (Status.BadBoard code place.now) }
{
    let mut line = LongText::new();
    line.push(b"mbsim: board ");
    line.push(Buffer::new().format(code as u64).as_bytes());
    line.push(b" at ");
    line.push(place.as_bytes());
    line.push(b"\n");
    line
}

/// The line of a fault of an image.
fn image_line(core: &Name, code: u16, at: u32) -> LongText
    ensures { result ≡ told (Status.BadImage core.now code at) }
{
    let mut line = LongText::new();
    line.push(b"mbsim: image of ");
    line.push(core.as_bytes());
    line.push(b" ");
    line.push(Buffer::new().format(code as u64).as_bytes());
    line.push(b" at ");
    line.push(Buffer::new().format(at as u64).as_bytes());
    line.push(b"\n");
    line
}

/// The line of a fault of a source.
fn source_line(code: u16, row: u32, column: u32) -> LongText
    ensures { result ≡ told (Status.BadSource code row column) }
{
    let mut line = LongText::new();
    line.push(b"mbsim: source ");
    line.push(Buffer::new().format(code as u64).as_bytes());
    line.push(b" at ");
    line.push(Buffer::new().format(row as u64).as_bytes());
    line.push(b":");
    line.push(Buffer::new().format(column as u64).as_bytes());
    line.push(b"\n");
    line
}

/// The line of a fault of a script.
fn script_line(code: u16, row: u32) -> LongText
    ensures { result ≡ told (Status.BadScript code row) }
{
    let mut line = LongText::new();
    line.push(b"mbsim: script ");
    line.push(Buffer::new().format(code as u64).as_bytes());
    line.push(b" at line ");
    line.push(Buffer::new().format(row as u64).as_bytes());
    line.push(b"\n");
    line
}

/// The line of a fault of an input file.
fn input_line(file: &FileName, offset: u32) -> LongText
    ensures { result ≡ told (Status.BadInput file.now offset) }
{
    let mut line = LongText::new();
    line.push(b"mbsim: input ");
    line.push(file.as_bytes());
    line.push(b" at ");
    line.push(Buffer::new().format(offset as u64).as_bytes());
    line.push(b"\n");
    line
}
