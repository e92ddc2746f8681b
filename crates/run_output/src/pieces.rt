//! What each entry of a journal adds to a file.
ghost use Rattle.std.specs.Prelude.{◌≡◌, List, ℕ};
ghost use Rattle.run_journal.specs.declared.entry.Entry.{Entry};
ghost use Rattle.run_journal.specs.Files.{bytes_got, bytes_left};
ghost use Rattle.run_output.specs.Threads.{bytes_at};
ghost use Rattle.run_output.specs.Texts.{core_name, journal_line, link_name, part_name, shown, uart_name};

use board_file::BoardFile;
use host_io::{LongText, Name};
use link_file::item_bytes;
use run_journal::{Entry, What, line_of};

/// What a file takes from each entry of a journal.
pub trait FileContent {
    /// The bytes that an entry adds.
    ghost bytes: { Self → Entry → List ℕ };

    /// The bytes that an entry adds to the file.
    fn piece(&self, e: &Entry) -> LongText
        ensures { result ≡ bytes self.now e.now };
}

/// Where something leaves the board for a file: the link or the UART of a number.
#[derive(Clone, Copy)]
pub enum Exit {
    Link(usize),
    Uart(usize),
}

impl FileContent for Exit {
    ghost bytes = { bytes_at };

    fn piece(&self, e: &Entry) -> LongText {
        match *self {
            Exit::Link(link) => item_got(link, &e.what),
            Exit::Uart(uart) => byte_left(uart, &e.what),
        }
    }
}

/// The item that the host got from a link, as it stands in a file.
fn item_got(link: usize, what: &What) -> LongText
    ensures { result ≡ bytes_got link what.now }
{
    let mut bytes = LongText::new();
    match *what {
        What::HostGot { link: of, item } if of as usize == link => bytes.push(&item_bytes(item)),
        _ => {}
    }
    bytes
}

/// The byte that left a UART.
fn byte_left(uart: usize, what: &What) -> LongText
    ensures { result ≡ bytes_left uart what.now }
{
    let mut bytes = LongText::new();
    match *what {
        What::Left { uart: of, byte } if of as usize == uart => bytes.push(&[byte]),
        _ => {}
    }
    bytes
}

/// The line of each entry, with the names of a board.
#[derive(Clone, Copy)]
pub struct Lines<'a> {
    pub board: &'a BoardFile,
}

impl FileContent for Lines<'_> {
    ghost bytes = { λ p e. journal_line p.board.now e };

    fn piece(&self, e: &Entry) -> LongText {
        line_of(
            e,
            &core_name(self.board, e.core),
            &part_name(self.board, &e.what),
        )
    }
}

/// The name of a core, or `-` where the board lacks it.
fn core_name(board: &BoardFile, core: u16) -> Name
    ensures { result ≡ core_name board.now core }
{
    match board.cores.get(core as usize) {
        Some(row) => row.name.copied(),
        None => no_name(),
    }
}

/// The name of a link, or `-` where the board lacks it.
fn link_name(board: &BoardFile, link: u16) -> Name
    ensures { result ≡ link_name board.now link }
{
    match board.links.get(link as usize) {
        Some(row) => row.name.copied(),
        None => no_name(),
    }
}

/// The name of a UART, or `-` where the board lacks it.
fn uart_name(board: &BoardFile, uart: u16) -> Name
    ensures { result ≡ uart_name board.now uart }
{
    match board.uarts.get(uart as usize) {
        Some(row) => row.name.copied(),
        None => no_name(),
    }
}

/// The name of the link or UART that an entry is about.
fn part_name(board: &BoardFile, what: &What) -> Name
    ensures { result ≡ part_name board.now what.now }
{
    match *what {
        What::HostSent { link, .. } => link_name(board, link),
        What::HostGot { link, .. } => link_name(board, link),
        What::Left { uart, .. } => uart_name(board, uart),
        _ => no_name(),
    }
}

/// What stands for a name that the board lacks.
fn no_name() -> Name
    ensures { result ≡ shown None }
{
    Name::from_text("-").unwrap()
}
