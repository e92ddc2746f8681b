//! Which files a board names.
ghost use Rattle.std.specs.Prelude.{◌≡◌};
ghost use Rattle.std.specs.List.{list_any};
ghost use Rattle.board_load.specs.Named.{core_names, end_names, input_names, link_names, names_file, names_journal, uart_names};

use board_file::{BoardFile, CoreRow, End, LinkRow, UartRow};
use host_io::FileName;

fn end_names(end: &End, file: &FileName) -> bool
    ensures { result ≡ end_names file.now end.now }
{
    match end {
        End::Port { .. } => false,
        End::File(name) => name.is(file),
    }
}

fn link_names(row: &LinkRow, file: &FileName) -> bool
    ensures { result ≡ link_names file.now row.now }
{
    end_names(&row.from, file) || end_names(&row.to, file)
}

fn input_names(input: &Option<FileName>, file: &FileName) -> bool
    ensures { result ≡ input_names file.now input.now }
{
    match input {
        None => false,
        Some(name) => name.is(file),
    }
}

fn uart_names(row: &UartRow, file: &FileName) -> bool
    ensures { result ≡ uart_names file.now row.now }
{
    row.output.is(file) || input_names(&row.input, file)
}

fn cores_name(rows: &[CoreRow], file: &FileName) -> bool
    ensures { result ≡ list_any (core_names file.now) rows.now }
{
    rows.iter().any(|row| row.image.is(file))
}

fn links_name(rows: &[LinkRow], file: &FileName) -> bool
    ensures { result ≡ list_any (link_names file.now) rows.now }
{
    rows.iter().any(|row| link_names(row, file))
}

fn uarts_name(rows: &[UartRow], file: &FileName) -> bool
    ensures { result ≡ list_any (uart_names file.now) rows.now }
{
    rows.iter().any(|row| uart_names(row, file))
}

/// Whether a file is an image, an input or an output of the board.
#[tactic(auto, unfolding(crate::specs::Named::names_file))]
pub fn names_file(board: &BoardFile, file: &FileName) -> bool
    ensures { result ≡ names_file board.now file.now }
{
    cores_name(board.cores.as_slice(), file)
        || links_name(board.links.as_slice(), file)
        || uarts_name(board.uarts.as_slice(), file)
}

/// Whether the journal has a file that is an image, an input or an output of the board.
pub(crate) fn names_journal(board: &BoardFile, journal: &Option<FileName>) -> bool
    ensures { result ≡ names_journal board.now journal.now }
{
    match journal {
        None => false,
        Some(file) => names_file(board, file),
    }
}
