//! The symbols of a board's cores.
ghost use Rattle.std.specs.Prelude.{◌≡◌, IfErr, IfOk, OnOk};
ghost use Rattle.board_load.specs.Files.{CountsLoads, Keeps, NotLoaded, image_limit};
ghost use Rattle.board_load.specs.Symbols.{AreSymbolsOf, HasSymbols, NoSymbols};

use crate::files::{IMAGE_LIMIT, load_file};
use crate::refusal::Refusal;
use board_file::CoreRow;
use elf_image::{Symbols, symbols};
use host_io::Shelf;
use std::alloc::Global;

/// The symbols of the image of a core.
fn load_image_symbols<S: Shelf>(
    alloc: Global,
    shelf: &mut S,
    row: &CoreRow,
) -> Result<Symbols, Refusal>
    ensures ok { IfOk result (HasSymbols (S.state shelf.old).files row.now) }
    ensures quiet { OnOk result (S.state shelf.new ≡ S.state shelf.old) }
    ensures refused { IfErr result (NotLoaded (S.state shelf.old) (S.state shelf.new) row.now.image image_limit) }
    ensures loads { IfErr result (CountsLoads (S.state shelf.old) (S.state shelf.new)) }
    ensures keeps { Keeps (S.state shelf.old) (S.state shelf.new) }
{
    let bytes = load_file(alloc, shelf, &row.image, IMAGE_LIMIT)?;
    match symbols(alloc, bytes.as_slice()) {
        Ok(symbols) => Ok(symbols),
        Err(_) => Err(Refusal::NoMemory),
    }
}

/// The symbols of the image of each core, in board order: none where an image has no symbol table. The images are read once
/// more, and none of their tests is made.
///
/// # Errors
///
/// `CannotRead` or `TooLong` for the first image that can't be read or is longer than 134,217,728 bytes, or `NoMemory` for want
/// of memory.
pub fn load_symbols<S: Shelf>(
    alloc: Global,
    shelf: &mut S,
    rows: &[CoreRow],
) -> Result<Vec<Symbols>, Refusal>
    ensures ok { IfOk result (λ lists. AreSymbolsOf (S.state shelf.old).files rows.now lists.items) }
    ensures quiet { OnOk result (S.state shelf.new ≡ S.state shelf.old) }
    ensures refused { IfErr result (NoSymbols (S.state shelf.old) (S.state shelf.new) rows.now) }
    ensures loads { IfErr result (CountsLoads (S.state shelf.old) (S.state shelf.new)) }
    ensures keeps { Keeps (S.state shelf.old) (S.state shelf.new) }
{
    let mut lists = Vec::new(alloc);
    for row in rows {
        let list = load_image_symbols(alloc, shelf, row)?;
        if lists.push(list).is_err() {
            return Err(Refusal::NoMemory);
        }
    }
    Ok(lists)
}
