//! Whole files.
ghost use Rattle.piece_output.specs.Stored.{Wrote};

use host_io::{FileName, Shelf, StoreFault};
use std::alloc::Global;

/// The most bytes that one call of a shelf is given.
const PIECE: usize = 65_536;

/// Writes a file: one `start`, and then an `append` for each 65,536 bytes or rest.
///
/// # Errors
///
/// The first call of the shelf that is refused. The file is then as before, or the first of the bytes.
pub fn write_file<S: Shelf>(
    alloc: Global,
    shelf: &mut S,
    name: &FileName,
    bytes: &[u8],
) -> Result<(), StoreFault>
    ensures { Wrote (S.state shelf.old) (S.state shelf.new) name.now bytes.now result }
{
    shelf.start(alloc, name.as_text())?;
    let mut rest = bytes;
    while !rest.is_empty() {
        let (piece, behind) = rest.split_at(rest.len().min(PIECE));
        shelf.append(alloc, name.as_text(), piece)?;
        rest = behind;
    }
    Ok(())
}
