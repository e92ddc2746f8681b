//! Loading one file.
ghost use Rattle.std.specs.Prelude.{◌≡◌, IfErr, IfOk, OnOk};
ghost use Rattle.source_tools.specs.Loaded.{Holds, NotLoaded};

use crate::refusal::Refusal;
use host_io::{Blob, FileName, LoadFault, Shelf};
use std::alloc::Global;

/// The bytes of a file of at most `limit` bytes.
#[tactic(auto, using(crate::proofs::Sames::same_state))]
pub fn load_file<S: Shelf>(
    alloc: Global,
    shelf: &mut S,
    file: &FileName,
    limit: usize,
) -> Result<Blob, Refusal>
    ensures ok { IfOk result (Holds (S.state shelf.old).files file.now limit) }
    ensures quiet { OnOk result (S.state shelf.new ≡ S.state shelf.old) }
    ensures refused { IfErr result (NotLoaded (S.state shelf.old) (S.state shelf.new) file.now limit) }
{
    match shelf.load(alloc, file.as_text(), limit) {
        Ok(bytes) => Ok(bytes),
        Err(LoadFault::TooLong) => Err(Refusal::TooLong {
            file: file.copied(),
        }),
        Err(LoadFault::Failed) => Err(Refusal::CannotRead {
            file: file.copied(),
        }),
        Err(LoadFault::NoMemory) => Err(Refusal::NoMemory),
    }
}
