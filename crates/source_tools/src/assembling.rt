//! `asm`: a source to an ELF file.
ghost use Rattle.std.specs.Prelude.{◌≡◌, IfErr, IfOk, OnOk};
ghost use Rattle.source_tools.specs.Answers.{IsFileOf, NotAssembled, SaysAsm};

use crate::elf_file::elf_file;
use crate::loading::load_file;
use crate::refusal::Refusal;
use core_regs::Order;
use host_io::{Blob, FileName, Shelf, StoreFault};
use mb_asm::{AsmFault, assemble};
use piece_output::write_file;
use std::alloc::Global;

/// The most bytes of a source.
const SOURCE_LIMIT: usize = 4_194_304;

/// The ELF file of what a source is assembled to.
fn assembled_file<S: Shelf>(
    alloc: Global,
    shelf: &mut S,
    source: &FileName,
    order: Order,
) -> Result<Blob, Refusal>
    ensures ok { IfOk result (IsFileOf (S.state shelf.old).files source.now order) }
    ensures quiet { OnOk result (S.state shelf.new ≡ S.state shelf.old) }
    ensures refused { IfErr result (NotAssembled (S.state shelf.old) (S.state shelf.new) source.now) }
{
    let bytes = load_file(alloc, shelf, source, SOURCE_LIMIT)?;
    match assemble(alloc, bytes.as_slice(), order) {
        Ok(assembled) => match elf_file(alloc, &assembled.image) {
            Ok(file) => Ok(file),
            Err(_) => Err(Refusal::NoMemory),
        },
        Err(AsmFault::Refused { code, line, column }) => Err(Refusal::BadSource {
            code,
            line,
            column,
        }),
        Err(AsmFault::NoMemory) => Err(Refusal::NoMemory),
    }
}

/// Assembles the source of a file, and writes the ELF file of its image.
///
/// # Errors
///
/// The first cause in the order of work: the source, which has at most 4,194,304 bytes, its first fault, the output. Nothing
/// is written before the image is made. Where the output is refused it is as before, or the first bytes of the ELF file.
pub fn asm<S: Shelf>(
    alloc: Global,
    shelf: &mut S,
    source: &FileName,
    output: &FileName,
    order: Order,
) -> Result<(), Refusal>
    ensures { SaysAsm (S.state shelf.old) (S.state shelf.new) source.now output.now order result }
{
    let file = assembled_file(alloc, shelf, source, order)?;
    match write_file(alloc, shelf, output, file.as_slice()) {
        Ok(()) => Ok(()),
        Err(StoreFault::Failed) => Err(Refusal::CannotWrite {
            file: output.copied(),
        }),
        Err(StoreFault::NoMemory) => Err(Refusal::NoMemory),
    }
}
