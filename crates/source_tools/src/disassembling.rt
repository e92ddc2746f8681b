//! `dis`: the instruction words of an image.
ghost use Rattle.std.specs.Prelude.{◌≡◌, IfErr, IfOk, OnOk, codes};
ghost use Rattle.std.specs.List.{All};
ghost use Rattle.elf_image.specs.Elf.{FitsIn};
ghost use Rattle.source_tools.specs.Answers.{IsImageIn, NotImage, SaysDis};

use crate::listing::print_image;
use crate::loading::load_file;
use crate::refusal::Refusal;
use elf_image::{ElfFault, Image, read_elf};
use host_io::{FileName, Shelf, Sink, StoreFault};
use std::alloc::Global;

/// The most bytes of an image's file.
const IMAGE_LIMIT: usize = 134_217_728;

/// The bytes of a memory that has all addresses.
const ALL_MEMORY: u64 = 4_294_967_296;

/// The image of a file.
fn load_image<S: Shelf>(alloc: Global, shelf: &mut S, file: &FileName) -> Result<Image, Refusal>
    ensures ok { IfOk result (IsImageIn (S.state shelf.old).files file.now) }
    ensures fits { IfOk result (λ image. All (FitsIn 4_294_967_296) image.parts) }
    ensures quiet { OnOk result (S.state shelf.new ≡ S.state shelf.old) }
    ensures refused { IfErr result (NotImage (S.state shelf.old) (S.state shelf.new) file.now) }
{
    let bytes = load_file(alloc, shelf, file, IMAGE_LIMIT)?;
    match read_elf(alloc, bytes.as_slice(), ALL_MEMORY) {
        Ok(image) => Ok(image),
        Err(ElfFault::Refused { code, at }) => Err(Refusal::BadImage { code, at }),
        Err(ElfFault::NoMemory) => Err(Refusal::NoMemory),
    }
}

/// Prints each whole word of the bytes of each code part of a file's image, in the image's byte order: its address, its
/// eight digits and its text.
///
/// # Errors
///
/// The first cause in the order of work: the file, which has at most 134,217,728 bytes, its first test that fails, the
/// output. Where the output is refused it has gained the first bytes of the lines.
pub fn dis<S: Shelf, O: Sink>(
    alloc: Global,
    shelf: &mut S,
    file: &FileName,
    out: &mut O,
) -> Result<(), Refusal>
    ensures { SaysDis (S.state shelf.old) (S.state shelf.new) (O.state out.old) (O.state out.new) file.now result }
{
    let image = load_image(alloc, shelf, file)?;
    match print_image(alloc, out, &image) {
        Ok(()) => Ok(()),
        Err(StoreFault::Failed) => Err(Refusal::CannotWrite { file: output() }),
        Err(StoreFault::NoMemory) => Err(Refusal::NoMemory),
    }
}

/// The name by which the output stream is told.
fn output() -> FileName
    ensures { result ≡ codes "output" }
{
    FileName::from_text("output").unwrap()
}
