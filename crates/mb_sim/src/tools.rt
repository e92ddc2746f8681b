//! `asm` and `dis`: their answers as statuses.
ghost use Rattle.std.specs.Prelude.{◌≡◌, codes};
ghost use Rattle.host_io.specs.Outside.{SinkState};
ghost use Rattle.mb_sim.specs.Tools.{SaysAssembled, SaysListed, order_of, status_of_tool};
ghost use Rattle.mb_sim.specs.Top.{CountsLoads, CountsWrites};

use crate::status::Status;
use core_regs::Order;
use host_io::{FileName, Name, Shelf, Sink};
use source_tools::{Refusal, asm, dis};
use std::alloc::Global;

/// Assembles the source of a file, and writes the ELF file of its image.
pub fn assemble<S: Shelf>(
    alloc: Global,
    source: &FileName,
    output: &FileName,
    is_little: bool,
    shelf: &mut S,
) -> Status
    ensures says { (out : SinkState) → SaysAssembled source.now output.now is_little (S.state shelf.old) (S.state shelf.new) out out result }
    ensures loads { CountsLoads (S.state shelf.old).faults.load_faults (S.state shelf.new).faults.load_faults result }
    ensures shelf_writes { CountsWrites (S.state shelf.old).faults.write_faults (S.state shelf.new).faults.write_faults result }
{
    let answer = asm(alloc, shelf, source, output, order_of(is_little));
    status_of_tool(answer)
}

/// Prints the instruction words of an image.
pub fn disassemble<S: Shelf, O: Sink>(
    alloc: Global,
    image: &FileName,
    shelf: &mut S,
    out: &mut O,
) -> Status
    ensures says { SaysListed image.now (S.state shelf.old) (S.state shelf.new) (O.state out.old) (O.state out.new) result }
    ensures loads { CountsLoads (S.state shelf.old).faults.load_faults (S.state shelf.new).faults.load_faults result }
    ensures writes { CountsWrites (O.state out.old).faults (O.state out.new).faults result }
    ensures shelf_writes { (S.state shelf.new).faults.write_faults ≡ (S.state shelf.old).faults.write_faults }
{
    let answer = dis(alloc, shelf, image, out);
    status_of_tool(answer)
}

/// The byte order of a file.
fn order_of(is_little: bool) -> Order
    ensures { result ≡ order_of is_little }
{
    if is_little { Order::Little } else { Order::Big }
}

/// The status of an answer.
fn status_of_tool(answer: Result<(), Refusal>) -> Status
    ensures { result ≡ status_of_tool answer }
{
    match answer {
        Ok(()) => Status::Ended,
        Err(Refusal::CannotRead { file }) => Status::ReadFault { file },
        Err(Refusal::TooLong { file }) => Status::TooLong { file },
        Err(Refusal::BadSource { code, line, column }) => Status::BadSource { code, line, column },
        Err(Refusal::BadImage { code, at }) => Status::BadImage {
            core: image_name(),
            code,
            at,
        },
        Err(Refusal::CannotWrite { file }) => Status::WriteFault { file },
        Err(Refusal::NoMemory) => Status::NoMemory,
    }
}

/// The name of the core by which the image of `dis` is told.
fn image_name() -> Name
    ensures { result ≡ codes "image" }
{
    Name::from_text("image").unwrap()
}
