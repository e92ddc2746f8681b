//! What the segments of a file load.
ghost use Rattle.std.specs.Prelude.{◌≡◌, ◌++◌, ◌∷◌, [], drop, IfOk, OnOk};
ghost use Rattle.elf_image.specs.Elf.{part_of, parts_of};

use crate::image::{Part, Parts};
use crate::segment::ProgramHeader;
use host_io::{Blob, NoMemory, first_of};
use std::alloc::Global;

const PF_X: u32 = 1;

/// The bytes from a place on, none where the place is past the end.
pub fn rest_of(bytes: &[u8], at: usize) -> &[u8]
    ensures { result.now ≡ drop at bytes.now }
{
    if bytes.len() <= at { &[] } else { &bytes[at..] }
}

/// What a segment loads.
fn part_from(alloc: Global, file: &[u8], header: &ProgramHeader) -> Result<Part, NoMemory>
    ensures { IfOk result (λ part. part ≡ part_of file.now header.now) }
{
    let rest = rest_of(file, header.p_offset as usize);
    let bytes = first_of(rest, header.p_filesz as usize);
    let bytes = Vec::from_slice(alloc, bytes)?;
    Ok(Part {
        addr: header.p_vaddr,
        bytes: Blob::from_vec(bytes),
        zeros: header.p_memsz.saturating_sub(header.p_filesz),
        code: header.p_flags % 2 == PF_X,
    })
}

/// Adds what a segment loads, where it has bytes in memory.
#[tactic(auto, unfolding(crate::specs::Elf::parts_of))]
fn add_part(
    alloc: Global,
    file: &[u8],
    header: &ProgramHeader,
    parts: &mut Vec<Part>,
) -> Result<(), NoMemory>
    ensures { OnOk result (parts.new.items ≡ parts.old.items ++ parts_of file.now (header.now ∷ [])) }
{
    if !header.has_bytes() {
        return Ok(());
    }
    let part = part_from(alloc, file, header)?;
    parts.push(part)?;
    Ok(())
}

/// What the segments load, in file order.
#[tactic(auto, using(crate::proofs::Loaded::parts_more), unfolding(crate::specs::Elf::parts_of))]
pub fn read_parts(alloc: Global, file: &[u8], loads: &[ProgramHeader]) -> Result<Parts, NoMemory>
    ensures { IfOk result (λ parts. parts ≡ parts_of file.now loads.now) }
{
    let mut parts = Vec::new(alloc);
    for header in loads {
        add_part(alloc, file, header, &mut parts)?;
    }
    Ok(Parts::from_vec(parts))
}
