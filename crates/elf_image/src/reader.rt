//! The tests of the segments, and the image of a file that passes all tests.
ghost use Rattle.std.specs.Prelude.{◌≡◌, ◌≤◌, ◌*◌, ◌∷◌, [], ◌++◌, false, length, IfOk, IfErr, OnOk, filter, flat_map};
ghost use Rattle.std.specs.List.{list_any};
ghost use Rattle.elf_image.specs.Elf.{ElfOf, IsLoadable, IsRefusal};
ghost use Rattle.elf_image.specs.Fields.{e_phnum, e_phoff, first_loads, is_load, loads};
ghost use Rattle.elf_image.specs.Tests.{entry_test, first_failing, has_bytes, holds, load_tests, passes, segment_tests};

use crate::fault::{ElfFault, ElfRule, Fault};
use crate::field::{file_half, file_word, order};
use crate::header::{header_fault, passes_end};
use crate::image::Image;
use crate::overlap::overlap_fault;
use crate::parts::read_parts;
use crate::segment::ProgramHeader;
use host_io::NoMemory;
use std::alloc::Global;

/// Keeps a program header that is a PT_LOAD.
fn keep_load(loads: &mut Vec<ProgramHeader>, header: ProgramHeader) -> Result<(), NoMemory>
    ensures { OnOk result (loads.new.items ≡ loads.old.items ++ filter is_load (header ∷ [])) }
{
    if !header.is_load() {
        return Ok(());
    }
    loads.push(header)?;
    Ok(())
}

/// The PT_LOADs, in file order.
#[tactic(auto, using(std::proofs::lemmas::List::FromFn::filter_of_map_range_with_len_more), unfolding(crate::specs::Fields::program_header))]
fn read_loads(alloc: Global, file: &[u8]) -> Result<Vec<ProgramHeader>, NoMemory>
    requires header { 52 ≤ length file.now }
    requires within { passes (length file.now) (e_phoff file.now) (32 * e_phnum file.now) ≡ false }
    ensures { IfOk result (λ v. v.items ≡ loads file.now) }
{
    let start = file_word(file, 28) as usize;
    let count = file_half(file, 44);
    let mut loads = Vec::new(alloc);
    for k in 0..count {
        let header = ProgramHeader::read(file, k, start + 32 * usize::from(k));
        keep_load(&mut loads, header)?;
    }
    Ok(loads)
}

/// The first test of a segment that fails, in a file of `size` bytes.
#[tactic(auto, unfolding(crate::specs::Tests::segment_tests))]
fn segment_fault(size: u64, memory: u64, header: &ProgramHeader) -> Option<Fault>
    ensures { result ≡ first_failing (segment_tests size memory header.now) }
{
    if header.p_filesz > header.p_memsz {
        return Some(ElfRule::MoreThanItsMemory.at(header.index));
    }
    if passes_end(size, header.p_offset, header.p_filesz) {
        return Some(ElfRule::PastFileEnd.at(header.p_offset));
    }
    if passes_end(memory, header.p_vaddr, header.p_memsz) {
        return Some(ElfRule::PastMemoryEnd.at(header.index));
    }
    None
}

/// The first test of one segment that fails, in file order.
#[tactic(auto, using(crate::proofs::Firsts::first_failing_append))]
fn segments_fault(size: u64, memory: u64, loads: &[ProgramHeader]) -> Option<Fault>
    ensures { result ≡ first_failing (flat_map (segment_tests size memory) loads.now) }
{
    for header in loads {
        if let Some(fault) = segment_fault(size, memory, header) {
            return Some(fault);
        }
    }
    None
}

fn any_has_bytes(loads: &[ProgramHeader]) -> bool
    ensures { result ≡ list_any has_bytes loads.now }
{
    loads.iter().any(|header| header.has_bytes())
}

fn any_holds(loads: &[ProgramHeader], address: u32) -> bool
    ensures { result ≡ list_any (holds address) loads.now }
{
    loads.iter().any(|header| header.holds(address))
}

/// The test of the entry, where it fails.
fn entry_fault(loads: &[ProgramHeader], entry: u32) -> Option<Fault>
    ensures { result ≡ first_failing (entry_test loads.now entry ∷ []) }
{
    if entry % 4 == 0 && any_holds(loads, entry) {
        return None;
    }
    Some(ElfRule::BadEntry.at(entry))
}

/// The first test of the segments that fails.
#[tactic(auto, using(crate::proofs::Firsts::first_failing_append), unfolding(crate::specs::Tests::load_tests))]
fn loads_fault(
    alloc: Global,
    size: u64,
    memory: u64,
    entry: u32,
    loads: &[ProgramHeader],
) -> Result<Option<Fault>, NoMemory>
    ensures { IfOk result (λ fault. fault ≡ first_failing (load_tests size memory entry loads.now)) }
{
    if let Some(fault) = segments_fault(size, memory, loads) {
        return Ok(Some(fault));
    }
    if !any_has_bytes(loads) {
        return Ok(Some(ElfRule::NothingToLoad.at(0)));
    }
    if let Some(fault) = overlap_fault(alloc, loads)? {
        return Ok(Some(fault));
    }
    Ok(entry_fault(loads, entry))
}

/// The image of an ELF32 executable, for a core with `memory` bytes from address 0 on.
///
/// `Refused` is the first test that fails. Its code and `at` are, in the order of the tests:
///
/// | Code | Fails where | `at` |
/// |---|---|---|
/// | 701 | the file doesn't begin as ELF | 0 |
/// | 706 | it has fewer bytes than a header | 0 |
/// | 702 | it isn't of class 32, or its byte order is unknown | 4 |
/// | 703 | one of its versions isn't the current one | 6 |
/// | 704 | it isn't an executable (ET_EXEC) | 16 |
/// | 705 | its machine isn't MicroBlaze, by its number or the old one | 18 |
/// | 707 | it has program headers whose size isn't 32 | 42 |
/// | 706 | they don't lie in the file | e_phoff |
/// | 710 | a PT_LOAD has more bytes in the file than in memory | its index |
/// | 706 | its bytes don't lie in the file | its p_offset |
/// | 709 | it passes the memory's end | its index |
/// | 708 | no PT_LOAD has bytes in memory | 0 |
/// | 711 | a PT_LOAD shares a byte in memory with an earlier one | its index |
/// | 712 | the entry isn't a multiple of 4 in a PT_LOAD | e_entry |
///
/// The tests 710, 706 and 709 of one segment come before those of the next. `NoMemory` is only
/// for want of memory. The time grows with n log n for n program headers, and with the bytes that
/// are loaded, of which no more than `memory` are.
#[tactic(auto, using(crate::proofs::Firsts::first_failing_append))]
pub fn read_elf(alloc: Global, file: &[u8], memory: u64) -> Result<Image, ElfFault>
    ensures ok { IfOk result (ElfOf file.now memory) }
    ensures loadable { IfOk result (IsLoadable memory) }
    ensures err { IfErr result (IsRefusal file.now memory) }
{
    if let Some(fault) = header_fault(file) {
        return Err(fault.refusal());
    }
    let loads = read_loads(alloc, file)?;
    let entry = file_word(file, 24);
    let size = file.len() as u64;
    if let Some(fault) = loads_fault(alloc, size, memory, entry, &loads)? {
        return Err(fault.refusal());
    }
    let parts = read_parts(alloc, file, &loads)?;
    Ok(Image {
        order: order(file),
        entry,
        parts,
    })
}
