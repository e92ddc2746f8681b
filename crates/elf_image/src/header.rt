//! The tests of the header, in their order.
ghost use Rattle.std.specs.Prelude.{◌≡◌, ◌≤◌, ◌*◌, false, length, IfNone};
ghost use Rattle.elf_image.specs.Fields.{e_phnum, e_phoff};
ghost use Rattle.elf_image.specs.Tests.{first_failing, has_magic, header_tests, passes};

use crate::fault::{ElfRule, Fault};
use crate::field::{file_half, file_word};

const ELFCLASS32: u8 = 1;

const ELFDATA2LSB: u8 = 1;

const ELFDATA2MSB: u8 = 2;

const EV_CURRENT: u8 = 1;

const ET_EXEC: u16 = 2;

const EM_MICROBLAZE: u16 = 189;

const EM_MICROBLAZE_OLD: u16 = 0xBAAB;

/// Whether the first four bytes are those of an ELF file.
pub fn begins_as_elf(file: &[u8]) -> bool
    ensures { result ≡ has_magic file.now }
{
    file.starts_with(b"\x7FELF")
}

/// Whether `count` bytes from a place on pass an end.
pub fn passes_end(end: u64, from: u32, count: u32) -> bool
    ensures { result ≡ passes end from count }
{
    count > 0 && end < u64::from(from) + u64::from(count)
}

/// The first test of the header that fails.
#[tactic(auto, unfolding(crate::specs::Tests::header_tests))]
pub fn header_fault(file: &[u8]) -> Option<Fault>
    ensures first { result ≡ first_failing (header_tests file.now) }
    ensures header { IfNone result (52 ≤ length file.now) }
    ensures within { IfNone result (passes (length file.now) (e_phoff file.now) (32 * e_phnum file.now) ≡ false) }
{
    if !begins_as_elf(file) {
        return Some(ElfRule::NoMagic.at(0));
    }
    if file.len() < 52 {
        return Some(ElfRule::PastFileEnd.at(0));
    }
    if file[4] != ELFCLASS32 || !(file[5] == ELFDATA2LSB || file[5] == ELFDATA2MSB) {
        return Some(ElfRule::UnknownFormat.at(4));
    }
    if file[6] != EV_CURRENT || file_word(file, 20) != u32::from(EV_CURRENT) {
        return Some(ElfRule::UnknownVersion.at(6));
    }
    if file_half(file, 16) != ET_EXEC {
        return Some(ElfRule::NotExecutable.at(16));
    }
    let machine = file_half(file, 18);
    if !(machine == EM_MICROBLAZE || machine == EM_MICROBLAZE_OLD) {
        return Some(ElfRule::OtherMachine.at(18));
    }
    let count = file_half(file, 44);
    if count != 0 && file_half(file, 42) != 32 {
        return Some(ElfRule::OtherHeaderSize.at(42));
    }
    let start = file_word(file, 28);
    if passes_end(file.len() as u64, start, 32 * u32::from(count)) {
        return Some(ElfRule::PastFileEnd.at(start));
    }
    None
}
