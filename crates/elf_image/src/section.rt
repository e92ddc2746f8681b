//! Section headers: those of the symbol table and of its names.
ghost use Rattle.std.specs.Prelude.{◌≡◌, ◌≤◌, ◌<◌, ◌+◌, ◌*◌, false, length, option_copied, IsTrue};
ghost use Rattle.std.specs.List.{find};
ghost use Rattle.elf_image.specs.Symbols.{bytes_of_section, e_shnum, e_shoff, entries_of, has_sections, is_string_table, is_symbol_table, lies_in, section_at, section_header, sections, strings_in, strings_of};
ghost use Rattle.elf_image.specs.Tests.{passes};

use crate::field::{file_half, file_word};
use crate::header::{begins_as_elf, passes_end};
use crate::parts::rest_of;
use host_io::first_of;

const SHT_SYMTAB: u32 = 2;

const SHT_STRTAB: u32 = 3;

/// The size of an Elf32_Sym in bytes.
const SYMBOL_SIZE: u32 = 16;

/// The fields of an Elf32_Shdr that are read.
#[derive(Clone, Copy, Debug)]
pub struct SectionHeader {
    pub sh_type: u32,
    pub sh_offset: u32,
    pub sh_size: u32,
    pub sh_link: u32,
    pub sh_entsize: u32,
}

impl SectionHeader {
    /// The section header that begins at `at`.
    fn read(file: &[u8], at: usize) -> Self
        requires header { 52 ≤ length file.now }
        requires within { at + 40 ≤ length file.now }
        ensures { result ≡ section_at file.now at }
    {
        SectionHeader {
            sh_type: file_word(file, at + 4),
            sh_offset: file_word(file, at + 16),
            sh_size: file_word(file, at + 20),
            sh_link: file_word(file, at + 24),
            sh_entsize: file_word(file, at + 36),
        }
    }

    fn is_symbol_table(&self) -> bool
        ensures { result ≡ is_symbol_table self.now }
    {
        self.sh_type == SHT_SYMTAB && self.sh_entsize == SYMBOL_SIZE
    }

    fn is_string_table(&self) -> bool
        ensures { result ≡ is_string_table self.now }
    {
        self.sh_type == SHT_STRTAB
    }

    fn lies_in(&self, file: &[u8]) -> bool
        ensures { result ≡ lies_in file.now self.now }
    {
        !passes_end(file.len() as u64, self.sh_offset, self.sh_size)
    }

    fn bytes<'a>(&self, file: &'a [u8]) -> &'a [u8]
        ensures { result.now ≡ bytes_of_section file.now self.now }
    {
        first_of(
            rest_of(file, self.sh_offset as usize),
            self.sh_size as usize,
        )
    }
}

/// Whether it is a file of class 32 in a known byte order, with section headers of 40 bytes that lie in it.
#[tactic(auto, unfolding(crate::specs::Symbols::has_sections))]
pub fn has_sections(file: &[u8]) -> bool
    ensures sections { result ≡ has_sections file.now }
    ensures header { IsTrue result → 52 ≤ length file.now }
    ensures within { IsTrue result → passes (length file.now) (e_shoff file.now) (40 * e_shnum file.now) ≡ false }
{
    file.len() >= 52
        && begins_as_elf(file)
        && file[4] == 1
        && (file[5] == 1 || file[5] == 2)
        && file_half(file, 46) == 40
        && !passes_end(
            file.len() as u64,
            file_word(file, 32),
            40 * u32::from(file_half(file, 48)),
        )
}

/// Section header `k`.
#[tactic(auto, unfolding(crate::specs::Symbols::section_header))]
fn section(file: &[u8], k: u16) -> SectionHeader
    requires header { 52 ≤ length file.now }
    requires within { passes (length file.now) (e_shoff file.now) (40 * e_shnum file.now) ≡ false }
    requires there { k < e_shnum file.now }
    ensures { result ≡ section_header file.now k }
{
    SectionHeader::read(file, file_word(file, 32) as usize + 40 * usize::from(k))
}

/// The first symbol table.
pub fn first_symbol_table(file: &[u8]) -> Option<SectionHeader>
    requires header { 52 ≤ length file.now }
    requires within { passes (length file.now) (e_shoff file.now) (40 * e_shnum file.now) ≡ false }
    ensures { result ≡ find is_symbol_table (sections file.now) }
{
    for k in 0..file_half(file, 48) {
        let header = section(file, k);
        if header.is_symbol_table() {
            return Some(header);
        }
    }
    None
}

/// The bytes of the table's entries, where it lies in the file and they are whole.
pub fn entries_of<'a>(file: &'a [u8], table: &SectionHeader) -> Option<&'a [u8]>
    ensures { option_copied result ≡ entries_of file.now table.now }
{
    if table.lies_in(file) && table.sh_size % SYMBOL_SIZE == 0 {
        Some(table.bytes(file))
    } else {
        None
    }
}

/// The bytes of the section of names that a link names.
pub fn strings_of<'a>(file: &'a [u8], link: u32) -> Option<&'a [u8]>
    requires header { 52 ≤ length file.now }
    requires within { passes (length file.now) (e_shoff file.now) (40 * e_shnum file.now) ≡ false }
    ensures { option_copied result ≡ strings_of file.now link }
{
    if link >= u32::from(file_half(file, 48)) {
        return None;
    }
    let strings = section(file, link as u16);
    if strings.is_string_table() && strings.lies_in(file) {
        Some(strings.bytes(file))
    } else {
        None
    }
}
