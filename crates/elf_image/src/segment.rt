//! Program headers, and what their segments have in memory.
ghost use Rattle.std.specs.Prelude.{◌≡◌, ◌≤◌, ◌+◌, length, OnOk, ◌++◌};
ghost use Rattle.elf_image.specs.Fields.{e_phnum, e_phoff, first_loads, half, header_at, is_load, loads, program_header, word};
ghost use Rattle.elf_image.specs.Tests.{end_of, has_bytes, holds};

use crate::field::file_word;

const PT_LOAD: u32 = 1;

/// The fields of an Elf32_Phdr that are read, and its index among all program headers.
#[derive(Clone, Copy, Debug)]
pub struct ProgramHeader {
    pub index: u32,
    pub p_type: u32,
    pub p_offset: u32,
    pub p_vaddr: u32,
    pub p_filesz: u32,
    pub p_memsz: u32,
    pub p_flags: u32,
}

impl ProgramHeader {
    /// The program header that begins at `at`.
    pub fn read(file: &[u8], index: u16, at: usize) -> Self
        requires header { 52 ≤ length file.now }
        requires within { at + 32 ≤ length file.now }
        ensures { result ≡ header_at file.now index at }
    {
        ProgramHeader {
            index: u32::from(index),
            p_type: file_word(file, at),
            p_offset: file_word(file, at + 4),
            p_vaddr: file_word(file, at + 8),
            p_filesz: file_word(file, at + 16),
            p_memsz: file_word(file, at + 20),
            p_flags: file_word(file, at + 24),
        }
    }

    pub fn is_load(&self) -> bool
        ensures { result ≡ is_load self.now }
    {
        self.p_type == PT_LOAD
    }

    /// Whether it has bytes in memory.
    pub fn has_bytes(&self) -> bool
        ensures { result ≡ has_bytes self.now }
    {
        self.p_memsz > 0
    }

    pub fn start(&self) -> u64
        ensures { result ≡ self.now.p_vaddr }
    {
        u64::from(self.p_vaddr)
    }

    /// The address after its last byte in memory.
    pub fn end(&self) -> u64
        ensures { result ≡ end_of self.now }
    {
        u64::from(self.p_vaddr) + u64::from(self.p_memsz)
    }

    /// Whether it has this address in memory.
    pub fn holds(&self, address: u32) -> bool
        ensures { result ≡ holds address self.now }
    {
        self.p_vaddr <= address && u64::from(address) < self.end()
    }
}
