//! A memory, kept as words.
ghost use Rattle.byte_mem.specs.Access.{bytes_of, fits, loaded, overwritten, stored};
ghost use Rattle.byte_mem.specs.Sizes.{IsFaultOf, IsSize};
ghost use Rattle.std.specs.List.{concat};
ghost use Rattle.std.specs.Prelude.{length, replicate, slice_get, IfErr, IfOk, IsOk, IsTrue, [], ◌∷◌, ◌≡◌, ◌%◌, ◌*◌, ◌+◌, ◌<◌, ◌≤◌, ◌↔◌};

use crate::lanes::{Word, read_lanes};
use crate::pages::Pages;
use core_regs::{Order, Size};
use std::alloc::Global;
use std::marker::Model;

/// The bytes of a page: a memory is a whole number of pages.
const PAGE: u64 = 4096;

/// The bytes of the largest memory.
const MAX_SIZE: u64 = 67_108_864;

/// The address of an access of which a byte lies past the end of the memory.
#[derive(Clone, Copy, PartialEq, Eq, Debug)]
pub struct Outside(pub u32);

/// Why a memory was not made.
#[derive(Clone, Copy, PartialEq, Eq, Debug)]
pub enum MemoryFault {
    /// The size isn't a multiple of 4,096 bytes from 4,096 to 67,108,864.
    BadSize(u64),
    /// There was no memory for the bytes.
    NoMemory,
}

/// The private memory of a core: its bytes from address 0 on.
///
/// All that it needs is taken by `new`: no other call takes memory.
#[derive(Drop)]
pub struct Memory {
    words: Pages,
}

impl Model for Memory {
    ghost use Rattle.std.specs.List.{concat};
    ghost use Rattle.std.specs.Prelude.{List, ℕ};
    ghost use Rattle.byte_mem.specs.Words.{IsMemory};

    ghost Value = { List ℕ };

    ghost view = { λ m. concat m.words };

    ghost invariant = { λ m. IsMemory m.words };
}

impl Memory {
    /// Makes a memory of `size` bytes, all 0.
    ///
    /// `BadSize` comes exactly where `size` isn't a multiple of 4,096 from 4,096 to 67,108,864, and `NoMemory` only for
    /// want of memory.
    pub fn new(alloc: Global, size: u64) -> Result<Memory, MemoryFault>
        ensures made { IfOk result (λ m. (m ≡ replicate size 0) × IsSize size) }
        ensures refused { IfErr result (IsFaultOf size) }
    {
        if size < PAGE || size > MAX_SIZE || size % PAGE != 0 {
            return Err(MemoryFault::BadSize(size));
        }
        match Pages::zeros(alloc, (size / PAGE) as usize) {
            Ok(words) => Ok(Memory { words }),
            Err(_) => Err(MemoryFault::NoMemory),
        }
    }

    /// The number of bytes.
    pub fn size(&self) -> u64
        ensures bytes { result ≡ length self.now }
        ensures lawful { IsSize result }
    {
        self.words.len() as u64 * 4
    }

    /// The byte at an address; None exactly past the end.
    pub fn byte(&self, addr: u32) -> Option<u8>
        ensures { result ≡ slice_get self.now addr }
    {
        let at = addr as usize;
        let word = self.words.get(at / 4)?;
        Some(word[at % 4])
    }

    /// Reads the bytes from `addr` on as one number; its higher bits are 0.
    ///
    /// `Outside` comes exactly where a byte lies past the end.
    pub fn read(&self, addr: u32, size: Size, order: Order) -> Result<u32, Outside>
        requires { addr % bytes_of size ≡ 0 }
        ensures loaded { IfOk result (λ value. loaded self.now size order addr ≡ Some value) }
        ensures outside { IfErr result (λ e. (e ≡ record { 0 = addr }) × (loaded self.now size order addr ≡ None)) }
    {
        let at = addr as usize;
        match self.words.get(at / 4) {
            Some(word) => Ok(read_lanes(word, at % 4, size, order)),
            None => Err(Outside(addr)),
        }
    }

    /// Writes the low bits of `value` to the bytes from `addr` on.
    ///
    /// `Outside` comes exactly where a byte lies past the end, and then nothing changes.
    pub fn write(&mut self, addr: u32, size: Size, order: Order, value: u32) -> Result<(), Outside>
        requires { addr % bytes_of size ≡ 0 }
        ensures within { IsOk result ↔ IsTrue (fits self.old addr (bytes_of size)) }
        ensures memory { self.new ≡ stored self.old size order addr value }
        ensures outside { IfErr result (λ e. (e ≡ record { 0 = addr }) × (self.new ≡ self.old)) }
    {
        let at = addr as usize;
        if at / 4 < self.words.len() {
            self.words.write(at / 4, at % 4, size, order, value);
            Ok(())
        } else {
            Err(Outside(addr))
        }
    }

    /// Copies `bytes` to the addresses from `addr` on.
    ///
    /// `Outside` comes exactly where one of them would lie past the end, and then nothing changes. So no bytes at all are
    /// copied to every address.
    pub fn fill(&mut self, addr: u32, bytes: &[u8]) -> Result<(), Outside>
        ensures within { IsOk result ↔ IsTrue (fits self.old addr (length bytes.now)) }
        ensures memory { self.new ≡ overwritten self.old addr bytes.now }
        ensures outside { IfErr result (λ e. (e ≡ record { 0 = addr }) × (self.new ≡ self.old)) }
    {
        let at = addr as usize;
        if bytes.len() > (self.size() as usize).saturating_sub(at) {
            return Err(Outside(addr));
        }
        if bytes.is_empty() {
            return Ok(());
        }
        let (head, rest) = bytes.split_at(bytes.len().min((4 - at % 4) % 4));
        let (words, tail) = rest.as_chunks::<4>();
        self.copy_bytes(at, head);
        self.copy_words(at + head.len(), words);
        self.copy_bytes(at + head.len() + 4 * words.len(), tail);
        Ok(())
    }

    /// Copies bytes to the addresses from `at` on.
    fn copy_bytes(&mut self, at: usize, bytes: &[u8])
        requires within { at + length bytes.now ≤ length self.old }
        requires small { length self.old ≤ 67108864 }
        ensures { self.new ≡ overwritten self.old at bytes.now }
    {
        for (k, &byte) in bytes.iter().enumerate() {
            self.set_byte(at + k, byte);
        }
    }

    /// Copies the bytes of words to the addresses from `at` on.
    fn copy_words(&mut self, at: usize, words: &[Word])
        requires aligned { 0 < length words.now → at % 4 ≡ 0 }
        requires within { at + 4 * length words.now ≤ length self.old }
        ensures { self.new ≡ overwritten self.old at (concat words.now) }
    {
        for (k, word) in words.iter().enumerate() {
            self.set_word(at / 4 + k, word);
        }
    }

    /// Writes the byte at an address.
    fn set_byte(&mut self, at: usize, byte: u8)
        requires { at < length self.old }
        ensures { self.new ≡ overwritten self.old at (byte ∷ []) }
    {
        self.words
            .write(at / 4, at % 4, Size::Byte, Order::Big, u32::from(byte));
    }

    /// Writes the bytes of word `k`.
    fn set_word(&mut self, k: usize, word: &Word)
        requires { 4 * k + 4 ≤ length self.old }
        ensures { self.new ≡ overwritten self.old (4 * k) word.now }
    {
        self.words.set(k, *word);
    }
}
