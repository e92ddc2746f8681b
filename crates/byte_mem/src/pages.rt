//! The words of a memory, in pages.
ghost use Rattle.byte_mem.specs.Access.{bytes_of, encoded, overwritten};
ghost use Rattle.byte_mem.specs.Words.{zero_word};
ghost use Rattle.std.specs.Prelude.{length, replicate, slice_get, slice_index_or, slice_set, IfNone, IfOk, IfSome, Some, [], ◌≡◌, ◌*◌, ◌+◌, ◌<◌, ◌≤◌};

use crate::lanes::{Word, write_lanes};
use core_regs::{Order, Size};
use std::alloc::{AllocError, Global};
use std::marker::Model;

/// The words of a page, of 4,096 bytes.
const PAGE_WORDS: usize = 1024;

/// The words of 4,096 bytes, in the order of their addresses.
type Page = [Word; PAGE_WORDS];

/// Words in the order of their addresses, in pages. They mean the list of the words.
#[derive(Drop)]
pub(crate) struct Pages {
    pages: Vec<Page>,
    /// The number of words.
    count: usize,
}

impl Model for Pages {
    ghost use Rattle.std.specs.Prelude.{List, ℕ};
    ghost use Rattle.byte_mem.specs.Words.{ArePages, words_of};

    ghost Value = { List (List ℕ) };

    ghost view = { λ p. words_of p.pages.items };

    ghost invariant = { λ p. ArePages p.pages.items p.count };
}

impl Pages {
    /// So many pages of words of 0.
    pub(crate) fn zeros(alloc: Global, count: usize) -> Result<Pages, AllocError>
        requires { count ≤ 16384 }
        ensures { IfOk result (λ words. words ≡ replicate (1024 * count) zero_word) }
    {
        Ok(Pages {
            pages: vec![in alloc; [[0; 4]; PAGE_WORDS]; count]?,
            count: count * PAGE_WORDS,
        })
    }

    /// The number of words.
    pub(crate) fn len(&self) -> usize
        ensures { result ≡ length self.now }
    {
        self.count
    }

    /// Word `k`; None exactly past the end.
    pub(crate) fn get(&self, k: usize) -> Option<Word>
        ensures found { IfSome result (λ word. slice_get self.now k ≡ Some word) }
        ensures past { IfNone result (length self.now ≤ k) }
    {
        if k < self.count {
            Some(self.pages.as_flattened()[k])
        } else {
            None
        }
    }

    /// Writes a word.
    pub(crate) fn set(&mut self, k: usize, word: Word)
        requires { k < length self.old }
        ensures { self.new ≡ slice_set self.old k word }
    {
        self.pages[k / PAGE_WORDS][k % PAGE_WORDS] = word;
    }

    /// Writes the low bytes of `value` from place `at` of a word on.
    pub(crate) fn write(&mut self, k: usize, at: usize, size: Size, order: Order, value: u32)
        requires word { k < length self.old }
        requires lanes { at + bytes_of size ≤ 4 }
        ensures { self.new ≡ slice_set self.old k (overwritten (slice_index_or self.old k []) at (encoded order size value)) }
    {
        write_lanes(
            &mut self.pages[k / PAGE_WORDS][k % PAGE_WORDS],
            at,
            size,
            order,
            value,
        );
    }
}
