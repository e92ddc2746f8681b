//! Words that were fetched ahead.

ghost use Rattle.std.specs.Prelude.{◌≡◌, ℕ, ◌<◌, ◌+◌, ◌==◌, ◌%◌, ◌||◌, List, Some, slice_get};
ghost use Rattle.std.specs.List.{list_any};
ghost use Rattle.core_regs.specs.declared.causes.Size.TheVariants.{Word};
ghost use Rattle.core_regs.specs.State.{bare};
ghost use Rattle.core_regs.specs.declared.causes.Order.{Order};
ghost use Rattle.byte_mem.specs.Access.{loaded, stored};
ghost use Rattle.isa_step.specs.Due.{here_at, met};
ghost use Rattle.isa_step.specs.Effects.{after_store};
ghost use Rattle.isa_step.specs.declared.acts.Done.{Done};
ghost use Rattle.isa_step.specs.declared.acts.Store.{Store};
ghost use Rattle.prepared_act.specs.Retiring.{flow_of};
ghost use Rattle.pipe_latch.specs.Latches.{AreWords, holds_at};

use byte_mem::Memory;
use core_regs::{Arch, Order, Size};
use prepared_act::Flow;

/// A word that was fetched, and its address.
#[derive(Clone, Copy, Debug, Default, PartialEq, Eq)]
pub struct Fetched {
    pub addr: u32,
    pub word: u32,
}

/// No word: none has such an address.
pub(crate) const NOTHING: Fetched = Fetched {
    addr: u32::MAX,
    word: 0,
};

/// How many bytes are fetched ahead: as many words as the stages before execution hold.
const AHEAD: u32 = 12;

/// Words that were fetched.
#[derive(Drop)]
pub struct Queue {
    /// The words, each at the place that its address has in a group of four.
    pub words: [Fetched; 4],
    /// The address of the next word to fetch.
    pub(crate) next: u32,
    /// The order of bytes in which they were read.
    pub order: Order,
}

/// The place of the word at an address.
#[inline(always)]
fn place_of(addr: u32) -> usize
    ensures { result < 4 }
{
    (addr / 4) as usize % 4
}

/// The word at an address of memory.
fn read_word(m: &Memory, addr: u32, order: Order) -> Option<u32>
    requires { addr % 4 ≡ 0 }
    ensures { result ≡ loaded m.now Word order addr }
{
    match m.read(addr, Size::Word, order) {
        Ok(word) => Some(word),
        Err(_) => None,
    }
}

impl Queue {
    /// No word was fetched yet; the first is the one at an address.
    pub fn new(order: Order, pc: u32) -> Queue
        ensures { (m : List ℕ) (order : Order) → AreWords m order result.words }
    {
        Queue {
            words: [NOTHING; 4],
            next: pc,
            order,
        }
    }

    #[inline(always)]
    fn at(&self, place: usize) -> &Fetched
        requires { place < 4 }
        ensures { slice_get self.now.words place ≡ Some result.now }
    {
        &self.words[place]
    }

    fn holds(&self, place: u64) -> bool
        ensures { result ≡ list_any (holds_at place) self.now.words }
    {
        self.words.iter().any(|fetched| u64::from(fetched.addr) <= place
            && place < u64::from(fetched.addr) + 4)
    }

    /// Whether a store hit a fetched word, by its address.
    pub fn struck(&self, addr: u32) -> bool
        ensures { result ≡ list_any (holds_at addr) self.now.words }
    {
        self.holds(u64::from(addr))
    }

    /// Whether one of the four bytes from an address on lies in a fetched word.
    fn touched(&self, addr: u32) -> bool
        ensures { result ≡ list_any (holds_at addr) self.now.words || list_any (holds_at (addr + 3)) self.now.words }
    {
        self.struck(addr) || self.holds(u64::from(addr) + 3)
    }

    /// All words go, and the next one is fetched at an address.
    fn flush(&mut self, next: u32)
        ensures words { (m : List ℕ) (order : Order) → AreWords m order self.new.words }
        ensures order { self.new.order ≡ self.old.order }
    {
        self.words = [NOTHING; 4];
        self.next = next;
    }

    /// The word at an address of memory, by the words that were fetched or else by memory.
    #[inline(always)]
    fn word_at(&self, m: &Memory, addr: u32) -> Option<u32>
        requires aligned { addr % 4 ≡ 0 }
        requires words { AreWords m.now self.now.order self.now.words }
        ensures { result ≡ loaded m.now Word self.now.order addr }
    {
        let fetched = self.at(place_of(addr));
        if fetched.addr == addr {
            return Some(fetched.word);
        }
        read_word(m, addr, self.order)
    }

    /// The word at pc, by the words that were fetched or else by memory.
    #[tactic(auto, unfolding(isa_step::specs::Due::here_at))]
    #[inline(always)]
    pub fn word_at_pc(&self, a: &Arch, m: &Memory) -> Option<u32>
        requires words { AreWords m.now self.now.order self.now.words }
        ensures { met result ≡ here_at (bare a.now) m.now }
    {
        if a.pc % 4 != 0 {
            return None;
        }
        if a.order != self.order {
            return read_word(m, a.pc, a.order);
        }
        self.word_at(m, a.pc)
    }

    /// Fetches the next word, if it lies so far ahead of pc at most that a stage has room for it.
    #[inline(always)]
    pub fn fetch(&mut self, m: &Memory, pc: u32)
        ensures order { self.new.order ≡ self.old.order }
        ensures words { AreWords m.now self.old.order self.old.words → AreWords m.now self.new.order self.new.words }
    {
        let ahead = self.next.wrapping_sub(pc);
        if ahead >= AHEAD {
            if ahead > AHEAD {
                self.next = pc;
            }
            return;
        }
        if self.next % 4 != 0 {
            return;
        }
        if let Ok(word) = m.read(self.next, Size::Word, self.order) {
            self.words[place_of(self.next)] = Fetched {
                addr: self.next,
                word,
            };
            self.next = self.next.wrapping_add(4);
        }
    }

    /// What a store to an address leaves of the fetched words, before the next act at an address.
    fn after_store(&mut self, addr: u32, next: u32)
        ensures order { self.new.order ≡ self.old.order }
        ensures words { (m : List ℕ) (order : Order) (store : Store) → addr ≡ store.addr → AreWords m self.old.order self.old.words → AreWords (stored m store.size order store.addr store.word) self.new.order self.new.words }
    {
        if self.touched(addr) {
            self.flush(next);
        }
    }

    /// Goes on after an act at pc. Where the next word isn't the one after it, all words go; and so they do at a store
    /// into one of them.
    #[inline(always)]
    pub fn follow(&mut self, flow: Flow, pc: u32, next: u32)
        ensures order { self.new.order ≡ self.old.order }
        ensures words { (m : List ℕ) (order : Order) (done : Done) → flow ≡ flow_of done → AreWords m self.old.order self.old.words → AreWords (after_store order done.store m) self.new.order self.new.words }
    {
        if next != pc.wrapping_add(4) {
            self.flush(next);
            return;
        }
        match flow {
            Flow::On => {}
            Flow::Jumped => self.flush(next),
            Flow::Stored(addr) => self.after_store(addr, next),
        }
    }
}
