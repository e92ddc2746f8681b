//! Threads through the entries of a run: from what left through one exit to what left through it next.
ghost use Rattle.std.specs.Prelude.{◌≡◌, ◌+◌, ◌-◌, ◌<◌, ◌≤◌, IfOk, [], get_or, length, replicate, set};
ghost use Rattle.run_output.specs.Threads.{Lie, bare, head_of, headed, next_of, threaded};

use crate::pieces::Exit;
use host_io::NoMemory;
use run_journal::{Entry, What};
use std::alloc::Global;
use std::marker::Model;

/// For each exit a thread through the entries that tell what left there, in order: so a file costs no more than its own
/// entries. They are laid by going once over all entries.
///
/// An entry is told by how many there are from it to the last one, and 0 is none. All memory is taken by `reserve`: 4
/// bytes for each entry and exit. Where there are more entries than that, the threads lie through the last ones.
#[derive(Drop)]
pub struct Threads {
    /// The first entry of each link, and of each UART.
    links: Vec<u32>,
    uarts: Vec<u32>,
    /// The next entry of the same exit for each entry, the last entry first.
    next: Vec<u32>,
    room: u32,
}

impl Model for Threads {
    ghost use Rattle.std.specs.Prelude.{◌≤◌, vec_len, vec_capacity};
    ghost use Rattle.run_output.specs.Threads.{Threaded};

    ghost Value = { Threaded };

    ghost view = { λ t. record { links = t.links.items; uarts = t.uarts.items; next = t.next.items; room = t.room } };

    ghost invariant = { λ t. (vec_len t.next ≤ t.room) × (t.room ≤ vec_capacity t.next) };
}

impl Threads {
    /// Takes the memory for so many links, UARTs and entries. It fails only for want of memory.
    pub fn reserve(
        alloc: Global,
        links: usize,
        uarts: usize,
        room: u32,
    ) -> Result<Threads, NoMemory>
        ensures { IfOk result (λ t. t ≡ record { links = replicate links 0; uarts = replicate uarts 0; next = []; room = room }) }
    {
        Ok(Threads {
            links: vec![in alloc; 0; links]?,
            uarts: vec![in alloc; 0; uarts]?,
            next: Vec::with_capacity(alloc, room as usize)?,
            room,
        })
    }

    /// Lays the threads through these entries.
    pub fn lay(&mut self, entries: &[Entry])
        ensures lie { Lie self.new entries.now }
        ensures links { length self.new.links ≡ length self.old.links }
        ensures uarts { length self.new.uarts ≡ length self.old.uarts }
    {
        self.clear();
        let most = fewer(entries.len(), self.room as usize);
        for count in 0..most {
            let place = entries.len() - 1 - count;
            let entry = &entries[place];
            self.thread(&entry.what);
        }
    }

    /// Lets all threads go.
    fn clear(&mut self)
        ensures { self.new ≡ bare self.old }
    {
        self.links.fill(0);
        self.uarts.fill(0);
        self.next.clear();
    }

    /// Threads one more entry, before the others.
    fn thread(&mut self, what: &What)
        requires { length self.old.next < self.old.room }
        ensures { self.new ≡ threaded what.now self.old }
    {
        let count = self.next.len() as u32 + 1;
        let next = self.begin(what, count);
        let _ = self.next.push(next);
    }

    /// Makes an entry the first of its exit, and answers the one that was it.
    fn begin(&mut self, what: &What, count: u32) -> u32
        ensures before { result ≡ next_of what.now self.old }
        ensures after { self.new ≡ headed what.now count self.old }
    {
        match *what {
            What::HostGot { link, .. } => replace_at(&mut self.links, link as usize, count),
            What::Left { uart, .. } => replace_at(&mut self.uarts, uart as usize, count),
            _ => 0,
        }
    }

    /// The number of entries that are threaded.
    pub fn len(&self) -> usize
        ensures { result ≡ length self.now.next }
    {
        self.next.len()
    }

    /// The first entry of an exit.
    pub fn first(&self, exit: Exit) -> u32
        ensures { result ≡ head_of self.now exit }
    {
        match exit {
            Exit::Link(link) => number_at(&self.links, link),
            Exit::Uart(uart) => number_at(&self.uarts, uart),
        }
    }

    /// The next entry of the exit of this one.
    pub fn next(&self, entry: u32) -> u32
        requires { 0 < entry }
        ensures { result ≡ get_or self.now.next (entry - 1) 0 }
    {
        number_at(&self.next, entry as usize - 1)
    }
}

/// The smaller of two numbers.
fn fewer(a: usize, b: usize) -> usize
    ensures first { result ≤ a }
    ensures second { result ≤ b }
{
    if a < b { a } else { b }
}

/// The number at a place; 0 where there is none.
fn number_at(numbers: &[u32], place: usize) -> u32
    ensures { result ≡ get_or numbers.now place 0 }
{
    if place < numbers.len() {
        numbers[place]
    } else {
        0
    }
}

/// Puts another number at a place, and answers the one that was there; 0 where there is no such place.
fn replace_at(numbers: &mut [u32], place: usize, number: u32) -> u32
    ensures before { result ≡ get_or numbers.old place 0 }
    ensures after { numbers.new ≡ set numbers.old place number }
{
    if place < numbers.len() {
        let before = numbers[place];
        numbers[place] = number;
        before
    } else {
        0
    }
}
