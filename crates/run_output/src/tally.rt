//! What the entries of a run tell of its links and UARTs, counted.
ghost use Rattle.std.specs.Prelude.{◌≡◌, ◌+◌, ◌≤◌, ◌<◌, IfOk, List, ℕ, get_or, length, set};
ghost use Rattle.board_file.specs.declared.board.LinkRow.{LinkRow};
ghost use Rattle.run_output.specs.Tally.{Covers, Few, Fit, HasByte, Reaches, ReachesAll, IsTally, cleared, counted, place_of, port_count, sent_of, taken_of};

use board_file::{End, LinkRow};
use host_io::NoMemory;
use run_journal::{Entry, What};
use std::alloc::Global;
use std::marker::Model;

/// How many items went into a link and came out of it.
#[derive(Clone, Copy, Debug, PartialEq, Eq)]
pub struct LinkCounts {
    /// The items that a core or the host put in.
    pub sent: u64,
    /// The items that a core or the host took out.
    pub taken: u64,
}

/// What the entries of a run tell of links and UARTs, counted by going over them once. It means its counters.
///
/// All memory is taken by `reserve`: a counter for each port up to the last that a link names, each link and each UART.
#[derive(Drop)]
pub struct Tally {
    /// The items that each port sent, and those that it got.
    sent: Vec<u64>,
    got: Vec<u64>,
    /// The items that the host put into each link, and those that it took out.
    host_sent: Vec<u64>,
    host_got: Vec<u64>,
    /// The bytes that left each UART.
    left: Vec<u64>,
}

impl Model for Tally {
    ghost use Rattle.run_output.specs.Tally.{Counters};

    ghost Value = { Counters };

    ghost view = { λ t. record { sent = t.sent.items; got = t.got.items; host_sent = t.host_sent.items; host_got = t.host_got.items; left = t.left.items } };
}

impl Tally {
    /// Takes the memory for these links and so many UARTs. It fails only for want of memory.
    pub fn reserve(alloc: Global, links: &[LinkRow], uarts: usize) -> Result<Tally, NoMemory>
        ensures covers { IfOk result (λ t. Covers t links.now) }
        ensures uarts { IfOk result (λ t. length t.left ≡ uarts) }
    {
        let (ports, links) = (places(links), links.len());
        Ok(Tally {
            sent: vec![in alloc; 0; ports]?,
            got: vec![in alloc; 0; ports]?,
            host_sent: vec![in alloc; 0; links]?,
            host_got: vec![in alloc; 0; links]?,
            left: vec![in alloc; 0; uarts]?,
        })
    }

    /// Counts these entries, and forgets those that were counted before.
    pub fn count_all(&mut self, entries: &[Entry])
        ensures tells { IsTally self.new entries.now }
        ensures covers { (rows : List LinkRow) → Covers self.old rows → Covers self.new rows }
        ensures fit { (rows : List LinkRow) → Covers self.old rows → Fit self.new rows }
        ensures uarts { length self.new.left ≡ length self.old.left }
    {
        self.clear();
        for k in 0..entries.len() {
            let entry = &entries[k];
            self.count(entry);
        }
    }

    /// Sets all counters to 0.
    fn clear(&mut self)
        ensures { self.new ≡ cleared self.old }
    {
        self.sent.fill(0);
        self.got.fill(0);
        self.host_sent.fill(0);
        self.host_got.fill(0);
        self.left.fill(0);
    }

    /// Counts one more entry.
    fn count(&mut self, entry: &Entry)
        requires few { Few self.old }
        ensures counted { self.new ≡ counted entry.now.core entry.now.what self.old }
        ensures byte { HasByte entry.now.what }
    {
        match entry.what {
            What::Sent { port, .. } => count_at(&mut self.sent, place_of(entry.core, port)),
            What::Got { port, .. } => count_at(&mut self.got, place_of(entry.core, port)),
            What::HostSent { link, .. } => count_at(&mut self.host_sent, link as usize),
            What::HostGot { link, .. } => count_at(&mut self.host_got, link as usize),
            What::Left { uart, .. } => count_at(&mut self.left, uart as usize),
            _ => {}
        }
    }

    /// What was counted of the link of this number, which has this row.
    pub fn link(&self, link: usize, row: &LinkRow) -> LinkCounts
        requires sent { sent_of self.now link row.now ≤ 18446744073709551615 }
        requires taken { taken_of self.now link row.now ≤ 18446744073709551615 }
        ensures { result ≡ record { sent = sent_of self.now link row.now; taken = taken_of self.now link row.now } }
    {
        LinkCounts {
            sent: port_count(&self.sent, &row.from) + count_of(&self.host_sent, link),
            taken: port_count(&self.got, &row.to) + count_of(&self.host_got, link),
        }
    }

    /// The bytes that left the UART of this number.
    pub fn uart(&self, uart: usize) -> u64
        ensures { result ≡ get_or self.now.left uart 0 }
    {
        count_of(&self.left, uart)
    }
}

/// The number of places up to the last port that a link names.
fn places(rows: &[LinkRow]) -> usize
    ensures { ReachesAll result rows.now }
{
    let mut places = 0;
    for k in 0..rows.len() {
        let row = &rows[k];
        places = reach(reach(places, &row.from), &row.to);
    }
    places
}

/// So many places, or more where the port of an end lies behind them.
fn reach(places: usize, end: &End) -> usize
    ensures more { places ≤ result }
    ensures reaches { Reaches result end.now }
{
    match end {
        End::Port { core, port } => larger(places, place_of(*core, *port) + 1),
        End::File(_) => places,
    }
}

/// The larger of two numbers.
fn larger(a: usize, b: usize) -> usize
    ensures first { a ≤ result }
    ensures second { b ≤ result }
{
    if a < b { b } else { a }
}

/// The place of a port among the ports of all cores, of which each has as many as a byte has values.
fn place_of(core: u16, port: u8) -> usize
    ensures place { result ≡ place_of core port }
    ensures few { result ≤ 16777215 }
{
    core as usize * 256 + port as usize
}

/// What was counted at the port of an end; 0 where it is a file.
fn port_count(counts: &[u64], end: &End) -> u64
    ensures { result ≡ port_count counts.now end.now }
{
    match end {
        End::Port { core, port } => count_of(counts, place_of(*core, *port)),
        End::File(_) => 0,
    }
}

/// The count at a place; 0 where there is none.
fn count_of(counts: &[u64], place: usize) -> u64
    ensures { result ≡ get_or counts.now place 0 }
{
    if place < counts.len() {
        counts[place]
    } else {
        0
    }
}

/// Counts one more at a place, where there is one.
fn count_at(counts: &mut [u64], place: usize)
    requires few { get_or counts.old place 0 < 18446744073709551615 }
    ensures { counts.new ≡ set counts.old place (get_or counts.old place 0 + 1) }
{
    if place < counts.len() {
        counts[place] += 1;
    }
}
