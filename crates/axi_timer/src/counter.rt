ghost use Rattle.axi_timer.specs.Machine.{asks, controlled, counted, cycled_counter, followed, fresh_counter, joined, last_count, loaded, next_count, stored, with_tcsr};
ghost use Rattle.std.specs.Prelude.{◌≡◌};

use crate::registers::Tcsr;
use bitflags::Flags;

/// What a write of TCSR takes as it is: UDT, GENT, ARHT, LOAD, ENIT and ENT.
const PLAIN: Tcsr = Tcsr(0xF6);

/// ENALL, and ENT which comes with it.
const ENABLED_TOGETHER: Tcsr = Tcsr(0x480);

/// One of the two counters of a timer.
#[derive(Clone, Copy, Debug, PartialEq, Eq)]
pub struct Counter {
    /// Control and status.
    pub tcsr: Tcsr,
    /// What is loaded.
    pub tlr: u32,
    /// The count.
    pub tcr: u32,
    /// Whether the count passed its end, and wasn't loaded or disabled since.
    pub over: bool,
}

impl Counter {
    /// A counter with all registers 0.
    pub fn new() -> Counter
        ensures { result ≡ fresh_counter }
    {
        Counter {
            tcsr: Tcsr::from_bits_retain(0),
            tlr: 0,
            tcr: 0,
            over: false,
        }
    }

    /// Whether the counter holds the timer's output high.
    pub fn asks(&self) -> bool
        ensures { result ≡ asks self.now }
    {
        self.tcsr.intersects(Tcsr::TINT) && self.tcsr.intersects(Tcsr::ENIT)
    }

    fn set_tcsr(&mut self, tcsr: Tcsr)
        ensures { self.new ≡ with_tcsr tcsr.0 self.old }
    {
        self.tcsr = tcsr;
        self.over = self.over && tcsr.intersects(Tcsr::ENT);
    }

    /// Takes a word that is written to its own TCSR.
    pub fn control(&mut self, word: Tcsr)
        ensures { self.new ≡ controlled word.0 self.old }
    {
        self.set_tcsr(joined(word, stored(word, self.tcsr)));
    }

    /// Takes what a word that is written to the other counter's TCSR changes here.
    pub fn follow(&mut self, word: Tcsr)
        ensures { self.new ≡ followed word.0 self.old }
    {
        self.set_tcsr(joined(word, self.tcsr));
    }

    fn load(&mut self)
        ensures { self.new ≡ loaded self.old }
    {
        self.tcr = self.tlr;
        self.over = false;
    }

    fn count(&mut self, down: bool)
        ensures { self.new ≡ counted down self.old }
    {
        let passes = self.tcr == last_count(down);
        self.tcr = next_count(down, self.tcr);
        if passes {
            self.tcsr.insert(Tcsr::TINT);
            self.over = true;
        }
    }

    /// One cycle: the counter is loaded, counts or rests.
    pub fn cycle(&mut self)
        ensures { self.new ≡ cycled_counter self.old }
    {
        if self.tcsr.intersects(Tcsr::LOAD) {
            self.load();
        } else if self.tcsr.intersects(Tcsr::ENT) {
            if self.over {
                if self.tcsr.intersects(Tcsr::ARHT) {
                    self.load();
                }
            } else {
                let down = self.tcsr.intersects(Tcsr::UDT);
                self.count(down);
            }
        }
    }
}

/// The plain bits of a word, with TINT where it was set and the word doesn't acknowledge it.
fn stored(word: Tcsr, old: Tcsr) -> Tcsr
    ensures { result.0 ≡ stored word.0 old.0 }
{
    let interrupt = old.intersection(Tcsr::TINT).difference(word);
    word.intersection(PLAIN).union(interrupt)
}

/// With ENALL as a word has it, and with ENT where it has it.
fn joined(word: Tcsr, tcsr: Tcsr) -> Tcsr
    ensures { result.0 ≡ joined word.0 tcsr.0 }
{
    if word.intersects(Tcsr::ENALL) {
        tcsr.union(ENABLED_TOGETHER)
    } else {
        tcsr.difference(Tcsr::ENALL)
    }
}

/// The count from which the next one passes the end.
fn last_count(down: bool) -> u32
    ensures { result ≡ last_count down }
{
    if down { 0 } else { 0xFFFF_FFFF }
}

fn next_count(down: bool, count: u32) -> u32
    ensures { result ≡ next_count down count }
{
    if down {
        count.wrapping_sub(1)
    } else {
        count.wrapping_add(1)
    }
}
