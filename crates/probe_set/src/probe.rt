//! What a probe is.
ghost use Rattle.std.specs.Prelude.{◌≡◌, ℕ, ◌+◌, ◌<◌, ◌^◌};
ghost use Rattle.probe_set.specs.Folds.{asks, begun, is_watched, told, with_core};
ghost use Rattle.probe_set.specs.declared.probe.ProbeState.{ProbeState};

use crate::last::Last;
use run_journal::{Entry, NO_CORE, What};

/// What a probe makes of the entries that it is told.
#[derive(Clone, Copy, Debug, PartialEq, Eq)]
pub enum ProbeKind {
    /// Counts all entries.
    Count,
    /// Counts all entries, and keeps the newest 16.
    Trace,
    /// Counts the entries `Raised` and `Stopped`, and asks to stop at each.
    Watch,
    /// Counts the entries of cores, and notes which cores had one.
    Cover,
}

/// What a probe found so far.
#[derive(Debug, Drop)]
pub struct ProbeState {
    /// What the probe makes of entries.
    pub kind: ProbeKind,
    /// How many entries counted.
    pub count: u64,
    /// The newest entries, which a trace keeps.
    pub last: Last,
    /// The cores that a cover saw: bit i for core i, up to core 63.
    pub cores: u64,
}

impl ProbeState {
    /// The state of a probe of this kind that was told no entry yet.
    pub fn begun(kind: ProbeKind) -> ProbeState
        ensures { result ≡ begun kind }
    {
        ProbeState {
            kind,
            count: 0,
            last: Last::new(),
            cores: 0,
        }
    }

    /// The same state once more.
    pub fn copied(&self) -> ProbeState
        ensures { result ≡ self.now }
    {
        ProbeState {
            kind: self.kind,
            count: self.count,
            last: self.last.copied(),
            cores: self.cores,
        }
    }

    /// Moves the state by one entry. Answers whether a probe of its kind asks to stop.
    ///
    /// A type whose state is a `ProbeState` is a probe by this call alone.
    pub fn tell(&mut self, e: &Entry) -> bool
        requires { self.old.count + 1 < 2 ^ 64 }
        ensures moved { self.new ≡ told e.now self.old }
        ensures asked { result ≡ asks self.old.kind e.now }
    {
        match self.kind {
            ProbeKind::Count => {
                self.count += 1;
                false
            }
            ProbeKind::Trace => {
                self.count += 1;
                self.last.keep(*e);
                false
            }
            ProbeKind::Watch => {
                let watched = is_watched(e.what);
                if watched {
                    self.count += 1;
                }
                watched
            }
            ProbeKind::Cover => {
                if e.core != NO_CORE {
                    self.count += 1;
                }
                self.cores = with_core(e.core, self.cores);
                false
            }
        }
    }
}

/// Whether a watch asks to stop: at an exception that was raised, and where a core stopped for good.
fn is_watched(what: What) -> bool
    ensures { result ≡ is_watched what }
{
    matches!(what, What::Raised { .. } | What::Stopped(_))
}

/// With the bit of a core, where it is below 64.
fn with_core(core: u16, cores: u64) -> u64
    ensures { result ≡ with_core core cores }
{
    if core < 64 {
        cores | 1u64 << core
    } else {
        cores
    }
}

/// A probe: its state is the fold of its kind over the entries that it was told.
///
/// Any type may be a probe, as long as its state moves as its kind says.
pub trait Probe: Drop {
    /// The state as the contracts see it.
    ghost state_of: { Self → ProbeState };

    /// What the probe makes of entries.
    fn kind(&self) -> ProbeKind
        ensures { result ≡ (state_of self.now).kind };

    /// What the probe found so far.
    fn state(&self) -> ProbeState
        ensures { result ≡ state_of self.now };

    /// Tells the probe an entry. Answers whether it asks to stop.
    fn on(&mut self, e: &Entry) -> bool
        requires { (state_of self.old).count + 1 < 2 ^ 64 }
        ensures moved { state_of self.new ≡ told e.now (state_of self.old) }
        ensures asked { result ≡ asks (state_of self.old).kind e.now };
}
