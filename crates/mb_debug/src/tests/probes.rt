//! Probes of the tests' own types, which the library doesn't know.
ghost use Rattle.std.specs.Prelude.{◌≡◌};
ghost use Rattle.probe_set.specs.Folds.{begun};

use probe_set::{Probe, ProbeKind, ProbeState};
use run_journal::Entry;
use std::cell::Cell;
use std::rc::Rc;

/// A probe of any kind.
#[derive(Drop)]
pub(super) struct Plain {
    state: ProbeState,
}

impl Plain {
    pub(super) fn new(kind: ProbeKind) -> Plain
        ensures { result.state ≡ begun kind }
    {
        Plain {
            state: ProbeState::begun(kind),
        }
    }
}

impl Probe for Plain {
    ghost state_of = { λ p. p.state };

    fn kind(&self) -> ProbeKind {
        self.state.kind
    }

    fn state(&self) -> ProbeState {
        self.state.copied()
    }

    fn on(&mut self, e: &Entry) -> bool {
        self.state.tell(e)
    }
}

/// A probe that counts its drops.
pub(super) struct Counted {
    pub(super) state: ProbeState,
    pub(super) drops: Rc<Cell<u32>>,
}

impl Drop for Counted {
    fn drop(self) {
        let Self { state: _, drops } = self;
        drops.set(drops.get().wrapping_add(1));
    }
}

impl Probe for Counted {
    ghost state_of = { λ p. p.state };

    fn kind(&self) -> ProbeKind {
        self.state.kind
    }

    fn state(&self) -> ProbeState {
        self.state.copied()
    }

    fn on(&mut self, e: &Entry) -> bool {
        self.state.tell(e)
    }
}
