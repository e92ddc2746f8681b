//! A probe of any kind.
ghost use Rattle.std.specs.Prelude.{◌≡◌};
ghost use Rattle.probe_set.specs.Folds.{begun};

use probe_set::{Probe, ProbeKind, ProbeState};
use run_journal::Entry;
use std::marker::Model;

/// A probe of any kind, which moves by the step of its kind. It means its state.
#[derive(Drop)]
pub struct FoldProbe {
    state: ProbeState,
}

impl Model for FoldProbe {
    ghost use Rattle.probe_set.specs.declared.probe.ProbeState.{ProbeState};

    ghost Value = { ProbeState };

    ghost view = { λ p. p.state };
}

impl FoldProbe {
    /// A probe of this kind that was told no entry yet.
    pub fn new(kind: ProbeKind) -> FoldProbe
        ensures { result ≡ begun kind }
    {
        FoldProbe {
            state: ProbeState::begun(kind),
        }
    }
}

impl Probe for FoldProbe {
    ghost state_of = { λ p. p };

    fn kind(&self) -> ProbeKind {
        self.state.kind
    }

    fn state(&self) -> ProbeState {
        self.state.copied()
    }

    fn on(&mut self, e: &Entry) -> bool {
        self.state.tell(e)
    }
}
