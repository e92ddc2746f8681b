//! Sets of probes of the tests' own types, which the library doesn't know.
ghost use Rattle.std.specs.Prelude.{◌≡◌};
ghost use Rattle.probe_set.specs.Folds.{begun};

use super::*;
use host_io::Name;
use run_journal::{Entry, NO_CORE, What};
use std::cell::Cell;
use std::rc::Rc;
use std::test::Fail;

/// A probe of any kind.
#[derive(Drop)]
struct Plain {
    state: ProbeState,
}

impl Plain {
    fn new(kind: ProbeKind) -> Plain
        ensures { result.state ≡ begun kind }
    {
        Plain {
            state: ProbeState::begun(kind),
        }
    }
}

impl Probe for Plain {
    ghost state_of = { λ p. p.state };

    fn kind(&self) -> ProbeKind {
        self.state.kind
    }

    fn state(&self) -> ProbeState {
        self.state.copied()
    }

    fn on(&mut self, e: &Entry) -> bool {
        self.state.tell(e)
    }
}

fn entry(cycle: u64, core: u16, what: What) -> Entry {
    Entry {
        cycle,
        act: 0,
        core,
        what,
    }
}

fn name(text: &str) -> Result<Name, Fail> {
    Ok(Name::from_text(text).ok_or("a name")?)
}

/// Entries of cores 0, 1, 70 and 63, and one of the host; the second and the fourth are raised faults.
const TOLD: [(u16, What); 5] = [
    (0, What::Slept),
    (1, What::Raised { esr: 2 }),
    (NO_CORE, What::Left { uart: 0, byte: 65 }),
    (70, What::Raised { esr: 4 }),
    (63, What::LineDown),
];

/// What each kind makes of these entries: its count, the bits of its cores, how many it keeps, and where it asks to stop.
const MADE: [(ProbeKind, u64, u64, usize, [bool; 5]); 4] = [
    (ProbeKind::Count, 5, 0, 0, [false; 5]),
    (ProbeKind::Trace, 5, 0, 5, [false; 5]),
    (ProbeKind::Watch, 2, 0, 0, [false, true, false, true, false]),
    (ProbeKind::Cover, 4, 0x8000_0000_0000_0003, 0, [false; 5]),
];

#[test]
fn each_kind_folds_its_entries(rt: HostRuntime) -> Result<(), Fail> {
    for (kind, count, cores, kept, asks) in MADE {
        let mut probe = Plain::new(kind);
        for k in 0..5 {
            let (core, what) = TOLD[k];
            if probe.state.count < 100 {
                assert_eq!(rt; probe.on(&entry(k as u64, core, what)), asks[k]);
            }
        }
        let state = probe.state();
        assert_eq!(rt;
            (state.kind, state.count, state.cores),
            (kind, count, cores)
        );
        assert_eq!(rt; state.last.len(), kept);
    }
    Ok(())
}

#[test]
fn a_set_tells_its_probe(rt: HostRuntime) -> Result<(), Fail> {
    let mut probes = ProbeSet::new();
    let probe = Box::new(rt.alloc(), Plain::new(ProbeKind::Watch))?;
    assert!(rt; probes.attach(rt.alloc(), name("p")?, probe).is_ok());
    assert!(rt; probes.tell(&entry(3, 1, What::Raised { esr: 2 })));
    let state = probes.state(&name("p")?).ok_or("a state")?;
    assert_eq!(rt; (state.kind, state.count), (ProbeKind::Watch, 1));
    Ok(())
}

#[test]
fn a_trace_keeps_the_newest_sixteen(rt: HostRuntime) -> Result<(), Fail> {
    let mut state = ProbeState::begun(ProbeKind::Trace);
    for cycle in 0..20u64 {
        if state.count < 100 {
            assert!(rt; !state.tell(&entry(cycle, 0, What::Slept)));
        }
    }
    assert_eq!(rt; (state.count, state.last.len()), (20, 16));
    assert_eq!(rt; state.last.get(0), Some(entry(4, 0, What::Slept)));
    assert_eq!(rt; state.last.get(15), Some(entry(19, 0, What::Slept)));
    assert_eq!(rt; state.last.get(16), None);
    Ok(())
}

#[test]
fn names_close_up(rt: HostRuntime) -> Result<(), Fail> {
    let mut probes = ProbeSet::new();
    for text in ["b", "a", "c"] {
        let probe = Box::new(rt.alloc(), Plain::new(ProbeKind::Count))?;
        assert!(rt; probes.attach(rt.alloc(), name(text)?, probe).is_ok());
    }
    let again = Box::new(rt.alloc(), Plain::new(ProbeKind::Watch))?;
    let refused = probes
        .attach(rt.alloc(), name("a")?, again)
        .err()
        .ok_or("refused")?;
    assert_eq!(rt;
        (refused.why, refused.probe.kind()),
        (AttachFault::NameTwice, ProbeKind::Watch)
    );
    assert!(rt; probes.detach(&name("a")?) && !probes.detach(&name("a")?));
    assert!(rt; probes.state(&name("a")?).is_none() && probes.state(&name("c")?).is_some());
    for (k, text) in [(0, "b"), (1, "c")] {
        assert!(rt; probes.name(k).ok_or("a name")?.is(&name(text)?));
    }
    assert!(rt; probes.name(2).is_none());
    Ok(())
}

/// A probe that counts its drops.
struct Counted {
    state: ProbeState,
    drops: Rc<Cell<u32>>,
}

impl Drop for Counted {
    fn drop(self) {
        let Self { state: _, drops } = self;
        drops.set(drops.get().wrapping_add(1));
    }
}

impl Probe for Counted {
    ghost state_of = { λ p. p.state };

    fn kind(&self) -> ProbeKind {
        self.state.kind
    }

    fn state(&self) -> ProbeState {
        self.state.copied()
    }

    fn on(&mut self, e: &Entry) -> bool {
        self.state.tell(e)
    }
}

#[test]
fn detach_drops_its_box_once(rt: HostRuntime) -> Result<(), Fail> {
    let drops = Rc::new(rt.alloc(), Cell::new(0u32))?;
    let mut probes = ProbeSet::new();
    for text in ["a", "b"] {
        let probe = Counted {
            state: ProbeState::begun(ProbeKind::Count),
            drops: Rc::clone(&drops)?,
        };
        assert!(rt;
            probes
                .attach(rt.alloc(), name(text)?, Box::new(rt.alloc(), probe)?)
                .is_ok()
        );
    }
    assert_eq!(rt; (probes.detach(&name("a")?), drops.get()), (true, 1));
    assert_eq!(rt; (probes.detach(&name("a")?), drops.get()), (false, 1));
    Ok(())
}
