//! The four probes in one set, as the program attaches them.
ghost use Rattle.std.specs.Prelude.{◌≡◌, IfOk, map};
ghost use Rattle.probe_set.specs.Sets.{items_of, named};
ghost use Rattle.probes.specs.Stock.{stock};

use super::*;
use axi_link::Item;
use core_regs::{StopCause, Take, WaitOn};
use host_io::{Name, NoMemory};
use probe_set::{Probe, ProbeKind, ProbeSet, ProbeState};
use run_journal::{Entry, NO_CORE, What};
use std::alloc::Global;
use std::test::Fail;

/// The names of the four in order of attachment, with their kinds.
const STOCK: [(&str, ProbeKind); 4] = [
    ("count", ProbeKind::Count),
    ("trace", ProbeKind::Trace),
    ("watch", ProbeKind::Watch),
    ("cover", ProbeKind::Cover),
];

const ITEM: Item = Item {
    word: 5,
    control: false,
};

/// An entry of each kind, and whether a watch asks to stop at it.
const ASKED: [(What, bool); 20] = [
    (
        What::Got {
            port: 0,
            item: ITEM,
        },
        false,
    ),
    (
        What::Sent {
            port: 0,
            item: ITEM,
        },
        false,
    ),
    (
        What::Seen {
            port: 0,
            item: ITEM,
        },
        false,
    ),
    (What::Room { port: 0 }, false),
    (
        What::Missed {
            port: 0,
            full: false,
        },
        false,
    ),
    (What::Read { addr: 8, word: 5 }, false),
    (What::ReadRefused { addr: 8 }, false),
    (What::Wrote { addr: 8, word: 5 }, false),
    (What::WriteRefused { addr: 8, word: 5 }, false),
    (What::Took(Take::NonMaskable), false),
    (What::Raised { esr: 2 }, true),
    (What::Slept, false),
    (What::Stopped(StopCause::Illegal(0)), true),
    (
        What::Wait(WaitOn {
            port: 0,
            full: false,
        }),
        false,
    ),
    (What::LineUp, false),
    (What::LineDown, false),
    (
        What::HostSent {
            link: 0,
            item: ITEM,
        },
        false,
    ),
    (
        What::HostGot {
            link: 0,
            item: ITEM,
        },
        false,
    ),
    (What::Left { uart: 0, byte: 65 }, false),
    (What::Stopped(StopCause::DataBus(8)), true),
];

fn entry(core: u16, what: What) -> Entry {
    Entry {
        cycle: 7,
        act: 2,
        core,
        what,
    }
}

/// The set that the program begins with.
fn begin(alloc: Global) -> Result<ProbeSet, NoMemory>
    ensures { IfOk result (λ set. map (λ a. named a.name (state_of (a.probe.vtable, a.probe.value))) (items_of set.probes) ≡ stock) }
{
    stock_probes(
        alloc,
        Box::new(alloc, FoldProbe::new(ProbeKind::Count))?,
        Box::new(alloc, FoldProbe::new(ProbeKind::Trace))?,
        Box::new(alloc, FoldProbe::new(ProbeKind::Watch))?,
        Box::new(alloc, FoldProbe::new(ProbeKind::Cover))?,
    )
}

fn state(probes: &ProbeSet, name: &str) -> Result<ProbeState, Fail> {
    let name = Name::from_text(name).ok_or("a name")?;
    Ok(probes.state(&name).ok_or("a probe of this name")?)
}

#[test]
fn the_four_stand_in_order(rt: HostRuntime) -> Result<(), Fail> {
    let probes = begin(rt.alloc())?;
    assert_eq!(rt; probes.len(), 4);
    for k in 0..4 {
        let (name, kind) = STOCK[k];
        assert!(rt; probes.name(k).ok_or("a name")?.as_text() == name);
        let state = state(&probes, name)?;
        assert_eq!(rt;
            (state.kind, state.count, state.last.len(), state.cores),
            (kind, 0, 0, 0)
        );
    }
    Ok(())
}

#[test]
fn an_entry_moves_count_and_trace(rt: HostRuntime) -> Result<(), Fail> {
    let mut probes = begin(rt.alloc())?;
    let left = entry(NO_CORE, What::Left { uart: 0, byte: 65 });
    assert!(rt; !probes.tell(&left));
    assert_eq!(rt; state(&probes, "count")?.count, 1);
    let trace = state(&probes, "trace")?;
    assert_eq!(rt; (trace.count, trace.last.get(0)), (1, Some(left)));
    assert_eq!(rt; state(&probes, "watch")?.count, 0);
    assert_eq!(rt; state(&probes, "cover")?.count, 0);
    Ok(())
}

#[test]
fn watch_asks_at_raised_and_stopped_alone(rt: HostRuntime) -> Result<(), Fail> {
    for (what, asks) in ASKED {
        let mut probes = begin(rt.alloc())?;
        assert_eq!(rt; probes.tell(&entry(0, what)), asks);
        assert_eq!(rt; state(&probes, "watch")?.count, u64::from(asks));
    }
    Ok(())
}

#[test]
fn cover_notes_the_cores(rt: HostRuntime) -> Result<(), Fail> {
    let mut probes = begin(rt.alloc())?;
    let told = [
        entry(0, What::Slept),
        entry(63, What::LineUp),
        entry(64, What::Slept),
        entry(NO_CORE, What::Left { uart: 0, byte: 65 }),
    ];
    assert!(rt; !probes.tell_each(&told));
    let cover = state(&probes, "cover")?;
    assert_eq!(rt; (cover.count, cover.cores), (3, 0x8000_0000_0000_0001));
    assert_eq!(rt; state(&probes, "count")?.cores, 0);
    Ok(())
}
