//! What the commands tell a probe that is attached.
ghost use Rattle.std.specs.Prelude.{◌≡◌};
ghost use Rattle.probe_set.specs.Folds.{begun};

use crate::board_tests::{Row, check_with};
use host_io::Name;
use probe_set::{Probe, ProbeKind, ProbeSet, ProbeState};
use run_journal::Entry;
use std::alloc::Global;
use std::process::Abort;
use std::test::Fail;

/// A probe of a type that the library doesn't know, which keeps the newest entries.
#[derive(Drop)]
struct Trace {
    state: ProbeState,
}

impl Trace {
    fn new() -> Trace
        ensures { result.state ≡ begun ProbeKind.Trace }
    {
        Trace {
            state: ProbeState::begun(ProbeKind::Trace),
        }
    }
}

impl Probe for Trace {
    ghost state_of = { λ p. p.state };

    fn kind(&self) -> ProbeKind {
        self.state.kind
    }

    fn state(&self) -> ProbeState {
        self.state.copied()
    }

    fn on(&mut self, e: &Entry) -> bool {
        self.state.tell(e)
    }
}

fn name() -> Result<Name, Fail> {
    Ok(Name::from_text("t").ok_or("a name")?)
}

/// The cycles of the relay's entries: the second core waits, the first sends, the second gets and sends, the host gets.
const RELAYED: &[u64] = &[0, 1, 1, 2, 3];

/// The relay's report, and the profiles of its cores.
const PROFILED: &str = "status 0 cycles 4 entries 5
core a ended pc 00000008 acts 2
core b ended pc 00000008 acts 2
link x sent 1 taken 1
link y sent 1 taken 1
profile a acted 2 start 0 hold 0 operand 0 redirect 0 divide 0 waiting 0 sleeping 0 done 2
profile b acted 2 start 0 hold 0 operand 0 redirect 0 divide 0 waiting 1 sleeping 0 done 1
";

/// `addik r3, r0, 5`, `put r3, rfsl0` and the branch to itself: the item is sent in cycle 1 and leaves in cycle 2.
const PUT_FIVE: &[u8] = &[0x30, 0x60, 0, 5, 0x6C, 3, 0x80, 0, 0xB8, 0, 0, 0];

/// The words of a call, its code, what it prints, its line on `err`, and the cycles of the entries that it is to tell.
#[rattlefmt::skip]
const CALLS: [(&[&str], u8, &str, &str, &[u64]); 5] = [
    (&["profile", "b"], 0, PROFILED, "", RELAYED),
    (&["raw", "in", "10"], 0, "0 00000005\n", "", &[1, 2]),
    (&["run", "absent"], 5, "", "mbsim: cannot read absent\n", &[]),
    (&["dis", "a.elf"], 0, "00000000 30600007 addik r3, r0, 7\n00000004 6C038000 put r3, rfsl0\n00000008 B8000000 bri 0\n", "", &[]),
    (&["tell", "b"], 4, "", "mbsim: usage\n", &[]),
];

/// Makes the call of a row with a trace, and compares the entries that it was told with those of these cycles.
fn check_told(rt: &impl Abort, alloc: Global, row: &Row<'_>, cycles: &[u64]) -> Result<(), Fail> {
    let mut probes = ProbeSet::new();
    let probe = Box::new(alloc, Trace::new())?;
    assert!(rt; probes.attach(alloc, name()?, probe).is_ok());
    check_with(rt, alloc, row, &mut probes)?;
    let state = probes.state(&name()?).ok_or("a state")?;
    assert_eq!(rt; state.count, cycles.len() as u64, "{:?}", row.words);
    for k in 0..cycles.len() {
        let entry = state.last.get(k).ok_or("an entry")?;
        assert_eq!(rt; entry.cycle, cycles[k], "{:?}", row.words);
    }
    Ok(())
}

#[test]
fn runs_alone_tell_their_entries(rt: HostRuntime) -> Result<(), Fail> {
    for (words, code, printed, told, cycles) in CALLS {
        let row = Row {
            words,
            input: PUT_FIVE,
            code,
            printed,
            told,
            left: [None, None],
            ..Row::relay()
        };
        check_told(&rt, rt.alloc(), &row, cycles)?;
    }
    Ok(())
}

/// A run tells its entries also where its report is refused.
#[test]
fn a_run_without_its_report_has_told(rt: HostRuntime) -> Result<(), Fail> {
    check_told(&rt, rt.alloc(), &Row::relay(), RELAYED)?;
    let row = Row {
        output_fault: Some((0, 0)),
        code: 8,
        printed: "",
        told: "mbsim: cannot write output\n",
        ..Row::relay()
    };
    check_told(&rt, rt.alloc(), &row, RELAYED)
}
