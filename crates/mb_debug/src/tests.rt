//! Scripts on small boards, by rows that were worked by hand.

mod build;
mod probes;

use crate::{ScriptEnd, ScriptFault, read_script};
use board_run::{Rest, RunEnd};
use build::{At, Setup, done, name, names_of, script_names};
use host_io::{Failing, MemSink, SureSink};
use probe_set::{Probe, ProbeKind, ProbeSet, ProbeState};
use probes::{Counted, Plain};
use std::alloc::Global;
use std::cell::Cell;
use std::process::Abort;
use std::rc::Rc;
use std::test::Fail;

/// Core `a` sends 7 to core `b`, which hands it on to a file: `addik r3, r0, 7`, `put r3, port 0`, `bri 0`, and `get r4,
/// port 0`, `put r4, port 1`, `bri 0`.
const RELAY: Setup<'static> = Setup {
    core_names: &["a", "b"],
    cores: &[
        &[0x3060_0007, 0x6C03_8000, 0xB800_0000],
        &[0x6C80_0000, 0x6C04_8001, 0xB800_0000],
    ],
    link_names: &["x", "y"],
    links: &[(At::Port(0, 0), At::Port(1, 0)), (At::Port(1, 1), At::File)],
    input: &[],
    limit: 100,
    entries: 100,
};

/// A core that raises in its second act: `msrset r0, 100`, and a get with an exception of an item whose control bit is 1.
/// Behind it stand zeros, which are acts too.
const READER: Setup<'static> = Setup {
    core_names: &["r"],
    cores: &[&[0x9410_0100, 0x6C80_0402]],
    link_names: &["i"],
    links: &[(At::File, At::Port(0, 2))],
    input: &[1, 0, 0, 0, 0x2A],
    limit: 100,
    entries: 100,
};

/// `rsub r3, r0, r0`, which leaves a carry, and `bri 0`.
const CARRY: Setup<'static> = Setup {
    core_names: &["c"],
    cores: &[&[0x0460_0000, 0xB800_0000]],
    link_names: &[],
    links: &[],
    input: &[],
    limit: 100,
    entries: 100,
};

const ENDED: RunEnd = RunEnd::Rest(Rest::Ended);

/// A script that drops its only probe.
const DROPPING: &str = "step 2
probe count
drop count
run 10
where
";

const DROPPED: &str = "cycle 2
count 3
dropped count
cycle 4
core a ended pc 00000008 acts 2
core b ended pc 00000008 acts 2
";

/// The registers of `b` after it got its item.
const GOT: &str = "cycle 2
r0 00000000 r1 00000000 r2 00000000 r3 00000000
r4 00000007 r5 00000000 r6 00000000 r7 00000000
r8 00000000 r9 00000000 r10 00000000 r11 00000000
r12 00000000 r13 00000000 r14 00000000 r15 00000000
r16 00000000 r17 00000000 r18 00000000 r19 00000000
r20 00000000 r21 00000000 r22 00000000 r23 00000000
r24 00000000 r25 00000000 r26 00000000 r27 00000000
r28 00000000 r29 00000000 r30 00000000 r31 00000000
pc 00000004 msr 00000000 ear 00000000 esr 00000000 btr 00000000 edr 00000000
";

/// A stop at a core's end comes after the turn of the other core. The core does no further act, so it stops no more.
const STOPPED: &str = "cycle 2
core a ended pc 00000008 acts 2
core b runs pc 00000004 acts 1
cycle 4
";

const WAITING: &str = "cycle 1
core a runs pc 00000004 acts 1
core b waits get 0 pc 00000000 acts 0
";

const LINKS: &str = "cycle 3
link x holds 0 of 1
link y holds 1 of 1
";

const COUNTED: &str = "cycle 2
count 3
count 3
cycle 3
count 4
probe count count
";

/// Memory past its end, of 4,096 bytes, and lines of sixteen bytes.
const BYTES: &str = "6C 80 00 00 6C 04 80 01 B8 00 00 00 00 00 00 00
00 00 00 00
00 00 -- --
-- --
30
6C 80 00 00 6C 04 80 01 B8 00 00 00 00 00 00 00
";

/// Scripts on the relay with a counting probe: what they print, and the board's last end.
const RELAYED: [(&str, &str, RunEnd); 10] = [
    ("", "", RunEnd::CyclesSpent),
    (DROPPING, DROPPED, ENDED),
    ("break b 4\nrun 10\nregs b\n", GOT, RunEnd::CyclesSpent),
    ("break a 8\nrun 10\nwhere\nrun 10\n", STOPPED, ENDED),
    // A core that stands at a breakpoint has not come to it.
    ("break a 0\nbreak b 0\nrun 10", "cycle 4\n", ENDED),
    ("step 1\nwhere\n", WAITING, RunEnd::CyclesSpent),
    ("step 3\nlinks\n", LINKS, RunEnd::CyclesSpent),
    // At the end of a run a command prints the cycle all the same.
    (
        "run 10\nstep 5\nrun 5\nstep 0\n",
        "cycle 4\ncycle 4\ncycle 4\ncycle 4\n",
        ENDED,
    ),
    (
        "step 2\nprobe count\nprobe count\nstep 1\nprobe count\nlist\n",
        COUNTED,
        RunEnd::CyclesSpent,
    ),
    (
        "mem b 0 20\nmem a 4094 4\nmem a 0xFFFFFFFF 2\nmem a 0 1\nmem b 0 16\n",
        BYTES,
        RunEnd::CyclesSpent,
    ),
];

/// Does a script on a board with these probes, and compares what it prints and the board's last end.
fn check(
    rt: &impl Abort,
    alloc: Global,
    setup: &Setup<'_>,
    kinds: &[(&str, ProbeKind)],
    row: (&str, &str, RunEnd),
) -> Result<(), Fail> {
    let (script, printed, end) = row;
    let mut probes = ProbeSet::new();
    for (text, kind) in kinds {
        let probe = Box::new(alloc, Plain::new(*kind))?;
        assert!(rt; probes.attach(alloc, name(text)?, probe).is_ok());
    }
    let mut out = SureSink::new(Vec::new(alloc));
    let (ended, _) = done(alloc, setup, script, &mut probes, &mut out)?;
    let text = str::from_utf8(out.written()).ok().ok_or("a text")?;
    assert_eq!(rt; text, printed, "{script}");
    assert_eq!(rt; ended, Ok(end), "{script}");
    Ok(())
}

#[test]
fn commands_print_what_they_see(rt: HostRuntime) -> Result<(), Fail> {
    for row in RELAYED {
        check(&rt, rt.alloc(), &RELAY, &[("count", ProbeKind::Count)], row)?;
    }
    Ok(())
}

const WATCHED: &str = "cycle 2
watch 1
dropped watch
probe count count
cycle 12
count 3
core r runs pc 00000048 acts 12
";

/// The registers of the reader after its exception.
const RAISED: &str = "cycle 2
r0 00000000 r1 00000000 r2 00000000 r3 00000000
r4 00000000 r5 00000000 r6 00000000 r7 00000000
r8 00000000 r9 00000000 r10 00000000 r11 00000000
r12 00000000 r13 00000000 r14 00000000 r15 00000000
r16 00000000 r17 00000008 r18 00000000 r19 00000000
r20 00000000 r21 00000000 r22 00000000 r23 00000000
r24 00000000 r25 00000000 r26 00000000 r27 00000000
r28 00000000 r29 00000000 r30 00000000 r31 00000000
pc 00000020 msr 00000210 ear 00000000 esr 00000040 btr 00000000 edr 0000002A
";

/// Scripts on the reader with a counting probe and a watch.
const READ: [(&str, &str, RunEnd); 3] = [
    (
        "run 10\nprobe watch\ndrop watch\nlist\nrun 10\nprobe count\nwhere",
        WATCHED,
        RunEnd::CyclesSpent,
    ),
    ("step 10", "cycle 10\n", RunEnd::CyclesSpent),
    ("step 2\nregs r\n", RAISED, RunEnd::CyclesSpent),
];

#[test]
fn a_run_alone_heeds_a_wish_to_stop(rt: HostRuntime) -> Result<(), Fail> {
    let kinds = [("count", ProbeKind::Count), ("watch", ProbeKind::Watch)];
    for row in READ {
        check(&rt, rt.alloc(), &READER, &kinds, row)?;
    }
    Ok(())
}

/// The carry stands in the status word twice.
const CARRIED: &str = "cycle 1
r0 00000000 r1 00000000 r2 00000000 r3 00000000
r4 00000000 r5 00000000 r6 00000000 r7 00000000
r8 00000000 r9 00000000 r10 00000000 r11 00000000
r12 00000000 r13 00000000 r14 00000000 r15 00000000
r16 00000000 r17 00000000 r18 00000000 r19 00000000
r20 00000000 r21 00000000 r22 00000000 r23 00000000
r24 00000000 r25 00000000 r26 00000000 r27 00000000
r28 00000000 r29 00000000 r30 00000000 r31 00000000
pc 00000004 msr 80000004 ear 00000000 esr 00000000 btr 00000000 edr 00000000
";

#[test]
fn status_words_show_the_carry_twice(rt: HostRuntime) -> Result<(), Fail> {
    let row = ("step 1\nregs c\n", CARRIED, ENDED);
    check(&rt, rt.alloc(), &CARRY, &[], row)
}

const TRACED: &str = "cycle 4
trace 5
0 b 0 wait get 0
1 a 1 sent 0 0 00000007
1 b 0 got 0 0 00000007
2 b 1 sent 1 0 00000007
3 - 0 hostgot y 0 00000007
cover 4
probe t trace
probe c cover
";

#[test]
fn a_trace_tells_its_entries(rt: HostRuntime) -> Result<(), Fail> {
    let kinds = [("t", ProbeKind::Trace), ("c", ProbeKind::Cover)];
    let row = ("run 10\nprobe t\nprobe c\nlist\n", TRACED, ENDED);
    check(&rt, rt.alloc(), &RELAY, &kinds, row)
}

/// How far a board may run, the room of its journal, and a script that goes up to the end of the run.
const ENDS: [(u32, u32, (&str, &str, RunEnd)); 4] = [
    (3, 100, ("run 10", "cycle 3\n", RunEnd::CyclesSpent)),
    (0, 100, ("step 1", "cycle 0\n", RunEnd::CyclesSpent)),
    // A cycle may need room for 12 entries: 5 a core and 1 a link.
    (100, 12, ("step 10", "cycle 1\n", RunEnd::JournalFull)),
    (100, 0, ("run 1", "cycle 0\n", RunEnd::JournalFull)),
];

#[test]
fn a_run_ends_in_a_script_too(rt: HostRuntime) -> Result<(), Fail> {
    for (limit, entries, row) in ENDS {
        let setup = Setup {
            limit,
            entries,
            ..RELAY
        };
        check(&rt, rt.alloc(), &setup, &[], row)?;
    }
    Ok(())
}

#[test]
fn a_refused_write_ends_a_script(rt: HostRuntime) -> Result<(), Fail> {
    let mut failing = Vec::new(rt.alloc());
    failing.push(Failing { call: 1, moved: 3 })?;
    let mut out = MemSink::new(Vec::new(rt.alloc()), failing);
    let mut probes = ProbeSet::new();
    let script = "step 1\nstep 1\nstep 1\n";
    let (ended, cycle) = done(rt.alloc(), &RELAY, script, &mut probes, &mut out)?;
    assert_eq!(rt; (ended, cycle), (Err(ScriptEnd::WriteFault), 2));
    let text = str::from_utf8(out.written()).ok().ok_or("a text")?;
    assert_eq!(rt; text, "cycle 1\ncyc");
    Ok(())
}

#[test]
fn a_probe_is_dropped_once(rt: HostRuntime) -> Result<(), Fail> {
    let drops = Rc::new(rt.alloc(), Cell::new(0u32))?;
    let mut probes = ProbeSet::new();
    for text in ["a", "b"] {
        let probe = Counted {
            state: ProbeState::begun(ProbeKind::Count),
            drops: Rc::clone(&drops)?,
        };
        assert!(rt;
            probes
                .attach(rt.alloc(), name(text)?, Box::new(rt.alloc(), probe)?)
                .is_ok()
        );
    }
    let mut out = SureSink::new(Vec::new(rt.alloc()));
    let _ = done(rt.alloc(), &RELAY, "drop a\nlist", &mut probes, &mut out)?;
    let text = str::from_utf8(out.written()).ok().ok_or("a text")?;
    assert_eq!(rt; text, "dropped a\nprobe b count\n");
    assert_eq!(rt; drops.get(), 1);
    assert!(rt; !probes.detach(&name("a")?));
    assert_eq!(rt; drops.get(), 1);
    Ok(())
}

#[test]
fn a_faulty_line_refuses_the_script(rt: HostRuntime) -> Result<(), Fail> {
    let probes = names_of(rt.alloc(), &["count"])?;
    let names = script_names(rt.alloc(), &RELAY, probes)?;
    let mut script = String::new(rt.alloc());
    script.push_str(DROPPING)?;
    script.push_str("probe count\n")?;
    if script.len() <= 1_048_576 {
        let fault = read_script(rt.alloc(), script.as_str().as_bytes(), &names).err();
        assert_eq!(rt;
            fault,
            Some(ScriptFault::Refused {
                code: 1205,
                line: 6
            })
        );
    }
    Ok(())
}
