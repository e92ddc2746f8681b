//! Scripts on worked boards, to the byte.
use crate::board_tests::{Row, check_with};
use host_io::Name;
use probe_set::{ProbeKind, ProbeSet};
use probes::FoldProbe;
use std::alloc::Global;
use std::process::Abort;
use std::test::Fail;

const DEBUG: &[&str] = &["debug", "b"];

/// A script on the relay, whose probe `count` is attached: its text, the status, what is printed, and the line on `err`.
#[rattlefmt::skip]
const SCRIPTS: [(&str, u8, &str, &str); 7] = [
    ("step 2\nprobe count\ndrop count\nrun 10\nwhere\n", 0, "cycle 2\ncount 3\ndropped count\ncycle 4\ncore a ended pc 00000008 acts 2\ncore b ended pc 00000008 acts 2\n", ""),
    ("step 2\nprobe count\ndrop count\nrun 10\nwhere\nprobe count\n", 12, "", "mbsim: script 1205 at line 6\n"),
    ("", 0, "", ""),
    ("break b 4\nrun 100\nlist\n", 0, "cycle 2\nprobe count count\n", ""),
    ("step 1\nlinks\n", 0, "cycle 1\nlink x holds 0 of 1\nlink y holds 0 of 1\n", ""),
    ("step 1\nfly\n", 12, "", "mbsim: script 1201 at line 2\n"),
    ("mem a 8 9\n", 0, "B8 00 00 00 00 00 00 00 00\n", ""),
];

/// Makes the call of a row with a probe that counts.
fn check_counted(rt: &impl Abort, alloc: Global, row: &Row<'_>) -> Result<(), Fail> {
    let mut probes = ProbeSet::new();
    let probe = Box::new(alloc, FoldProbe::new(ProbeKind::Count))?;
    let name = Name::from_text("count").ok_or("a name")?;
    assert!(rt; probes.attach(alloc, name, probe).is_ok());
    check_with(rt, alloc, row, &mut probes)
}

#[test]
fn scripts_are_done_or_refused_whole(rt: HostRuntime) -> Result<(), Fail> {
    for (script, code, printed, told) in SCRIPTS {
        let row = Row {
            words: DEBUG,
            script,
            code,
            printed,
            told,
            left: [None, None],
            ..Row::relay()
        };
        check_counted(&rt, rt.alloc(), &row)?;
    }
    Ok(())
}

/// The second text is refused, so that the script ends there.
#[test]
fn a_refused_text_ends_a_script(rt: HostRuntime) -> Result<(), Fail> {
    let row = Row {
        words: DEBUG,
        script: "step 1\nstep 1\nstep 1\n",
        output_fault: Some((1, 0)),
        code: 8,
        printed: "cycle 1\n",
        told: "mbsim: cannot write output\n",
        left: [None, None],
        ..Row::relay()
    };
    check_counted(&rt, rt.alloc(), &row)
}
