//! Worked boards, from their files in memory to what is written and printed.
ghost use Rattle.std.specs.Prelude.{map};
ghost use Rattle.mb_sim.specs.Probes.{AreYoung};
ghost use Rattle.probe_set.specs.Sets.{items_of, named};

use crate::tests::{assembled, plan};
use crate::top::mbsim;
use host_io::{FileName, MemFile, MemShelf, MemSink, MemSource};
use probe_set::ProbeSet;
use std::alloc::Global;
use std::process::Abort;
use std::test::Fail;

/// A run, and what it is to give.
#[derive(Clone, Copy)]
pub(crate) struct Row<'a> {
    /// The words after the program's name. The board file is `b`.
    pub(crate) words: &'a [&'a str],
    /// The lines of the board file before those of `parts`.
    pub(crate) head: &'a str,
    /// The other lines of the board file.
    pub(crate) parts: &'a str,
    /// The images `a.elf` and `b.elf`, as hexadecimal digits: whole files, or the words from address 0 on.
    pub(crate) images: [&'a str; 2],
    /// The bytes of the file `in`.
    pub(crate) input: &'a [u8],
    /// What the script has.
    pub(crate) script: &'a str,
    /// The call of the shelf that is to fail, and the bytes that it moves before.
    pub(crate) shelf_fault: Option<(u64, usize)>,
    /// The same of the standard output.
    pub(crate) output_fault: Option<(u64, usize)>,
    pub(crate) code: u8,
    pub(crate) printed: &'a str,
    pub(crate) told: &'a str,
    /// The files `out` and `journal` after the run, where they are there.
    pub(crate) left: [Option<&'a [u8]>; 2],
}

const RUN: &[&str] = &["run", "b"];

pub(crate) const LOGGED: &[&str] = &["run", "b", "--write-journal", "journal"];

/// Two cores: the first sends 7 to the second, which sends it to the file `out`.
const RELAY: &str = "
core.a = {image = 'a.elf', pipeline = 'plain'}
core.b = {image = 'b.elf', pipeline = 'plain'}
link.x = {depth = 1, from = 'a', from_port = 0, to = 'b', to_port = 0}
link.y = {depth = 1, from = 'b', from_port = 1, to_file = 'out'}
";
/// The same with a second core that moves in each third cycle.
const SLOW_RELAY: &str = "
core.a = {image = 'a.elf', pipeline = 'plain'}
core.b = {image = 'b.elf', pipeline = 'plain', clock = 3}
link.x = {depth = 1, from = 'a', from_port = 0, to = 'b', to_port = 0}
link.y = {depth = 1, from = 'b', from_port = 1, to_file = 'out'}
";
/// `addik r3, r0, 7`, `put r3, rfsl0`, and `get r4, rfsl0`, `put r4, rfsl1`, both with the branch to itself.
const RELAY_IMAGES: [&str; 2] = ["30600007 6C038000 B8000000", "6C800000 6C048001 B8000000"];

const SEVEN: &[u8] = &[0, 0, 0, 0, 7];

const REPORT: &str = "status 0 cycles 4 entries 5
core a ended pc 00000008 acts 2
core b ended pc 00000008 acts 2
link x sent 1 taken 1
link y sent 1 taken 1
";

const LATER_REPORT: &str = "status 0 cycles 5 entries 5
core a ended pc 00000008 acts 2
core b ended pc 00000008 acts 2
link x sent 1 taken 1
link y sent 1 taken 1
";

const SLOW_REPORT: &str = "status 0 cycles 8 entries 5
core a ended pc 00000008 acts 2
core b ended pc 00000008 acts 2
link x sent 1 taken 1
link y sent 1 taken 1
";

const DESCENDING: &str = "version = 1\norder = 'descending'";

const ROTATING: &str = "version = 1\norder = 'rotating'";

/// One core with a link from the file `in` on its get port 2 and one to the file `out` on its put port 0.
const ONE_CORE: &str = "
core.a = {image = 'a.elf', pipeline = 'plain'}
link.x = {depth = 1, from_file = 'in', to = 'a', to_port = 2}
link.y = {depth = 1, from = 'a', from_port = 0, to_file = 'out'}
";

impl<'a> Row<'a> {
    /// The run of the relay that ends with status 0.
    pub(crate) fn relay() -> Self {
        Row::beside(b"")
    }

    /// The same beside a file `in` with these bytes, which the relay doesn't read.
    fn beside(input: &'a [u8]) -> Self {
        Row {
            words: RUN,
            head: "version = 1",
            parts: RELAY,
            images: RELAY_IMAGES,
            input,
            script: "",
            shelf_fault: None,
            output_fault: None,
            code: 0,
            printed: REPORT,
            told: "",
            left: [Some(SEVEN), None],
        }
    }

    /// A relay that isn't run: with this status and this line, nothing is written or printed.
    fn refused(code: u8) -> Self {
        Row {
            code,
            printed: "",
            left: [None, None],
            ..Row::relay()
        }
    }
}

/// The header of a big-endian executable with one segment, before the sizes of the segment in file and memory.
const ELF_HEAD: &str =
    "7F454C46 01020100 00000000 00000000 000200BD 00000001 00000000 00000034 00000000 00000000 00340020 00010000 00000000 00000001 00000054 00000000 00000000";

/// A whole executable, or that with these words at address 0.
fn elf(alloc: Global, words: &str) -> Result<Vec<u8>, Fail> {
    let code = assembled(alloc, words)?;
    if words.starts_with("7F454C46") {
        return Ok(code);
    }
    let size = u32::try_from(code.len())
        .map_err(|_| "a size")?
        .to_be_bytes();
    let mut bytes = assembled(alloc, ELF_HEAD)?;
    bytes.extend_from_slice(&size)?;
    bytes.extend_from_slice(&size)?;
    // Readable and executable, without alignment.
    bytes.extend_from_slice(&[0, 0, 0, 5, 0, 0, 0, 1])?;
    bytes.extend_from_slice(code.as_slice())?;
    Ok(bytes)
}

fn file(name: &str, bytes: Vec<u8>) -> Result<MemFile, Fail> {
    Ok(MemFile {
        name: FileName::from_text(name).ok_or("name")?,
        bytes,
    })
}

/// The files that are there before the run of a row.
fn files(alloc: Global, row: &Row<'_>) -> Result<Vec<MemFile>, Fail> {
    let mut board = Vec::from_slice(alloc, row.head.as_bytes())?;
    board.extend_from_slice(row.parts.as_bytes())?;
    let mut files = Vec::new(alloc);
    files.push(file("b", board)?)?;
    for (name, words) in ["a.elf", "b.elf"].iter().zip(row.images.iter()) {
        if !words.is_empty() {
            files.push(file(name, elf(alloc, words)?)?)?;
        }
    }
    files.push(file("in", Vec::from_slice(alloc, row.input)?)?)?;
    Ok(files)
}

/// Makes the run of a row, and compares what it gave.
pub(crate) fn check(rt: &impl Abort, alloc: Global, row: &Row<'_>) -> Result<(), Fail> {
    check_with(rt, alloc, row, &mut ProbeSet::new())
}

/// The same with these probes.
pub(crate) fn check_with(
    rt: &impl Abort,
    alloc: Global,
    row: &Row<'_>,
    probes: &mut ProbeSet,
) -> Result<(), Fail>
    requires { AreYoung (map (λ a. named a.name (state_of (a.probe.vtable, a.probe.value))) (items_of probes.old.probes)) }
{
    let mut shelf = MemShelf::new(files(alloc, row)?, plan(alloc, row.shelf_fault)?);
    let mut script = MemSource::new(
        Vec::from_slice(alloc, row.script.as_bytes())?,
        Vec::new(alloc),
    );
    let mut out = MemSink::new(Vec::new(alloc), plan(alloc, row.output_fault)?);
    let mut err = MemSink::new(Vec::new(alloc), Vec::new(alloc));
    let status = mbsim(
        alloc,
        row.words,
        &mut shelf,
        &mut script,
        &mut out,
        &mut err,
        probes,
    );
    assert_eq!(rt; err.written(), row.told.as_bytes());
    assert_eq!(rt; status.code(), row.code, "{:?}", row.words);
    assert_eq!(rt; out.written(), row.printed.as_bytes(), "{:?}", row.words);
    for (name, left) in ["out", "journal"].iter().zip(row.left.iter()) {
        assert_eq!(rt; shelf.content(name), *left, "{name}");
    }
    Ok(())
}

#[test]
fn the_relay_has_its_journal_and_report(rt: HostRuntime) -> Result<(), Fail> {
    let row = Row {
        words: LOGGED,
        left: [
            Some(SEVEN),
            Some(
                b"0 b 0 wait get 0
1 a 1 sent 0 0 00000007
1 b 0 got 0 0 00000007
2 b 1 sent 1 0 00000007
3 - 0 hostgot y 0 00000007
",
            ),
        ],
        ..Row::relay()
    };
    check(&rt, rt.alloc(), &row)
}

#[test]
fn order_and_clocks_move_the_relay(rt: HostRuntime) -> Result<(), Fail> {
    let journal: &[u8] = b"0 b 0 wait get 0
1 a 1 sent 0 0 00000007
2 b 0 got 0 0 00000007
3 b 1 sent 1 0 00000007
4 - 0 hostgot y 0 00000007
";
    let slow: &[u8] = b"0 b 0 wait get 0
1 a 1 sent 0 0 00000007
3 b 0 got 0 0 00000007
6 b 1 sent 1 0 00000007
7 - 0 hostgot y 0 00000007
";
    let rows = [
        (DESCENDING, RELAY, LATER_REPORT, journal),
        (ROTATING, RELAY, LATER_REPORT, journal),
        ("version = 1", SLOW_RELAY, SLOW_REPORT, slow),
        (DESCENDING, SLOW_RELAY, SLOW_REPORT, slow),
        (ROTATING, SLOW_RELAY, SLOW_REPORT, slow),
    ];
    for (head, parts, printed, journal) in rows {
        let row = Row {
            words: LOGGED,
            head,
            parts,
            printed,
            left: [Some(SEVEN), Some(journal)],
            ..Row::relay()
        };
        check(&rt, rt.alloc(), &row)?;
    }
    Ok(())
}

/// Two cores that wait for each other, and a link to the file `out` that stays empty.
const CROSS_WAIT: &str = "
core.a = {image = 'a.elf', pipeline = 'plain'}
core.b = {image = 'b.elf', pipeline = 'plain'}
link.ab = {from = 'a', from_port = 0, to = 'b', to_port = 0}
link.ba = {from = 'b', from_port = 0, to = 'a', to_port = 0}
link.y = {from = 'a', from_port = 1, to_file = 'out'}
";

#[test]
fn cores_that_wait_for_each_other_are_told(rt: HostRuntime) -> Result<(), Fail> {
    let row = Row {
        words: LOGGED,
        parts: CROSS_WAIT,
        images: ["6C800000", "6C800000"],
        code: 1,
        printed: "status 1 cycles 0 entries 0
core a waits get 0 pc 00000000 acts 0
core b waits get 0 pc 00000000 acts 0
link ab sent 0 taken 0
link ba sent 0 taken 0
link y sent 0 taken 0
",
        left: [Some(b""), Some(b"")],
        ..Row::relay()
    };
    check(&rt, rt.alloc(), &row)
}

#[test]
fn control_bits_go_to_files_and_raise_faults(rt: HostRuntime) -> Result<(), Fail> {
    let sender = Row {
        parts: ONE_CORE,
        images: ["30600001 6C038000 6C03A000 6C038000 B8000000", ""],
        printed: "status 0 cycles 5 entries 6
core a ended pc 00000010 acts 4
link x sent 0 taken 0
link y sent 3 taken 3
",
        left: [Some(&[0, 0, 0, 0, 1, 1, 0, 0, 0, 1, 0, 0, 0, 0, 1]), None],
        ..Row::relay()
    };
    // The item's control bit is set: the core goes to the handler at 20.
    let reader = Row {
        words: &["run", "b", "--cycles", "2"],
        images: ["94100100 6C800402", ""],
        input: &[1, 0, 0, 0, 0x2A],
        code: 3,
        printed: "status 3 cycles 2 entries 3
core a runs pc 00000020 acts 2
link x sent 1 taken 1
link y sent 0 taken 0
",
        left: [Some(b""), None],
        ..sender
    };
    check(&rt, rt.alloc(), &sender)?;
    check(&rt, rt.alloc(), &reader)
}

/// From 0: a branch to 40. At 18: `rtbd r16, 0` and its slot. From 40: a prefixed `addik`, a branch with its slot, an
/// atomic put, a put, and the branch to itself.
const BREAKABLE: &str =
    "B8080040 00000000 00000000 00000000 00000000 00000000 B6500000 80000000 00000000 00000000 00000000 00000000 00000000 00000000 00000000 00000000 B0001234 30605678 B8100008 30800001 80000000 6C038800 6C048000 B8000000";

const BREAK_AT_2: &str = "version = 1\nevent.e = {core = 'a', kind = 'break', cycle = 2}";

const BREAK_AT_4: &str = "version = 1\nevent.e = {core = 'a', kind = 'break', cycle = 4}";

const BREAK_AT_6: &str = "version = 1\nevent.e = {core = 'a', kind = 'break', cycle = 6}";

const BREAK_REPORT: &str = "status 0 cycles 12 entries 5
core a ended pc 0000005C acts 11
link x sent 0 taken 0
link y sent 2 taken 2
";
/// With the break at the atomic put both items are on their way when it is taken.
const LATE_BREAK_REPORT: &str = "status 0 cycles 11 entries 5
core a ended pc 0000005C acts 11
link x sent 0 taken 0
link y sent 2 taken 2
";

#[test]
fn breaks_wait_for_prefixes_slots_and_atomic_puts(rt: HostRuntime) -> Result<(), Fail> {
    let rows: [(&str, &str, &[u8]); 3] = [
        (
            BREAK_AT_2,
            BREAK_REPORT,
            b"3 a 3 took break
9 a 9 sent 0 0 12345678
10 - 0 hostgot y 0 12345678
10 a 10 sent 0 0 00000001
11 - 0 hostgot y 0 00000001
",
        ),
        (
            BREAK_AT_4,
            BREAK_REPORT,
            b"5 a 5 took break
9 a 9 sent 0 0 12345678
10 - 0 hostgot y 0 12345678
10 a 10 sent 0 0 00000001
11 - 0 hostgot y 0 00000001
",
        ),
        (
            BREAK_AT_6,
            LATE_BREAK_REPORT,
            b"6 a 6 sent 0 0 12345678
7 - 0 hostgot y 0 12345678
7 a 7 sent 0 0 00000001
8 - 0 hostgot y 0 00000001
8 a 8 took break
",
        ),
    ];
    for (head, printed, journal) in rows {
        let row = Row {
            words: LOGGED,
            head,
            parts: ONE_CORE,
            images: [BREAKABLE, ""],
            printed,
            left: [
                Some(&[0, 0x12, 0x34, 0x56, 0x78, 0, 0, 0, 0, 1]),
                Some(journal),
            ],
            ..Row::relay()
        };
        check(&rt, rt.alloc(), &row)?;
    }
    Ok(())
}

/// A load of 40, ten loads from there that each need the one before, and the branch to itself; 40 at 40.
pub(crate) const LOAD_CHAIN: &str =
    "30600040 E8630000 E8630000 E8630000 E8630000 E8630000 E8630000 E8630000 E8630000 E8630000 E8630000 B8000000 00000000 00000000 00000000 00000000 00000040";

const FULL: &str = "status 10 cycles 0 entries 0
core a runs pc 00000000 acts 0
core b waits get 0 pc 00000000 acts 0
link x sent 0 taken 0
link y sent 0 taken 0
";

const SPENT: &str = "status 3 cycles 0 entries 0
core a runs pc 00000000 acts 0
core b waits get 0 pc 00000000 acts 0
link x sent 0 taken 0
link y sent 0 taken 0
";

#[test]
fn limits_and_options_are_kept(rt: HostRuntime) -> Result<(), Fail> {
    // The words, the status and what is printed; each writes the file without an item.
    let rows: [(&[&str], u8, &str); 4] = [
        (&["run", "b", "--journal", "0"], 10, FULL),
        // A cycle of two cores and two links may need 12 entries.
        (&["run", "b", "--journal=11"], 10, FULL),
        (&["run", "b", "--journal", "0", "--cycles", "0"], 3, SPENT),
        (
            &["run", "--journal", "12", "b"],
            10,
            "status 10 cycles 1 entries 1
core a runs pc 00000004 acts 1
core b waits get 0 pc 00000000 acts 0
link x sent 0 taken 0
link y sent 0 taken 0
",
        ),
    ];
    for (words, code, printed) in rows {
        let row = Row {
            words,
            code,
            printed,
            left: [Some(b""), None],
            ..Row::relay()
        };
        check(&rt, rt.alloc(), &row)?;
    }
    let after_dashes = Row {
        words: &["run", "--", "b"],
        ..Row::relay()
    };
    check(&rt, rt.alloc(), &after_dashes)?;
    let chain = Row {
        parts: "\ncore.a = {image = 'a.elf', pipeline = 'plain'}\n",
        images: [LOAD_CHAIN, ""],
        printed: "status 0 cycles 11 entries 0\ncore a ended pc 0000002C acts 11\n",
        left: [None, None],
        ..Row::relay()
    };
    check(&rt, rt.alloc(), &chain)
}

/// The loads on each pipeline, with the cycles that they take.
const CHAINS: [(&str, &str); 3] = [
    (
        "\ncore.a = {image = 'a.elf', pipeline = 'three'}\n",
        "status 0 cycles 22 entries 0\ncore a ended pc 0000002C acts 11\n",
    ),
    (
        "\ncore.a = {image = 'a.elf', pipeline = 'five'}\n",
        "status 0 cycles 23 entries 0\ncore a ended pc 0000002C acts 11\n",
    ),
    (
        "\ncore.a = {image = 'a.elf', pipeline = 'eight'}\n",
        "status 0 cycles 50 entries 0\ncore a ended pc 0000002C acts 11\n",
    ),
];

/// 7 is stored over the word after the next one, which then sends it.
const PATCHED: &str = "B0003080 30600007 F8600010 80000000 30800001 6C048000 B8000000";

/// The same with a link to the file `out`.
const PATCHES: [(&str, &str); 3] = [
    (
        "
core.a = {image = 'a.elf', pipeline = 'three'}
link.y = {depth = 1, from = 'a', from_port = 0, to_file = 'out'}
",
        "status 0 cycles 11 entries 2\ncore a ended pc 00000018 acts 6\nlink y sent 1 taken 1\n",
    ),
    (
        "
core.a = {image = 'a.elf', pipeline = 'five'}
link.y = {depth = 1, from = 'a', from_port = 0, to_file = 'out'}
",
        "status 0 cycles 13 entries 2\ncore a ended pc 00000018 acts 6\nlink y sent 1 taken 1\n",
    ),
    (
        "
core.a = {image = 'a.elf', pipeline = 'eight'}
link.y = {depth = 1, from = 'a', from_port = 0, to_file = 'out'}
",
        "status 0 cycles 13 entries 2\ncore a ended pc 00000018 acts 6\nlink y sent 1 taken 1\n",
    ),
];

#[test]
fn each_pipeline_keeps_its_time(rt: HostRuntime) -> Result<(), Fail> {
    for (parts, printed) in CHAINS {
        let row = Row {
            parts,
            images: [LOAD_CHAIN, ""],
            printed,
            left: [None, None],
            ..Row::relay()
        };
        check(&rt, rt.alloc(), &row)?;
    }
    for (parts, printed) in PATCHES {
        let row = Row {
            parts,
            images: [PATCHED, ""],
            printed,
            ..Row::relay()
        };
        check(&rt, rt.alloc(), &row)?;
    }
    Ok(())
}

#[test]
fn what_is_refused_changes_nothing(rt: HostRuntime) -> Result<(), Fail> {
    let rows = [
        Row {
            words: &["run", "b", "--cycles=5", "--cycles", "5"],
            told: "mbsim: usage\n",
            ..Row::refused(4)
        },
        // The journal would take the place of an output.
        Row {
            words: &["run", "b", "--write-journal", "out"],
            told: "mbsim: usage\n",
            ..Row::refused(4)
        },
        Row {
            words: &["run", "absent"],
            told: "mbsim: cannot read absent\n",
            ..Row::refused(5)
        },
        Row {
            images: [RELAY_IMAGES[0], ""],
            told: "mbsim: cannot read b.elf\n",
            ..Row::refused(5)
        },
        Row {
            head: "version = 3",
            parts: "",
            told: "mbsim: board 602 at version\n",
            ..Row::refused(6)
        },
        Row {
            head: "",
            parts: "",
            told: "mbsim: board 602 at version\n",
            ..Row::refused(6)
        },
        Row {
            parts: "\ncore.a = {pipeline = 'plain'}\n",
            told: "mbsim: board 604 at core.a.image\n",
            ..Row::refused(6)
        },
        // An empty file is no image.
        Row {
            parts: "\ncore.a = {image = 'in', pipeline = 'plain'}\n",
            told: "mbsim: image of a 701 at 0\n",
            ..Row::refused(7)
        },
        Row {
            parts: ONE_CORE,
            input: &[0, 0, 0, 0, 1, 0, 0],
            told: "mbsim: input in at 5\n",
            ..Row::refused(13)
        },
    ];
    for row in &rows {
        check(&rt, rt.alloc(), row)?;
    }
    Ok(())
}

#[test]
fn a_long_input_is_refused(rt: HostRuntime) -> Result<(), Fail> {
    let long = Vec::from_elem(rt.alloc(), 0, 4_194_305)?;
    let row = Row {
        parts: ONE_CORE,
        code: 15,
        printed: "",
        told: "mbsim: in is too long\n",
        left: [None, None],
        ..Row::beside(&long)
    };
    check(&rt, rt.alloc(), &row)
}

#[test]
fn each_call_may_fail(rt: HostRuntime) -> Result<(), Fail> {
    // The call of the shelf and the bytes that it moves, the status, the line, and the file.
    let rows: [(u64, usize, u8, &str, Option<&[u8]>); 5] = [
        (0, 0, 5, "mbsim: cannot read b\n", None),
        (1, 0, 5, "mbsim: cannot read a.elf\n", None),
        (2, 0, 5, "mbsim: cannot read b.elf\n", None),
        (3, 0, 8, "mbsim: cannot write out\n", None),
        (4, 2, 8, "mbsim: cannot write out\n", Some(&[0, 0])),
    ];
    for (call, moved, code, told, left) in rows {
        let row = Row {
            shelf_fault: Some((call, moved)),
            told,
            left: [left, None],
            ..Row::refused(code)
        };
        check(&rt, rt.alloc(), &row)?;
    }
    // The report goes out line by line.
    let unprinted = Row {
        output_fault: Some((2, 0)),
        printed: "status 0 cycles 4 entries 5\ncore a ended pc 00000008 acts 2\n",
        told: "mbsim: cannot write output\n",
        code: 8,
        ..Row::relay()
    };
    check(&rt, rt.alloc(), &unprinted)
}

/// One core with three output files, of which the third is `out`.
const THREE_FILES: &str = "
core.a = {image = 'a.elf', pipeline = 'plain'}
link.x = {from = 'a', from_port = 0, to_file = 'first'}
link.y = {from = 'a', from_port = 1, to_file = 'journal'}
link.z = {from = 'a', from_port = 2, to_file = 'out'}
";

#[test]
fn files_are_written_in_order(rt: HostRuntime) -> Result<(), Fail> {
    // An empty file is begun, and nothing is put behind its beginning: the call after it begins the journal.
    let empty = Row {
        words: LOGGED,
        parts: CROSS_WAIT,
        images: ["6C800000", "6C800000"],
        shelf_fault: Some((4, 0)),
        told: "mbsim: cannot write journal\n",
        left: [Some(b""), None],
        ..Row::refused(8)
    };
    check(&rt, rt.alloc(), &empty)?;
    // Calls 0 and 1 load, two a file write; the last moves 3 bytes.
    let third = Row {
        parts: THREE_FILES,
        images: ["30600007 6C038000 6C038001 6C038002 B8000000", ""],
        shelf_fault: Some((7, 3)),
        told: "mbsim: cannot write out\n",
        left: [Some(&[0, 0, 0]), Some(SEVEN)],
        ..Row::refused(8)
    };
    check(&rt, rt.alloc(), &third)
}
