//! Worked rows, over files and streams in memory.
ghost use Rattle.std.specs.Prelude.{None};

use crate::top::mbsim;
use host_io::{
    Blob, Failing, FileName, LoadFault, MemFile, MemShelf, MemSink, MemSource, Shelf, StoreFault,
};
use probe_set::ProbeSet;
use std::alloc::Global;
use std::process::Abort;
use std::test::Fail;

/// A call of the top call, and what it is to give.
#[derive(Clone, Copy)]
struct Row<'a> {
    /// The words after the program's name.
    words: &'a [&'a str],
    /// The bytes of the file `image`.
    image: &'a [u8],
    /// The load, the write and the line on `err` that are to fail: the number of the call, and the bytes that it moves
    /// before.
    failing: [Option<(u64, usize)>; 3],
    code: u8,
    printed: &'a [u8],
    told: &'a [u8],
}

impl<'a> Row<'a> {
    /// A row in which no call fails, with nothing printed and status 0.
    fn of(words: &'a [&'a str], image: &'a [u8]) -> Self {
        Row {
            words,
            image,
            failing: [None; 3],
            code: 0,
            printed: b"",
            told: b"",
        }
    }
}

/// The plan by which one call fails, where one is to fail: its number, and the bytes that it moves before.
pub(crate) fn plan(alloc: Global, fault: Option<(u64, usize)>) -> Result<Vec<Failing>, Fail> {
    let mut plan = Vec::new(alloc);
    if let Some((call, moved)) = fault {
        plan.push(Failing { call, moved })?;
    }
    Ok(plan)
}

/// Makes the call of a row, and compares what it gave.
fn check(rt: &impl Abort, alloc: Global, row: &Row<'_>) -> Result<(), Fail> {
    let [load, write, line] = row.failing;
    let mut files = Vec::new(alloc);
    files.push(MemFile {
        name: FileName::from_text("image").ok_or("name")?,
        bytes: Vec::from_slice(alloc, row.image)?,
    })?;
    let mut shelf = MemShelf::new(files, plan(alloc, load)?);
    let mut script = MemSource::new(Vec::new(alloc), Vec::new(alloc));
    let mut out = MemSink::new(Vec::new(alloc), plan(alloc, write)?);
    let mut err = MemSink::new(Vec::new(alloc), plan(alloc, line)?);
    let status = mbsim(
        alloc,
        row.words,
        &mut shelf,
        &mut script,
        &mut out,
        &mut err,
        &mut ProbeSet::new(),
    );
    assert_eq!(rt; status.code(), row.code, "{:?}", row.words);
    assert_eq!(rt; out.written(), row.printed, "{:?}", row.words);
    assert_eq!(rt; err.written(), row.told, "{:?}", row.words);
    Ok(())
}

/// `addik r3, r0, 5`, `put r3, rfsl0` and the branch to itself.
const PUT_FIVE: &[u8] = &[0x30, 0x60, 0, 5, 0x6C, 3, 0x80, 0, 0xB8, 0, 0, 0];

#[test]
fn runs_end_as_they_should(rt: HostRuntime) -> Result<(), Fail> {
    let full = Vec::from_elem(rt.alloc(), 0, 65_536)?;
    let five: &[u8] = b"0 00000005\n";
    // The cycles, the image, the status and what is printed.
    let rows: [(&str, &[u8], u8, &[u8]); 9] = [
        // The item is sent in cycle 1, leaves in cycle 2, and the board is still at cycle 3.
        ("10", PUT_FIVE, 0, five),
        ("0000003", PUT_FIVE, 0, five),
        ("2", PUT_FIVE, 3, b""),
        // Rest is tested before the limit.
        ("0", &[0xB8, 0, 0, 0], 0, b""),
        ("0", &[0x30, 0x60, 0, 5, 0xB8, 0, 0, 0], 3, b""),
        // 65,536 bytes of zeros: the core stops in cycle 16,384.
        ("1000000", b"", 2, b""),
        ("16385", &full, 2, b""),
        ("16384", b"", 3, b""),
        ("1000000000000", PUT_FIVE, 0, five),
    ];
    for (cycles, image, code, printed) in rows {
        check(
            &rt,
            rt.alloc(),
            &Row {
                code,
                printed,
                ..Row::of(&["raw", "image", cycles], image)
            },
        )?;
    }
    Ok(())
}

/// `addik r3, r0, 1`, `put r3, rfsl0`, and a branch back to the put.
const ENDLESS_PUT: &[u8] = &[0x30, 0x60, 0, 1, 0x6C, 3, 0x80, 0, 0xB8, 0, 0xFF, 0xFC];

#[test]
fn a_full_journal_ends_a_run(rt: HostRuntime) -> Result<(), Fail> {
    let alloc = rt.alloc();
    // The last cycle begins with room for 6 entries: 524,285 items left.
    let mut printed = Vec::new(alloc);
    for _item in 0..524_285 {
        printed.extend_from_slice(b"0 00000001\n")?;
    }
    check(
        &rt,
        alloc,
        &Row {
            code: 10,
            printed: &printed,
            ..Row::of(&["raw", "image", "10000000"], ENDLESS_PUT)
        },
    )
}

/// The bytes of words that are written as hexadecimal digits.
pub(crate) fn assembled(alloc: Global, words: &str) -> Result<Vec<u8>, Fail> {
    let mut bytes = Vec::new(alloc);
    for word in words.split(' ') {
        let word = u32::from_str_radix(word, 16).map_err(|_| "a word")?;
        bytes.extend_from_slice(&word.to_be_bytes())?;
    }
    Ok(bytes)
}

/// A program, what it prints in at most 100 cycles, and the status.
#[rattlefmt::skip]
const PROGRAMS: [(&str, &str, u8); 17] = [
    // An addk keeps the carry.
    ("3060FFFF 30800001 00A32000 10C42000 94E08001 6C058000 6C068000 6C078000 B8000000", "0 00000000\n0 00000002\n0 80000004\n", 0),
    // A division by 0.
    ("30600000 30800007 48A32000 94C08001 6C058000 6C068000 B8000000", "0 00000000\n0 00000040\n", 0),
    // mulhsu takes rA signed.
    ("3060FFFF 30800002 40A32002 6C058000 B8000000", "0 FFFFFFFF\n", 0),
    // -7 divided by 2.
    ("30600002 3080FFF9 48A32000 6C058000 B8000000", "0 FFFFFFFD\n", 0),
    // Leading zeros, bytes reversed and halves swapped, of 1.
    ("30600001 908300E0 90A301E0 90C301E2 6C048000 6C058000 6C068000 B8000000", "0 0000001F\n0 01000000\n0 00010000\n", 0),
    // Leading zeros of 0 and of 80000000.
    ("906000E0 B0008000 30800000 908400E0 6C038000 6C048000 B8000000", "0 00000020\n0 00000000\n", 0),
    // A get from a port that leads nowhere.
    ("6C600000 B8000000", "", 1),
    // A branch in a slot.
    ("30600005 6C038000 B8100008 B8000000", "0 00000005\n", 2),
    // An illegal word is raised.
    ("94100100 58000000 00000000 00000000 00000000 00000000 00000000 00000000 94C08005 6C068000 B8000000", "0 00000002\n", 0),
    // An illegal word stops the core.
    ("58000000", "", 2),
    // cmp and cmpu.
    ("30600001 B0008000 30800000 14A32001 14C32003 6C058000 6C068000 B8000000", "0 FFFFFFFF\n0 7FFFFFFF\n", 0),
    // 80000000 by -1.
    ("3060FFFF B0008000 30800000 48A32000 94C08001 6C058000 6C068000 B8000000", "0 80000000\n0 00000040\n", 0),
    // The same with exceptions on.
    ("94100100 3060FFFF B0008000 30800000 30A00009 48A32000 B8000000 B8000000 94C08005 6C058000 6C068000 6C118000 B8000000", "0 00000009\n0 00000805\n0 00000018\n", 0),
    // A load that nothing answers.
    ("94100100 B0001234 E8A05678 B8000000 B8000000 B8000000 B8000000 B8000000 94C08005 94E08003 6C068000 6C078000 6C118000 B8000000", "0 00000004\n0 12345678\n0 0000000C\n", 0),
    // An unaligned load in a slot.
    ("94100100 B810002C E8A00002 00000000 00000000 00000000 00000000 00000000 94C08005 94E08003 9500800B 6C068000 6C078000 6C088000 6C118000 B8000000", "0 000018A1\n0 00000002\n0 00000030\n0 00000000\n", 0),
    // A store to the word that runs next.
    ("B0003080 30600007 F8600010 80000000 30800001 6C048000 B8000000", "0 00000007\n", 0),
    // Put ports that lead nowhere, and control bits.
    ("30600001 6C038000 6C03A000 6C03C005 94808001 6C048000 B8000000", "0 00000001\n1 00000001\n0 80000004\n", 0),
];

#[test]
fn programs_print_what_the_guide_says(rt: HostRuntime) -> Result<(), Fail> {
    for (words, printed, code) in PROGRAMS {
        let image = assembled(rt.alloc(), words)?;
        check(
            &rt,
            rt.alloc(),
            &Row {
                code,
                printed: printed.as_bytes(),
                ..Row::of(&["raw", "image", "100"], &image)
            },
        )?;
    }
    Ok(())
}

#[test]
fn a_ring_is_shown(rt: HostRuntime) -> Result<(), Fail> {
    let printed = b"demo 0 cores 2
ascending items 1000 sum 00C401BC
descending items 1000 sum 00C401BC
rotating items 1000 sum 00C401BC
";
    check(
        &rt,
        rt.alloc(),
        &Row {
            printed,
            ..Row::of(&["demo", "0"], b"")
        },
    )
}

#[test]
fn other_words_are_usage(rt: HostRuntime) -> Result<(), Fail> {
    let rows: [&[&str]; 13] = [
        &[],
        &["raw"],
        &["raw", "image"],
        &["raw", "image", "-1"],
        &["raw", "image", "+1"],
        &["raw", "image", ""],
        &["raw", "image", "1x"],
        &["raw", "image", "1000000000001"],
        &["raw", "image", "00000000000000000010"],
        &["raw", "image", "1", "1"],
        &["raw", "-image", "1"],
        &["raw", "im age", "1"],
        &["rax", "image", "1"],
    ];
    for words in rows {
        check(
            &rt,
            rt.alloc(),
            &Row {
                code: 4,
                told: b"mbsim: usage\n",
                ..Row::of(words, PUT_FIVE)
            },
        )?;
    }
    Ok(())
}

#[test]
fn faults_are_told(rt: HostRuntime) -> Result<(), Fail> {
    let words = ["raw", "image", "10"];
    let absent = ["raw", "absent", "10"];
    let long = Vec::from_elem(rt.alloc(), 0, 65_537)?;
    let rows = [
        Row {
            code: 5,
            told: b"mbsim: cannot read absent\n",
            ..Row::of(&absent, PUT_FIVE)
        },
        Row {
            failing: [Some((0, 0)), None, None],
            code: 5,
            told: b"mbsim: cannot read image\n",
            ..Row::of(&words, PUT_FIVE)
        },
        Row {
            failing: [None, Some((0, 4)), None],
            code: 8,
            printed: b"0 00",
            told: b"mbsim: cannot write output\n",
            ..Row::of(&words, PUT_FIVE)
        },
        Row {
            code: 15,
            told: b"mbsim: image is too long\n",
            ..Row::of(&words, &long)
        },
        // An `err` that fails changes no status.
        Row {
            failing: [None, None, Some((0, 7))],
            code: 5,
            told: b"mbsim: ",
            ..Row::of(&absent, b"")
        },
        Row {
            failing: [None, None, Some((0, 3))],
            code: 4,
            told: b"mbs",
            ..Row::of(&[], b"")
        },
    ];
    for row in &rows {
        check(&rt, rt.alloc(), row)?;
    }
    Ok(())
}

/// A shelf without memory.
#[derive(Drop)]
struct FullShelf;

impl Shelf for FullShelf {
    ghost state = { λ _. record {
      files = None;
      faults = record { load_faults = 0; write_faults = 0; bad = None };
    } };

    fn load(&mut self, _alloc: Global, _name: &str, _limit: usize) -> Result<Blob, LoadFault> {
        Err(LoadFault::NoMemory)
    }

    fn start(&mut self, _alloc: Global, _name: &str) -> Result<(), StoreFault> {
        Err(StoreFault::NoMemory)
    }

    fn append(&mut self, _alloc: Global, _name: &str, _bytes: &[u8]) -> Result<(), StoreFault> {
        Err(StoreFault::NoMemory)
    }
}

#[test]
fn want_of_memory_is_told(rt: HostRuntime) {
    let alloc = rt.alloc();
    let mut script = MemSource::new(Vec::new(alloc), Vec::new(alloc));
    let mut out = MemSink::new(Vec::new(alloc), Vec::new(alloc));
    let mut err = MemSink::new(Vec::new(alloc), Vec::new(alloc));
    let words = ["raw", "image", "10"];
    let status = mbsim(
        alloc,
        &words,
        &mut FullShelf,
        &mut script,
        &mut out,
        &mut err,
        &mut ProbeSet::new(),
    );
    assert_eq!(rt; status.code(), 9);
    assert_eq!(rt; out.written(), b"".as_slice());
    assert_eq!(rt; err.written(), b"mbsim: no memory\n".as_slice());
}
