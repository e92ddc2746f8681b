//! `asm` and `dis` by the top call, over files and streams in memory.
use crate::tests::plan;
use crate::top::mbsim;
use host_io::{FileName, MemFile, MemShelf, MemSink, MemSource};
use probe_set::ProbeSet;
use std::alloc::Global;
use std::process::Abort;
use std::test::Fail;

/// A shelf with the file `source`, one call of which may fail: its number, and the bytes that it moves before.
fn shelf(alloc: Global, source: &[u8], fault: Option<(u64, usize)>) -> Result<MemShelf, Fail> {
    let mut files = Vec::new(alloc);
    files.push(MemFile {
        name: FileName::from_text("source").ok_or("name")?,
        bytes: Vec::from_slice(alloc, source)?,
    })?;
    Ok(MemShelf::new(files, plan(alloc, fault)?))
}

/// Makes a call on a shelf, and compares its code, what it printed and its line on `err`.
fn check(
    rt: &impl Abort,
    alloc: Global,
    shelf: &mut MemShelf,
    words: &[&str],
    wanted: (u8, &str, &str),
) -> Result<(), Fail> {
    let mut script = MemSource::new(Vec::new(alloc), Vec::new(alloc));
    let mut out = MemSink::new(Vec::new(alloc), Vec::new(alloc));
    let mut err = MemSink::new(Vec::new(alloc), Vec::new(alloc));
    let status = mbsim(
        alloc,
        words,
        shelf,
        &mut script,
        &mut out,
        &mut err,
        &mut ProbeSet::new(),
    );
    let (code, printed, told) = wanted;
    assert_eq!(rt; status.code(), code, "{words:?}");
    assert_eq!(rt; out.written(), printed.as_bytes(), "{words:?}");
    assert_eq!(rt; err.written(), told.as_bytes(), "{words:?}");
    Ok(())
}

/// The last eight bytes of the file in both byte orders, and what `dis` prints of it.
#[test]
fn prefixes_are_written_and_listed(rt: HostRuntime) -> Result<(), Fail> {
    let alloc = rt.alloc();
    let lines = "00000000 B0000001 imm 0x0001\n00000004 30602345 addik r3, r0, 9029\n";
    let rows: [(&[&str], [u8; 8]); 2] = [
        (
            &["asm", "source", "out"],
            [0xB0, 0, 0, 1, 0x30, 0x60, 0x23, 0x45],
        ),
        (
            &["asm", "--little", "source", "out"],
            [1, 0, 0, 0xB0, 0x45, 0x23, 0x60, 0x30],
        ),
    ];
    for (words, last) in rows {
        let mut shelf = shelf(alloc, b"addik r3, r0, 0x12345", None)?;
        check(&rt, alloc, &mut shelf, words, (0, "", ""))?;
        let file = shelf.content("out").ok_or("out")?;
        assert!(rt; file.len() == 92 && file.ends_with(&last), "{words:?}");
        check(&rt, alloc, &mut shelf, &["dis", "out"], (0, lines, ""))?;
    }
    Ok(())
}

/// Each cause has its number and its line.
#[test]
#[rattlefmt::skip]
fn causes_are_told(rt: HostRuntime) -> Result<(), Fail> {
    let alloc = rt.alloc();
    let rows: [(&[&str], &str, Option<(u64, usize)>, (u8, &str)); 9] = [
        (&["asm", "source", "out"], "brid 8\naddik r3, r0, 0x12345", None, (11, "mbsim: source 1106 at 2:1\n")),
        (&["asm", "source", "out"], "brid 8", None, (11, "mbsim: source 1107 at 1:1\n")),
        (&["asm", "source", "out"], "x: x: nop", None, (11, "mbsim: source 1105 at 1:4\n")),
        (&["asm", "absent", "out"], "", None, (5, "mbsim: cannot read absent\n")),
        (&["asm", "source", "out"], "nop", Some((1, 0)), (8, "mbsim: cannot write out\n")),
        (&["asm", "source", "out"], "nop", Some((2, 3)), (8, "mbsim: cannot write out\n")),
        (&["asm", "source", "--little=true"], "nop", None, (4, "mbsim: usage\n")),
        (&["dis", "source"], "nop", None, (7, "mbsim: image of image 701 at 0\n")),
        (&["dis", "source"], "nop", Some((0, 0)), (5, "mbsim: cannot read source\n")),
    ];
    for (words, source, fault, (code, told)) in rows {
        let mut shelf = shelf(alloc, source.as_bytes(), fault)?;
        check(&rt, alloc, &mut shelf, words, (code, "", told))?;
    }
    Ok(())
}
