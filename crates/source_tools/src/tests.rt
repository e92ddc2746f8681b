//! Sources and images in memory, whose calls fail where they are told to.
use crate::{Refusal, asm, dis};
use core_regs::Order;
use host_io::{Failing, FileName, MemFile, MemShelf, MemSink};
use std::alloc::Global;
use std::test::Fail;

/// What an answer says.
#[derive(Clone, Copy, Debug, PartialEq, Eq)]
enum Said<'a> {
    Done,
    CannotRead(&'a str),
    TooLong(&'a str),
    BadSource(u16, u32, u32),
    BadImage(u16, u32),
    CannotWrite(&'a str),
    NoMemory,
}

fn answered(answer: &Result<(), Refusal>) -> Said<'_> {
    match answer {
        Ok(()) => Said::Done,
        Err(Refusal::CannotRead { file }) => Said::CannotRead(file.as_text()),
        Err(Refusal::TooLong { file }) => Said::TooLong(file.as_text()),
        Err(Refusal::BadSource { code, line, column }) => Said::BadSource(*code, *line, *column),
        Err(Refusal::BadImage { code, at }) => Said::BadImage(*code, *at),
        Err(Refusal::CannotWrite { file }) => Said::CannotWrite(file.as_text()),
        Err(Refusal::NoMemory) => Said::NoMemory,
    }
}

fn name(text: &str) -> Result<FileName, Fail> {
    Ok(FileName::from_text(text).ok_or("name")?)
}

/// The calls that are to fail: one or none.
fn plan(alloc: Global, failing: Option<Failing>) -> Result<Vec<Failing>, Fail> {
    let mut calls = Vec::new(alloc);
    if let Some(call) = failing {
        calls.push(call)?;
    }
    Ok(calls)
}

/// A shelf with the files `in`, of these bytes, and `old`, of three.
fn shelf(alloc: Global, bytes: &[u8], failing: Option<Failing>) -> Result<MemShelf, Fail> {
    let mut files = Vec::new(alloc);
    for (text, bytes) in [("in", bytes), ("old", b"abc".as_slice())] {
        files.push(MemFile {
            name: name(text)?,
            bytes: Vec::from_slice(alloc, bytes)?,
        })?;
    }
    Ok(MemShelf::new(files, plan(alloc, failing)?))
}

/// Lists the image of the file `file`, and answers what was printed.
fn listed(alloc: Global, shelf: &mut MemShelf, file: &str) -> Result<MemSink, Fail> {
    let mut out = MemSink::new(Vec::new(alloc), Vec::new(alloc));
    match dis(alloc, shelf, &name(file)?, &mut out) {
        Ok(()) => Ok(out),
        Err(_) => Err(Fail::from("dis")),
    }
}

/// A prefix is written and listed.
#[test]
fn prefixes_are_written_and_listed(rt: HostRuntime) -> Result<(), Fail> {
    let alloc = rt.alloc();
    let mut shelf = shelf(alloc, b"addik r3, r0, 0x12345", None)?;
    let answer = asm(alloc, &mut shelf, &name("in")?, &name("out")?, Order::Big);
    assert_eq!(rt; answered(&answer), Said::Done);
    let file = shelf.content("out").ok_or("out")?;
    assert_eq!(rt; file.len(), 92);
    assert!(rt;
        file[84..] == [0xB0, 0, 0, 1, 0x30, 0x60, 0x23, 0x45],
        "the last eight"
    );
    let out = listed(alloc, &mut shelf, "out")?;
    let lines = "00000000 B0000001 imm 0x0001\n00000004 30602345 addik r3, r0, 9029\n";
    assert!(rt; out.written() == lines.as_bytes(), "lines");
    Ok(())
}

/// A fault has its code, its line and its column, and the output is as before.
#[test]
fn faults_of_sources_are_told(rt: HostRuntime) -> Result<(), Fail> {
    let alloc = rt.alloc();
    for (source, code, line, column) in [
        ("brid 8\naddik r3, r0, 0x12345", 1106u16, 2u32, 1u32),
        ("brid 8", 1107, 1, 1),
        ("addik r3, r0\nfoo", 1102, 1, 1),
        ("foo", 1101, 1, 1),
        ("x: x: nop", 1105, 1, 4),
    ] {
        let mut shelf = shelf(alloc, source.as_bytes(), None)?;
        let answer = asm(alloc, &mut shelf, &name("in")?, &name("old")?, Order::Big);
        assert_eq!(rt;
            answered(&answer),
            Said::BadSource(code, line, column),
            "{source}"
        );
        assert!(rt; shelf.content("old") == Some(b"abc".as_slice()), "{source}");
    }
    Ok(())
}

/// Expected: the cause of each answer of `asm`, and what is left of the output: the calls of the shelf are the load, the
/// start, and an append for each 65,536 bytes or rest of 84 bytes and 70,000.
#[test]
#[rattlefmt::skip]
fn causes_of_asm_are_told(rt: HostRuntime) -> Result<(), Fail> {
    let alloc = rt.alloc();
    for (input, failing, wanted, left) in [
        ("in", None, Said::Done, 70_084usize),
        ("absent", None, Said::CannotRead("absent"), 3),
        ("in", Some(Failing { call: 0, moved: 0 }), Said::CannotRead("in"), 3),
        ("in", Some(Failing { call: 1, moved: 0 }), Said::CannotWrite("old"), 3),
        ("in", Some(Failing { call: 2, moved: 10 }), Said::CannotWrite("old"), 10),
        ("in", Some(Failing { call: 3, moved: 1 }), Said::CannotWrite("old"), 65_537),
        ("in", Some(Failing { call: 4, moved: 0 }), Said::Done, 70_084),
    ] {
        let mut shelf = shelf(alloc, b".space 70000", failing)?;
        let answer = asm(alloc, &mut shelf, &name(input)?, &name("old")?, Order::Big);
        assert_eq!(rt; answered(&answer), wanted);
        assert_eq!(rt; shelf.content("old").ok_or("old")?.len(), left);
    }
    let long = vec![in alloc; b'#'; 4_194_305]?;
    let mut shelf = shelf(alloc, long.as_slice(), None)?;
    let answer = asm(alloc, &mut shelf, &name("in")?, &name("old")?, Order::Big);
    assert_eq!(rt; answered(&answer), Said::TooLong("in"));
    Ok(())
}

/// Expected: the cause of each answer of `dis`, and how many bytes of `00000000 80000000 or r0, r0, r0` and of the second
/// line were printed.
#[test]
#[rattlefmt::skip]
fn causes_of_dis_are_told(rt: HostRuntime) -> Result<(), Fail> {
    let alloc = rt.alloc();
    for (input, load, write, wanted, printed) in [
        ("out", None, None, Said::Done, 64usize),
        ("in", None, None, Said::BadImage(701, 0), 0),
        ("absent", None, None, Said::CannotRead("absent"), 0),
        ("out", Some(Failing { call: 3, moved: 0 }), None, Said::CannotRead("out"), 0),
        ("out", None, Some(Failing { call: 0, moved: 5 }), Said::CannotWrite("output"), 5),
        ("out", None, Some(Failing { call: 1, moved: 1 }), Said::CannotWrite("output"), 33),
    ] {
        let mut shelf = shelf(alloc, b"nop\nnop", load)?;
        let assembled = asm(alloc, &mut shelf, &name("in")?, &name("out")?, Order::Little);
        assert_eq!(rt; answered(&assembled), Said::Done);
        let mut out = MemSink::new(Vec::new(alloc), plan(alloc, write)?);
        let answer = dis(alloc, &mut shelf, &name(input)?, &mut out);
        assert_eq!(rt; answered(&answer), wanted);
        assert_eq!(rt; out.written().len(), printed);
    }
    Ok(())
}

/// A little-endian executable whose first segment is data at 10000 hex, and whose second is code at 1000 hex: six bytes.
#[rattlefmt::skip]
const IMAGE: [u8; 126] = [
    0x7F, b'E', b'L', b'F', 1, 1, 1, 0, 0, 0, 0, 0, 0, 0, 0, 0,
    2, 0, 189, 0, 1, 0, 0, 0, 0, 0x10, 0, 0, 52, 0, 0, 0, 0, 0, 0, 0, 0, 0, 0, 0,
    52, 0, 32, 0, 2, 0, 0, 0, 0, 0, 0, 0,
    1, 0, 0, 0, 116, 0, 0, 0, 0, 0, 1, 0, 0, 0, 1, 0, 4, 0, 0, 0, 7, 0, 0, 0, 6, 0, 0, 0, 1, 0, 0, 0,
    1, 0, 0, 0, 120, 0, 0, 0, 0, 0x10, 0, 0, 0, 0x10, 0, 0, 6, 0, 0, 0, 6, 0, 0, 0, 5, 0, 0, 0, 1, 0, 0, 0,
    1, 2, 3, 4, 0x05, 0, 0x60, 0x30, 1, 2,
];

/// Expected: a line for each whole word of code alone, from the part's address on, in the order that the file names.
#[test]
fn whole_words_of_code_are_listed(rt: HostRuntime) -> Result<(), Fail> {
    let alloc = rt.alloc();
    let mut shelf = shelf(alloc, &IMAGE, None)?;
    let out = listed(alloc, &mut shelf, "in")?;
    assert!(rt;
        out.written() == b"00001000 30600005 addik r3, r0, 5\n".as_slice(),
        "lines"
    );
    Ok(())
}

/// A program with a prefix, a slot, a link and a word that means no instruction.
const PROGRAM: &str = ".org 64
start: addik r3, r0, 0x12345
put r3, rfsl0
brid end
nop
.word 0xFFFFFFFF
end: bri 0
";

/// Expected: each line by UG984's encodings, from the program's address on.
#[rattlefmt::skip]
const LISTING: &str = "00000040 B0000001 imm 0x0001
00000044 30602345 addik r3, r0, 9029
00000048 6C038000 put r3, rfsl0
0000004C B810000C brid 12
00000050 80000000 or r0, r0, r0
00000054 FFFFFFFF .word 0xFFFFFFFF
00000058 B8000000 bri 0
";

/// The texts of a listing behind the address and the word of each line, as a source at an address.
fn texts_of(alloc: Global, listing: &[u8]) -> Result<Vec<u8>, Fail> {
    let mut source = Vec::from_slice(alloc, b".org 64\n")?;
    let mut column = 0usize;
    for byte in listing {
        if column >= 18 {
            source.push(*byte)?;
        }
        column = if *byte == b'\n' {
            0
        } else {
            column.saturating_add(1)
        };
    }
    Ok(source)
}

/// Expected: in both byte orders the listing, and that its texts assemble to the same file.
#[test]
fn listings_assemble_to_the_same_file(rt: HostRuntime) -> Result<(), Fail> {
    let alloc = rt.alloc();
    for order in [Order::Big, Order::Little] {
        let mut shelf = shelf(alloc, PROGRAM.as_bytes(), None)?;
        let first = asm(alloc, &mut shelf, &name("in")?, &name("out")?, order);
        assert_eq!(rt; answered(&first), Said::Done);
        let out = listed(alloc, &mut shelf, "out")?;
        assert!(rt; out.written() == LISTING.as_bytes(), "lines");
        let source = texts_of(alloc, out.written())?;
        let mut again = self::shelf(alloc, source.as_slice(), None)?;
        let second = asm(alloc, &mut again, &name("in")?, &name("out")?, order);
        assert_eq!(rt; answered(&second), Said::Done);
        let file = shelf.content("out").ok_or("out")?;
        assert!(rt; again.content("out") == Some(file), "files");
        let last = if order == Order::Big { 0xB8 } else { 0 };
        assert!(rt; file.len() == 112 && file[108] == last, "order");
    }
    Ok(())
}
