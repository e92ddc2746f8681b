//! Rows that were worked by hand, and the table of times.

ghost use Rattle.std.specs.Prelude.{◌<◌, ◌^◌, IfOk, IfSome};
ghost use Rattle.std.specs.Option.{option_copied};
ghost use Rattle.mb_decode.specs.Meaning.{NamesRegisters};

use crate::{Jump, Past, Pipe, jump_of};
use core_regs::Size;
use isa_step::{Act, Done, Store};
use mb_decode::{Instr, decode};
use std::process::Abort;
use std::test::Fail;

/// `lwi r3, r3, 0`.
const LOAD: u32 = 0xE863_0000;

/// `addik r4, r0, 1` and `addik r3, r3, 1`.
const ADD: u32 = 0x3080_0001;

const ADD_ON: u32 = 0x3063_0001;

/// `swi r4, r0, 0`.
const STORE: u32 = 0xF880_0000;

/// `mul r3, r3, r3`, `bslli r3, r3, 1`, `idiv r4, r0, r0` and `get r3, port 0`.
const MULTIPLY: u32 = 0x4063_1800;

const SHIFT: u32 = 0x6463_0401;

const DIVIDE: u32 = 0x4880_0000;

const GET: u32 = 0x6C60_0000;

/// `brid 8`.
const BRANCH: u32 = 0xB810_0008;

/// What a core did in tick 10, what it does next, and whether in a slot.
struct Case(Option<(u32, Jump)>, Option<u32>, bool);

/// The rows of the table of times, one by one; a core that did nothing, and in the last row a take.
const CASES: [Case; 12] = [
    Case(Some((STORE, Jump::On)), Some(ADD), true),
    Case(Some((LOAD, Jump::On)), Some(ADD), true),
    Case(Some((ADD, Jump::On)), Some(ADD), true),
    Case(Some((LOAD, Jump::On)), Some(ADD_ON), true),
    Case(Some((GET, Jump::On)), Some(ADD_ON), true),
    Case(Some((MULTIPLY, Jump::On)), Some(ADD_ON), true),
    Case(Some((SHIFT, Jump::On)), Some(ADD_ON), true),
    Case(Some((ADD_ON, Jump::On)), Some(ADD_ON), true),
    Case(Some((ADD, Jump::On)), Some(DIVIDE), true),
    Case(Some((BRANCH, Jump::Taken)), Some(ADD), false),
    Case(Some((STORE, Jump::Struck)), Some(ADD), false),
    Case(None, None, false),
];

/// When the next act of each case is due on a pipeline.
const ROWS: [(Pipe, [u64; 12]); 4] = [
    (
        Pipe::Plain,
        [11, 11, 11, 11, 11, 11, 11, 11, 11, 11, 11, 11],
    ),
    (
        Pipe::Three,
        [12, 12, 11, 12, 12, 12, 12, 11, 44, 13, 13, 13],
    ),
    (Pipe::Five, [11, 11, 11, 12, 12, 12, 12, 11, 44, 13, 14, 14]),
    (
        Pipe::Eight,
        [11, 11, 11, 15, 15, 14, 14, 11, 44, 13, 14, 14],
    ),
];

fn instr(word: u32) -> Result<Instr, Fail>
    ensures { IfOk result NamesRegisters }
{
    match decode(word) {
        Some(i) => Ok(i),
        None => Err("no instruction".into()),
    }
}

/// When an act is due.
fn due(past: &Past, i: Option<&Instr>, in_slot: bool) -> Result<u64, Fail>
    requires { IfSome (option_copied i) NamesRegisters }
{
    if past.begins(i, in_slot) >= 1 << 63 {
        return Err("too late".into());
    }
    Ok(past.due(i, in_slot))
}

impl Case {
    fn past(&self, pipe: Pipe) -> Result<Past, Fail> {
        let mut past = Past::new(pipe);
        match self.0 {
            Some((word, jump)) => past.retired(&instr(word)?, 10, jump),
            None => past.turned(10),
        }
        Ok(past)
    }

    fn due(&self, pipe: Pipe) -> Result<u64, Fail> {
        let past = self.past(pipe)?;
        match self.1 {
            Some(word) => due(&past, Some(&instr(word)?), self.2),
            None => due(&past, None, self.2),
        }
    }
}

#[test]
fn a_load_is_ready_five_ticks_later(rt: HostRuntime) -> Result<(), Fail> {
    let (load, add) = (instr(LOAD)?, instr(ADD)?);
    let mut past = Past::new(Pipe::Eight);
    assert_eq!(rt; due(&past, Some(&load), false)?, 3);
    past.retired(&load, 4, Jump::On);
    assert_eq!(rt; due(&past, Some(&load), false)?, 9);
    assert_eq!(rt; due(&past, Some(&add), false)?, 5);
    Ok(())
}

#[test]
fn a_turn_empties_the_pipeline_but_not_a_slot(rt: HostRuntime) -> Result<(), Fail> {
    let (add, branch) = (instr(ADD)?, instr(BRANCH)?);
    for (pipe, tick) in [(Pipe::Three, 10), (Pipe::Five, 11)] {
        let mut past = Past::new(pipe);
        past.turned(7);
        assert_eq!(rt; due(&past, None, false)?, tick);
    }
    let mut past = Past::new(Pipe::Five);
    past.retired(&branch, 3, Jump::Taken);
    assert_eq!(rt; due(&past, Some(&add), true)?, 4);
    assert_eq!(rt; due(&past, Some(&add), false)?, 6);
    Ok(())
}

fn cases_are_due(rt: &impl Abort, pipe: Pipe, ticks: &[u64; 12]) -> Result<(), Fail> {
    for (case, tick) in CASES.iter().zip(ticks) {
        assert_eq!(rt; case.due(pipe)?, *tick);
    }
    Ok(())
}

#[test]
fn each_pipeline_has_its_times(rt: HostRuntime) -> Result<(), Fail> {
    for (pipe, ticks) in &ROWS {
        cases_are_due(&rt, *pipe, ticks)?;
    }
    Ok(())
}

#[test]
fn each_pipeline_has_its_first_tick(rt: HostRuntime) -> Result<(), Fail> {
    for (pipe, tick) in [
        (Pipe::Plain, 0),
        (Pipe::Three, 2),
        (Pipe::Five, 3),
        (Pipe::Eight, 3),
    ] {
        assert_eq!(rt; due(&Past::new(pipe), None, false)?, tick);
    }
    Ok(())
}

/// A store of a word to an address.
const fn stored(addr: u32) -> Done {
    Done {
        act: Act::Retired,
        write: None,
        store: Some(Store {
            addr,
            size: Size::Word,
            word: 0,
        }),
        late: None,
        jumped: false,
    }
}

#[test]
fn a_store_strikes_eight_words(rt: HostRuntime) {
    for (addr, pc, jump) in [
        (0x10, 0x14, Jump::On),
        (0x14, 0x14, Jump::Struck),
        (0x30, 0x14, Jump::Struck),
        (0x34, 0x14, Jump::On),
        (0xC, 0xFFFF_FFF0, Jump::Struck),
        (0x10, 0xFFFF_FFF0, Jump::On),
    ] {
        assert_eq!(rt; jump_of(&stored(addr), pc), jump, "at {addr:x}");
    }
}
