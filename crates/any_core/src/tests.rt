//! Programs on each pipeline: what they come to, and in which ticks, counted by hand from the table of times.

use crate::AnyCore;
use byte_mem::Memory;
use core_iface::{Core, Flight, Tick};
use core_regs::{Arch, Order, Take};
use isa_step::{Act, BenchPorts};
use std::alloc::Global;
use std::process::Abort;
use std::test::Fail;
use timing_law::Pipe;

const RETIRED: Tick = Tick::Acted(Act::Retired);

/// The pipelines, and for how many ticks a result is in flight.
const PIPES: [(Pipe, u8); 4] = [
    (Pipe::Plain, 0),
    (Pipe::Three, 1),
    (Pipe::Five, 2),
    (Pipe::Eight, 5),
];

/// `addik r3, r0, 40`, ten times `lwi r3, r3, 0`, `bri 0`: each load waits for the one before.
const LOADS: [u32; 12] = [
    0x3060_0040,
    0xE863_0000,
    0xE863_0000,
    0xE863_0000,
    0xE863_0000,
    0xE863_0000,
    0xE863_0000,
    0xE863_0000,
    0xE863_0000,
    0xE863_0000,
    0xE863_0000,
    0xB800_0000,
];

/// `addik r3, r0, 3`, `addik r4, r0, 15`, `idiv r5, r3, r4`, `addik r6, r5, 1`: a divide takes 33 ticks more.
const DIVIDE: [u32; 5] = [
    0x3060_0003,
    0x3080_000F,
    0x48A3_2000,
    0x30C5_0001,
    0xB800_0000,
];

/// `addik r3, r0, 3`, `addik r3, r3, -1`, `bneid r3, -4`: a taken branch refills the pipeline.
const COUNT_DOWN: [u32; 4] = [0x3060_0003, 0x3063_FFFF, 0xBC23_FFFC, 0xB800_0000];

/// `imm 3080`, `addik r3, r0, 7`, `swi r3, r0, 10`, whose word is the one at 10, which is fetched again, a word that is
/// passed over, `put r4, port 0`.
const PATCHED: [u32; 7] = [
    0xB000_3080,
    0x3060_0007,
    0xF860_0010,
    0x8000_0000,
    0x3080_0001,
    0x6C04_8000,
    0xB800_0000,
];

/// `addik r3, r0, 1`, and twice `bslli r3, r3, 1`: each shift waits for the one before.
const SHIFTS: [u32; 4] = [0x3060_0001, 0x6463_0401, 0x6463_0401, 0xB800_0000];

/// `addik r3, r0, 1`, `addik r3, r0, 2`, `put r3, port 0`: the last value is sent.
const LAST_VALUE: [u32; 4] = [0x3060_0001, 0x3060_0002, 0x6C03_8000, 0xB800_0000];

/// A core with these words from address 0 on, and one at 40 hex, which is its own address.
fn made(alloc: Global, pipe: Pipe, words: &[u32]) -> Result<AnyCore, Fail> {
    let mut memory = Memory::new(alloc, 4_096).ok().ok_or("no memory")?;
    let mut bytes = Vec::new(alloc);
    for word in words {
        bytes.extend_from_slice(&word.to_be_bytes())?;
    }
    memory
        .fill(0, bytes.as_slice())
        .ok()
        .ok_or("too many words")?;
    memory
        .fill(0x40, &0x40u32.to_be_bytes())
        .ok()
        .ok_or("too small")?;
    Ok(AnyCore::new(pipe, memory, Arch::fresh(0, Order::Big, false)))
}

/// One tick.
fn tick(core: &mut AnyCore, ports: &mut BenchPorts) -> Result<Tick, Fail> {
    if ports.spare() == 0 || core.ticks() >= 1 << 62 {
        return Err("no tick is left".into());
    }
    Ok(core.tick(ports))
}

/// The ticks of a core before its end.
fn counted(core: &mut AnyCore, ports: &mut BenchPorts) -> Result<u64, Fail> {
    for _ in 0..200u32 {
        if tick(core, ports)? == Tick::Ended {
            return Ok(core.ticks().saturating_sub(1));
        }
    }
    Err("no end".into())
}

/// Ticks of a core up to its first act.
fn first_act(core: &mut AnyCore, ports: &mut BenchPorts) -> Result<(), Fail> {
    for _ in 0..10u32 {
        if core.acts() != 0 {
            return Ok(());
        }
        let _ = tick(core, ports)?;
    }
    Err("no act".into())
}

/// Ticks of a core, each of which must give its answer.
fn answers(
    rt: &impl Abort,
    core: &mut AnyCore,
    ports: &mut BenchPorts,
    wanted: &[Tick],
) -> Result<(), Fail> {
    for wanted in wanted {
        assert_eq!(rt; tick(core, ports)?, *wanted);
    }
    Ok(())
}

#[test]
fn programs_come_to_the_same_in_the_ticks_of_the_table(rt: HostRuntime) -> Result<(), Fail> {
    // a program, its acts, a register and its value at the end, and its ticks on each pipeline
    let rows: [(&[u32], u64, usize, u32, [u64; 4]); 5] = [
        (&LOADS, 11, 3, 0x40, [11, 22, 23, 50]),
        (&DIVIDE, 4, 6, 6, [4, 39, 40, 40]),
        (&COUNT_DOWN, 7, 3, 0, [7, 13, 14, 14]),
        (&PATCHED, 6, 4, 7, [6, 10, 12, 12]),
        (&SHIFTS, 3, 3, 4, [3, 6, 7, 9]),
    ];
    for (words, acts, reg, value, ticks) in rows {
        for ((pipe, _), ticks) in PIPES.into_iter().zip(ticks) {
            let mut core = made(rt.alloc(), pipe, words)?;
            assert_eq!(rt; counted(&mut core, &mut BenchPorts::new())?, ticks);
            assert_eq!(rt; core.acts(), acts);
            assert_eq!(rt; core.arch().regs.get(reg).copied(), Some(value));
        }
    }
    Ok(())
}

#[test]
fn the_last_value_is_sent(rt: HostRuntime) -> Result<(), Fail> {
    for (pipe, _) in PIPES {
        let mut core = made(rt.alloc(), pipe, &LAST_VALUE)?;
        let mut ports = BenchPorts::new();
        let _ = counted(&mut core, &mut ports)?;
        let sent = ports.outputs[0].ok_or("nothing was sent")?;
        assert_eq!(rt; (sent.word, sent.control), (2, false));
    }
    Ok(())
}

#[test]
fn a_result_lands_after_the_depth_of_the_pipeline(rt: HostRuntime) -> Result<(), Fail> {
    // addik r3, r0, 3, and words that write nothing
    let words = [
        0x3060_0003,
        0x8000_0000,
        0x8000_0000,
        0x8000_0000,
        0x8000_0000,
        0x8000_0000,
    ];
    for (pipe, depth) in PIPES {
        let mut core = made(rt.alloc(), pipe, &words)?;
        let mut ports = BenchPorts::new();
        assert_eq!(rt; (core.past().pipe, core.depth()), (pipe, depth));
        first_act(&mut core, &mut ports)?;
        for age in 0..depth {
            assert_eq!(rt;
                core.flight(0),
                Some(Flight {
                    reg: 3,
                    value: 3,
                    age
                })
            );
            assert_eq!(rt; (core.file(3), core.arch().regs[3]), (0, 3));
            answers(&rt, &mut core, &mut ports, &[RETIRED])?;
        }
        assert_eq!(rt; core.flight(0), None);
        assert_eq!(rt; (core.file(3), core.arch().regs[3]), (3, 3));
    }
    Ok(())
}

#[test]
fn a_register_settles_tick_by_tick(rt: HostRuntime) -> Result<(), Fail> {
    // twice lwi r3, r3, C, bri 0, and the word 0
    let words = [0xE863_000C, 0xE863_000C, 0xB800_0000, 0];
    let mut core = made(rt.alloc(), Pipe::Eight, &words)?;
    let mut ports = BenchPorts::new();
    let first = [Tick::Filling, Tick::Filling, Tick::Filling, RETIRED];
    answers(&rt, &mut core, &mut ports, &first)?;
    for left in [4u8, 3, 2, 1] {
        assert_eq!(rt; core.settle(3), left);
        answers(&rt, &mut core, &mut ports, &[Tick::Filling])?;
    }
    assert_eq!(rt; (core.ticks(), core.settle(3)), (8, 0));
    answers(&rt, &mut core, &mut ports, &[RETIRED])
}

#[test]
fn a_take_is_not_held_back(rt: HostRuntime) -> Result<(), Fail> {
    for (pipe, _) in PIPES {
        let mut core = made(rt.alloc(), pipe, &COUNT_DOWN)?;
        let mut ports = BenchPorts::new();
        ports.breaks.nonmaskable = true;
        let taken = Tick::Acted(Act::Took(Take::NonMaskable));
        answers(&rt, &mut core, &mut ports, &[taken])?;
    }
    Ok(())
}

#[test]
fn a_prefix_is_held_while_the_divider_works(rt: HostRuntime) -> Result<(), Fail> {
    // imm 1, idiv r5, r3, r4
    let mut core = made(rt.alloc(), Pipe::Three, &[0xB000_0001, 0x48A3_2000])?;
    let mut ports = BenchPorts::new();
    let first = [Tick::Filling, Tick::Filling, RETIRED, Tick::Filling];
    answers(&rt, &mut core, &mut ports, &first)?;
    assert_eq!(rt; core.arch().prefix, Some(1));
    assert_eq!(rt; core.slack(), 62);
    Ok(())
}
