//! Interrupts, breaks and sleep, and what holds them off.

use super::{Core, booted};
use crate::acts::{Act, Breaks, Hopes, Idle, Step};
use crate::resting::idle;
use core_regs::{Msr, Take};
use std::test::Fail;

const BREAK: Breaks = Breaks {
    maskable: true,
    nonmaskable: false,
};

const NONMASKABLE: Breaks = Breaks {
    maskable: false,
    nonmaskable: true,
};

const ALL: Hopes = Hopes {
    interrupt: true,
    maskable: true,
    nonmaskable: true,
};

/// One step of these words with this MSR, the line high and these breaks.
fn pressed(
    rt: &HostRuntime,
    words: &[u32],
    msr: u32,
    line: bool,
    breaks: Breaks,
) -> Result<Core, Fail> {
    let mut core = booted(rt.alloc(), words)?;
    core.arch.msr = Msr(msr);
    core.ports.line = line;
    core.ports.breaks = breaks;
    core.ports.hopes = ALL;
    Ok(core)
}

const NONE: Breaks = Breaks {
    maskable: false,
    nonmaskable: false,
};

/// MSR, the line and the breaks; the take that comes, with pc, MSR, r14 and r16 after it.
type Row = (u32, bool, Breaks, Option<Take>, u32, u32, u32, u32);

const ROWS: [Row; 9] = [
    (0x2, true, NONE, Some(Take::Interrupt), 0x10, 0, 4, 0),
    (0x0, true, NONE, None, 8, 0, 0, 0),
    (0xA, true, NONE, None, 8, 0xA, 0, 0),
    (0x202, true, NONE, None, 8, 0x202, 0, 0),
    (0x2, true, BREAK, Some(Take::Break), 0x18, 0xA, 0, 4),
    (0x8, false, BREAK, None, 8, 0x8, 0, 0),
    (0x200, false, BREAK, None, 8, 0x200, 0, 0),
    (
        0x20A,
        true,
        NONMASKABLE,
        Some(Take::NonMaskable),
        0x18,
        0x20A,
        0,
        4,
    ),
    (0x0, false, NONE, None, 8, 0, 0, 0),
];

#[test]
fn takes_come_in_their_order(rt: HostRuntime) -> Result<(), Fail> {
    for (msr, line, breaks, take, pc, msr_after, r14, r16) in ROWS {
        let mut core = pressed(&rt, &[0x8000_0000, 0x8000_0000], msr, line, breaks)?;
        core.arch.pc = 4;
        let wanted = match take {
            Some(take) => Act::Took(take),
            None => Act::Retired,
        };
        assert_eq!(rt; core.step()?, Step::Did(wanted), "MSR {msr:X}");
        assert_eq!(rt;
            (core.arch.pc, core.arch.msr.0),
            (pc, msr_after),
            "MSR {msr:X}"
        );
        assert_eq!(rt;
            (core.arch.regs[14], core.arch.regs[16]),
            (r14, r16),
            "MSR {msr:X}"
        );
    }
    Ok(())
}

#[test]
fn nothing_is_taken_behind_a_prefix_before_a_slot_or_at_an_atomic_access(
    rt: HostRuntime,
) -> Result<(), Fail> {
    // the words, and the place at which the break comes at last
    let rows: [(&[u32], u32); 4] = [
        (&[0xB000_1234, 0x3060_5678, 0x8000_0000], 8),
        (&[0xB810_0008, 0x3080_0001, 0x8000_0000], 8),
        (&[0xBE20_0040, 0x3080_0001, 0x8000_0000], 8),
        (&[0x6C03_8800, 0x8000_0000, 0x8000_0000], 8),
    ];
    for (words, at) in rows {
        let mut core = pressed(&rt, words, 0, false, NONE)?;
        if words[0] != 0x6C03_8800 {
            core.step()?;
        }
        core.ports.breaks = BREAK;
        for _turn in 0..3 {
            if core.step()? == Step::Did(Act::Took(Take::Break)) {
                break;
            }
        }
        assert_eq!(rt; core.arch.regs[16], at, "at {at}");
    }
    Ok(())
}

#[test]
fn a_branch_that_is_not_taken_holds_its_slot(rt: HostRuntime) -> Result<(), Fail> {
    let mut core = booted(rt.alloc(), &[0xBE20_0040, 0x3080_0001])?;
    core.step()?;
    assert_eq!(rt; (core.arch.pc, core.arch.slot), (4, Some(8)));
    core.step()?;
    assert_eq!(rt; (core.arch.pc, core.arch.slot), (8, None));
    Ok(())
}

#[test]
fn a_core_sleeps_until_something_is_taken(rt: HostRuntime) -> Result<(), Fail> {
    let mut core = pressed(&rt, &[0xBA02_0004, 0x8000_0000], 0x2, false, NONE)?;
    assert_eq!(rt; core.step()?, Step::Did(Act::Slept));
    assert_eq!(rt; core.step()?, Step::Idle(Idle::Asleep));
    assert_eq!(rt; idle(&core.arch, Some(0x8000_0000), &core.ports), None);
    core.ports.line = true;
    assert_eq!(rt; core.step()?, Step::Did(Act::Took(Take::Interrupt)));
    assert_eq!(rt; (core.arch.asleep, core.arch.regs[14]), (false, 4));
    Ok(())
}

#[test]
fn a_closed_core_rests(rt: HostRuntime) -> Result<(), Fail> {
    let mut core = booted(rt.alloc(), &[0xB800_0000])?;
    assert_eq!(rt;
        idle(&core.arch, Some(0xB800_0000), &core.ports),
        Some(Idle::Ended)
    );
    core.ports.hopes = ALL;
    assert_eq!(rt; idle(&core.arch, Some(0xB800_0000), &core.ports), None);
    assert_eq!(rt; core.step()?, Step::Did(Act::Retired));
    assert_eq!(rt; core.arch.pc, 0);
    Ok(())
}
