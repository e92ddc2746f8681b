//! Whole programs, by what they send to port 0 and how they end.

use super::booted;
use crate::acts::{Idle, Step};
use core_regs::{StopCause, WaitOn};
use std::test::Fail;

/// A program, the words that it sends, and its end.
type Row = (&'static str, &'static [u32], &'static [u32], Idle);

const ROWS: [Row; 16] = [
    (
        "an addk keeps the carry",
        &[
            0x3060_FFFF,
            0x3080_0001,
            0x00A3_2000,
            0x10C4_2000,
            0x94E0_8001,
            0x6C05_8000,
            0x6C06_8000,
            0x6C07_8000,
            0xB800_0000,
        ],
        &[0, 2, 0x8000_0004],
        Idle::Ended,
    ),
    (
        "rsubk and the compares",
        &[
            0x3060_0001,
            0xB000_8000,
            0x3080_0000,
            0x14A3_2001,
            0x14C3_2003,
            0x6C05_8000,
            0x6C06_8000,
            0xB800_0000,
        ],
        &[0xFFFF_FFFF, 0x7FFF_FFFF],
        Idle::Ended,
    ),
    (
        "a division by 0",
        &[
            0x3060_0000,
            0x3080_0007,
            0x48A3_2000,
            0x94C0_8001,
            0x6C05_8000,
            0x6C06_8000,
            0xB800_0000,
        ],
        &[0, 0x40],
        Idle::Ended,
    ),
    (
        "leading zeros, bytes and halves of 1",
        &[
            0x3060_0001,
            0x9083_00E0,
            0x90A3_01E0,
            0x90C3_01E2,
            0x6C04_8000,
            0x6C05_8000,
            0x6C06_8000,
            0xB800_0000,
        ],
        &[0x1F, 0x0100_0000, 0x0001_0000],
        Idle::Ended,
    ),
    (
        "mulhsu takes rA signed",
        &[
            0x3060_FFFF,
            0x3080_0002,
            0x40A3_2002,
            0x6C05_8000,
            0xB800_0000,
        ],
        &[0xFFFF_FFFF],
        Idle::Ended,
    ),
    (
        "a quotient is cut towards 0",
        &[
            0x3060_0002,
            0x3080_FFF9,
            0x48A3_2000,
            0x6C05_8000,
            0xB800_0000,
        ],
        &[0xFFFF_FFFD],
        Idle::Ended,
    ),
    (
        "a quotient that is no word",
        &[
            0x3060_FFFF,
            0xB000_8000,
            0x3080_0000,
            0x48A3_2000,
            0x94C0_8001,
            0x6C05_8000,
            0x6C06_8000,
            0xB800_0000,
        ],
        &[0x8000_0000, 0x40],
        Idle::Ended,
    ),
    (
        "a raised division keeps rD",
        &[
            0x9410_0100,
            0x3060_FFFF,
            0xB000_8000,
            0x3080_0000,
            0x30A0_0009,
            0x48A3_2000,
            0xB800_0000,
            0xB800_0000,
            0x94C0_8005,
            0x6C05_8000,
            0x6C06_8000,
            0x6C11_8000,
            0xB800_0000,
        ],
        &[9, 0x805, 0x18],
        Idle::Ended,
    ),
    (
        "a load where nothing answers is raised",
        &[
            0x9410_0100,
            0xB000_1234,
            0xE8A0_5678,
            0xB800_0000,
            0xB800_0000,
            0xB800_0000,
            0xB800_0000,
            0xB800_0000,
            0x94C0_8005,
            0x94E0_8003,
            0x6C06_8000,
            0x6C07_8000,
            0x6C11_8000,
            0xB800_0000,
        ],
        &[4, 0x1234_5678, 0xC],
        Idle::Ended,
    ),
    (
        "a fault in a slot",
        &[
            0x9410_0100,
            0xB810_002C,
            0xE8A0_0002,
            0,
            0,
            0,
            0,
            0,
            0x94C0_8005,
            0x94E0_8003,
            0x9500_800B,
            0x6C06_8000,
            0x6C07_8000,
            0x6C08_8000,
            0x6C11_8000,
            0xB800_0000,
        ],
        &[0x18A1, 2, 0x30, 0],
        Idle::Ended,
    ),
    (
        "a branch in a slot stops",
        &[0x3060_0005, 0x6C03_8000, 0xB810_0008, 0xB800_0000],
        &[5],
        Idle::Stopped(StopCause::Slot(0xB800_0000)),
    ),
    (
        "an illegal word is raised",
        &[
            0x9410_0100,
            0x5800_0000,
            0,
            0,
            0,
            0,
            0,
            0,
            0x94C0_8005,
            0x6C06_8000,
            0xB800_0000,
        ],
        &[2],
        Idle::Ended,
    ),
    (
        "an illegal word stops where exceptions are off",
        &[0x5800_0000],
        &[],
        Idle::Stopped(StopCause::Illegal(0x5800_0000)),
    ),
    (
        "a store changes the word that runs next",
        &[
            0xB000_3080,
            0x3060_0007,
            0xF860_0010,
            0x8000_0000,
            0x3080_0001,
            0x6C04_8000,
            0xB800_0000,
        ],
        &[7],
        Idle::Ended,
    ),
    (
        "a get waits for its port",
        &[0x6C60_0000, 0xB800_0000],
        &[],
        Idle::Waits(WaitOn {
            port: 0,
            full: false,
        }),
    ),
    (
        "a branch out of memory stops",
        &[0xB000_0001, 0xB808_0000],
        &[],
        Idle::Stopped(StopCause::InstrBus(0x1_0000)),
    ),
];

#[test]
fn programs_send_and_end_as_the_guide_says(rt: HostRuntime) -> Result<(), Fail> {
    let alloc = rt.alloc();
    for (name, words, wanted, end) in ROWS {
        let mut core = booted(alloc, words)?;
        let mut sent = Vec::new(alloc);
        let mut last = None;
        for _turn in 0..100 {
            if let Step::Idle(idle) = core.step()? {
                last = Some(idle);
                break;
            }
            if let Some(item) = core.ports.outputs[0] {
                core.ports.outputs[0] = None;
                sent.push(item.word)?;
            }
        }
        assert_eq!(rt; sent.as_slice(), wanted, "{name}");
        assert_eq!(rt; last, Some(end), "{name}");
    }
    Ok(())
}
