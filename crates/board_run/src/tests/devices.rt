//! Boards with a timer, an interrupt controller and a UART.

use super::build::{CoreOf, Setup};
use super::runs::{ENDED, check, ran};
use board_file::Turn;
use std::test::Fail;

/// A board of one core with these words, and devices.
fn alone<'a>(cores: &'a [CoreOf<'a>], every: u32, bytes: &'a [u8]) -> Setup<'a> {
    Setup {
        turn: Turn::Ascending,
        cores,
        links: &[],
        breaks: &[],
        input: &[],
        every: Some(every),
        bytes,
    }
}

/// `addik r3, r0, 0x48`, `swi r3, r0, 0x6004`, the same with 0x69, and `bri 0`.
const HELLO: [(u32, &[u32]); 1] = [(
    0,
    &[
        0x3060_0048,
        0xF860_6004,
        0x3060_0069,
        0xF860_6004,
        0xB800_0000,
    ],
)];

#[test]
fn bytes_leave_at_the_turns_of_the_uart(rt: HostRuntime) -> Result<(), Fail> {
    let each =
        "1 a 1 wrote 00006004 00000048\n2 - 0 left x 48\n3 a 3 wrote 00006004 00000069\n4 - 0 left x 69\n";
    let third =
        "1 a 1 wrote 00006004 00000048\n3 - 0 left x 48\n3 a 3 wrote 00006004 00000069\n6 - 0 left x 69\n";
    for (every, lines, last) in [(1, each, 5), (3, third, 7)] {
        let cores = [CoreOf {
            words: &HELLO,
            clock: 1,
        }];
        let setup = alone(&cores, every, &[]);
        let (board, end, number) = ran(rt.alloc(), &setup, 100, 100)?;
        assert_eq!(rt; (end, number), (ENDED, last));
        check(&rt, rt.alloc(), &board, lines, &[])?;
    }
    Ok(())
}

/// The controller takes inputs in and lets input 0 through, the timer counts down from 3, and the core sleeps with IE. The
/// interrupt's handler is `bri 0`.
const SLEEPER: [(u32, &[u32]); 3] = [
    (0x00, &[0xB800_0040]),
    (0x10, &[0xB800_0000]),
    (
        0x40,
        &[
            0x3060_0003,
            0xF860_501C,
            0xF860_4004,
            0x3060_0001,
            0xF860_5008,
            0x3060_0062,
            0xF860_4000,
            0x3060_00C2,
            0xF860_4000,
            0x9410_0002,
            0xBB02_0004,
        ],
    ),
];

#[test]
fn a_timer_wakes_a_sleeping_core(rt: HostRuntime) -> Result<(), Fail> {
    let cores = [CoreOf {
        words: &SLEEPER,
        clock: 1,
    }];
    let setup = alone(&cores, 1, &[]);
    let (board, end, number) = ran(rt.alloc(), &setup, 100, 100)?;
    assert_eq!(rt; (end, number), (ENDED, 14));
    check(
        &rt,
        rt.alloc(),
        &board,
        "2 a 2 wrote 0000501C 00000003\n3 a 3 wrote 00004004 00000003\n5 a 5 wrote 00005008 00000001\n7 a 7 wrote 00004000 00000062\n9 a 9 wrote 00004000 000000C2\n11 a 11 slept\n13 a 12 lineup\n13 a 12 took interrupt\n",
        &[],
    )
}

/// `bri 0`: the core is at its end from the start, and nobody reads the bytes that come.
const ENDING: [(u32, &[u32]); 1] = [(0, &[0xB800_0000])];

#[test]
fn a_board_rests_when_its_input_was_given(rt: HostRuntime) -> Result<(), Fail> {
    for (every, count, last) in [(1, 3, 3), (2, 3, 5), (1, 20, 20), (1, 0, 0)] {
        let bytes = [7; 20];
        let cores = [CoreOf {
            words: &ENDING,
            clock: 1,
        }];
        let given = bytes.get(..count).ok_or("too many bytes")?;
        let setup = alone(&cores, every, given);
        let (board, end, number) = ran(rt.alloc(), &setup, 100, 100)?;
        assert_eq!(rt;
            (end, number),
            (ENDED, last),
            "{count} bytes, every {every}"
        );
        check(&rt, rt.alloc(), &board, "", &[])?;
    }
    Ok(())
}
