//! Worked boards with devices.
use crate::board_tests::{LOGGED, Row, check};
use std::test::Fail;

/// A timer at input 0 of a controller, and a link to the file `out`.
const TIMED: &str = "
core.c = {image = 'a.elf', pipeline = 'plain'}
intc.i = {core = 'c', base = 0x41200000}
timer.t = {core = 'c', base = 0x41C00000, irq = 0}
link.l = {from = 'c', from_port = 0, to_file = 'out'}
";

/// The same with a core of three stages.
const TIMED_THREE: &str = "
core.c = {image = 'a.elf', pipeline = 'three'}
intc.i = {core = 'c', base = 0x41200000}
timer.t = {core = 'c', base = 0x41C00000, irq = 0}
link.l = {from = 'c', from_port = 0, to_file = 'out'}
";

/// From 0: a branch to 40. At 10, the handler: r3 and r14 are sent, and the core ends. From 40: controller and timer are
/// set up, interrupts allowed, the timer started with 1, and a prefixed `addik` stands where the interrupt is due.
const INTERRUPTED: &str =
    "B8080040 00000000 00000000 00000000 6C038000 6C0E8000 B8000000 00000000 00000000 00000000 00000000 00000000 00000000 00000000 00000000 00000000 B0004120 30600000 B00041C0 30800000 30A00001 30C00003 F8A30008 F8C3001C F8A40004 30E00020 F8E40000 30E000D2 94100002 F8E40000 B0001234 30605678 B8000000";

#[test]
fn an_interrupt_waits_for_a_prefix(rt: HostRuntime) -> Result<(), Fail> {
    let plain = Row {
        words: LOGGED,
        parts: TIMED,
        images: [INTERRUPTED, ""],
        printed: "status 0 cycles 21 entries 11
core c ended pc 00000018 acts 20
link l sent 2 taken 2
",
        left: [
            Some(&[0, 0x12, 0x34, 0x56, 0x78, 0, 0, 0, 0, 0x80]),
            Some(
                b"7 c 7 wrote 41200008 00000001
8 c 8 wrote 4120001C 00000003
9 c 9 wrote 41C00004 00000001
11 c 11 wrote 41C00000 00000020
14 c 14 wrote 41C00000 000000D2
16 c 16 lineup
17 c 17 took interrupt
18 c 18 sent 0 0 12345678
19 - 0 hostgot l 0 12345678
19 c 19 sent 0 0 00000080
20 - 0 hostgot l 0 00000080
",
            ),
        ],
        ..Row::relay()
    };
    // The last store holds two ticks, so the interrupt comes before the prefix.
    let three = Row {
        words: &["run", "b"],
        parts: TIMED_THREE,
        printed: "status 0 cycles 30 entries 11
core c ended pc 00000018 acts 18
link l sent 2 taken 2
",
        left: [Some(&[0, 0x41, 0x20, 0, 0, 0, 0, 0, 0, 0x78]), None],
        ..plain
    };
    check(&rt, rt.alloc(), &plain)?;
    check(&rt, rt.alloc(), &three)
}

/// The first of these boards, but the timer moves in each third cycle.
const TIMED_SLOWLY: &str = "
core.c = {image = 'a.elf', pipeline = 'plain'}
intc.i = {core = 'c', base = 0x41200000}
timer.t = {core = 'c', base = 0x41C00000, irq = 0, clock = 3}
link.l = {from = 'c', from_port = 0, to_file = 'out'}
";

#[test]
fn a_timer_moves_where_its_clock_divides_the_cycle(rt: HostRuntime) -> Result<(), Fail> {
    let slow = Row {
        head: "version = 2",
        words: LOGGED,
        parts: TIMED_SLOWLY,
        images: [INTERRUPTED, ""],
        printed: "status 0 cycles 22 entries 11
core c ended pc 00000018 acts 21
link l sent 2 taken 2
",
        left: [
            Some(&[0, 0x12, 0x34, 0x56, 0x78, 0, 0, 0, 0, 0x80]),
            Some(
                b"7 c 7 wrote 41200008 00000001
8 c 8 wrote 4120001C 00000003
9 c 9 wrote 41C00004 00000001
11 c 11 wrote 41C00000 00000020
14 c 14 wrote 41C00000 000000D2
18 c 18 lineup
18 c 18 took interrupt
19 c 19 sent 0 0 12345678
20 - 0 hostgot l 0 12345678
20 c 20 sent 0 0 00000080
21 - 0 hostgot l 0 00000080
",
            ),
        ],
        ..Row::relay()
    };
    check(&rt, rt.alloc(), &slow)
}

/// A UART whose bytes go to the file `out`, moving at its own pace.
const PRINTER: &str = "
core.c = {image = 'a.elf', pipeline = 'plain'}
uart.u = {core = 'c', base = 0x40600000, output = 'out'}
";

/// A file as the GNU tools lay one out, little-endian: a segment at 0 with `brai 0x50`, one at 50 of 72 bytes and 256 zeros,
/// and sections with a symbol. It begins at 50: for each of `H`, `i` and the line feed STAT is read until TX isn't full, and
/// the byte is written; then the core ends.
const HELLO: &str =
    "7F454C46 01010100 00000000 00000000 0200BD00 01000000 50000000 34000000 C4000000 00000000 34002000 02002800 04000300 01000000 74000000 00000000 00000000 08000000 08000000 05000000 04000000 01000000 7C000000 50000000 50000000 48000000 48010000 07000000 04000000 500008B8 00000080 604000B0 00006030 48008030 0800A3E8 0800A5A4 F8FF25BC 040083F8 69008030 0800A3E8 0800A5A4 F8FF25BC 040083F8 0A008030 0800A3E8 0800A5A4 F8FF25BC 040083F8 000000B8 00000000 00000000 00000000 00000000 00000000 00000000 00000000 00000000 00000000 00000000 01000000 02000000 00000000 00000000 64010000 20000000 02000000 01000000 04000000 10000000 09000000 03000000 00000000 00000000 84010000 06000000 00000000 00000000 01000000 00000000 11000000 03000000 00000000 00000000 8C010000 1B000000 00000000 00000000 01000000 00000000 00000000 00000000 00000000 00000000 01000000 50000000 48000000 1200F1FF 006D6169 6E000000 002E7379 6D746162 002E7374 72746162 002E7368 73747274 61620000";

/// A UART at input 0 of a controller, which moves in each 20th cycle and receives the file `in`, and a link to `out`.
const ECHO: &str = "
core.c = {image = 'a.elf', pipeline = 'plain'}
intc.i = {core = 'c', base = 0x41200000}
uart.u = {core = 'c', base = 0x40600000, irq = 0, output = 'o', input = 'in', every = 20}
link.l = {from = 'c', from_port = 0, to_file = 'out'}
";

/// From 0: a branch to 40. At 10, the handler: a byte is read and sent, and the core ends. From 40: the first byte is read,
/// UART and controller are set up, interrupts allowed, and the core sleeps.
const AWAITING: &str =
    "B8080040 00000000 00000000 00000000 E8A30000 6C058000 B8000000 00000000 00000000 00000000 00000000 00000000 00000000 00000000 00000000 00000000 B0004120 30800000 B0004060 30600000 E8A30000 30C00010 F8C3000C 30E00001 F8E40008 30E00003 F8E4001C 94100002 BB020004";

#[test]
fn uarts_print_and_wake(rt: HostRuntime) -> Result<(), Fail> {
    let hello = Row {
        words: LOGGED,
        parts: PRINTER,
        images: [HELLO, ""],
        printed: "status 0 cycles 193 entries 9
core c ended pc 00000094 acts 17
uart u left 3
",
        left: [
            Some(b"Hi\n"),
            Some(
                b"3 c 3 read 40600008 00000004
6 c 6 wrote 40600004 00000048
8 c 8 read 40600008 00000000
11 c 11 wrote 40600004 00000069
13 c 13 read 40600008 00000000
16 c 16 wrote 40600004 0000000A
64 - 0 left u 48
128 - 0 left u 69
192 - 0 left u 0A
",
            ),
        ],
        ..Row::relay()
    };
    let echo = Row {
        parts: ECHO,
        images: [AWAITING, ""],
        input: &[0x11, 0x5A],
        printed: "status 0 cycles 24 entries 10
core c ended pc 00000018 acts 17
link l sent 1 taken 1
uart u left 0
",
        left: [
            Some(&[0, 0, 0, 0, 0x5A]),
            Some(
                b"5 c 5 read 40600000 00000011
7 c 7 wrote 4060000C 00000010
9 c 9 wrote 41200008 00000001
11 c 11 wrote 4120001C 00000003
13 c 13 slept
20 c 14 lineup
20 c 14 took interrupt
21 c 15 read 40600000 0000005A
22 c 16 sent 0 0 0000005A
23 - 0 hostgot l 0 0000005A
",
            ),
        ],
        ..hello
    };
    check(&rt, rt.alloc(), &hello)?;
    check(&rt, rt.alloc(), &echo)
}

#[test]
fn a_timer_may_run_on_for_ever(rt: HostRuntime) -> Result<(), Fail> {
    // Nobody can take an interrupt.
    let closed = Row {
        parts: TIMED,
        images: ["B00041C0 30800000 30A000D2 F8A40000 B8000000", ""],
        printed: "status 0 cycles 4 entries 1
core c ended pc 00000010 acts 4
link l sent 0 taken 0
",
        left: [Some(b""), None],
        ..Row::relay()
    };
    // The core might: it goes round the branch to itself.
    let open = Row {
        words: &["run", "b", "--cycles", "100"],
        images: ["94100002 B00041C0 30800000 30A00082 F8A40000 B8000000", ""],
        code: 3,
        printed: "status 3 cycles 100 entries 1
core c runs pc 00000014 acts 100
link l sent 0 taken 0
",
        ..closed
    };
    check(&rt, rt.alloc(), &closed)?;
    check(&rt, rt.alloc(), &open)
}
