ghost use Rattle.std.specs.Prelude.{◌≤◌};

use crate::Bus;
use board_file::{IntcRow, TimerRow, UartRow};
use bus_map::BadAccess;
use host_io::{Blob, FileName, Name};
use std::alloc::Global;
use std::test::Fail;

const TIMER: u32 = 0x41C0_0000;

const INTC: u32 = 0x4120_0000;

const UART: u32 = 0x4060_0000;

/// A timer at input 0, a controller and a UART at input 1 on the bus of core 0. These bytes are to come to the UART.
fn bus_of(alloc: Global, bytes: &[u8]) -> Result<Bus, Fail> {
    clocked(alloc, bytes, 1, 1)
}

/// The same where the timer and the UART have the first clock, and the controller has the second.
fn clocked(alloc: Global, bytes: &[u8], clock: u32, intc_clock: u32) -> Result<Bus, Fail>
    requires clock { 1 ≤ clock }
    requires intc_clock { 1 ≤ intc_clock }
{
    let timers = [TimerRow {
        name: Name::from_text("t").ok_or("a name")?,
        core: 0,
        base: TIMER,
        irq: Some(0),
        clock,
    }];
    let intcs = [IntcRow {
        name: Name::from_text("i").ok_or("a name")?,
        core: 0,
        base: INTC,
        clock: intc_clock,
    }];
    let uarts = [UartRow {
        name: Name::from_text("u").ok_or("a name")?,
        core: 0,
        base: UART,
        output: FileName::from_text("out").ok_or("a file name")?,
        irq: Some(1),
        input: FileName::from_text("in"),
        every: 2,
        clock,
    }];
    let inputs = [Blob::from_vec(Vec::from_slice(alloc, bytes)?)];
    Ok(
        Bus::new(alloc, &timers, &intcs, &uarts, &inputs)
            .ok()
            .ok_or("no bus")?,
    )
}

/// One step of the devices in a cycle, and the byte that left the UART.
fn step(bus: &mut Bus, cycle: u64) -> Option<u8> {
    bus.move_timers(cycle);
    let mut left = None;
    if bus.uarts() == 1 && bus.is_turn(cycle, 0) {
        left = bus.move_uart(0);
    }
    bus.move_intcs(cycle);
    left
}

#[test]
fn a_window_is_its_cores_alone_and_of_4096_bytes(rt: HostRuntime) -> Result<(), Fail> {
    let mut bus = bus_of(rt.alloc(), &[])?;
    for (core, addr, answer) in [
        (0, UART + 8, Ok(0x4)),
        (1, UART + 8, Err(BadAccess)),
        (0, UART + 0x1008, Err(BadAccess)),
        (0, UART - 8, Err(BadAccess)),
        (0, TIMER + 0xFFC, Err(BadAccess)),
        (0, INTC + 0x18, Ok(0xFFFF_FFFF)),
    ] {
        assert_eq!(rt; bus.read(core, addr), answer, "core {core} at {addr:X}");
    }
    Ok(())
}

#[test]
fn a_byte_leaves_once_and_in_its_turn(rt: HostRuntime) -> Result<(), Fail> {
    let mut bus = bus_of(rt.alloc(), &[])?;
    assert_eq!(rt; bus.is_done(), true);
    for byte in [0x148, 0x69] {
        assert_eq!(rt; bus.write(0, UART + 4, byte), Ok(0));
    }
    assert_eq!(rt; bus.is_done(), false);
    for (cycle, left) in [
        (0, Some(0x48)),
        (1, None),
        (2, Some(0x69)),
        (3, None),
        (4, None),
    ] {
        assert_eq!(rt; step(&mut bus, cycle), left, "cycle {cycle}");
    }
    assert_eq!(rt; bus.is_done(), true);
    Ok(())
}

#[test]
fn a_lost_byte_is_told_by_one_read_of_status(rt: HostRuntime) -> Result<(), Fail> {
    let bytes = [7; 17];
    let mut bus = bus_of(rt.alloc(), &bytes)?;
    for cycle in 0..32 {
        assert_eq!(rt; step(&mut bus, cycle), None, "cycle {cycle}");
    }
    assert_eq!(rt; bus.is_done(), false);
    assert_eq!(rt; step(&mut bus, 32), None);
    assert_eq!(rt; bus.is_done(), true);
    assert_eq!(rt; bus.read(0, UART + 8), Ok(0x27));
    assert_eq!(rt; bus.read(0, UART + 8), Ok(0x7));
    Ok(())
}

/// The controller takes inputs in, lets these through and asks for the line.
fn enable(bus: &mut Bus, inputs: u32) -> bool {
    bus.write(0, INTC + 0x1C, 3).is_ok() && bus.write(0, INTC + 0x08, inputs).is_ok()
}

#[test]
fn an_edge_reaches_the_controller_once(rt: HostRuntime) -> Result<(), Fail> {
    let mut bus = bus_of(rt.alloc(), &[])?;
    assert_eq!(rt; enable(&mut bus, 2), true);
    assert_eq!(rt; bus.write(0, UART + 0xC, 0x10), Ok(0));
    assert_eq!(rt; bus.write(0, UART + 4, 0x48), Ok(0));
    assert_eq!(rt; bus.line(0), false);
    assert_eq!(rt; step(&mut bus, 0), Some(0x48));
    assert_eq!(rt; bus.line(0), true);
    assert_eq!(rt; bus.line(1), false);
    assert_eq!(rt; bus.write(0, INTC + 0x0C, 2), Ok(0));
    assert_eq!(rt; step(&mut bus, 1), None);
    assert_eq!(rt; bus.line(0), false);
    Ok(())
}

#[test]
fn devices_rest_unless_a_timer_counts(rt: HostRuntime) -> Result<(), Fail> {
    let mut bus = bus_of(rt.alloc(), &[])?;
    assert_eq!(rt; enable(&mut bus, 1), true);
    assert_eq!(rt; bus.is_at_rest(), true);
    for (offset, word) in [(4, 1), (0, 0x62), (0, 0xC2)] {
        assert_eq!(rt; bus.write(0, TIMER + offset, word), Ok(0), "at {offset}");
        assert_eq!(rt; bus.is_at_rest(), offset == 4);
        assert_eq!(rt; step(&mut bus, 1), None);
    }
    // TLR 1 was loaded; one cycle counted it down to 0, and the next passes the end.
    assert_eq!(rt; bus.line(0), false);
    assert_eq!(rt; step(&mut bus, 1), None);
    assert_eq!(rt; bus.line(0), true);
    assert_eq!(rt; bus.is_at_rest(), false);
    // TINT and the input are cleared; without ARHT the counter is over for good.
    assert_eq!(rt; bus.write(0, TIMER, 0x1C2), Ok(0));
    assert_eq!(rt; bus.write(0, INTC + 0x0C, 1), Ok(0));
    assert_eq!(rt; bus.line(0), false);
    assert_eq!(rt; bus.is_at_rest(), true);
    Ok(())
}

/// Expected: a timer or controller moves where its clock divides the cycle, and a UART where `every` times its clock does.
#[test]
fn a_device_moves_where_its_clock_divides_the_cycle(rt: HostRuntime) -> Result<(), Fail> {
    let mut bus = clocked(rt.alloc(), &[], 3, 1)?;
    for byte in [0x48, 0x69] {
        assert_eq!(rt; bus.write(0, UART + 4, byte), Ok(0));
    }
    for (offset, word) in [(4, 2), (0, 0x20)] {
        assert_eq!(rt; bus.write(0, TIMER + offset, word), Ok(0), "at {offset}");
    }
    assert_eq!(rt; step(&mut bus, 3), None);
    assert_eq!(rt; bus.write(0, TIMER, 0x82), Ok(0));
    for (cycle, counted, left) in [
        (4, 2, None),
        (5, 2, None),
        (6, 1, Some(0x48)),
        (8, 1, None),
        (12, 0, Some(0x69)),
    ] {
        assert_eq!(rt; step(&mut bus, cycle), left, "cycle {cycle}");
        assert_eq!(rt; bus.read(0, TIMER + 8), Ok(counted), "cycle {cycle}");
    }
    Ok(())
}

/// Expected: an edge is held up to the next move of the controller, which sees one high input, and is then gone.
#[test]
fn an_edge_is_held_to_the_move_of_the_controller(rt: HostRuntime) -> Result<(), Fail> {
    let mut bus = clocked(rt.alloc(), &[], 1, 5)?;
    assert_eq!(rt; enable(&mut bus, 2), true);
    assert_eq!(rt; bus.write(0, UART + 0xC, 0x10), Ok(0));
    assert_eq!(rt; bus.write(0, UART + 4, 0x48), Ok(0));
    for (cycle, left, high) in [(2, Some(0x48), false), (4, None, false), (5, None, true)] {
        assert_eq!(rt; step(&mut bus, cycle), left, "cycle {cycle}");
        assert_eq!(rt; bus.line(0), high, "cycle {cycle}");
    }
    assert_eq!(rt; bus.write(0, INTC + 0x0C, 2), Ok(0));
    assert_eq!(rt; step(&mut bus, 10), None);
    assert_eq!(rt; bus.line(0), false);
    Ok(())
}
