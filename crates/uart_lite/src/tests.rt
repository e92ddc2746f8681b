use super::*;
use bus_map::{Access, BadAccess, Device};
use std::test::Fail;

#[test]
fn a_full_queue_refuses_a_byte(rt: HostRuntime) -> Result<(), Fail> {
    let mut uart = Uart::new(rt.alloc())?;
    assert_eq!(rt; uart.access(Access::Read(0x8)), Ok(0x4));
    for byte in 0..16 {
        assert_eq!(rt; uart.access(Access::Write(0x4, byte + 0x100)), Ok(0));
    }
    assert_eq!(rt; uart.access(Access::Write(0x4, 16)), Err(BadAccess));
    assert_eq!(rt; uart.access(Access::Read(0x8)), Ok(0x8));
    assert_eq!(rt; uart.access(Access::Read(0x0)), Err(BadAccess));
    assert_eq!(rt; uart.sending(), 16);
    for byte in 0..16u8 {
        assert_eq!(rt; uart.cycle(None), Some(byte));
    }
    assert_eq!(rt; uart.cycle(None), None);
    Ok(())
}

#[test]
fn a_lost_byte_is_told_until_status_is_read(rt: HostRuntime) -> Result<(), Fail> {
    let mut uart = Uart::new(rt.alloc())?;
    for byte in 0..16u8 {
        assert_eq!(rt; uart.cycle(Some(byte)), None);
    }
    assert_eq!(rt; uart.access(Access::Read(0x8)), Ok(0x7));
    assert_eq!(rt; uart.cycle(Some(16)), None);
    for (offset, value) in [
        (0x0, Ok(0)),
        (0x4, Ok(0)),
        (0xC, Ok(0)),
        (0x8, Ok(0x25)),
        (0x8, Ok(0x5)),
        (0x0, Ok(1)),
        (0x10, Err(BadAccess)),
    ] {
        assert_eq!(rt; uart.access(Access::Read(offset)), value, "at {offset}");
    }
    Ok(())
}

#[test]
fn control_empties_queues_and_enables(rt: HostRuntime) -> Result<(), Fail> {
    for (control, status) in [
        (0x0, 0x1),
        (0x1, 0x5),
        (0x2, 0x0),
        (0x10, 0x11),
        (0x13, 0x14),
    ] {
        let mut uart = Uart::new(rt.alloc())?;
        assert_eq!(rt; uart.cycle(Some(1)), None);
        for (offset, word) in [(0x4, 2), (0xC, 0x10), (0x0, 3), (0x8, 4), (0xC, control)] {
            assert_eq!(rt;
                uart.access(Access::Write(offset, word)),
                Ok(0),
                "at {offset}"
            );
        }
        assert_eq!(rt;
            uart.access(Access::Read(0x8)),
            Ok(status),
            "control {control}"
        );
        assert!(rt; !uart.line());
    }
    Ok(())
}

#[test]
fn no_edge_comes_while_interrupts_are_disabled(rt: HostRuntime) -> Result<(), Fail> {
    let mut uart = Uart::new(rt.alloc())?;
    for (control, next, edges) in [
        // TX becomes empty, and RX non-empty
        (0x0, None, false),
        (0x0, Some(1), false),
        // both, with interrupts enabled
        (0x12, Some(2), true),
        // TX becomes empty
        (0x10, None, true),
        (0x2, Some(3), false),
    ] {
        assert_eq!(rt; uart.access(Access::Write(0x4, 0x41)), Ok(0));
        assert_eq!(rt; uart.access(Access::Write(0xC, control)), Ok(0));
        assert_eq!(rt; uart.cycle(next), Some(0x41), "control {control}");
        assert_eq!(rt; uart.line(), edges, "control {control}");
    }
    Ok(())
}

#[test]
fn an_edge_is_held_until_it_is_asked_for(rt: HostRuntime) -> Result<(), Fail> {
    let mut uart = Uart::new(rt.alloc())?;
    assert_eq!(rt; uart.cycle(Some(6)), None);
    assert!(rt; !uart.line());
    assert_eq!(rt; uart.access(Access::Write(0xC, 0x12)), Ok(0));
    for (sent, next, left, edges) in [
        // RX becomes non-empty, and is so already
        (0, Some(7), None, true),
        (0, Some(8), None, false),
        // TX becomes empty, and is so already
        (1, None, Some(0x41), true),
        (0, None, None, false),
        // TX holds another byte, and becomes empty
        (2, None, Some(0x41), false),
        (0, None, Some(0x41), true),
    ] {
        for _ in 0..sent {
            assert_eq!(rt; uart.access(Access::Write(0x4, 0x41)), Ok(0));
        }
        assert_eq!(rt; uart.cycle(next), left);
        assert_eq!(rt; uart.line(), edges);
        assert!(rt; !uart.line());
    }
    Ok(())
}
