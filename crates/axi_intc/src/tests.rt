use super::*;
use bus_map::{Access, BadAccess, Device};
use std::test::Fail;

#[test]
fn an_input_asks_again_after_it_was_acknowledged(rt: HostRuntime) -> Result<(), Fail> {
    let mut intc = Intc::new();
    assert_eq!(rt; intc.access(Access::Write(0x8, 1)), Ok(0));
    assert_eq!(rt; intc.access(Access::Write(0x1C, 3)), Ok(0));
    intc.cycle(1);
    for (offset, value) in [(0x0, 1), (0x4, 1), (0x18, 0)] {
        assert_eq!(rt; intc.access(Access::Read(offset)), Ok(value), "at {offset}");
    }
    assert!(rt; intc.line());
    assert_eq!(rt; intc.access(Access::Write(0xC, 1)), Ok(0));
    assert_eq!(rt; intc.access(Access::Read(0x0)), Ok(0));
    assert!(rt; !intc.line());
    intc.cycle(1);
    assert!(rt; intc.line());
    Ok(())
}

#[test]
fn the_lowest_number_has_priority(rt: HostRuntime) -> Result<(), Fail> {
    for (asked, enabled, pending, vector) in [
        (0, 0xFFFF_FFFF, 0, 0xFFFF_FFFF),
        (0x6, 0x9, 0, 0xFFFF_FFFF),
        (0x1, 0x1, 0x1, 0),
        (0x6, 0xC, 0x4, 2),
        (0x8000_0010, 0xFFFF_FFFF, 0x8000_0010, 4),
        (0x8000_0000, 0x8000_0000, 0x8000_0000, 31),
    ] {
        let mut intc = Intc::new();
        assert_eq!(rt; intc.access(Access::Write(0x0, asked)), Ok(0));
        assert_eq!(rt; intc.access(Access::Write(0x8, enabled)), Ok(0));
        assert_eq!(rt;
            intc.access(Access::Read(0x4)),
            Ok(pending),
            "asked {asked}"
        );
        assert_eq!(rt;
            intc.access(Access::Read(0x18)),
            Ok(vector),
            "asked {asked}"
        );
        assert!(rt; !intc.line());
        assert_eq!(rt; intc.access(Access::Write(0x1C, 1)), Ok(0));
        assert_eq!(rt; intc.line(), pending != 0, "asked {asked}");
    }
    Ok(())
}

#[test]
fn each_input_comes_before_those_of_higher_numbers(rt: HostRuntime) -> Result<(), Fail> {
    let mut intc = Intc::new();
    assert_eq!(rt; intc.access(Access::Write(0x8, 0xFFFF_FFFF)), Ok(0));
    assert_eq!(rt; intc.access(Access::Write(0x1C, 3)), Ok(0));
    intc.cycle(0xFFFF_FFFF);
    for input in 0..32u32 {
        assert_eq!(rt; intc.access(Access::Read(0x18)), Ok(input));
        assert!(rt; intc.line());
        assert_eq!(rt; intc.access(Access::Write(0xC, 1 << input)), Ok(0));
    }
    assert_eq!(rt; intc.access(Access::Read(0x18)), Ok(0xFFFF_FFFF));
    assert!(rt; !intc.line());
    Ok(())
}

#[test]
fn inputs_reach_the_controller_once_hardware_is_enabled(rt: HostRuntime) -> Result<(), Fail> {
    let mut intc = Intc::new();
    assert_eq!(rt; intc.access(Access::Write(0x8, 0xFF)), Ok(0));
    for (mer, written, inputs, isr, high) in [
        // without HIE software writes ISR, and inputs don't reach it
        (0, 0x10, 0x1, 0x10, false),
        (1, 0x20, 0x1, 0x20, true),
        // with HIE it is the other way round, and ME alone decides on the output
        (2, 0x40, 0x1, 0x21, false),
        (0, 0x80, 0x2, 0x23, false),
        (1, 0, 0, 0x23, true),
    ] {
        assert_eq!(rt; intc.access(Access::Write(0x1C, mer)), Ok(0));
        assert_eq!(rt; intc.access(Access::Write(0x0, written)), Ok(0));
        intc.cycle(inputs);
        assert_eq!(rt; intc.access(Access::Read(0x0)), Ok(isr), "MER {mer}");
        assert_eq!(rt; intc.line(), high, "MER {mer}");
    }
    Ok(())
}

#[test]
fn each_register_is_written_in_its_own_way(rt: HostRuntime) -> Result<(), Fail> {
    let mut intc = Intc::new();
    intc.cycle(0xFF);
    for (offset, word, isr, ier, mer) in [
        // ISR is written where HIE is 0, and IER whole
        (0x0, 0xF, 0xF, 0, 0),
        (0x8, 0xF0, 0xF, 0xF0, 0),
        // IPR and IVR ignore writes
        (0x4, 0xFF, 0xF, 0xF0, 0),
        (0x18, 0xFF, 0xF, 0xF0, 0),
        // SIE sets, CIE and IAR clear
        (0x10, 0xC, 0xF, 0xFC, 0),
        (0x14, 0x84, 0xF, 0x78, 0),
        (0xC, 0x5, 0xA, 0x78, 0),
        // HIE stays, and ISR is then written no more
        (0x1C, 0xFFFF_FFFF, 0xA, 0x78, 3),
        (0x1C, 0, 0xA, 0x78, 2),
        (0x0, 0xFF, 0xA, 0x78, 2),
    ] {
        assert_eq!(rt; intc.access(Access::Write(offset, word)), Ok(0));
        for (read, value) in [
            (0x0, isr),
            (0x8, ier),
            (0x1C, mer),
            (0xC, 0),
            (0x10, 0),
            (0x14, 0),
        ] {
            assert_eq!(rt;
                intc.access(Access::Read(read)),
                Ok(value),
                "at {read}, {word} at {offset}"
            );
        }
    }
    intc.cycle(0x30);
    assert_eq!(rt; intc.access(Access::Read(0x0)), Ok(0x3A));
    for offset in [0x2, 0x20, 0xFFC] {
        assert_eq!(rt;
            intc.access(Access::Read(offset)),
            Err(BadAccess),
            "at {offset}"
        );
        assert_eq!(rt;
            intc.access(Access::Write(offset, 0)),
            Err(BadAccess),
            "at {offset}"
        );
    }
    Ok(())
}
