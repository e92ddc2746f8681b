use super::*;
use bus_map::{Access, BadAccess, Device};
use std::test::Fail;

/// Offsets of TCSR, TLR and TCR of each counter.
const COUNTERS: [(u32, u32, u32); 2] = [(0x0, 0x4, 0x8), (0x10, 0x14, 0x18)];

#[test]
fn a_count_down_passes_its_end_and_is_loaded_anew(rt: HostRuntime) -> Result<(), Fail> {
    let mut timer = Timer::new();
    assert_eq!(rt; timer.access(Access::Write(0x4, 3)), Ok(0));
    assert_eq!(rt; timer.access(Access::Write(0x0, 0x22)), Ok(0));
    timer.cycle();
    assert_eq!(rt; timer.access(Access::Read(0x8)), Ok(3));
    assert_eq!(rt; timer.access(Access::Write(0x0, 0xD2)), Ok(0));
    for (count, high) in [
        (2, false),
        (1, false),
        (0, false),
        (0xFFFF_FFFF, true),
        (3, true),
        (2, true),
    ] {
        timer.cycle();
        assert_eq!(rt; timer.access(Access::Read(0x8)), Ok(count));
        assert_eq!(rt; timer.line(), high);
    }
    Ok(())
}

#[test]
fn counts_up_and_down_once_and_again(rt: HostRuntime) -> Result<(), Fail> {
    for (tcsr, tlr, tcr) in COUNTERS {
        for (control, load, counts) in [
            // ENT, ARHT and UDT: TLR + 2 cycles a period
            (0x92, 1, [0, 0xFFFF_FFFF, 1, 0, 0xFFFF_FFFF]),
            // ENT and UDT
            (
                0x82,
                1,
                [0, 0xFFFF_FFFF, 0xFFFF_FFFF, 0xFFFF_FFFF, 0xFFFF_FFFF],
            ),
            // ENT and ARHT: FFFFFFFF - TLR + 2 cycles a period
            (
                0x90,
                0xFFFF_FFFE,
                [0xFFFF_FFFF, 0, 0xFFFF_FFFE, 0xFFFF_FFFF, 0],
            ),
            // ENT
            (0x80, 0xFFFF_FFFE, [0xFFFF_FFFF, 0, 0, 0, 0]),
            // LOAD comes first
            (0xA2, 7, [7, 7, 7, 7, 7]),
            // without ENT nothing happens
            (0x12, 7, [7, 7, 7, 7, 7]),
        ] {
            let mut timer = Timer::new();
            assert_eq!(rt; timer.access(Access::Write(tlr, load)), Ok(0));
            assert_eq!(rt; timer.access(Access::Write(tcsr, 0x20)), Ok(0));
            timer.cycle();
            assert_eq!(rt; timer.access(Access::Write(tcr, 5)), Ok(0));
            assert_eq!(rt; timer.access(Access::Write(tcsr, control)), Ok(0));
            for count in counts {
                timer.cycle();
                assert_eq!(rt;
                    timer.access(Access::Read(tcr)),
                    Ok(count),
                    "with {control}"
                );
            }
        }
    }
    Ok(())
}

#[test]
fn a_write_of_control_takes_its_bits(rt: HostRuntime) -> Result<(), Fail> {
    for (own, other) in [(0x0, 0x10), (0x10, 0x0)] {
        for (written, here, there) in [
            (0x2, 0x2, 0),
            (0x4, 0x4, 0),
            (0x10, 0x10, 0),
            (0x20, 0x20, 0),
            (0x40, 0x40, 0),
            (0x80, 0x80, 0),
            (0x100, 0, 0),
            (0x400, 0x480, 0x480),
            (0x5F6, 0x4F6, 0x480),
        ] {
            let mut timer = Timer::new();
            assert_eq!(rt; timer.access(Access::Write(own, written)), Ok(0));
            for (offset, value) in [(own, here), (other, there)] {
                assert_eq!(rt;
                    timer.access(Access::Read(offset)),
                    Ok(value),
                    "written {written} to {own}"
                );
            }
            // written as 0, each bit is 0 again, but for ENT of the other counter, which came with ENALL
            assert_eq!(rt; timer.access(Access::Write(own, 0)), Ok(0));
            for (offset, value) in [(own, 0), (other, there & 0x80)] {
                assert_eq!(rt;
                    timer.access(Access::Read(offset)),
                    Ok(value),
                    "written {written} to {own}"
                );
            }
        }
    }
    Ok(())
}

#[test]
fn a_count_that_passed_its_end_goes_on_when_it_is_loaded_or_enabled_anew(
    rt: HostRuntime,
) -> Result<(), Fail> {
    for (tcsr, tlr, tcr) in COUNTERS {
        // LOAD, or ENT written as 0 and as 1, with the count that each leaves, and the two after it
        for (anew, control, counts) in [
            (0xE2, 0x1E2, [5, 4, 3]),
            (0x42, 0x142, [0xFFFF_FFFF, 0xFFFF_FFFE, 0xFFFF_FFFD]),
        ] {
            let mut timer = Timer::new();
            assert_eq!(rt; timer.access(Access::Write(tlr, 5)), Ok(0));
            for (written, control, count, high) in [
                // ENT, ENIT and UDT from 0: TINT, and the count stands
                (0xC2, 0x1C2, 0xFFFF_FFFF, true),
                (0xC2, 0x1C2, 0xFFFF_FFFF, true),
                (anew, control, counts[0], true),
                (0xC2, 0x1C2, counts[1], true),
                // TINT written as 1 is cleared
                (0x1C2, 0xC2, counts[2], false),
            ] {
                assert_eq!(rt; timer.access(Access::Write(tcsr, written)), Ok(0));
                timer.cycle();
                for (offset, value) in [(tcsr, control), (tcr, count)] {
                    assert_eq!(rt;
                        timer.access(Access::Read(offset)),
                        Ok(value),
                        "written {written} to {tcsr}"
                    );
                }
                assert_eq!(rt; timer.line(), high, "written {written} to {tcsr}");
            }
        }
    }
    Ok(())
}

#[test]
fn a_refused_access_changes_nothing(rt: HostRuntime) -> Result<(), Fail> {
    let mut timer = Timer::new();
    assert_eq!(rt; timer.access(Access::Write(0x0, 0x456)), Ok(0));
    let before = timer;
    for barred in [0xA1, 0xA8, 0x2A0, 0x8A0, 0x10A0, 0x8000_00A0] {
        assert_eq!(rt;
            timer.access(Access::Write(0x0, barred)),
            Err(BadAccess),
            "written {barred}"
        );
        assert_eq!(rt;
            timer.access(Access::Write(0x10, barred)),
            Err(BadAccess),
            "written {barred}"
        );
    }
    for offset in [0x1, 0xC, 0x1C, 0x20, 0xFFC] {
        assert_eq!(rt;
            timer.access(Access::Read(offset)),
            Err(BadAccess),
            "at {offset}"
        );
        assert_eq!(rt;
            timer.access(Access::Write(offset, 0)),
            Err(BadAccess),
            "at {offset}"
        );
    }
    assert_eq!(rt; timer, before);
    Ok(())
}

#[test]
fn an_interrupt_is_cleared_by_a_1(rt: HostRuntime) -> Result<(), Fail> {
    let mut timer = Timer::new();
    assert_eq!(rt; timer.access(Access::Write(0x0, 0xC2)), Ok(0));
    timer.cycle();
    for (offset, word, first, second, high) in [
        // TINT written as 0 stays, with and without ENIT
        (0x0, 0xC2, 0x1C2, 0, true),
        (0x0, 0x82, 0x182, 0, false),
        (0x0, 0xC2, 0x1C2, 0, true),
        // ENALL of the second counter sets ENT there, and ENALL in both
        (0x10, 0x400, 0x5C2, 0x480, true),
        // ENALL written as 0 is cleared in both, and ENT of the other stays
        (0x10, 0x0, 0x1C2, 0, true),
        (0x0, 0x1C2, 0xC2, 0, false),
    ] {
        assert_eq!(rt; timer.access(Access::Write(offset, word)), Ok(0));
        assert_eq!(rt;
            timer.access(Access::Read(0x0)),
            Ok(first),
            "written {word}"
        );
        assert_eq!(rt;
            timer.access(Access::Read(0x10)),
            Ok(second),
            "written {word}"
        );
        assert_eq!(rt; timer.line(), high, "written {word}");
    }
    Ok(())
}
