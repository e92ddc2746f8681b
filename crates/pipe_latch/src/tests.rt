//! Results in flight and fetched words, by rows that were worked by hand.

use crate::fetching::{Fetched, NOTHING, Queue};
use crate::in_flight::{EMPTY, Flights, Stage};
use core_iface::Flight;
use core_regs::Order;
use std::test::Fail;

const fn holds(reg: u8, value: u32) -> Stage {
    Stage {
        is_full: true,
        reg,
        value,
    }
}

const fn flight(reg: u8, value: u32, age: u8) -> Flight {
    Flight { reg, value, age }
}

/// Results for r3, r4 and r3 again, the youngest first.
fn three_flights() -> Flights {
    Flights {
        stages: [holds(3, 30), holds(4, 20), holds(3, 10), EMPTY, EMPTY],
    }
}

#[test]
fn the_youngest_result_is_forwarded(rt: HostRuntime) -> Result<(), Fail> {
    let flights = three_flights();
    assert_eq!(rt; flights.forward(3), Some(30));
    assert_eq!(rt; flights.forward(4), Some(20));
    assert_eq!(rt; flights.forward(5), None);
    Ok(())
}

#[test]
fn the_oldest_result_comes_first(rt: HostRuntime) -> Result<(), Fail> {
    let flights = three_flights();
    assert_eq!(rt; flights.flight(0), Some(flight(3, 10, 2)));
    assert_eq!(rt; flights.flight(1), Some(flight(4, 20, 1)));
    assert_eq!(rt; flights.flight(2), Some(flight(3, 30, 0)));
    assert_eq!(rt; flights.flight(3), None);
    Ok(())
}

#[test]
fn a_store_strikes_the_words_that_it_touches(rt: HostRuntime) -> Result<(), Fail> {
    let queue = Queue {
        words: [
            Fetched {
                addr: 0x10,
                word: 0,
            },
            Fetched {
                addr: 0x14,
                word: 0,
            },
            NOTHING,
            NOTHING,
        ],
        next: 0x18,
        order: Order::Big,
    };
    for (addr, struck) in [(0xF, false), (0x10, true), (0x17, true), (0x18, false)] {
        assert_eq!(rt; queue.struck(addr), struck, "at {addr:x}");
    }
    Ok(())
}
