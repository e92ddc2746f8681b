//! Reasons, counts and lines, by rows that were worked by hand.

use crate::profile::spent_on;
use crate::reason::reason_by;
use crate::*;
use core_iface::Tick;
use core_regs::{StopCause, WaitOn};
use host_io::Name;
use isa_step::Act;
use mb_decode::decode;
use std::test::Fail;
use timing_law::{Past, Pipe};

/// `lwi r3, r3, 0`.
const LOAD: u32 = 0xE863_0000;

/// `idiv r5, r3, r4`.
const DIVIDE: u32 = 0x48A3_2000;

/// A past in which each number comes later than the one before: the first tick, the end of the hold, the operand r3 and
/// the redirect.
fn past() -> Past {
    let mut past = Past::new(Pipe::Eight);
    past.first = 3;
    past.next = 5;
    past.ready[3] = 7;
    past.redirect = 9;
    past
}

#[test]
fn the_first_reason_counts(rt: HostRuntime) -> Result<(), Fail> {
    let past = past();
    // The word, whether a slot is held, the tick, and the reason.
    let rows = [
        (LOAD, false, 0, Spent::Starting),
        (LOAD, false, 2, Spent::Starting),
        (LOAD, false, 3, Spent::Holding),
        (LOAD, false, 4, Spent::Holding),
        (LOAD, false, 5, Spent::Reading),
        (LOAD, false, 6, Spent::Reading),
        (LOAD, false, 7, Spent::Redirecting),
        (LOAD, false, 8, Spent::Redirecting),
        (DIVIDE, true, 5, Spent::Reading),
        (DIVIDE, true, 7, Spent::Dividing),
        (DIVIDE, false, 8, Spent::Redirecting),
        (DIVIDE, false, 9, Spent::Dividing),
    ];
    for (word, in_slot, tick, wanted) in rows {
        let instr = decode(word);
        assert_eq!(rt;
            reason_by(&past, instr.as_ref(), in_slot, tick),
            wanted,
            "{word} at {tick}"
        );
    }
    assert_eq!(rt; reason_by(&past, None, false, 5), Spent::Redirecting);
    Ok(())
}

#[test]
fn an_answer_tells_what_a_tick_was_spent_on(rt: HostRuntime) -> Result<(), Fail> {
    let rows = [
        (Tick::Acted(Act::Retired), Spent::Acting),
        (Tick::Filling, Spent::Reading),
        (
            Tick::Waiting(WaitOn {
                port: 0,
                full: false,
            }),
            Spent::Waiting,
        ),
        (Tick::Sleeping, Spent::Sleeping),
        (Tick::Ended, Spent::Resting),
        (Tick::Stopped(StopCause::Illegal(0)), Spent::Resting),
    ];
    for (answer, wanted) in rows {
        assert_eq!(rt; spent_on(answer, Spent::Reading), wanted, "{answer:?}");
    }
    Ok(())
}

#[test]
fn a_line_has_all_counts(rt: HostRuntime) -> Result<(), Fail> {
    let name = Name::from_text("b").ok_or("a name")?;
    let mut profile = Profile::NOTHING;
    profile.acted = 2;
    profile.waiting = 1;
    profile.done = 1;
    let line = profile_line(&name, &profile);
    assert_eq!(rt;
        line.as_bytes(),
        b"profile b acted 2 start 0 hold 0 operand 0 redirect 0 divide 0 waiting 1 sleeping 0 done 1\n".as_slice()
    );
    Ok(())
}
