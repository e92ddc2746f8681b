//! Each form of the link instructions, on a hit, a miss and a wrong control bit.

use super::booted;
use crate::acts::{Act, Action, Idle, Step};
use axi_link::Item;
use core_regs::{Msr, WaitOn};
use std::test::Fail;

const PLAIN: Item = Item {
    word: 0x2A,
    control: false,
};

const CONTROL: Item = Item {
    word: 0x2A,
    control: true,
};

const GOT: Option<Action> = Some(Action::Got {
    port: 2,
    item: PLAIN,
});

const GOT_CONTROL: Option<Action> = Some(Action::Got {
    port: 2,
    item: CONTROL,
});

const SEEN: Option<Action> = Some(Action::Seen {
    port: 2,
    item: PLAIN,
});

const SEEN_CONTROL: Option<Action> = Some(Action::Seen {
    port: 2,
    item: CONTROL,
});

const EMPTY: Option<Action> = Some(Action::Missed {
    port: 2,
    full: false,
});

const FULL: Option<Action> = Some(Action::Missed {
    port: 2,
    full: true,
});

const ROOM: Option<Action> = Some(Action::Room { port: 2 });

const DONE: Step = Step::Did(Act::Retired);

const RAISED: Step = Step::Did(Act::Raised(0x40));

const WAITS_GET: Step = Step::Idle(Idle::Waits(WaitOn {
    port: 2,
    full: false,
}));

const WAITS_PUT: Step = Step::Idle(Idle::Waits(WaitOn {
    port: 2,
    full: true,
}));

/// A get of r4, which holds 99: the word, MSR and the item before; the answer, the action, r4, MSR and `atomic` after.
type Get = (u32, u32, Option<Item>, Step, Option<Action>, u32, u32, bool);

const GETS: [Get; 22] = [
    (0x6C80_0002, 0, Some(PLAIN), DONE, GOT, 0x2A, 0, false),
    (0x6C80_0002, 4, Some(PLAIN), DONE, GOT, 0x2A, 4, false),
    (
        0x6C80_0002,
        0,
        Some(CONTROL),
        DONE,
        GOT_CONTROL,
        0x2A,
        0x10,
        false,
    ),
    (0x6C80_0002, 4, None, WAITS_GET, None, 99, 4, false),
    (
        0x6C80_2002,
        0,
        Some(CONTROL),
        DONE,
        GOT_CONTROL,
        0x2A,
        0,
        false,
    ),
    (0x6C80_2002, 0, Some(PLAIN), DONE, GOT, 0x2A, 0x10, false),
    (0x6C80_4002, 0, None, DONE, EMPTY, 99, 4, false),
    (0x6C80_4002, 4, Some(PLAIN), DONE, GOT, 0x2A, 0, false),
    (0x6C80_1002, 0, Some(PLAIN), DONE, SEEN, 0x2A, 0, false),
    (0x6C80_1002, 0, None, WAITS_GET, None, 99, 0, false),
    (0x6C80_5002, 0, None, DONE, EMPTY, 99, 4, false),
    (0x6C80_0802, 0, Some(PLAIN), DONE, GOT, 0x2A, 0, true),
    (0x6C80_4802, 0, None, DONE, EMPTY, 99, 4, true),
    (
        0x6C80_0402,
        0x100,
        Some(PLAIN),
        DONE,
        GOT,
        0x2A,
        0x100,
        false,
    ),
    (
        0x6C80_0402,
        0,
        Some(CONTROL),
        DONE,
        GOT_CONTROL,
        0x2A,
        0x10,
        false,
    ),
    (
        0x6C80_0402,
        0x300,
        Some(CONTROL),
        DONE,
        GOT_CONTROL,
        0x2A,
        0x310,
        false,
    ),
    (
        0x6C80_0402,
        0x100,
        Some(CONTROL),
        RAISED,
        GOT_CONTROL,
        99,
        0x210,
        false,
    ),
    (
        0x6C80_1402,
        0x100,
        Some(CONTROL),
        RAISED,
        SEEN_CONTROL,
        99,
        0x210,
        false,
    ),
    (
        0x6C80_4402,
        0x104,
        Some(CONTROL),
        RAISED,
        GOT_CONTROL,
        99,
        0x210,
        false,
    ),
    (
        0x6C80_0C02,
        0x100,
        Some(CONTROL),
        RAISED,
        GOT_CONTROL,
        99,
        0x210,
        false,
    ),
    (0x4C80_2800, 0, Some(PLAIN), DONE, GOT, 0x2A, 0, false),
    (0x4C80_2A00, 0, None, DONE, EMPTY, 99, 4, false),
];

#[test]
fn gets_do_what_their_letters_say(rt: HostRuntime) -> Result<(), Fail> {
    for (word, msr, item, answer, action, r4, msr_after, atomic) in GETS {
        let mut core = booted(rt.alloc(), &[word])?;
        core.arch.regs[4] = 99;
        core.arch.regs[5] = 0x12;
        core.arch.msr = Msr(msr);
        core.ports.inputs[2] = item;
        let step = core.step()?;
        assert_eq!(rt; step, answer, "{word:08X}");
        assert_eq!(rt; core.ports.log.get(0).copied(), action, "{word:08X}");
        assert_eq!(rt; core.arch.regs[4], r4, "{word:08X}");
        assert_eq!(rt; core.arch.msr.0, msr_after, "{word:08X}");
        assert_eq!(rt; core.arch.atomic, atomic, "{word:08X}");
        let stays = !matches!(action, Some(Action::Got { .. }));
        assert_eq!(rt;
            core.ports.inputs[2],
            if stays { item } else { None },
            "{word:08X}"
        );
        if step == RAISED {
            assert_eq!(rt;
                (core.arch.pc, core.arch.edr, core.arch.regs[17]),
                (0x20, 0x2A, 4)
            );
        }
    }
    Ok(())
}

/// A put of r3, which holds 2A hex: the word, MSR and what the port holds before; the answer, the action, MSR and
/// `atomic` after.
type Put = (u32, u32, Option<Item>, Step, Option<Action>, u32, bool);

const SENT: Option<Action> = Some(Action::Sent {
    port: 2,
    item: PLAIN,
});

const SENT_CONTROL: Option<Action> = Some(Action::Sent {
    port: 2,
    item: CONTROL,
});

const PUTS: [Put; 10] = [
    (0x6C03_8002, 4, None, DONE, SENT, 4, false),
    (0x6C03_8002, 0, Some(PLAIN), WAITS_PUT, None, 0, false),
    (0x6C03_A002, 0, None, DONE, SENT_CONTROL, 0, false),
    (0x6C03_C002, 4, None, DONE, SENT, 0, false),
    (0x6C03_C002, 0, Some(PLAIN), DONE, FULL, 4, false),
    (0x6C03_9002, 0, None, DONE, ROOM, 0, false),
    (0x6C03_9002, 0, Some(PLAIN), WAITS_PUT, None, 0, false),
    (0x6C03_D002, 0, Some(PLAIN), DONE, FULL, 4, false),
    (0x6C03_8802, 0, None, DONE, SENT, 0, true),
    (0x4C03_2C00, 0, None, DONE, SENT, 0, false),
];

#[test]
fn puts_do_what_their_letters_say(rt: HostRuntime) -> Result<(), Fail> {
    for (word, msr, held, answer, action, msr_after, atomic) in PUTS {
        let mut core = booted(rt.alloc(), &[word])?;
        core.arch.regs[3] = 0x2A;
        core.arch.regs[5] = 0x12;
        core.arch.msr = Msr(msr);
        core.ports.outputs[2] = held;
        let step = core.step()?;
        assert_eq!(rt; step, answer, "{word:08X}");
        assert_eq!(rt; core.ports.log.get(0).copied(), action, "{word:08X}");
        assert_eq!(rt; core.arch.msr.0, msr_after, "{word:08X}");
        assert_eq!(rt; core.arch.atomic, atomic, "{word:08X}");
        let sent = match action {
            Some(Action::Sent { item, .. }) => Some(item),
            _ => held,
        };
        assert_eq!(rt; core.ports.outputs[2], sent, "{word:08X}");
    }
    Ok(())
}

#[test]
fn a_network_board_has_no_forms_that_do_not_wait(rt: HostRuntime) -> Result<(), Fail> {
    let mut core = booted(rt.alloc(), &[0x6C80_4002])?;
    core.arch.network = true;
    core.ports.inputs[2] = Some(PLAIN);
    let step = core.step()?;
    assert_eq!(rt;
        step,
        Step::Did(Act::Stopped(core_regs::StopCause::Illegal(0x6C80_4002)))
    );
    assert_eq!(rt; core.ports.inputs[2], Some(PLAIN));
    Ok(())
}
