use super::*;
use axi_link::Item;
use core_regs::{StopCause, Take, WaitOn};
use host_io::Name;
use std::test::Fail;

/// What happened, and how a line says it.
struct Row {
    what: What,
    text: &'static str,
}

const ITEM: Item = Item {
    word: 0x0A1B_2C3D,
    control: true,
};

static DONE_BY_A_CORE: [Row; 23] = [
    Row {
        what: What::Got {
            port: 0,
            item: ITEM,
        },
        text: "7 rx 12 got 0 1 0A1B2C3D\n",
    },
    Row {
        what: What::Sent {
            port: 15,
            item: Item {
                word: 7,
                control: false,
            },
        },
        text: "7 rx 12 sent 15 0 00000007\n",
    },
    Row {
        what: What::Seen {
            port: 9,
            item: ITEM,
        },
        text: "7 rx 12 seen 9 1 0A1B2C3D\n",
    },
    Row {
        what: What::Room { port: 10 },
        text: "7 rx 12 room 10\n",
    },
    Row {
        what: What::Missed {
            port: 3,
            full: false,
        },
        text: "7 rx 12 missed get 3\n",
    },
    Row {
        what: What::Missed {
            port: 3,
            full: true,
        },
        text: "7 rx 12 missed put 3\n",
    },
    Row {
        what: What::Read {
            addr: 0x4060_0008,
            word: 0xF,
        },
        text: "7 rx 12 read 40600008 0000000F\n",
    },
    Row {
        what: What::ReadRefused { addr: 0xFFFF_FFFC },
        text: "7 rx 12 readrefused FFFFFFFC\n",
    },
    Row {
        what: What::Wrote {
            addr: 0x4060_0004,
            word: 0x41,
        },
        text: "7 rx 12 wrote 40600004 00000041\n",
    },
    Row {
        what: What::WriteRefused {
            addr: 0x9ABC_DEF0,
            word: 1,
        },
        text: "7 rx 12 writerefused 9ABCDEF0 00000001\n",
    },
    Row {
        what: What::Took(Take::Interrupt),
        text: "7 rx 12 took interrupt\n",
    },
    Row {
        what: What::Took(Take::Break),
        text: "7 rx 12 took break\n",
    },
    Row {
        what: What::Took(Take::NonMaskable),
        text: "7 rx 12 took nonmaskable\n",
    },
    Row {
        what: What::Raised { esr: 0x18A1 },
        text: "7 rx 12 raised 000018A1\n",
    },
    Row {
        what: What::Slept,
        text: "7 rx 12 slept\n",
    },
    Row {
        what: What::Stopped(StopCause::Illegal(0x5800_0000)),
        text: "7 rx 12 stopped illegal 58000000\n",
    },
    Row {
        what: What::Stopped(StopCause::Slot(0xB800_0000)),
        text: "7 rx 12 stopped slot B8000000\n",
    },
    Row {
        what: What::Stopped(StopCause::InstrBus(0x1_0000)),
        text: "7 rx 12 stopped ibus 00010000\n",
    },
    Row {
        what: What::Stopped(StopCause::DataBus(2)),
        text: "7 rx 12 stopped dbus 00000002\n",
    },
    Row {
        what: What::Wait(WaitOn {
            port: 0,
            full: false,
        }),
        text: "7 rx 12 wait get 0\n",
    },
    Row {
        what: What::Wait(WaitOn {
            port: 1,
            full: true,
        }),
        text: "7 rx 12 wait put 1\n",
    },
    Row {
        what: What::LineUp,
        text: "7 rx 12 lineup\n",
    },
    Row {
        what: What::LineDown,
        text: "7 rx 12 linedown\n",
    },
];

static DONE_BY_NO_CORE: [Row; 3] = [
    Row {
        what: What::HostSent {
            link: 2,
            item: ITEM,
        },
        text: "3 - 0 hostsent y 1 0A1B2C3D\n",
    },
    Row {
        what: What::HostGot {
            link: 0,
            item: Item {
                word: 7,
                control: false,
            },
        },
        text: "3 - 0 hostgot y 0 00000007\n",
    },
    Row {
        what: What::Left {
            uart: 1,
            byte: 0x0A,
        },
        text: "3 - 0 left y 0A\n",
    },
];

fn name(text: &str) -> Result<Name, Fail> {
    Ok(Name::from_text(text).ok_or("no name")?)
}

#[test]
fn each_entry_has_its_line(rt: HostRuntime) -> Result<(), Fail> {
    let (who, part) = (name("rx")?, name("y")?);
    for row in &DONE_BY_A_CORE {
        let e = Entry {
            cycle: 7,
            core: 1,
            act: 12,
            what: row.what,
        };
        assert_eq!(rt; line_of(&e, &who, &part).as_bytes(), row.text.as_bytes());
    }
    for row in &DONE_BY_NO_CORE {
        let e = Entry {
            cycle: 3,
            core: NO_CORE,
            act: 0,
            what: row.what,
        };
        assert_eq!(rt; line_of(&e, &who, &part).as_bytes(), row.text.as_bytes());
    }
    Ok(())
}

#[test]
fn the_longest_numbers_and_names_fit(rt: HostRuntime) -> Result<(), Fail> {
    let longest = name("abcdefghijklmnopqrstuvwx")?;
    let e = Entry {
        cycle: u64::MAX,
        core: 0,
        act: u64::MAX,
        what: What::Got {
            port: 255,
            item: ITEM,
        },
    };
    assert_eq!(rt;
        line_of(&e, &longest, &longest).as_bytes(),
        b"18446744073709551615 abcdefghijklmnopqrstuvwx 18446744073709551615 got 255 1 0A1B2C3D\n".as_slice()
    );
    Ok(())
}

/// An entry of that cycle.
fn at(cycle: u64) -> Entry {
    Entry {
        cycle,
        core: 0,
        act: 0,
        what: What::Slept,
    }
}

#[test]
fn a_journal_keeps_all_entries_in_order(rt: HostRuntime) -> Result<(), Fail> {
    let mut journal = Journal::reserve(rt.alloc(), 2).map_err(|_| "no memory")?;
    assert_eq!(rt;
        (journal.spare(), journal.len(), journal.entry(0)),
        (2, 0, None)
    );
    journal.push(at(5));
    journal.push(at(4));
    assert_eq!(rt; (journal.spare(), journal.len()), (0, 2));
    assert_eq!(rt; journal.entry(0), Some(at(5)));
    assert_eq!(rt; journal.entry(1), Some(at(4)));
    assert_eq!(rt; journal.entry(2), None);
    Ok(())
}
