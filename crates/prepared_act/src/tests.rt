//! Acts at once, by values that were worked by hand from UG984, Instructions.

use crate::{Flow, Prepared, act_at_once};
use byte_mem::Memory;
use core_regs::{Arch, Msr, Order};
use std::test::Fail;

/// A word at 10 hex with the values of r3 and r4 and the carry; r5, the carry, pc after its act, and where it leads.
type Row = (u32, u32, u32, bool, u32, bool, u32, Flow);

const ROWS: [Row; 21] = [
    // add, addc and rsubk r5, r3, r4
    (0x00A3_2000, 0xFFFF_FFFF, 1, false, 0, true, 0x14, Flow::On),
    (0x08A3_2000, 5, 6, true, 12, false, 0x14, Flow::On),
    (0x14A3_2000, 3, 10, true, 7, true, 0x14, Flow::On),
    // cmp and cmpu r5, r3, r4
    (0x14A3_2001, 5, 3, false, 0xFFFF_FFFE, false, 0x14, Flow::On),
    (
        0x14A3_2003,
        1,
        0xFFFF_FFFF,
        false,
        0x7FFF_FFFE,
        false,
        0x14,
        Flow::On,
    ),
    // mulhu and bsra r5, r3, r4
    (0x40A3_2003, 0x8000_0000, 4, false, 2, false, 0x14, Flow::On),
    (
        0x44A3_2200,
        0x8000_0000,
        4,
        false,
        0xF800_0000,
        false,
        0x14,
        Flow::On,
    ),
    // src and sext8 r5, r3
    (0x90A3_0021, 3, 0, true, 0x8000_0001, true, 0x14, Flow::On),
    (
        0x90A3_0060,
        0x80,
        0,
        false,
        0xFFFF_FF80,
        false,
        0x14,
        Flow::On,
    ),
    // clz, swapb and swaph r5, r3: the carry stays
    (0x90A3_00E0, 0, 0, true, 32, true, 0x14, Flow::On),
    (
        0x90A3_01E0,
        0x1122_3344,
        0,
        false,
        0x4433_2211,
        false,
        0x14,
        Flow::On,
    ),
    (
        0x90A3_01E2,
        0x1122_3344,
        0,
        false,
        0x3344_1122,
        false,
        0x14,
        Flow::On,
    ),
    // pcmpbf r5, r3, r4
    (
        0x80A3_2400,
        0x1122_3344,
        0x0022_3300,
        false,
        2,
        false,
        0x14,
        Flow::On,
    ),
    // addik r5, r3, -1
    (0x30A3_FFFF, 8, 0, true, 7, true, 0x14, Flow::On),
    // lwi r5, r3, 4: the word at 20 hex
    (
        0xE8A3_0004,
        0x1C,
        0,
        false,
        0x0102_0304,
        false,
        0x14,
        Flow::On,
    ),
    // lbui r5, r3, 0: the byte at 22 hex
    (0xE0A3_0000, 0x22, 0, false, 3, false, 0x14, Flow::On),
    // beqi r3, 8, taken and not
    (0xBC03_0008, 0, 0, false, 0, false, 0x18, Flow::Jumped),
    (0xBC03_0008, 1, 0, false, 0, false, 0x14, Flow::On),
    // brlid r5, -8: its slot comes first
    (0xB8B4_FFF8, 0, 0, false, 0x10, false, 0x14, Flow::Jumped),
    // swi r4, r3, 4, to 20 hex, and rtsd r3, 8, whose slot comes first
    (
        0xF883_0004,
        0x1C,
        5,
        false,
        0,
        false,
        0x14,
        Flow::Stored(0x20),
    ),
    (0xB603_0008, 0x30, 0, false, 0, false, 0x14, Flow::Jumped),
];

/// Words that are no act at once of a fresh core: `bri 0`, `get`, `put`, `idiv`, `mfs` and no word at all.
const OTHERS: [u32; 6] = [
    0xB800_0000,
    0x6CA0_0000,
    0x6C05_8000,
    0x48A3_2000,
    0x94A0_8001,
    0xFFFF_FFFF,
];

/// A core at 10 hex, and its memory with a word at 20 hex.
fn begun(alloc: std::alloc::Global, row: &Row) -> Result<(Arch, Memory), Fail> {
    let mut memory = Memory::new(alloc, 4_096).ok().ok_or("no memory")?;
    memory
        .fill(0x20, &[1, 2, 3, 4])
        .ok()
        .ok_or("too many bytes")?;
    let mut arch = Arch::fresh(0x10, Order::Big, false);
    arch.regs[3] = row.1;
    arch.regs[4] = row.2;
    arch.put_flag(Msr::C, row.3);
    Ok((arch, memory))
}

/// Does the act of a word at once, where it can be.
fn acts(word: u32, arch: &mut Arch, memory: &mut Memory) -> Option<Flow> {
    let prepared = Prepared::of(word);
    if arch.asleep || arch.stopped.is_some() || !prepared.suits(arch) {
        return None;
    }
    act_at_once(&prepared, arch, memory)
}

#[test]
fn acts_do_what_the_guide_says(rt: HostRuntime) -> Result<(), Fail> {
    for row in ROWS {
        let (mut arch, mut memory) = begun(rt.alloc(), &row)?;
        assert_eq!(rt; acts(row.0, &mut arch, &mut memory), Some(row.7));
        let after = (arch.regs[5], arch.has(Msr::C), arch.pc);
        assert_eq!(rt; after, (row.4, row.5, row.6), "at {:x}", row.0);
    }
    Ok(())
}

#[test]
fn other_words_are_left_to_the_whole_act(rt: HostRuntime) -> Result<(), Fail> {
    for word in OTHERS {
        let (mut arch, mut memory) = begun(rt.alloc(), &ROWS[0])?;
        assert_eq!(rt; acts(word, &mut arch, &mut memory), None);
    }
    // a load from an odd address, and a branch in the slot of another
    let (mut arch, mut memory) = begun(rt.alloc(), &ROWS[0])?;
    assert_eq!(rt; acts(0xE8A3_0004, &mut arch, &mut memory), None);
    arch.slot = Some(0x40);
    assert_eq!(rt; acts(0xB800_0008, &mut arch, &mut memory), None);
    Ok(())
}
