//! What lies between two instructions: the next pc, the immediate prefix, the delay slot of a branch and the atomic
//! latch (UG984, Delay Slots, and the instruction `imm`).
//!
//! Each function works on an `Arch`. An instruction ends with exactly one of `advance` (the next word, or the target that
//! its slot holds), `branch` and `hold_prefix` (an `imm`). `immediate` is the operand that the prefix and 16 bits give, and
//! `may_take` whether an interrupt or a break may come at pc: none does between a prefix or a branch and the instruction
//! that belongs to it.
//!
//! ```text
//! hold_prefix(&mut arch, 0x1234);             // imm 0x1234
//! let operand = immediate(&arch, 0x5678);     // 0x1234_5678
//! branch(&mut arch, 0x2000, true);            // pc is that of the slot, which holds 0x2000
//! advance(&mut arch, false);                  // pc is 0x2000
//! ```
#![tactic(auto)]

mod slots;

pub use slots::{advance, branch, hold_prefix, immediate, may_take};

#[cfg(test)]
mod tests {
    use super::*;
    use core_regs::{Arch, Order};
    use std::test::Fail;

    /// A core at address 40 hex.
    fn start() -> Arch {
        Arch::fresh(0x40, Order::Big, false)
    }

    #[test]
    fn a_prefix_lasts_for_one_instruction(rt: HostRuntime) -> Result<(), Fail> {
        let mut a = start();
        assert_eq!(rt; immediate(&a, 0x7FFF), 0x7FFF);
        assert_eq!(rt; immediate(&a, 0x8000), 0xFFFF_8000);
        hold_prefix(&mut a, 0x1111);
        hold_prefix(&mut a, 0x1234);
        assert_eq!(rt; a.pc, 0x48);
        assert_eq!(rt; immediate(&a, 0x5678), 0x1234_5678);
        assert_eq!(rt; immediate(&a, 0x8000), 0x1234_8000);
        advance(&mut a, false);
        assert_eq!(rt; a.pc, 0x4C);
        assert_eq!(rt; immediate(&a, 0x5678), 0x5678);
        Ok(())
    }

    #[test]
    fn branches(rt: HostRuntime) -> Result<(), Fail> {
        let mut a = start();
        branch(&mut a, 0x1000, false);
        assert_eq!(rt; (a.pc, a.slot), (0x1000, None));
        branch(&mut a, 0x2000, true);
        assert_eq!(rt; (a.pc, a.slot), (0x1004, Some(0x2000)));
        advance(&mut a, false);
        assert_eq!(rt; (a.pc, a.slot), (0x2000, None));
        // a delayed branch that is not taken goes on behind its slot
        branch(&mut a, 0x2008, true);
        assert_eq!(rt; (a.pc, a.slot), (0x2004, Some(0x2008)));
        advance(&mut a, false);
        assert_eq!(rt; (a.pc, a.slot), (0x2008, None));
        a.pc = 0xFFFF_FFFC;
        advance(&mut a, false);
        assert_eq!(rt; a.pc, 0);
        Ok(())
    }

    #[test]
    fn takes_are_held_off(rt: HostRuntime) -> Result<(), Fail> {
        let mut a = start();
        assert!(rt; may_take(&a, false));
        assert!(rt; !may_take(&a, true));
        a.asleep = true;
        assert!(rt; may_take(&a, true));
        a.asleep = false;
        hold_prefix(&mut a, 1);
        assert!(rt; !may_take(&a, false));
        branch(&mut a, 0x1000, true);
        assert!(rt; !may_take(&a, false));
        advance(&mut a, true);
        assert!(rt; !may_take(&a, false));
        advance(&mut a, false);
        assert!(rt; may_take(&a, false));
        Ok(())
    }
}
