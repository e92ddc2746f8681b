//! Entries into the handlers of interrupts, breaks and faults, and the returns from them (UG984, Reset, Interrupts,
//! Exceptions, and Break).
//!
//! `enter` takes an interrupt or a break, and `raise` a fault, by its `Cause`: pc goes to the handler, MSR, ESR, EAR, EDR
//! and BTR change as the guide says, and the return address goes to r14, r16 or r17. `divert` and `trap` are the same without
//! the write of that register, which they answer, for cores that write it later. `leave` is what a return changes in MSR and
//! ESR, and `esr_of` the exception status of a fault.
//!
//! ```text
//! enter(&mut arch, Take::Interrupt);          // pc 0x10, IE off, r14 the address that was interrupted
//! raise(&mut arch, &Cause::DivideZero);       // pc 0x20, EE off, EIP on, ESR 5, r17 the address after it
//! leave(&mut arch, Op::Rted);                 // EE on, EIP off, ESR 0
//! ```
#![tactic(auto)]

mod cause;
mod entries;

pub use cause::{Cause, esr_of};
pub use entries::{divert, enter, leave, raise, trap};

#[cfg(test)]
mod tests {
    use super::*;
    use core_regs::{Arch, Order, Take, Write};
    use op_table::Op;
    use std::test::Fail;

    /// A core at address 40 hex, with these bits of MSR.
    fn with_status(bits: u32) -> Arch {
        let mut a = Arch::fresh(0x40, Order::Big, false);
        a.set_msr(bits);
        a
    }

    /// An unaligned access to address 2.
    fn unaligned(word: bool, store: bool, reg: u8) -> Cause {
        Cause::Unaligned {
            addr: 2,
            word,
            store,
            reg,
        }
    }

    #[test]
    fn status_of_each_cause(rt: HostRuntime) -> Result<(), Fail> {
        for (cause, outside, in_slot) in [
            (Cause::Stream { port: 2, word: 42 }, 0x40u32, 0x1040u32),
            (Cause::Stream { port: 15, word: 42 }, 0x1E0, 0x11E0),
            (unaligned(true, false, 5), 0x8A1, 0x18A1),
            (unaligned(false, true, 31), 0x7E1, 0x17E1),
            (Cause::Illegal, 2, 0x1002),
            (Cause::InstrBus, 3, 0x1003),
            (Cause::DataBus(0x1234_5678), 4, 0x1004),
            (Cause::DivideZero, 5, 0x1005),
            (Cause::DivideOverflow, 0x805, 0x1805),
        ] {
            assert_eq!(rt; esr_of(&cause, false), outside);
            assert_eq!(rt; esr_of(&cause, true), in_slot);
        }
        Ok(())
    }

    #[test]
    fn takes(rt: HostRuntime) -> Result<(), Fail> {
        for (take, pc, bits, link) in [
            (Take::Interrupt, 0x10u32, 0u32, 14u8),
            (Take::Break, 0x18, 0xA, 16),
            (Take::NonMaskable, 0x18, 0xA, 16),
        ] {
            let mut a = with_status(0x2);
            a.asleep = true;
            let mut b = a;
            enter(&mut a, take);
            assert_eq!(rt; (a.pc, a.msr.0, a.asleep), (pc, bits, false));
            for reg in 1..32u8 {
                assert_eq!(rt; a.get(reg), if reg == link { 0x40 } else { 0 });
            }
            assert_eq!(rt;
                divert(&mut b, take),
                Write {
                    reg: link,
                    value: 0x40
                }
            );
            assert_eq!(rt; (b.get(14), b.get(16)), (0, 0));
        }
        Ok(())
    }

    #[test]
    fn raises(rt: HostRuntime) -> Result<(), Fail> {
        let mut a = with_status(0x110);
        a.prefix = Some(1);
        a.atomic = true;
        raise(&mut a, &Cause::Stream { port: 2, word: 42 });
        assert_eq!(rt; (a.pc, a.msr.0, a.get(17)), (0x20, 0x210, 0x44));
        assert_eq!(rt; (a.esr, a.edr, a.ear, a.btr), (0x40, 42, 0, 0));
        assert_eq!(rt; (a.prefix, a.slot, a.atomic), (None, None, false));

        let mut a = with_status(0x100);
        a.set(17, 7);
        a.edr = 8;
        a.slot = Some(0x30);
        raise(&mut a, &unaligned(true, false, 5));
        assert_eq!(rt; (a.pc, a.msr.0, a.get(17)), (0x20, 0x200, 7));
        assert_eq!(rt; (a.esr, a.edr, a.ear, a.btr), (0x18A1, 8, 2, 0x30));
        assert_eq!(rt; a.slot, None);

        let mut a = with_status(0x100);
        assert_eq!(rt;
            trap(&mut a, &Cause::DataBus(0x1234_5678)),
            Some(Write {
                reg: 17,
                value: 0x44
            })
        );
        assert_eq!(rt; (a.esr, a.ear, a.get(17)), (4, 0x1234_5678, 0));
        Ok(())
    }

    #[test]
    fn returns(rt: HostRuntime) -> Result<(), Fail> {
        let mut a = with_status(0x20C);
        a.esr = 3;
        leave(&mut a, Op::Rtsd);
        assert_eq!(rt; (a.msr.0, a.esr), (0x20C, 3));
        leave(&mut a, Op::Rtid);
        assert_eq!(rt; (a.msr.0, a.esr), (0x20E, 3));
        leave(&mut a, Op::Rtbd);
        assert_eq!(rt; (a.msr.0, a.esr), (0x206, 3));
        leave(&mut a, Op::Rted);
        assert_eq!(rt; (a.msr.0, a.esr), (0x106, 0));
        Ok(())
    }
}
