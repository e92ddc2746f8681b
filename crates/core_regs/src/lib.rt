//! The registers of a MicroBlaze core, its machine status register, and the small types that all layers share.
//!
//! `Arch` is all of a core but its memory (UG984, Registers): the general purpose registers, pc, `Msr` and the other special
//! registers, and what is held between two instructions. Register 0 reads 0, so registers are read by `get` and written
//! by `set` or a `Write`; bits of MSR by `has` and `put_flag`. The small types are `Order` and `Size` of an access, `Take`
//! (an interrupt or a break), `WaitOn` (a port) and `StopCause`.
//!
//! ```text
//! let mut arch = Arch::fresh(0x50, Order::Big, false); // a big-endian core that begins at 0x50
//! arch.set(3, 7);
//! arch.put_flag(Msr::IE, true);
//! ```
#![tactic(auto)]

mod causes;
mod registers;
mod status;

pub use causes::{Order, Size, StopCause, Take, WaitOn};
pub use registers::{Arch, Write};
pub use status::Msr;

#[cfg(test)]
mod tests {
    use super::*;
    use std::test::Fail;

    /// A core whose registers are all 0.
    fn start() -> Arch {
        Arch::fresh(0x50, Order::Big, false)
    }

    #[test]
    fn register_0_reads_0(rt: HostRuntime) -> Result<(), Fail> {
        let mut a = start();
        a.set(0, 7);
        a.set(31, 8);
        a.write_back(Write::of(0, 9));
        a.write_back(Write::of(5, 10));
        a.write_back(None);
        for (n, value) in [(0u8, 0u32), (1, 0), (5, 10), (31, 8)] {
            assert_eq!(rt; a.get(n), value);
        }
        a.regs[0] = 11;
        assert_eq!(rt; a.get(0), 0);
        assert_eq!(rt; a.pc, 0x50);
        Ok(())
    }

    #[test]
    fn the_carry_has_a_copy(rt: HostRuntime) -> Result<(), Fail> {
        for (written, read) in [
            (0u32, 0u32),
            (0x4, 0x8000_0004),
            (0x2, 0x2),
            (0x8000_0000, 0),
            (0x400, 0),
            (0xFFFF_FFFF, 0x8000_03FE),
        ] {
            let mut a = start();
            a.set_msr(written);
            assert_eq!(rt; a.msr_word(), read, "at {written}");
        }
        Ok(())
    }

    #[test]
    fn the_status_has_its_bits(rt: HostRuntime) -> Result<(), Fail> {
        for (flag, bits) in [
            (Msr::IE, 0x2u32),
            (Msr::C, 0x4),
            (Msr::BIP, 0x8),
            (Msr::FSL, 0x10),
            (Msr::ICE, 0x20),
            (Msr::DZO, 0x40),
            (Msr::DCE, 0x80),
            (Msr::EE, 0x100),
            (Msr::EIP, 0x200),
            (Msr::PVR, 0x400),
            (Msr::CC, 0x8000_0000),
        ] {
            let mut a = start();
            assert!(rt; !a.has(flag));
            a.put_flag(flag, true);
            assert!(rt; a.has(flag));
            assert_eq!(rt; a.msr.0, bits);
            a.put_flag(flag, false);
            assert_eq!(rt; a.msr.0, 0);
        }
        Ok(())
    }
}
