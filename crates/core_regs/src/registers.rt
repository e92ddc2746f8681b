//! The registers of a core, and the writes of results.
ghost use Rattle.core_regs.specs.State.{exceptions_on, fresh, has, reg, status_word, with_flag, with_reg, with_status, write_of, written};
ghost use Rattle.std.specs.Prelude.{◌≡◌, ◌<◌, IfSome};

use crate::causes::{Order, StopCause};
use crate::status::Msr;
use bitflags::Flags;

/// The bits of MSR that an instruction can write.
const WRITABLE: u32 = 0x3FE;

/// A result for a register other than register 0.
#[derive(Clone, Copy, PartialEq, Eq, Debug)]
pub struct Write {
    pub reg: u8,
    pub value: u32,
}

impl Write {
    /// The write of a value to register `reg`: None for register 0, which keeps its 0.
    pub fn of(reg: u8, value: u32) -> Option<Write>
        ensures { result ≡ write_of reg value }
    {
        if reg == 0 {
            None
        } else {
            Some(Write { reg, value })
        }
    }
}

/// The state of a core but for its memory, as an instruction sees it (UG984, Registers).
#[derive(Clone, Copy, PartialEq, Eq, Debug)]
pub struct Arch {
    /// The general purpose registers; read them by `get`, as register 0 reads 0.
    pub regs: [u32; 32],
    /// The address of the next instruction.
    pub pc: u32,
    /// The machine status register.
    pub msr: Msr,
    /// The exception address register.
    pub ear: u32,
    /// The exception status register.
    pub esr: u32,
    /// The branch target register.
    pub btr: u32,
    /// The exception data register.
    pub edr: u32,
    /// The high half of an immediate, held from an `imm` to the next instruction.
    pub prefix: Option<u16>,
    /// The address after the next instruction, which stands in the slot of a branch.
    pub slot: Option<u32>,
    /// Whether the last instruction was an atomic link access.
    pub atomic: bool,
    /// Whether the core sleeps until an interrupt or a break is taken.
    pub asleep: bool,
    /// Why the core stopped, where it did.
    pub stopped: Option<StopCause>,
    /// The order of bytes in memory.
    pub order: Order,
    /// Whether the core is one of a plain network, on which the `n` link forms are illegal.
    pub network: bool,
}

impl Arch {
    /// A core that begins at its entry, with all registers 0.
    pub fn fresh(entry: u32, order: Order, network: bool) -> Arch
        ensures { result ≡ fresh entry order network }
    {
        Arch {
            regs: [0; 32],
            pc: entry,
            msr: Msr::from_bits_retain(0),
            ear: 0,
            esr: 0,
            btr: 0,
            edr: 0,
            prefix: None,
            slot: None,
            atomic: false,
            asleep: false,
            stopped: None,
            order,
            network,
        }
    }

    /// The value of a register; register 0 reads 0.
    pub fn get(&self, n: u8) -> u32
        requires { n < 32 }
        ensures { result ≡ reg self.now.regs n }
    {
        if n == 0 { 0 } else { self.regs[n as usize] }
    }

    /// Writes a register; a write to register 0 changes nothing.
    pub fn set(&mut self, n: u8, v: u32)
        requires { n < 32 }
        ensures { self.new ≡ record self.old { regs = with_reg self.old.regs n v } }
    {
        self.write_back(Write::of(n, v));
    }

    /// Does a write, if there is one.
    pub fn write_back(&mut self, write: Option<Write>)
        requires { IfSome write (λ w. w.reg < 32) }
        ensures { self.new ≡ record self.old { regs = written write self.old.regs } }
    {
        if let Some(write) = write {
            self.regs[write.reg as usize] = write.value;
        }
    }

    /// MSR as instructions read it: CC copies C.
    pub fn msr_word(&self) -> u32
        ensures { result ≡ status_word self.now }
    {
        let below_cc = self.msr.bits() & 0x7FFF_FFFF;
        if self.has(Msr::C) {
            below_cc + 0x8000_0000
        } else {
            below_cc
        }
    }

    /// Writes the writable bits of MSR, 3FE hex; the others stay.
    pub fn set_msr(&mut self, v: u32)
        ensures { self.new ≡ with_status self.old v }
    {
        let kept = self.msr.bits() & !WRITABLE;
        self.msr = Msr::from_bits_retain(kept | (v & WRITABLE));
    }

    /// Whether a bit of MSR is set.
    pub fn has(&self, named: Msr) -> bool
        ensures { result ≡ has named.0 self.now }
    {
        self.msr.bits() & named.bits() != 0
    }

    /// Whether a fault is raised: EE is set, and EIP is not.
    pub fn exceptions_on(&self) -> bool
        ensures { result ≡ exceptions_on self.now }
    {
        self.has(Msr::EE) && !self.has(Msr::EIP)
    }

    /// Sets or clears a bit of MSR.
    pub fn put_flag(&mut self, named: Msr, on: bool)
        ensures { self.new ≡ with_flag self.old named.0 on }
    {
        let bits = if on {
            self.msr.bits() | named.bits()
        } else {
            self.msr.bits() & !named.bits()
        };
        self.msr = Msr::from_bits_retain(bits);
    }
}
