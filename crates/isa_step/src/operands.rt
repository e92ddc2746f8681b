//! An instruction with the values of its operands.

ghost use Rattle.std.specs.Prelude.{◌≡◌, ◌<◌, IfSome};
ghost use Rattle.mb_decode.specs.Meaning.{NamesRegisters};
ghost use Rattle.isa_step.specs.Requests.{given, late_at, operands_by, operands_of, second_value};
ghost use Rattle.core_regs.specs.State.{bare, reg};
ghost use Rattle.op_table.specs.Table.{kind_of};
ghost use Rattle.isa_step.specs.Performing.{NamesGiven};

use crate::acts::{Here, Late, Operands};
use core_regs::Arch;
use delay_imm::immediate;
use mb_decode::Instr;
use op_table::{Kind, Latency, Second, latency_of, second_of};

/// An instruction with the values of its operands: all that its effect sees beside the control registers.
#[derive(Clone, Copy, Debug, PartialEq, Eq)]
pub struct Given {
    pub rd: u8,
    /// The value of rA.
    pub a: u32,
    /// The second operand, rB or the immediate.
    pub b: u32,
    /// The value of rD.
    pub d: u32,
    pub imm: u16,
    pub flags: u8,
    pub late: Option<Late>,
}

fn late_at(reg: u8, latency: Option<Latency>) -> Option<Late>
    requires { reg < 32 }
    ensures value { result ≡ late_at reg latency }
    ensures names { IfSome result (λ l. l.reg < 32) }
{
    match latency {
        Some(latency) if reg != 0 => Some(Late { reg, latency }),
        _ => None,
    }
}

fn second_value(second: Second, a: &Arch, i: &Instr, o: &Operands) -> u32
    ensures { result ≡ second_value second a.now i.now o.now }
{
    match second {
        Second::Register => o.b,
        Second::Immediate => immediate(a, i.imm),
        Second::Count => u32::from(i.imm),
    }
}

/// An instruction with the values of its operands.
#[tactic(auto, unfolding(crate::specs::Requests::given))]
#[inline(always)]
pub fn supply(i: &Instr, kind: Kind, o: &Operands, a: &Arch) -> Given
    requires registers { NamesRegisters i.now }
    requires kind { kind ≡ kind_of i.now.op }
    ensures value { result ≡ given i.now o.now (bare a.now) }
    ensures names { NamesGiven result }
{
    Given {
        rd: i.rd,
        a: o.a,
        b: second_value(second_of(i.op), a, i, o),
        d: o.d,
        imm: i.imm,
        flags: i.flags,
        late: late_at(i.rd, latency_of(i.op)),
    }
}

fn register(regs: &[u32; 32], n: u8) -> u32
    requires { n < 32 }
    ensures { result ≡ reg regs.now n }
{
    if n == 0 { 0 } else { regs[n as usize] }
}

/// The values of the registers that the instruction at pc names.
pub fn read_operands(here: &Option<Here>, regs: &[u32; 32]) -> Operands
    requires { IfSome here.now (λ here. IfSome here.instr NamesRegisters) }
    ensures { result ≡ operands_of here.now regs.now }
{
    match here {
        Some(Here { instr: Some(i), .. }) => Operands {
            a: register(regs, i.ra),
            b: register(regs, i.rb),
            d: register(regs, i.rd),
        },
        _ => Operands { a: 0, b: 0, d: 0 },
    }
}
