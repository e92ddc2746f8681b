//! The instructions on special registers, the prefix and the memory barrier.

ghost use Rattle.std.specs.Prelude.{◌≡◌};
ghost use Rattle.core_regs.specs.State.{bare};
ghost use Rattle.isa_step.specs.Special.{barrier, clears_msr, holds_prefix, is_sleep, moves_to_msr, sets_msr, special_value};
ghost use Rattle.isa_step.specs.Performing.{Makes, NamesGiven, NamesOf};

use crate::acts::{Act, Done};
use crate::commit::{into_rd, retire};
use crate::operands::Given;
use bitflags::Flags;
use core_regs::Arch;
use delay_imm::{advance, hold_prefix};
use op_table::Special;

/// The value that `mfs` reads.
pub fn special_value(a: &Arch, special: Special) -> u32
    ensures { result ≡ special_value a.now special }
{
    match special {
        Special::Pc => a.pc,
        Special::Msr => a.msr_word(),
        Special::Ear => a.ear,
        Special::Esr => a.esr,
        Special::Btr => a.btr,
        Special::Edr => a.edr,
    }
}

/// `mts` to MSR.
pub fn moves_to_msr(g: &Given, a: &mut Arch) -> Done
    requires { NamesGiven g.now }
    ensures names { NamesOf result }
    ensures makes { Makes (moves_to_msr g.now (bare a.old)) result a.old a.new }
{
    advance(a, false);
    a.set_msr(g.a);
    retire(g, None)
}

/// `msrset`.
pub fn sets_msr(g: &Given, a: &mut Arch) -> Done
    requires { NamesGiven g.now }
    ensures names { NamesOf result }
    ensures makes { Makes (sets_msr g.now (bare a.old)) result a.old a.new }
{
    let old = a.msr_word();
    advance(a, false);
    let bits = a.msr.bits() | u32::from(g.imm);
    a.set_msr(bits);
    retire(g, into_rd(g, old))
}

/// `msrclr`.
pub fn clears_msr(g: &Given, a: &mut Arch) -> Done
    requires { NamesGiven g.now }
    ensures names { NamesOf result }
    ensures makes { Makes (clears_msr g.now (bare a.old)) result a.old a.new }
{
    let old = a.msr_word();
    advance(a, false);
    let bits = a.msr.bits() & !u32::from(g.imm);
    a.set_msr(bits);
    retire(g, into_rd(g, old))
}

/// `imm`.
pub fn holds_prefix(g: &Given, a: &mut Arch) -> Done
    requires { NamesGiven g.now }
    ensures names { NamesOf result }
    ensures makes { Makes (holds_prefix g.now (bare a.old)) result a.old a.new }
{
    hold_prefix(a, g.imm);
    retire(g, None)
}

fn is_sleep(number: u16) -> bool
    ensures { result ≡ is_sleep number }
{
    matches!(number, 8 | 16 | 24)
}

/// `mbar`.
pub fn barrier(g: &Given, a: &mut Arch) -> Done
    requires { NamesGiven g.now }
    ensures names { NamesOf result }
    ensures makes { Makes (barrier g.now (bare a.old)) result a.old a.new }
{
    advance(a, false);
    if is_sleep(g.imm) {
        a.asleep = true;
        return Done {
            act: Act::Slept,
            ..retire(g, None)
        };
    }
    retire(g, None)
}
