//! How acts that ask nothing of the outside are put together.

ghost use Rattle.std.specs.Prelude.{◌≡◌, ◌<◌, IfSome, None, false, true};
ghost use Rattle.core_regs.specs.State.{bare, write_of};
ghost use Rattle.isa_step.specs.Effects.{raises, stops, told, yields};
ghost use Rattle.isa_step.specs.Performing.{Makes, NamesGiven, NamesOf};

use crate::acts::{Act, Done};
use crate::operands::Given;
use core_regs::{Arch, StopCause, Write};
use delay_imm::advance;
use trap_entry::{Cause, trap};

/// An instruction retires, with the control registers as they are now.
pub fn retire(g: &Given, write: Option<Write>) -> Done
    requires given { NamesGiven g.now }
    requires write { IfSome write (λ w. w.reg < 32) }
    ensures names { NamesOf result }
    ensures done { result ≡ told g.now write false }
{
    Done {
        act: Act::Retired,
        write,
        store: None,
        late: g.late,
        jumped: false,
    }
}

/// An instruction leads elsewhere, with the control registers as they are now.
pub fn jump(g: &Given, write: Option<Write>) -> Done
    requires given { NamesGiven g.now }
    requires write { IfSome write (λ w. w.reg < 32) }
    ensures names { NamesOf result }
    ensures done { result ≡ told g.now write true }
{
    Done {
        jumped: true,
        ..retire(g, write)
    }
}

/// The write of rD.
pub fn into_rd(g: &Given, value: u32) -> Option<Write>
    requires { NamesGiven g.now }
    ensures names { IfSome result (λ w. w.reg < 32) }
    ensures write { result ≡ write_of g.now.rd value }
{
    Write::of(g.rd, value)
}

/// Goes on to the next instruction with a value in rD.
pub fn yields(g: &Given, a: &mut Arch, value: u32) -> Done
    requires { NamesGiven g.now }
    ensures names { NamesOf result }
    ensures makes { Makes (yields g.now (bare a.old) value) result a.old a.new }
{
    advance(a, false);
    retire(g, into_rd(g, value))
}

/// The core stops, and all else of it stays.
pub fn stop(a: &mut Arch, cause: StopCause) -> Done
    ensures names { NamesOf result }
    ensures makes { Makes (stops (bare a.old) cause None) result a.old a.new }
{
    a.stopped = Some(cause);
    Done {
        act: Act::Stopped(cause),
        write: None,
        store: None,
        late: None,
        jumped: false,
    }
}

/// Raises an exception.
pub fn raise(a: &mut Arch, cause: &Cause) -> Done
    ensures names { NamesOf result }
    ensures makes { Makes (raises (bare a.old) cause.now None) result a.old a.new }
{
    let write = trap(a, cause);
    Done {
        act: Act::Raised(a.esr),
        write,
        store: None,
        late: None,
        jumped: false,
    }
}
