//! How an act of a core moves its past.

ghost use Rattle.std.specs.Prelude.{◌≡◌, ◌<◌, ◌^◌, IfSome};
ghost use Rattle.std.specs.Option.{option_copied};
ghost use Rattle.mb_decode.specs.Meaning.{NamesRegisters};
ghost use Rattle.timing_law.specs.Passing.{instr_of, is_ahead, jump_of, past_after, retired_here, strikes};

use crate::past::Past;
use crate::pipe::Jump;
use isa_step::{Act, Done, Here, Store};
use mb_decode::Instr;

/// Whether an address is in one of the eight words from pc on.
#[inline(always)]
pub fn is_ahead(addr: u32, pc: u32) -> bool
    ensures { result ≡ is_ahead addr pc }
{
    addr.wrapping_sub(pc) < 32
}

/// Whether a store is into one of them, told by its address alone.
fn strikes(store: &Option<Store>, pc: u32) -> bool
    ensures { result ≡ strikes store.now pc }
{
    match store {
        Some(store) => is_ahead(store.addr, pc),
        None => false,
    }
}

/// Where an instruction that retired leads, by the pc after it.
pub fn jump_of(done: &Done, pc: u32) -> Jump
    ensures { result ≡ jump_of done.now pc }
{
    if done.jumped {
        Jump::Taken
    } else if strikes(&done.store, pc) {
        Jump::Struck
    } else {
        Jump::On
    }
}

/// The instruction that the word at pc is.
pub fn instr_of(here: &Option<Here>) -> Option<&Instr>
    requires { IfSome here.now (λ h. IfSome h.instr NamesRegisters) }
    ensures value { option_copied result ≡ instr_of here.now }
    ensures names { IfSome (option_copied result) NamesRegisters }
{
    match here {
        Some(here) => here.instr.as_ref(),
        None => None,
    }
}

impl Past {
    fn retired_here(&mut self, i: Option<&Instr>, at: u64, jump: Jump)
        requires names { IfSome (option_copied i) NamesRegisters }
        requires young { at < 2 ^ 63 }
        ensures { self.new ≡ retired_here (option_copied i.entry) at jump self.old }
    {
        if let Some(i) = i {
            self.retired(i, at, jump);
        }
    }

    /// Passes an act in a tick, by the word at which it was done and the pc after it.
    pub fn pass(&mut self, here: &Option<Here>, done: &Done, pc: u32, at: u64)
        requires names { IfSome here.now (λ h. IfSome h.instr NamesRegisters) }
        requires young { at < 2 ^ 63 }
        ensures { self.new ≡ past_after here.now done.now pc at self.old }
    {
        match done.act {
            Act::Retired | Act::Slept => self.retired_here(instr_of(here), at, jump_of(done, pc)),
            Act::Took(_) | Act::Raised(_) => self.turned(at),
            Act::Stopped(_) => {}
        }
    }
}
