//! The loads and stores.

ghost use Rattle.std.specs.Prelude.{◌≡◌, ◌≤◌, ◌%◌, List, ℕ, None};
ghost use Rattle.core_regs.specs.State.{bare};
ghost use Rattle.byte_mem.specs.Access.{bytes_of, stored};
ghost use Rattle.isa_step.specs.Effects.{Reads, Writes, raises};
ghost use Rattle.trap_entry.specs.declared.cause.Cause.TheVariants.{Unaligned};
ghost use Rattle.core_regs.specs.declared.causes.Size.TheVariants.{Word};
ghost use Rattle.isa_step.specs.Due.{reply};
ghost use Rattle.isa_step.specs.Loads.{address, is_aligned, is_word, keeps, loads, loads_at, lowered, no_data, read_from_bus, stores, stores_at, written_to_bus};
ghost use Rattle.isa_step.specs.Performing.{Makes, Names, NamesGiven, NamesOf, Performed};

use crate::acts::{Act, Done, Outcome, Store};
use crate::commit::{into_rd, raise, retire, stop, yields};
use crate::operands::Given;
use crate::ports::Ports;
use byte_mem::{Memory, bytes_of};
use core_regs::{Arch, Size, StopCause};
use delay_imm::advance;
use trap_entry::Cause;

/// The address of an access.
fn address(g: &Given) -> u32
    ensures { result ≡ address g.now }
{
    g.a.wrapping_add(g.b)
}

fn is_aligned(size: Size, addr: u32) -> bool
    ensures { result ≡ is_aligned size addr }
{
    addr % bytes_of(size) == 0
}

/// The address without the low bits that an access of this size has not.
fn lowered(size: Size, addr: u32) -> u32
    ensures address { result ≡ lowered size addr }
    ensures aligned { result % bytes_of size ≡ 0 }
{
    addr - addr % bytes_of(size)
}

/// Raises an access to an unaligned address.
fn unaligned(g: &Given, a: &mut Arch, size: Size, store: bool) -> Done
    ensures names { NamesOf result }
    ensures makes { Makes (raises (bare a.old) (Unaligned (address g.now) (is_word size) store g.now.rd) None) result a.old a.new }
{
    let cause = Cause::Unaligned {
        addr: address(g),
        word: matches!(size, Size::Word),
        store,
        reg: g.rd,
    };
    raise(a, &cause)
}

/// A fault at an address that is neither in memory nor on the bus.
fn no_data(a: &mut Arch, addr: u32) -> Done
    ensures names { NamesOf result }
    ensures makes { Makes (no_data (bare a.old) addr None) result a.old a.new }
{
    if a.exceptions_on() {
        raise(a, &Cause::DataBus(addr))
    } else {
        stop(a, StopCause::DataBus(addr))
    }
}

/// A word is read from the bus.
fn reads<P: Ports>(g: &Given, a: &mut Arch, m: &Memory, p: &mut P, addr: u32) -> Outcome
    requires given { NamesGiven g.now }
    requires spare { 1 ≤ P.spare p.old }
    ensures names { Names result }
    ensures performs { Performed P.done P.spare P.leaves (reply (bare a.old) (Reads addr (read_from_bus g.now (bare a.old) addr)) (P.shows p.old)) result a.old m.now p.old a.new m.now p.new }
{
    match p.read(addr) {
        Ok(word) => Outcome::Did(yields(g, a, word)),
        Err(_) => Outcome::Did(no_data(a, addr)),
    }
}

/// A load at an aligned address.
fn loads_at<P: Ports>(
    g: &Given,
    a: &mut Arch,
    m: &Memory,
    p: &mut P,
    size: Size,
    addr: u32,
) -> Outcome
    requires given { NamesGiven g.now }
    requires aligned { addr % bytes_of size ≡ 0 }
    requires spare { 1 ≤ P.spare p.old }
    ensures names { Names result }
    ensures performs { Performed P.done P.spare P.leaves (reply (bare a.old) (loads_at g.now (bare a.old) m.now size addr) (P.shows p.old)) result a.old m.now p.old a.new m.now p.new }
{
    match m.read(addr, size, a.order) {
        Ok(value) => Outcome::Did(yields(g, a, value)),
        Err(_) => match size {
            Size::Word => reads(g, a, m, p, addr),
            Size::Byte | Size::Half => Outcome::Did(no_data(a, addr)),
        },
    }
}

/// `lbu`, `lhu` and `lw`.
pub fn loads<P: Ports>(g: &Given, a: &mut Arch, m: &Memory, p: &mut P, size: Size) -> Outcome
    requires given { NamesGiven g.now }
    requires spare { 1 ≤ P.spare p.old }
    ensures names { Names result }
    ensures performs { Performed P.done P.spare P.leaves (reply (bare a.old) (loads g.now (bare a.old) m.now size) (P.shows p.old)) result a.old m.now p.old a.new m.now p.new }
{
    let addr = address(g);
    if !is_aligned(size, addr) && a.exceptions_on() {
        return Outcome::Did(unaligned(g, a, size, false));
    }
    loads_at(g, a, m, p, size, lowered(size, addr))
}

/// A store retires.
fn keeps(g: &Given, a: &mut Arch, size: Size, addr: u32) -> Done
    requires { NamesGiven g.now }
    ensures names { NamesOf result }
    ensures done { result ≡ (keeps g.now (bare a.old) size addr None).done }
    ensures arch { a.new ≡ record (keeps g.now (bare a.old) size addr None).arch { regs = a.old.regs } }
{
    advance(a, false);
    let store = Some(Store {
        addr,
        size,
        word: g.d,
    });
    Done {
        store,
        ..retire(g, None)
    }
}

/// A word is written to the bus.
fn writes<P: Ports>(g: &Given, a: &mut Arch, p: &mut P, addr: u32) -> Outcome
    requires given { NamesGiven g.now }
    requires spare { 1 ≤ P.spare p.old }
    ensures names { Names result }
    ensures performs { (m n : List ℕ) → n ≡ m → n ≡ stored m Word a.old.order addr g.now.d →
        Performed P.done P.spare P.leaves (reply (bare a.old) (Writes addr g.now.d (written_to_bus g.now (bare a.old) addr)) (P.shows p.old)) result a.old m p.old a.new n p.new }
{
    match p.write(addr, g.d) {
        Ok(()) => Outcome::Did(keeps(g, a, Size::Word, addr)),
        Err(_) => Outcome::Did(no_data(a, addr)),
    }
}

/// A store at an aligned address.
fn stores_at<P: Ports>(
    g: &Given,
    a: &mut Arch,
    m: &mut Memory,
    p: &mut P,
    size: Size,
    addr: u32,
) -> Outcome
    requires given { NamesGiven g.now }
    requires aligned { addr % bytes_of size ≡ 0 }
    requires spare { 1 ≤ P.spare p.old }
    ensures names { Names result }
    ensures performs { Performed P.done P.spare P.leaves (reply (bare a.old) (stores_at g.now (bare a.old) m.old size addr) (P.shows p.old)) result a.old m.old p.old a.new m.new p.new }
{
    match m.write(addr, size, a.order, g.d) {
        Ok(()) => Outcome::Did(keeps(g, a, size, addr)),
        Err(_) => match size {
            Size::Word => writes(g, a, p, addr),
            Size::Byte | Size::Half => Outcome::Did(no_data(a, addr)),
        },
    }
}

/// `sb`, `sh` and `sw`.
pub fn stores<P: Ports>(g: &Given, a: &mut Arch, m: &mut Memory, p: &mut P, size: Size) -> Outcome
    requires given { NamesGiven g.now }
    requires spare { 1 ≤ P.spare p.old }
    ensures names { Names result }
    ensures performs { Performed P.done P.spare P.leaves (reply (bare a.old) (stores g.now (bare a.old) m.old size) (P.shows p.old)) result a.old m.old p.old a.new m.new p.new }
{
    let addr = address(g);
    if !is_aligned(size, addr) && a.exceptions_on() {
        return Outcome::Did(unaligned(g, a, size, true));
    }
    stores_at(g, a, m, p, size, lowered(size, addr))
}
