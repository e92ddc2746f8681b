//! The link instructions.

ghost use Rattle.std.specs.Prelude.{◌≡◌, ◌<◌, ◌≤◌, List, ℕ, false};
ghost use Rattle.core_regs.specs.State.{bare};
ghost use Rattle.isa_step.specs.Due.{or_waits, reply};
ghost use Rattle.isa_step.specs.Links.{checked, gets, gets_from, has_control, has_exception, is_atomic, is_expected, is_nonblocking, is_raised, is_test, marked, misses, passed, port_of, puts, puts_to, receives, sends, sent};
ghost use Rattle.isa_step.specs.Performing.{Names, NamesGiven, NamesOf, Performed};

use crate::acts::{Done, Idle, Outcome};
use crate::commit::{into_rd, raise, retire};
use crate::letters::{has_control, has_exception, is_atomic, is_nonblocking, is_test};
use crate::operands::Given;
use crate::ports::Ports;
use axi_link::Item;
use core_regs::{Arch, Msr, WaitOn};
use delay_imm::advance;
use trap_entry::Cause;

/// The port of an access.
pub fn port_of(g: &Given, dynamic: bool) -> u8
    ensures port { result ≡ port_of g.now dynamic }
    ensures there { result < 16 }
{
    let number = if dynamic { g.b } else { u32::from(g.imm) };
    (number % 16) as u8
}

/// A port was empty or full: the access misses, or it waits.
fn misses<P: Ports>(g: &Given, a: &mut Arch, p: &mut P, port: u8, full: bool) -> Outcome
    requires given { NamesGiven g.now }
    requires port { port < 16 }
    requires spare { 1 ≤ P.spare p.old }
    ensures names { Names result }
    ensures performs { (m : List ℕ) → Performed P.done P.spare P.leaves (or_waits port full (misses g.now (bare a.old) port full)) result a.old m p.old a.new m p.new }
{
    if !is_nonblocking(g.flags) {
        return Outcome::Idle(Idle::Waits(WaitOn { port, full }));
    }
    p.missed(port, full);
    advance(a, is_atomic(g.flags));
    a.put_flag(Msr::C, true);
    Outcome::Did(retire(g, None))
}

fn is_expected(flags: u8, item: &Item) -> bool
    ensures { result ≡ is_expected flags item.now }
{
    item.control == has_control(flags)
}

/// C tells an access that doesn't wait that it didn't miss.
fn mark(flags: u8, a: &mut Arch)
    ensures { a.new ≡ marked flags false a.old }
{
    if is_nonblocking(flags) {
        a.put_flag(Msr::C, false);
    }
}

/// FSL tells an item whose control bit isn't the one expected.
fn check(flags: u8, item: &Item, a: &mut Arch)
    ensures { a.new ≡ checked flags item.now a.old }
{
    if !is_expected(flags, item) {
        a.put_flag(Msr::FSL, true);
    }
}

/// An item came: it goes to rD, or is raised.
fn receives(g: &Given, a: &mut Arch, port: u8, item: &Item) -> Done
    requires { NamesGiven g.now }
    ensures names { NamesOf result }
    ensures done { result ≡ (receives g.now (bare a.old) port item.now).done }
    ensures arch { a.new ≡ record (receives g.now (bare a.old) port item.now).arch { regs = a.old.regs } }
{
    let raised = !is_expected(g.flags, item) && has_exception(g.flags) && a.exceptions_on();
    if raised {
        mark(g.flags, a);
        check(g.flags, item, a);
        return raise(
            a,
            &Cause::Stream {
                port,
                word: item.word,
            },
        );
    }
    advance(a, is_atomic(g.flags));
    mark(g.flags, a);
    check(g.flags, item, a);
    retire(g, into_rd(g, item.word))
}

/// A get from a port.
fn gets_from<P: Ports>(g: &Given, a: &mut Arch, p: &mut P, port: u8) -> Outcome
    requires given { NamesGiven g.now }
    requires port { port < 16 }
    requires spare { 1 ≤ P.spare p.old }
    ensures names { Names result }
    ensures performs { (m : List ℕ) → Performed P.done P.spare P.leaves (reply (bare a.old) (gets_from g.now (bare a.old) port) (P.shows p.old)) result a.old m p.old a.new m p.new }
{
    if is_test(g.flags) {
        let Some(item) = p.peek(port) else {
            return misses(g, a, p, port, false);
        };
        p.tested(port, Some(item));
        return Outcome::Did(receives(g, a, port, &item));
    }
    match p.take(port) {
        Some(item) => Outcome::Did(receives(g, a, port, &item)),
        None => misses(g, a, p, port, false),
    }
}

/// `get` and `getd`.
pub fn gets<P: Ports>(g: &Given, a: &mut Arch, p: &mut P, dynamic: bool) -> Outcome
    requires given { NamesGiven g.now }
    requires spare { 1 ≤ P.spare p.old }
    ensures names { Names result }
    ensures performs { (m : List ℕ) → Performed P.done P.spare P.leaves (reply (bare a.old) (gets g.now (bare a.old) dynamic) (P.shows p.old)) result a.old m p.old a.new m p.new }
{
    gets_from(g, a, p, port_of(g, dynamic))
}

/// There was room: the access is done.
fn sends(g: &Given, a: &mut Arch, port: u8) -> Done
    requires { NamesGiven g.now }
    ensures names { NamesOf result }
    ensures done { result ≡ (sends g.now (bare a.old) port).done }
    ensures arch { a.new ≡ record (sends g.now (bare a.old) port).arch { regs = a.old.regs } }
{
    advance(a, is_atomic(g.flags));
    mark(g.flags, a);
    retire(g, None)
}

/// A put to a port.
fn puts_to<P: Ports>(g: &Given, a: &mut Arch, p: &mut P, port: u8) -> Outcome
    requires given { NamesGiven g.now }
    requires port { port < 16 }
    requires spare { 1 ≤ P.spare p.old }
    ensures names { Names result }
    ensures performs { (m : List ℕ) → Performed P.done P.spare P.leaves (reply (bare a.old) (puts_to g.now (bare a.old) port) (P.shows p.old)) result a.old m p.old a.new m p.new }
{
    if is_test(g.flags) {
        if !p.room(port) {
            return misses(g, a, p, port, true);
        }
        p.tested(port, None);
        return Outcome::Did(sends(g, a, port));
    }
    let item = Item {
        word: g.a,
        control: has_control(g.flags),
    };
    match p.put(port, item) {
        Ok(()) => Outcome::Did(sends(g, a, port)),
        Err(_) => misses(g, a, p, port, true),
    }
}

/// `put` and `putd`.
pub fn puts<P: Ports>(g: &Given, a: &mut Arch, p: &mut P, dynamic: bool) -> Outcome
    requires given { NamesGiven g.now }
    requires spare { 1 ≤ P.spare p.old }
    ensures names { Names result }
    ensures performs { (m : List ℕ) → Performed P.done P.spare P.leaves (reply (bare a.old) (puts g.now (bare a.old) dynamic) (P.shows p.old)) result a.old m p.old a.new m p.new }
{
    puts_to(g, a, p, port_of(g, dynamic))
}
