//! Probes under their names.
ghost use Rattle.std.specs.Prelude.{◌≡◌, ℕ, ◌+◌, ◌<◌, ◌≤◌, ◌^◌, ◌↔◌, ◌||◌, ◌∷◌, ◌++◌, [], true, false, not, filter, length, map, option_map, slice_get, IsErr, IsTrue, IfErr, OnErr, OnOk};
ghost use Rattle.std.specs.List.{list_any};
ghost use Rattle.std.specs.Str.{bytes_eq};
ghost use Rattle.probe_set.specs.Folds.{asks, told};
ghost use Rattle.probe_set.specs.Sets.{HaveRoom, all_told, any_asks, items_of, named, state_named};

use crate::probe::{Probe, ProbeState};
use host_io::Name;
use run_journal::Entry;
use std::alloc::{AllocFailed, Global};

/// A probe under its name.
#[derive(Drop)]
pub struct Attached {
    pub name: Name,
    pub probe: Box<dyn Probe>,
}

impl Attached {
    fn on(&mut self, e: &Entry) -> bool
        requires { (state_of self.old.probe).count + 1 < 2 ^ 64 }
        ensures name { self.new.name ≡ self.old.name }
        ensures moved { state_of self.new.probe ≡ told e.now (state_of self.old.probe) }
        ensures asked { result ≡ asks (state_of self.old.probe).kind e.now }
    {
        self.probe.on(e)
    }

    fn state(&self) -> ProbeState
        ensures { result ≡ state_of self.now.probe }
    {
        self.probe.state()
    }

    /// Whether the probe has this name.
    pub fn has_name(&self, name: &Name) -> bool
        ensures { result ≡ bytes_eq self.now.name name.now }
    {
        self.name.as_bytes() == name.as_bytes()
    }
}

/// Whether a probe of this name is among those attached.
pub fn has_name(attached: &[Attached], name: &Name) -> bool
    ensures { result ≡ list_any (λ a. bytes_eq a.name name.now) attached.now }
{
    for one in attached {
        if one.has_name(name) {
            return true;
        }
    }
    false
}

/// What the first probe of this name found.
pub fn state_of_name(attached: &[Attached], name: &Name) -> Option<ProbeState>
    ensures { result ≡ state_named name.now (map (λ a. named a.name (state_of a.probe)) attached.now) }
{
    for one in attached {
        if one.has_name(name) {
            return Some(one.state());
        }
    }
    None
}

/// Adds a probe at the end. A list is made for the first.
pub fn add(
    alloc: Global,
    list: &mut Option<Vec<Attached>>,
    new: Attached,
) -> Result<(), AllocFailed<Attached>>
    ensures ok { OnOk result (items_of list.new ≡ items_of list.old ++ new ∷ []) }
    ensures err { OnErr result (items_of list.new ≡ items_of list.old) }
    ensures back { IfErr result (λ e. e.value ≡ new) }
{
    match list {
        Some(list) => list.push(new),
        None => {
            let mut made = Vec::new(alloc);
            made.push(new)?;
            *list = Some(made);
            Ok(())
        }
    }
}

/// Drops those that have this name, and keeps the others in order.
pub fn keep_others(list: &mut Vec<Attached>, name: &Name)
    ensures { list.new.items ≡ filter (λ a. not (bytes_eq a.name name.now)) list.old.items }
{
    let mut k = 0;
    while k < list.len() {
        if list[k].has_name(name) {
            let _dropped = list.remove(k);
        } else {
            k += 1;
        }
    }
}

/// Whether one of two is so; both were asked.
pub fn either(first: bool, second: bool) -> bool
    ensures { result ≡ (first || second) }
{
    first || second
}

/// Tells each probe an entry, in order. Answers whether one asked to stop.
pub fn tell_all(list: &mut Vec<Attached>, e: &Entry) -> bool
    requires { HaveRoom 1 (map (λ a. named a.name (state_of a.probe)) list.old.items) }
    ensures told { map (λ a. named a.name (state_of a.probe)) list.new.items
        ≡ all_told e.now (map (λ a. named a.name (state_of a.probe)) list.old.items) }
    ensures asked { result ≡ any_asks e.now (map (λ a. named a.name (state_of a.probe)) list.old.items) }
{
    let mut asked = false;
    for k in 0..list.len() {
        let one = &mut list[k];
        let answer = one.on(e);
        asked = either(asked, answer);
    }
    asked
}
