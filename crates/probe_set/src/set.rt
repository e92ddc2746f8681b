//! A set of boxed probes, each under a name.
ghost use Rattle.std.specs.Prelude.{◌≡◌, ℕ, ◌+◌, ◌<◌, ◌≤◌, ◌^◌, ◌↔◌, ◌||◌, ◌∷◌, ◌++◌, [], true, false, not, filter, length, map, option_map, slice_get, IsErr, IsTrue, IfErr, OnErr, OnOk};
ghost use Rattle.std.specs.List.{list_any};
ghost use Rattle.std.specs.Str.{bytes_eq};
ghost use Rattle.probe_set.specs.Folds.{begun};
ghost use Rattle.probe_set.specs.Sets.{HaveRoom, all_told, all_told_each, any_asks, any_asks_each, items_of, named, state_named};

use crate::attached::{Attached, add, either, has_name, keep_others, state_of_name, tell_all};
use crate::probe::{Probe, ProbeState};
use host_io::Name;
use run_journal::Entry;
use std::alloc::Global;

/// Why a probe was not attached.
#[derive(Clone, Copy, Debug, PartialEq, Eq)]
pub enum AttachFault {
    /// A probe of that name is there.
    NameTwice,
    /// There was no memory for one more.
    NoMemory,
}

/// A probe that was not attached, and why.
#[derive(Drop)]
pub struct AttachRefused {
    pub probe: Box<dyn Probe>,
    pub why: AttachFault,
}

/// The probes that are attached, in order of attachment. The list is made with the first of them.
#[derive(Drop)]
pub struct ProbeSet {
    pub probes: Option<Vec<Attached>>,
}

impl ProbeSet {
    /// No probe.
    pub fn new() -> ProbeSet
        ensures { items_of result.probes ≡ [] }
    {
        ProbeSet { probes: None }
    }

    /// The probes in order of attachment.
    pub fn attached(&self) -> &[Attached]
        ensures { result.now ≡ items_of self.now.probes }
    {
        match &self.probes {
            Some(list) => list.as_slice(),
            None => &[],
        }
    }

    /// Whether no probe is attached.
    pub fn is_empty(&self) -> bool
        ensures { IsTrue result ↔ (items_of self.now.probes ≡ []) }
    {
        self.attached().is_empty()
    }

    /// How many probes are attached.
    pub fn len(&self) -> usize
        ensures { result ≡ length (items_of self.now.probes) }
    {
        self.attached().len()
    }

    /// Whether a probe of this name is attached.
    pub fn has(&self, name: &Name) -> bool
        ensures { result ≡ list_any (λ a. bytes_eq a.name name.now) (items_of self.now.probes) }
    {
        has_name(self.attached(), name)
    }

    /// Attaches a probe that was told no entry yet, behind those that are there.
    ///
    /// `NameTwice` comes exactly where a probe of that name is there, and `NoMemory` only for want of memory. A probe that
    /// is refused is handed back, and the set is as it was.
    pub fn attach(
        &mut self,
        alloc: Global,
        name: Name,
        p: Box<dyn Probe>,
    ) -> Result<(), AttachRefused>
        requires { state_of p ≡ begun (state_of p).kind }
        ensures attached { OnOk result (items_of self.new.probes ≡ items_of self.old.probes ++ record { name = name; probe = p } ∷ []) }
        ensures kept { OnErr result (items_of self.new.probes ≡ items_of self.old.probes) }
        ensures back { IfErr result (λ e. e.probe ≡ p) }
        ensures twice { IsTrue (list_any (λ a. bytes_eq a.name name) (items_of self.old.probes)) → IsErr result }
        ensures why { IfErr result (λ e. e.why ≡ AttachFault.NameTwice
            ↔ IsTrue (list_any (λ a. bytes_eq a.name name) (items_of self.old.probes))) }
    {
        if self.has(&name) {
            return Err(AttachRefused {
                probe: p,
                why: AttachFault::NameTwice,
            });
        }
        match add(alloc, &mut self.probes, Attached { name, probe: p }) {
            Ok(()) => Ok(()),
            Err(refused) => Err(AttachRefused {
                probe: refused.value.probe,
                why: AttachFault::NoMemory,
            }),
        }
    }

    /// Drops the probe of this name, and leaves the others. Answers whether there was one.
    pub fn detach(&mut self, name: &Name) -> bool
        ensures was { result ≡ list_any (λ a. bytes_eq a.name name.now) (items_of self.old.probes) }
        ensures left { items_of self.new.probes ≡ filter (λ a. not (bytes_eq a.name name.now)) (items_of self.old.probes) }
    {
        let was = self.has(name);
        if let Some(list) = &mut self.probes {
            keep_others(list, name);
        }
        was
    }

    /// The name of probe `k` in order of attachment, from 0; `None` exactly where `k` isn't below their number.
    pub fn name(&self, k: usize) -> Option<Name>
        ensures { result ≡ slice_get (map (λ a. a.name) (items_of self.now.probes)) k }
    {
        Some(self.attached().get(k)?.name.copied())
    }

    /// What the probe of this name found; `None` exactly where there is none.
    pub fn state(&self, name: &Name) -> Option<ProbeState>
        ensures { result ≡ state_named name.now (map (λ a. named a.name (state_of a.probe)) (items_of self.now.probes)) }
    {
        state_of_name(self.attached(), name)
    }

    /// Tells each probe an entry, in order of attachment. Answers whether one asked to stop.
    pub fn tell(&mut self, e: &Entry) -> bool
        requires { HaveRoom 1 (map (λ a. named a.name (state_of a.probe)) (items_of self.old.probes)) }
        ensures told { map (λ a. named a.name (state_of a.probe)) (items_of self.new.probes)
            ≡ all_told e.now (map (λ a. named a.name (state_of a.probe)) (items_of self.old.probes)) }
        ensures asked { result ≡ any_asks e.now (map (λ a. named a.name (state_of a.probe)) (items_of self.old.probes)) }
    {
        match &mut self.probes {
            Some(list) => tell_all(list, e),
            None => false,
        }
    }

    /// Tells each probe entries in order. Answers whether one asked to stop at one of them.
    ///
    /// Where no probe is attached this costs one test, however many entries there are.
    pub fn tell_each(&mut self, entries: &[Entry]) -> bool
        requires { HaveRoom (length entries.now) (map (λ a. named a.name (state_of a.probe)) (items_of self.old.probes)) }
        ensures told { map (λ a. named a.name (state_of a.probe)) (items_of self.new.probes)
            ≡ all_told_each entries.now (map (λ a. named a.name (state_of a.probe)) (items_of self.old.probes)) }
        ensures asked { result ≡ any_asks_each entries.now (map (λ a. named a.name (state_of a.probe)) (items_of self.old.probes)) }
    {
        if self.is_empty() {
            return false;
        }
        let mut asked = false;
        for e in entries {
            let answer = self.tell(e);
            asked = either(asked, answer);
        }
        asked
    }
}
