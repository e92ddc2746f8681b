//! The four probes of the program under their names.
ghost use Rattle.std.specs.Prelude.{◌≡◌, ◌∷◌, ◌++◌, [], IfOk, IsFalse, IsTrue, OnErr, OnOk, map};
ghost use Rattle.std.specs.List.{list_any};
ghost use Rattle.std.specs.Str.{bytes_eq};
ghost use Rattle.host_io.specs.Names.{is_name};
ghost use Rattle.probe_set.specs.Folds.{begun};
ghost use Rattle.probe_set.specs.Sets.{items_of, named};
ghost use Rattle.probes.specs.Stock.{stock};

use host_io::{Name, NoMemory};
use probe_set::{Probe, ProbeKind, ProbeSet};
use std::alloc::Global;

/// The set of four probes, one of each kind, under the names `count`, `trace`, `watch` and `cover`, in this order.
///
/// Each probe that is handed in is of the kind of its name, and was told no entry yet. Want of memory drops them.
pub fn stock_probes(
    alloc: Global,
    count: Box<dyn Probe>,
    trace: Box<dyn Probe>,
    watch: Box<dyn Probe>,
    cover: Box<dyn Probe>,
) -> Result<ProbeSet, NoMemory>
    requires count { state_of count ≡ begun ProbeKind.Count }
    requires trace { state_of trace ≡ begun ProbeKind.Trace }
    requires watch { state_of watch ≡ begun ProbeKind.Watch }
    requires cover { state_of cover ≡ begun ProbeKind.Cover }
    ensures { IfOk result (λ set. map (λ a. named a.name (state_of a.probe)) (items_of set.probes) ≡ stock) }
{
    let mut set = ProbeSet::new();
    attach(alloc, &mut set, "count", count)?;
    attach(alloc, &mut set, "trace", trace)?;
    attach(alloc, &mut set, "watch", watch)?;
    attach(alloc, &mut set, "cover", cover)?;
    Ok(set)
}

/// Attaches a probe that was told no entry yet, behind those that are there, none of which has its name.
fn attach(alloc: Global, set: &mut ProbeSet, name: &str, p: Box<dyn Probe>) -> Result<(), NoMemory>
    requires name { IsTrue (is_name name.now) }
    requires new { IsFalse (list_any (λ a. bytes_eq a.name name.now) (items_of set.old.probes)) }
    requires begun { state_of p ≡ begun (state_of p).kind }
    ensures ok { OnOk result (items_of set.new.probes ≡ items_of set.old.probes ++ record { name = name.now; probe = p } ∷ []) }
    ensures err { OnErr result (items_of set.new.probes ≡ items_of set.old.probes) }
{
    match set.attach(alloc, Name::from_text(name).unwrap(), p) {
        Ok(()) => Ok(()),
        Err(_) => Err(NoMemory),
    }
}
