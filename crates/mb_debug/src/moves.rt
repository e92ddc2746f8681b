//! The commands that move a board.
ghost use Rattle.std.specs.Prelude.{◌≡◌, ◌||◌, map};
ghost use Rattle.exact_machine.specs.Stepping.{CanCycle, CanRun};
ghost use Rattle.mb_debug.specs.Breaks.{place_of};
ghost use Rattle.mb_debug.specs.Scenes.{RunsOn, StepsOn, next, scene, stops};
ghost use Rattle.probe_set.specs.Sets.{HaveRoom, items_of, named};

use crate::breaks::{Breakpoint, is_any_hit, note};
use board_run::Board;
use core_iface::Core;
use probe_set::{Probe, ProbeSet};

/// Cycles up to so many, or the first end of the run. A probe's wish and breakpoints are not heeded.
pub fn step<C: Core>(board: &mut Board<C>, limit: u64, count: u64, probes: &mut ProbeSet)
    requires can { CanRun limit board.old }
    requires room { HaveRoom board.old.fabric.spare (map (λ a. named a.name (state_of (a.probe.vtable, a.probe.value))) (items_of probes.old.probes)) }
    ensures moved { StepsOn limit count
        (scene board.old (map (λ a. named a.name (state_of (a.probe.vtable, a.probe.value))) (items_of probes.old.probes)))
        (scene board.new (map (λ a. named a.name (state_of (a.probe.vtable, a.probe.value))) (items_of probes.new.probes))) }
{
    // it tells that each core has its clock
    let _ = board.entry_count();
    for _k in 0..count {
        if board.end_at(limit).is_some() {
            return;
        }
        let _ = board.cycle(probes);
    }
}

/// Whether one of two is so; both were asked.
fn either(first: bool, second: bool) -> bool
    ensures { result ≡ (first || second) }
{
    first || second
}

/// One cycle. Whether it stops a run: a probe asked, or a breakpoint is come to.
fn cycle_stops<C: Core>(
    board: &mut Board<C>,
    breaks: &mut [Breakpoint],
    probes: &mut ProbeSet,
) -> bool
    requires can { CanCycle board.old }
    requires room { HaveRoom board.old.fabric.spare (map (λ a. named a.name (state_of (a.probe.vtable, a.probe.value))) (items_of probes.old.probes)) }
    ensures moved { scene board.new (map (λ a. named a.name (state_of (a.probe.vtable, a.probe.value))) (items_of probes.new.probes))
        ≡ next (scene board.old (map (λ a. named a.name (state_of (a.probe.vtable, a.probe.value))) (items_of probes.old.probes))) }
    ensures stops { result ≡ stops (map place_of breaks.old)
        (scene board.old (map (λ a. named a.name (state_of (a.probe.vtable, a.probe.value))) (items_of probes.old.probes))) }
    ensures places { map place_of breaks.new ≡ map place_of breaks.old }
{
    note(breaks, board);
    let asked = board.cycle(probes);
    let hit = is_any_hit(breaks, board);
    either(asked, hit)
}

/// Cycles up to so many, the first end of the run, or the first stop, which comes after a whole cycle.
pub fn run<C: Core>(
    board: &mut Board<C>,
    limit: u64,
    count: u64,
    breaks: &mut [Breakpoint],
    probes: &mut ProbeSet,
)
    requires can { CanRun limit board.old }
    requires room { HaveRoom board.old.fabric.spare (map (λ a. named a.name (state_of (a.probe.vtable, a.probe.value))) (items_of probes.old.probes)) }
    ensures moved { RunsOn limit count (map place_of breaks.old)
        (scene board.old (map (λ a. named a.name (state_of (a.probe.vtable, a.probe.value))) (items_of probes.old.probes)))
        (scene board.new (map (λ a. named a.name (state_of (a.probe.vtable, a.probe.value))) (items_of probes.new.probes))) }
    ensures places { map place_of breaks.new ≡ map place_of breaks.old }
{
    let _ = board.entry_count();
    for _k in 0..count {
        if board.end_at(limit).is_some() {
            return;
        }
        if cycle_stops(board, breaks, probes) {
            return;
        }
    }
}
