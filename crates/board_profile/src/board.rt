//! A board that counts what its cores' ticks are spent on.

ghost use Rattle.std.specs.Prelude.{◌≡◌, ◌+◌, ◌<◌, ◌≤◌, ◌^◌, IfOk, IfSome, Some, drop, length, map, replicate, slice_get};
ghost use Rattle.std.specs.Option.{option_to_list};
ghost use Rattle.board_machine.specs.Cycles.{core_of_turn, events_of, turn_of};
ghost use Rattle.board_machine.specs.declared.events.Event.TheVariants.{Devices, Host, Next, Tick as TickOf};
ghost use Rattle.board_profile.specs.Profiles.{ProfiledRun, TurnsDone, counts_of, profiled_step, profiled_steps};
ghost use Rattle.board_machine.specs.Resting.{rest_of};
ghost use Rattle.exact_machine.specs.Machine.{opened};
ghost use Rattle.exact_machine.specs.Profile.{nothing};
ghost use Rattle.exact_machine.specs.Runs.{exact_end};
ghost use Rattle.exact_machine.specs.Stepping.{CanCycle, CanRun};
ghost use Rattle.quiet_cycles.specs.Quiet.{IsAmid};
ghost use Rattle.probe_set.specs.Sets.{HaveRoom, all_told_each, items_of, named};

use crate::profile::{Profile, spent_on};
use crate::reason::reason;
use board_run::{Board, Rest, RunEnd};
use core_iface::Core;
use host_io::NoMemory;
use probe_set::ProbeSet;
use std::alloc::Global;
use std::marker::Model;

/// A board, and the profile of each core.
#[derive(Drop)]
pub struct ProfiledBoard<C: Core> {
    board: Board<C>,
    profiles: Vec<Profile>,
}

impl<C: Core> Model for ProfiledBoard<C> {
    ghost use Rattle.std.specs.Prelude.{map};
    ghost use Rattle.board_profile.specs.Profiles.{Counts, Profiled, counts_of};

    ghost Value = { Profiled };

    ghost view = { λ b. record { world = b.board; profiles = map counts_of b.profiles.items } };

    ghost invariant = { λ b. Counts b.board.cores (map counts_of b.profiles.items) };
}

impl<C: Core + Drop> ProfiledBoard<C> {
    /// A board as it is, with all counts at 0. It fails only for want of memory.
    pub fn new(alloc: Global, board: Board<C>) -> Result<ProfiledBoard<C>, NoMemory>
        ensures { IfOk result (λ b. b ≡ record { world = board; profiles = replicate (length board.cores) nothing }) }
    {
        let cores = board.cores() as usize;
        let profiles = vec![in alloc; Profile::NOTHING; cores]?;
        Ok(ProfiledBoard { board, profiles })
    }
}

impl<C: Core> ProfiledBoard<C> {
    /// The board.
    pub fn board(&self) -> &Board<C>
        ensures { result.now ≡ self.now.world }
    {
        &self.board
    }

    /// What the ticks of a core were spent on since the counts began.
    pub fn profile(&self, core: u16) -> Profile
        requires there { core < length self.now.world.cores }
        ensures { slice_get self.now.profiles core ≡ Some (counts_of result) }
    {
        self.profiles[core as usize]
    }

    /// The cycle number.
    fn number(&self) -> u64
        ensures { result ≡ self.now.world.fabric.cycle }
    {
        self.board.number()
    }

    /// The number of turns of a cycle.
    fn turn_count(&self) -> u16
        ensures turns { result ≡ length self.now.world.schedule.clocks }
        ensures cores { result ≡ length self.now.world.cores }
    {
        self.board.turns()
    }

    /// The core that has a turn of this cycle, where its clock divides the cycle number.
    fn core_of_turn(&self, k: u16) -> Option<u16>
        requires there { k < length self.now.world.cores }
        ensures turn { map TickOf (option_to_list result) ≡ turn_of self.now.world.schedule self.now.world.fabric.cycle k }
        ensures there { IfSome result (λ core. core < length self.now.world.cores) }
    {
        self.board.core_of_turn(k)
    }

    /// How many entries the journal has.
    fn entry_count(&self) -> usize
        ensures count { result ≡ length self.now.world.fabric.journal }
        ensures clocks { length self.now.world.schedule.clocks ≡ length self.now.world.cores }
    {
        self.board.entry_count()
    }

    /// The end that is reached at the start of a cycle.
    fn end(&self, limit: u64) -> Option<RunEnd>
        ensures { result ≡ exact_end limit self.now.world }
    {
        self.board.end_at(limit)
    }

    /// How the board rests, `None` where it is not still.
    fn rest(&self) -> Option<Rest>
        ensures { result ≡ rest_of (opened self.now.world) }
    {
        self.board.still()
    }

    /// One tick of a core, counted.
    fn tick(&mut self, core: u16)
        requires there { core < length self.old.world.cores }
        requires young { (s : _) → slice_get self.old.world.cores core ≡ Some s → s.ticks < 2 ^ 62 }
        requires spare { 2 ≤ self.old.world.fabric.spare }
        ensures { self.new ≡ profiled_step self.old (TickOf core) }
    {
        let reason = reason(self.board.core(core));
        let answer = self.board.tick(core);
        let spent = spent_on(answer, reason);
        self.profiles[core as usize].count(spent);
    }

    /// The step of the devices.
    fn devices(&mut self)
        requires spare { length self.old.world.fabric.bus.uarts + length self.old.world.cores ≤ self.old.world.fabric.spare }
        ensures { self.new ≡ profiled_step self.old Devices }
    {
        self.board.devices();
    }

    /// The step of the host.
    fn host(&mut self)
        requires spare { length self.old.world.fabric.rows ≤ self.old.world.fabric.spare }
        ensures { self.new ≡ profiled_step self.old Host }
    {
        self.board.host();
    }

    /// The next cycle begins.
    fn next(&mut self)
        requires early { self.old.world.fabric.cycle < 2 ^ 62 }
        ensures { self.new ≡ profiled_step self.old Next }
    {
        self.board.next_cycle();
    }

    /// One turn of a cycle.
    fn turn(&mut self, k: u16)
        requires there { k < length self.old.world.cores }
        requires young { (s : _) → slice_get self.old.world.cores (core_of_turn self.old.world.schedule self.old.world.fabric.cycle k) ≡ Some s → s.ticks < 2 ^ 62 }
        requires spare { 2 ≤ self.old.world.fabric.spare }
        ensures { self.new ≡ profiled_steps self.old (turn_of self.old.world.schedule self.old.world.fabric.cycle k) }
    {
        if let Some(core) = self.core_of_turn(k) {
            self.tick(core);
        }
    }

    /// The turns of a cycle.
    fn turns(&mut self)
        requires amid { IsAmid self.old.world 0 }
        ensures { TurnsDone self.old self.new }
    {
        for k in 0..self.turn_count() {
            self.turn(k);
        }
    }

    /// One whole cycle.
    fn cycle(&mut self)
        requires can { CanCycle self.old.world }
        ensures { self.new ≡ profiled_steps self.old (events_of self.old.world.schedule self.old.world.fabric.cycle) }
    {
        self.devices();
        self.host();
        self.turns();
        self.next();
    }

    /// Cycles up to the first end.
    fn run_to(&mut self, limit: u64) -> RunEnd
        requires can { CanRun limit self.old.world }
        ensures { ProfiledRun limit self.old self.new result }
    {
        for number in self.number()..limit {
            if let Some(end) = self.end(limit) {
                return end;
            }
            self.cycle();
        }
        match self.rest() {
            Some(rest) => RunEnd::Rest(rest),
            None => RunEnd::CyclesSpent,
        }
    }

    /// Tells the probes the entries of the journal from this one on, in order.
    fn tell_from(&self, from: usize, probes: &mut ProbeSet)
        requires there { from ≤ length self.now.world.fabric.journal }
        requires room { HaveRoom (length (drop from self.now.world.fabric.journal)) (map (λ a. named a.name (state_of (a.probe.vtable, a.probe.value))) (items_of probes.old.probes)) }
        ensures { map (λ a. named a.name (state_of (a.probe.vtable, a.probe.value))) (items_of probes.new.probes)
            ≡ all_told_each (drop from self.now.world.fabric.journal) (map (λ a. named a.name (state_of (a.probe.vtable, a.probe.value))) (items_of probes.old.probes)) }
    {
        let _ = self.board.tell_from(from, probes);
    }

    /// Cycles up to the first of rest, the limit and a full journal, tested in this order at each cycle's start; each tick is
    /// counted. The probes are told all entries in order; a wish to stop isn't heeded.
    pub fn run(&mut self, limit: u64, probes: &mut ProbeSet) -> RunEnd
        requires can { CanRun limit self.old.world }
        requires room { HaveRoom self.old.world.fabric.spare (map (λ a. named a.name (state_of (a.probe.vtable, a.probe.value))) (items_of probes.old.probes)) }
        ensures ran { ProfiledRun limit self.old self.new result }
        ensures told { map (λ a. named a.name (state_of (a.probe.vtable, a.probe.value))) (items_of probes.new.probes)
            ≡ all_told_each (drop (length self.old.world.fabric.journal) self.new.world.fabric.journal) (map (λ a. named a.name (state_of (a.probe.vtable, a.probe.value))) (items_of probes.old.probes)) }
    {
        let told = self.entry_count();
        let end = self.run_to(limit);
        self.tell_from(told, probes);
        end
    }
}
