//! Laws of the board machine on which its journal's laws and the replay of a journal stand: what every reached state keeps,
//! what an act without an entry is, which entries an event makes, and that a run never gets stuck.
//!
//! There is no code here: each function is a law, whose statement is its clause. So by `entries_are_stamped` an entry tells
//! by itself which event of which cycle made it: that of the host at a link, or the tick of its core.
#![tactic(auto)]

ghost use Rattle.machine_laws.specs.Going.{SomeStepIsLawful, TurnsAreApart};
ghost use Rattle.machine_laws.specs.Holding.{EachStateHolds};
ghost use Rattle.machine_laws.specs.Silence.{LoudActsKeepMemory, SilentActsStayAwake};
ghost use Rattle.machine_laws.specs.Stamps.{EntriesAreStamped};

/// In every reached state lines are high and breaks are pending only where they are announced for, the lists have an element
/// for each core, link or device, no Wait entry is of an act beyond its core's acts, and a wait is kept only where the core
/// stands at a link access that waits.
#[tactic(auto, using(crate::proofs::Holding::each_state_holds))]
pub fn each_state_holds()
    ensures { EachStateHolds }
{}

/// An act that enters nothing is done by a core that is awake and runs, and leaves it so.
#[tactic(auto, using(crate::proofs::Silence::silent_stays))]
pub fn silent_acts_stay_awake()
    ensures { SilentActsStayAwake }
{}

/// An act that enters something leaves the memory as it was: one that asks its ports can be given up without undoing a
/// store.
#[tactic(auto, using(crate::proofs::Loudness::loud_keeps))]
pub fn loud_acts_keep_memory()
    ensures { LoudActsKeepMemory }
{}

/// An event enters entries of its own stamp alone.
#[tactic(auto, using(crate::proofs::Stamping::entries_are_stamped))]
pub fn entries_are_stamped()
    ensures { EntriesAreStamped }
{}

/// Whatever a board's state and the next event, some step is lawful.
#[tactic(auto, using(crate::proofs::Going::some_step))]
pub fn some_step_is_lawful()
    ensures { SomeStepIsLawful }
{}

/// No core has two turns in a cycle.
#[tactic(auto, using(crate::proofs::Going::apart))]
pub fn turns_are_apart()
    ensures { TurnsAreApart }
{}
