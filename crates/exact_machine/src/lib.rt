//! The exact machine: the board machine with a past for each core, which says when the core acts. Nothing in it is free, so
//! that its step is a function (`specs/Machine.antt`), and a run is told by its beginning alone (`specs/Runs.antt`).
//!
//! The board machine, the open one, leaves the ticks before each act free up to a slack. Each step of the exact machine is one
//! of the open machine, but for the slacks, so all that is proved of the open machine holds of exact runs
//! (`specs/Opening.antt`). `specs/Times.antt` has the acts of a core with their ticks, and `specs/Profile.antt` what each tick of
//! a core is spent on.
//!
//! Each function here is a law, whose statement is its clause.
#![tactic(auto)]

ghost use Rattle.exact_machine.specs.Laws.{ActsAreTimed, ExactJournalsHaveLaws, ExactRunsAreOpen, ExactRunsJoin, ProfilesAddUp, RunsAreDetermined};

use timing_law::past_is_exact;

/// Each step of the exact machine is one of the open machine, but for the slacks; so is the beginning of a board, and so are
/// its runs by steps, by cycles, and up to the first end.
#[tactic(auto, using(crate::proofs::Cycling::runs_open))]
pub fn exact_runs_are_open()
    ensures { ExactRunsAreOpen }
{}

/// Given the board, the first views, the inputs, the room of the journal and the limit, there is one run but for its slacks.
#[tactic(auto, using(crate::proofs::Determined::determined))]
pub fn runs_are_determined()
    ensures { RunsAreDetermined }
{}

/// Exact runs one after the other are one run, and cycles are steps.
#[tactic(auto, using(crate::proofs::Joins::runs_join))]
pub fn exact_runs_join()
    ensures { ExactRunsJoin }
{}

/// The journal of each exact run has the laws of journals.
#[tactic(auto, using(crate::proofs::Journals::journals_have_laws))]
pub fn exact_journals_have_laws()
    ensures { ExactJournalsHaveLaws }
{}

/// The tick in which the next act of a core is due is that of `due_tick`, over the list of all its acts before: until then a
/// tick is held back, but for a take.
#[tactic(auto, using(crate::proofs::Times::acts_are_timed))]
pub fn acts_are_timed()
    ensures { ActsAreTimed }
{
    past_is_exact();
}

/// The counts of a profile add up to the ticks of its core, and what is held back for no other reason is a divide.
#[tactic(auto, using(crate::proofs::Profiles::profiles_add_up))]
pub fn profiles_add_up()
    ensures { ProfilesAddUp }
{}
