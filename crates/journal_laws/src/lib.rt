//! Laws that are read off a journal, whatever program wrote it: the link law, the take law, the law of breaks and the
//! progress bound.
//!
//! Each is stated over entries and rows of the board file alone (`specs/LinkLaw.antt` and its neighbours), so that a journal
//! file can be checked against it by hand. There is no code here: each function is a law, whose statement is its clause, of
//! the board machine (`.._holds`) or of the law itself by small journals that it keeps and refuses (`.._is_tested`).
//!
//! So by `link_law_holds` an item that a journal says came out of a link is the oldest one that had gone in, and by
//! `take_law_holds` an interrupt was taken at the first act that let one in while the line was high.
#![tactic(auto)]

ghost use Rattle.journal_laws.specs.BreakTests.{BreakLawIsTested};
ghost use Rattle.journal_laws.specs.Laws.{BreakLawHolds, LinkLawHolds, ProgressBoundHolds, RestIsRecorded, RunsHaveLaws, RunsJoin, TakeLawHolds};
ghost use Rattle.journal_laws.specs.LinkOrder.{LinksKeepOrder};
ghost use Rattle.journal_laws.specs.LinkTests.{LinkLawIsTested};
ghost use Rattle.journal_laws.specs.ProgressTests.{ProgressBoundIsTested};
ghost use Rattle.journal_laws.specs.TakeTests.{TakeLawIsTested};

/// The journal of every run, also under events in any order, has the link law.
#[tactic(auto, using(crate::proofs::LinkRuns::link_law_holds))]
pub fn link_law_holds()
    ensures { LinkLawHolds }
{}

/// In a journal that has the link law, what went into a link is what came out of it, in order, and then what it holds.
#[tactic(auto, using(crate::proofs::LinkOrder::links_keep_order))]
pub fn links_keep_order()
    ensures { LinksKeepOrder }
{}

/// In the journal of every run, also under events in any order, each core has the take law.
#[tactic(auto, using(crate::proofs::TakeRuns::take_law_holds))]
pub fn take_law_holds()
    ensures { TakeLawHolds }
{}

/// The journal of every run by cycles has the progress bound, and at its end each core that goes on has it.
#[tactic(auto, using(crate::proofs::PaceCycles::progress_bound_holds))]
pub fn progress_bound_holds()
    ensures { ProgressBoundHolds }
{}

/// In the journal of every run by cycles no break is passed over: at each entry of a core, each break that has come and that
/// the view lets in was taken before, but for a take that goes first.
#[tactic(auto, using(crate::proofs::BreakRuns::break_law_holds))]
pub fn break_law_holds()
    ensures { BreakLawHolds }
{}

/// In every reached state the entries of a core record whether it sleeps, is stopped and keeps a wait, as the progress
/// bound reads them.
#[tactic(auto, using(crate::proofs::Recorded::rest_is_recorded))]
pub fn rest_is_recorded()
    ensures { RestIsRecorded }
{}

/// Runs by cycles one after the other are one run by cycles, and a run of the other laws.
#[tactic(auto, using(crate::proofs::Joins::runs_join))]
pub fn runs_join()
    ensures { RunsJoin }
{}

/// The journal of every run by cycles has all of these laws, in one statement for those who run boards.
#[tactic(auto, using(crate::proofs::AllLaws::runs_have_laws))]
pub fn runs_have_laws()
    ensures { RunsHaveLaws }
{}

/// The link law keeps small journals that are right, and refuses small ones that are not.
#[tactic(auto, using(crate::proofs::LinkTests::link_law_is_tested))]
pub fn link_law_is_tested()
    ensures { LinkLawIsTested }
{}

/// The take law keeps small journals that are right, and refuses small ones that are not.
#[tactic(auto, using(crate::proofs::TakeTests::take_law_is_tested))]
pub fn take_law_is_tested()
    ensures { TakeLawIsTested }
{}

/// The progress bound keeps small journals that are right, and refuses small ones that are not.
#[tactic(auto, using(crate::proofs::ProgressTests::progress_bound_is_tested))]
pub fn progress_bound_is_tested()
    ensures { ProgressBoundIsTested }
{}

/// The law of breaks keeps small journals that are right, and refuses small ones that are not.
#[tactic(auto, using(crate::proofs::BreakTests::break_law_is_tested))]
pub fn break_law_is_tested()
    ensures { BreakLawIsTested }
{}
