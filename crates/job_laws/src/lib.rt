//! Laws of boards that were loaded: over the same files a board has one run, to the cycle; each run of a file's network board
//! follows the reference network; and so do two runs of boards that differ in order, clocks and pipelines alone.
//!
//! There is no code here: each function is a law, whose statement is its clause.
#![tactic(auto)]

ghost use Rattle.job_laws.specs.Jobs.{JobsAgree, JobsFollow, JobsRunAlike};

/// After any number of cycles of a loaded network board each file that a link leads to is a prefix of the reference
/// network's, and at rest equal to it.
#[tactic(auto, using(crate::proofs::Jobs::jobs_follow))]
pub fn jobs_follow()
    ensures { JobsFollow }
{}

/// Of two runs of network boards with the same links, images and memories, each file of one is a prefix of the other's;
/// when both came to rest, the files are equal.
#[tactic(auto, using(crate::proofs::Jobs::jobs_agree))]
pub fn jobs_agree()
    ensures { JobsAgree }
{}

/// Two runs of a board over the same files, with the same limit and room for entries, end in the same state and for the same
/// reason: journal, cycle number, views and acts are equal, and so is all that is made of them.
#[tactic(auto, using(crate::proofs::Jobs::jobs_run_alike))]
pub fn jobs_run_alike()
    ensures { JobsRunAlike }
{}
