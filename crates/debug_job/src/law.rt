//! The law of scripts that aren't refused.
ghost use Rattle.debug_job.specs.Loading.{ScriptsAreNotRefused};

/// A script without a fault, within its limit and in a source that tells what it has left, isn't refused, but for want of memory
/// or for a read that failed and was counted.
#[tactic(auto, using(crate::proofs::NotRefused::not_refused))]
pub fn scripts_are_not_refused()
    ensures { ScriptsAreNotRefused }
{}
