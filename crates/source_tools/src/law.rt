//! What the answers are where no fault was counted, and what they leave of the counts.
ghost use Rattle.source_tools.specs.Complete.{AsmCounts, AsmIsComplete, DisCounts, DisIsComplete};

/// Where the shelf tells a source and no fault was counted: a source without a fault is written, one with a fault is refused
/// for its first, and one that is too long for its length; each yields to want of memory alone.
#[tactic(auto, using(crate::proofs::AsmComplete::asm_complete))]
pub fn asm_is_complete()
    ensures { AsmIsComplete }
{}

/// Where the shelf tells an image and no fault was counted: one that passes the tests is listed, one that fails a test is
/// refused for the first, and one that is too long for its length; each yields to want of memory alone.
#[tactic(auto, using(crate::proofs::DisComplete::dis_complete))]
pub fn dis_is_complete()
    ensures { DisIsComplete }
{}

/// No fault of the shelf or the output is passed over: a count rises only where the answer says so.
#[tactic(auto, using(crate::proofs::Counts::asm_counts, crate::proofs::Counts::dis_counts))]
pub fn faults_are_told()
    ensures asm { AsmCounts }
    ensures dis { DisCounts }
{}
