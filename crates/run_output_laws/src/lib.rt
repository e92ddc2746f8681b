//! The files that a run of a board writes have different names.
#![tactic(auto)]

ghost use Rattle.run_output_laws.specs.Apart.{OutputsAreApart};

/// No two outputs of a run of a sound board have one name, where the journal's file is no output of the board.
#[tactic(auto, using(crate::proofs::Apart::outputs_apart))]
pub fn outputs_are_apart()
    ensures { OutputsAreApart }
{}
