//! What the word of an instruction tells of its act: which registers the act reads, which one it writes, and how soon that
//! one can be used. Pipelines stand on these laws: they forward what is read, and hold back what is late.
//!
//! There is no code here: each function is a law, whose statement is its clause. So `writes_are_late` says that where an
//! act of `lwi r5, r3, 8` writes at all, it writes r5, and makes r5 late as a load does.
#![tactic(auto)]

ghost use Rattle.act_laws.specs.Lateness.{WritesAreLate};
ghost use Rattle.act_laws.specs.Reading.{ReadsAreNamed};

/// An act that retires makes late the register that `written` names, by the class of its instruction; and where it writes
/// a register, it is this one.
#[tactic(auto, using(crate::proofs::Lateness::writes_are_late))]
pub fn writes_are_late()
    ensures { WritesAreLate }
{}

/// What is due depends on no register but those that `reads` names.
#[tactic(auto, using(crate::proofs::Reading::reads_are_named))]
pub fn reads_are_named()
    ensures { ReadsAreNamed }
{}
