//! The law of time, which layers above cite.

ghost use Rattle.timing_law.specs.Laws.{IsExact};

/// The numbers of a past are those of the whole list of acts: the tick in which an act is due is that of `due_tick`.
#[tactic(auto, using(crate::proofs::Exact::is_exact))]
pub fn past_is_exact()
    ensures { IsExact }
{}
