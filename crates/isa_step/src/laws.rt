//! Laws of the step that layers above cite.

ghost use Rattle.isa_step.specs.History.{IsTold};
ghost use Rattle.isa_step.specs.Resting.{IsRest};

use crate::ports::Sees;

/// Each act that is due is told by its actions at the ports, and by no others: so the view after any number of acts
/// follows from the first view and the actions of each act.
#[tactic(auto, using(crate::proofs::Telling::is_told))]
pub fn acts_are_told()
    ensures { IsTold }
{}

/// A core rests exactly where no act is due now and none will be: where `idle` names why, no act is due for that very
/// reason, and where it is silent an act is due, or will be once every interrupt and break that can come has come.
pub fn rest_is_final<P: Sees>(ports: &P)
    ensures { IsRest (P.shows ports.now) }
{}
