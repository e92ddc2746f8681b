//! Laws of the board machine that let a board go through most cycles quickly.
//!
//! In a quiet cycle devices and host have nothing to do and nothing is offered to any core (`IsQuiet`): no break comes
//! before its number, the devices are at rest (`AreAtRest`), no line is high, no break is pending, and the host can move no
//! item. Where the first core that has its turn acts, no end was reached at the cycle's start. So a board may do such cycles
//! by the ticks of its cores alone, and finish one by the machine's turns where a core does something else (`Finished`); what
//! it did is a part of a run (`RunsOn`), and parts join. The crate has these definitions and their lemmas, and one function,
//! whose contract is the law that devices and host do nothing in such a cycle.
#![tactic(auto)]

ghost use Rattle.quiet_cycles.specs.Quiet.{QuietCycles};

/// Before the next break devices that are at rest do nothing, and where the host can move no item it does nothing.
#[tactic(auto, using(crate::proofs::Doing::quiet_cycles))]
pub fn quiet_cycles_are_short()
    ensures { QuietCycles }
{}
