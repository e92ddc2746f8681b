//! A law about files that are written in order.
ghost use Rattle.run_output.specs.Outputs.{WritingsAreTold};

/// Files of different names that are written in order: those before the one that is refused are whole, that one is as
/// before or a prefix of its bytes, later ones and all others are as before. It does nothing.
#[tactic(auto, using(crate::proofs::InOrder::tells))]
pub fn writings_are_told()
    ensures { WritingsAreTold }
{}
