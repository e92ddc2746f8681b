//! The law of rings.
ghost use Rattle.ring_demo.specs.Runs.{RingsAreNetworks};

/// A ring is a network board.
#[tactic(auto, using(crate::proofs::Rings::are_networks))]
pub fn rings_are_networks()
    ensures { RingsAreNetworks }
{}
