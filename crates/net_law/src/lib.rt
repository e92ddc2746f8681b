//! The network law: on a board whose cores are joined by links alone, what goes through each link, and so each output file,
//! depends on no order, clock, pipeline or pace.
//!
//! There is no code here: each function is a law, whose statement is its clause. `specs/Network` is the reference network,
//! which a run of the board follows.
#![tactic(auto)]

ghost use Rattle.net_law.specs.Boards.{ReadBoardsAreNetworks};
ghost use Rattle.net_law.specs.Law.{NetworkLaw, RunsAgree, RunsKeepNetwork};

/// A board file that says `network = true` has no device and no event.
#[tactic(auto, using(crate::proofs::Reading::read_boards))]
pub fn network_boards_have_links_alone()
    ensures { ReadBoardsAreNetworks }
{}

/// After any list of events each link has carried a prefix of the reference network's history, and each output file is a
/// prefix of that history's file; at rest they are equal to it, and so are each core's view and acts.
#[tactic(auto, using(crate::proofs::Files::network_law))]
pub fn boards_follow_the_network()
    ensures { NetworkLaw }
{}

/// Of two runs of boards with the same links, first views and input files, each output file of one is a prefix of the
/// other's; when both came to rest, files and cores are equal.
#[tactic(auto, using(crate::proofs::Files::runs_agree))]
pub fn runs_agree()
    ensures { RunsAgree }
{}

/// A call that keeps the runs of a board keeps the law.
#[tactic(auto, using(crate::proofs::Files::runs_keep))]
pub fn runs_keep_the_network()
    ensures { RunsKeepNetwork }
{}
