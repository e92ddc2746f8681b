//! What the refusal of a board file says of it: for each code, that the file has this fault at this place.
//!
//! `board_file` answers the least of the faults that it finds; this crate has one law, `refusals_are_told`, which says what
//! each code means in the words of a board: 609, for instance, that two links use one port of a core, and that the place is
//! the `from_port` or `to_port` whose path is the later. It has no code that runs.
#![tactic(auto)]

ghost use Rattle.board_faults.specs.Told.{RefusalsAreTold};

/// Each refusal of a board file by a code with a place is true of the file: it is no TOML (601), or it is the TOML of a
/// tree in which the fault of this code stands at this place.
pub fn refusals_are_told()
    ensures { RefusalsAreTold }
{}
