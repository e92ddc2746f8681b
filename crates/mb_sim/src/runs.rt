//! The status of a run's end.
ghost use Rattle.std.specs.Prelude.{◌≡◌};
ghost use Rattle.mb_sim.specs.Runs.{status_of};

use crate::status::Status;
use board_run::{Rest, RunEnd};

/// The status of a run that ended so.
pub fn status_of(end: RunEnd) -> Status
    ensures { result ≡ status_of end }
{
    match end {
        RunEnd::Rest(Rest::Ended) => Status::Ended,
        RunEnd::Rest(Rest::Waiting) => Status::Waiting,
        RunEnd::Rest(Rest::Stopped) => Status::Stopped,
        RunEnd::CyclesSpent => Status::CyclesSpent,
        RunEnd::JournalFull => Status::JournalFull,
    }
}
