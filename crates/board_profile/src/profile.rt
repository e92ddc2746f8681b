//! The counts of a core, and what a tick is counted as.

ghost use Rattle.std.specs.Prelude.{◌≡◌, ◌<◌, ◌^◌};
ghost use Rattle.board_profile.specs.Profiles.{counts_of, spent_as, spent_on};
ghost use Rattle.exact_machine.specs.Profile.{counted, nothing, total};

use core_iface::Tick;

/// What a tick of a core is spent on.
#[derive(Clone, Copy, Debug, PartialEq, Eq)]
pub enum Spent {
    /// The one act that was due.
    Acting,
    /// A tick before the first in which an instruction can act.
    Starting,
    /// A tick in which the last act still holds the core.
    Holding,
    /// A tick before an operand is ready.
    Reading,
    /// A tick before the word at pc is decoded, where a branch or a trap led to it.
    Redirecting,
    /// A further tick of a divide.
    Dividing,
    /// A tick in which the link access at pc waits.
    Waiting,
    /// A tick of a sleep from which a take may wake the core.
    Sleeping,
    /// A tick of a core that ended, sleeps for good or stopped.
    Resting,
}

/// What the ticks of a core were spent on: counts of ticks, which add up to all of them.
#[derive(Clone, Copy, Debug, PartialEq, Eq)]
pub struct Profile {
    /// Acts.
    pub acted: u64,
    /// Ticks before the first in which an instruction can act.
    pub start: u64,
    /// Ticks in which the last act held the core.
    pub hold: u64,
    /// Ticks before an operand was ready.
    pub operand: u64,
    /// Ticks before the word at pc was decoded, where a branch or a trap led to it.
    pub redirect: u64,
    /// Further ticks of divides.
    pub divide: u64,
    /// Ticks in which a link access waited.
    pub waiting: u64,
    /// Ticks of sleeps from which a take could wake the core.
    pub sleeping: u64,
    /// Ticks of a core that had ended, slept for good or was stopped.
    pub done: u64,
}

impl Profile {
    /// No tick.
    pub const NOTHING: Profile = Profile {
        acted: 0,
        start: 0,
        hold: 0,
        operand: 0,
        redirect: 0,
        divide: 0,
        waiting: 0,
        sleeping: 0,
        done: 0,
    };

    /// Counts a tick more.
    pub(crate) fn count(&mut self, spent: Spent)
        requires few { total (counts_of self.old) < 2 ^ 62 }
        ensures { counts_of self.new ≡ counted (spent_as spent) (counts_of self.old) }
    {
        match spent {
            Spent::Acting => self.acted += 1,
            Spent::Starting => self.start += 1,
            Spent::Holding => self.hold += 1,
            Spent::Reading => self.operand += 1,
            Spent::Redirecting => self.redirect += 1,
            Spent::Dividing => self.divide += 1,
            Spent::Waiting => self.waiting += 1,
            Spent::Sleeping => self.sleeping += 1,
            Spent::Resting => self.done += 1,
        }
    }
}

/// What a tick with this answer was spent on, by the reason for which an act was held back before it.
pub(crate) fn spent_on(answer: Tick, reason: Spent) -> Spent
    ensures { spent_as result ≡ spent_on answer (spent_as reason) }
{
    match answer {
        Tick::Acted(_) => Spent::Acting,
        Tick::Filling => reason,
        Tick::Waiting(_) => Spent::Waiting,
        Tick::Sleeping => Spent::Sleeping,
        Tick::Ended => Spent::Resting,
        Tick::Stopped(_) => Spent::Resting,
    }
}
