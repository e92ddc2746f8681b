//! What a line of a script sees of those before it.
ghost use Rattle.std.specs.Prelude.{◌≡◌, ◌≤◌};
ghost use Rattle.debug_script.specs.Commands.{after};

use crate::command::Command;
use crate::names::Names;

/// What earlier lines did: how many breakpoints they set, and which probes they left attached.
#[derive(Debug, Drop)]
pub struct Progress {
    pub breaks: u32,
    pub attached: Names,
}

impl Progress {
    /// Notes a command.
    pub fn note(&mut self, command: &Command)
        requires { self.old.breaks ≤ 1048576 }
        ensures { self.new ≡ after command.now self.old }
    {
        match command {
            Command::Break { .. } => self.breaks += 1,
            Command::Detach { name } => self.attached.take_out(name),
            _ => {}
        }
    }
}
