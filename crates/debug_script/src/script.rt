//! Scripts.
ghost use Rattle.std.specs.Prelude.{◌≡◌, ◌≤◌, ◌∷◌, ◌++◌, [], IfErr, IfOk, Ok, OnOk, length, slice_get, option_copied};
ghost use Rattle.debug_script.specs.Commands.{after};
ghost use Rattle.debug_script.specs.Scripts.{IsRefusal, begun, noted, script_of, with_first};

use crate::command::Command;
use crate::fault::ScriptFault;
use crate::line::read_line;
use crate::names::ScriptNames;
use crate::parts::cut;
use crate::progress::Progress;
use host_io::NoMemory;
use std::alloc::Global;
use std::marker::Model;

/// The commands of a script, in order. It means the list of them.
#[derive(Debug, Drop)]
pub struct Script {
    commands: Vec<Command>,
}

impl Model for Script {
    ghost use Rattle.std.specs.Prelude.{List};
    ghost use Rattle.debug_script.specs.declared.command.Command.{Command};

    ghost Value = { List Command };

    ghost view = { λ s. s.commands.items };
}

impl Script {
    /// All commands in order.
    pub fn as_slice(&self) -> &[Command]
        ensures { result.now ≡ self.now }
    {
        self.commands.as_slice()
    }

    /// The number of commands.
    pub fn len(&self) -> usize
        ensures { result ≡ length self.now }
    {
        self.commands.len()
    }

    /// Adds the command of a line, where it has one.
    fn add(&mut self, command: Option<Command>) -> Result<(), NoMemory>
        ensures { OnOk result (self.new ≡ self.old ++ with_first command []) }
    {
        if let Some(command) = command {
            self.commands.push(command)?;
        }
        Ok(())
    }
}

/// Notes the command of a line, where it has one.
fn note(progress: &mut Progress, command: &Option<Command>)
    requires { progress.old.breaks ≤ 1048576 }
    ensures { progress.new ≡ noted command.now progress.old }
{
    if let Some(command) = command {
        progress.note(command);
    }
}

/// The commands of a script.
///
/// A line feed ends a line, and each single space ends a word: two spaces make an empty word, and a tab or a carriage
/// return is a byte of its word. Empty lines are passed over. `Refused` has the first line that is refused, counted from
/// 1, and the least of its faults:
///
/// | Code | The line |
/// |---|---|
/// | 1201 | its first word is no command |
/// | 1202 | the command has fewer or more words |
/// | 1203 | the board has no core of that name |
/// | 1204 | a number is none or out of range, or the core's image has no symbol of that name |
/// | 1205 | no probe of that name is attached at this line |
/// | 1206 | there are 64 breakpoints before this one |
///
/// `NoMemory` is only for want of memory.
pub fn read_script(alloc: Global, text: &[u8], names: &ScriptNames) -> Result<Script, ScriptFault>
    requires { length text.now ≤ 1048576 }
    ensures ok { IfOk result (λ commands. script_of names.now text.now ≡ Ok commands) }
    ensures err { IfErr result (IsRefusal names.now text.now) }
{
    let mut script = Script {
        commands: Vec::new(alloc),
    };
    let mut progress = Progress {
        breaks: 0,
        attached: names.probes.copied(alloc)?,
    };
    let mut number = 1;
    let mut rest = Some(text);
    while let Some(left) = rest {
        let (line, after) = cut(b'\n', left);
        let command = match read_line(names, &progress, line) {
            Ok(command) => command,
            Err(rule) => return Err(rule.at(number)),
        };
        note(&mut progress, &command);
        script.add(command)?;
        number += 1;
        rest = after;
    }
    Ok(script)
}
