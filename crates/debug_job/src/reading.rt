//! Reading a script from its source.
ghost use Rattle.std.specs.Prelude.{◌≡◌, ◌+◌};
ghost use Rattle.debug_job.specs.Loading.{LoadsScript, script_limit};
ghost use Rattle.host_io.specs.Streams.{TakesAtMost};

use crate::refusal::ScriptRefusal;
use debug_script::{Script, ScriptFault, ScriptNames, read_script};
use host_io::{LoadFault, Source, read_whole};
use std::alloc::Global;

/// The most bytes of a script.
const SCRIPT_LIMIT: usize = 1_048_576;

/// Reads the script that a source has left, to its end, and checks it whole: each of its words is a command, a number, or one of
/// these names.
///
/// # Errors
///
/// `TooLong` exactly where the source has more than 1,048,576 bytes left, one of which past the limit is read at most; `CannotRead`
/// only where the source counted a fault; `Refused` exactly at the first line that is refused; `NoMemory` only for want of memory.
pub fn load_script<C: Source>(
    alloc: Global,
    script: &mut C,
    names: &ScriptNames,
) -> Result<Script, ScriptRefusal>
    ensures loads { LoadsScript (C.state script.old) (C.state script.new) names.now result }
    ensures taken { TakesAtMost (script_limit + 1) (C.state script.old).left (C.state script.new).left }
{
    let text = match read_whole(script, alloc, SCRIPT_LIMIT) {
        Ok(text) => text,
        Err(LoadFault::TooLong) => return Err(ScriptRefusal::TooLong),
        Err(LoadFault::Failed) => return Err(ScriptRefusal::CannotRead),
        Err(LoadFault::NoMemory) => return Err(ScriptRefusal::NoMemory),
    };
    match read_script(alloc, text.as_slice(), names) {
        Ok(script) => Ok(script),
        Err(ScriptFault::Refused { code, line }) => Err(ScriptRefusal::Refused { code, line }),
        Err(ScriptFault::NoMemory) => Err(ScriptRefusal::NoMemory),
    }
}
