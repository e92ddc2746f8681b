//! An emulator of MicroBlaze boards: `mbsim run BOARD`, `mbsim profile BOARD`, `mbsim debug BOARD` with a script,
//! `mbsim raw FILE CYCLES` for one core and `mbsim demo N` for a ring;
//! `mbsim asm SOURCE OUTPUT` and `mbsim dis IMAGE` for their programs.
//!
//! `mbsim` (in `top`) is the program without its outside: it does what the words say on any shelf of files and any streams,
//! and answers a `Status`. `run`, `profile`, `debug`, `raw`, `ring` and `tools` do the commands; `tell` makes the line of a status for standard error. `main`
//! hands on the words of the process, its files and its streams, and ends with the number of the status.
#![tactic(auto)]

#[cfg(test)]
mod board_tests;
mod debug;
#[cfg(test)]
mod debug_tests;
#[cfg(test)]
mod device_tests;
mod print;
#[cfg(test)]
mod probe_tests;
mod profile;
#[cfg(test)]
mod profile_tests;
mod program;
mod raw;
mod ring;
mod run;
mod runs;
mod status;
mod tell;
#[cfg(test)]
mod tests;
#[cfg(test)]
mod tool_tests;
mod tools;
mod top;

use host_io::{DirShelf, StdSink, StdSource};
use program::{dispatch_arguments, exit_code};
use std::env;
use std::process::ExitCode;

/// Does what the arguments of the process say, on its files and streams.
fn main(rt: HostRuntime) -> ExitCode {
    let status = dispatch_arguments(
        rt.alloc(),
        env::args(&rt),
        &mut DirShelf::new(&rt),
        &mut StdSource::new(rt.stdin()),
        &mut StdSink::new(rt.stdout()),
        &mut StdSink::new(rt.stderr()),
    );
    exit_code(&status)
}
