// The words of a command, split by `clap`: the texts in their places, and those that the options are given.
ghost use Rattle.std.specs.Prelude.{◌≡◌, ◌≢◌, [], false, map, option_map, IfOk, IsErrOf};
ghost use Rattle.std.specs.Option.{option_map_or};
ghost use Rattle.std.specs.Str.{bytes_eq};
ghost use Rattle.clap.specs.Words.{app_of};
ghost use Rattle.command_line.specs.Splits.{IsAsmSplit, IsBoardSplit, IsDemoSplit, IsDisSplit, IsRawSplit, IsRunSplit, asm_app, board_app, demo_app, dis_app, faults, raw_app, run_app};
ghost use Rattle.command_line.specs.Words.{raised_value};

use crate::command::WordsFault;
use clap::error::ErrorKind;
use clap::{Arg, ArgAction, ArgMatches, Command, Error};
use std::alloc::{AllocError, Global};

/// The texts of `raw FILE CYCLES`.
#[derive(Clone, Copy, Debug, PartialEq, Eq)]
pub struct RawWords<'a> {
    pub file: Option<&'a str>,
    pub cycles: Option<&'a str>,
}

/// The texts of `run BOARD [--cycles N] [--journal N] [--write-journal FILE]`.
#[derive(Clone, Copy, Debug, PartialEq, Eq)]
pub struct RunWords<'a> {
    pub board: Option<&'a str>,
    pub cycles: Option<&'a str>,
    pub journal: Option<&'a str>,
    pub write_journal: Option<&'a str>,
}

/// The texts of `asm SOURCE OUTPUT [--little]`.
#[derive(Clone, Copy, Debug, PartialEq, Eq)]
pub struct AsmWords<'a> {
    pub source: Option<&'a str>,
    pub output: Option<&'a str>,
    pub is_little: bool,
}

/// The text of `dis IMAGE`.
#[derive(Clone, Copy, Debug, PartialEq, Eq)]
pub struct DisWords<'a> {
    pub image: Option<&'a str>,
}

/// The texts of `profile BOARD [--cycles N] [--journal N]`, and of `debug`, whose words are the same.
#[derive(Clone, Copy, Debug, PartialEq, Eq)]
pub struct BoardWords<'a> {
    pub board: Option<&'a str>,
    pub cycles: Option<&'a str>,
    pub journal: Option<&'a str>,
}

/// The text of `demo N`.
#[derive(Clone, Copy, Debug, PartialEq, Eq)]
pub struct DemoWords<'a> {
    pub number: Option<&'a str>,
}

fn raw_command<'a>(alloc: Global) -> Result<Command<'a>, AllocError>
    ensures { IfOk result (λ c. app_of c ≡ raw_app) }
{
    let file = Arg::new(alloc, "FILE");
    let cycles = Arg::new(alloc, "CYCLES");
    Command::new(alloc, "raw")
        .disable_help_flag(true)
        .arg(file)?
        .arg(cycles)
}

fn run_command<'a>(alloc: Global) -> Result<Command<'a>, AllocError>
    ensures { IfOk result (λ c. app_of c ≡ run_app) }
{
    let board = Arg::new(alloc, "BOARD");
    let cycles = Arg::new(alloc, "cycles").long("cycles");
    let journal = Arg::new(alloc, "journal").long("journal");
    let write_journal = Arg::new(alloc, "write-journal").long("write-journal");
    Command::new(alloc, "run")
        .disable_help_flag(true)
        .arg(board)?
        .arg(cycles)?
        .arg(journal)?
        .arg(write_journal)
}

fn asm_command<'a>(alloc: Global) -> Result<Command<'a>, AllocError>
    ensures { IfOk result (λ c. app_of c ≡ asm_app) }
{
    let source = Arg::new(alloc, "SOURCE");
    let output = Arg::new(alloc, "OUTPUT");
    let little = Arg::new(alloc, "little")
        .long("little")
        .action(ArgAction::SetTrue);
    Command::new(alloc, "asm")
        .disable_help_flag(true)
        .arg(source)?
        .arg(output)?
        .arg(little)
}

fn dis_command<'a>(alloc: Global) -> Result<Command<'a>, AllocError>
    ensures { IfOk result (λ c. app_of c ≡ dis_app) }
{
    let image = Arg::new(alloc, "IMAGE");
    Command::new(alloc, "dis")
        .disable_help_flag(true)
        .arg(image)
}

fn board_command<'a>(alloc: Global) -> Result<Command<'a>, AllocError>
    ensures { IfOk result (λ c. app_of c ≡ board_app) }
{
    let board = Arg::new(alloc, "BOARD");
    let cycles = Arg::new(alloc, "cycles").long("cycles");
    let journal = Arg::new(alloc, "journal").long("journal");
    Command::new(alloc, "board")
        .disable_help_flag(true)
        .arg(board)?
        .arg(cycles)?
        .arg(journal)
}

fn demo_command<'a>(alloc: Global) -> Result<Command<'a>, AllocError>
    ensures { IfOk result (λ c. app_of c ≡ demo_app) }
{
    let number = Arg::new(alloc, "N");
    Command::new(alloc, "demo")
        .disable_help_flag(true)
        .arg(number)
}

/// Splits the words of `raw`, the first of which is the command.
pub fn split_raw<'a>(alloc: Global, words: &'a [&'a str]) -> Result<RawWords<'a>, WordsFault>
    ensures ok { IfOk result (IsRawSplit (map (λ w. w.now) words.entry.now)) }
    ensures usage { IsErrOf result WordsFault.Usage → faults raw_app (map (λ w. w.now) words.entry.now) ≢ [] }
{
    let Ok(command) = raw_command(alloc) else {
        return Err(WordsFault::NoMemory);
    };
    match command.try_get_matches_from(words) {
        Ok(matches) => Ok(RawWords {
            file: matches.get_str("FILE"),
            cycles: matches.get_str("CYCLES"),
        }),
        Err(error) => {
            if error.kind() == ErrorKind::OutOfMemory {
                Err(WordsFault::NoMemory)
            } else {
                Err(WordsFault::Usage)
            }
        }
    }
}

/// Splits the words of `run`, the first of which is the command.
pub fn split_run<'a>(alloc: Global, words: &'a [&'a str]) -> Result<RunWords<'a>, WordsFault>
    ensures ok { IfOk result (IsRunSplit (map (λ w. w.now) words.entry.now)) }
    ensures usage { IsErrOf result WordsFault.Usage → faults run_app (map (λ w. w.now) words.entry.now) ≢ [] }
{
    let Ok(command) = run_command(alloc) else {
        return Err(WordsFault::NoMemory);
    };
    match command.try_get_matches_from(words) {
        Ok(matches) => Ok(RunWords {
            board: matches.get_str("BOARD"),
            cycles: matches.get_str("cycles"),
            journal: matches.get_str("journal"),
            write_journal: matches.get_str("write-journal"),
        }),
        Err(error) => {
            if error.kind() == ErrorKind::OutOfMemory {
                Err(WordsFault::NoMemory)
            } else {
                Err(WordsFault::Usage)
            }
        }
    }
}

/// Splits the words of `asm`, the first of which is the command.
pub fn split_asm<'a>(alloc: Global, words: &'a [&'a str]) -> Result<AsmWords<'a>, WordsFault>
    ensures ok { IfOk result (IsAsmSplit (map (λ w. w.now) words.entry.now)) }
    ensures usage { IsErrOf result WordsFault.Usage → faults asm_app (map (λ w. w.now) words.entry.now) ≢ [] }
{
    let Ok(command) = asm_command(alloc) else {
        return Err(WordsFault::NoMemory);
    };
    match command.try_get_matches_from(words) {
        Ok(matches) => Ok(AsmWords {
            source: matches.get_str("SOURCE"),
            output: matches.get_str("OUTPUT"),
            is_little: is_raised(matches.get_str("little")),
        }),
        Err(error) => {
            if error.kind() == ErrorKind::OutOfMemory {
                Err(WordsFault::NoMemory)
            } else {
                Err(WordsFault::Usage)
            }
        }
    }
}

/// Whether a flag with this text stands: `clap` gives each flag the text `true` or `false`.
fn is_raised(text: Option<&str>) -> bool
    ensures { result ≡ option_map_or (λ text. bytes_eq text raised_value) (option_map (λ w. w.now) text.entry) false }
{
    match text {
        Some(text) => text == "true",
        None => false,
    }
}

/// Splits the words of `dis`, the first of which is the command.
pub fn split_dis<'a>(alloc: Global, words: &'a [&'a str]) -> Result<DisWords<'a>, WordsFault>
    ensures ok { IfOk result (IsDisSplit (map (λ w. w.now) words.entry.now)) }
    ensures usage { IsErrOf result WordsFault.Usage → faults dis_app (map (λ w. w.now) words.entry.now) ≢ [] }
{
    let Ok(command) = dis_command(alloc) else {
        return Err(WordsFault::NoMemory);
    };
    match command.try_get_matches_from(words) {
        Ok(matches) => Ok(DisWords {
            image: matches.get_str("IMAGE"),
        }),
        Err(error) => {
            if error.kind() == ErrorKind::OutOfMemory {
                Err(WordsFault::NoMemory)
            } else {
                Err(WordsFault::Usage)
            }
        }
    }
}

/// Splits the words of `demo`, the first of which is the command.
pub fn split_demo<'a>(alloc: Global, words: &'a [&'a str]) -> Result<DemoWords<'a>, WordsFault>
    ensures ok { IfOk result (IsDemoSplit (map (λ w. w.now) words.entry.now)) }
    ensures usage { IsErrOf result WordsFault.Usage → faults demo_app (map (λ w. w.now) words.entry.now) ≢ [] }
{
    let Ok(command) = demo_command(alloc) else {
        return Err(WordsFault::NoMemory);
    };
    match command.try_get_matches_from(words) {
        Ok(matches) => Ok(DemoWords {
            number: matches.get_str("N"),
        }),
        Err(error) => {
            if error.kind() == ErrorKind::OutOfMemory {
                Err(WordsFault::NoMemory)
            } else {
                Err(WordsFault::Usage)
            }
        }
    }
}

/// Splits the words of `profile` or `debug`, the first of which is the command.
pub fn split_board<'a>(alloc: Global, words: &'a [&'a str]) -> Result<BoardWords<'a>, WordsFault>
    ensures ok { IfOk result (IsBoardSplit (map (λ w. w.now) words.entry.now)) }
    ensures usage { IsErrOf result WordsFault.Usage → faults board_app (map (λ w. w.now) words.entry.now) ≢ [] }
{
    let Ok(command) = board_command(alloc) else {
        return Err(WordsFault::NoMemory);
    };
    match command.try_get_matches_from(words) {
        Ok(matches) => Ok(BoardWords {
            board: matches.get_str("BOARD"),
            cycles: matches.get_str("cycles"),
            journal: matches.get_str("journal"),
        }),
        Err(error) => {
            if error.kind() == ErrorKind::OutOfMemory {
                Err(WordsFault::NoMemory)
            } else {
                Err(WordsFault::Usage)
            }
        }
    }
}
