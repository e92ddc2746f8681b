//! A line of a script.
ghost use Rattle.std.specs.Prelude.{◌≡◌, None, Ok, Some, option_copied};
ghost use Rattle.std.specs.Str.{bytes_eq};
ghost use Rattle.debug_script.specs.Commands.{Three, Two, address, alone, break_with, by_verb, core_named, detach_with, mem_with, one, probe_with, regs_with, run_with, step_with, still_attached, three, two, value_named, verb_of};
ghost use Rattle.debug_script.specs.Parts.{parts_after};
ghost use Rattle.debug_script.specs.Scripts.{line_read, result_map};

use crate::command::{Command, Verb};
use crate::fault::ScriptRule;
use crate::names::{Names, ScriptNames};
use crate::numbers::{begins_with_digit, number_in};
use crate::parts::{cut, one_word, three_words, two_words};
use crate::progress::Progress;
use elf_image::Symbol;
use host_io::Name;

/// The most cycles that a command asks for.
const MOST_CYCLES: u64 = 1_000_000_000_000;

/// The most bytes that a command prints.
const MOST_BYTES: u64 = 4096;

/// The most breakpoints of a script.
const MOST_BREAKS: u32 = 64;

/// The place of a core, by its name.
fn core_named(names: &ScriptNames, word: &[u8]) -> Option<usize>
    ensures { result ≡ core_named names.now word.now }
{
    names
        .cores
        .as_slice()
        .iter()
        .position(|name| name.as_bytes() == word)
}

fn has_name(symbol: &Symbol, word: &[u8]) -> bool
    ensures { result ≡ bytes_eq symbol.now.name word.now }
{
    symbol.name.as_slice() == word
}

/// The value of the first symbol of a name.
fn value_named(word: &[u8], symbols: &[Symbol]) -> Option<u32>
    ensures { result ≡ value_named word.now symbols.now }
{
    for symbol in symbols {
        if has_name(symbol, word) {
            return Some(symbol.value);
        }
    }
    None
}

/// A number below 2^32 where the word begins with a digit, else a symbol of the core's image.
#[tactic(auto, unfolding(crate::specs::Commands::address))]
fn address(names: &ScriptNames, core: usize, word: &[u8]) -> Option<u32>
    ensures { result ≡ address names.now core word.now }
{
    if begins_with_digit(word) {
        return Some(number_in(0, 0xFFFF_FFFF, word)? as u32);
    }
    if word.is_empty() {
        return None;
    }
    value_named(word, names.symbols.get(core)?.as_slice())
}

fn is_word(name: &Name, word: &[u8]) -> bool
    ensures { result ≡ bytes_eq name.now word.now }
{
    name.as_bytes() == word
}

/// The first name of a list that is this word.
fn name_among(names: &[Name], word: &[u8]) -> Option<Name>
    ensures { result ≡ still_attached names.now word.now }
{
    for name in names {
        if is_word(name, word) {
            return Some(name.copied());
        }
    }
    None
}

/// The name of a probe that is still attached.
fn still_attached(attached: &Names, word: &[u8]) -> Option<Name>
    ensures { result ≡ still_attached attached.now word.now }
{
    name_among(attached.as_slice(), word)
}

fn break_command(
    names: &ScriptNames,
    breaks: u32,
    words: Option<&[u8]>,
) -> Result<Command, ScriptRule>
    ensures { result ≡ break_with names.now breaks (two (parts_after 32 (option_copied words.entry))) }
{
    let (core, addr) = two_words(words).ok_or(ScriptRule::WrongWordCount)?;
    let core = core_named(names, core).ok_or(ScriptRule::NoSuchCore)?;
    let addr = address(names, core, addr).ok_or(ScriptRule::BadNumber)?;
    if breaks < MOST_BREAKS {
        Ok(Command::Break { core, addr })
    } else {
        Err(ScriptRule::TooManyBreakpoints)
    }
}

fn step_command(words: Option<&[u8]>) -> Result<Command, ScriptRule>
    ensures { result ≡ step_with (one (parts_after 32 (option_copied words.entry))) }
{
    let word = one_word(words).ok_or(ScriptRule::WrongWordCount)?;
    let cycles = number_in(0, MOST_CYCLES, word).ok_or(ScriptRule::BadNumber)?;
    Ok(Command::Step { cycles })
}

fn run_command(words: Option<&[u8]>) -> Result<Command, ScriptRule>
    ensures { result ≡ run_with (one (parts_after 32 (option_copied words.entry))) }
{
    let word = one_word(words).ok_or(ScriptRule::WrongWordCount)?;
    let cycles = number_in(0, MOST_CYCLES, word).ok_or(ScriptRule::BadNumber)?;
    Ok(Command::Run { cycles })
}

fn regs_command(names: &ScriptNames, words: Option<&[u8]>) -> Result<Command, ScriptRule>
    ensures { result ≡ regs_with names.now (one (parts_after 32 (option_copied words.entry))) }
{
    let word = one_word(words).ok_or(ScriptRule::WrongWordCount)?;
    let core = core_named(names, word).ok_or(ScriptRule::NoSuchCore)?;
    Ok(Command::Regs { core })
}

fn mem_command(names: &ScriptNames, words: Option<&[u8]>) -> Result<Command, ScriptRule>
    ensures { result ≡ mem_with names.now (three (parts_after 32 (option_copied words.entry))) }
{
    let (core, addr, count) = three_words(words).ok_or(ScriptRule::WrongWordCount)?;
    let core = core_named(names, core).ok_or(ScriptRule::NoSuchCore)?;
    let addr = address(names, core, addr).ok_or(ScriptRule::BadNumber)?;
    let count = number_in(1, MOST_BYTES, count).ok_or(ScriptRule::BadNumber)?;
    Ok(Command::Mem {
        core,
        addr,
        count: count as u16,
    })
}

fn probe_command(attached: &Names, words: Option<&[u8]>) -> Result<Command, ScriptRule>
    ensures { result ≡ probe_with attached.now (one (parts_after 32 (option_copied words.entry))) }
{
    let word = one_word(words).ok_or(ScriptRule::WrongWordCount)?;
    let name = still_attached(attached, word).ok_or(ScriptRule::NoSuchProbe)?;
    Ok(Command::Probe { name })
}

fn detach_command(attached: &Names, words: Option<&[u8]>) -> Result<Command, ScriptRule>
    ensures { result ≡ detach_with attached.now (one (parts_after 32 (option_copied words.entry))) }
{
    let word = one_word(words).ok_or(ScriptRule::WrongWordCount)?;
    let name = still_attached(attached, word).ok_or(ScriptRule::NoSuchProbe)?;
    Ok(Command::Detach { name })
}

/// A command that stands alone on its line.
fn alone(command: Command, words: Option<&[u8]>) -> Result<Command, ScriptRule>
    ensures { result ≡ alone command (parts_after 32 (option_copied words.entry)) }
{
    match words {
        None => Ok(command),
        Some(_) => Err(ScriptRule::WrongWordCount),
    }
}

/// What the words behind the first mean.
#[tactic(auto, unfolding(crate::specs::Commands::by_verb))]
fn by_verb(
    names: &ScriptNames,
    progress: &Progress,
    words: Option<&[u8]>,
    verb: Option<Verb>,
) -> Result<Command, ScriptRule>
    ensures { result ≡ by_verb names.now progress.now (parts_after 32 (option_copied words.entry)) verb }
{
    match verb {
        None => Err(ScriptRule::UnknownCommand),
        Some(Verb::Break) => break_command(names, progress.breaks, words),
        Some(Verb::Step) => step_command(words),
        Some(Verb::Run) => run_command(words),
        Some(Verb::Regs) => regs_command(names, words),
        Some(Verb::Mem) => mem_command(names, words),
        Some(Verb::Links) => alone(Command::Links, words),
        Some(Verb::Where) => alone(Command::Where, words),
        Some(Verb::Probe) => probe_command(&progress.attached, words),
        Some(Verb::Detach) => detach_command(&progress.attached, words),
        Some(Verb::Probes) => alone(Command::Probes, words),
    }
}

/// The command of a line, or the least rule that it breaks; an empty line has none.
#[tactic(auto, unfolding(crate::specs::Scripts::line_read))]
pub fn read_line(
    names: &ScriptNames,
    progress: &Progress,
    line: &[u8],
) -> Result<Option<Command>, ScriptRule>
    ensures { result ≡ line_read names.now progress.now line.now }
{
    if line.is_empty() {
        return Ok(None);
    }
    let (word, words) = cut(b' ', line);
    match by_verb(names, progress, words, Verb::from_word(word)) {
        Ok(command) => Ok(Some(command)),
        Err(rule) => Err(rule),
    }
}
