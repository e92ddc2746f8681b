ghost use Rattle.std.specs.Prelude.{◌≡◌, ◌∷◌, ◌++◌, [], None, Some, drop, if◌then◌else◌, map, option_map, option_to_list};
ghost use Rattle.command_line.specs.Words;
ghost use Rattle.command_line.specs.Words.{Answers, asm_form, asm_with, at_most_once, board_form, board_with, command_of, demo_form, demo_with, dis_form, dis_with, meant, most_cycles, most_entries, raised_value, raw_form, raw_with, run_form, run_with};

use crate::command::{BoardCommand, Command, WordsFault};
use crate::number::number_in;
use crate::split::{
    AsmWords, BoardWords, DemoWords, DisWords, RawWords, RunWords, split_asm, split_board,
    split_demo, split_dis, split_raw, split_run,
};
use host_io::FileName;
use std::alloc::Global;

const MOST_CYCLES: u64 = 1_000_000_000_000;

const MOST_ENTRIES: u64 = 33_554_432;

const MOST_NUMBER: u64 = 999_999;

const DEFAULT_CYCLES: u64 = 10_000_000;

const DEFAULT_ENTRIES: u32 = 1_048_576;

/// Reads the words after the program's name. `Usage` comes exactly where they mean no command, and `NoMemory` only
/// for want of memory.
#[tactic(auto, unfolding(crate::specs::Words::command_of))]
pub fn read_words(alloc: Global, words: &[&str]) -> Result<Command, WordsFault>
    ensures { Answers (command_of (map (λ word. word.now) words.now)) result }
{
    match words {
        [command, ..] if *command == "raw" => read_raw(alloc, words),
        [command, ..] if *command == "run" => read_run(alloc, words),
        [command, ..] if *command == "asm" => read_asm(alloc, words),
        [command, ..] if *command == "dis" => read_dis(alloc, words),
        [command, ..] if *command == "demo" => read_demo(alloc, words),
        [command, ..] if *command == "profile" => read_board(alloc, words, BoardCommand::Profile),
        [command, ..] if *command == "debug" => read_board(alloc, words, BoardCommand::Debug),
        _ => Err(WordsFault::Usage),
    }
}

/// Reads the words of `raw`, the first of which is the command.
fn read_raw<'a>(alloc: Global, words: &'a [&'a str]) -> Result<Command, WordsFault>
    ensures { Answers (meant raw_form (drop 1 (map (λ word. word.now) words.now))) result }
{
    let split = split_raw(alloc, words)?;
    raw(split).ok_or(WordsFault::Usage)
}

/// Reads the words of `run`, the first of which is the command.
fn read_run<'a>(alloc: Global, words: &'a [&'a str]) -> Result<Command, WordsFault>
    ensures { Answers (meant run_form (drop 1 (map (λ word. word.now) words.now))) result }
{
    let split = split_run(alloc, words)?;
    run(split).ok_or(WordsFault::Usage)
}

/// Reads the words of `asm`, the first of which is the command.
fn read_asm<'a>(alloc: Global, words: &'a [&'a str]) -> Result<Command, WordsFault>
    ensures { Answers (meant asm_form (drop 1 (map (λ word. word.now) words.now))) result }
{
    let split = split_asm(alloc, words)?;
    asm(split).ok_or(WordsFault::Usage)
}

/// Reads the words of `dis`, the first of which is the command.
fn read_dis<'a>(alloc: Global, words: &'a [&'a str]) -> Result<Command, WordsFault>
    ensures { Answers (meant dis_form (drop 1 (map (λ word. word.now) words.now))) result }
{
    let split = split_dis(alloc, words)?;
    dis(split).ok_or(WordsFault::Usage)
}

/// Reads the words of `demo`, the first of which is the command.
fn read_demo<'a>(alloc: Global, words: &'a [&'a str]) -> Result<Command, WordsFault>
    ensures { Answers (meant demo_form (drop 1 (map (λ word. word.now) words.now))) result }
{
    let split = split_demo(alloc, words)?;
    demo(split).ok_or(WordsFault::Usage)
}

/// Reads the words of `profile` or `debug`, the first of which is the command.
fn read_board<'a>(
    alloc: Global,
    words: &'a [&'a str],
    kind: BoardCommand,
) -> Result<Command, WordsFault>
    ensures { Answers (meant (board_form kind) (drop 1 (map (λ word. word.now) words.now))) result }
{
    let split = split_board(alloc, words)?;
    on_board(kind, split).ok_or(WordsFault::Usage)
}

fn raw(split: RawWords) -> Option<Command>
    ensures { result ≡ raw_with (option_to_list (option_map (λ w. w.now) split.entry.file) ++ option_to_list (option_map (λ w. w.now) split.entry.cycles)) }
{
    let file = file_in(split.file?)?;
    let cycles = number_in(MOST_CYCLES, split.cycles?)?;
    Some(Command::Raw { file, cycles })
}

fn run(split: RunWords) -> Option<Command>
    ensures { result ≡ run_with (option_to_list (option_map (λ w. w.now) split.entry.board)) (option_to_list (option_map (λ w. w.now) split.entry.cycles)) (option_to_list (option_map (λ w. w.now) split.entry.journal)) (option_to_list (option_map (λ w. w.now) split.entry.write_journal)) }
{
    let board = file_in(split.board?)?;
    let cycles = cycles_in(split.cycles)?;
    let journal = entries_in(split.journal)?;
    let write_journal = journal_file(split.write_journal)?;
    Some(Command::Run {
        board,
        cycles,
        journal,
        write_journal,
    })
}

fn asm(split: AsmWords) -> Option<Command>
    ensures { result ≡ asm_with (option_to_list (option_map (λ w. w.now) split.entry.source) ++ option_to_list (option_map (λ w. w.now) split.entry.output)) (if split.entry.is_little then raised_value ∷ [] else []) }
{
    let source = file_in(split.source?)?;
    let output = file_in(split.output?)?;
    Some(Command::Asm {
        source,
        output,
        is_little: split.is_little,
    })
}

fn dis(split: DisWords) -> Option<Command>
    ensures { result ≡ dis_with (option_to_list (option_map (λ w. w.now) split.entry.image)) }
{
    let image = file_in(split.image?)?;
    Some(Command::Dis { image })
}

fn demo(split: DemoWords) -> Option<Command>
    ensures { result ≡ demo_with (option_to_list (option_map (λ w. w.now) split.entry.number)) }
{
    let number = number_in(MOST_NUMBER, split.number?)? as u32;
    Some(Command::Demo { number })
}

fn on_board(kind: BoardCommand, split: BoardWords) -> Option<Command>
    ensures { result ≡ board_with kind (option_to_list (option_map (λ w. w.now) split.entry.board)) (option_to_list (option_map (λ w. w.now) split.entry.cycles)) (option_to_list (option_map (λ w. w.now) split.entry.journal)) }
{
    let board = file_in(split.board?)?;
    let cycles = cycles_in(split.cycles)?;
    let journal = entries_in(split.journal)?;
    Some(made(kind, board, cycles, journal))
}

/// The command of a board with these values.
fn made(kind: BoardCommand, board: FileName, cycles: u64, journal: u32) -> Command
    ensures { result ≡ Words.made kind board cycles journal }
{
    match kind {
        BoardCommand::Profile => Command::Profile {
            board,
            cycles,
            journal,
        },
        BoardCommand::Debug => Command::Debug {
            board,
            cycles,
            journal,
        },
    }
}

/// The name of a file.
#[tactic(auto, unfolding(crate::specs::Words::file_in))]
fn file_in(text: &str) -> Option<FileName>
    ensures { result ≡ Words.file_in text.now }
{
    FileName::from_text(text)
}

/// The limit of cycles.
fn cycles_in(text: Option<&str>) -> Option<u64>
    ensures { result ≡ at_most_once 10_000_000 (Words.number_in most_cycles) (option_to_list (option_map (λ w. w.now) text.entry)) }
{
    match text {
        Some(text) => number_in(MOST_CYCLES, text),
        None => Some(DEFAULT_CYCLES),
    }
}

/// The room for journal entries.
fn entries_in(text: Option<&str>) -> Option<u32>
    ensures { result ≡ at_most_once 1_048_576 (Words.number_in most_entries) (option_to_list (option_map (λ w. w.now) text.entry)) }
{
    match text {
        Some(text) => Some(number_in(MOST_ENTRIES, text)? as u32),
        None => Some(DEFAULT_ENTRIES),
    }
}

/// The file for the journal, where one is named.
fn journal_file(text: Option<&str>) -> Option<Option<FileName>>
    ensures { result ≡ at_most_once None (λ text. option_map Some (Words.file_in text)) (option_to_list (option_map (λ w. w.now) text.entry)) }
{
    match text {
        Some(text) => Some(Some(file_in(text)?)),
        None => Some(None),
    }
}
