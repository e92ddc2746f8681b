//! What the process does, but for its streams and files: it hands its words on to the top call, and ends with a number.
ghost use Rattle.std.specs.Prelude.{◌≡◌, [], IfErr, IfOk, OnErr, map, string_bytes};
ghost use Rattle.std.specs.IoError.{error_kind};
ghost use Rattle.std.specs.Process.{exit_status};
ghost use Rattle.command_line.specs.Words.{command_of};
ghost use Rattle.mb_sim.specs.Lines.{told};
ghost use Rattle.mb_sim.specs.Program.{AnswersFrom, AnswersScriptFrom, refusal_of, words_after_name};
ghost use Rattle.mb_sim.specs.Runs.{code_of};
ghost use Rattle.probes.specs.Stock.{stock};
ghost use Rattle.mb_sim.specs.Top.{IsTold};

use crate::status::Status;
use crate::tell::tell;
use crate::top::mbsim;
use host_io::{Shelf, Sink, Source};
use probe_set::ProbeKind;
use probes::{FoldProbe, stock_probes};
use std::alloc::{AllocError, Global};
use std::env::Args;
use std::io::{self, ErrorKind};
use std::process::ExitCode;

/// Does what the arguments of the process say, of which the first is the program's name. Where the system gives no
/// arguments, or there is no memory for the words, nothing is done; the answer is `Usage` or `NoMemory`, and its line is
/// written.
pub fn dispatch_arguments<S: Shelf, C: Source, O: Sink, E: Sink>(
    alloc: Global,
    arguments: io::Result<Args>,
    shelf: &mut S,
    script: &mut C,
    out: &mut O,
    err: &mut E,
) -> Status
    ensures says { IfOk arguments (λ all. AnswersFrom stock (command_of (words_after_name all))
        (S.state shelf.old) (S.state shelf.new) (O.state out.old) (O.state out.new) result) }
    ensures refused { IfErr arguments (λ error. result ≡ refusal_of (error_kind error)) }
    ensures shelf { OnErr arguments (S.state shelf.new ≡ S.state shelf.old) }
    ensures out { OnErr arguments (O.state out.new ≡ O.state out.old) }
    ensures script { IfOk arguments (λ all. AnswersScriptFrom stock (command_of (words_after_name all))
        (S.state shelf.old) (S.state shelf.new) (C.state script.old) (C.state script.new) (O.state out.old) (O.state out.new) result) }
    ensures unread { OnErr arguments (C.state script.new ≡ C.state script.old) }
    ensures line { IsTold (E.state err.old) (E.state err.new) (told result) }
{
    match arguments {
        Ok(arguments) => match texts_after_name(alloc, arguments) {
            Ok(texts) => dispatch_words(alloc, texts.as_slice(), shelf, script, out, err),
            Err(_) => refuse(alloc, err, Status::NoMemory),
        },
        Err(error) => refuse(alloc, err, refusal_of(error.kind())),
    }
}

/// Writes the line of a status, and answers it.
fn refuse<E: Sink>(alloc: Global, err: &mut E, status: Status) -> Status
    ensures status { result ≡ status }
    ensures line { IsTold (E.state err.old) (E.state err.new) (told result) }
{
    tell(alloc, err, &status);
    status
}

/// Does what the words say, for which there may be no memory.
fn dispatch_words<S: Shelf, C: Source, O: Sink, E: Sink>(
    alloc: Global,
    texts: &[String],
    shelf: &mut S,
    script: &mut C,
    out: &mut O,
    err: &mut E,
) -> Status
    ensures says { AnswersFrom stock (command_of (map string_bytes texts.now))
        (S.state shelf.old) (S.state shelf.new) (O.state out.old) (O.state out.new) result }
    ensures script { AnswersScriptFrom stock (command_of (map string_bytes texts.now))
        (S.state shelf.old) (S.state shelf.new) (C.state script.old) (C.state script.new) (O.state out.old) (O.state out.new) result }
    ensures line { IsTold (E.state err.old) (E.state err.new) (told result) }
{
    match words_of(alloc, texts) {
        Ok(words) => dispatch_with_probes(alloc, words.as_slice(), shelf, script, out, err),
        Err(_) => refuse(alloc, err, Status::NoMemory),
    }
}

/// Does what the words say, with the program's four probes, for which there may be no memory.
fn dispatch_with_probes<S: Shelf, C: Source, O: Sink, E: Sink>(
    alloc: Global,
    words: &[&str],
    shelf: &mut S,
    script: &mut C,
    out: &mut O,
    err: &mut E,
) -> Status
    ensures says { AnswersFrom stock (command_of (map (λ word. word.now) words.now))
        (S.state shelf.old) (S.state shelf.new) (O.state out.old) (O.state out.new) result }
    ensures script { AnswersScriptFrom stock (command_of (map (λ word. word.now) words.now))
        (S.state shelf.old) (S.state shelf.new) (C.state script.old) (C.state script.new) (O.state out.old) (O.state out.new) result }
    ensures line { IsTold (E.state err.old) (E.state err.new) (told result) }
{
    let Ok(count) = Box::new(alloc, FoldProbe::new(ProbeKind::Count)) else {
        return refuse(alloc, err, Status::NoMemory);
    };
    let Ok(trace) = Box::new(alloc, FoldProbe::new(ProbeKind::Trace)) else {
        return refuse(alloc, err, Status::NoMemory);
    };
    let Ok(watch) = Box::new(alloc, FoldProbe::new(ProbeKind::Watch)) else {
        return refuse(alloc, err, Status::NoMemory);
    };
    let Ok(cover) = Box::new(alloc, FoldProbe::new(ProbeKind::Cover)) else {
        return refuse(alloc, err, Status::NoMemory);
    };
    let Ok(mut probes) = stock_probes(alloc, count, trace, watch, cover) else {
        return refuse(alloc, err, Status::NoMemory);
    };
    mbsim(alloc, words, shelf, script, out, err, &mut probes)
}

/// All texts but the first.
fn texts_after_name(alloc: Global, arguments: Args) -> Result<Vec<String>, AllocError>
    ensures { IfOk result (λ texts. map string_bytes texts.items ≡ words_after_name arguments) }
{
    let mut rest = arguments;
    let _name = rest.next();
    let mut texts = Vec::new(alloc);
    for text in rest {
        texts.push(text)?;
    }
    Ok(texts)
}

/// The texts as words.
fn words_of(alloc: Global, texts: &[String]) -> Result<Vec<&str>, AllocError>
    ensures { IfOk result (λ words. map (λ word. word.now) words.items ≡ map string_bytes texts.now) }
{
    let mut words = Vec::new(alloc);
    for text in texts.iter() {
        words.push(text.as_str())?;
    }
    Ok(words)
}

/// The answer where the system gives no arguments.
fn refusal_of(kind: ErrorKind) -> Status
    ensures { result ≡ refusal_of kind }
{
    if kind == ErrorKind::OutOfMemory {
        Status::NoMemory
    } else {
        Status::Usage
    }
}

/// The number of a status, with which the process ends.
pub fn exit_code(status: &Status) -> ExitCode
    ensures { exit_status result ≡ code_of status.now }
{
    ExitCode::from(status.code())
}
