//! The top call: all that the program does.
ghost use Rattle.std.specs.Prelude.{◌≡◌, ◌+◌, ◌<◌, ◌≤◌, Bool, None, Option, Some, List, ℕ, map, length};
ghost use Rattle.host_io.specs.Outside.{Rose};
ghost use Rattle.command_line.specs.Words.{command_of};
ghost use Rattle.command_line.specs.declared.command.Command.TheVariants.{Asm as AsmOf, Debug as DebugOf, Demo as DemoOf, Dis as DisOf, Profile as ProfileOf, Raw as RawWords, Run as RunOf};
ghost use Rattle.mb_sim.specs.Lines.{told};
ghost use Rattle.mb_sim.specs.ToolStatus.{AsmIsExact, DisIsExact};
ghost use Rattle.mb_sim.specs.Top.{Answers, AnswersScript, CountsLoads, CountsWrites, HasRun, IsAnswer, IsFair, IsFairRun, IsFairScript, IsTold};
ghost use Rattle.mb_sim.specs.Probes.{AreYoung};
ghost use Rattle.debug_job.specs.Loading.{script_limit};
ghost use Rattle.host_io.specs.Streams.{TakesAtMost};
ghost use Rattle.probe_set.specs.Sets.{items_of, named};

use crate::debug::debug;
use crate::profile::profile;
use crate::raw::raw;
use crate::ring::show_ring;
use crate::run::{RunWords, run};
use crate::status::Status;
use crate::tell::tell;
use crate::tools::{assemble, disassemble};
use command_line::{Command, WordsFault, read_words};
use host_io::{Shelf, Sink, Source};
use probe_set::ProbeSet;
use std::alloc::Global;

/// Does what the words say, writes the line of its answer to `err`, and answers how it went. The words are those after
/// the program's name.
pub fn mbsim<S: Shelf, C: Source, O: Sink, E: Sink>(
    alloc: Global,
    words: &[&str],
    shelf: &mut S,
    script: &mut C,
    out: &mut O,
    err: &mut E,
    probes: &mut ProbeSet,
) -> Status
    requires young { AreYoung (map (λ a. named a.name (state_of (a.probe.vtable, a.probe.value))) (items_of probes.old.probes)) }
    ensures usage { command_of (map (λ word. word.now) words.now) ≡ None → IsAnswer Status.Usage result }
    ensures says { Answers (command_of (map (λ word. word.now) words.now))
        (S.state shelf.old) (S.state shelf.new) (O.state out.old) (O.state out.new)
        (map (λ a. named a.name (state_of (a.probe.vtable, a.probe.value))) (items_of probes.old.probes))
        (map (λ a. named a.name (state_of (a.probe.vtable, a.probe.value))) (items_of probes.new.probes)) result }
    ensures loads { CountsLoads (S.state shelf.old).faults.load_faults (S.state shelf.new).faults.load_faults result }
    ensures writes { CountsWrites (O.state out.old).faults (O.state out.new).faults result }
    ensures shelf_writes { CountsWrites (S.state shelf.old).faults.write_faults (S.state shelf.new).faults.write_faults result }
    ensures script { AnswersScript (command_of (map (λ word. word.now) words.now))
        (S.state shelf.old) (S.state shelf.new) (C.state script.old) (C.state script.new) (O.state out.old) (O.state out.new)
        (map (λ a. named a.name (state_of (a.probe.vtable, a.probe.value))) (items_of probes.old.probes))
        (map (λ a. named a.name (state_of (a.probe.vtable, a.probe.value))) (items_of probes.new.probes)) result }
    ensures reads { CountsLoads (C.state script.old).faults (C.state script.new).faults result }
    ensures taken { TakesAtMost (script_limit + 1) (C.state script.old).left (C.state script.new).left }
    ensures line { IsTold (E.state err.old) (E.state err.new) (told result) }
    // where no fault was counted, a file within the limit is run
    ensures complete { (file image : List ℕ) (cycles : ℕ)
        → command_of (map (λ word. word.now) words.now) ≡ Some (RawWords file cycles)
        → IsFair file image (S.state shelf.old) (S.state shelf.new) (O.state out.old) (O.state out.new)
        → length image ≤ 65_536 → HasRun result }
    ensures too_long { (file image : List ℕ) (cycles : ℕ)
        → command_of (map (λ word. word.now) words.now) ≡ Some (RawWords file cycles)
        → IsFair file image (S.state shelf.old) (S.state shelf.new) (O.state out.old) (O.state out.new)
        → 65_536 < length image → IsAnswer (Status.TooLong file) result }
    // where no fault was counted, a board whose files pass their tests and limits is run
    ensures complete_run { (file : List ℕ) (cycles entries : ℕ) (journal : Option (List ℕ))
        → command_of (map (λ word. word.now) words.now) ≡ Some (RunOf file cycles entries journal)
        → IsFairRun file journal (S.state shelf.old) (S.state shelf.new) (O.state out.old) (O.state out.new)
        → HasRun result }
    // where no fault was counted, a source and an image within their limits are done, or refused for their first fault
    ensures complete_asm { (source output : List ℕ) (is_little : Bool)
        → command_of (map (λ word. word.now) words.now) ≡ Some (AsmOf source output is_little)
        → AsmIsExact source is_little (S.state shelf.old) (S.state shelf.new) result }
    ensures complete_dis { (image : List ℕ)
        → command_of (map (λ word. word.now) words.now) ≡ Some (DisOf image)
        → DisIsExact image (S.state shelf.old) (S.state shelf.new) (O.state out.old) (O.state out.new) result }
    // and by `profile` too
    ensures complete_profile { (file : List ℕ) (cycles entries : ℕ)
        → command_of (map (λ word. word.now) words.now) ≡ Some (ProfileOf file cycles entries)
        → IsFairRun file None (S.state shelf.old) (S.state shelf.new) (O.state out.old) (O.state out.new)
        → HasRun result }
    // where no fault was counted, and the script has none, `debug` does it to its end
    ensures complete_debug { (file : List ℕ) (cycles entries : ℕ)
        → command_of (map (λ word. word.now) words.now) ≡ Some (DebugOf file cycles entries)
        → IsFairRun file None (S.state shelf.old) (S.state shelf.new) (O.state out.old) (O.state out.new)
        → IsFairScript file (S.state shelf.old).files (C.state script.old) (C.state script.new)
        (map (λ a. named a.name (state_of (a.probe.vtable, a.probe.value))) (items_of probes.old.probes))
        → IsAnswer Status.Ended result }
    // where no fault was counted, a ring is run in each order
    ensures complete_demo { (number : ℕ)
        → command_of (map (λ word. word.now) words.now) ≡ Some (DemoOf number)
        → ¬ Rose (O.state out.old).faults (O.state out.new).faults → HasRun result }
{
    let status = dispatch(alloc, words, shelf, script, out, probes);
    tell(alloc, err, &status);
    status
}

/// Does what the words say.
#[tactic(auto, using(crate::proofs::Debugging::takes_none))]
fn dispatch<S: Shelf, C: Source, O: Sink>(
    alloc: Global,
    words: &[&str],
    shelf: &mut S,
    script: &mut C,
    out: &mut O,
    probes: &mut ProbeSet,
) -> Status
    requires young { AreYoung (map (λ a. named a.name (state_of (a.probe.vtable, a.probe.value))) (items_of probes.old.probes)) }
    ensures usage { command_of (map (λ word. word.now) words.now) ≡ None → IsAnswer Status.Usage result }
    ensures says { Answers (command_of (map (λ word. word.now) words.now))
        (S.state shelf.old) (S.state shelf.new) (O.state out.old) (O.state out.new)
        (map (λ a. named a.name (state_of (a.probe.vtable, a.probe.value))) (items_of probes.old.probes))
        (map (λ a. named a.name (state_of (a.probe.vtable, a.probe.value))) (items_of probes.new.probes)) result }
    ensures script { AnswersScript (command_of (map (λ word. word.now) words.now))
        (S.state shelf.old) (S.state shelf.new) (C.state script.old) (C.state script.new) (O.state out.old) (O.state out.new)
        (map (λ a. named a.name (state_of (a.probe.vtable, a.probe.value))) (items_of probes.old.probes))
        (map (λ a. named a.name (state_of (a.probe.vtable, a.probe.value))) (items_of probes.new.probes)) result }
    ensures reads { CountsLoads (C.state script.old).faults (C.state script.new).faults result }
    ensures taken { TakesAtMost (script_limit + 1) (C.state script.old).left (C.state script.new).left }
    ensures loads { CountsLoads (S.state shelf.old).faults.load_faults (S.state shelf.new).faults.load_faults result }
    ensures writes { CountsWrites (O.state out.old).faults (O.state out.new).faults result }
    ensures shelf_writes { CountsWrites (S.state shelf.old).faults.write_faults (S.state shelf.new).faults.write_faults result }
{
    match read_words(alloc, words) {
        Ok(Command::Raw { file, cycles }) => raw(alloc, &file, cycles, shelf, out, probes),
        Ok(
            Command::Run {
                board,
                cycles,
                journal,
                write_journal,
            },
        ) => run(
            alloc,
            &RunWords {
                file: board,
                cycles,
                entries: journal,
                journal: write_journal,
            },
            shelf,
            out,
            probes,
        ),
        Ok(
            Command::Asm {
                source,
                output,
                is_little,
            },
        ) => assemble(alloc, &source, &output, is_little, shelf),
        Ok(Command::Dis { image }) => disassemble(alloc, &image, shelf, out),
        Ok(Command::Demo { number }) => show_ring(alloc, number, out),
        Ok(
            Command::Profile {
                board,
                cycles,
                journal,
            },
        ) => profile(
            alloc,
            &RunWords {
                file: board,
                cycles,
                entries: journal,
                journal: None,
            },
            shelf,
            out,
            probes,
        ),
        Ok(
            Command::Debug {
                board,
                cycles,
                journal,
            },
        ) => debug(
            alloc,
            &RunWords {
                file: board,
                cycles,
                entries: journal,
                journal: None,
            },
            shelf,
            script,
            out,
            probes,
        ),
        Err(WordsFault::Usage) => Status::Usage,
        Err(WordsFault::NoMemory) => Status::NoMemory,
    }
}
