use super::*;
use std::test::Fail;

/// What the answer to some words says.
#[derive(Clone, Copy, Debug, PartialEq, Eq)]
enum Said<'a> {
    Raw(&'a str, u64),
    Run(&'a str, u64, u32, Option<&'a str>),
    Asm(&'a str, &'a str, bool),
    Dis(&'a str),
    Demo(u32),
    Profile(&'a str, u64, u32),
    Debug(&'a str, u64, u32),
    Fault(WordsFault),
}

fn answered(answer: &Result<Command, WordsFault>) -> Said<'_> {
    match answer {
        Ok(Command::Raw { file, cycles }) => Said::Raw(file.as_text(), *cycles),
        Ok(
            Command::Run {
                board,
                cycles,
                journal,
                write_journal: Some(file),
            },
        ) => Said::Run(board.as_text(), *cycles, *journal, Some(file.as_text())),
        Ok(
            Command::Run {
                board,
                cycles,
                journal,
                write_journal: None,
            },
        ) => Said::Run(board.as_text(), *cycles, *journal, None),
        Ok(
            Command::Asm {
                source,
                output,
                is_little,
            },
        ) => Said::Asm(source.as_text(), output.as_text(), *is_little),
        Ok(Command::Dis { image }) => Said::Dis(image.as_text()),
        Ok(Command::Demo { number }) => Said::Demo(*number),
        Ok(
            Command::Profile {
                board,
                cycles,
                journal,
            },
        ) => Said::Profile(board.as_text(), *cycles, *journal),
        Ok(
            Command::Debug {
                board,
                cycles,
                journal,
            },
        ) => Said::Debug(board.as_text(), *cycles, *journal),
        Err(fault) => Said::Fault(*fault),
    }
}

#[test]
fn words_mean_commands(rt: HostRuntime) -> Result<(), Fail> {
    let rows: [(&[&str], Said); 21] = [
        (&["raw", "image", "007"], Said::Raw("image", 7)),
        (
            &["raw", "--", "a/b", "1000000000000"],
            Said::Raw("a/b", 1_000_000_000_000),
        ),
        (&["raw", "x", "0000000000000000001"], Said::Raw("x", 1)),
        (&["run", "b"], Said::Run("b", 10_000_000, 1_048_576, None)),
        (
            &["run", "--", "b"],
            Said::Run("b", 10_000_000, 1_048_576, None),
        ),
        (
            &["run", "--cycles", "5", "b"],
            Said::Run("b", 5, 1_048_576, None),
        ),
        (
            &["run", "b", "--journal=0"],
            Said::Run("b", 10_000_000, 0, None),
        ),
        (
            &["run", "b", "--journal", "33554432"],
            Said::Run("b", 10_000_000, 33_554_432, None),
        ),
        (
            &["run", "b", "--write-journal", "out"],
            Said::Run("b", 10_000_000, 1_048_576, Some("out")),
        ),
        (
            &["run", "run", "--cycles=0"],
            Said::Run("run", 0, 1_048_576, None),
        ),
        (&["asm", "a.s", "a.elf"], Said::Asm("a.s", "a.elf", false)),
        (&["asm", "--little", "a", "b"], Said::Asm("a", "b", true)),
        (&["asm", "a", "--little", "b"], Said::Asm("a", "b", true)),
        (
            &["asm", "a", "b", "--little", "--"],
            Said::Asm("a", "b", true),
        ),
        (&["dis", "a.elf"], Said::Dis("a.elf")),
        (&["dis", "--", "dis"], Said::Dis("dis")),
        (&["demo", "007"], Said::Demo(7)),
        (&["demo", "--", "999999"], Said::Demo(999_999)),
        (&["profile", "b"], Said::Profile("b", 10_000_000, 1_048_576)),
        (
            &["profile", "--cycles=5", "b", "--journal", "33554432"],
            Said::Profile("b", 5, 33_554_432),
        ),
        (
            &["profile", "--", "b"],
            Said::Profile("b", 10_000_000, 1_048_576),
        ),
    ];
    for (words, wanted) in rows {
        let answer = read_words(rt.alloc(), words);
        assert_eq!(rt; answered(&answer), wanted, "{words:?}");
    }
    Ok(())
}

#[test]
fn other_words_are_refused(rt: HostRuntime) -> Result<(), Fail> {
    let rows: [&[&str]; 45] = [
        &[],
        &["asm"],
        &["asm", "a"],
        &["asm", "a", "b", "c"],
        &["asm", "a", "b", "--little=true"],
        &["asm", "a", "b", "--little="],
        &["asm", "--little", "a", "b", "--little"],
        &["asm", "a", "--", "--little"],
        &["asm", "a", "b", "--", "--little"],
        &["asm", "a", "b", "--big"],
        &["asm", "a", "b", "-little"],
        &["dis"],
        &["dis", "a", "b"],
        &["dis", "a", "--little"],
        &["dis", "--help"],
        &["--help"],
        &["--", "run", "b"],
        &["raw", "x"],
        &["raw", "x", "-1"],
        &["raw", "x", "+1"],
        &["raw", "x", "1", "2"],
        &["raw", "x", "00000000000000000001"],
        &["run"],
        &["run", "-"],
        &["run", "--help"],
        &["run", "b", "c"],
        &["run", "b", "--", "--cycles"],
        &["run", "b", "--cycles"],
        &["run", "b", "--cycles="],
        &["run", "b", "--cycles", "--"],
        &["run", "b", "--cycle=5"],
        &["run", "b", "--cycles=5", "--cycles", "5"],
        &["run", "b", "--cycles", "1000000000001"],
        &["run", "b", "--journal", "33554433"],
        &["run", "b", "--write-journal=-x"],
        &["demo"],
        &["demo", "-"],
        &["demo", "1", "2"],
        &["demo", "1000000"],
        &["demo", "1", "--cycles=5"],
        &["profile"],
        &["profile", "b", "c"],
        &["profile", "b", "--write-journal", "out"],
        &["profile", "b", "--cycles", "1000000000001"],
        &["profile", "b", "--journal=5", "--journal=5"],
    ];
    for words in rows {
        let answer = read_words(rt.alloc(), words);
        assert_eq!(rt;
            answered(&answer),
            Said::Fault(WordsFault::Usage),
            "{words:?}"
        );
    }
    Ok(())
}

#[test]
fn debug_takes_a_board_and_its_limits(rt: HostRuntime) -> Result<(), Fail> {
    let rows: [(&[&str], Said); 12] = [
        (&["debug", "b"], Said::Debug("b", 10_000_000, 1_048_576)),
        (
            &["debug", "debug"],
            Said::Debug("debug", 10_000_000, 1_048_576),
        ),
        (
            &["debug", "b", "--"],
            Said::Debug("b", 10_000_000, 1_048_576),
        ),
        (
            &["debug", "--", "a/b.toml"],
            Said::Debug("a/b.toml", 10_000_000, 1_048_576),
        ),
        (
            &["debug", "--cycles=7", "b"],
            Said::Debug("b", 7, 1_048_576),
        ),
        (
            &["debug", "b", "--cycles", "007"],
            Said::Debug("b", 7, 1_048_576),
        ),
        (
            &["debug", "--cycles=0", "b", "--journal", "0"],
            Said::Debug("b", 0, 0),
        ),
        (
            &["debug", "--journal=7", "--", "b"],
            Said::Debug("b", 10_000_000, 7),
        ),
        (
            &["debug", "--journal", "7", "--cycles", "8", "b"],
            Said::Debug("b", 8, 7),
        ),
        (
            &["debug", "b", "--cycles=1000000000000"],
            Said::Debug("b", 1_000_000_000_000, 1_048_576),
        ),
        (
            &["debug", "b", "--journal=33554432"],
            Said::Debug("b", 10_000_000, 33_554_432),
        ),
        (
            &["debug", "b", "--cycles", "0000000000000000007"],
            Said::Debug("b", 7, 1_048_576),
        ),
    ];
    for (words, wanted) in rows {
        let answer = read_words(rt.alloc(), words);
        assert_eq!(rt; answered(&answer), wanted, "{words:?}");
    }
    Ok(())
}

#[test]
fn debug_refuses_other_words(rt: HostRuntime) -> Result<(), Fail> {
    let rows: [&[&str]; 37] = [
        &["debug"],
        &["debug", "--"],
        &["debug", "--cycles=7"],
        &["debug", "--cycles", "b"],
        &["debug", "b", "c"],
        &["debug", "b", "--", "c"],
        &["debug", "--", "b", "c"],
        &["debug", "-"],
        &["debug", "b", "-"],
        &["debug", "--", "-"],
        &["debug", "--", "--cycles=7"],
        &["debug", "b", "--", "--cycles", "7"],
        &["debug", "a b"],
        &["debug", ""],
        &["debug", "b", "--cycles"],
        &["debug", "b", "--cycles="],
        &["debug", "b", "--cycles", "--"],
        &["debug", "b", "--cycles", "-7"],
        &["debug", "b", "--cycles=+7"],
        &["debug", "b", "--cycles=7x"],
        &["debug", "b", "--cycles=7", "--cycles=7"],
        &["debug", "--cycles", "7", "b", "--cycles=8"],
        &["debug", "b", "--journal", "7", "--journal", "7"],
        &["debug", "b", "--cycles=1000000000001"],
        &["debug", "b", "--cycles", "00000000000000000007"],
        &["debug", "b", "--cycles=9999999999999999999"],
        &["debug", "b", "--journal", "33554433"],
        &["debug", "b", "--journal=00000000000000000007"],
        &["debug", "b", "--journal="],
        &["debug", "b", "--write-journal", "out"],
        &["debug", "b", "--write-journal=out"],
        &["debug", "b", "--little"],
        &["debug", "b", "--cycle=7"],
        &["debug", "b", "-cycles=7"],
        &["debug", "--help"],
        &["debug", "-h"],
        &["debugger", "b"],
    ];
    for words in rows {
        let answer = read_words(rt.alloc(), words);
        assert_eq!(rt;
            answered(&answer),
            Said::Fault(WordsFault::Usage),
            "{words:?}"
        );
    }
    Ok(())
}
