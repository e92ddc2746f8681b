//! Names of a board and a set, and scripts at their limit, from a source that fails, and with a fault.
ghost use Rattle.std.specs.Prelude.{◌≡◌};
ghost use Rattle.probe_set.specs.Folds.{begun};

use crate::{ScriptRefusal, load_script, script_names};
use board_file::read_board;
use debug_script::{Names, Script, ScriptNames};
use elf_image::{Symbol, Symbols};
use host_io::{Blob, Failing, MemSource, Name, Source, SureSource};
use probe_set::{Probe, ProbeKind, ProbeSet, ProbeState};
use run_journal::Entry;
use std::alloc::Global;
use std::test::Fail;

/// The cores in another order than that of their names, two links, and a UART.
const BOARD: &str = "version = 1
core.b = {image = 'i', pipeline = 'plain'}
core.a = {image = 'i', pipeline = 'five'}
link.y = {from = 'b', from_port = 0, to = 'a', to_port = 0}
link.x = {from = 'a', from_port = 0, to = 'b', to_port = 0}
uart.u = {core = 'a', base = 65536, output = 'o'}
";

/// A probe that counts.
#[derive(Drop)]
struct Counting {
    state: ProbeState,
}

impl Counting {
    fn new() -> Counting
        ensures { result.state ≡ begun ProbeKind.Count }
    {
        Counting {
            state: ProbeState::begun(ProbeKind::Count),
        }
    }
}

impl Probe for Counting {
    ghost state_of = { λ p. p.state };

    fn kind(&self) -> ProbeKind {
        self.state.kind
    }

    fn state(&self) -> ProbeState {
        self.state.copied()
    }

    fn on(&mut self, e: &Entry) -> bool {
        self.state.tell(e)
    }
}

/// A list of the symbol `main`, and an empty one.
fn symbols(alloc: Global) -> Result<Vec<Symbols>, Fail> {
    let mut list = Vec::new(alloc);
    list.push(Symbol {
        name: Blob::from_vec(Vec::from_slice(alloc, b"main")?),
        value: 0x50,
    })?;
    let mut lists = Vec::new(alloc);
    lists.push(Symbols::from_vec(list))?;
    lists.push(Symbols::from_vec(Vec::new(alloc)))?;
    Ok(lists)
}

/// The names of the board with probes of these names.
fn names_with(alloc: Global, probes: &[&str]) -> Result<ScriptNames, Fail> {
    let board = read_board(alloc, BOARD.as_bytes()).ok().ok_or("board")?;
    let mut set = ProbeSet::new();
    for name in probes {
        let name = Name::from_text(name).ok_or("a name")?;
        let probe = Box::new(alloc, Counting::new())?;
        set.attach(alloc, name, probe).ok().ok_or("attached")?;
    }
    let names = script_names(alloc, &board, symbols(alloc)?, &set);
    Ok(names.ok().ok_or("names")?)
}

fn are(names: &Names, texts: &[&str]) -> bool {
    names.len() == texts.len()
        && names
            .as_slice()
            .iter()
            .zip(texts)
            .all(|(name, text)| name.as_bytes() == text.as_bytes())
}

#[test]
fn names_stand_in_board_order_and_in_order_of_attachment(rt: HostRuntime) -> Result<(), Fail> {
    let names = names_with(rt.alloc(), &["watch", "count", "all"])?;
    assert!(rt; are(&names.cores, &["a", "b"]));
    assert!(rt; are(&names.links, &["x", "y"]));
    assert!(rt; are(&names.uarts, &["u"]));
    assert!(rt; are(&names.probes, &["watch", "count", "all"]));
    assert_eq!(rt; names.symbols.len(), 2);
    let first = names.symbols.get(0).ok_or("a list")?;
    assert_eq!(rt; first.len(), 1);
    let none = names_with(rt.alloc(), &[])?;
    assert_eq!(rt; none.probes.len(), 0);
    Ok(())
}

/// Loads a script in which the calls of these numbers fail.
fn load(
    alloc: Global,
    text: &[u8],
    failing: &[u64],
) -> Result<Result<Script, ScriptRefusal>, Fail> {
    let names = names_with(alloc, &["count"])?;
    let mut calls = Vec::new(alloc);
    for call in failing {
        calls.push(Failing {
            call: *call,
            moved: 0,
        })?;
    }
    let mut source = MemSource::new(Vec::from_slice(alloc, text)?, calls);
    Ok(load_script(alloc, &mut source, &names))
}

/// Scripts with a fault: the code, and the line.
const REFUSED: [(&str, u16, u32); 5] = [
    ("step 1\nstop\nstep", 1201, 2),
    ("step 1\n\nregs a\nregs c\nstop\n", 1203, 4),
    ("break a main\nbreak b main\n", 1204, 2),
    ("probe count\ndrop count\nprobe count", 1205, 3),
    ("list\nprobe watch", 1205, 2),
];

#[test]
fn the_first_line_with_a_fault_is_told(rt: HostRuntime) -> Result<(), Fail> {
    for (text, code, line) in REFUSED {
        let refusal = load(rt.alloc(), text.as_bytes(), &[])?.err().ok_or("read")?;
        assert_eq!(rt; refusal, ScriptRefusal::Refused { code, line }, "{text}");
    }
    Ok(())
}

#[test]
fn a_script_that_is_read(rt: HostRuntime) -> Result<(), Fail> {
    let text = b"break a main\nrun 10\nregs a\n\nprobe count\ndrop count";
    let script = load(rt.alloc(), text, &[])?.ok().ok_or("refused")?;
    assert_eq!(rt; script.len(), 5);
    Ok(())
}

#[test]
fn a_read_that_fails(rt: HostRuntime) -> Result<(), Fail> {
    for call in [0, 1] {
        let refusal = load(rt.alloc(), b"stop", &[call])?.err().ok_or("read")?;
        assert_eq!(rt; refusal, ScriptRefusal::CannotRead);
    }
    let refusal = load(rt.alloc(), b"stop", &[2])?.err().ok_or("read")?;
    assert_eq!(rt;
        refusal,
        ScriptRefusal::Refused {
            code: 1201,
            line: 1
        }
    );
    Ok(())
}

#[test]
fn a_script_has_at_most_1048576_bytes(rt: HostRuntime) -> Result<(), Fail> {
    let names = names_with(rt.alloc(), &[])?;
    let mut whole = SureSource::new(vec![in rt.alloc(); b'\n'; 1_048_576]?);
    let script = load_script(rt.alloc(), &mut whole, &names)
        .ok()
        .ok_or("refused")?;
    assert_eq!(rt; script.len(), 0);
    assert_eq!(rt; whole.read(&mut [0; 1]).ok(), Some(0));
    let mut longer = SureSource::new(vec![in rt.alloc(); b'\n'; 1_048_578]?);
    let refusal = load_script(rt.alloc(), &mut longer, &names)
        .err()
        .ok_or("read")?;
    assert_eq!(rt; refusal, ScriptRefusal::TooLong);
    assert_eq!(rt; longer.read(&mut [0; 2]).ok(), Some(1));
    Ok(())
}
