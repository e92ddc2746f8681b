//! Scripts from the words of the manual: each command with too few and too many words, each fault, and numbers at limits.

use super::*;
use elf_image::{Symbol, Symbols};
use host_io::{Blob, Name};
use std::alloc::Global;
use std::test::Fail;

fn names_of(alloc: Global, texts: &[&str]) -> Result<Names, Fail> {
    let mut names = Vec::new(alloc);
    for text in texts {
        names.push(Name::from_text(text).ok_or("a name")?)?;
    }
    Ok(Names::from_vec(names))
}

fn symbols_of(alloc: Global, pairs: &[(&str, u32)]) -> Result<Symbols, Fail> {
    let mut symbols = Vec::new(alloc);
    for (name, value) in pairs {
        let name = Blob::from_vec(Vec::from_slice(alloc, name.as_bytes())?);
        symbols.push(Symbol {
            name,
            value: *value,
        })?;
    }
    Ok(Symbols::from_vec(symbols))
}

/// A board with the cores `a` and `b`, of which `a` has the symbol `main` twice, and two probes.
fn board(alloc: Global) -> Result<ScriptNames, Fail> {
    let mut lists = Vec::new(alloc);
    lists.push(symbols_of(alloc, &[("", 0), ("main", 0x50), ("main", 0x60)])?)?;
    lists.push(symbols_of(alloc, &[("loop", 0x40)])?)?;
    Ok(ScriptNames {
        cores: names_of(alloc, &["a", "b"])?,
        links: names_of(alloc, &["x"])?,
        uarts: names_of(alloc, &[])?,
        probes: names_of(alloc, &["count", "watch"])?,
        symbols: SymbolLists::from_vec(lists),
    })
}

/// Scripts that are refused: the code and the line.
const REFUSED: [(&str, u16, u32); 54] = [
    ("step", 1202, 1),
    ("regs z", 1203, 1),
    ("run x", 1204, 1),
    ("stop", 1201, 1),
    ("Step 1", 1201, 1),
    (" step 1", 1201, 1),
    ("step\t1", 1201, 1),
    ("step 1\r", 1204, 1),
    ("step 1 ", 1202, 1),
    ("step  1", 1202, 1),
    ("step 1 2", 1202, 1),
    ("run", 1202, 1),
    ("run 1 2", 1202, 1),
    ("break a", 1202, 1),
    ("break a 0 0", 1202, 1),
    ("regs", 1202, 1),
    ("regs a b", 1202, 1),
    ("mem a 0", 1202, 1),
    ("mem a 0 1 1", 1202, 1),
    ("links x", 1202, 1),
    ("where a", 1202, 1),
    ("list count", 1202, 1),
    ("list ", 1202, 1),
    ("probe", 1202, 1),
    ("probe count watch", 1202, 1),
    ("drop", 1202, 1),
    ("drop count watch", 1202, 1),
    ("break z 0", 1203, 1),
    ("break z x", 1203, 1),
    ("mem z 0 0", 1203, 1),
    ("break a loop", 1204, 1),
    ("break b main", 1204, 1),
    ("break a ", 1204, 1),
    ("break a 4294967296", 1204, 1),
    ("break a 0x100000000", 1204, 1),
    ("break a 0x", 1204, 1),
    ("break a 0X4", 1204, 1),
    ("break a 4x", 1204, 1),
    ("break a -4", 1204, 1),
    ("step 1000000000001", 1204, 1),
    ("step 00000000000000000001", 1204, 1),
    ("step 0x1g", 1204, 1),
    ("step 0x000000001", 1204, 1),
    ("step -1", 1204, 1),
    ("step +1", 1204, 1),
    ("mem a 0 0", 1204, 1),
    ("mem a 0 4097", 1204, 1),
    ("mem a 0 main", 1204, 1),
    ("probe trace", 1205, 1),
    ("drop trace", 1205, 1),
    ("drop count\nprobe count", 1205, 2),
    ("drop count\n\ndrop count", 1205, 3),
    ("step 1\n\nrun 1\nregs z\nstep", 1203, 4),
    ("list\nlinks\nwhere\nstop\n", 1201, 4),
];

/// Scripts that are read, and how many commands they have.
const READ: [(&str, usize); 15] = [
    ("", 0),
    ("\n\n", 0),
    ("break a main\nbreak b loop\nbreak a 0x50\nbreak b 4", 4),
    ("break a 4294967295", 1),
    ("break a 0xFFFFffff", 1),
    ("break a 0000000000000000004", 1),
    ("step 0\nstep 1000000000000\nstep 0000001000000000000", 3),
    ("step 0x0\nstep 0xFFFFFFFF", 2),
    ("run 1\n", 1),
    ("mem a main 1\nmem a 0 4096\nmem b 0xFFFFFFFF 0x1000", 3),
    ("regs a\nregs b\nlinks\nwhere\nlist", 5),
    ("probe count\nprobe count\nprobe watch", 3),
    ("drop count\nprobe watch\ndrop watch\nlist", 4),
    (
        "run 10\nprobe watch\ndrop watch\nlist\nrun 10\nprobe count\nwhere",
        7,
    ),
    ("break b 4\nrun 10\nregs b\n", 3),
];

#[test]
fn scripts_are_refused_at_their_first_line(rt: HostRuntime) -> Result<(), Fail> {
    let names = board(rt.alloc())?;
    for (text, code, line) in REFUSED {
        if text.len() <= 1_048_576 {
            let fault = read_script(rt.alloc(), text.as_bytes(), &names)
                .err()
                .ok_or("a fault")?;
            assert_eq!(rt; fault, ScriptFault::Refused { code, line }, "{text}");
        }
    }
    Ok(())
}

#[test]
fn scripts_are_read(rt: HostRuntime) -> Result<(), Fail> {
    let names = board(rt.alloc())?;
    for (text, count) in READ {
        if text.len() <= 1_048_576 {
            let script = read_script(rt.alloc(), text.as_bytes(), &names).map_err(|_| "a script")?;
            assert_eq!(rt; script.len(), count, "{text}");
        }
    }
    Ok(())
}

/// The address of the first command, a breakpoint.
fn first_address(script: &Script) -> Option<u32> {
    match script.as_slice().first()? {
        Command::Break { addr, .. } => Some(*addr),
        _ => None,
    }
}

#[test]
fn the_first_symbol_of_a_name_counts(rt: HostRuntime) -> Result<(), Fail> {
    let names = board(rt.alloc())?;
    let script = read_script(rt.alloc(), b"break a main", &names).map_err(|_| "a script")?;
    assert_eq!(rt; first_address(&script), Some(0x50));
    Ok(())
}

#[test]
fn sixty_four_breakpoints_are_all(rt: HostRuntime) -> Result<(), Fail> {
    let names = board(rt.alloc())?;
    let mut text = String::new(rt.alloc());
    for _ in 0..64 {
        text.push_str("break a 4\n")?;
    }
    for (last, refused) in [
        ("", None),
        ("break a 4", Some(1206)),
        ("break a x", Some(1204)),
    ] {
        let mut whole = text.clone()?;
        whole.push_str(last)?;
        if whole.len() <= 1_048_576 {
            let fault = read_script(rt.alloc(), whole.as_str().as_bytes(), &names).err();
            let wanted = refused.map(|code: u16| ScriptFault::Refused { code, line: 65 });
            assert_eq!(rt; fault, wanted);
        }
    }
    Ok(())
}
