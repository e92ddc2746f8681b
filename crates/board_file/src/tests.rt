use crate::{BoardFault, BoardFile, End, Pipeline, Turn, read_board};
use std::alloc::{AllocError, Global};
use std::fmt::Write;
use std::test::Fail;

/// What stands before the texts below: one core, with defaults.
const CORE: &str = "version = 1\ncore.a.image = 'i'\ncore.a.pipeline = 'plain'\n";

/// A text, and the code and the place of the fault that is wanted of it.
type Case = (&'static str, u16, &'static str);

/// What a text is read as: no fault has the code 0.
fn is_answered(alloc: Global, text: &[u8], code: u16, place: &str) -> bool {
    let fault = match read_board(alloc, text) {
        Ok(_) => return code == 0,
        Err(fault) => fault,
    };
    match fault {
        BoardFault::Refused {
            code: got,
            place: at,
        } => got == code && at.as_bytes() == place.as_bytes(),
        BoardFault::NoMemory => false,
    }
}

fn joined(alloc: Global, before: &str, text: &str) -> Result<String, AllocError> {
    let mut whole = String::from_str(alloc, before)?;
    whole.push_str(text)?;
    Ok(whole)
}

/// The first text that is answered otherwise than wanted, with `before` put before each.
fn first_wrong(
    alloc: Global,
    before: &str,
    cases: &[Case],
) -> Result<Option<&'static str>, AllocError> {
    for (text, code, place) in cases {
        let whole = joined(alloc, before, text)?;
        if !is_answered(alloc, whole.as_bytes(), *code, place) {
            return Ok(Some(text));
        }
    }
    Ok(None)
}

#[test]
fn whole_files(rt: HostRuntime) -> Result<(), Fail> {
    let wrong = first_wrong(
        rt.alloc(),
        "",
        &[
            ("[", 601, ""),
            ("version = 1\nversion = 1\n", 601, ""),
            ("version = 1\nversion.a = 1\n", 601, ""),
            ("version = 9223372036854775808\n", 601, ""),
            ("", 602, "version"),
            ("version = 0\n", 602, "version"),
            ("version = 3\n", 602, "version"),
            ("version = '1'\n", 602, "version"),
            ("version = 1.0\n", 602, "version"),
            ("version = [1]\n", 602, "version"),
            ("zz = 1\n", 602, "version"),
            ("version = 1\n", 604, "core"),
            ("version = 2\n", 604, "core"),
            ("version = 1\n[core]\n", 604, "core"),
            ("version = 1\ncore = 5\n", 605, "core"),
            ("version = 1\ncore.a = 5\n", 605, "core.a"),
            ("version = 1\ncore.a = [1]\n", 605, "core.a"),
            (
                "version = 1\ncore.a.pipeline = 'plain'\n",
                604,
                "core.a.image",
            ),
            ("version = 1\ncore.a.image = 'i'\n", 604, "core.a.pipeline"),
            (
                "version = 1\ncore.a.image = 5\ncore.a.pipeline = 'plain'\n",
                605,
                "core.a.image",
            ),
            (
                "version = 1\ncore.a.image = 'i'\ncore.a.pipeline = 5\n",
                605,
                "core.a.pipeline",
            ),
            (
                "version = 1\ncore.a.image = 'i'\ncore.a.pipeline = 'six'\n",
                611,
                "core.a.pipeline",
            ),
            (
                "version = 1\ncore.a.image = 'i'\ncore.a.pipeline = 'Plain'\n",
                611,
                "core.a.pipeline",
            ),
            (
                "version = 1\ncore.a.image = ''\ncore.a.pipeline = 'plain'\n",
                620,
                "core.a.image",
            ),
            (
                "version = 1\ncore.a.image = '-i'\ncore.a.pipeline = 'plain'\n",
                620,
                "core.a.image",
            ),
            (
                "version = 1\ncore.a.image = 'a b'\ncore.a.pipeline = 'plain'\n",
                620,
                "core.a.image",
            ),
            (
                "version = 1\ncore.a.pipeline = 'plain'\ncore.a.image = '6666666666666666666666666666666666666666666666666666666666666664'\n",
                0,
                "",
            ),
            (
                "version = 1\ncore.a.pipeline = 'plain'\ncore.a.image = '66666666666666666666666666666666666666666666666666666666666666665'\n",
                620,
                "core.a.image",
            ),
            (
                "version = 1\ncore.a = {image = 'i', pipeline = 'eight'}\n",
                0,
                "",
            ),
            (
                "\u{feff}version = 1\ncore.a = {image = 'i', pipeline = 'eight'}\n",
                0,
                "",
            ),
        ],
    )?;
    assert_eq!(rt; wrong, None);
    Ok(())
}

#[test]
fn keys_and_kinds(rt: HostRuntime) -> Result<(), Fail> {
    let wrong = first_wrong(
        rt.alloc(),
        CORE,
        &[
            ("", 0, ""),
            ("zz = 1\n", 603, "zz"),
            ("shared.s.base = 0\n", 603, "shared"),
            ("core.a.zz = 1\n", 603, "core.a.zz"),
            ("link.x.clock = 1\n", 603, "link.x.clock"),
            (
                "timer.t = {core = 'a', base = 65536, clock = 1}\n",
                603,
                "timer.t.clock",
            ),
            (
                "intc.n = {core = 'a', base = 65536, clock = 1}\n",
                603,
                "intc.n.clock",
            ),
            (
                "intc.n = {core = 'a', base = 65536, irq = 1}\n",
                603,
                "intc.n.irq",
            ),
            (
                "uart.u = {core = 'a', base = 65536, output = 'o', clock = 1}\n",
                603,
                "uart.u.clock",
            ),
            (
                "event.e = {core = 'a', cycle = 1, kind = 'break', zz = 1}\n",
                603,
                "event.e.zz",
            ),
            ("timer.t.base = 65536\n", 604, "timer.t.core"),
            ("timer.t.core = 'a'\n", 604, "timer.t.base"),
            ("intc.n.base = 65536\n", 604, "intc.n.core"),
            ("intc.n.core = 'a'\n", 604, "intc.n.base"),
            (
                "uart.u = {base = 65536, output = 'o'}\n",
                604,
                "uart.u.core",
            ),
            ("uart.u = {core = 'a', output = 'o'}\n", 604, "uart.u.base"),
            (
                "uart.u = {core = 'a', base = 65536}\n",
                604,
                "uart.u.output",
            ),
            (
                "event.e = {cycle = 1, kind = 'break'}\n",
                604,
                "event.e.core",
            ),
            (
                "event.e = {core = 'a', kind = 'break'}\n",
                604,
                "event.e.cycle",
            ),
            ("event.e = {core = 'a', cycle = 1}\n", 604, "event.e.kind"),
            ("order = 1\n", 605, "order"),
            ("network = 1\n", 605, "network"),
            ("network = 'true'\n", 605, "network"),
            ("link = 5\n", 605, "link"),
            ("timer = 5\n", 605, "timer"),
            ("intc = 5\n", 605, "intc"),
            ("uart = 5\n", 605, "uart"),
            ("event = [{}]\n", 605, "event"),
            ("link.x = 5\n", 605, "link.x"),
            ("timer.t = 'a'\n", 605, "timer.t"),
            ("core.a.clock = '1'\n", 605, "core.a.clock"),
            ("core.a.clock = 1.0\n", 605, "core.a.clock"),
            ("core.a.clock = 1979-05-27\n", 605, "core.a.clock"),
            ("core.a.clock = true\n", 605, "core.a.clock"),
            ("core.a.clock = [1]\n", 605, "core.a.clock"),
            ("core.a.clock = {a = 1}\n", 605, "core.a.clock"),
            ("core.a.memory = 65536.0\n", 605, "core.a.memory"),
            (
                "link.x = {from = 1, from_port = 0, to_file = 'o'}\n",
                605,
                "link.x.from",
            ),
            (
                "link.x = {from = 'a', from_port = '0', to_file = 'o'}\n",
                605,
                "link.x.from_port",
            ),
            (
                "link.x = {from_file = 1, to = 'a', to_port = 0}\n",
                605,
                "link.x.from_file",
            ),
            (
                "uart.u = {core = 'a', base = 65536, output = 1}\n",
                605,
                "uart.u.output",
            ),
            (
                "uart.u = {core = 'a', base = 65536, output = 'o', input = 1}\n",
                605,
                "uart.u.input",
            ),
            (
                "timer.t = {core = 'a', base = '65536'}\n",
                605,
                "timer.t.base",
            ),
            (
                "event.e = {core = 'a', cycle = 1, kind = 1}\n",
                605,
                "event.e.kind",
            ),
            ("order = 'up'\n", 612, "order"),
            ("order = 'descending'\n", 0, ""),
            ("order = 'rotating'\n", 0, ""),
        ],
    )?;
    assert_eq!(rt; wrong, None);
    Ok(())
}

#[test]
fn numbers_and_names(rt: HostRuntime) -> Result<(), Fail> {
    let wrong = first_wrong(
        rt.alloc(),
        CORE,
        &[
            ("core.a.clock = 0\n", 606, "core.a.clock"),
            ("core.a.clock = 1\n", 0, ""),
            ("core.a.clock = 1000000\n", 0, ""),
            ("core.a.clock = 1000001\n", 606, "core.a.clock"),
            ("core.a.clock = -1\n", 606, "core.a.clock"),
            ("core.a.clock = 4294967297\n", 606, "core.a.clock"),
            ("core.a.clock = 9223372036854775807\n", 606, "core.a.clock"),
            ("core.a.clock = -9223372036854775808\n", 606, "core.a.clock"),
            ("core.a.clock = 9223372036854775808\n", 601, ""),
            ("core.a.clock = 0x2\n", 0, ""),
            (
                "link.x = {from = 'a', from_port = 0, to_file = 'o', depth = 0}\n",
                606,
                "link.x.depth",
            ),
            (
                "link.x = {from = 'a', from_port = 0, to_file = 'o', depth = 4096}\n",
                0,
                "",
            ),
            (
                "link.x = {from = 'a', from_port = 0, to_file = 'o', depth = 4097}\n",
                606,
                "link.x.depth",
            ),
            (
                "link.x = {from = 'a', from_port = 15, to_file = 'o'}\n",
                0,
                "",
            ),
            (
                "link.x = {from = 'a', from_port = 16, to_file = 'o'}\n",
                606,
                "link.x.from_port",
            ),
            (
                "link.x = {from_file = 'o', to = 'a', to_port = -1}\n",
                606,
                "link.x.to_port",
            ),
            (
                "timer.t = {core = 'a', base = 65537}\n",
                606,
                "timer.t.base",
            ),
            (
                "timer.t = {core = 'a', base = -4096}\n",
                606,
                "timer.t.base",
            ),
            ("timer.t = {core = 'a', base = 4294963200}\n", 0, ""),
            (
                "timer.t = {core = 'a', base = 4294967296}\n",
                606,
                "timer.t.base",
            ),
            (
                "timer.t = {core = 'a', base = 65536, irq = 32}\n",
                606,
                "timer.t.irq",
            ),
            (
                "timer.t = {core = 'a', base = 65536, irq = -1}\n",
                606,
                "timer.t.irq",
            ),
            (
                "timer.t = {core = 'a', base = 65536, irq = 'x'}\n",
                605,
                "timer.t.irq",
            ),
            (
                "uart.u = {core = 'a', base = 65536, output = 'o', every = 0}\n",
                606,
                "uart.u.every",
            ),
            (
                "uart.u = {core = 'a', base = 65536, output = 'o', every = 1000000}\n",
                0,
                "",
            ),
            (
                "uart.u = {core = 'a', base = 65536, output = 'o', every = 1000001}\n",
                606,
                "uart.u.every",
            ),
            (
                "event.e = {core = 'a', cycle = 1000000000000, kind = 'break'}\n",
                0,
                "",
            ),
            (
                "event.e = {core = 'a', cycle = 1000000000001, kind = 'break'}\n",
                606,
                "event.e.cycle",
            ),
            (
                "event.e = {core = 'a', cycle = -1, kind = 'break'}\n",
                606,
                "event.e.cycle",
            ),
            (
                "event.e = {core = 'a', cycle = 0, kind = 'nonmaskable'}\n",
                0,
                "",
            ),
            (
                "event.e = {core = 'a', cycle = 0, kind = 'interrupt'}\n",
                606,
                "event.e.kind",
            ),
            (
                "core.A = {image = 'i', pipeline = 'plain'}\n",
                606,
                "core.A",
            ),
            (
                "core.a-b = {image = 'i', pipeline = 'plain'}\n",
                606,
                "core.a-b",
            ),
            (
                "core.'' = {image = 'i', pipeline = 'plain'}\n",
                606,
                "core.",
            ),
            (
                "core.abcdefghijklmnopqrstuvw4 = {image = 'i', pipeline = 'plain'}\n",
                0,
                "",
            ),
            (
                "core.abcdefghijklmnopqrstuvwx5 = {image = 'i', pipeline = 'plain'}\n",
                606,
                "core.abcdefghijklmnopqrstuvwx5",
            ),
            (
                "event.E = {core = 'a', cycle = 0, kind = 'break'}\n",
                606,
                "event.E",
            ),
            ("core.a.memory = 0\n", 619, "core.a.memory"),
            ("core.a.memory = -4096\n", 619, "core.a.memory"),
            ("core.a.memory = 4096\n", 0, ""),
            ("core.a.memory = 4097\n", 619, "core.a.memory"),
            ("core.a.memory = 67108864\n", 0, ""),
            ("core.a.memory = 67112960\n", 619, "core.a.memory"),
            (
                "core.a.memory = 9223372036854775807\n",
                619,
                "core.a.memory",
            ),
            (
                "link.x = {from = 'a', from_port = 0, to_file = '-o'}\n",
                620,
                "link.x.to_file",
            ),
            (
                "link.x = {from_file = 'a*', to = 'a', to_port = 0}\n",
                620,
                "link.x.from_file",
            ),
            (
                "uart.u = {core = 'a', base = 65536, output = '-'}\n",
                620,
                "uart.u.output",
            ),
            (
                "uart.u = {core = 'a', base = 65536, output = 'o', input = ''}\n",
                620,
                "uart.u.input",
            ),
            (
                "uart.u = {core = 'a', base = 65536, output = 'A/z.9_-', input = 'q'}\n",
                0,
                "",
            ),
        ],
    )?;
    assert_eq!(rt; wrong, None);
    Ok(())
}

#[test]
fn files_and_links(rt: HostRuntime) -> Result<(), Fail> {
    let wrong = first_wrong(
        rt.alloc(),
        CORE,
        &[
            // one output file twice, at a link and at a UART
            (
                "link.x = {from = 'a', from_port = 0, to_file = 'o'}\nlink.w = {from = 'a', from_port = 1, to_file = 'o'}\n",
                607,
                "link.x.to_file",
            ),
            (
                "link.x = {from = 'a', from_port = 0, to_file = 'o'}\nuart.u = {core = 'a', base = 65536, output = 'o'}\n",
                607,
                "uart.u.output",
            ),
            (
                "link.u = {from = 'a', from_port = 0, to_file = 'o'}\nlink.v = {from = 'a', from_port = 1, to_file = 'o'}\nlink.w = {from = 'a', from_port = 2, to_file = 'o'}\n",
                607,
                "link.v.to_file",
            ),
            // an output file that is an image or an input
            (
                "link.x = {from = 'a', from_port = 0, to_file = 'i'}\n",
                607,
                "link.x.to_file",
            ),
            (
                "link.w = {from = 'a', from_port = 0, to_file = 'o'}\nlink.x = {from_file = 'o', to = 'a', to_port = 0}\n",
                607,
                "link.w.to_file",
            ),
            (
                "uart.u = {core = 'a', base = 65536, output = 'o', input = 'o'}\n",
                607,
                "uart.u.output",
            ),
            (
                "link.w = {from = 'a', from_port = 0, to_file = 'o'}\nuart.u = {core = 'a', base = 65536, output = 'p', input = 'o'}\n",
                607,
                "link.w.to_file",
            ),
            (
                "link.x = {from_file = 'o', to_file = 'o'}\n",
                607,
                "link.x.to_file",
            ),
            // only names by the rule are compared
            (
                "link.x = {from = 'a', from_port = 0, to_file = '-'}\nlink.w = {from = 'a', from_port = 1, to_file = '-'}\n",
                620,
                "link.w.to_file",
            ),
            // inputs and images may be read twice
            (
                "link.w = {from_file = 'i', to = 'a', to_port = 0}\nlink.x = {from_file = 'i', to = 'a', to_port = 1}\ncore.b = {image = 'i', pipeline = 'three'}\n",
                0,
                "",
            ),
            // a core that isn't there
            (
                "link.x = {from = 'b', from_port = 0, to_file = 'o'}\n",
                608,
                "link.x.from",
            ),
            (
                "link.x = {from_file = 'o', to = 'b', to_port = 0}\n",
                608,
                "link.x.to",
            ),
            (
                "timer.t = {core = 'b', base = 65536}\n",
                608,
                "timer.t.core",
            ),
            ("intc.n = {core = '', base = 65536}\n", 608, "intc.n.core"),
            (
                "uart.u = {core = 'b', base = 65536, output = 'o'}\n",
                608,
                "uart.u.core",
            ),
            (
                "event.e = {core = 'b', cycle = 1, kind = 'break'}\n",
                608,
                "event.e.core",
            ),
            // a port of two links
            (
                "link.x = {from = 'a', from_port = 3, to_file = 'o'}\nlink.w = {from = 'a', from_port = 3, to_file = 'p'}\n",
                609,
                "link.x.from_port",
            ),
            (
                "link.x = {from_file = 'o', to = 'a', to_port = 3}\nlink.w = {from_file = 'p', to = 'a', to_port = 3}\n",
                609,
                "link.x.to_port",
            ),
            (
                "link.u = {from = 'a', from_port = 3, to_file = 'o'}\nlink.v = {from = 'a', from_port = 3, to_file = 'p'}\nlink.w = {from = 'a', from_port = 3, to_file = 'q'}\n",
                609,
                "link.v.from_port",
            ),
            (
                "link.x = {from = 'a', from_port = 3, to_file = 'o'}\nlink.w = {from = 'a', from_port = 3}\n",
                609,
                "link.x.from_port",
            ),
            (
                "link.x = {from = 'a', from_port = 3, to = 'a', to_port = 3}\n",
                0,
                "",
            ),
            (
                "link.x = {from = 'a', from_port = 3, to_file = 'o'}\nlink.w = {from = 'b', from_port = 3, to_file = 'p'}\ncore.b = {image = 'i', pipeline = 'five'}\n",
                0,
                "",
            ),
            (
                "link.x = {from = 'a', from_port = 16, to_file = 'o'}\nlink.w = {from = 'a', from_port = 16, to_file = 'p'}\n",
                606,
                "link.w.from_port",
            ),
            // an end that isn't one form
            ("link.x = {}\n", 610, "link.x"),
            ("link.x = {to_file = 'o'}\n", 610, "link.x"),
            ("link.x = {from = 'a', from_port = 0}\n", 610, "link.x"),
            ("link.x = {from = 'a', to_file = 'o'}\n", 610, "link.x"),
            ("link.x = {from_port = 0, to_file = 'o'}\n", 610, "link.x"),
            ("link.x = {from_file = 'o', to = 'a'}\n", 610, "link.x"),
            ("link.x = {from_file = 'o', to_port = 0}\n", 610, "link.x"),
            (
                "link.x = {from = 'a', from_port = 0, from_file = 'p', to_file = 'o'}\n",
                610,
                "link.x",
            ),
            (
                "link.x = {from_file = 'p', to = 'a', to_port = 0, to_file = 'o'}\n",
                610,
                "link.x",
            ),
            (
                "link.x = {from = 'a', from_file = 'p', to = 'a', to_port = 0}\n",
                610,
                "link.x",
            ),
            ("link.x = {from_file = 'p', to_file = 'o'}\n", 610, "link.x"),
        ],
    )?;
    assert_eq!(rt; wrong, None);
    Ok(())
}

#[test]
fn devices_and_events(rt: HostRuntime) -> Result<(), Fail> {
    let wrong = first_wrong(
        rt.alloc(),
        CORE,
        &[
            // an input of a controller that isn't there
            (
                "timer.t = {core = 'a', base = 65536, irq = 0}\n",
                604,
                "timer.t.irq",
            ),
            (
                "uart.u = {core = 'a', base = 65536, output = 'o', irq = 31}\n",
                604,
                "uart.u.irq",
            ),
            (
                "timer.t = {core = 'a', base = 65536, irq = 0}\nintc.n = {core = 'b', base = 65536}\ncore.b = {image = 'i', pipeline = 'eight'}\n",
                604,
                "timer.t.irq",
            ),
            (
                "timer.t = {core = 'a', base = 65536, irq = 0}\nintc.n = {core = 'c', base = 65536}\n",
                604,
                "timer.t.irq",
            ),
            (
                "timer.t = {core = 'b', base = 65536, irq = 0}\n",
                608,
                "timer.t.core",
            ),
            (
                "timer.t = {core = 1, base = 65536, irq = 0}\n",
                605,
                "timer.t.core",
            ),
            (
                "core.A = {image = 'i', pipeline = 'five'}\ntimer.t = {core = 'A', base = 65536, irq = 0}\n",
                604,
                "timer.t.irq",
            ),
            (
                "core.A = {image = 'i', pipeline = 'five'}\ntimer.t = {core = 'A', base = 65536, irq = 0}\nintc.n = {core = 'A', base = 69632}\n",
                606,
                "core.A",
            ),
            (
                "timer.t = {core = 'a', base = 69632, irq = 0}\nintc.n = {core = 'a', base = 65536}\n",
                0,
                "",
            ),
            // a base below the memory, or twice
            (
                "timer.t = {core = 'a', base = 61440}\n",
                613,
                "timer.t.base",
            ),
            ("timer.t = {core = 'a', base = 0}\n", 613, "timer.t.base"),
            ("timer.t = {core = 'a', base = 65536}\n", 0, ""),
            (
                "core.a.memory = 4096\nintc.n = {core = 'a', base = 4096}\n",
                0,
                "",
            ),
            (
                "core.a.memory = 8192\nuart.u = {core = 'a', base = 4096, output = 'o'}\n",
                613,
                "uart.u.base",
            ),
            (
                "core.a.memory = 5000\ntimer.t = {core = 'a', base = 0}\n",
                619,
                "core.a.memory",
            ),
            (
                "core.a.memory = 5000\ntimer.t = {core = 'a', base = 0}\ntimer.s = {core = 'a', base = 0}\n",
                613,
                "timer.t.base",
            ),
            (
                "timer.b = {core = 'a', base = 65536}\nuart.a = {core = 'a', base = 65536, output = 'o'}\n",
                613,
                "uart.a.base",
            ),
            (
                "timer.b = {core = 'a', base = 65536}\nuart.a = {core = 'a', base = 65536, output = 'o'}\nintc.c = {core = 'a', base = 65536}\n",
                613,
                "timer.b.base",
            ),
            (
                "timer.s = {core = 'a', base = 65536}\ntimer.t = {core = 'b', base = 65536}\ncore.b = {image = 'i', pipeline = 'three'}\n",
                0,
                "",
            ),
            // an input twice, and a second controller
            (
                "intc.n = {core = 'a', base = 65536}\ntimer.t = {core = 'a', base = 69632, irq = 3}\ntimer.s = {core = 'a', base = 73728, irq = 3}\n",
                614,
                "timer.t.irq",
            ),
            (
                "intc.n = {core = 'a', base = 65536}\ntimer.t = {core = 'a', base = 69632, irq = 3}\nuart.s = {core = 'a', base = 73728, irq = 3, output = 'o'}\n",
                614,
                "uart.s.irq",
            ),
            (
                "intc.n = {core = 'a', base = 65536}\ntimer.t = {core = 'a', base = 69632, irq = 3}\nuart.s = {core = 'a', base = 73728, irq = 4, output = 'o'}\n",
                0,
                "",
            ),
            (
                "intc.n = {core = 'a', base = 65536}\nintc.m = {core = 'a', base = 69632}\n",
                614,
                "intc.n.core",
            ),
            // parts that a network board may not have
            (
                "network = false\ntimer.t = {core = 'a', base = 65536}\n",
                0,
                "",
            ),
            (
                "network = true\ntimer.t = {core = 'a', base = 65536}\n",
                617,
                "timer.t",
            ),
            (
                "network = true\nintc.n = {core = 'a', base = 65536}\n",
                617,
                "intc.n",
            ),
            (
                "network = true\nuart.u = {core = 'a', base = 65536, output = 'o'}\n",
                617,
                "uart.u",
            ),
            (
                "network = true\nevent.e = {core = 'a', cycle = 1, kind = 'break'}\n",
                618,
                "event.e",
            ),
            (
                "network = true\nlink.x = {from = 'a', from_port = 3, to = 'a', to_port = 3}\n",
                0,
                "",
            ),
        ],
    )?;
    assert_eq!(rt; wrong, None);
    Ok(())
}

#[test]
fn the_least_of_two(rt: HostRuntime) -> Result<(), Fail> {
    let wrong = first_wrong(
        rt.alloc(),
        CORE,
        &[
            // of two codes the lesser, wherever it stands
            (
                "order = 'up'\nevent.e = {core = 'a', cycle = -1, kind = 'break'}\n",
                606,
                "event.e.cycle",
            ),
            ("core.a.memory = 1\nlink.x = {}\n", 610, "link.x"),
            (
                "link.x = {}\nlink.y = {from_file = 1, to_file = 'o'}\n",
                605,
                "link.y.from_file",
            ),
            ("core.a.clock = 0\nzz = 1\n", 603, "zz"),
            // of one code the place that is first in byte order
            (
                "core.a.clock = 0\ntimer.t = {core = 'a', base = 1}\n",
                606,
                "core.a.clock",
            ),
            (
                "event.e = {core = 'a', cycle = -1, kind = 'x'}\nlink.x = {depth = 0}\n",
                606,
                "event.e.cycle",
            ),
            ("link.x = {}\nlink.w = {}\n", 610, "link.w"),
            // the order of places is not that of keys: `-` is before `.`
            (
                "core.a.zz = 1\ncore.a-b.zz = 1\ncore.a-b.image = 'i'\ncore.a-b.pipeline = 'plain'\n",
                603,
                "core.a-b.zz",
            ),
            // places are cut to 64 bytes, also within a character
            (
                "6666666666666666666666666666666666666666666666666666666666666664x = 1\n",
                603,
                "6666666666666666666666666666666666666666666666666666666666666664",
            ),
            (
                "core.a.'666666666666666666666666666666666666666666666666666666634x' = 1\n",
                603,
                "core.a.666666666666666666666666666666666666666666666666666666634",
            ),
        ],
    )?;
    assert_eq!(rt; wrong, None);
    Ok(())
}

#[test]
fn limits_of_cores_and_links(rt: HostRuntime) -> Result<(), Fail> {
    let alloc = rt.alloc();
    for (version, rows, code, place) in [
        (1_u8, 16_u8, 0, ""),
        (1, 17, 615, "core"),
        (2, 17, 0, ""),
        (2, 64, 0, ""),
        (2, 65, 615, "core"),
    ] {
        let mut text = String::new(alloc);
        write!(text, "version = {version}\n")?;
        for k in 0..rows {
            write!(text, "core.c{k} = {{image = 'i', pipeline = 'plain'}}\n")?;
        }
        assert!(rt;
            is_answered(alloc, text.as_bytes(), code, place),
            "{rows} cores in version {version}"
        );
    }
    for (version, rows, code, place) in [
        (1_u8, 64_u16, 0, ""),
        (1, 65, 616, "link"),
        (2, 65, 0, ""),
        (2, 256, 0, ""),
        (2, 257, 616, "link"),
    ] {
        let mut text = String::new(alloc);
        write!(text, "version = {version}\n")?;
        for k in 0..16_u8 {
            write!(text, "core.c{k} = {{image = 'i', pipeline = 'plain'}}\n")?;
        }
        for k in 0..rows {
            // each get port of the cores, and then a put port
            let core = k % 256 / 16;
            let port = k % 16;
            let way = if k < 256 {
                "from_file = 'f', to"
            } else {
                "to_file = 'o', from"
            };
            let end = if k < 256 { "to_port" } else { "from_port" };
            write!(text, "link.l{k} = {{{way} = 'c{core}', {end} = {port}}}\n")?;
        }
        assert!(rt;
            is_answered(alloc, text.as_bytes(), code, place),
            "{rows} links in version {version}"
        );
    }
    Ok(())
}

/// What stands before a table of devices in version 2.
const SECOND: &str = "version = 2\ncore.a.image = 'i'\ncore.a.pipeline = 'plain'\n";

#[test]
fn clocks_of_devices(rt: HostRuntime) -> Result<(), Fail> {
    let wrong = first_wrong(
        rt.alloc(),
        SECOND,
        &[
            ("timer.t = {core = 'a', base = 65536}\n", 0, ""),
            ("timer.t = {core = 'a', base = 65536, clock = 1}\n", 0, ""),
            (
                "timer.t = {core = 'a', base = 65536, clock = 1000000}\n",
                0,
                "",
            ),
            (
                "timer.t = {core = 'a', base = 65536, clock = 0}\n",
                606,
                "timer.t.clock",
            ),
            (
                "timer.t = {core = 'a', base = 65536, clock = 1000001}\n",
                606,
                "timer.t.clock",
            ),
            (
                "timer.t = {core = 'a', base = 65536, clock = '1'}\n",
                605,
                "timer.t.clock",
            ),
            ("intc.n = {core = 'a', base = 65536, clock = 5}\n", 0, ""),
            (
                "intc.n = {core = 'a', base = 65536, clock = -1}\n",
                606,
                "intc.n.clock",
            ),
            (
                "uart.u = {core = 'a', base = 65536, output = 'o', clock = 5}\n",
                0,
                "",
            ),
            (
                "uart.u = {core = 'a', base = 65536, output = 'o', every = 1000000, clock = 1000000}\n",
                0,
                "",
            ),
            (
                "uart.u = {core = 'a', base = 65536, output = 'o', clock = true}\n",
                605,
                "uart.u.clock",
            ),
            ("link.x.clock = 1\n", 603, "link.x.clock"),
            (
                "event.e = {core = 'a', cycle = 1, kind = 'break', clock = 1}\n",
                603,
                "event.e.clock",
            ),
        ],
    )?;
    assert_eq!(rt; wrong, None);
    Ok(())
}

#[test]
fn limit_of_all_memories(rt: HostRuntime) -> Result<(), Fail> {
    let alloc = rt.alloc();
    for (rows, last, code, place) in [
        (16_u8, 67_108_864_u32, 0, ""),
        (17, 67_108_864, 619, "core"),
        (18, 67_112_960, 619, "core.z.memory"),
    ] {
        let mut text = String::from_str(alloc, "version = 2\n")?;
        for k in 1..rows {
            write!(
                text,
                "core.c{k} = {{image = 'i', pipeline = 'plain', memory = 67108864}}\n"
            )?;
        }
        write!(
            text,
            "core.z = {{image = 'i', pipeline = 'plain', memory = {last}}}\n"
        )?;
        assert!(rt;
            is_answered(alloc, text.as_bytes(), code, place),
            "{rows} memories, the last of {last} bytes"
        );
    }
    Ok(())
}

#[test]
fn limits_of_devices_and_events(rt: HostRuntime) -> Result<(), Fail> {
    let alloc = rt.alloc();
    for (rows, code, place) in [(64_u8, 0, ""), (65, 606, "timer")] {
        let mut text = String::from_str(alloc, CORE)?;
        for k in 0..rows {
            let base = 65_536 + 4_096 * u32::from(k);
            write!(text, "timer.t{k} = {{core = 'a', base = {base}}}\n")?;
        }
        assert!(rt;
            is_answered(alloc, text.as_bytes(), code, place),
            "{rows} timers"
        );
    }
    for (rows, code, place) in [(64_u8, 0, ""), (65, 606, "uart")] {
        let mut text = String::from_str(alloc, CORE)?;
        for k in 0..rows {
            let base = 65_536 + 4_096 * u32::from(k);
            write!(
                text,
                "uart.u{k} = {{core = 'a', base = {base}, output = 'o{k}'}}\n"
            )?;
        }
        assert!(rt;
            is_answered(alloc, text.as_bytes(), code, place),
            "{rows} uarts"
        );
    }
    for (rows, code, place) in [(256_u16, 0, ""), (257, 606, "event")] {
        let mut text = String::from_str(alloc, CORE)?;
        for k in 0..rows {
            write!(
                text,
                "event.e{k} = {{core = 'a', cycle = {k}, kind = 'break'}}\n"
            )?;
        }
        assert!(rt;
            is_answered(alloc, text.as_bytes(), code, place),
            "{rows} events"
        );
    }
    Ok(())
}

/// A board of the given text, which is right.
fn board_of(alloc: Global, text: &str) -> Option<BoardFile> {
    read_board(alloc, text.as_bytes()).ok()
}

fn is_port(end: &End, wanted_core: u16, wanted_port: u8) -> bool {
    match end {
        End::Port { core, port } => *core == wanted_core && *port == wanted_port,
        End::File(_) => false,
    }
}

fn is_file(end: &End, wanted: &str) -> bool {
    match end {
        End::Port { core: _, port: _ } => false,
        End::File(name) => name.as_text() == wanted,
    }
}

#[test]
fn defaults_and_order(rt: HostRuntime) -> Result<(), Fail> {
    let text = "version = 1\n\
        core.b = {image = 'ib', pipeline = 'five'}\n\
        core.a = {image = 'ia', pipeline = 'plain'}\n\
        core.a_ = {image = 'i_', pipeline = 'three'}\n\
        core.0 = {image = 'i0', pipeline = 'eight'}\n\
        link.y = {from = 'b', from_port = 3, to = 'a', to_port = 15}\n\
        link.x = {from_file = 'in', to = '0', to_port = 0}\n\
        link.z = {from = 'a_', from_port = 1, to_file = 'out'}\n\
        intc.n = {core = 'b', base = 65536}\n\
        timer.t = {core = 'b', base = 69632}\n\
        uart.u = {core = 'a', base = 1073741824, output = 'u'}\n\
        event.e = {core = 'b', cycle = 7, kind = 'break'}\n";
    let board = board_of(rt.alloc(), text).expect(&rt, "a right board");
    assert!(rt; board.version == 1 && board.turn == Turn::Ascending && !board.network);
    let cores = board.cores.as_slice();
    assert_eq!(rt; cores.len(), 4);
    let wanted = [
        ("0", "i0", Pipeline::Eight),
        ("a", "ia", Pipeline::Plain),
        ("a_", "i_", Pipeline::Three),
        ("b", "ib", Pipeline::Five),
    ];
    for (core, (name, image, pipeline)) in cores.iter().zip(wanted.iter()) {
        assert_eq!(rt; core.name.as_text(), *name);
        assert_eq!(rt; core.image.as_text(), *image);
        assert!(rt; core.pipeline == *pipeline && core.clock == 1 && core.memory == 65_536);
    }
    let links = board.links.as_slice();
    assert_eq!(rt; links.len(), 3);
    assert!(rt; is_file(&links[0].from, "in") && is_port(&links[0].to, 0, 0));
    assert!(rt; is_port(&links[1].from, 3, 3) && is_port(&links[1].to, 1, 15));
    assert!(rt; is_port(&links[2].from, 2, 1) && is_file(&links[2].to, "out"));
    assert!(rt; links[0].depth == 16 && links[0].name.as_text() == "x");
    let timer = board.timers.get(0).expect(&rt, "a timer");
    assert!(rt; timer.core == 3 && timer.base == 69_632 && timer.irq == None && timer.clock == 1);
    let intc = board.intcs.get(0).expect(&rt, "a controller");
    assert!(rt; intc.core == 3 && intc.base == 65_536 && board.intcs.get(1).is_none());
    assert_eq!(rt; intc.clock, 1);
    let uart = board.uarts.get(0).expect(&rt, "a uart");
    assert!(rt;
        uart.core == 1 && uart.base == 1_073_741_824 && uart.every == 64 && uart.clock == 1
    );
    assert!(rt; uart.output.as_text() == "u" && uart.input.is_none() && uart.irq == None);
    let event = board.events.get(0).expect(&rt, "an event");
    assert!(rt; event.core == 3 && event.cycle == 7 && !event.nonmaskable);
    Ok(())
}

#[test]
fn given_values(rt: HostRuntime) -> Result<(), Fail> {
    let text = "version = 1\norder = 'rotating'\n\
        core.a = {image = 'i', pipeline = 'plain', clock = 3, memory = 8192}\n\
        link.x = {from = 'a', from_port = 0, to_file = 'out', depth = 4096}\n\
        intc.n = {core = 'a', base = 8192}\n\
        timer.t = {core = 'a', base = 12288, irq = 31}\n\
        uart.u = {core = 'a', base = 4294963200, output = 'u', irq = 0, input = 'in', every = 5}\n\
        event.e = {core = 'a', cycle = 1000000000000, kind = 'nonmaskable'}\n";
    let board = board_of(rt.alloc(), text).expect(&rt, "a right board");
    assert!(rt; board.turn == Turn::Rotating && !board.network);
    let core = board.cores.get(0).expect(&rt, "a core");
    assert!(rt; core.clock == 3 && core.memory == 8_192);
    let link = board.links.get(0).expect(&rt, "a link");
    assert_eq!(rt; link.depth, 4_096);
    let timer = board.timers.get(0).expect(&rt, "a timer");
    assert!(rt; timer.base == 12_288 && timer.irq == Some(31));
    let uart = board.uarts.get(0).expect(&rt, "a uart");
    assert!(rt; uart.base == 4_294_963_200 && uart.irq == Some(0) && uart.every == 5);
    assert!(rt; uart.input.is_some());
    let event = board.events.get(0).expect(&rt, "an event");
    assert!(rt; event.cycle == 1_000_000_000_000 && event.nonmaskable);
    let network =
        "version = 1\nnetwork = true\norder = 'descending'\ncore.a = {image = 'i', pipeline = 'plain'}\n";
    let board = board_of(rt.alloc(), network).expect(&rt, "a right board");
    assert!(rt; board.network && board.turn == Turn::Descending);
    Ok(())
}

#[test]
fn given_clocks(rt: HostRuntime) -> Result<(), Fail> {
    let text = "version = 2\n\
        core.a = {image = 'i', pipeline = 'plain'}\n\
        intc.n = {core = 'a', base = 65536, clock = 4}\n\
        timer.t = {core = 'a', base = 69632, clock = 3}\n\
        timer.u = {core = 'a', base = 73728}\n\
        uart.u = {core = 'a', base = 77824, output = 'u', every = 5, clock = 7}\n";
    let board = board_of(rt.alloc(), text).expect(&rt, "a right board");
    assert_eq!(rt; board.version, 2);
    let timers = board.timers.as_slice();
    assert_eq!(rt; timers.len(), 2);
    assert!(rt; timers[0].clock == 3 && timers[1].clock == 1);
    let intc = board.intcs.get(0).expect(&rt, "a controller");
    assert_eq!(rt; intc.clock, 4);
    let uart = board.uarts.get(0).expect(&rt, "a uart");
    assert!(rt; uart.every == 5 && uart.clock == 7);
    Ok(())
}

#[test]
fn a_place_may_end_within_a_character(rt: HostRuntime) -> Result<(), Fail> {
    let text = "'666666666666666666666666666666666666666666666666666666666666663\u{e9}' = 1\n";
    let whole = joined(rt.alloc(), CORE, text)?;
    let fault = match read_board(rt.alloc(), whole.as_bytes()) {
        Ok(_) => return Err(Fail::from("read")),
        Err(fault) => fault,
    };
    match fault {
        BoardFault::Refused { code, place } => {
            assert_eq!(rt; code, 603);
            assert_eq!(rt; place.as_bytes().len(), 64);
            assert_eq!(rt; place.as_bytes()[63], 0xc3);
        }
        BoardFault::NoMemory => return Err(Fail::from("no memory")),
    }
    Ok(())
}

#[test]
fn a_file_of_brackets(rt: HostRuntime) -> Result<(), Fail> {
    let mut file = Vec::new(rt.alloc());
    for _ in 0..1_048_576 {
        file.push(b'[')?;
    }
    assert!(rt; is_answered(rt.alloc(), &file, 601, ""));
    Ok(())
}
