//! The lines that commands print.
ghost use Rattle.std.specs.Prelude.{◌≡◌, ◌+◌, ◌≤◌, ◌<◌, ◌++◌, None, codes, length};
ghost use Rattle.mb_debug.specs.Prints.{count_line, cycle_line, dropped_line, kind_line, kind_name, link_line, register, registers_line, shown, specials_line};
ghost use Rattle.probe_set.specs.Sets.{named};

use core_regs::Arch;
use host_io::{LongText, Name, Text};
use itoa::Buffer;
use probe_set::ProbeKind;
use run_journal::{add_hex, add_number, add_word};

/// What stands for a name that the board lacks.
pub fn no_name() -> Name
    ensures { result ≡ shown None }
{
    Name::from_text("-").unwrap()
}

/// The cycle number.
#[tactic(auto, unfolding(crate::specs::Prints::cycle_line))]
pub fn cycle_line(cycle: u64) -> LongText
    ensures { result ≡ cycle_line cycle }
{
    let mut line = LongText::new();
    line.push(b"cycle");
    add_number(&mut line, cycle);
    line.push(b"\n");
    line
}

/// Adds the name of a register and its value.
fn add_register(line: &mut LongText, a: &Arch, n: u8)
    requires there { n < 32 }
    requires room { length line.old + 30 ≤ 160 }
    ensures added { line.new ≡ line.old ++ register a.now n }
    ensures short { length line.new ≤ length line.old + 30 }
{
    line.push(b"r");
    line.push(Buffer::new().format(u64::from(n)).as_bytes());
    add_hex(line, a.get(n));
}

/// Four registers, from one on.
#[tactic(auto, unfolding(crate::specs::Prints::registers_line))]
pub fn registers_line(a: &Arch, n: u8) -> LongText
    requires { n ≤ 28 }
    ensures { result ≡ registers_line a.now n }
{
    let mut line = LongText::new();
    add_register(&mut line, a, n);
    line.push(b" ");
    add_register(&mut line, a, n + 1);
    line.push(b" ");
    add_register(&mut line, a, n + 2);
    line.push(b" ");
    add_register(&mut line, a, n + 3);
    line.push(b"\n");
    line
}

/// The special registers.
#[tactic(auto, unfolding(crate::specs::Prints::specials_line))]
pub fn specials_line(a: &Arch) -> LongText
    ensures { result ≡ specials_line a.now }
{
    let mut line = LongText::new();
    line.push(b"pc");
    add_hex(&mut line, a.pc);
    add_word(&mut line, b"msr");
    add_hex(&mut line, a.msr_word());
    add_word(&mut line, b"ear");
    add_hex(&mut line, a.ear);
    add_word(&mut line, b"esr");
    add_hex(&mut line, a.esr);
    add_word(&mut line, b"btr");
    add_hex(&mut line, a.btr);
    add_word(&mut line, b"edr");
    add_hex(&mut line, a.edr);
    line.push(b"\n");
    line
}

/// What a link holds.
#[tactic(auto, unfolding(crate::specs::Prints::link_line))]
pub fn link_line(name: &Name, holds: u64, depth: u64) -> LongText
    ensures { result ≡ link_line name.now holds depth }
{
    let mut line = LongText::new();
    line.push(b"link");
    add_word(&mut line, name.as_bytes());
    add_word(&mut line, b"holds");
    add_number(&mut line, holds);
    add_word(&mut line, b"of");
    add_number(&mut line, depth);
    line.push(b"\n");
    line
}

/// The name of a kind.
pub fn kind_name(kind: ProbeKind) -> &'static [u8]
    ensures name { result.now ≡ kind_name kind }
    ensures short { length result.now ≤ 5 }
{
    match kind {
        ProbeKind::Count => b"count",
        ProbeKind::Trace => b"trace",
        ProbeKind::Watch => b"watch",
        ProbeKind::Cover => b"cover",
    }
}

/// What a probe of this kind counted.
#[tactic(auto, unfolding(crate::specs::Prints::count_line))]
pub fn count_line(kind: ProbeKind, count: u64) -> LongText
    ensures { result ≡ count_line kind count }
{
    let mut line = LongText::new();
    line.push(kind_name(kind));
    add_number(&mut line, count);
    line.push(b"\n");
    line
}

/// The name and kind of a probe.
#[tactic(auto, unfolding(crate::specs::Prints::kind_line))]
pub fn kind_line(name: &Name, kind: ProbeKind) -> LongText
    ensures { result ≡ kind_line name.now kind }
{
    let mut line = LongText::new();
    line.push(b"probe");
    add_word(&mut line, name.as_bytes());
    add_word(&mut line, kind_name(kind));
    line.push(b"\n");
    line
}

/// That a probe was dropped.
#[tactic(auto, unfolding(crate::specs::Prints::dropped_line))]
pub fn dropped_line(name: &Name) -> LongText
    ensures { result ≡ dropped_line name.now }
{
    let mut line = LongText::new();
    line.push(b"dropped");
    add_word(&mut line, name.as_bytes());
    line.push(b"\n");
    line
}
