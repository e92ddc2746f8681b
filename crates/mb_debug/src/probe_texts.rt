//! What commands print of probes.
ghost use Rattle.std.specs.Prelude.{◌≡◌, ◌++◌, OnOk, flat_map, map};
ghost use Rattle.mb_debug.specs.Prints.{entry_line, kind_of, last_lines, part_name, probe_text};
ghost use Rattle.probe_set.specs.Sets.{items_of, named, state_named};

use crate::board_texts::{add, name_of};
use crate::lines::{count_line, kind_line, no_name};
use debug_script::ScriptNames;
use host_io::{LongText, Name, NoMemory};
use probe_set::{Attached, Probe, ProbeKind, ProbeSet, ProbeState};
use run_journal::{Entry, What, line_of};

/// The name of the link or UART that an entry is about.
fn part_name(names: &ScriptNames, what: &What) -> Name
    ensures { result ≡ part_name names.now what.now }
{
    match *what {
        What::HostSent { link, .. } => name_of(&names.links, link),
        What::HostGot { link, .. } => name_of(&names.links, link),
        What::Left { uart, .. } => name_of(&names.uarts, uart),
        _ => no_name(),
    }
}

/// The journal line of an entry.
fn entry_line(names: &ScriptNames, e: &Entry) -> LongText
    ensures { result ≡ entry_line names.now e.now }
{
    let core = name_of(&names.cores, e.core);
    line_of(e, &core, &part_name(names, &e.what))
}

/// Adds the journal lines of entries.
fn add_entries(text: &mut Vec<u8>, names: &ScriptNames, entries: &[Entry]) -> Result<(), NoMemory>
    ensures { OnOk result (text.new.items ≡ text.old.items ++ flat_map (entry_line names.now) entries.now) }
{
    for e in entries {
        add(text, entry_line(names, e).as_bytes())?;
    }
    Ok(())
}

/// Adds the newest entries, which a trace alone tells.
fn add_last(text: &mut Vec<u8>, names: &ScriptNames, state: &ProbeState) -> Result<(), NoMemory>
    ensures { OnOk result (text.new.items ≡ text.old.items ++ last_lines names.now state.now state.now.kind) }
{
    match state.kind {
        ProbeKind::Trace => add_entries(text, names, state.last.as_slice()),
        ProbeKind::Count => Ok(()),
        ProbeKind::Watch => Ok(()),
        ProbeKind::Cover => Ok(()),
    }
}

/// Adds what a probe found.
pub fn add_probe(
    text: &mut Vec<u8>,
    names: &ScriptNames,
    state: &Option<ProbeState>,
) -> Result<(), NoMemory>
    ensures { OnOk result (text.new.items ≡ text.old.items ++ probe_text names.now state.now) }
{
    match state {
        Some(state) => {
            add(text, count_line(state.kind, state.count).as_bytes())?;
            add_last(text, names, state)
        }
        None => Ok(()),
    }
}

/// The kind of an attached probe.
fn kind_of(one: &Attached) -> ProbeKind
    ensures { result ≡ (state_of (one.now.probe.vtable, one.now.probe.value)).kind }
{
    one.probe.kind()
}

/// Adds the names and kinds of all probes, in order of attachment.
pub fn add_kinds(text: &mut Vec<u8>, probes: &ProbeSet) -> Result<(), NoMemory>
    ensures { OnOk result (text.new.items ≡ text.old.items ++ flat_map kind_of (map (λ a. named a.name (state_of (a.probe.vtable, a.probe.value))) (items_of probes.now.probes))) }
{
    for one in probes.attached() {
        add(text, kind_line(&one.name, kind_of(one)).as_bytes())?;
    }
    Ok(())
}
