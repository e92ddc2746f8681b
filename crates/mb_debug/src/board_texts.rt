//! What commands print of a board.
ghost use Rattle.std.specs.Prelude.{◌≡◌, ◌+◌, ◌<◌, ◌≤◌, ◌*◌, ◌%◌, ◌==◌, ◌||◌, ◌++◌, OnOk, codes, if◌then◌else◌, length, slice_get};
ghost use Rattle.mb_debug.specs.Prints.{byte_at, byte_text, core_at, cores_text, link_at, links_text, mem_byte, mem_of, mem_text, name_of, registers_line, regs_of, regs_text};

use crate::lines::{link_line, no_name, registers_line, specials_line};
use board_run::Board;
use core_iface::Core;
use core_regs::Arch;
use debug_script::{Names, ScriptNames};
use host_io::{Name, NoMemory, hex_of_byte};
use run_output::core_line;

/// Adds bytes to a text.
pub fn add(text: &mut Vec<u8>, more: &[u8]) -> Result<(), NoMemory>
    ensures { OnOk result (text.new.items ≡ text.old.items ++ more.now) }
{
    text.extend_from_slice(more).map_err(|_| NoMemory)
}

/// A name of a list, or `-` where it has none.
pub fn name_of(names: &Names, k: u16) -> Name
    ensures { result ≡ name_of names.now k }
{
    match names.get(usize::from(k)) {
        Some(name) => name.copied(),
        None => no_name(),
    }
}

/// Adds all registers.
#[tactic(auto, unfolding(crate::specs::Prints::regs_text))]
fn add_registers(text: &mut Vec<u8>, a: &Arch) -> Result<(), NoMemory>
    ensures { OnOk result (text.new.items ≡ text.old.items ++ regs_text a.now) }
{
    for k in 0..8u8 {
        add(text, registers_line(a, 4 * k).as_bytes())?;
    }
    add(text, specials_line(a).as_bytes())
}

/// Adds the registers of a core.
pub fn add_regs<C: Core>(text: &mut Vec<u8>, board: &Board<C>, core: usize) -> Result<(), NoMemory>
    ensures { OnOk result (text.new.items ≡ text.old.items ++ regs_of (slice_get board.now.cores core)) }
{
    if core < usize::from(board.cores()) {
        add_registers(text, &board.core(core as u16).arch())
    } else {
        Ok(())
    }
}

/// The byte that stands so far behind an address.
fn byte_at<C: Core>(core: &C, addr: u32, k: u16) -> Option<u8>
    ensures { result ≡ byte_at (C.state core.now).view.memory (addr + k) }
{
    core.byte(addr.checked_add(u32::from(k))?)
}

/// A byte as two digits.
fn byte_text(byte: Option<u8>) -> [u8; 2]
    ensures { result ≡ byte_text byte }
{
    match byte {
        Some(byte) => hex_of_byte(byte),
        None => *b"--",
    }
}

/// What stands behind byte `k` of so many: the end of a line, or a space.
fn behind(count: u16, k: u16) -> &'static [u8]
    requires { k < count }
    ensures { result.now ≡ (if k % 16 == 15 || k + 1 == count then codes "\n" else codes " ") }
{
    if k % 16 == 15 || k + 1 == count {
        b"\n"
    } else {
        b" "
    }
}

/// Adds a byte of memory and what stands behind it.
fn add_byte<C: Core>(
    text: &mut Vec<u8>,
    core: &C,
    addr: u32,
    count: u16,
    k: u16,
) -> Result<(), NoMemory>
    requires { k < count }
    ensures { OnOk result (text.new.items ≡ text.old.items ++ mem_byte (C.state core.now).view.memory addr count k) }
{
    add(text, &byte_text(byte_at(core, addr, k)))?;
    add(text, behind(count, k))
}

/// Adds bytes of memory.
fn add_bytes<C: Core>(text: &mut Vec<u8>, core: &C, addr: u32, count: u16) -> Result<(), NoMemory>
    ensures { OnOk result (text.new.items ≡ text.old.items ++ mem_text (C.state core.now).view.memory addr count) }
{
    for k in 0..count {
        add_byte(text, core, addr, count, k)?;
    }
    Ok(())
}

/// Adds bytes of a core's memory.
pub fn add_mem<C: Core>(
    text: &mut Vec<u8>,
    board: &Board<C>,
    core: usize,
    addr: u32,
    count: u16,
) -> Result<(), NoMemory>
    ensures { OnOk result (text.new.items ≡ text.old.items ++ mem_of (slice_get board.now.cores core) addr count) }
{
    if core < usize::from(board.cores()) {
        add_bytes(text, board.core(core as u16), addr, count)
    } else {
        Ok(())
    }
}

/// Adds what a link holds.
fn add_link<C: Core>(
    text: &mut Vec<u8>,
    board: &Board<C>,
    names: &ScriptNames,
    k: u16,
) -> Result<(), NoMemory>
    requires { k < length board.now.fabric.links }
    ensures { OnOk result (text.new.items ≡ text.old.items ++ link_at names.now board.now k) }
{
    let name = name_of(&names.links, k);
    let line = link_line(&name, board.link_len(k) as u64, board.link_depth(k) as u64);
    add(text, line.as_bytes())
}

/// Adds what each link holds.
pub fn add_links<C: Core>(
    text: &mut Vec<u8>,
    board: &Board<C>,
    names: &ScriptNames,
) -> Result<(), NoMemory>
    ensures { OnOk result (text.new.items ≡ text.old.items ++ links_text names.now board.now) }
{
    for k in 0..board.links() {
        add_link(text, board, names, k)?;
    }
    Ok(())
}

/// Adds where a core is.
fn add_core<C: Core>(
    text: &mut Vec<u8>,
    board: &Board<C>,
    names: &ScriptNames,
    k: u16,
) -> Result<(), NoMemory>
    requires { k < length board.now.cores }
    ensures { OnOk result (text.new.items ≡ text.old.items ++ core_at names.now board.now k) }
{
    let core = board.core(k);
    let name = name_of(&names.cores, k);
    let line = core_line(&name, board.idle(k), core.arch().pc, core.acts());
    add(text, line.as_bytes())
}

/// Adds where each core is.
pub fn add_cores<C: Core>(
    text: &mut Vec<u8>,
    board: &Board<C>,
    names: &ScriptNames,
) -> Result<(), NoMemory>
    ensures { OnOk result (text.new.items ≡ text.old.items ++ cores_text names.now board.now) }
{
    for k in 0..board.cores() {
        add_core(text, board, names, k)?;
    }
    Ok(())
}
