//! Breakpoints.
ghost use Rattle.std.specs.Prelude.{◌≡◌, ◌<◌, ◌++◌, ◌∷◌, [], map, OnOk, OnErr, slice_get, length};
ghost use Rattle.std.specs.List.{list_any};
ghost use Rattle.board_run.specs.Boards.{exact_acts};
ghost use Rattle.mb_debug.specs.Breaks.{fresh_break, hits, noted, place_of};

use board_run::Board;
use core_iface::Core;
use host_io::NoMemory;

/// An address of a core's memory.
#[derive(Clone, Copy, Debug, PartialEq, Eq)]
pub struct Place {
    pub core: usize,
    pub addr: u32,
}

/// A breakpoint, and how many acts its core had done where the cycle began.
#[derive(Clone, Copy, Debug)]
pub struct Breakpoint {
    pub place: Place,
    pub acts: u64,
}

/// Adds a breakpoint.
pub fn add(breaks: &mut Vec<Breakpoint>, core: usize, addr: u32) -> Result<(), NoMemory>
    ensures ok { OnOk result (breaks.new.items ≡ breaks.old.items ++ fresh_break core addr ∷ []) }
    ensures err { OnErr result (breaks.new.items ≡ breaks.old.items) }
{
    let place = Place { core, addr };
    breaks
        .push(Breakpoint { place, acts: 0 })
        .map_err(|_| NoMemory)
}

/// The acts of a core; 0 where the board hasn't it.
fn acts_of<C: Core>(board: &Board<C>, core: usize) -> u64
    ensures { result ≡ exact_acts (slice_get board.now.cores core) }
{
    if core < usize::from(board.cores()) {
        board.core(core as u16).acts()
    } else {
        0
    }
}

/// Notes the acts of each breakpoint's core.
pub fn note<C: Core>(breaks: &mut [Breakpoint], board: &Board<C>)
    ensures { breaks.new ≡ map (noted board.now) breaks.old }
{
    for k in 0..breaks.len() {
        breaks[k].acts = acts_of(board, breaks[k].place.core);
    }
}

/// Whether the core of a breakpoint acted since, and its pc is there.
fn is_hit<C: Core>(board: &Board<C>, one: &Breakpoint) -> bool
    ensures { result ≡ hits board.now one.now }
{
    if one.place.core < usize::from(board.cores()) {
        let core = board.core(one.place.core as u16);
        core.acts() != one.acts && core.arch().pc == one.place.addr
    } else {
        false
    }
}

/// Whether one of the breakpoints is come to.
pub fn is_any_hit<C: Core>(breaks: &[Breakpoint], board: &Board<C>) -> bool
    ensures { result ≡ list_any (hits board.now) breaks.now }
{
    for one in breaks {
        if is_hit(board, one) {
            return true;
        }
    }
    false
}
