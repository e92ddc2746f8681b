//! The board of a ring.
ghost use Rattle.std.specs.Prelude.{◌≡◌, ◌<◌, ◌≤◌, IfSome, length, map};
ghost use Rattle.std.specs.List.{range_with_len};
ghost use Rattle.ring_demo.specs.Ring.{core_name, cores_of, output_link, pipeline_at, ring_board, ring_core, ring_link, ring_links};

use crate::program::MEMORY;
use board_file::{
    BoardFile, CoreRow, Cores, End, Events, Intcs, LinkRow, Links, Pipeline, Timers, Turn, Uarts,
};
use host_io::{FileName, Name};
use std::alloc::Global;

/// The number of cores of the ring of a number.
pub fn cores_of(number: u32) -> u16
    ensures count { result ≡ cores_of number }
    ensures few { result ≤ 16 }
    ensures some { 2 ≤ result }
{
    (number % 15) as u16 + 2
}

/// The name of a core.
fn core_name(core: u16) -> Name
    requires { core < 16 }
    ensures { result ≡ core_name core }
{
    let text = match core {
        0 => "c00",
        1 => "c01",
        2 => "c02",
        3 => "c03",
        4 => "c04",
        5 => "c05",
        6 => "c06",
        7 => "c07",
        8 => "c08",
        9 => "c09",
        10 => "c10",
        11 => "c11",
        12 => "c12",
        13 => "c13",
        14 => "c14",
        _ => "c15",
    };
    Name::from_text(text).unwrap()
}

/// The pipeline of a core.
fn pipeline_at(core: u16) -> Pipeline
    ensures { result ≡ pipeline_at core }
{
    match core % 4 {
        0 => Pipeline::Plain,
        1 => Pipeline::Three,
        2 => Pipeline::Five,
        _ => Pipeline::Eight,
    }
}

/// The row of a core.
fn ring_core(core: u16) -> CoreRow
    requires { core < 16 }
    ensures { result ≡ ring_core core }
{
    CoreRow {
        name: core_name(core),
        image: FileName::from_text("image").unwrap(),
        pipeline: pipeline_at(core),
        clock: 1,
        memory: MEMORY,
    }
}

/// The link from a core to the next.
fn ring_link(cores: u16, core: u16) -> LinkRow
    requires few { cores ≤ 16 }
    requires there { core < cores }
    ensures { result ≡ ring_link cores core }
{
    LinkRow {
        name: core_name(core),
        depth: 4,
        from: End::Port { core, port: 0 },
        to: End::Port {
            core: (core + 1) % cores,
            port: 0,
        },
    }
}

/// The link from core 0 to the output.
fn output_link() -> LinkRow
    ensures { result ≡ output_link }
{
    LinkRow {
        name: Name::from_text("output").unwrap(),
        depth: 4,
        from: End::Port { core: 0, port: 1 },
        to: End::File(FileName::from_text("output").unwrap()),
    }
}

/// The rows of the cores; `None` for want of memory.
#[tactic(auto, using(crate::proofs::Lists::row_next))]
fn core_rows(alloc: Global, cores: u16) -> Option<Vec<CoreRow>>
    requires { cores ≤ 16 }
    ensures { IfSome result (λ rows. rows.items ≡ map ring_core (range_with_len 0 cores)) }
{
    let mut rows = Vec::new(alloc);
    for core in 0..cores {
        rows.push(ring_core(core)).ok()?;
    }
    Some(rows)
}

/// The rows of the links; `None` for want of memory.
#[tactic(auto, using(crate::proofs::Lists::row_next))]
fn link_rows(alloc: Global, cores: u16) -> Option<Vec<LinkRow>>
    requires { cores ≤ 16 }
    ensures { IfSome result (λ rows. rows.items ≡ ring_links cores) }
{
    let mut rows = Vec::new(alloc);
    for core in 0..cores {
        rows.push(ring_link(cores, core)).ok()?;
    }
    rows.push(output_link()).ok()?;
    Some(rows)
}

/// The board of the ring of a number; `None` for want of memory.
pub fn ring_board(alloc: Global, turn: Turn, number: u32) -> Option<BoardFile>
    ensures { IfSome result (λ b. b ≡ ring_board turn number) }
{
    let cores = cores_of(number);
    Some(BoardFile {
        version: 1,
        turn,
        network: true,
        cores: Cores::from_vec(core_rows(alloc, cores)?),
        links: Links::from_vec(link_rows(alloc, cores)?),
        timers: Timers::from_vec(Vec::new(alloc)),
        intcs: Intcs::from_vec(Vec::new(alloc)),
        uarts: Uarts::from_vec(Vec::new(alloc)),
        events: Events::from_vec(Vec::new(alloc)),
    })
}
