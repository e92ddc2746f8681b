//! The cores of a ring, each with its program.
ghost use Rattle.std.specs.Prelude.{◌≡◌, ◌<◌, ◌≤◌, IfSome, length, map};
ghost use Rattle.std.specs.List.{range_with_len};
ghost use Rattle.any_core.specs.States.{any_state};
ghost use Rattle.board_run.specs.Boards.{AreNew, IsNew};
ghost use Rattle.exact_machine.specs.Runs.{pipe_of};
ghost use Rattle.ring_demo.specs.Programs.{first_words, image_of, memory_of, next_words, ring_view, value_of};
ghost use Rattle.ring_demo.specs.Ring.{pipeline_at, ring_core};

use any_core::AnyCore;
use byte_mem::Memory;
use core_regs::{Arch, Order};
use std::alloc::Global;
use timing_law::Pipe;

/// The bytes of a core's memory.
pub const MEMORY: u32 = 4_096;

/// The first word that core 0 sends.
fn value_of(number: u32) -> u32
    ensures { result ≡ value_of number }
{
    ((u64::from(number) * 1_103_515_245 + 12_345) % 0x1_0000_0000) as u32
}

/// The words of core 0: it sends 1,000 words, from a value on, round the ring, and hands on to the output what comes back.
fn first_words(value: u32) -> [u32; 10]
    ensures { result ≡ first_words value }
{
    [
        0xB000_0000 + value / 0x1_0000,
        0x3060_0000 + value % 0x1_0000,
        0x30A0_03E8,
        0x6C03_8000,
        0x6C80_0000,
        0x6C04_8001,
        0x3063_0001,
        0x30A5_FFFF,
        0xBC25_FFEC,
        0xB800_0000,
    ]
}

/// The words of a later core: it adds its number to each of 1,000 words that it gets, and sends them on.
fn next_words(core: u16) -> [u32; 7]
    ensures { result ≡ next_words core }
{
    [
        0x30A0_03E8,
        0x6C80_0000,
        0x3084_0000 + u32::from(core),
        0x6C04_8000,
        0x30A5_FFFF,
        0xBC25_FFF0,
        0xB800_0000,
    ]
}

/// A memory that begins with these words, the most significant byte first, and zeros behind them; `None` for want of
/// memory.
fn memory_with(alloc: Global, words: &[u32]) -> Option<Memory>
    requires { length words.now ≤ 10 }
    ensures { IfSome result (λ memory. memory ≡ memory_of words.now) }
{
    let image = image_of(alloc, words)?;
    let Ok(mut memory) = Memory::new(alloc, MEMORY as u64) else {
        return None;
    };
    let Ok(()) = memory.fill(0, image.as_slice()) else {
        return None;
    };
    Some(memory)
}

/// The bytes of words; `None` for want of memory.
fn image_of(alloc: Global, words: &[u32]) -> Option<Vec<u8>>
    ensures { IfSome result (λ image. image.items ≡ image_of words.now) }
{
    let mut image = Vec::new(alloc);
    for word in words {
        image.extend_from_slice(&word.to_be_bytes()).ok()?;
    }
    Some(image)
}

/// The pipeline of a core.
fn pipe_at(core: u16) -> Pipe
    ensures { result ≡ pipe_of (pipeline_at core) }
{
    match core % 4 {
        0 => Pipe::Plain,
        1 => Pipe::Three,
        2 => Pipe::Five,
        _ => Pipe::Eight,
    }
}

/// The memory of a core of the ring of a number; `None` for want of memory.
fn ring_memory(alloc: Global, number: u32, core: u16) -> Option<Memory>
    ensures { IfSome result (λ memory. memory ≡ (ring_view number core).memory) }
{
    if core == 0 {
        memory_with(alloc, &first_words(value_of(number)))
    } else {
        memory_with(alloc, &next_words(core))
    }
}

/// A core of the ring of a number, at the start of its program; `None` for want of memory.
#[tactic(auto, using(crate::proofs::Rings::begun_is_new))]
fn ring_core(alloc: Global, number: u32, core: u16) -> Option<AnyCore>
    ensures view { IfSome result (λ made. (any_state made).view ≡ ring_view number core) }
    ensures new { IfSome result (λ made. IsNew (ring_core core) (any_state made)) }
{
    let memory = ring_memory(alloc, number, core)?;
    Some(AnyCore::new(pipe_at(core), memory, Arch::fresh(0, Order::Big, true)))
}

/// The cores of the ring of a number; `None` for want of memory.
pub fn ring_cores(alloc: Global, number: u32, count: u16) -> Option<Vec<AnyCore>>
    ensures views { IfSome result (λ cores. map (λ core. (any_state core).view) cores.items ≡ map (ring_view number) (range_with_len 0 count)) }
    ensures new { IfSome result (λ cores. AreNew (map ring_core (range_with_len 0 count)) (map any_state cores.items)) }
{
    let mut cores = Vec::new(alloc);
    for core in 0..count {
        let made = ring_core(alloc, number, core)?;
        if cores.push(made).is_err() {
            return None;
        }
    }
    Some(cores)
}
