//! Rows of the instruction set, worked by hand from UG984.

mod links;
mod programs;
mod traps;

use crate::acts::{Act, Step};
use crate::bench::BenchPorts;
use crate::step::perform;
use byte_mem::Memory;
use core_regs::{Arch, Order, Size};
use std::alloc::Global;
use std::test::Fail;

/// A core with its memory and its ports.
#[derive(Drop)]
struct Core {
    arch: Arch,
    memory: Memory,
    ports: BenchPorts,
}

/// A core with these words from address 0 on.
fn booted(alloc: Global, words: &[u32]) -> Result<Core, Fail> {
    let mut memory = Memory::new(alloc, 65_536).map_err(|_| "memory")?;
    let mut bytes = Vec::new(alloc);
    for word in words {
        bytes.extend_from_slice(&word.to_be_bytes())?;
    }
    memory
        .fill(0, bytes.as_slice())
        .map_err(|_| "too many words")?;
    Ok(Core {
        arch: Arch::fresh(0, Order::Big, false),
        memory,
        ports: BenchPorts::new(),
    })
}

impl Core {
    fn step(&mut self) -> Result<Step, Fail> {
        if self.ports.spare() == 0 {
            return Err("the log is full".into());
        }
        Ok(perform(&mut self.arch, &mut self.memory, &mut self.ports))
    }
}
