//! The devices of a board: windows on the bus of each core, and the moves of a cycle.
//!
//! A `Bus` holds the timers, interrupt controllers and UARTs of a board, each on the bus of one core. `read` and `write` are
//! a core's accesses; `move_timers`, `move_uart` and `move_intcs` are the parts of a cycle, in this order; `line` is what a
//! core's controller then asks for. Each is equal to its word of the board machine.
//!
//! ```text
//! let mut bus = Bus::new(alloc, timers, intcs, uarts, inputs)?;
//! bus.write(0, 0x4060_0004, 0x48)     // Ok(0): the UART at 4060_0000 takes a byte
//! bus.move_uart(0)                    // Some(0x48): it leaves
//! ```
#![tactic(auto)]

mod build;
mod bus;
mod moves;
mod resting;
mod serial;

pub use bus::Bus;

#[cfg(test)]
mod tests;
