//! The UART of PG142: a queue of 16 bytes each way, polled by its status register, and an interrupt that is an edge.
//! Framing and parity errors are left out.
//!
//! [`Uart`] is the device, [`Register`] its registers by their offsets, [`Stat`] and [`Ctrl`] the bits of status and
//! control. The bytes that arrive come from the caller, one a cycle, and each cycle gives the byte that left.
//!
//! ```text
//! let mut uart = Uart::new(alloc)?;
//! uart.access(Access::Write(0x4, 0x48))?;     // TX: the byte 48
//! let left = uart.cycle(Some(0x69));          // 48 leaves, and 69 arrives
//! let byte = uart.access(Access::Read(0x0))?; // RX: 69
//! ```
#![tactic(auto)]

mod laws;
mod registers;
mod uart;

pub use laws::an_idle_uart_stays;
pub use registers::{Ctrl, Register, Stat};
pub use uart::{QUEUE_DEPTH, Uart};

#[cfg(test)]
mod tests;
