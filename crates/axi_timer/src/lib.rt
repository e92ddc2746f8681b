//! The AXI timer of PG079: two counters of 32 bits that count up or down, are loaded anew at their end or stand still
//! there, and hold one interrupt output high. Capture, pulse width modulation and cascade are left out: a write that
//! asks for them is refused.
//!
//! [`Timer`] is the device, [`Register`] its registers by their offsets, and [`Tcsr`] the bits of control and status.
//!
//! ```text
//! let mut timer = Timer::new();
//! timer.access(Access::Write(0x4, 3))?;        // TLR0: a period of 3 + 2 cycles
//! timer.access(Access::Write(0x0, 0x22))?;     // TCSR0: LOAD, UDT
//! timer.cycle();                               // TCR0 is 3
//! timer.access(Access::Write(0x0, 0xD2))?;     // TCSR0: ENT, ENIT, ARHT, UDT
//! ```
#![tactic(auto)]

mod counter;
mod registers;
mod timer;

pub use counter::Counter;
pub use registers::{Register, Tcsr};
pub use timer::Timer;

#[cfg(test)]
mod tests;
