//! The AXI interrupt controller of PG099, in normal mode: up to 32 inputs whose requests are held until software
//! acknowledges them, and one output. Input 0 has the highest priority. Fast, nested and cascaded modes are left out.
//!
//! [`Intc`] is the device, [`Register`] its registers by their offsets, and [`Mer`] the bits of the master enable.
//!
//! ```text
//! let mut intc = Intc::new();
//! intc.access(Access::Write(0x8, 0x1))?;      // IER: input 0
//! intc.access(Access::Write(0x1C, 0x3))?;     // MER: ME, HIE
//! intc.cycle(0x1);                            // input 0 is high: the output is high
//! intc.access(Access::Write(0xC, 0x1))?;      // IAR: acknowledged, the output is low
//! ```
#![tactic(auto)]

mod intc;
mod registers;

pub use intc::Intc;
pub use registers::{Mer, Register};

#[cfg(test)]
mod tests;
