//! The private memory of a core: bytes by address, read and written in either byte order.
//!
//! A `Memory` has from 4,096 to 67,108,864 bytes, of 0 at first; contracts see it as the list of its bytes. It keeps them as
//! pages of 1,024 words, all taken by `new`. An access of a `Size` at an address that is a multiple of `bytes_of(size)`
//! reads or writes it, or answers `Outside`.
//!
//! ```text
//! let mut memory = Memory::new(rt.alloc(), 4_096)?;
//! memory.write(8, Size::Half, Order::Big, 0x1234)?; // byte 8 is 0x12
//! let low = memory.read(8, Size::Byte, Order::Big)?;
//! ```
#![tactic(auto)]

mod bytes;
mod lanes;
mod laws;
mod pages;

pub use bytes::{Memory, MemoryFault, Outside};
pub use lanes::bytes_of;
pub use laws::{copy_laws, store_laws};

#[cfg(test)]
mod tests;
