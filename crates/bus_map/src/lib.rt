//! The bus of a core, as its devices see it: accesses of words to registers at offsets, an output for interrupts, and
//! windows of 4,096 bytes that tell by address which device is meant. A device is anything that is a [`Device`].
//!
//! [`Map`] holds the windows of one bus, and finds the [`Spot`] of an address:
//!
//! ```text
//! let windows = [Window { base: 0x4060_0000, device: 0 }, Window { base: 0x4120_0000, device: 1 }];
//! let map = Map::build(alloc, &windows)?;
//! map.find(0x4120_0008)       // Some(Spot { device: 1, offset: 8 })
//! map.find(0x4120_1000)       // None
//! ```
#![tactic(auto)]

mod device;
mod map;

pub use device::{Access, BadAccess, Device};
pub use map::{Map, NoMemory, Spot, WINDOW_BYTES, Window};

#[cfg(test)]
mod tests;
