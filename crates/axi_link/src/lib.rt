//! AXI4-Stream links: bounded first-in first-out queues of 32-bit words, each with its TLAST bit.
//!
//! A `Link` holds at most `depth` items, 1 to 4,096, and takes all its memory when it is made. An `Item` is one transfer: a
//! word, and its control bit (TLAST). A `put` at a full link gives the item back, and a `take` at an empty one gives `None`;
//! neither changes the link, and who waits decides the caller.
//!
//! ```text
//! let mut link = Link::new(rt.alloc(), 1)?;
//! let put = link.put(Item { word: 7, control: false });   // Ok(())
//! let full = link.put(Item { word: 8, control: true });   // Err: the item comes back
//! let oldest = link.take();                               // Some(Item { word: 7, control: false })
//! ```
#![tactic(auto)]

mod fifo;
mod item;

pub use fifo::{Link, LinkFault};
pub use item::Item;

#[cfg(test)]
mod tests;
