ghost use Rattle.std.specs.Prelude.{◌≡◌, ◌<◌, ◌≤◌, ◌↔◌, ◌⊎◌, length, IfErr, IfOk, IsErrOf, IsOk, IsTrue, OnOk};
ghost use Rattle.axi_link.specs.Channel.{empty, has_room, oldest, with_newest, without_oldest};

use crate::item::Item;
use circular_buffer::HeapCircularBuffer;
use std::alloc::Global;
use std::marker::Model;

/// The greatest depth of a link, in items.
const MAX_DEPTH: usize = 4096;

/// Why a link was not made.
#[derive(Clone, Copy, PartialEq, Eq, Debug)]
pub enum LinkFault {
    /// The depth isn't 1 to 4,096 items.
    BadDepth,
    /// There was no memory for the items.
    NoMemory,
}

/// A first-in first-out queue of items, whose depth is fixed when it is made.
///
/// All its memory is taken by `new`: no other call takes any.
#[derive(Drop)]
pub struct Link {
    queue: HeapCircularBuffer<Item>,
}

impl Model for Link {
    ghost use Rattle.std.specs.Prelude.{◌≤◌, length};
    ghost use Rattle.axi_link.specs.Channel.{Channel};

    ghost Value = { Channel };

    ghost view = { λ l. record { depth = l.queue.capacity; items = l.queue.items } };

    ghost invariant = { λ l. (1 ≤ l.queue.capacity) × (l.queue.capacity ≤ 4096) × (length l.queue.items ≤ l.queue.capacity) };
}

impl Link {
    /// Makes an empty link that holds at most `depth` items.
    ///
    /// `BadDepth` comes exactly where `depth` isn't 1 to 4,096, and `NoMemory` only for want of memory.
    pub fn new(alloc: Global, depth: usize) -> Result<Link, LinkFault>
        ensures bad_depth { IsErrOf result LinkFault.BadDepth ↔ (depth < 1) ⊎ (4096 < depth) }
        ensures made { IfOk result (λ l. l ≡ empty depth) }
    {
        if depth < 1 || depth > MAX_DEPTH {
            return Err(LinkFault::BadDepth);
        }
        let queue = HeapCircularBuffer::with_capacity(alloc, depth).map_err(
            |_| LinkFault::NoMemory,
        )?;
        Ok(Link { queue })
    }

    /// The oldest item; None exactly where the link is empty.
    pub fn peek(&self) -> Option<Item>
        ensures { result ≡ oldest self.now }
    {
        self.queue.front().copied()
    }

    /// Takes the oldest item off the link; None, and no change, exactly where it is empty.
    pub fn take(&mut self) -> Option<Item>
        ensures item { result ≡ oldest self.old }
        ensures after { self.new ≡ without_oldest self.old }
    {
        self.queue.pop_front()
    }

    /// Puts an item behind the others. Exactly where the link is full the item comes back and nothing changes.
    pub fn put(&mut self, item: Item) -> Result<(), Item>
        ensures room { IsOk result ↔ IsTrue (has_room self.old) }
        ensures ok { OnOk result (self.new ≡ with_newest item self.old) }
        ensures full { IfErr result (λ back. (back ≡ item) × (self.new ≡ self.old)) }
    {
        self.queue.try_push_back(item)
    }

    /// The number of items that the link holds.
    pub fn len(&self) -> usize
        ensures items { result ≡ length self.now.items }
        ensures within { result ≤ self.now.depth }
    {
        self.queue.len()
    }

    /// The most items that the link can hold.
    pub fn depth(&self) -> usize
        ensures depth { result ≡ self.now.depth }
        ensures within { (1 ≤ result) × (result ≤ 4096) }
    {
        self.queue.capacity()
    }
}
