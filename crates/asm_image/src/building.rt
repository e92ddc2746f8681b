//! The parts of an image, item by item.
ghost use Rattle.std.specs.Prelude.{◌≡◌, ◌+◌, ◌<◌, List, [], IfOk, OnOk, length, map};
ghost use Rattle.std.specs.List.{All};
ghost use Rattle.asm_layout.specs.Layout.{Numbers};
ghost use Rattle.asm_layout.specs.Places.{AreBelow, ArePlaces, member};
ghost use Rattle.asm_source.specs.declared.item.Item.{Item};
ghost use Rattle.asm_source.specs.declared.item.Written.{Written};
ghost use Rattle.core_regs.specs.declared.causes.Order.{Order};
ghost use Rattle.asm_source.specs.Items.{pieces};
ghost use Rattle.asm_source.specs.Second.{items_of};
ghost use Rattle.asm_source.specs.Source.{AreParts, HasWord, parts_of};
ghost use Rattle.asm_image.specs.Built.{IsBuilt, IsPlain, address_of, closed, pair_of};

use crate::contents::put_item;
use asm_source::{Item, Written};
use core_regs::Order;
use elf_image::Part;
use host_io::{Blob, NoMemory};
use std::alloc::Global;
use std::mem::replace;

/// The address of a part that an item begins.
fn address_of(item: Item) -> Option<u32>
    ensures { result ≡ address_of item }
{
    match item {
        Item::Part(address) => Some(address),
        _ => None,
    }
}

/// The parts that are built, and the one that is open: where it begins, and its bytes.
#[derive(Drop)]
pub struct Building {
    pub parts: Vec<Part>,
    pub start: u32,
    pub bytes: Vec<u8>,
}

impl Building {
    /// Nothing is built yet.
    fn new(alloc: Global) -> Self
        ensures { (order : Order) (items : List Item) (F : Numbers) → IsBuilt order items F 0 result }
    {
        Building {
            parts: Vec::new(alloc),
            start: 0,
            bytes: Vec::new(alloc),
        }
    }

    /// Ends the open part, which is kept where it has bytes.
    fn end_part(&mut self, alloc: Global) -> Result<(), NoMemory>
        ensures parts { OnOk result (self.new.parts.items ≡ closed self.old) }
        ensures bytes { OnOk result (self.new.bytes.items ≡ []) }
    {
        let bytes = replace(&mut self.bytes, Vec::new(alloc));
        if bytes.len() == 0 {
            return Ok(());
        }
        self.parts.push(Part {
            addr: self.start,
            bytes: Blob::from_vec(bytes),
            zeros: 0,
            code: true,
        })?;
        Ok(())
    }

    /// Ends the open part, and begins one at an address.
    fn begin(&mut self, alloc: Global, address: u32) -> Result<(), NoMemory>
        ensures parts { OnOk result (self.new.parts.items ≡ closed self.old) }
        ensures bytes { OnOk result (self.new.bytes.items ≡ []) }
        ensures start { OnOk result (self.new.start ≡ address) }
    {
        self.end_part(alloc)?;
        self.start = address;
        Ok(())
    }

    /// Builds item `k`.
    fn add_item(
        &mut self,
        alloc: Global,
        order: Order,
        all: &[Written],
        places: &[u64],
        grown: &[bool],
        k: usize,
    ) -> Result<(), NoMemory>
        requires spelled { All (λ (w : Written). HasWord w.item) all.now }
        requires within { k < length all.now }
        requires room { length places.now ≡ length all.now + 1 }
        requires same { length grown.now ≡ length all.now }
        requires laid { ArePlaces (pieces (items_of all.now)) (member grown.now) (length all.now) places.now }
        requires below { AreBelow (length all.now) places.now }
        ensures { OnOk result (IsBuilt order (items_of all.now) (member grown.now) k self.old → IsBuilt order (items_of all.now) (member grown.now) (k + 1) self.new) }
    {
        let item = all[k].item;
        if let Some(address) = address_of(item) {
            self.begin(alloc, address)?;
            return Ok(());
        }
        let long = item.prefixed(grown[k]);
        let bytes = &mut self.bytes;
        put_item(bytes, order, places, item, long, places[k], places[k + 1])?;
        Ok(())
    }
}

/// The parts of an image, those without bytes left out: the items of a source in a layout.
pub fn image_parts(
    alloc: Global,
    order: Order,
    all: &[Written],
    places: &[u64],
    grown: &[bool],
) -> Result<Vec<Part>, NoMemory>
    requires spelled { All (λ (w : Written). HasWord w.item) all.now }
    requires room { length places.now ≡ length all.now + 1 }
    requires same { length grown.now ≡ length all.now }
    requires laid { ArePlaces (pieces (items_of all.now)) (member grown.now) (length all.now) places.now }
    requires below { AreBelow (length all.now) places.now }
    ensures parts { IfOk result (λ parts. AreParts order (map pair_of parts.items) (parts_of order (items_of all.now) (member grown.now))) }
    ensures plain { IfOk result (λ parts. All IsPlain parts.items) }
{
    let mut building = Building::new(alloc);
    for k in 0..all.len() {
        building.add_item(alloc, order, all, places, grown, k)?;
    }
    building.end_part(alloc)?;
    let Building { parts, .. } = building;
    Ok(parts)
}
