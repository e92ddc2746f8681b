//! Assembling: reading, layout, and the image.
ghost use Rattle.std.specs.Prelude.{◌≡◌, ◌+◌, ◌<◌, ◌≤◌, IfOk, List, None, length};
ghost use Rattle.asm_layout.specs.Layout.{Numbers};
ghost use Rattle.asm_layout.specs.Places.{ArePlaces, member};
ghost use Rattle.asm_source.specs.declared.item.Written.{Written};
ghost use Rattle.asm_source.specs.Items.{pieces};
ghost use Rattle.asm_source.specs.Faults.{least};
ghost use Rattle.asm_source.specs.Source.{HasWord};
ghost use Rattle.std.specs.List.{All};
ghost use Rattle.asm_source.specs.Second.{items_of, place_of, second_faults};
ghost use Rattle.mb_asm.specs.Assembly.{Assembles, IsBuiltOf, IsLaid, entry_at};
ghost use Rattle.mb_asm.specs.WordLines.{AreNear};

use crate::answer::{AsmFault, Assembled, refusal};
use crate::laying::{Laid, lay};
use crate::word_lines::lines_of;
use asm_image::image_parts;
use asm_layout::place_at;
use asm_reading::read_source;
use asm_source::Written;
use core_regs::Order;
use elf_image::{Image, Part, Parts};
use host_io::NoMemory;
use layout_faults::second_fault;
use std::alloc::Global;

/// Where a program begins.
fn entry_at(entry: Option<usize>, places: &[u64], parts: &[Part]) -> u32
    requires some { 0 < length places.now }
    requires near { AreNear places.now }
    ensures { (all : List Written) (F : Numbers) → length places.now ≡ length all + 1 → ArePlaces (pieces (items_of all)) F (length all) places.now → result ≡ entry_at entry (place_of all F) parts.now }
{
    match entry {
        Some(item) => place_at(places, item) as u32,
        None => match parts {
            [] => 0,
            [first, ..] => first.addr,
        },
    }
}

/// The image of items in their layout, and the lines of its words.
fn build(
    alloc: Global,
    order: Order,
    all: &[Written],
    entry: Option<usize>,
    laid: &Laid,
) -> Result<Assembled, NoMemory>
    requires spelled { All (λ (w : Written). HasWord w.item) all.now }
    requires laid { IsLaid all.now laid.now }
    requires sound { least (second_faults all.now (member laid.now.grown.items)) ≡ None }
    ensures { IfOk result (λ a. IsBuiltOf order all.now entry (member laid.now.grown.items) a) }
{
    let places = laid.places.as_slice();
    let grown = laid.grown.as_slice();
    let parts = image_parts(alloc, order, all, places, grown)?;
    let entry = entry_at(entry, places, parts.as_slice());
    let lines = lines_of(alloc, all, places, grown)?;
    let image = Image {
        order,
        entry,
        parts: Parts::from_vec(parts),
    };
    Ok(Assembled { image, lines })
}

/// Assembles a source: its image in the layout of the grown set, and the line of each instruction word; or its first fault.
pub fn assemble(alloc: Global, source: &[u8], order: Order) -> Result<Assembled, AsmFault>
    requires { length source.now ≤ 4_194_304 }
    ensures { Assembles order source.now result }
{
    let reading = read_source(alloc, source)?;
    if let Some(fault) = reading.marked.first.get() {
        return Err(refusal(fault));
    }
    let all = reading.items.as_slice();
    let laid = lay(alloc, all)?;
    let places = laid.places.as_slice();
    let grown = laid.grown.as_slice();
    if let Some(fault) = second_fault(alloc, all, places, grown)? {
        return Err(refusal(fault));
    }
    let assembled = build(alloc, order, all, reading.entry, &laid)?;
    Ok(assembled)
}
