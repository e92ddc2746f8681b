//! The layout of items.
ghost use Rattle.std.specs.Prelude.{◌≡◌, ◌≤◌, ◌^◌, IfOk, length};
ghost use Rattle.asm_source.specs.Items.{pieces};
ghost use Rattle.asm_source.specs.Second.{items_of};
ghost use Rattle.mb_asm.specs.Assembly.{IsLaid};

use asm_layout::{Piece, grow};
use asm_source::Written;
use host_io::NoMemory;
use std::alloc::Global;

/// A place for each item and one behind the last, and whether the label of each has a prefix.
#[derive(Drop)]
pub struct Laid {
    pub places: Vec<u64>,
    pub grown: Vec<bool>,
}

/// What the items are to the layout.
fn pieces_of(alloc: Global, all: &[Written]) -> Result<Vec<Piece>, NoMemory>
    ensures same { IfOk result (λ list. list.items ≡ pieces (items_of all.now)) }
    ensures len { IfOk result (λ list. length list.items ≡ length all.now) }
{
    let mut list = Vec::new(alloc);
    for k in 0..all.len() {
        let piece = all[k].item.piece();
        list.push(piece)?;
    }
    Ok(list)
}

/// The layout of items in their grown set.
pub fn lay(alloc: Global, all: &[Written]) -> Result<Laid, NoMemory>
    requires { length all.now ≤ 2 ^ 24 }
    ensures { IfOk result (λ laid. IsLaid all.now laid) }
{
    let list = pieces_of(alloc, all)?;
    let mut grown = vec![in alloc; false; all.len()]?;
    let mut places = vec![in alloc; 0u64; all.len() + 1]?;
    grow(list.as_slice(), grown.as_mut_slice(), places.as_mut_slice());
    Ok(Laid { places, grown })
}
