//! An image: where it starts, and its parts.
ghost use Rattle.std.specs.Prelude.{◌≡◌, ◌↔◌, ◌<◌, Some, IsSome, IfSome, length, slice_get};

use core_regs::Order;
use host_io::Blob;
use std::marker::Model;

/// Bytes that are loaded at an address, and the number of zeros behind them.
#[derive(Debug, Drop)]
pub struct Part {
    /// The address of the first byte.
    pub addr: u32,
    pub bytes: Blob,
    /// How many bytes of 0 follow.
    pub zeros: u32,
    /// Whether the segment is marked as executable (PF_X).
    pub code: bool,
}

/// What an executable loads, in the order of its file. It means the list of the parts.
#[derive(Debug, Drop)]
pub struct Parts {
    parts: Vec<Part>,
}

impl Model for Parts {
    ghost use Rattle.std.specs.Prelude.{List};
    ghost use Rattle.elf_image.specs.declared.image.Part.{Part};

    ghost Value = { List Part };

    ghost view = { λ p. p.parts.items };
}

impl Parts {
    /// These parts.
    pub fn from_vec(parts: Vec<Part>) -> Self
        ensures { result ≡ parts.items }
    {
        Parts { parts }
    }

    /// All parts in order.
    pub fn as_slice(&self) -> &[Part]
        ensures { result.now ≡ self.now }
    {
        self.parts.as_slice()
    }

    /// The number of parts.
    pub fn len(&self) -> usize
        ensures { result ≡ length self.now }
    {
        self.parts.len()
    }

    /// Part `k`, or `None` exactly where `k` isn't below `len`.
    pub fn get(&self, k: usize) -> Option<&Part>
        ensures within { IsSome result ↔ (k < length self.now) }
        ensures item { IfSome result (λ part. slice_get self.now k ≡ Some part.now) }
    {
        self.parts.get(k)
    }
}

/// What an executable loads, and where it starts.
#[derive(Debug, Drop)]
pub struct Image {
    pub order: Order,
    /// The address of the first instruction.
    pub entry: u32,
    pub parts: Parts,
}
