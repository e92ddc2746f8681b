//! Symbols, and lists of them.
ghost use Rattle.std.specs.Prelude.{◌≡◌, ◌↔◌, ◌<◌, Some, IsSome, IfSome, length, slice_get};

use host_io::Blob;
use std::marker::Model;

/// A symbol: its name, and its value, which is an address for most kinds.
#[derive(Debug, Drop)]
pub struct Symbol {
    pub name: Blob,
    pub value: u32,
}

/// The symbols of a file, in the order of its table. It means the list of the symbols.
#[derive(Debug, Drop)]
pub struct Symbols {
    symbols: Vec<Symbol>,
}

impl Model for Symbols {
    ghost use Rattle.std.specs.Prelude.{List};
    ghost use Rattle.elf_image.specs.declared.symbol.Symbol.{Symbol};

    ghost Value = { List Symbol };

    ghost view = { λ s. s.symbols.items };
}

impl Symbols {
    /// These symbols.
    pub fn from_vec(symbols: Vec<Symbol>) -> Self
        ensures { result ≡ symbols.items }
    {
        Symbols { symbols }
    }

    /// All symbols in order.
    pub fn as_slice(&self) -> &[Symbol]
        ensures { result.now ≡ self.now }
    {
        self.symbols.as_slice()
    }

    /// The number of symbols.
    pub fn len(&self) -> usize
        ensures { result ≡ length self.now }
    {
        self.symbols.len()
    }

    /// Symbol `k`, or `None` exactly where `k` isn't below `len`.
    pub fn get(&self, k: usize) -> Option<&Symbol>
        ensures within { IsSome result ↔ (k < length self.now) }
        ensures item { IfSome result (λ symbol. slice_get self.now k ≡ Some symbol.now) }
    {
        self.symbols.get(k)
    }
}
