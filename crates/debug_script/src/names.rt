//! The names that a script may use.
ghost use Rattle.std.specs.Prelude.{◌≡◌, ◌↔◌, ◌<◌, ◌++◌, ◌∷◌, [], IfOk, IfSome, IsSome, OnOk, OnErr, Some, length, option_copied, slice_get};
ghost use Rattle.std.specs.List.{find};
ghost use Rattle.std.specs.Str.{bytes_eq};
ghost use Rattle.debug_script.specs.Commands.{without};

use elf_image::Symbols;
use host_io::{Name, NoMemory};
use std::alloc::Global;
use std::marker::Model;

/// A list of names. It means the list of their texts.
#[derive(Debug, Drop)]
pub struct Names {
    names: Vec<Name>,
}

impl Model for Names {
    ghost use Rattle.std.specs.Prelude.{List, ℕ};

    ghost Value = { List (List ℕ) };

    ghost view = { λ n. n.names.items };
}

/// The same names once more.
fn copied_names(alloc: Global, names: &[Name]) -> Result<Vec<Name>, NoMemory>
    ensures { IfOk result (λ copies. copies.items ≡ names.now) }
{
    let mut copies = Vec::new(alloc);
    for name in names {
        copies.push(name.copied())?;
    }
    Ok(copies)
}

impl Names {
    /// These names.
    pub fn from_vec(names: Vec<Name>) -> Self
        ensures { result ≡ names.items }
    {
        Names { names }
    }

    /// All names in order.
    pub fn as_slice(&self) -> &[Name]
        ensures { result.now ≡ self.now }
    {
        self.names.as_slice()
    }

    /// The number of names.
    pub fn len(&self) -> usize
        ensures { result ≡ length self.now }
    {
        self.names.len()
    }

    /// Name `k`, or `None` exactly where `k` isn't below `len`.
    pub fn get(&self, k: usize) -> Option<&Name>
        ensures within { IsSome result ↔ (k < length self.now) }
        ensures item { IfSome result (λ name. slice_get self.now k ≡ Some name.now) }
    {
        self.names.get(k)
    }

    /// The same names once more.
    pub fn copied(&self, alloc: Global) -> Result<Names, NoMemory>
        ensures { IfOk result (λ names. names ≡ self.now) }
    {
        Ok(Names {
            names: copied_names(alloc, self.names.as_slice())?,
        })
    }

    /// Takes out a name.
    pub(crate) fn take_out(&mut self, name: &Name)
        ensures { self.new ≡ without name.now self.old }
    {
        self.names
            .retain(|other| other.as_bytes() != name.as_bytes());
    }
}

/// The symbols of each core's image, in board order.
#[derive(Debug, Drop)]
pub struct SymbolLists {
    lists: Vec<Symbols>,
}

impl Model for SymbolLists {
    ghost use Rattle.std.specs.Prelude.{List};
    ghost use Rattle.elf_image.specs.declared.symbol.Symbol.{Symbol};

    ghost Value = { List (List Symbol) };

    ghost view = { λ l. l.lists.items };
}

impl SymbolLists {
    /// These lists.
    pub fn from_vec(lists: Vec<Symbols>) -> Self
        ensures { result ≡ lists.items }
    {
        SymbolLists { lists }
    }

    /// All lists in order.
    pub fn as_slice(&self) -> &[Symbols]
        ensures { result.now ≡ self.now }
    {
        self.lists.as_slice()
    }

    /// The number of lists.
    pub fn len(&self) -> usize
        ensures { result ≡ length self.now }
    {
        self.lists.len()
    }

    /// List `k`, or `None` exactly where `k` isn't below `len`.
    pub fn get(&self, k: usize) -> Option<&Symbols>
        ensures within { IsSome result ↔ (k < length self.now) }
        ensures list { option_copied result ≡ slice_get self.now k }
    {
        self.lists.get(k)
    }
}

/// What a script may name: the parts of a board in board order, its probes in order of attachment, and the symbols of
/// each core's image.
#[derive(Debug, Drop)]
pub struct ScriptNames {
    pub cores: Names,
    pub links: Names,
    pub uarts: Names,
    pub probes: Names,
    pub symbols: SymbolLists,
}
