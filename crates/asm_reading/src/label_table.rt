//! The labels of a source, by their names.
ghost use Rattle.std.specs.Prelude.{◌≡◌, IfOk, OnOk, None, is_some};
ghost use Rattle.asm_reading.specs.Marks.{defined};
ghost use Rattle.asm_reading.specs.Tables.{labels_in};

use asm_statement::Labels;
use host_io::NoMemory;
use std::alloc::Global;
use std::collections::BTreeMap;

/// The labels of a source: the item before which the label of each name stands.
#[derive(Drop)]
pub struct LabelTable {
    alloc: Global,
    items: BTreeMap<Vec<u8>, usize>,
}

impl Labels for LabelTable {
    ghost use Rattle.asm_reading.specs.Tables.{labels_in};

    ghost items = { λ table name. labels_in table name };

    fn find(&self, name: &[u8]) -> Option<usize> {
        self.items.get(name).copied()
    }
}

impl LabelTable {
    /// No labels.
    pub fn new(alloc: Global) -> Self
        ensures { labels_in result ≡ (λ name. None) }
    {
        LabelTable {
            alloc,
            items: BTreeMap::new(alloc),
        }
    }

    /// Defines a label that stands before an item, where its name isn't defined yet; whether it is.
    pub fn define(&mut self, name: &[u8], item: usize) -> Result<bool, NoMemory>
        ensures known { IfOk result (λ known. known ≡ is_some (labels_in self.old name.now)) }
        ensures defined { OnOk result (labels_in self.new ≡ defined (labels_in self.old) name.now item) }
    {
        if self.items.contains_key(name) {
            return Ok(true);
        }
        let key = Vec::from_slice(self.alloc, name)?;
        self.items.insert(key, item)?;
        Ok(false)
    }
}
