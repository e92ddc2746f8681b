//! A whole source: its labels first, then what it says.
ghost use Rattle.std.specs.Prelude.{◌≡◌, ◌≤◌, ◌^◌, IfOk, OnOk, None, length};
ghost use Rattle.std.specs.List.{All};
ghost use Rattle.asm_source.specs.declared.item.Written.{Written};
ghost use Rattle.asm_source.specs.Source.{HasWord};
ghost use Rattle.asm_reading.specs.Lines.{lines_of};
ghost use Rattle.asm_reading.specs.Tables.{labels_in};
ghost use Rattle.asm_reading.specs.Reading.{labels_of, lines_read, read_of, source_read};

use crate::label_table::LabelTable;
use crate::labels::Marked;
use crate::lines::{first_line, line_len, rest_of};
use crate::reading::Reading;
use asm_statement::{Labels, Unknown};
use host_io::NoMemory;
use std::alloc::Global;

impl Reading {
    /// Reads the lines of a source, whose values are labels of these.
    fn read_lines<L: Labels>(&mut self, labels: &L, source: &[u8]) -> Result<(), NoMemory>
        requires { length source.now ≤ 2 ^ 22 }
        ensures { OnOk result (read_of self.new ≡ lines_read (L.items labels.now) 1 (lines_of source.now) (read_of self.old)) }
    {
        let mut at = 0;
        let mut number = 1;
        while at < source.len() {
            let text = rest_of(source, at);
            let len = line_len(text);
            self.read_line(labels, number, first_line(text, len))?;
            at += len + 1;
            number += 1;
        }
        Ok(())
    }
}

/// The labels of a source.
#[tactic(auto, unfolding(crate::specs::Reading::labels_of))]
fn labels_of(alloc: Global, source: &[u8]) -> Result<LabelTable, NoMemory>
    requires { length source.now ≤ 2 ^ 22 }
    ensures { IfOk result (λ labels. labels_in labels ≡ labels_of source.now) }
{
    let mut reading = Reading::new(alloc);
    reading.read_lines(&Unknown, source)?;
    let Reading { marked, .. } = reading;
    let Marked { labels, .. } = marked;
    Ok(labels)
}

/// What is read of a source: its items, of which it has no more than bytes, its labels, where it begins, and the first
/// fault of its lines. Where it has none, each instruction has a word.
#[tactic(auto, unfolding(crate::specs::Reading::source_read))]
pub fn read_source(alloc: Global, source: &[u8]) -> Result<Reading, NoMemory>
    requires { length source.now ≤ 2 ^ 22 }
    ensures read { IfOk result (λ reading. read_of reading ≡ source_read source.now) }
    ensures few { IfOk result (λ reading. length reading.items.items ≤ length source.now) }
    ensures spelled { IfOk result (λ reading. reading.marked.first ≡ None → All (λ (w : Written). HasWord w.item) reading.items.items) }
{
    let labels = labels_of(alloc, source)?;
    let mut reading = Reading::new(alloc);
    reading.read_lines(&labels, source)?;
    Ok(reading)
}
