//! The source lines of instruction words.
ghost use Rattle.std.specs.Prelude.{◌≡◌, ◌+◌, ◌≤◌, ◌++◌, IfOk, OnOk, length, slice_get};
ghost use Rattle.asm_layout.specs.Places.{ArePlaces, member};
ghost use Rattle.asm_source.specs.Items.{pieces};
ghost use Rattle.asm_source.specs.Second.{items_of};
ghost use Rattle.mb_asm.specs.WordLines.{AreNear, all_words, words_at};

use asm_source::{Item, Written};
use host_io::NoMemory;
use std::alloc::Global;
use std::marker::Model;

/// An instruction word, and the source line that asks for it, counted from 1.
#[derive(Clone, Copy, Debug, PartialEq, Eq)]
pub struct Line {
    pub addr: u32,
    pub line: u32,
}

/// The lines of all instruction words, in the order of the source. It means their list.
#[derive(Debug, Drop)]
pub struct Lines {
    lines: Vec<Line>,
}

impl Model for Lines {
    ghost use Rattle.std.specs.Prelude.{List};
    ghost use Rattle.mb_asm.specs.declared.word_lines.Line.{Line};

    ghost Value = { List Line };

    ghost view = { λ l. l.lines.items };
}

impl Lines {
    /// How many there are.
    pub fn len(&self) -> usize
        ensures { result ≡ length self.now }
    {
        self.lines.len()
    }

    /// The line of word `k`; None past the last.
    pub fn get(&self, k: usize) -> Option<Line>
        ensures { result ≡ slice_get self.now k }
    {
        self.lines.get(k).copied()
    }
}

/// Adds the words of an item of a line that stands at a place.
fn add_words(
    lines: &mut Vec<Line>,
    place: u64,
    long: bool,
    line: u32,
    item: Item,
) -> Result<(), NoMemory>
    requires { place ≤ 67_108_864 }
    ensures { OnOk result (lines.new.items ≡ lines.old.items ++ words_at place long line item) }
{
    match item {
        Item::Instruction { .. } => {
            let addr = place as u32;
            lines.push(Line { addr, line })?;
            if !long {
                return Ok(());
            }
            let addr = addr + 4;
            lines.push(Line { addr, line })?;
            Ok(())
        }
        _ => Ok(()),
    }
}

/// The lines of all words of a source in its layout.
pub fn lines_of(
    alloc: Global,
    all: &[Written],
    places: &[u64],
    grown: &[bool],
) -> Result<Lines, NoMemory>
    requires room { length places.now ≡ length all.now + 1 }
    requires same { length grown.now ≡ length all.now }
    requires laid { ArePlaces (pieces (items_of all.now)) (member grown.now) (length all.now) places.now }
    requires near { AreNear places.now }
    ensures { IfOk result (λ lines. lines ≡ all_words all.now (member grown.now)) }
{
    let mut lines = Vec::new(alloc);
    for k in 0..all.len() {
        let Written { item, line, .. } = all[k];
        let long = item.prefixed(grown[k]);
        add_words(&mut lines, places[k], long, line, item)?;
    }
    Ok(Lines { lines })
}
