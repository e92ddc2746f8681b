//! The labels with which a line begins.
ghost use Rattle.std.specs.Prelude.{◌≡◌, ◌≤◌, ◌∷◌, [], IfOk, OnOk, drop, length, map, if◌then◌else◌};
ghost use Rattle.asm_source.specs.Faults.{least_after};
ghost use Rattle.asm_source.specs.declared.fault.Rule.TheVariants.{DefinedTwice};
ghost use Rattle.asm_statement.specs.Operands.{bytes_at, lexeme_at};
ghost use Rattle.asm_reading.specs.Marks.{all_defined, all_name_faults, behind_names, column_of, defined, fault_at, is_label, name_faults, name_in, names_before};
ghost use Rattle.asm_reading.specs.Tables.{labels_in};
ghost use Rattle.mb_lex.specs.Lines.{placed_of};

use crate::label_table::LabelTable;
use asm_source::{Fault, First, Rule};
use asm_statement::bytes_at;
use host_io::NoMemory;
use mb_lex::{Token, TokenKind};

/// The column of a place, counted from 1.
pub fn column_of(place: u32) -> u32
    ensures { result ≡ column_of place }
{
    place.saturating_add(1)
}

/// A fault at a place of a line.
pub fn fault_at(number: u32, place: u32, rule: Rule) -> Fault
    ensures { result ≡ fault_at number place rule }
{
    Fault {
        line: number,
        column: column_of(place),
        rule,
    }
}

/// Whether two tokens are a label.
fn is_label(line: &[u8], name: Token, colon: Token) -> bool
    ensures { result ≡ is_label (lexeme_at line.now name) (lexeme_at line.now colon) }
{
    match name.kind {
        TokenKind::Word => match colon.kind {
            TokenKind::Colon => true,
            _ => false,
        },
        _ => false,
    }
}

/// The bytes of a name.
fn name_in(line: &[u8], token: Token) -> &[u8]
    ensures { result.now ≡ name_in (lexeme_at line.now token) }
{
    match token.kind {
        TokenKind::Word => bytes_at(line, token),
        _ => &[],
    }
}

/// Notes a name that is defined already.
fn note_known(first: &mut First, known: bool, number: u32, place: u32)
    ensures { first.new ≡ least_after first.old (if known then fault_at number place DefinedTwice ∷ [] else []) }
{
    if known {
        first.note(fault_at(number, place, Rule::DefinedTwice));
    }
}

/// The labels of a source and the first of its faults, while it is read.
#[derive(Drop)]
pub struct Marked {
    pub labels: LabelTable,
    pub first: First,
}

impl Marked {
    /// Defines the label with this name, which stands before an item.
    fn add_label(
        &mut self,
        item: usize,
        number: u32,
        line: &[u8],
        name: Token,
    ) -> Result<(), NoMemory>
        ensures labels { OnOk result (labels_in self.new.labels ≡ defined (labels_in self.old.labels) (name_in (lexeme_at line.now name)) item) }
        ensures first { OnOk result (self.new.first ≡ least_after self.old.first (name_faults (labels_in self.old.labels) number (placed_of line.now name))) }
    {
        let known = self.labels.define(name_in(line, name), item)?;
        note_known(&mut self.first, known, number, name.from);
        Ok(())
    }

    /// Defines the labels with which the tokens of a line begin; how many tokens they are.
    pub fn add_labels(
        &mut self,
        item: usize,
        number: u32,
        line: &[u8],
        tokens: &[Token],
    ) -> Result<usize, NoMemory>
        ensures labels { OnOk result (labels_in self.new.labels ≡ all_defined (labels_in self.old.labels) item (names_before (map (placed_of line.now) tokens.now))) }
        ensures first { OnOk result (self.new.first ≡ least_after self.old.first (all_name_faults (labels_in self.old.labels) number item (names_before (map (placed_of line.now) tokens.now)))) }
        ensures behind { IfOk result (λ count. map (placed_of line.now) (drop count tokens.now) ≡ behind_names (map (placed_of line.now) tokens.now)) }
        ensures within { IfOk result (λ count. count ≤ length tokens.now) }
    {
        let mut at = 0;
        while at + 1 < tokens.len() && is_label(line, tokens[at], tokens[at + 1]) {
            self.add_label(item, number, line, tokens[at])?;
            at += 2;
        }
        Ok(at)
    }
}
