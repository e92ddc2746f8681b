//! What is read of a source, line by line.
ghost use Rattle.std.specs.Prelude.{◌≡◌, ◌≤◌, ◌^◌, OnOk, fold, length, map};
ghost use Rattle.asm_source.specs.Faults.{least_after};
ghost use Rattle.asm_source.specs.declared.item.Written.{Written};
ghost use Rattle.asm_reading.specs.Marks.{column_of};
ghost use Rattle.asm_reading.specs.Reading.{after_item, head_of, is_imm, is_narrow, later, lex_faults, lex_rule, line_read, note_faults, nothing_read, read_of};
ghost use Rattle.mb_lex.specs.Lines.{placed_of};

use crate::label_table::LabelTable;
use crate::labels::{Marked, column_of, fault_at};
use asm_layout::Alignment;
use asm_source::{Fault, First, Item, Rule, Written};
use asm_statement::{Head, Labels, Note, add_statement};
use host_io::NoMemory;
use mb_lex::{LexFault, Token, lex_start};
use op_table::{Kind, Op, kind_of};
use std::alloc::Global;

/// Whether an instruction is a prefix.
#[tactic(auto, unfolding(crate::specs::Reading::is_imm))]
fn is_imm(op: Op) -> bool
    ensures { result ≡ is_imm op }
{
    match kind_of(op) {
        Kind::Prefix => true,
        _ => false,
    }
}

/// Whether an alignment pads nothing behind a word.
fn is_narrow(alignment: Alignment) -> bool
    ensures { result ≡ is_narrow alignment }
{
    match alignment {
        Alignment::Eight => false,
        Alignment::Sixteen => false,
        _ => true,
    }
}

/// Whether what follows an item directly follows a written `imm`. `after` tells whether the item does.
fn after_item(after: bool, item: Item) -> bool
    ensures { result ≡ after_item after item }
{
    match item {
        Item::Instruction { instr, .. } => is_imm(instr.op),
        Item::Space(count) => after && count == 0,
        Item::Aligned(alignment) => after && is_narrow(alignment),
        _ => false,
    }
}

/// Whether what follows items directly follows a written `imm`.
fn after_items(after: bool, items: &[Written]) -> bool
    ensures { result ≡ fold after_item after (map (λ (w : Written). w.item) items.now) }
{
    let mut after = after;
    for k in 0..items.len() {
        after = after_item(after, items[k].item);
    }
    after
}

/// The rule that a line breaks whose tokens have a fault of this number.
fn lex_rule(code: u16) -> Rule
    ensures { result ≡ lex_rule code }
{
    if code == 1109 {
        return Rule::BadLiteral;
    }
    if code == 1110 {
        return Rule::BadCharacter;
    }
    Rule::TooMuch
}

/// Notes the fault of a line's tokens.
fn note_tokens(first: &mut First, number: u32, fault: Option<LexFault>)
    ensures { first.new ≡ least_after first.old (lex_faults number fault) }
{
    if let Some(fault) = fault {
        first.note(Fault {
            line: number,
            column: fault.column,
            rule: lex_rule(fault.code),
        });
    }
}

/// Notes the fault of a statement.
fn note_statement(first: &mut First, number: u32, note: Option<Note>)
    ensures { first.new ≡ least_after first.old (note_faults number note) }
{
    if let Some(note) = note {
        first.note(fault_at(number, note.place, note.rule));
    }
}

/// Where a statement begins.
fn head_of(number: u32, line: &[u8], tokens: &[Token]) -> Head
    ensures { result ≡ head_of number (map (placed_of line.now) tokens.now) }
{
    match tokens {
        [] => Head {
            line: number,
            column: 1,
        },
        [first, ..] => Head {
            line: number,
            column: column_of(first.from),
        },
    }
}

/// The later of two items before which the program begins.
fn later(entry: Option<usize>, before: Option<usize>) -> Option<usize>
    ensures { result ≡ later entry before }
{
    match entry {
        Some(item) => Some(item),
        None => before,
    }
}

/// What is read of a source.
#[derive(Drop)]
pub struct Reading {
    pub items: Vec<Written>,
    /// The labels and the first fault.
    pub marked: Marked,
    /// The item before which the program begins.
    pub entry: Option<usize>,
    /// Whether the next instruction directly follows a written `imm`.
    pub after_imm: bool,
}

impl Reading {
    /// Nothing is read yet.
    pub fn new(alloc: Global) -> Self
        ensures { read_of result ≡ nothing_read }
    {
        Reading {
            items: Vec::new(alloc),
            marked: Marked {
                labels: LabelTable::new(alloc),
                first: First::none(),
            },
            entry: None,
            after_imm: false,
        }
    }

    /// Reads a line, whose values are labels of these.
    #[tactic(auto, unfolding(crate::specs::Reading::line_read))]
    pub fn read_line<L: Labels>(
        &mut self,
        labels: &L,
        number: u32,
        line: &[u8],
    ) -> Result<(), NoMemory>
        requires { length line.now ≤ 2 ^ 22 }
        ensures { OnOk result (read_of self.new ≡ line_read (L.items labels.now) number line.now (read_of self.old)) }
    {
        let lexed = lex_start(line);
        let tokens = lexed.tokens.as_slice();
        note_tokens(&mut self.marked.first, number, lexed.fault);
        let before = self.items.len();
        let count = self.marked.add_labels(before, number, line, tokens)?;
        let tokens = &tokens[count..];
        let head = head_of(number, line, tokens);
        let whole = lexed.fault.is_none();
        let rest = add_statement(
            &mut self.items,
            head,
            labels,
            self.after_imm,
            whole,
            line,
            tokens,
        )?;
        note_statement(&mut self.marked.first, number, rest.fault);
        self.entry = later(rest.entry, self.entry);
        self.after_imm = after_items(self.after_imm, &self.items[before..]);
        Ok(())
    }
}
