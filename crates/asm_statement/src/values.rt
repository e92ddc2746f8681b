//! What the operands of a directive ask for.
ghost use Rattle.std.specs.Prelude.{◌≡◌, ◌++◌, ◌∷◌, [], OnOk, false, map};
ghost use Rattle.asm_source.specs.declared.item.Item.TheVariants.{Byte};
ghost use Rattle.asm_statement.specs.Operands.{lexeme_at};
ghost use Rattle.asm_statement.specs.Values.{at_head, escaped_byte, fault_for, items_for, operand_items, text_bytes, text_step};
ghost use Rattle.mb_lex.specs.Lines.{placed_of};

use crate::directive::Directive;
use crate::labels::Labels;
use crate::operands::{Note, bytes_at, noted, rest_of};
use asm_source::{Item, Written};
use host_io::NoMemory;
use mb_lex::{Token, TokenKind};

/// Where the mnemonic or directive of a statement stands, both counted from 1.
#[derive(Clone, Copy, PartialEq, Eq, Debug)]
pub struct Head {
    pub line: u32,
    pub column: u32,
}

/// What a byte of a text is.
#[derive(Clone, Copy, Debug)]
pub enum Step {
    /// The closing quote.
    Ends,
    /// A backslash, which escapes the next byte.
    Escapes,
    /// This byte.
    Is(u8),
}

/// What a byte behind a backslash stands for.
fn escaped_byte(byte: u8) -> u8
    ensures { result ≡ escaped_byte byte }
{
    if byte == b'n' { b'\n' } else { byte }
}

/// What a byte of a text is, by whether a backslash escapes it.
fn text_step(escaped: bool, byte: u8) -> Step
    ensures { result ≡ text_step escaped byte }
{
    if escaped {
        return Step::Is(escaped_byte(byte));
    }
    if byte == b'"' {
        return Step::Ends;
    }
    if byte == b'\\' {
        return Step::Escapes;
    }
    Step::Is(byte)
}

/// Adds an item.
pub fn add(out: &mut Vec<Written>, head: Head, item: Item) -> Result<(), NoMemory>
    ensures { OnOk result (out.new.items ≡ out.old.items ++ at_head head item ∷ []) }
{
    let written = Written {
        item,
        line: head.line,
        column: head.column,
    };
    out.push(written).map_err(|_| NoMemory)
}

/// Adds the bytes of a text, which comes without its opening quote.
fn add_text(out: &mut Vec<Written>, head: Head, text: &[u8]) -> Result<(), NoMemory>
    ensures { OnOk result (out.new.items ≡ out.old.items ++ map (at_head head) (map Byte (text_bytes false text.now))) }
{
    let mut escaped = false;
    for k in 0..text.len() {
        match text_step(escaped, text[k]) {
            Step::Ends => return Ok(()),
            Step::Escapes => escaped = true,
            Step::Is(byte) => {
                add(out, head, Item::Byte(byte))?;
                escaped = false;
            }
        }
    }
    Ok(())
}

/// Adds what one operand asks for.
fn add_operand<L: Labels>(
    out: &mut Vec<Written>,
    head: Head,
    labels: &L,
    directive: Directive,
    line: &[u8],
    token: Token,
) -> Result<(), NoMemory>
    ensures { OnOk result (out.new.items ≡ out.old.items ++ map (at_head head) (operand_items (L.items labels.now) directive (lexeme_at line.now token))) }
{
    match token.kind {
        TokenKind::Text => add_text(out, head, rest_of(bytes_at(line, token), 1)),
        _ => match directive.item_for(labels, line, token) {
            Some(item) => add(out, head, item),
            None => Ok(()),
        },
    }
}

/// Adds what the operands of a directive ask for.
pub fn add_operands<L: Labels>(
    out: &mut Vec<Written>,
    head: Head,
    labels: &L,
    directive: Directive,
    line: &[u8],
    tokens: &[Token],
) -> Result<(), NoMemory>
    ensures { OnOk result (out.new.items ≡ out.old.items ++ map (at_head head) (items_for (L.items labels.now) directive (map (placed_of line.now) tokens.now))) }
{
    for k in 0..tokens.len() {
        add_operand(out, head, labels, directive, line, tokens[k])?;
    }
    Ok(())
}

/// The first fault of a directive's operands.
pub fn fault_for<L: Labels>(
    labels: &L,
    directive: Directive,
    line: &[u8],
    tokens: &[Token],
) -> Option<Note>
    ensures { result ≡ fault_for (L.items labels.now) directive (map (placed_of line.now) tokens.now) }
{
    let mut fault = None;
    for k in 0..tokens.len() {
        let rule = directive.rule_for(labels, line, tokens[k]);
        fault = noted(fault, rule, tokens[k].from);
    }
    fault
}
