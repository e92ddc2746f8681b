ghost use Rattle.std.specs.Prelude.{◌≡◌, ◌-◌, IsTrue, None, Some, if◌then◌else◌, drop, length, map, take};
ghost use Rattle.asm_statement.specs.Operands.{bytes_at, first_value, is_below, is_half, is_within, lexeme_at, low_half, noted, rule_at, takes, takes_number, take_all, takes_word, undefined_at, value_of, with_all, with_number, with_operand, with_token, with_word};
ghost use Rattle.mb_lex.specs.Lines.{placed_of};
ghost use Rattle.asm_source.specs.declared.fault.Rule.TheVariants.{OutOfRange};

use crate::labels::{Labels, is_label_name};
use asm_source::{Operand, Rule};
use asm_syntax::{Slot, port_of, register_of, with_special};
use host_io::first_of;
use mb_decode::Instr;
use mb_lex::{Token, TokenKind};
use op_table::Op;

/// What is wrong with a token, and its place in the line, counted from 0.
#[derive(Clone, Copy, PartialEq, Eq, Debug)]
pub struct Note {
    pub rule: Rule,
    pub place: u32,
}

/// An instruction with its operands, as far as they are read.
#[derive(Clone, Copy, PartialEq, Eq, Debug)]
pub struct Operation {
    pub instr: Instr,
    /// The value of its last operand, where that is one.
    pub value: Option<Operand>,
    /// What is wrong with the first operand that is no good.
    pub fault: Option<Note>,
}

/// The bytes from a place on, none where the place is past the end.
pub fn rest_of(bytes: &[u8], at: usize) -> &[u8]
    ensures { result.now ≡ drop at bytes.now }
{
    if bytes.len() <= at { &[] } else { &bytes[at..] }
}

/// The bytes of a token.
pub fn bytes_at(line: &[u8], token: Token) -> &[u8]
    ensures { result.now ≡ bytes_at line.now token }
{
    let count = token.to.saturating_sub(token.from);
    first_of(rest_of(line, token.from as usize), count as usize)
}

/// Whether an operand takes a word; directly after a written `imm` a value is a number.
pub fn takes_word(slot: Slot, op: Op, after_imm: bool, word: &[u8]) -> bool
    ensures { result ≡ takes_word slot op after_imm word.now }
{
    match slot {
        Slot::RegisterD => register_of(word).is_some(),
        Slot::RegisterA => register_of(word).is_some(),
        Slot::RegisterB => register_of(word).is_some(),
        Slot::Value => !after_imm && is_label_name(word),
        Slot::Number { .. } => false,
        Slot::Upper => false,
        Slot::Port => port_of(word).is_some(),
        Slot::Special => with_special(op, word).is_some(),
    }
}

/// Whether an operand takes a number.
pub fn takes_number(slot: Slot) -> bool
    ensures { result ≡ takes_number slot }
{
    match slot {
        Slot::Value => true,
        Slot::Number { .. } => true,
        Slot::Upper => true,
        _ => false,
    }
}

/// Whether a number is below a bound, and not negative.
fn is_below(bound: u32, number: i64) -> bool
    ensures { result ≡ is_below bound number }
{
    0 <= number && number < i64::from(bound)
}

/// Whether a written `imm` makes a number whole.
pub fn is_half(number: i64) -> bool
    ensures { result ≡ is_half number }
{
    -0x8000 <= number && number < 0x1_0000
}

/// Whether a number is within the field of an operand.
pub fn is_within(slot: Slot, after_imm: bool, number: i64) -> bool
    ensures { result ≡ is_within slot after_imm number }
{
    match slot {
        Slot::Number { below } => is_below(below, number),
        Slot::Upper => is_below(0x1_0000, number),
        Slot::Value => !after_imm || is_half(number),
        _ => true,
    }
}

/// The instruction with the register or port that a word names.
pub fn with_word(slot: Slot, word: &[u8], i: Instr) -> Instr
    ensures { result ≡ with_word slot word.now i }
{
    match slot {
        Slot::RegisterD => Instr {
            rd: register_of(word).unwrap_or(0),
            ..i
        },
        Slot::RegisterA => Instr {
            ra: register_of(word).unwrap_or(0),
            ..i
        },
        Slot::RegisterB => Instr {
            rb: register_of(word).unwrap_or(0),
            ..i
        },
        Slot::Port => Instr {
            imm: port_of(word).unwrap_or(0),
            ..i
        },
        Slot::Special => Instr {
            op: with_special(i.op, word).unwrap_or(i.op),
            ..i
        },
        _ => i,
    }
}

/// The low 16 bits of a number.
pub fn low_half(number: i64) -> u16
    ensures { result ≡ low_half number }
{
    (number & 0xFFFF) as u16
}

/// The instruction with the number of an operand.
fn with_number(slot: Slot, number: i64, i: Instr) -> Instr
    ensures { result ≡ with_number slot number i }
{
    match slot {
        Slot::Number { .. } => Instr {
            imm: low_half(number),
            ..i
        },
        Slot::Upper => Instr {
            imm: low_half(number),
            ..i
        },
        _ => i,
    }
}

/// Whether an operand takes a token: the kind is right, whatever the number.
pub fn takes(slot: Slot, op: Op, after_imm: bool, line: &[u8], token: Token) -> bool
    ensures { result ≡ takes slot op after_imm (lexeme_at line.now token) }
{
    match token.kind {
        TokenKind::Word => takes_word(slot, op, after_imm, bytes_at(line, token)),
        TokenKind::Number(_) => takes_number(slot),
        _ => false,
    }
}

/// The instruction with what a token tells of it.
fn with_operand(slot: Slot, line: &[u8], token: Token, i: Instr) -> Instr
    ensures { result ≡ with_operand slot (lexeme_at line.now token) i }
{
    match token.kind {
        TokenKind::Word => with_word(slot, bytes_at(line, token), i),
        TokenKind::Number(number) => with_number(slot, number, i),
        _ => i,
    }
}

/// What is wrong with a word as an operand: a label that is nowhere defined.
fn rule_of_word<L: Labels>(labels: &L, slot: Slot, word: &[u8]) -> Option<Rule>
    ensures { result ≡ undefined_at (L.items labels.now) slot word.now }
{
    match slot {
        Slot::Value => {
            if labels.find(word).is_some() {
                None
            } else {
                Some(Rule::Undefined)
            }
        }
        _ => None,
    }
}

/// What is wrong with a number as an operand: it is outside its field.
fn rule_of_number(slot: Slot, after_imm: bool, number: i64) -> Option<Rule>
    ensures { result ≡ (if is_within slot after_imm number then None else Some OutOfRange) }
{
    if is_within(slot, after_imm, number) {
        None
    } else {
        Some(Rule::OutOfRange)
    }
}

/// What is wrong with a token that an operand takes.
fn rule_at<L: Labels>(
    labels: &L,
    slot: Slot,
    after_imm: bool,
    line: &[u8],
    token: Token,
) -> Option<Rule>
    ensures { result ≡ rule_at (L.items labels.now) slot after_imm (lexeme_at line.now token) }
{
    match token.kind {
        TokenKind::Word => rule_of_word(labels, slot, bytes_at(line, token)),
        TokenKind::Number(number) => rule_of_number(slot, after_imm, number),
        _ => None,
    }
}

/// The value that an operand gives, where it is one.
fn value_of<L: Labels>(labels: &L, slot: Slot, line: &[u8], token: Token) -> Option<Operand>
    ensures { result ≡ value_of (L.items labels.now) slot (lexeme_at line.now token) }
{
    match slot {
        Slot::Value => match token.kind {
            TokenKind::Word => {
                let found = labels.find(bytes_at(line, token));
                Some(Operand::Label(found.unwrap_or(0)))
            }
            TokenKind::Number(number) => Some(Operand::Number(number)),
            _ => None,
        },
        _ => None,
    }
}

/// The first fault of a statement, with what is wrong at a place.
pub fn noted(fault: Option<Note>, rule: Option<Rule>, place: u32) -> Option<Note>
    ensures { result ≡ noted fault rule place }
{
    match (fault, rule) {
        (Some(note), _) => Some(note),
        (None, Some(rule)) => Some(Note { rule, place }),
        (None, None) => None,
    }
}

impl Operation {
    /// The operation with one operand more.
    fn with_token<L: Labels>(
        self,
        labels: &L,
        after_imm: bool,
        slot: Slot,
        line: &[u8],
        token: Token,
    ) -> Operation
        ensures { result ≡ with_token (L.items labels.now) after_imm slot (placed_of line.now token) self }
    {
        let value = value_of(labels, slot, line, token);
        let rule = rule_at(labels, slot, after_imm, line, token);
        Operation {
            instr: with_operand(slot, line, token, self.instr),
            value: self.value.or(value),
            fault: noted(self.fault, rule, token.from),
        }
    }

    /// The operation with operands for a shape.
    pub fn with_all<L: Labels>(
        self,
        labels: &L,
        after_imm: bool,
        shape: &[Slot],
        line: &[u8],
        tokens: &[Token],
    ) -> Operation
        requires { length tokens.now ≡ length shape.now }
        ensures { result ≡ with_all (L.items labels.now) after_imm shape.now (map (placed_of line.now) tokens.now) self }
    {
        let mut operation = self;
        for k in 0..shape.len() {
            operation = operation.with_token(labels, after_imm, shape[k], line, tokens[k]);
        }
        operation
    }
}

/// Whether each operand takes its token, and there are as many.
pub fn take_all(op: Op, after_imm: bool, shape: &[Slot], line: &[u8], tokens: &[Token]) -> bool
    ensures all { result ≡ take_all op after_imm shape.now (map (placed_of line.now) tokens.now) }
    ensures same { IsTrue result → length tokens.now ≡ length shape.now }
{
    if tokens.len() != shape.len() {
        return false;
    }
    for k in 0..shape.len() {
        if !takes(shape[k], op, after_imm, line, tokens[k]) {
            return false;
        }
    }
    true
}
