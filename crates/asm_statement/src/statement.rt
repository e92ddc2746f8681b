//! Statements: what the tokens of a line ask for, and what is wrong with them.
ghost use Rattle.std.specs.Prelude.{◌≡◌, ◌==◌, ◌≤◌, IfOk, get_or, length, map};
ghost use Rattle.std.specs.List.{list_all};
ghost use Rattle.asm_source.specs.declared.item.Item.TheVariants.{Instruction};
ghost use Rattle.asm_statement.specs.Directives.{takes_operand};
ghost use Rattle.asm_statement.specs.Operands.{bytes_at, lexeme_at, operands_of};
ghost use Rattle.asm_statement.specs.Statements.{Tells, by_word, directive_told, first_entry, instruction_told, nothing, refused, statement, takes_all};
ghost use Rattle.mb_lex.specs.Lines.{placed_of};

use crate::directive::{Directive, directive_of};
use crate::instruction::read_instruction;
use crate::labels::Labels;
use crate::operands::{Note, bytes_at};
use crate::separated::operands_of;
use crate::values::{Head, add, add_operands, fault_for};
use asm_source::{Item, Rule, Written};
use asm_syntax::{Named, mnemonic};
use host_io::NoMemory;
use mb_lex::{Token, TokenKind};

/// What a statement tells beside its items.
#[derive(Clone, Copy, PartialEq, Eq, Debug)]
pub struct Rest {
    /// Its first fault.
    pub fault: Option<Note>,
    /// The item before which the program begins.
    pub entry: Option<usize>,
}

/// What a statement tells with which something is wrong.
fn refused(rule: Rule, place: u32) -> Rest
    ensures { result ≡ (refused rule place).rest }
{
    Rest {
        fault: Some(Note { rule, place }),
        entry: None,
    }
}

/// The item before which the program begins, where the first operand names its label.
fn first_entry<L: Labels>(
    labels: &L,
    directive: Directive,
    line: &[u8],
    tokens: &[Token],
) -> Option<usize>
    ensures { result ≡ first_entry (L.items labels.now) directive (map (placed_of line.now) tokens.now) }
{
    match tokens {
        [] => None,
        [first, ..] => directive.entry_for(labels, line, *first),
    }
}

/// Whether a directive takes each of the tokens.
fn takes_each(directive: Directive, line: &[u8], tokens: &[Token]) -> bool
    ensures { result ≡ list_all (λ t. takes_operand directive (lexeme_at line.now t)) tokens.now }
{
    tokens.iter().all(|token| directive.takes(line, *token))
}

/// Whether a directive takes so many operands, and each of them.
fn takes_all(directive: Directive, line: &[u8], tokens: &[Token]) -> bool
    ensures { result ≡ takes_all directive (map (placed_of line.now) tokens.now) }
{
    directive.takes_count(tokens.len()) && takes_each(directive, line, tokens)
}

/// Adds the instruction with these tokens behind its mnemonic.
pub fn add_instruction<L: Labels>(
    out: &mut Vec<Written>,
    head: Head,
    labels: &L,
    after_imm: bool,
    named: Named,
    place: u32,
    line: &[u8],
    tokens: &[Token],
) -> Result<Rest, NoMemory>
    requires { length tokens.now ≤ 40 }
    ensures { IfOk result (λ rest. Tells head out.old.items out.new.items rest (instruction_told (L.items labels.now) after_imm named place (operands_of (map (placed_of line.now) tokens.now)))) }
{
    let Some(operands) = operands_of(line, tokens) else {
        return Ok(refused(Rule::WrongOperands, place));
    };
    let read = read_instruction(labels, after_imm, named, line, operands.as_slice());
    let Some(operation) = read else {
        return Ok(refused(Rule::WrongOperands, place));
    };
    let item = Item::Instruction {
        instr: operation.instr,
        value: operation.value,
        after_imm,
    };
    add(out, head, item)?;
    Ok(Rest {
        fault: operation.fault,
        entry: None,
    })
}

/// Adds what a directive with these tokens behind it asks for.
pub fn add_directive<L: Labels>(
    out: &mut Vec<Written>,
    head: Head,
    labels: &L,
    directive: Directive,
    place: u32,
    line: &[u8],
    tokens: &[Token],
) -> Result<Rest, NoMemory>
    requires { length tokens.now ≤ 40 }
    ensures { IfOk result (λ rest. Tells head out.old.items out.new.items rest (directive_told (L.items labels.now) directive place (operands_of (map (placed_of line.now) tokens.now)))) }
{
    let Some(operands) = operands_of(line, tokens) else {
        return Ok(refused(Rule::WrongOperands, place));
    };
    let operands = operands.as_slice();
    if !takes_all(directive, line, operands) {
        return Ok(refused(Rule::WrongOperands, place));
    }
    add_operands(out, head, labels, directive, line, operands)?;
    Ok(Rest {
        fault: fault_for(labels, directive, line, operands),
        entry: first_entry(labels, directive, line, operands),
    })
}

/// What a statement tells that asks for nothing.
fn nothing() -> Rest
    ensures { result ≡ nothing.rest }
{
    Rest {
        fault: None,
        entry: None,
    }
}

/// Whether a word is a directive: it begins with a dot.
fn begins_with_dot(word: &[u8]) -> bool
    ensures { result ≡ (get_or word.now 0 0 == 46) }
{
    match word {
        [] => false,
        [first, ..] => *first == b'.',
    }
}

/// Adds what a statement asks for that begins with this word. Its line has no bad token where it is whole.
fn add_named<L: Labels>(
    out: &mut Vec<Written>,
    head: Head,
    labels: &L,
    after_imm: bool,
    whole: bool,
    first: Token,
    line: &[u8],
    tokens: &[Token],
) -> Result<Rest, NoMemory>
    requires { length tokens.now ≤ 40 }
    ensures { IfOk result (λ rest. Tells head out.old.items out.new.items rest (by_word (L.items labels.now) after_imm whole first.from (bytes_at line.now first) (map (placed_of line.now) tokens.now))) }
{
    let word = bytes_at(line, first);
    let place = first.from;
    if begins_with_dot(word) {
        return match directive_of(word) {
            None => Ok(refused(Rule::UnknownDirective, place)),
            Some(directive) => {
                if whole {
                    add_directive(out, head, labels, directive, place, line, tokens)
                } else {
                    Ok(nothing())
                }
            }
        };
    }
    match mnemonic(word) {
        None => Ok(refused(Rule::UnknownMnemonic, place)),
        Some(named) => {
            if whole {
                add_instruction(out, head, labels, after_imm, named, place, line, tokens)
            } else {
                Ok(nothing())
            }
        }
    }
}

/// Adds what the statement of these tokens asks for. Its line has no bad token where it is whole; else only an unknown
/// mnemonic or directive is told.
#[tactic(auto, unfolding(crate::specs::Statements::statement))]
pub fn add_statement<L: Labels>(
    out: &mut Vec<Written>,
    head: Head,
    labels: &L,
    after_imm: bool,
    whole: bool,
    line: &[u8],
    tokens: &[Token],
) -> Result<Rest, NoMemory>
    requires { length tokens.now ≤ 40 }
    ensures { IfOk result (λ rest. Tells head out.old.items out.new.items rest (statement (L.items labels.now) after_imm whole (map (placed_of line.now) tokens.now))) }
{
    let [first, rest @ ..] = tokens else {
        return Ok(nothing());
    };
    match first.kind {
        TokenKind::Word => add_named(out, head, labels, after_imm, whole, *first, line, rest),
        _ => Ok(refused(Rule::UnknownMnemonic, first.from)),
    }
}
