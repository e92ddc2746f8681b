ghost use Rattle.std.specs.Prelude.{◌≡◌, None, Some, if◌then◌else◌};
ghost use Rattle.asm_source.specs.declared.fault.Rule.TheVariants.{OutOfRange};
ghost use Rattle.asm_statement.specs.Directives.{alignment, directive, entry_for, entry_of, is_byte, is_count, is_place, is_right, item_for, low_byte, low_word, number_item, rule_for, rule_of_label, takes_a_number, takes_a_text, takes_a_word, takes_count, takes_operand, word_item};
ghost use Rattle.asm_statement.specs.Operands.{lexeme_at};

use crate::labels::{Labels, is_label_name};
use crate::operands::{bytes_at, is_half, low_half};
use asm_layout::Alignment;
use asm_source::{Item, Operand, Rule};
use mb_lex::{Token, TokenKind};

/// A directive.
#[derive(Clone, Copy, PartialEq, Eq, Debug)]
pub enum Directive {
    /// `.org`: the beginning of a part.
    Org,
    /// `.word`
    Words,
    /// `.half`
    Halves,
    /// `.byte`
    Bytes,
    /// `.ascii`
    Ascii,
    /// `.space`
    Space,
    /// `.align`
    Align,
    /// `.entry`
    Entry,
    /// `.global`: nothing.
    Global,
    /// `.text`: nothing.
    Section,
}

/// The directive of a name.
#[rattlefmt::skip]
#[tactic(auto, unfolding(crate::specs::Directives::directive))]
pub fn directive_of(word: &[u8]) -> Option<Directive>
    ensures { result ≡ directive word.now }
{
    if word == b".org".as_slice() { return Some(Directive::Org); }
    if word == b".word".as_slice() { return Some(Directive::Words); }
    if word == b".half".as_slice() { return Some(Directive::Halves); }
    if word == b".byte".as_slice() { return Some(Directive::Bytes); }
    if word == b".ascii".as_slice() { return Some(Directive::Ascii); }
    if word == b".space".as_slice() { return Some(Directive::Space); }
    if word == b".align".as_slice() { return Some(Directive::Align); }
    if word == b".entry".as_slice() { return Some(Directive::Entry); }
    if word == b".global".as_slice() { return Some(Directive::Global); }
    if word == b".text".as_slice() { return Some(Directive::Section); }
    None
}

/// Whether a number has 8 bits, with a sign or without.
fn is_byte(number: i64) -> bool
    ensures { result ≡ is_byte number }
{
    -0x80 <= number && number < 0x100
}

/// Whether a number is a place at which a part can begin.
fn is_place(number: i64) -> bool
    ensures { result ≡ is_place number }
{
    0 <= number && number % 4 == 0
}

/// Whether a number is a count.
fn is_count(number: i64) -> bool
    ensures { result ≡ is_count number }
{
    0 <= number
}

/// The alignment to so many bytes.
pub fn alignment(number: i64) -> Option<Alignment>
    ensures { result ≡ alignment number }
{
    if number == 1 {
        Some(Alignment::One)
    } else if number == 2 {
        Some(Alignment::Two)
    } else if number == 4 {
        Some(Alignment::Four)
    } else if number == 8 {
        Some(Alignment::Eight)
    } else if number == 16 {
        Some(Alignment::Sixteen)
    } else {
        None
    }
}

impl Directive {
    /// Whether so many operands are right.
    pub fn takes_count(self, count: usize) -> bool
        ensures { result ≡ takes_count self count }
    {
        match self {
            Directive::Words => 1 <= count,
            Directive::Halves => 1 <= count,
            Directive::Bytes => 1 <= count,
            Directive::Section => count == 0,
            _ => count == 1,
        }
    }

    /// Whether it takes a number.
    fn takes_number(self) -> bool
        ensures { result ≡ takes_a_number self }
    {
        match self {
            Directive::Org => true,
            Directive::Words => true,
            Directive::Halves => true,
            Directive::Bytes => true,
            Directive::Space => true,
            Directive::Align => true,
            _ => false,
        }
    }

    /// Whether it takes a word.
    fn takes_word(self, word: &[u8]) -> bool
        ensures { result ≡ takes_a_word self word.now }
    {
        match self {
            Directive::Words => is_label_name(word),
            Directive::Entry => is_label_name(word),
            Directive::Global => true,
            _ => false,
        }
    }

    /// Whether it takes a text.
    fn takes_text(self) -> bool
        ensures { result ≡ takes_a_text self }
    {
        match self {
            Directive::Ascii => true,
            _ => false,
        }
    }

    /// Whether it takes a token: the kind is right, whatever the number.
    pub fn takes(self, line: &[u8], token: Token) -> bool
        ensures { result ≡ takes_operand self (lexeme_at line.now token) }
    {
        match token.kind {
            TokenKind::Word => self.takes_word(bytes_at(line, token)),
            TokenKind::Number(_) => self.takes_number(),
            TokenKind::Text => self.takes_text(),
            _ => false,
        }
    }

    /// Whether a number is within its field.
    pub fn is_right(self, number: i64) -> bool
        ensures { result ≡ is_right self number }
    {
        match self {
            Directive::Org => is_place(number),
            Directive::Halves => is_half(number),
            Directive::Bytes => is_byte(number),
            Directive::Space => is_count(number),
            Directive::Align => alignment(number).is_some(),
            _ => true,
        }
    }
}

/// The low 32 bits of a number.
fn low_word(number: i64) -> u32
    ensures { result ≡ low_word number }
{
    (number & 0xFFFF_FFFF) as u32
}

/// The low 8 bits of a number.
fn low_byte(number: i64) -> u8
    ensures { result ≡ low_byte number }
{
    (number & 0xFF) as u8
}

impl Directive {
    /// What is wrong with a word that it takes.
    fn rule_of_label<L: Labels>(self, labels: &L, word: &[u8]) -> Option<Rule>
        ensures { result ≡ rule_of_label (L.items labels.now) self word.now }
    {
        match self {
            Directive::Global => None,
            _ => {
                if labels.find(word).is_some() {
                    None
                } else {
                    Some(Rule::Undefined)
                }
            }
        }
    }

    /// What is wrong with a number that it takes.
    fn rule_of_number(self, number: i64) -> Option<Rule>
        ensures { result ≡ (if is_right self number then None else Some OutOfRange) }
    {
        if self.is_right(number) {
            None
        } else {
            Some(Rule::OutOfRange)
        }
    }

    /// What is wrong with a token that it takes: a number outside its field, a label that is nowhere defined.
    pub fn rule_for<L: Labels>(self, labels: &L, line: &[u8], token: Token) -> Option<Rule>
        ensures { result ≡ rule_for (L.items labels.now) self (lexeme_at line.now token) }
    {
        match token.kind {
            TokenKind::Word => self.rule_of_label(labels, bytes_at(line, token)),
            TokenKind::Number(number) => self.rule_of_number(number),
            _ => None,
        }
    }

    /// The item that a number asks for.
    fn number_item(self, number: i64) -> Option<Item>
        ensures { result ≡ (if is_right self number then number_item self number else None) }
    {
        if !self.is_right(number) {
            return None;
        }
        match self {
            Directive::Org => Some(Item::Part(low_word(number))),
            Directive::Words => Some(Item::Word(Operand::Number(number))),
            Directive::Halves => Some(Item::Half(low_half(number))),
            Directive::Bytes => Some(Item::Byte(low_byte(number))),
            Directive::Space => Some(Item::Space(low_word(number))),
            Directive::Align => match alignment(number) {
                None => None,
                Some(alignment) => Some(Item::Aligned(alignment)),
            },
            _ => None,
        }
    }

    /// The item that a word asks for.
    fn word_item<L: Labels>(self, labels: &L, word: &[u8]) -> Option<Item>
        ensures { result ≡ word_item (L.items labels.now) self word.now }
    {
        match self {
            Directive::Words => {
                let found = labels.find(word);
                Some(Item::Word(Operand::Label(found.unwrap_or(0))))
            }
            _ => None,
        }
    }

    /// The item that a token asks for, where it asks for one.
    pub fn item_for<L: Labels>(self, labels: &L, line: &[u8], token: Token) -> Option<Item>
        ensures { result ≡ item_for (L.items labels.now) self (lexeme_at line.now token) }
    {
        match token.kind {
            TokenKind::Word => self.word_item(labels, bytes_at(line, token)),
            TokenKind::Number(number) => self.number_item(number),
            _ => None,
        }
    }

    /// The item before which the program begins, where a word names its label.
    fn entry_of<L: Labels>(self, labels: &L, word: &[u8]) -> Option<usize>
        ensures { result ≡ entry_of (L.items labels.now) self word.now }
    {
        match self {
            Directive::Entry => Some(labels.find(word).unwrap_or(0)),
            _ => None,
        }
    }

    /// The item before which the program begins, where a token names its label.
    pub fn entry_for<L: Labels>(self, labels: &L, line: &[u8], token: Token) -> Option<usize>
        ensures { result ≡ entry_for (L.items labels.now) self (lexeme_at line.now token) }
    {
        match token.kind {
            TokenKind::Word => self.entry_of(labels, bytes_at(line, token)),
            _ => None,
        }
    }
}
