ghost use Rattle.std.specs.Prelude.{◌≡◌, ◌+◌, ◌<◌, ◌≤◌, take, drop, length, false, IfOk};
ghost use Rattle.mb_lex.specs.Lexemes.{munch, run};
ghost use Rattle.mb_lex.specs.Lines.{LiteralOf, Munches, TextOf};
ghost use Rattle.mb_lex.specs.Literals.{number_of, text_end};

use crate::bytes::{begins_number, continues_name, starts_name};
use crate::numbers::number_of;
use crate::text::text_end;
use crate::token::{LexRule, TokenKind};

/// A token at the beginning of a text, with its length.
#[derive(Clone, Copy, Debug)]
pub struct Munched {
    pub kind: TokenKind,
    pub len: usize,
}

/// How many bytes go on with a name or a number.
fn run_len(text: &[u8]) -> usize
    ensures run { result ≡ length (run text.now) }
    ensures within { result ≤ length text.now }
{
    text.iter()
        .take_while(|byte| continues_name(**byte))
        .count()
}

/// The bytes from a place on.
pub fn rest_of(line: &[u8], at: usize) -> &[u8]
    requires { at ≤ length line.now }
    ensures rest { result.now ≡ drop at line.now }
    ensures len { length result.now + at ≡ length line.now }
{
    &line[at..]
}

/// The number that the first `len` bytes are.
fn literal(text: &[u8], len: usize) -> Result<Munched, LexRule>
    requires { len ≤ length text.now }
    ensures { LiteralOf (number_of (take len text.now)) len result }
{
    match number_of(&text[..len]) {
        Some(value) => Ok(Munched {
            kind: TokenKind::Number(value),
            len,
        }),
        None => Err(LexRule::BadLiteral),
    }
}

/// The text that goes on with these bytes behind its opening quote.
fn quoted(rest: &[u8]) -> Result<Munched, LexRule>
    ensures text { TextOf (text_end false rest.now) result }
    ensures within { IfOk result (λ m. m.len ≤ 1 + length rest.now) }
{
    match text_end(rest) {
        Some(len) => Ok(Munched {
            kind: TokenKind::Text,
            len: 1 + len,
        }),
        None => Err(LexRule::BadLiteral),
    }
}

/// The token with which a text begins.
#[tactic(auto, using(crate::proofs::Munches::taken), unfolding(crate::specs::Lexemes::munch))]
pub fn munch(text: &[u8]) -> Result<Munched, LexRule>
    requires { 0 < length text.now }
    ensures { Munches text.now result }
{
    let first = text[0];
    let rest = rest_of(text, 1);
    let len = 1 + run_len(rest);
    if starts_name(first) {
        return Ok(Munched {
            kind: TokenKind::Word,
            len,
        });
    }
    if begins_number(first) {
        return literal(text, len);
    }
    match first {
        b'"' => quoted(rest),
        b',' => Ok(Munched {
            kind: TokenKind::Comma,
            len: 1,
        }),
        b':' => Ok(Munched {
            kind: TokenKind::Colon,
            len: 1,
        }),
        _ => Err(LexRule::BadCharacter),
    }
}
