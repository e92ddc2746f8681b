ghost use Rattle.std.specs.Prelude.{◌≡◌, ◌≤◌, List, length, slice_get, None, Some};
ghost use Rattle.mb_lex.specs.Lines.{code_of};
ghost use Rattle.mb_lex.specs.declared.token.Token.{Token};

use arrayvec::ArrayVec;
use std::marker::Model;

/// What a token is.
#[derive(Clone, Copy, Default, PartialEq, Eq, Debug)]
pub enum TokenKind {
    /// A name: a mnemonic, a directive, a register or a label.
    Word,
    /// A decimal or hexadecimal number, with its value.
    Number(i64),
    /// A text with its quotes, and with its escapes as they are written.
    Text,
    #[default]
    Comma,
    Colon,
}

/// A token: the bytes of its line from one place up to, but without, another, counted from 0.
#[derive(Clone, Copy, Default, PartialEq, Eq, Debug)]
pub struct Token {
    pub kind: TokenKind,
    pub from: u32,
    pub to: u32,
}

/// Why a line has no list of tokens.
#[derive(Clone, Copy, PartialEq, Eq, Debug)]
pub enum LexRule {
    /// 1109: what begins as a number or a text is none.
    BadLiteral,
    /// 1110: a byte outside the syntax.
    BadCharacter,
    /// 1112: a 41st token.
    TooManyTokens,
}

impl LexRule {
    /// The number of the fault.
    pub fn code(self) -> u16
        ensures { result ≡ code_of self }
    {
        match self {
            LexRule::BadLiteral => 1109,
            LexRule::BadCharacter => 1110,
            LexRule::TooManyTokens => 1112,
        }
    }
}

/// The first fault of a line: its number, and the column of its first byte, counted from 1.
#[derive(Clone, Copy, PartialEq, Eq, Debug)]
pub struct LexFault {
    pub code: u16,
    pub column: u32,
}

/// The tokens of a line in order, at most 40.
#[derive(Debug, Drop)]
pub struct Tokens {
    pub(crate) items: ArrayVec<Token, 40>,
}

impl Model for Tokens {
    ghost Value = { List Token };

    ghost view = { λ t. t.items.items };

    ghost invariant = { λ t. length t.items.items ≤ 40 };
}

impl Tokens {
    /// How many there are.
    pub fn len(&self) -> usize
        ensures count { result ≡ length self.now }
        ensures few { result ≤ 40 }
    {
        self.items.len()
    }

    /// All of them in order.
    pub fn as_slice(&self) -> &[Token]
        ensures same { result.now ≡ self.now }
        ensures few { length result.now ≤ 40 }
    {
        self.items.as_slice()
    }

    /// The token at a place, counted from 0; None past the last.
    pub fn get(&self, k: usize) -> Option<Token>
        ensures { result ≡ slice_get self.now k }
    {
        self.items.get(k).copied()
    }
}

/// The tokens of a line up to its end, or up to its first fault.
#[derive(Debug, Drop)]
pub struct Lexed {
    pub tokens: Tokens,
    /// The fault behind the tokens.
    pub fault: Option<LexFault>,
}

impl Lexed {
    /// A line without fault.
    pub(crate) fn whole(items: ArrayVec<Token, 40>) -> Self
        requires { length items.items ≤ 40 }
        ensures tokens { result.tokens ≡ items.items }
        ensures fault { result.fault ≡ None }
    {
        Lexed {
            tokens: Tokens { items },
            fault: None,
        }
    }

    /// A line with a fault.
    pub(crate) fn broken(items: ArrayVec<Token, 40>, fault: LexFault) -> Self
        requires { length items.items ≤ 40 }
        ensures tokens { result.tokens ≡ items.items }
        ensures fault { result.fault ≡ Some fault }
    {
        Lexed {
            tokens: Tokens { items },
            fault: Some(fault),
        }
    }
}
