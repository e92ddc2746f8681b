//! The tokens of a line of assembly: words, numbers, texts, commas and colons, each as a slice of the line.
#![tactic(auto)]

mod bytes;
mod law;
mod lexer;
mod munching;
mod numbers;
#[cfg(test)]
mod tests;
mod text;
mod token;

pub use law::tokens_cover_the_line;
pub use lexer::{lex_line, lex_start};
pub use token::{LexFault, LexRule, Lexed, Token, TokenKind, Tokens};
