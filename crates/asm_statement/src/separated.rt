ghost use Rattle.std.specs.Prelude.{◌≡◌, ◌<◌, ◌≤◌, ◌++◌, ◌∷◌, [], ◌||◌, not, true, length, List, ℕ, map, if◌then◌else◌};
ghost use Rattle.std.specs.Option.{option_map};
ghost use Rattle.asm_statement.specs.Operands.{is_comma, lexeme_at, operands_of};
ghost use Rattle.mb_lex.specs.Lines.{placed_of};

use arrayvec::ArrayVec;
use mb_lex::{Token, TokenKind};

/// Whether a token is a comma.
fn is_comma(token: Token) -> bool
    ensures { (line : List ℕ) → result ≡ is_comma (lexeme_at line token) }
{
    match token.kind {
        TokenKind::Comma => true,
        _ => false,
    }
}

/// Adds a token where no comma is due; whether the token is the one that is due.
fn add_due(operands: &mut ArrayVec<Token, 40>, comma_due: bool, token: Token) -> bool
    requires room { length operands.old.items < 40 }
    ensures due { (line : List ℕ) → result ≡ (not comma_due || is_comma (lexeme_at line token)) }
    ensures added { operands.new.items ≡ (if comma_due then operands.old.items else operands.old.items ++ token ∷ []) }
{
    if comma_due {
        return is_comma(token);
    }
    operands.push(token);
    true
}

/// The operands behind a mnemonic or a directive; None where commas don't stand between each two of them, and nowhere else.
#[tactic(auto, unfolding(crate::specs::Operands::operands_of))]
pub fn operands_of(line: &[u8], tokens: &[Token]) -> Option<ArrayVec<Token, 40>>
    requires { length tokens.now ≤ 40 }
    ensures { option_map (λ operands. map (placed_of line.now) operands.items) result ≡ operands_of (map (placed_of line.now) tokens.now) }
{
    let mut operands = ArrayVec::new();
    if tokens.len() == 0 {
        return Some(operands);
    }
    let mut comma_due = false;
    for k in 0..tokens.len() {
        if !add_due(&mut operands, comma_due, tokens[k]) {
            return None;
        }
        comma_due = !comma_due;
    }
    if comma_due { Some(operands) } else { None }
}
