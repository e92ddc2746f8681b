//! Texts between quotes.
ghost use Rattle.std.specs.Prelude.{◌≡◌, ◌≤◌, length, IfSome, false};
ghost use Rattle.mb_lex.specs.Literals.{ends_text, escapes, is_in_text, text_end};

use crate::bytes::{is_escaped, is_printable};

/// Whether a text ends with this byte. `escaped` tells here and below whether a backslash before it escapes it.
fn ends_text(escaped: bool, byte: u8) -> bool
    ensures { result ≡ ends_text escaped byte }
{
    !escaped && byte == b'"'
}

/// Whether it escapes the next byte.
fn escapes(escaped: bool, byte: u8) -> bool
    ensures { result ≡ escapes escaped byte }
{
    !escaped && byte == b'\\'
}

/// Whether a text may hold it.
fn is_in_text(escaped: bool, byte: u8) -> bool
    ensures { result ≡ is_in_text escaped byte }
{
    if escaped {
        is_escaped(byte)
    } else {
        is_printable(byte)
    }
}

/// How many bytes a text has behind its opening quote, the closing one among them. `None` where it has no end, or holds
/// a byte that a text doesn't.
pub fn text_end(text: &[u8]) -> Option<usize>
    ensures end { result ≡ text_end false text.now }
    ensures within { IfSome result (λ n. n ≤ length text.now) }
{
    let mut escaped = false;
    for k in 0..text.len() {
        let byte = text[k];
        if ends_text(escaped, byte) {
            return Some(k + 1);
        }
        if !is_in_text(escaped, byte) {
            return None;
        }
        escaped = escapes(escaped, byte);
    }
    None
}
