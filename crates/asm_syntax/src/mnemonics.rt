ghost use Rattle.std.specs.Prelude.{◌≡◌, ◌*◌, ◌++◌, [], ◌∷◌, bytes_eq, find, map};
ghost use Rattle.std.specs.List.{range_with_len};
ghost use Rattle.asm_syntax.specs.Spelling.{alias, letters, letters_in, mnemonic, shape_of_named};
ghost use Rattle.op_table.specs.Mnemonics.{text_of};

use crate::slot::{Slot, shape_of};
use crate::stream_letters::letters;
use op_table::{COUNT, Form, Op, Row, row, row_of};

/// What a mnemonic names: an instruction, and the letters of a stream access.
#[derive(Clone, Copy, PartialEq, Eq, Debug)]
pub struct Named {
    pub op: Op,
    /// The letters: n 16, c 8, t 4, a 2, e 1.
    pub flags: u8,
    /// Whether it is written without operands, which are then r0.
    pub bare: bool,
}

impl Named {
    /// The operands that are written.
    #[tactic(auto, unfolding(crate::specs::Spelling::shape_of_named))]
    pub fn shape(&self) -> &'static [Slot]
        ensures { result.now ≡ shape_of_named self.now }
    {
        if self.bare {
            return &[];
        }
        let row = row_of(self.op);
        shape_of(row.form, row.kind)
    }
}

/// Whether a word is a name with these letters before it.
fn is_spelled(word: &[u8], flags: u8, name: &[u8]) -> bool
    ensures { result ≡ bytes_eq (letters flags ++ name.now) word.now }
{
    let letters = letters(flags);
    let front = letters.as_bytes();
    if word.len() < front.len() {
        return false;
    }
    let (start, rest) = word.split_at(front.len());
    start == front && rest == name
}

/// The letters, one of those of a `get`, with which a word names a row.
fn letters_of_get(word: &[u8], row: &Row) -> Option<u8>
    ensures { result ≡ find (λ flags. bytes_eq (letters flags ++ text_of row.now.name) word.now) (range_with_len 0 32) }
{
    (0..32u8).find(|flags| is_spelled(word, *flags, row.name.as_bytes()))
}

/// The letters, one of those of a `put`, with which a word names a row.
fn letters_of_put(word: &[u8], row: &Row) -> Option<u8>
    ensures { result ≡ find (λ flags. bytes_eq (letters flags ++ text_of row.now.name) word.now) (map (λ k. 2 * k) (range_with_len 0 16)) }
{
    (0..16u8)
        .map(|k| 2 * k)
        .find(|flags| is_spelled(word, *flags, row.name.as_bytes()))
}

/// No letters, where a word is the name of a row.
fn no_letters(word: &[u8], row: &Row) -> Option<u8>
    ensures { result ≡ find (λ flags. bytes_eq (letters flags ++ text_of row.now.name) word.now) (0 ∷ []) }
{
    if row.name.as_bytes() == word {
        Some(0)
    } else {
        None
    }
}

/// The letters with which a word names a row.
fn letters_in(word: &[u8], row: &Row) -> Option<u8>
    ensures { result ≡ letters_in word.now row.now }
{
    match row.form {
        Form::G => letters_of_get(word, row),
        Form::Gd => letters_of_get(word, row),
        Form::P => letters_of_put(word, row),
        Form::Pd => letters_of_put(word, row),
        _ => no_letters(word, row),
    }
}

/// The instruction for which a word is short.
fn alias(word: &[u8]) -> Option<Named>
    ensures { result ≡ alias word.now }
{
    let (op, bare) = if word == b"nop".as_slice() {
        (Op::Or, true)
    } else if word == b"la".as_slice() {
        (Op::Addik, false)
    } else {
        return None;
    };
    Some(Named { op, flags: 0, bare })
}

/// What a mnemonic names; None where it is unknown.
#[tactic(auto, unfolding(crate::specs::Spelling::mnemonic))]
pub fn mnemonic(word: &[u8]) -> Option<Named>
    ensures { result ≡ mnemonic word.now }
{
    for k in 0..COUNT {
        let Some(row) = row(k) else {
            return None;
        };
        if let Some(flags) = letters_in(word, &row) {
            return Some(Named {
                op: row.op,
                flags,
                bare: false,
            });
        }
    }
    alias(word)
}
