//! What an operand means.
ghost use Rattle.std.specs.Prelude.{◌≡◌, ◌+◌, ◌<◌, ◌^◌, List, ℕ, length};
ghost use Rattle.asm_layout.specs.declared.piece.Piece.{Piece};
ghost use Rattle.asm_layout.specs.Layout.{Numbers, place};
ghost use Rattle.asm_layout.specs.Places.{AreBelow, ArePlaces};
ghost use Rattle.asm_source.specs.declared.item.Operand.TheVariants.{Label};
ghost use Rattle.asm_source.specs.Source.{own_place, value_of, word_of};

use asm_layout::place_at;
use asm_source::Operand;

/// The low 32 bits of a number.
pub fn word_of(number: i64) -> u32
    ensures { result ≡ word_of number }
{
    (number & 0xFFFF_FFFF) as u32
}

/// Where the word of an instruction stands that begins at a place.
pub fn own_place(here: u64, long: bool) -> u64
    requires { here < 2 ^ 62 }
    ensures place { result ≡ own_place here long }
    ensures near { result < 2 ^ 62 + 5 }
{
    if long { here + 4 } else { here }
}

/// What a label means at an item whose word stands at `own`.
fn label_value(relative: bool, own: u64, at: u64) -> i64
    requires own { own < 2 ^ 62 + 5 }
    requires at { at < 2 ^ 62 }
    ensures { (label : ℕ) (places : ℕ → ℕ) → at ≡ places label → result ≡ value_of places relative own (Label label) }
{
    if relative {
        at as i64 - own as i64
    } else {
        at as i64
    }
}

/// What an operand means at an item whose word stands at `own`: a label is its address, at a relative branch its distance.
pub fn value_of(places: &[u64], relative: bool, own: u64, operand: Operand) -> i64
    requires own { own < 2 ^ 62 + 5 }
    requires some { 0 < length places.now }
    requires below { (n : ℕ) → length places.now ≡ n + 1 → AreBelow n places.now }
    ensures { (all : List Piece) (F : Numbers) → length places.now ≡ length all + 1 → ArePlaces all F (length all) places.now → result ≡ value_of (place all F) relative own operand }
{
    match operand {
        Operand::Number(number) => number,
        Operand::Label(label) => label_value(relative, own, place_at(places, label)),
    }
}
