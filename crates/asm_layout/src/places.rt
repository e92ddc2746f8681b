ghost use Rattle.std.specs.Prelude.{◌≡◌, ◌+◌, ◌*◌, ◌<◌, ◌≤◌, ◌^◌, List, ℕ, get_or, length};
ghost use Rattle.asm_layout.specs.declared.piece.Piece.{Piece};
ghost use Rattle.asm_layout.specs.Layout.{Numbers, place};
ghost use Rattle.asm_layout.specs.Places.{AreBelow, ArePlaces, member};

use crate::piece::Piece;

/// The place of the label before piece `k`, in the layout whose places these are. Behind the last piece all stand at its end.
pub fn place_at(places: &[u64], k: usize) -> u64
    requires { 0 < length places.now }
    ensures place { (all : List Piece) (F : Numbers) → length places.now ≡ length all + 1 → ArePlaces all F (length all) places.now → result ≡ place all F k }
    ensures below { (n : ℕ) → length places.now ≡ n + 1 → AreBelow n places.now → result < 2 ^ 62 }
    ensures near { (limit : ℕ) → ((j : ℕ) → j < length places.now → get_or places.now j 0 ≤ limit) → result ≤ limit }
{
    places[k.min(places.len() - 1)]
}

/// Lays out the pieces: the place before each, and the place behind the last.
pub fn lay_out(pieces: &[Piece], grown: &[bool], places: &mut [u64])
    requires few { length pieces.now ≤ 2 ^ 24 }
    requires same { length grown.now ≡ length pieces.now }
    requires room { length places.old ≡ length pieces.now + 1 }
    ensures places { ArePlaces pieces.now (member grown.now) (length pieces.now) places.new }
    ensures below { AreBelow (length pieces.now) places.new }
{
    let mut at = 0;
    places[0] = at;
    for k in 0..pieces.len() {
        let piece = pieces[k];
        at = piece.end(at, grown[k]);
        places[k + 1] = at;
    }
}
