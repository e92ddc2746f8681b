//! Lists of rows.
ghost use Rattle.std.specs.Prelude.{◌≡◌, ◌↔◌, ◌<◌, IsSome, IfSome, length, slice_get, Some};

use std::marker::Model;

/// The rows of a table of a board, in board order.
#[derive(Drop)]
pub struct RowList<T> {
    rows: Vec<T>,
}

impl<T> Model for RowList<T> {
    ghost use Rattle.std.specs.Prelude.{List};

    ghost Value = { List T };

    ghost view = { λ l. l.rows.items };
}

impl<T> RowList<T> {
    /// The rows of a vector.
    pub fn from_vec(rows: Vec<T>) -> Self
        ensures { result ≡ rows.items }
    {
        RowList { rows }
    }

    /// The rows as a slice.
    pub fn as_slice(&self) -> &[T]
        ensures { result.now ≡ self.now }
    {
        self.rows.as_slice()
    }

    /// The number of rows.
    pub fn len(&self) -> usize
        ensures { result ≡ length self.now }
    {
        self.rows.len()
    }

    /// The row at a place, or `None` exactly where the place isn't below `len`.
    pub fn get(&self, place: usize) -> Option<&T>
        ensures within { IsSome result ↔ (place < length self.now) }
        ensures row { IfSome result (λ row. slice_get self.now place ≡ Some row.now) }
    {
        self.rows.get(place)
    }
}
