//! Which operands with a label have a prefix, and where the pieces of a source stand.
#![tactic(auto)]

mod growing;
mod law;
mod piece;
mod places;
#[cfg(test)]
mod tests;

pub use growing::grow;
pub use law::{
    distances_are_local, growing_is_least, growing_is_unique, least_closed_set_is_another,
};
pub use piece::{Alignment, Piece};
pub use places::{lay_out, place_at};
