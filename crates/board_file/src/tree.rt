//! What stands where in the tree of a board file, and the places of faults.
ghost use Rattle.std.specs.Prelude.{◌≡◌, Some, None, option_map, unwrap_or, is_some};
ghost use Rattle.toml.specs.Data.{get_member, no_members};
ghost use Rattle.toml.specs.View.{view, table_view};
ghost use Rattle.board_file.specs.Keys.{key_text, table_key};
ghost use Rattle.board_file.specs.Tree.{at_key, further, has_core, inside, key_path, key_place, members_in, place, row_place, rows_in, table_place};

use crate::keys::{Key, Rows};
use host_io::Place;
use toml::{Table, Value};

/// The value under a name, where it is there.
#[tactic(auto, using(crate::proofs::Lookups::found))]
pub fn value_of<'a>(members: &'a Table, name: &str) -> Option<&'a Value>
    ensures { option_map (λ v. view v.now) result ≡ get_member name.now (table_view members.now) }
{
    members.get(name)
}

/// The value at a key, where it is there.
pub fn value_at<'a>(members: &'a Table, key: Key) -> Option<&'a Value>
    ensures { option_map (λ v. view v.now) result ≡ at_key key (table_view members.now) }
{
    value_of(members, key.text())
}

/// The rows of a table of the file, where it is a table.
#[tactic(auto, unfolding(crate::specs::Tree::rows_in))]
pub fn table_rows<'a>(root: &'a Table, rows: Rows) -> Option<&'a Table>
    ensures { unwrap_or (option_map (λ t. table_view t.now) result) no_members ≡ rows_in (table_view root.now) rows }
{
    match value_at(root, rows.key()) {
        Some(value) => value.as_table(),
        None => None,
    }
}

/// Whether the file has a core of this name.
#[tactic(auto, unfolding(crate::specs::Tree::has_core))]
pub fn names_core(root: &Table, name: &str) -> bool
    ensures { result ≡ has_core (table_view root.now) name.now }
{
    match table_rows(root, Rows::Core) {
        Some(cores) => value_of(cores, name).is_some(),
        None => false,
    }
}

/// The place in front of what is inside.
pub fn inside_of(place: &Place) -> Place
    ensures { result ≡ inside place.now }
{
    place.with(b".")
}

/// The place of a table.
#[tactic(auto, unfolding(crate::specs::Tree::table_place))]
pub fn place_of_table(rows: Rows) -> Place
    ensures { result ≡ table_place rows }
{
    Place::from_bytes(rows.key().text().as_bytes())
}

/// The place of a row.
#[tactic(auto, unfolding(crate::specs::Tree::row_place))]
pub fn place_of_row(rows: Rows, name: &str) -> Place
    ensures { result ≡ row_place rows name.now }
{
    inside_of(&place_of_table(rows)).with(name.as_bytes())
}

/// The place of a key of a row.
#[tactic(auto, unfolding(crate::specs::Tree::key_place), using(crate::proofs::Paths::places_are_paths))]
pub fn place_of_key(rows: Rows, name: &str, key: Key) -> Place
    ensures value { result ≡ key_place rows name.now key }
    ensures path { result ≡ place (key_path rows name.now key) }
{
    inside_of(&place_of_row(rows, name)).with(key.text().as_bytes())
}
