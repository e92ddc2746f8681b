//! The faults that stand in one table: in its rows, in their keys, and in their number.
ghost use Rattle.std.specs.Prelude.{◌≡◌, Some, None, [], option_map, is_some, flat_map, unwrap_or, false};
ghost use Rattle.toml.specs.Data.{no_members};
ghost use Rattle.toml.specs.View.{view, table_view};
ghost use Rattle.board_file.specs.Faults.{fault, fault_at, fault_unless, least_after, lesser};
ghost use Rattle.board_file.specs.Keys.{key_of, key_text, row_keys, table_key, tables, top_keys};
ghost use Rattle.board_file.specs.Read.{flag_in, is_board_name, key_code, right, version_in};
ghost use Rattle.board_file.specs.Rules.{are_few, code_if, count_faults, count_members, each_row, has, inner_faults, is_empty, is_empty_table, is_end, is_known, is_link, is_network, key_faults, keys_faults, many_code, row_code, row_faults, most_cores, most_links, stray_faults, table_faults, top_faults, value_faults, version_in_file};
ghost use Rattle.board_file.specs.Tree.{at_key, row_place, rows_in, table_place};

use crate::fault::{BoardRule, Fault, offer, offer_some, offer_unless};
use crate::keys::{Key, KeyRule, Rows, keys_of_file};
use crate::read::{is_board_name, key_fault, read_flag, read_version};
use crate::tree::{inside_of, place_of_row, place_of_table, table_rows, value_at};
use host_io::Place;
use toml::{Table, Value};

/// Offers the fault of a key.
#[tactic(auto, unfolding(crate::specs::Rules::key_faults))]
fn check_key(root: &Table, before: &Place, members: &Table, rule: KeyRule, best: &mut Option<Fault>)
    ensures { best.new ≡ least_after best.old (key_faults (table_view root.now) before.now (table_view members.now) rule) }
{
    let key = rule.key();
    let wrong = key_fault(root, rule, value_at(members, key));
    offer_some(best, wrong, before.with(key.text().as_bytes()));
}

/// Offers the faults of the keys that a table has.
#[tactic(auto, unfolding(crate::specs::Rules::keys_faults))]
fn check_keys(
    root: &Table,
    before: &Place,
    members: &Table,
    rules: &[KeyRule],
    best: &mut Option<Fault>,
)
    ensures { best.new ≡ least_after best.old (keys_faults (table_view root.now) before.now (table_view members.now) rules.now) }
{
    for rule in rules {
        check_key(root, before, members, *rule, best);
    }
}

#[tactic(auto, unfolding(crate::specs::Rules::is_known))]
fn knows(rules: &[KeyRule], text: &str) -> bool
    ensures { result ≡ is_known rules.now text.now }
{
    rules.iter().any(|rule| rule.key().text() == text)
}

/// Offers the keys that the table doesn't have.
fn check_strays(before: &Place, rules: &[KeyRule], members: &Table, best: &mut Option<Fault>)
    ensures { best.new ≡ least_after best.old (stray_faults before.now rules.now (table_view members.now)) }
{
    'members: for (text, _value) in members.iter() {
        offer_unless(
            best,
            knows(rules, text.as_str()),
            BoardRule::UnknownKey,
            before.with(text.as_bytes()),
        );
    }
}

fn has_key(members: &Table, key: Key) -> bool
    ensures { result ≡ has key (table_view members.now) }
{
    value_at(members, key).is_some()
}

fn is_whole_end(core: bool, port: bool, file: bool) -> bool
    ensures { result ≡ is_end core port file }
{
    if file { !core && !port } else { core && port }
}

/// Whether each end of a link has one form, and not both are files.
#[tactic(auto, unfolding(crate::specs::Rules::is_link))]
fn is_whole_link(members: &Table) -> bool
    ensures { result ≡ is_link (table_view members.now) }
{
    let from_file = has_key(members, Key::FromFile);
    let to_file = has_key(members, Key::ToFile);
    let from = is_whole_end(
        has_key(members, Key::From),
        has_key(members, Key::FromPort),
        from_file,
    );
    let to = is_whole_end(
        has_key(members, Key::To),
        has_key(members, Key::ToPort),
        to_file,
    );
    from && to && !(from_file && to_file)
}

fn fault_if(fails: bool, rule: BoardRule) -> Option<BoardRule>
    ensures { result ≡ code_if fails rule }
{
    if fails { Some(rule) } else { None }
}

/// What is wrong with a row that its table or a network board doesn't let stand.
#[tactic(auto, unfolding(crate::specs::Rules::row_code))]
fn row_fault(network: bool, rows: Rows, members: &Table) -> Option<BoardRule>
    ensures { result ≡ row_code network rows (table_view members.now) }
{
    match rows {
        Rows::Core => None,
        Rows::Link => fault_if(!is_whole_link(members), BoardRule::BadLink),
        Rows::Event => fault_if(network, BoardRule::EventOnNetwork),
        Rows::Timer => fault_if(network, BoardRule::DeviceOnNetwork),
        Rows::Intc => fault_if(network, BoardRule::DeviceOnNetwork),
        Rows::Uart => fault_if(network, BoardRule::DeviceOnNetwork),
    }
}

/// Offers the faults of what a row holds.
#[tactic(auto, unfolding(crate::specs::Rules::inner_faults))]
fn check_inner(
    network: bool,
    root: &Table,
    rows: Rows,
    at: Place,
    members: &Table,
    best: &mut Option<Fault>,
)
    ensures { best.new ≡ least_after best.old (inner_faults network (table_view root.now) rows at (table_view members.now)) }
{
    let before = inside_of(&at);
    let keys = rows.keys(version_of(root));
    check_keys(root, &before, members, keys, best);
    check_strays(&before, keys, members, best);
    offer_some(best, row_fault(network, rows, members), at);
}

/// Offers the faults of a row's value.
fn check_value(
    network: bool,
    root: &Table,
    rows: Rows,
    at: Place,
    value: &Value,
    best: &mut Option<Fault>,
)
    ensures { best.new ≡ least_after best.old (value_faults network (table_view root.now) rows at (view value.now)) }
{
    match value {
        Value::Table(members) => check_inner(network, root, rows, at, members, best),
        _ => offer(best, BoardRule::WrongType, at),
    }
}

/// Offers the faults of a row.
#[tactic(auto, unfolding(crate::specs::Rules::row_faults))]
fn check_row(
    network: bool,
    root: &Table,
    rows: Rows,
    name: &str,
    value: &Value,
    best: &mut Option<Fault>,
)
    ensures { best.new ≡ least_after best.old (row_faults network (table_view root.now) rows name.now (view value.now)) }
{
    offer_unless(
        best,
        is_board_name(name),
        BoardRule::BadValue,
        place_of_row(rows, name),
    );
    check_value(network, root, rows, place_of_row(rows, name), value, best);
}

/// Offers the faults of the rows of a table.
fn check_rows(network: bool, root: &Table, rows: Rows, members: &Table, best: &mut Option<Fault>)
    ensures { best.new ≡ least_after best.old (each_row network (table_view root.now) rows (table_view members.now)) }
{
    'members: for (name, value) in members.iter() {
        check_row(network, root, rows, name.as_str(), value, best);
    }
}

fn check_each_row(root: &Table, rows: Rows, best: &mut Option<Fault>)
    ensures { best.new ≡ least_after best.old (each_row (is_network (table_view root.now)) (table_view root.now) rows (rows_in (table_view root.now) rows)) }
{
    match table_rows(root, rows) {
        Some(members) => check_rows(requested_network(root), root, rows, members, best),
        None => {}
    }
}

/// Whether the file says that its board is a network.
#[tactic(auto, unfolding(crate::specs::Rules::is_network))]
pub fn requested_network(root: &Table) -> bool
    ensures { result ≡ is_network (table_view root.now) }
{
    match value_at(root, Key::Network) {
        Some(value) => read_flag(value).unwrap_or(false),
        None => false,
    }
}

/// The version of the file's format.
#[tactic(auto, unfolding(crate::specs::Rules::version_in_file))]
pub fn version_of(root: &Table) -> u8
    ensures { result ≡ version_in_file (table_view root.now) }
{
    match value_at(root, Key::Version) {
        Some(value) => read_version(value).unwrap_or(1),
        None => 1,
    }
}

fn cores_limit(version: u8) -> usize
    ensures { result ≡ most_cores version }
{
    if version == 2 { 64 } else { 16 }
}

fn links_limit(version: u8) -> usize
    ensures { result ≡ most_links version }
{
    if version == 2 { 256 } else { 64 }
}

#[tactic(auto, unfolding(crate::specs::Rules::are_few))]
fn is_few(version: u8, rows: Rows, number: usize) -> bool
    ensures { result ≡ are_few version rows number }
{
    match rows {
        Rows::Core => number <= cores_limit(version),
        Rows::Link => number <= links_limit(version),
        Rows::Timer => number <= 64,
        Rows::Uart => number <= 64,
        Rows::Event => number <= 256,
        Rows::Intc => true,
    }
}

#[tactic(auto, unfolding(crate::specs::Rules::many_code))]
fn fault_of_many(rows: Rows) -> BoardRule
    ensures { result ≡ many_code rows }
{
    match rows {
        Rows::Core => BoardRule::TooManyCores,
        Rows::Link => BoardRule::TooManyLinks,
        _ => BoardRule::BadValue,
    }
}

#[tactic(auto, using(crate::proofs::Lookups::count_view))]
fn rows_number(members: Option<&Table>) -> usize
    ensures { result ≡ count_members (unwrap_or (option_map (λ t. table_view t.now) members.entry) no_members) }
{
    match members {
        Some(members) => members.len(),
        None => 0,
    }
}

/// Offers the fault of a table with too many rows.
#[tactic(auto, unfolding(crate::specs::Rules::count_faults))]
fn check_count(root: &Table, rows: Rows, best: &mut Option<Fault>)
    ensures { best.new ≡ least_after best.old (count_faults (table_view root.now) rows) }
{
    let number = rows_number(table_rows(root, rows));
    let few = is_few(version_of(root), rows, number);
    offer_unless(best, few, fault_of_many(rows), place_of_table(rows));
}

/// Offers the faults of a table.
#[tactic(auto, unfolding(crate::specs::Rules::table_faults))]
pub fn check_table(root: &Table, rows: Rows, best: &mut Option<Fault>)
    ensures { best.new ≡ least_after best.old (table_faults (table_view root.now) rows) }
{
    check_each_row(root, rows, best);
    check_count(root, rows, best);
}

fn counts_none(members: Option<&Table>) -> bool
    ensures { result ≡ is_empty (option_map (λ t. table_view t.now) members.entry) }
{
    match members {
        Some(_) => rows_number(members) == 0,
        None => false,
    }
}

/// Whether a value is a table without rows.
fn lacks_rows(value: Option<&Value>) -> bool
    ensures { result ≡ is_empty_table (option_map (λ v. view v.now) value.entry) }
{
    match value {
        Some(value) => counts_none(value.as_table()),
        None => false,
    }
}

/// Offers the faults of the file's own keys.
#[tactic(auto, unfolding(crate::specs::Rules::top_faults))]
pub fn check_top(root: &Table, best: &mut Option<Fault>)
    ensures { best.new ≡ least_after best.old (top_faults (table_view root.now)) }
{
    let before = Place::from_bytes(b"");
    check_keys(root, &before, root, keys_of_file(), best);
    check_strays(&before, keys_of_file(), root, best);
    let has_cores = !lacks_rows(value_at(root, Key::Core));
    offer_unless(
        best,
        has_cores,
        BoardRule::Missing,
        place_of_table(Rows::Core),
    );
}
