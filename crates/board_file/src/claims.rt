//! What one row of the file alone may name: an output file, or a port, a base, an input or the controller of a core.
ghost use Rattle.std.specs.Prelude.{◌≡◌, ◌++◌, ◌∷◌, [], Some, None, true, ◌&&◌, not, false, flat_map, option_map, IfOk, OnOk};
ghost use Rattle.std.specs.List.{list_any};
ghost use Rattle.toml.specs.Data.{as_table, no_members};
ghost use Rattle.toml.specs.View.{view, table_view};
ghost use Rattle.board_file.specs.Claims.{bases, claim_faults, claimed_by, claims_by, claims_in, claims_on_file, collides, controllers, core_claim, core_claim_of, core_claims, file_claim, file_claim_of, file_claims, gets, irqs, puts, row_claims, same_subject, twice_faults};
ghost use Rattle.board_file.specs.Faults.{fault, fault_unless, is_earlier, least_after, lesser};
ghost use Rattle.board_file.specs.Read.{core_name_at, file_at, number_at};
ghost use Rattle.board_file.specs.Tree.{key_place, members_in, rows_in};

use crate::fault::{BoardRule, Fault, is_earlier_place, offer_unless};
use crate::keys::{Key, Quantity, Rows};
use crate::read::{core_found, file_found, number_found};
use crate::tree::{place_of_key, table_rows};
use host_io::{FileName, NoMemory, Place};
use std::alloc::Global;
use std::marker::Model;
use toml::{Table, Value};

/// The name of a core that is there, whether or not it obeys the rule of names. It means its bytes.
#[derive(Drop)]
pub struct CoreName {
    text: String,
}

impl Model for CoreName {
    ghost use Rattle.std.specs.Prelude.{ℕ, List, string_bytes};

    ghost Value = { List ℕ };

    ghost view = { λ n. string_bytes n.text };
}

impl CoreName {
    fn copy_of(alloc: Global, name: &str) -> Result<CoreName, NoMemory>
        ensures { IfOk result (λ n. n ≡ name.now) }
    {
        let text = String::from_str(alloc, name)?;
        Ok(CoreName { text })
    }

    /// The name's text.
    pub fn as_text(&self) -> &str
        ensures { result.now ≡ self.now }
    {
        self.text.as_str()
    }
}

/// What is claimed.
#[derive(Drop)]
pub enum Subject {
    /// A file.
    File(FileName),
    /// A number of a core: a port, a base or an input.
    OfCore { core: CoreName, number: u64 },
}

/// A claim of a place of the file on something, alone or not.
#[derive(Drop)]
pub struct Claim {
    pub place: Place,
    pub on: Subject,
    pub sole: bool,
}

/// What each row of a table claims of a core.
#[derive(Clone, Copy, Debug)]
pub enum Usage {
    /// The number at the second key, a port, a base or an input, of the core that the first names.
    Number(Rows, Key, Key, Quantity),
    /// The core that the key names, as the only row of its table.
    Whole(Rows, Key),
}

static PUTS: [Usage; 1] = [Usage::Number(Rows::Link, Key::From, Key::FromPort, Quantity::Port)];

static GETS: [Usage; 1] = [Usage::Number(Rows::Link, Key::To, Key::ToPort, Quantity::Port)];

static BASES: [Usage; 3] = [
    Usage::Number(Rows::Timer, Key::Core, Key::Base, Quantity::Base),
    Usage::Number(Rows::Intc, Key::Core, Key::Base, Quantity::Base),
    Usage::Number(Rows::Uart, Key::Core, Key::Base, Quantity::Base),
];

static IRQS: [Usage; 2] = [
    Usage::Number(Rows::Timer, Key::Core, Key::Irq, Quantity::Irq),
    Usage::Number(Rows::Uart, Key::Core, Key::Irq, Quantity::Irq),
];

static CONTROLLERS: [Usage; 1] = [Usage::Whole(Rows::Intc, Key::Core)];

/// The ports at which links take items from cores.
#[tactic(auto, unfolding(crate::specs::Claims::puts))]
pub fn put_ports() -> &'static [Usage]
    ensures { result.now ≡ puts }
{
    &PUTS
}

/// The ports at which links give items to cores.
#[tactic(auto, unfolding(crate::specs::Claims::gets))]
pub fn get_ports() -> &'static [Usage]
    ensures { result.now ≡ gets }
{
    &GETS
}

/// The addresses of devices.
#[tactic(auto, unfolding(crate::specs::Claims::bases))]
pub fn device_bases() -> &'static [Usage]
    ensures { result.now ≡ bases }
{
    &BASES
}

/// The inputs of interrupt controllers.
#[tactic(auto, unfolding(crate::specs::Claims::irqs))]
pub fn device_irqs() -> &'static [Usage]
    ensures { result.now ≡ irqs }
{
    &IRQS
}

/// The interrupt controllers of cores.
#[tactic(auto, unfolding(crate::specs::Claims::controllers))]
pub fn core_controllers() -> &'static [Usage]
    ensures { result.now ≡ controllers }
{
    &CONTROLLERS
}

/// Adds a claim.
fn add(claims: &mut Vec<Claim>, claim: Claim) -> Result<(), NoMemory>
    ensures { OnOk result (claims.new.items ≡ claims.old.items ++ claim ∷ []) }
{
    claims.push(claim)?;
    Ok(())
}

/// Adds a claim on a file, where its name is right.
fn add_file(
    claims: &mut Vec<Claim>,
    sole: bool,
    place: Place,
    name: Option<FileName>,
) -> Result<(), NoMemory>
    ensures { OnOk result (claims.new.items ≡ claims.old.items ++ file_claim sole place name) }
{
    match name {
        Some(name) => {
            let on = Subject::File(name);
            add(claims, Claim { place, on, sole })
        }
        None => Ok(()),
    }
}

/// Adds the claim of a row on a file.
#[tactic(auto, unfolding(crate::specs::Claims::file_claim_of))]
fn add_file_of(
    sole: bool,
    rows: Rows,
    key: Key,
    name: &str,
    value: &Value,
    claims: &mut Vec<Claim>,
) -> Result<(), NoMemory>
    ensures { OnOk result (claims.new.items ≡ claims.old.items ++ row_claims (file_claim_of sole rows key) name.now (as_table (view value.now))) }
{
    match value.as_table() {
        Some(members) => add_file(
            claims,
            sole,
            place_of_key(rows, name, key),
            file_found(members, key),
        ),
        None => Ok(()),
    }
}

fn add_files_in(
    sole: bool,
    rows: Rows,
    key: Key,
    members: &Table,
    claims: &mut Vec<Claim>,
) -> Result<(), NoMemory>
    ensures { OnOk result (claims.new.items ≡ claims.old.items ++ claims_in (file_claim_of sole rows key) (table_view members.now)) }
{
    'members: for (name, value) in members.iter() {
        add_file_of(sole, rows, key, name.as_str(), value, claims)?;
    }
    Ok(())
}

/// Adds the claims of the rows of a table on files.
#[tactic(auto, unfolding(crate::specs::Claims::claims_on_file))]
fn add_files(
    root: &Table,
    sole: bool,
    rows: Rows,
    key: Key,
    claims: &mut Vec<Claim>,
) -> Result<(), NoMemory>
    ensures { OnOk result (claims.new.items ≡ claims.old.items ++ claims_on_file (table_view root.now) sole rows key) }
{
    match table_rows(root, rows) {
        Some(members) => add_files_in(sole, rows, key, members, claims),
        None => Ok(()),
    }
}

/// The claims on files.
#[tactic(auto, unfolding(crate::specs::Claims::file_claims))]
pub fn claims_on_files(alloc: Global, root: &Table) -> Result<Vec<Claim>, NoMemory>
    ensures { IfOk result (λ v. v.items ≡ file_claims (table_view root.now)) }
{
    let mut claims = Vec::new(alloc);
    add_files(root, true, Rows::Link, Key::ToFile, &mut claims)?;
    add_files(root, true, Rows::Uart, Key::Output, &mut claims)?;
    add_files(root, false, Rows::Link, Key::FromFile, &mut claims)?;
    add_files(root, false, Rows::Uart, Key::Input, &mut claims)?;
    add_files(root, false, Rows::Core, Key::Image, &mut claims)?;
    Ok(claims)
}

/// Adds a claim on a number of a core, where the core is there and the number right.
fn add_number(
    alloc: Global,
    claims: &mut Vec<Claim>,
    place: Place,
    core: Option<&str>,
    number: Option<u64>,
) -> Result<(), NoMemory>
    ensures { OnOk result (claims.new.items ≡ claims.old.items ++ core_claim place (option_map (λ s. s.now) core.entry) number) }
{
    match core {
        Some(name) => match number {
            Some(number) => add_of_core(alloc, claims, place, name, number),
            None => Ok(()),
        },
        None => Ok(()),
    }
}

fn add_of_core(
    alloc: Global,
    claims: &mut Vec<Claim>,
    place: Place,
    name: &str,
    number: u64,
) -> Result<(), NoMemory>
    ensures { OnOk result (claims.new.items ≡ claims.old.items ++ core_claim place (Some name.now) (Some number)) }
{
    let core = CoreName::copy_of(alloc, name)?;
    let on = Subject::OfCore { core, number };
    add(
        claims,
        Claim {
            place,
            on,
            sole: true,
        },
    )
}

/// Adds the claim of a row on its core.
#[tactic(auto, unfolding(crate::specs::Claims::core_claim_of))]
fn add_usage(
    alloc: Global,
    root: &Table,
    usage: Usage,
    name: &str,
    members: &Table,
    claims: &mut Vec<Claim>,
) -> Result<(), NoMemory>
    ensures { OnOk result (claims.new.items ≡ claims.old.items ++ core_claim_of (table_view root.now) usage name.now (table_view members.now)) }
{
    match usage {
        Usage::Number(rows, core, key, quantity) => add_number(
            alloc,
            claims,
            place_of_key(rows, name, key),
            core_found(root, members, core),
            number_found(quantity, members, key),
        ),
        Usage::Whole(rows, core) => add_number(
            alloc,
            claims,
            place_of_key(rows, name, core),
            core_found(root, members, core),
            Some(0),
        ),
    }
}

fn add_usage_of(
    alloc: Global,
    root: &Table,
    usage: Usage,
    name: &str,
    value: &Value,
    claims: &mut Vec<Claim>,
) -> Result<(), NoMemory>
    ensures { OnOk result (claims.new.items ≡ claims.old.items ++ row_claims (core_claim_of (table_view root.now) usage) name.now (as_table (view value.now))) }
{
    match value.as_table() {
        Some(members) => add_usage(alloc, root, usage, name, members, claims),
        None => Ok(()),
    }
}

fn add_usages_in(
    alloc: Global,
    root: &Table,
    usage: Usage,
    members: &Table,
    claims: &mut Vec<Claim>,
) -> Result<(), NoMemory>
    ensures { OnOk result (claims.new.items ≡ claims.old.items ++ claims_in (core_claim_of (table_view root.now) usage) (table_view members.now)) }
{
    'members: for (name, value) in members.iter() {
        add_usage_of(alloc, root, usage, name.as_str(), value, claims)?;
    }
    Ok(())
}

/// The table whose rows claim something of a core.
fn table_of(usage: Usage) -> Rows
    ensures { result ≡ claimed_by usage }
{
    match usage {
        Usage::Number(rows, _, _, _) => rows,
        Usage::Whole(rows, _) => rows,
    }
}

/// Adds the claims of the rows of a table on their cores.
#[tactic(auto, unfolding(crate::specs::Claims::claims_by))]
fn add_usages(
    alloc: Global,
    root: &Table,
    usage: Usage,
    claims: &mut Vec<Claim>,
) -> Result<(), NoMemory>
    ensures { OnOk result (claims.new.items ≡ claims.old.items ++ claims_by (table_view root.now) usage) }
{
    match table_rows(root, table_of(usage)) {
        Some(members) => add_usages_in(alloc, root, usage, members, claims),
        None => Ok(()),
    }
}

/// The claims on cores.
#[tactic(auto, unfolding(crate::specs::Claims::core_claims))]
pub fn claims_on_cores(
    alloc: Global,
    root: &Table,
    usages: &[Usage],
) -> Result<Vec<Claim>, NoMemory>
    ensures { IfOk result (λ v. v.items ≡ core_claims (table_view root.now) usages.now) }
{
    let mut claims = Vec::new(alloc);
    for usage in usages {
        add_usages(alloc, root, *usage, &mut claims)?;
    }
    Ok(claims)
}

fn is_same_subject(subject: &Subject, other: &Subject) -> bool
    ensures { result ≡ same_subject subject.now other.now }
{
    match subject {
        Subject::File(name) => match other {
            Subject::File(named) => name.is(named),
            Subject::OfCore { core: _, number: _ } => false,
        },
        Subject::OfCore { core, number } => match other {
            Subject::OfCore {
                core: owner,
                number: other,
            } => core.as_text() == owner.as_text() && *number == *other,
            Subject::File(_) => false,
        },
    }
}

fn collide(claim: &Claim, other: &Claim) -> bool
    ensures { result ≡ collides claim.now other.now }
{
    is_same_subject(&claim.on, &other.on)
        && (!other.sole || is_earlier_place(&other.place, &claim.place))
}

fn has_collision(claim: &Claim, all: &[Claim]) -> bool
    ensures { result ≡ list_any (collides claim.now) all.now }
{
    all.iter().any(|other| collide(claim, other))
}

fn is_free(claim: &Claim, all: &[Claim]) -> bool
    ensures { result ≡ not (claim.now.sole && list_any (collides claim.now) all.now) }
{
    !(claim.sole && has_collision(claim, all))
}

fn check_claim(rule: BoardRule, all: &[Claim], claim: &Claim, best: &mut Option<Fault>)
    ensures { best.new ≡ least_after best.old (claim_faults rule all.now claim.now) }
{
    offer_unless(best, is_free(claim, all), rule, claim.place.copied());
}

/// Offers the claims that collide.
#[tactic(auto, unfolding(crate::specs::Claims::twice_faults))]
pub fn check_claims(rule: BoardRule, all: &[Claim], best: &mut Option<Fault>)
    ensures { best.new ≡ least_after best.old (twice_faults rule all.now) }
{
    for claim in all {
        check_claim(rule, all, claim, best);
    }
}
