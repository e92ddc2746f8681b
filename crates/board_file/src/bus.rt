//! The devices of a core beside its memory and its interrupt controller, and the sum of all memories.
ghost use Rattle.std.specs.Prelude.{◌≡◌, Some, None, flat_map, option_and_then, option_map, unwrap_or, true};
ghost use Rattle.std.specs.List.{list_any};
ghost use Rattle.std.specs.Result.{result_ok};
ghost use Rattle.toml.specs.Data.{as_table, get_member, no_members};
ghost use Rattle.toml.specs.View.{view, table_view};
ghost use Rattle.board_file.specs.Bus.{below_faults, clears_memory, is_affordable, is_clear, lone_faults, memory_of, memory_sum, same_core, size_in, size_or_default, sum_faults};
ghost use Rattle.board_file.specs.Faults.{fault_unless, least_after};
ghost use Rattle.board_file.specs.Read.{number_in};
ghost use Rattle.board_file.specs.Tree.{at_key, rows_in, table_place};

use crate::claims::{Claim, Subject};
use crate::fault::{BoardRule, Fault, offer_unless};
use crate::keys::{Key, Quantity, Rows};
use crate::read::read_number;
use crate::tree::{place_of_table, table_rows, value_at, value_of};
use toml::{Table, Value};

fn is_same_core(subject: &Subject, other: &Subject) -> bool
    ensures { result ≡ same_core subject.now other.now }
{
    match subject {
        Subject::OfCore { core, number: _ } => match other {
            Subject::OfCore {
                core: owner,
                number: _,
            } => core.as_text() == owner.as_text(),
            Subject::File(_) => false,
        },
        Subject::File(_) => false,
    }
}

fn has_core_in(claim: &Claim, there: &[Claim]) -> bool
    ensures { result ≡ list_any (λ d. same_core claim.now.on d.on) there.now }
{
    there.iter().any(|other| is_same_core(&claim.on, &other.on))
}

fn check_lone_irq(controllers: &[Claim], claim: &Claim, best: &mut Option<Fault>)
    ensures { best.new ≡ least_after best.old (lone_faults controllers.now claim.now) }
{
    offer_unless(
        best,
        has_core_in(claim, controllers),
        BoardRule::Missing,
        claim.place.copied(),
    );
}

/// Offers the inputs of cores that have none of these controllers.
pub fn check_lone_irqs(controllers: &[Claim], irqs: &[Claim], best: &mut Option<Fault>)
    ensures { best.new ≡ least_after best.old (flat_map (lone_faults controllers.now) irqs.now) }
{
    for claim in irqs {
        check_lone_irq(controllers, claim, best);
    }
}

fn size_of(value: Option<&Value>) -> Option<u64>
    ensures { result ≡ size_or_default (option_map (λ v. view v.now) value.entry) }
{
    match value {
        Some(value) => read_number(Quantity::Memory, value).ok(),
        None => Some(65_536),
    }
}

fn size_of_row(row: Option<&Table>) -> Option<u64>
    ensures { result ≡ size_in (option_map (λ t. table_view t.now) row.entry) }
{
    match row {
        Some(members) => size_of(value_at(members, Key::Memory)),
        None => None,
    }
}

/// The size of a core's memory, where it is right.
#[tactic(auto, unfolding(crate::specs::Bus::memory_of))]
fn core_memory(root: &Table, core: &str) -> Option<u64>
    ensures { result ≡ memory_of (table_view root.now) core.now }
{
    match table_rows(root, Rows::Core) {
        Some(cores) => match value_of(cores, core) {
            Some(row) => size_of_row(row.as_table()),
            None => None,
        },
        None => None,
    }
}

fn is_clear_of(size: Option<u64>, base: u64) -> bool
    ensures { result ≡ is_clear size base }
{
    match size {
        Some(size) => size <= base,
        None => true,
    }
}

fn is_clear_of_memory(root: &Table, subject: &Subject) -> bool
    ensures { result ≡ clears_memory (table_view root.now) subject.now }
{
    match subject {
        Subject::OfCore { core, number } => is_clear_of(core_memory(root, core.as_text()), *number),
        Subject::File(_) => true,
    }
}

/// Offers the bases that are below the memories of their cores.
pub fn check_bases(root: &Table, bases: &[Claim], best: &mut Option<Fault>)
    ensures { best.new ≡ least_after best.old (flat_map (below_faults (table_view root.now)) bases.now) }
{
    for claim in bases {
        let clear = is_clear_of_memory(root, &claim.on);
        offer_unless(best, clear, BoardRule::BadBase, claim.place.copied());
    }
}

/// Whether the memories of the cores are within the limit of a board, or one of them isn't right.
fn are_affordable(cores: &Table) -> bool
    ensures { result ≡ is_affordable (memory_sum (table_view cores.now)) }
{
    let mut sum: u64 = 0;
    'members: for (_, row) in cores.iter() {
        match size_of_row(row.as_table()) {
            Some(size) => sum = sum.saturating_add(size),
            None => return true,
        }
    }
    sum <= 1_073_741_824
}

/// Offers the fault of memories that are too large together.
#[tactic(auto, unfolding(crate::specs::Bus::sum_faults))]
pub fn check_sum(root: &Table, best: &mut Option<Fault>)
    ensures { best.new ≡ least_after best.old (sum_faults (table_view root.now)) }
{
    let affordable = match table_rows(root, Rows::Core) {
        Some(cores) => are_affordable(cores),
        None => true,
    };
    offer_unless(
        best,
        affordable,
        BoardRule::BadMemory,
        place_of_table(Rows::Core),
    );
}
