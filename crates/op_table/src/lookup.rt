ghost use Rattle.op_table.specs.Kinds.{belongs_into_slot, latency_of};
ghost use Rattle.op_table.specs.Mnemonics.{mnemonic};
ghost use Rattle.op_table.specs.declared.op.Op.{Op};
ghost use Rattle.op_table.specs.Table.{
  IsRowOf,
  IsSound,
  first_rows,
  is_store,
  kind_of,
  matches,
  opcode,
  place,
  row_for,
  rows,
  rows_of,
  second_of,
};
ghost use Rattle.std.specs.Prelude.{
  ◌≡◌,
  ◌^◌,
  ◌<◌,
  ◌≤◌,
  ◌↔◌,
  ◌⊎◌,
  codes,
  ℕ,
  filter,
  length,
  slice_get,
  slice_range,
  IfSome,
  IsNone,
};

use crate::entry::Row;
use crate::kinds::{Kind, Latency, Second};
use crate::op::Op;
use crate::table::{COUNT, FIRST_ROW, ROWS};

/// The whole table.
fn all_rows() -> &'static [Row]
    ensures table { result.now ≡ rows }
    ensures count { length rows ≡ COUNT }
{
    &ROWS
}

/// The row at a place of the table; None exactly where the place is not below `COUNT`.
pub fn row(k: usize) -> Option<Row>
    ensures listed { result ≡ slice_get rows k }
    ensures past_the_end { IsNone result ↔ COUNT ≤ k }
{
    let all = all_rows();
    if k < all.len() { Some(all[k]) } else { None }
}

/// The place of an instruction's row.
fn place(op: Op) -> usize
    ensures { result ≡ place op }
{
    op as usize
}

/// The row of an instruction: the only one in the table with its name.
#[inline(always)]
pub fn row_of(op: Op) -> Row
    ensures row { result ≡ row_for op }
    ensures only { IsRowOf op result }
    ensures sound { IsSound result }
{
    every_row_is_known();
    all_rows()[place(op)]
}

/// What an instruction does.
#[inline(always)]
pub fn kind_of(op: Op) -> Kind
    ensures { result ≡ kind_of op }
{
    row_of(op).kind
}

/// Where the second operand of an instruction stands.
#[inline(always)]
pub fn second_of(op: Op) -> Second
    ensures { result ≡ second_of op }
{
    row_of(op).second
}

/// How soon the register that an instruction writes can be used, `None` where it writes none.
#[inline(always)]
pub fn latency_of(op: Op) -> Option<Latency>
    ensures { result ≡ latency_of (kind_of op) }
{
    row_of(op).latency
}

/// Whether an instruction may stand in the slot of a branch.
#[inline(always)]
pub fn belongs_into_slot(op: Op) -> bool
    ensures { result ≡ belongs_into_slot (kind_of op) }
{
    row_of(op).slot_ok
}

/// Whether an instruction stores to memory.
pub fn is_store(op: Op) -> bool
    ensures { result ≡ is_store op }
{
    matches!(kind_of(op), Kind::Store(_))
}

/// Each instruction has one row, whose mask is that of its form and whose latency and slot are those of its kind.
pub fn every_row_is_known()
    ensures only { (op : Op) → IsRowOf op (row_for op) }
    ensures sound { (op : Op) → IsSound (row_for op) }
{}

/// No word is of two rows.
pub fn at_most_one_row()
    ensures { (w : ℕ) → length (rows_of w) ≤ 1 }
{}

/// A mnemonic names one instruction, but that `mfs` names one for each special register that it reads.
pub fn names_differ()
    ensures { (op other : Op) → (row_for op).name ≡ (row_for other).name → (op ≡ other) ⊎ ((row_for op).name ≡ mnemonic (codes "mfs")) }
{}

/// The places at which the rows of each opcode begin.
fn all_first_rows() -> &'static [usize]
    ensures places { result.now ≡ first_rows }
    ensures count { length first_rows ≡ 65 }
{
    &FIRST_ROW
}

/// The rows from one place up to another.
fn between(all: &[Row], from: usize, to: usize) -> &[Row]
    requires in_order { from ≤ to }
    requires within { to ≤ length all.now }
    ensures { result.now ≡ slice_range all.now from to }
{
    &all[from..to]
}

/// The rows that a word with this opcode can be of.
pub fn candidates(code: u32) -> &'static [Row]
    requires { code < 64 }
    ensures { (w : ℕ) → w < 2 ^ 32 → opcode w ≡ code → filter (matches w) result.now ≡ rows_of w }
{
    let places = all_first_rows();
    let at = code as usize;
    between(all_rows(), places[at], places[at + 1])
}
