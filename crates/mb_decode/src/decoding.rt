ghost use Rattle.mb_decode.specs.Meaning.{InRange, NamesRegisters, Fits, meaning, the_only};
ghost use Rattle.op_table.specs.Table.{matches, row_for, rows_of};
ghost use Rattle.std.specs.Prelude.{IfSome, ◌≡◌, find};

use crate::fields::read;
use crate::instruction::Instr;
use op_table::{Row, at_most_one_row, candidates, every_row_is_known};

/// The first of the rows that a word is of.
fn first_match(rows: &[Row], w: u32) -> Option<Row>
    ensures { result ≡ find (matches w) rows.now }
{
    rows.iter().copied().find(|row| w & row.mask == row.bits)
}

/// The one row that a word is of, looked for among those of its opcode.
fn matching_row(w: u32) -> Option<Row>
    ensures { result ≡ the_only (rows_of w) }
{
    at_most_one_row();
    first_match(candidates(w >> 26), w)
}

/// The instruction that a word means; None exactly where no row of the table matches it.
pub fn decode(w: u32) -> Option<Instr>
    ensures meaning { result ≡ meaning w }
    ensures fits { IfSome result (λ i. Fits (row_for i.op).form i) }
    ensures registers { IfSome result NamesRegisters }
    ensures range { IfSome result InRange }
{
    every_row_is_known();
    match matching_row(w) {
        Some(row) => Some(read(row.form, row.op, w)),
        None => None,
    }
}
