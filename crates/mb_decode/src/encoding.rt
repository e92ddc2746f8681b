ghost use Rattle.mb_decode.specs.Meaning.{Means};
ghost use Rattle.mb_decode.specs.declared.instruction.Instr.{Instr};
ghost use Rattle.std.specs.Prelude.{IfSome, ◌≡◌, ◌^◌, ◌<◌, ℕ};

use crate::fields::{fits, placed};
use crate::instruction::Instr;
use op_table::{at_most_one_row, every_row_is_known, row_of};

/// The word that means an instruction. None exactly where no word does: a field is outside its row's range, or a field
/// that the row lacks is not 0.
pub fn encode(i: &Instr) -> Option<u32>
    ensures means { IfSome result (λ w. Means w i.now) }
    ensures only { (w : ℕ) → w < 2 ^ 32 → Means w i.now → result ≡ Some w }
{
    at_most_one_row();
    let row = row_of(i.op);
    if fits(row.form, i) {
        Some(row.bits + placed(row.form, i))
    } else {
        None
    }
}

/// Words and instructions stand one to one, so that `decode` and `encode` undo each other.
pub fn round_trips()
    ensures decoded { (w : ℕ) (i j : Instr) → Means w i → Means w j → i ≡ j }
    ensures encoded { (v w : ℕ) (i : Instr) → v < 2 ^ 32 → w < 2 ^ 32 → Means v i → Means w i → v ≡ w }
{
    every_row_is_known();
}
