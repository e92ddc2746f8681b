ghost use Rattle.std.specs.Prelude.{◌≡◌, ◌≤◌, length};
ghost use Rattle.asm_syntax.specs.Spelling.{spelled};

use asm_syntax::letters;
use host_io::ShortText;
use mb_decode::Instr;
use op_table::row_of;

/// The mnemonic of an instruction, with its letters before it.
#[tactic(auto, using(crate::proofs::Lengths::name_is_short), unfolding(asm_syntax::specs::Spelling::spelled, asm_syntax::specs::Names::name_of))]
pub fn mnemonic(i: &Instr) -> ShortText
    ensures name { result ≡ spelled i.now.op i.now.flags }
    ensures short { length result ≤ 14 }
{
    let mut text = letters(i.flags);
    let row = row_of(i.op);
    text.push(row.name.as_bytes());
    text
}
