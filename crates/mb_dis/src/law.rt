ghost use Rattle.std.specs.Prelude.{◌≡◌, Some};
ghost use Rattle.mb_decode.specs.Meaning.{Means};
ghost use Rattle.mb_decode.specs.declared.instruction.Instr.{Instr};
ghost use Rattle.mb_dis.specs.Statement.{lexemes, statement, text_of};
ghost use Rattle.mb_lex.specs.Lexemes.{lex};

use mb_decode::decode;

/// The text of a word that means an instruction is read as that instruction, for each row of the table.
pub fn text_reads_back(w: u32)
    ensures { (i : Instr) → Means w i → statement (lexemes (lex 0 0 (text_of w))) ≡ Some i }
{
    let _ = decode(w);
}
