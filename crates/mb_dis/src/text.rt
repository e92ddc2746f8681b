ghost use Rattle.std.specs.Prelude.{◌≡◌};
ghost use Rattle.op_table.specs.Table.{row_for};
ghost use Rattle.mb_dis.specs.Statement.{instr_text, text_of, word_text};

use crate::mnemonic::mnemonic;
use crate::operands::add_operands;
use asm_syntax::shape_of;
use host_io::{ShortText, hex_16};
use mb_decode::{Instr, decode};
use op_table::row_of;

/// The text of an instruction.
#[tactic(auto, unfolding(crate::specs::Statement::instr_text))]
fn instr_text(i: &Instr) -> ShortText
    ensures { result ≡ instr_text (row_for i.now.op).form i.now }
{
    let row = row_of(i.op);
    let mut text = mnemonic(i);
    add_operands(&mut text, shape_of(row.form, row.kind), i);
    text
}

/// The text of a word as data.
fn word_text(w: u32) -> ShortText
    ensures { result ≡ word_text w }
{
    let mut text = ShortText::new();
    text.push(b".word 0x");
    text.push(&hex_16((w / 0x1_0000) as u16));
    text.push(&hex_16((w % 0x1_0000) as u16));
    text
}

/// The text of a word: that of its instruction, or `.word` where it means none.
pub fn text_of(w: u32) -> ShortText
    ensures { result ≡ text_of w }
{
    match decode(w) {
        Some(i) => instr_text(&i),
        None => word_text(w),
    }
}
