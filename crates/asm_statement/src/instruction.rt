ghost use Rattle.std.specs.Prelude.{◌≡◌, ◌≤◌, length, map};
ghost use Rattle.asm_statement.specs.Instructions.{instruction, is_put, is_test_put, shape_for, unread};
ghost use Rattle.mb_lex.specs.Lines.{placed_of};

use crate::labels::Labels;
use crate::operands::{Operation, take_all};
use asm_syntax::{Named, Slot};
use mb_decode::Instr;
use mb_lex::Token;
use op_table::{Form, row_of};

/// Whether instructions of a form write to a stream.
fn is_put(form: Form) -> bool
    ensures { result ≡ is_put form }
{
    match form {
        Form::P => true,
        Form::Pd => true,
        _ => false,
    }
}

/// Whether it is a put with the letter t, which may be written without its register.
#[tactic(auto, unfolding(crate::specs::Instructions::is_test_put))]
fn is_test_put(named: Named) -> bool
    ensures { result ≡ is_test_put named }
{
    is_put(row_of(named.op).form) && named.flags / 4 % 2 == 1
}

/// The operands of a mnemonic, where so many are written.
#[tactic(auto, unfolding(crate::specs::Instructions::shape_for))]
fn shape_for(named: Named, count: usize) -> &'static [Slot]
    requires { count ≤ 40 }
    ensures { result.now ≡ shape_for named count }
{
    let shape = named.shape();
    if is_test_put(named) && count + 1 == shape.len() {
        &shape[1..]
    } else {
        shape
    }
}

/// An instruction none of whose operands is read.
fn unread(named: Named) -> Operation
    ensures { result ≡ unread named }
{
    Operation {
        instr: Instr {
            op: named.op,
            rd: 0,
            ra: 0,
            rb: 0,
            imm: 0,
            flags: named.flags,
        },
        value: None,
        fault: None,
    }
}

/// What a mnemonic with these operands is; None where their number or kind is wrong.
#[tactic(auto, unfolding(crate::specs::Instructions::instruction))]
pub fn read_instruction<L: Labels>(
    labels: &L,
    after_imm: bool,
    named: Named,
    line: &[u8],
    tokens: &[Token],
) -> Option<Operation>
    requires { length tokens.now ≤ 40 }
    ensures { result ≡ instruction (L.items labels.now) after_imm named (map (placed_of line.now) tokens.now) }
{
    let shape = shape_for(named, tokens.len());
    if take_all(named.op, after_imm, shape, line, tokens) {
        Some(unread(named).with_all(labels, after_imm, shape, line, tokens))
    } else {
        None
    }
}
