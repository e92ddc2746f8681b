ghost use Rattle.std.specs.Prelude.{◌≡◌, ◌+◌, ◌<◌, ◌≤◌, ◌++◌, codes, length};
ghost use Rattle.asm_syntax.specs.Operands.{sign_16, slot_text};
ghost use Rattle.host_io.specs.Digits.{hex_16};
ghost use Rattle.mb_dis.specs.Statement.{operands_text, tail_text};

use asm_syntax::{OperandText, Slot, port_name, register_name, special_name};
use host_io::{ShortText, hex_16};
use itoa::Buffer;
use mb_decode::Instr;
use op_table::kind_of;

/// 16 bits as a number with a sign.
fn sign_16(value: u16) -> i32
    ensures { result ≡ sign_16 value }
{
    if value < 0x8000 {
        i32::from(value)
    } else {
        i32::from(value) - 0x1_0000
    }
}

/// `0x` and four digits.
fn upper(value: u16) -> OperandText
    ensures { result ≡ codes "0x" ++ hex_16 value }
{
    let mut text = OperandText::new();
    text.push(b"0x");
    text.push(&hex_16(value));
    text
}

/// A text of these bytes.
fn of_bytes(bytes: &[u8]) -> OperandText
    requires { length bytes.now ≤ 12 }
    ensures { result ≡ bytes.now }
{
    OperandText::from_bytes(bytes)
}

/// How an operand of an instruction is written.
#[tactic(auto, unfolding(asm_syntax::specs::Operands::slot_text, asm_syntax::specs::Names::special_of))]
fn slot_text(slot: Slot, i: &Instr) -> OperandText
    ensures { result ≡ slot_text slot i.now }
{
    match slot {
        Slot::RegisterD => register_name(i.rd),
        Slot::RegisterA => register_name(i.ra),
        Slot::RegisterB => register_name(i.rb),
        Slot::Value => of_bytes(Buffer::new().format(sign_16(i.imm)).as_bytes()),
        Slot::Number { .. } => of_bytes(Buffer::new().format(i.imm).as_bytes()),
        Slot::Upper => upper(i.imm),
        Slot::Port => port_name(i.imm),
        Slot::Special => of_bytes(special_name(kind_of(i.op))),
    }
}

/// Adds operands, each behind a comma.
fn add_tail(text: &mut ShortText, slots: &[Slot], i: &Instr)
    requires few { length slots.now ≤ 2 }
    requires room { length text.old ≤ 27 }
    ensures { text.new ≡ text.old ++ tail_text slots.now i.now }
{
    for slot in slots {
        text.push(b", ");
        text.push(slot_text(*slot, i).as_bytes());
    }
}

/// Adds operands, the first behind a space.
#[tactic(auto, unfolding(crate::specs::Statement::operands_text))]
pub fn add_operands(text: &mut ShortText, shape: &[Slot], i: &Instr)
    requires few { length shape.now ≤ 3 }
    requires room { length text.old ≤ 14 }
    ensures { text.new ≡ text.old ++ operands_text shape.now i.now }
{
    let [first, rest @ ..] = shape else {
        return;
    };
    text.push(b" ");
    text.push(slot_text(*first, i).as_bytes());
    add_tail(text, rest, i);
}
