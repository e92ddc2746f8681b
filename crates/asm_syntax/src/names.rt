ghost use Rattle.std.specs.Prelude.{◌≡◌, ◌≤◌, ◌&&◌, length, bytes_eq};
ghost use Rattle.asm_syntax.specs.Names.{special_name};
ghost use Rattle.asm_syntax.specs.Operands.{has_special, with_special};
ghost use Rattle.op_table.specs.Mnemonics.{text_of};

use op_table::{COUNT, Kind, Mnemonic, Op, Row, Special, row, row_of};

/// The name of the special register that an instruction reads or writes; the empty one where it does neither.
pub fn special_name(kind: Kind) -> &'static [u8]
    ensures name { result.now ≡ special_name kind }
    ensures short { length result.now ≤ 4 }
{
    match kind {
        Kind::MoveFrom(Special::Pc) => b"rpc",
        Kind::MoveFrom(Special::Msr) => b"rmsr",
        Kind::MoveFrom(Special::Ear) => b"rear",
        Kind::MoveFrom(Special::Esr) => b"resr",
        Kind::MoveFrom(Special::Btr) => b"rbtr",
        Kind::MoveFrom(Special::Edr) => b"redr",
        Kind::MoveToMsr => b"rmsr",
        _ => b"",
    }
}

/// Whether a row has this name, and its instruction names this special register.
fn has_special(row: &Row, name: &Mnemonic, word: &[u8]) -> bool
    ensures { result ≡ has_special (text_of name.now) word.now row.now }
{
    row.name.as_bytes() == name.as_bytes() && special_name(row.kind) == word
}

/// The instruction of the same name that names this special register; None where none does.
#[tactic(auto, unfolding(crate::specs::Operands::with_special, crate::specs::Names::name_of))]
pub fn with_special(op: Op, word: &[u8]) -> Option<Op>
    ensures { result ≡ with_special op word.now }
{
    let name = row_of(op).name;
    for k in 0..COUNT {
        let Some(other) = row(k) else {
            return None;
        };
        if has_special(&other, &name, word) {
            return Some(other.op);
        }
    }
    None
}
