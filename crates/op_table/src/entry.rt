use crate::form::Form;
use crate::kinds::{Kind, Latency, Second};
use crate::mnemonic::Mnemonic;
use crate::op::Op;

/// One row of the instruction table: a word is of this row where `word & mask == bits`.
#[derive(Clone, Copy, PartialEq, Eq, Debug)]
pub struct Row {
    pub op: Op,
    /// The mnemonic of UG984, `mfs` for each of the special registers that it reads.
    pub name: Mnemonic,
    /// The bits that the row fixes: the opcode, what tells it from other rows, and the reserved bits, which are 0.
    pub mask: u32,
    pub bits: u32,
    pub form: Form,
    /// Where the second operand stands.
    pub second: Second,
    /// How soon the register that the instruction writes can be used, `None` where it writes none.
    pub latency: Option<Latency>,
    /// Whether the instruction is allowed in a delay slot.
    pub slot_ok: bool,
    /// What the instruction does.
    pub kind: Kind,
}
