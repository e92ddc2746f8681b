ghost use Rattle.std.specs.Prelude.{◌≡◌};
ghost use Rattle.asm_source.specs.Items.{has_prefix, has_slot, instruction_piece, is_relative, is_short, piece_of, prefixed, size_with};

use asm_layout::{Alignment, Piece};
use byte_ranges::Range;
use mb_decode::Instr;
use op_table::{Kind, Op, kind_of};

/// A value: a number, or the place of a label.
#[derive(Clone, Copy, PartialEq, Eq, Debug)]
pub enum Operand {
    Number(i64),
    /// The label before the item with this number.
    Label(usize),
}

/// What a statement, or a value of a directive, asks for.
#[derive(Clone, Copy, Debug)]
pub enum Item {
    /// An instruction, the value of its last operand where it has one, and whether it directly follows a written `imm`.
    Instruction {
        instr: Instr,
        value: Option<Operand>,
        after_imm: bool,
    },
    Word(Operand),
    Half(u16),
    Byte(u8),
    /// So many zeros.
    Space(u32),
    /// Zeros up to a multiple.
    Aligned(Alignment),
    /// The beginning of a part, at this address.
    Part(u32),
}

/// An item, and the line and column of its mnemonic or directive, counted from 1.
#[derive(Clone, Copy, Debug)]
pub struct Written {
    pub item: Item,
    pub line: u32,
    pub column: u32,
}

/// A part: its bytes, and the item that begins it.
#[derive(Clone, Copy, Debug)]
pub struct Span {
    pub range: Range,
    pub org: Written,
}

/// Whether an instruction is a branch by a distance.
#[tactic(auto, unfolding(crate::specs::Items::is_relative))]
pub fn is_relative(op: Op) -> bool
    ensures { result ≡ is_relative op }
{
    match kind_of(op) {
        Kind::Branch { absolute, .. } => !absolute,
        Kind::BranchIf { .. } => true,
        _ => false,
    }
}

/// Whether the next instruction runs before an instruction leads elsewhere.
#[tactic(auto, unfolding(crate::specs::Items::has_slot))]
pub fn has_slot(op: Op) -> bool
    ensures { result ≡ has_slot op }
{
    match kind_of(op) {
        Kind::Branch { delayed, .. } => delayed,
        Kind::BranchIf { delayed, .. } => delayed,
        Kind::Return(_) => true,
        _ => false,
    }
}

/// Whether a number has 16 bits with a sign.
pub fn is_short(number: i64) -> bool
    ensures { result ≡ is_short number }
{
    -0x8000 <= number && number < 0x8000
}

/// What an instruction with this value is to the layout.
fn instruction_piece(op: Op, value: Option<Operand>, after_imm: bool) -> Piece
    ensures { result ≡ instruction_piece op value after_imm }
{
    match value {
        None => Piece::Bytes(4),
        Some(Operand::Number(number)) => {
            Piece::Bytes(if after_imm || is_short(number) { 4 } else { 8 })
        }
        Some(Operand::Label(label)) => Piece::Labelled {
            label,
            relative: is_relative(op),
        },
    }
}

impl Item {
    /// What it is to the layout.
    pub fn piece(&self) -> Piece
        ensures { result ≡ piece_of self.now }
    {
        match *self {
            Item::Instruction {
                instr,
                value,
                after_imm,
            } => instruction_piece(instr.op, value, after_imm),
            Item::Word(_) => Piece::Bytes(4),
            Item::Half(_) => Piece::Bytes(2),
            Item::Byte(_) => Piece::Bytes(1),
            Item::Space(count) => Piece::Bytes(count),
            Item::Aligned(alignment) => Piece::Align(alignment),
            Item::Part(address) => Piece::Org(address),
        }
    }

    /// Whether it has a prefix; `grown` tells whether its label, where it has one, needs it.
    pub fn prefixed(&self, grown: bool) -> bool
        ensures { result ≡ prefixed self.now grown }
    {
        match *self {
            Item::Instruction {
                value,
                after_imm,
                ..
            } => has_prefix(value, after_imm, grown),
            _ => false,
        }
    }
}

/// Whether an instruction with this value has a prefix.
fn has_prefix(value: Option<Operand>, after_imm: bool, grown: bool) -> bool
    ensures { result ≡ has_prefix value after_imm grown }
{
    match value {
        None => false,
        Some(Operand::Number(number)) => !(after_imm || is_short(number)),
        Some(Operand::Label(_)) => grown,
    }
}
