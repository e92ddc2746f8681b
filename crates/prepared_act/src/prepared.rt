//! A word with what can be told of its act before its operands are known.

ghost use Rattle.std.specs.Prelude.{◌≡◌, ◌<◌, ◌==◌, if◌then◌else◌, false, true, None, Some, IfSome};
ghost use Rattle.mb_decode.specs.Meaning.{NamesRegisters, meaning};
ghost use Rattle.op_table.specs.Table.{kind_of, second_of};
ghost use Rattle.isa_step.specs.Requests.{belongs_into_slot, end_word, latency_of};
ghost use Rattle.prepared_act.specs.Prepared.{IsInner, extended_of, is_inner, is_return, late_register, result_register};
ghost use Rattle.isa_step.specs.Due.{met};

use core_regs::Arch;
use isa_step::{END_WORD, Here};
use mb_decode::{Instr, decode};
use mb_word::sign16;
use op_table::{
    Kind, Latency, Op, Return, Second, belongs_into_slot, kind_of, latency_of, second_of,
};

/// A word, and what of its act can be told before its operands are known: 32 bytes, so that its place in a table is found
/// by a shift.
#[derive(Clone, Copy)]
pub struct Prepared {
    pub word: u32,
    /// What the word means, where `is_known`.
    pub instr: Instr,
    /// Whether the word means that instruction, or none.
    pub is_known: bool,
    pub kind: Kind,
    pub(crate) second: Second,
    /// Whether the instruction may stand in the slot of a branch.
    pub(crate) fits_slot: bool,
    /// The register that an inner act writes, and 0 where it writes none.
    pub result: u8,
    /// The field of the second operand, as it is used where no prefix is held.
    pub(crate) extended: u32,
    /// The register that the instruction makes late, and 0 where it makes none late.
    pub late: u32,
    /// How soon the register that it makes late can be used.
    pub latency: Option<Latency>,
    /// Whether its act asks nothing of the outside, so that it mostly is done at once.
    pub is_inner: bool,
    ghost registers: { NamesRegisters instr },
    ghost kind_met: { kind ≡ kind_of instr.op },
    ghost second_met: { second ≡ second_of instr.op },
    ghost extended_met: { extended ≡ extended_of second instr.imm },
    ghost late_met: { late ≡ late_register instr },
    ghost late_named: { late < 32 },
    ghost latency_met: { latency ≡ latency_of (kind_of instr.op) },
    ghost result_met: { result ≡ result_register kind instr.rd },
    ghost result_named: { result < 32 },
    ghost slot_met: { fits_slot ≡ belongs_into_slot kind },
    ghost meant: { meaning word ≡ (if is_known then Some instr else None) },
    ghost inner: { is_inner ≡ true → IsInner word instr },
}

/// What stands for the meaning of a word that has none.
const NOTHING: Instr = Instr {
    op: Op::Add,
    rd: 0,
    ra: 0,
    rb: 0,
    imm: 0,
    flags: 0,
};

fn is_return(from: Return) -> bool
    ensures { result ≡ is_return from }
{
    matches!(from, Return::Subroutine)
}

#[tactic(auto, unfolding(crate::specs::Prepared::is_inner))]
fn is_inner(kind: Kind) -> bool
    ensures { result ≡ is_inner kind }
{
    match kind {
        Kind::Divide { .. } => false,
        Kind::Cache => false,
        Kind::MoveFrom(_) => false,
        Kind::MoveToMsr => false,
        Kind::SetMsr => false,
        Kind::ClearMsr => false,
        Kind::Break => false,
        Kind::Barrier => false,
        Kind::Return(from) => is_return(from),
        Kind::Get { .. } => false,
        Kind::Put { .. } => false,
        _ => true,
    }
}

fn extended_of(second: Second, imm: u16) -> u32
    ensures { result ≡ extended_of second imm }
{
    match second {
        Second::Register => sign16(imm),
        Second::Immediate => sign16(imm),
        Second::Count => u32::from(imm),
    }
}

/// The register that an instruction makes late, and 0 where it makes none late.
pub fn late_register(i: &Instr) -> u8
    requires { NamesRegisters i.now }
    ensures value { result ≡ late_register i.now }
    ensures names { result < 32 }
{
    if latency_of(i.op).is_some() { i.rd } else { 0 }
}

/// The register that an inner act of a kind writes, by its field rD, and 0 where it writes none.
#[tactic(auto, unfolding(crate::specs::Prepared::result_register))]
fn result_register(kind: Kind, rd: u8) -> u8
    requires { rd < 32 }
    ensures value { result ≡ result_register kind rd }
    ensures named { result < 32 }
{
    match kind {
        Kind::Store(_) => 0,
        Kind::Prefix => 0,
        Kind::BranchIf { .. } => 0,
        Kind::Return(_) => 0,
        Kind::Branch { linked, .. } => if linked { rd } else { 0 },
        _ => rd,
    }
}

/// Whether a word that means an instruction of a kind is no end of a program, and its act inner.
fn goes_on(word: u32, kind: Kind) -> bool
    ensures { result ≡ true → ((word == end_word) ≡ false) × (is_inner kind ≡ true) }
{
    word != END_WORD && is_inner(kind)
}

impl Prepared {
    fn with(word: u32, instr: Instr, is_known: bool, goes_on: bool) -> Prepared
        requires registers { NamesRegisters instr }
        requires meant { meaning word ≡ (if is_known then Some instr else None) }
        requires inner { goes_on ≡ true → IsInner word instr }
        ensures { result.word ≡ word }
    {
        let kind = kind_of(instr.op);
        let second = second_of(instr.op);
        Prepared {
            word,
            instr,
            is_known,
            kind,
            second,
            extended: extended_of(second, instr.imm),
            late: u32::from(late_register(&instr)),
            result: result_register(kind, instr.rd),
            latency: latency_of(instr.op),
            fits_slot: belongs_into_slot(instr.op),
            is_inner: goes_on,
        }
    }

    /// Prepares a word.
    #[cold]
    #[inline(never)]
    pub fn of(word: u32) -> Prepared
        ensures { result.word ≡ word }
    {
        match decode(word) {
            Some(instr) => Prepared::with(word, instr, true, goes_on(word, kind_of(instr.op))),
            None => Prepared::with(word, NOTHING, false, false),
        }
    }

    /// The word and what it means.
    pub fn here(&self) -> Here
        ensures here { Some result ≡ met (Some self.now.word) }
        ensures registers { IfSome result.instr NamesRegisters }
    {
        Here {
            word: self.word,
            instr: if self.is_known {
                Some(self.instr)
            } else {
                None
            },
        }
    }
}

impl Prepared {
    ghost use Rattle.std.specs.Prelude.{◌≡◌, true};
    ghost use Rattle.prepared_act.specs.Retiring.{Suits};

    /// Whether the act of a core at this word is inner, and stands in its place.
    #[inline(always)]
    pub fn suits(&self, a: &Arch) -> bool
        ensures { result ≡ true → Suits self.now a.now }
    {
        self.is_inner && (self.fits_slot || a.slot.is_none())
    }
}
