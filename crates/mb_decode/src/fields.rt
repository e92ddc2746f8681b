//! The fields of words, read by their form and put at their places.
ghost use Rattle.mb_decode.specs.Meaning.{Fits, NamesRegisters, limited, limits_of, part_of, placed, read};
ghost use Rattle.mb_decode.specs.declared.fields.Limits.{Limits};
ghost use Rattle.mb_word.specs.Word.{field};
ghost use Rattle.op_table.specs.Forms.{IsSoundField, fields_of, most_bits, unit_of};
ghost use Rattle.std.specs.Prelude.{◌≡◌, ◌*◌, ◌^◌, ◌<◌, ◌↔◌, IsTrue};

use crate::instruction::Instr;
use mb_word::field;
use op_table::{Field, Form, Op, Part};

/// The value of a field of a word.
fn value_in(w: u32, at: &Field) -> u32
    requires { IsSoundField at.now }
    ensures value { result ≡ field w at.now.first at.now.width }
    ensures small { result < 2 ^ most_bits at.now.part }
{
    field(w, at.first, at.width)
}

/// The fields of a word of this form; those that the form lacks are 0.
pub fn read(form: Form, op: Op, w: u32) -> Instr
    ensures fields { result ≡ read form op w }
    ensures registers { NamesRegisters result }
{
    let mut instr = Instr::bare(op);
    for field in form.fields() {
        instr = instr.with_part(field.part, value_in(w, field));
    }
    instr
}

/// How many values each part of an instruction can have: that of a field, as many as the field; that of none, 0 alone. The
/// letters are a multiple of `step`.
#[derive(Clone, Copy)]
pub(crate) struct Limits {
    rd: u32,
    ra: u32,
    rb: u32,
    imm: u32,
    flags: u32,
    step: u32,
}

impl Limits {
    /// The limits with so many values for a part.
    fn with_part(self, part: Part, count: u32) -> Limits
        requires { count < 2 ^ 31 }
        ensures { result ≡ limited part count self }
    {
        match part {
            Part::Rd => Limits { rd: count, ..self },
            Part::Ra => Limits { ra: count, ..self },
            Part::Rb => Limits { rb: count, ..self },
            Part::Imm => Limits { imm: count, ..self },
            Part::Letters => Limits {
                flags: count,
                ..self
            },
            Part::PutLetters => Limits {
                flags: 2 * count,
                step: 2,
                ..self
            },
        }
    }

    /// The limits of a form's parts.
    fn of(form: Form) -> Limits
        ensures { result ≡ limits_of (fields_of form) }
    {
        let mut limits = Limits {
            rd: 1,
            ra: 1,
            rb: 1,
            imm: 1,
            flags: 1,
            step: 1,
        };
        for field in form.fields() {
            limits = limits.with_part(field.part, 1 << field.width);
        }
        limits
    }
}

/// Whether a form has places for the fields of an instruction.
pub(crate) fn fits(form: Form, i: &Instr) -> bool
    ensures { IsTrue result ↔ Fits form i.now }
{
    let limits = Limits::of(form);
    u32::from(i.rd) < limits.rd
        && u32::from(i.ra) < limits.ra
        && u32::from(i.rb) < limits.rb
        && u32::from(i.imm) < limits.imm
        && u32::from(i.flags) < limits.flags
        && u32::from(i.flags) % limits.step == 0
}

/// A value at the place of a field.
fn value_at(value: u32, at: &Field) -> u32
    requires sound { IsSoundField at.now }
    requires fits { value * unit_of at.now < 2 ^ 32 }
    ensures { result ≡ value * unit_of at.now }
{
    value << (32 - at.first - at.width)
}

/// The bits of the fields at their places.
pub(crate) fn placed(form: Form, i: &Instr) -> u32
    requires { Fits form i.now }
    ensures { result ≡ placed form i.now }
{
    let mut word = 0;
    for field in form.fields() {
        word += value_at(i.part(field.part), field);
    }
    word
}
