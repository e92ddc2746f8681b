ghost use Rattle.std.specs.Prelude.{◌≡◌, ◌≤◌, [], ◌∷◌, length};
ghost use Rattle.asm_syntax.specs.Shapes.{shape_of, upper_or_value};

use op_table::{Form, Kind};

/// An operand of an instruction: the field that it stands for, and how it is written.
#[derive(Clone, Copy, PartialEq, Eq, Debug)]
pub enum Slot {
    RegisterD,
    RegisterA,
    RegisterB,
    /// A value with a sign, or a label.
    Value,
    /// A number below a bound.
    Number { below: u32 },
    /// The number of `imm`, four hexadecimal digits.
    Upper,
    /// A stream's port.
    Port,
    /// The special register that tells instructions of one name apart.
    Special,
}

/// The operands of an instruction of this form, in the order in which they are written.
#[tactic(auto, unfolding(crate::specs::Shapes::shape_of))]
pub fn shape_of(form: Form, kind: Kind) -> &'static [Slot]
    ensures shape { result.now ≡ shape_of form kind }
    ensures few { length result.now ≤ 3 }
{
    match form {
        Form::A => &[Slot::RegisterD, Slot::RegisterA, Slot::RegisterB],
        Form::U => &[Slot::RegisterD, Slot::RegisterA],
        Form::B => &[Slot::RegisterD, Slot::RegisterA, Slot::Value],
        Form::S => &[Slot::RegisterD, Slot::RegisterA, Slot::Number { below: 32 }],
        Form::R => &[Slot::RegisterB],
        Form::Rl => &[Slot::RegisterD, Slot::RegisterB],
        Form::I => value_or_upper(kind),
        Form::Il => &[Slot::RegisterD, Slot::Value],
        Form::Cr => &[Slot::RegisterA, Slot::RegisterB],
        Form::Ci => &[Slot::RegisterA, Slot::Value],
        Form::M => &[Slot::RegisterD, Slot::Special],
        Form::N => &[Slot::Number { below: 32 }],
        Form::T => &[Slot::Special, Slot::RegisterA],
        Form::E => &[Slot::RegisterD, Slot::Number { below: 0x8000 }],
        Form::G => &[Slot::RegisterD, Slot::Port],
        Form::P => &[Slot::RegisterA, Slot::Port],
        Form::Gd => &[Slot::RegisterD, Slot::RegisterB],
        Form::Pd => &[Slot::RegisterA, Slot::RegisterB],
    }
}

/// The operand of the form I: that of `imm` has no sign.
fn value_or_upper(kind: Kind) -> &'static [Slot]
    ensures shape { result.now ≡ upper_or_value kind ∷ [] }
    ensures few { length result.now ≤ 1 }
{
    match kind {
        Kind::Prefix => &[Slot::Upper],
        _ => &[Slot::Value],
    }
}
