ghost use Rattle.mb_decode.specs.Meaning.{bare, part_of, with_part};
ghost use Rattle.op_table.specs.Forms.{most_bits};
ghost use Rattle.std.specs.Prelude.{◌≡◌, ◌^◌, ◌<◌};

use op_table::{Op, Part};

/// An instruction with the values of its fields. A field that its form lacks is 0.
#[derive(Clone, Copy, PartialEq, Eq, Debug)]
pub struct Instr {
    pub op: Op,
    /// The registers in the fields rD, rA and rB.
    pub rd: u8,
    pub ra: u8,
    pub rb: u8,
    /// The immediate as it stands in the word; also a stream's port, a shift count, or the number of `mbar`.
    pub imm: u16,
    /// The letters of a stream access: n 16, c 8, t 4, a 2, e 1.
    pub flags: u8,
}

impl Instr {
    /// An instruction all of whose parts are 0.
    pub(crate) fn bare(op: Op) -> Instr
        ensures { result ≡ bare op }
    {
        Instr {
            op,
            rd: 0,
            ra: 0,
            rb: 0,
            imm: 0,
            flags: 0,
        }
    }

    /// The instruction with this value in a part.
    pub(crate) fn with_part(self, part: Part, value: u32) -> Instr
        requires { value < 2 ^ most_bits part }
        ensures { result ≡ with_part part value self }
    {
        match part {
            Part::Rd => Instr {
                rd: value as u8,
                ..self
            },
            Part::Ra => Instr {
                ra: value as u8,
                ..self
            },
            Part::Rb => Instr {
                rb: value as u8,
                ..self
            },
            Part::Imm => Instr {
                imm: value as u16,
                ..self
            },
            Part::Letters => Instr {
                flags: value as u8,
                ..self
            },
            Part::PutLetters => Instr {
                flags: 2 * value as u8,
                ..self
            },
        }
    }

    /// The value of a part.
    pub(crate) fn part(&self, part: Part) -> u32
        ensures { result ≡ part_of part self.now }
    {
        match part {
            Part::Rd => u32::from(self.rd),
            Part::Ra => u32::from(self.ra),
            Part::Rb => u32::from(self.rb),
            Part::Imm => u32::from(self.imm),
            Part::Letters => u32::from(self.flags),
            Part::PutLetters => u32::from(self.flags / 2),
        }
    }
}
