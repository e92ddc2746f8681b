//! The barrel shifter, and the shifts by one place.
ghost use Rattle.alu_units.specs.Units.{low_bit, shifted, shifted_in};
ghost use Rattle.mb_word.specs.Word.{is_negative};
ghost use Rattle.std.specs.Prelude.{false, ◌≡◌, ◌<◌};

use mb_word::is_negative;
use op_table::ShiftKind;

/// A word that was shifted to the right by one place, and the bit that went out of it.
#[derive(Clone, Copy, PartialEq, Eq, Debug)]
pub struct Shifted {
    pub value: u32,
    pub carry: bool,
}

/// One stage of a shift: all of its `step` places.
fn stage(a: u32, step: u8, k: ShiftKind) -> u32
    requires { step < 32 }
    ensures { result ≡ shifted k a step }
{
    match k {
        ShiftKind::Left => a << step,
        ShiftKind::Right => a >> step,
        ShiftKind::Arith => {
            if is_negative(a) {
                !(!a >> step)
            } else {
                a >> step
            }
        }
    }
}

/// A shift by up to 31 places, in five stages (UG984, `bsll`, `bsrl` and `bsra`).
pub fn barrel(a: u32, n: u8, k: ShiftKind) -> u32
    requires { n < 32 }
    ensures { result ≡ shifted k a n }
{
    let mut value = a;
    for bit in 0..5u8 {
        if (n >> bit) & 1 == 1 {
            value = stage(value, 1 << bit, k);
        }
    }
    value
}

/// One place to the right, with a bit that comes in at the top.
fn shift_in(top: bool, a: u32) -> Shifted
    ensures value { result.value ≡ shifted_in top a }
    ensures carry { result.carry ≡ low_bit a }
{
    Shifted {
        value: (u32::from(top) << 31) + (a >> 1),
        carry: a & 1 == 1,
    }
}

/// One place to the right, where the top bit stays (UG984, `sra`).
pub fn sra(a: u32) -> Shifted
    ensures value { result.value ≡ shifted_in (is_negative a) a }
    ensures carry { result.carry ≡ low_bit a }
{
    shift_in(is_negative(a), a)
}

/// One place to the right, where the carry comes in at the top (UG984, `src`).
pub fn src(a: u32, c: bool) -> Shifted
    ensures value { result.value ≡ shifted_in c a }
    ensures carry { result.carry ≡ low_bit a }
{
    shift_in(c, a)
}

/// One place to the right, where 0 comes in at the top (UG984, `srl`).
pub fn srl(a: u32) -> Shifted
    ensures value { result.value ≡ shifted_in false a }
    ensures carry { result.carry ≡ low_bit a }
{
    shift_in(false, a)
}
