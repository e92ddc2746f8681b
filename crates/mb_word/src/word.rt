//! Words as numbers: their signs, their sums with a carry, and their fields.
ghost use Rattle.mb_word.specs.Word.{bit_of, field, is_negative, less_signed, sign_extend_16, sum_of};
ghost use Rattle.std.specs.Prelude.{◌≡◌, ◌+◌, ◌*◌, ◌^◌, ◌≤◌};

use crate::sum::Sum;

/// Extends the sign of a 16-bit immediate to a word.
pub fn sign16(x: u16) -> u32
    ensures { result ≡ sign_extend_16 x }
{
    let low = u32::from(x);
    if low >= 0x8000 {
        low | 0xFFFF_0000
    } else {
        low
    }
}

/// Whether a word is negative in two's complement: its highest bit is set.
#[inline(always)]
pub fn is_negative(a: u32) -> bool
    ensures { result ≡ is_negative a }
{
    a >= 0x8000_0000
}

/// The sum of two words and a carry, 0 or 1, modulo 2^32, with its carry out.
pub fn add_carry(a: u32, b: u32, c: bool) -> Sum
    ensures fields { result ≡ sum_of a b c }
    ensures whole { result.value + 2 ^ 32 * bit_of result.carry ≡ a + b + bit_of c }
{
    let sum = u64::from(a) + u64::from(b) + u64::from(c);
    Sum {
        value: (sum & 0xFFFF_FFFF) as u32,
        carry: sum > 0xFFFF_FFFF,
    }
}

/// Whether a word is less than another, both as numbers in two's complement.
pub fn less_signed(a: u32, b: u32) -> bool
    ensures { result ≡ less_signed a b }
{
    a.cast_signed() < b.cast_signed()
}

/// The `width` bits of a word from bit `first` on, in UG984's numbering: bit 0 is the highest.
pub fn field(w: u32, first: u8, width: u8) -> u32
    requires some { 1 ≤ width }
    requires inside { first + width ≤ 32 }
    ensures { result ≡ field w first width }
{
    (w >> (32 - first - width)) & (u32::MAX >> (32 - width))
}
