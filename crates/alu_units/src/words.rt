//! The adder, the comparers, the logic unit, and what is made of one word.
ghost use Rattle.alu_units.specs.Integers.{value_of};
ghost use Rattle.alu_units.specs.Units.{
  compared,
  first_equal_byte,
  leading_zeros,
  logic_of,
  reversed_bytes,
  sign_extended,
  swapped_halves,
  unary_of,
};
ghost use Rattle.mb_word.specs.Word.{bit_of};
ghost use Rattle.std.specs.Prelude.{int_lt, not, ◌==◌, ◌≡◌, ◌+◌, ◌*◌, ◌^◌};

use mb_word::{Sum, add_carry, less_signed, sign16};
use op_table::{LogicKind, UnaryKind};

/// The sum of two words and a carry (UG984, `add` and, with `a` complemented, `rsub`).
pub fn adder(a: u32, b: u32, c: bool) -> Sum
    ensures { result.value + 2 ^ 32 * bit_of result.carry ≡ a + b + bit_of c }
{
    add_carry(a, b, c)
}

/// A bitwise operation (UG984, `or`, `and`, `xor`, `andn`).
#[tactic(auto, unfolding(crate::specs::Units::logic_of))]
pub fn logic(a: u32, b: u32, k: LogicKind) -> u32
    ensures { result ≡ logic_of k a b }
{
    match k {
        LogicKind::And => a & b,
        LogicKind::Or => a | b,
        LogicKind::Xor => a ^ b,
        LogicKind::Andn => a & !b,
    }
}

/// Whether a word is greater than another, both with their signs or both without.
fn is_greater(a: u32, b: u32, signed: bool) -> bool
    ensures { result ≡ int_lt (value_of signed b) (value_of signed a) }
{
    if signed { less_signed(b, a) } else { b < a }
}

/// `b - a`, whose top bit tells whether `a` is the greater (UG984, `cmp` and `cmpu`).
pub fn compare(a: u32, b: u32, signed: bool) -> u32
    ensures { result ≡ compared a b signed }
{
    let top = u32::from(is_greater(a, b, signed)) << 31;
    top + (b.wrapping_sub(a) & 0x7FFF_FFFF)
}

/// The number, from 1 on, of the first byte from the top that is equal in both words, and 0 where
/// none is (UG984, `pcmpbf`).
#[tactic(auto, unfolding(crate::specs::Units::first_equal_byte))]
pub fn pattern(a: u32, b: u32) -> u32
    ensures { result ≡ first_equal_byte a b }
{
    if a >> 24 == b >> 24 {
        1
    } else if (a >> 16) & 0xFF == (b >> 16) & 0xFF {
        2
    } else if (a >> 8) & 0xFF == (b >> 8) & 0xFF {
        3
    } else if a & 0xFF == b & 0xFF {
        4
    } else {
        0
    }
}

/// 1 where two words are equal, else 0 (UG984, `pcmpeq`).
pub fn pcmpeq(a: u32, b: u32) -> u32
    ensures { result ≡ bit_of (a == b) }
{
    u32::from(a == b)
}

/// 1 where two words differ, else 0 (UG984, `pcmpne`).
pub fn pcmpne(a: u32, b: u32) -> u32
    ensures { result ≡ bit_of (not (a == b)) }
{
    u32::from(a != b)
}

/// The lowest 8 bits with their sign (UG984, `sext8`).
pub fn sext8(a: u32) -> u32
    ensures { result ≡ sign_extended 8 a }
{
    let low = a & 0xFF;
    if low >= 0x80 { low + 0xFFFF_FF00 } else { low }
}

/// The lowest 16 bits with their sign (UG984, `sext16`).
pub fn sext16(a: u32) -> u32
    ensures { result ≡ sign_extended 16 a }
{
    sign16((a & 0xFFFF) as u16)
}

/// How many zeros stand above the highest bit that is set, 32 in 0 (UG984, `clz`).
pub fn count_zeros(a: u32) -> u32
    ensures { result ≡ leading_zeros a }
{
    a.leading_zeros()
}

/// The bytes in the reverse order (UG984, `swapb`).
#[tactic(auto, unfolding(crate::specs::Units::reversed_bytes))]
pub fn swap_bytes(a: u32) -> u32
    ensures { result ≡ reversed_bytes a }
{
    a.swap_bytes()
}

/// The halves in the reverse order (UG984, `swaph`).
pub fn swap_halves(a: u32) -> u32
    ensures { result ≡ swapped_halves a }
{
    a.rotate_left(16)
}

/// What an instruction of one register makes of it (UG984, `sext8`, `sext16`, `clz`, `swapb`, `swaph`).
#[tactic(auto, unfolding(crate::specs::Units::unary_of))]
pub fn unary(a: u32, k: UnaryKind) -> u32
    ensures { result ≡ unary_of k a }
{
    match k {
        UnaryKind::ExtendByte => sext8(a),
        UnaryKind::ExtendHalf => sext16(a),
        UnaryKind::CountZeros => count_zeros(a),
        UnaryKind::SwapBytes => swap_bytes(a),
        UnaryKind::SwapHalves => swap_halves(a),
    }
}
