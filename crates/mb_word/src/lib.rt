//! Arithmetic on 32-bit words, as the instructions of UG984 do it: modulo 2^32.
//!
//! A word is a `u32`. `add_carry` is the sum of two words and a carry, as a `Sum` of its value and its carry out;
//! `sign16` extends an immediate; `is_negative` and `less_signed` read words in two's complement; `field` is some bits of
//! a word, counted as UG984 does, from 0 at the highest.
//!
//! ```text
//! let sum = add_carry(0xFFFF_FFFF, 1, false); // value 0, with a carry
//! let opcode = field(0x3064_1234, 0, 6); // addik: 0x0C
//! ```
#![tactic(auto)]

mod sum;
mod word;

pub use sum::Sum;
pub use word::{add_carry, field, is_negative, less_signed, sign16};

#[cfg(test)]
mod tests {
    use super::*;
    use std::test::Fail;

    #[test]
    fn signs(rt: HostRuntime) -> Result<(), Fail> {
        for (x, extended) in [
            (0u16, 0u32),
            (0x7FFF, 0x7FFF),
            (0x8000, 0xFFFF_8000),
            (0xFFFF, 0xFFFF_FFFF),
        ] {
            assert_eq!(rt; sign16(x), extended, "at {x}");
        }
        for (a, b, less) in [
            (1u32, 2u32, true),
            (2, 1, false),
            (3, 3, false),
            (0xFFFF_FFFF, 0, true),
            (0, 0xFFFF_FFFF, false),
            (0x8000_0000, 0x7FFF_FFFF, true),
            (0x8000_0000, 0xFFFF_FFFF, true),
        ] {
            assert_eq!(rt; less_signed(a, b), less, "at {a} and {b}");
        }
        for (a, negative) in [
            (0u32, false),
            (0x7FFF_FFFF, false),
            (0x8000_0000, true),
            (0xFFFF_FFFF, true),
        ] {
            assert_eq!(rt; is_negative(a), negative, "at {a}");
        }
        Ok(())
    }

    #[test]
    fn sums_and_fields(rt: HostRuntime) -> Result<(), Fail> {
        for (a, b, c, value, carry) in [
            (1u32, 2u32, false, 3u32, false),
            (0xFFFF_FFFF, 1, false, 0, true),
            (0xFFFF_FFFF, 0, true, 0, true),
            (0xFFFF_FFFF, 0xFFFF_FFFF, true, 0xFFFF_FFFF, true),
            (0x7FFF_FFFF, 0, true, 0x8000_0000, false),
        ] {
            assert_eq!(rt; add_carry(a, b, c), Sum { value, carry }, "at {a} and {b}");
        }
        // addik r3, r4, 0x1234
        let word = 0x3064_1234;
        for (first, width, bits) in [
            (0u8, 6u8, 0xCu32),
            (6, 5, 3),
            (11, 5, 4),
            (16, 16, 0x1234),
            (0, 32, word),
        ] {
            assert_eq!(rt; field(word, first, width), bits, "from {first}");
        }
        Ok(())
    }
}
