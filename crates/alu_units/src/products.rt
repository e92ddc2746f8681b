//! The multiplier, by four partial products.
ghost use Rattle.alu_units.specs.Units.{product_of};
ghost use Rattle.mb_word.specs.Word.{bit_of, is_negative};
ghost use Rattle.std.specs.Prelude.{◌≡◌, ◌+◌, ◌-◌, ◌*◌, ◌^◌, ◌<◌, ◌≤◌};

use mb_word::is_negative;
use op_table::MulKind;

/// The two words of a product.
#[derive(Clone, Copy)]
struct Product {
    high: u32,
    low: u32,
}

/// The product of two halves.
fn part(a: u32, b: u32) -> u32
    requires a { a < 2 ^ 16 }
    requires b { b < 2 ^ 16 }
    ensures value { result ≡ a * b }
    ensures bound { result ≤ (2 ^ 16 - 1) * (2 ^ 16 - 1) }
{
    a * b
}

/// The whole product, from the four products of halves.
fn whole_product(a: u32, b: u32) -> Product
    ensures { result.high * 2 ^ 32 + result.low ≡ a * b }
{
    let (a_high, a_low) = (a >> 16, a & 0xFFFF);
    let (b_high, b_low) = (b >> 16, b & 0xFFFF);
    let low = part(a_low, b_low);
    let cross = part(a_high, b_low);
    let middle = part(a_low, b_high) + (low >> 16) + (cross & 0xFFFF);
    let high = part(a_high, b_high) + (middle >> 16) + (cross >> 16);
    Product {
        high,
        low: (middle << 16) + (low & 0xFFFF),
    }
}

/// What a factor takes off the high word where the other one is negative.
fn taken_off(sign_of: u32, other: u32) -> u32
    ensures { result ≡ other * bit_of (is_negative sign_of) }
{
    if is_negative(sign_of) { other } else { 0 }
}

/// The low or the high word of a product, by four partial products (UG984, `mul`, `mulh`, `mulhsu`
/// and `mulhu`).
pub fn multiply(a: u32, b: u32, k: MulKind) -> u32
    ensures { result ≡ product_of k a b }
{
    let product = whole_product(a, b);
    match k {
        MulKind::Low => product.low,
        MulKind::HighU => product.high,
        MulKind::HighSu => product.high.wrapping_sub(taken_off(a, b)),
        MulKind::High => product
            .high
            .wrapping_sub(taken_off(a, b))
            .wrapping_sub(taken_off(b, a)),
    }
}
