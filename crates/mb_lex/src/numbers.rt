ghost use Rattle.std.specs.Prelude.{◌≡◌, ◌^◌, ◌-◌, ◌<◌, ◌≤◌, ◌⊎◌};
ghost use Rattle.mb_lex.specs.Literals.{all_digits, at_most, magnitude, number_of, numeral};

/// Whether all bytes are digits of a radix.
fn all_digits(radix: u32, bytes: &[u8]) -> bool
    requires low { 2 ≤ radix }
    requires high { radix ≤ 36 }
    ensures { result ≡ all_digits radix bytes.now }
{
    bytes.iter().all(|byte| char::from(*byte).is_digit(radix))
}

/// The number that digits of a radix write, where it has 64 bits.
fn numeral(radix: u32, digits: &[u8]) -> Option<u64>
    requires low { 2 ≤ radix }
    requires high { radix ≤ 36 }
    ensures { result ≡ at_most (2 ^ 64 - 1) (numeral radix digits.now) }
{
    if !all_digits(radix, digits) {
        return None;
    }
    match str::from_utf8(digits) {
        Ok(text) => match u64::from_str_radix(text, radix) {
            Ok(value) => Some(value),
            Err(_) => None,
        },
        Err(_) => None,
    }
}

/// The value of a number without its sign: hexadecimal after `0x`, else decimal.
#[tactic(auto, unfolding(crate::specs::Literals::magnitude))]
fn magnitude(text: &[u8]) -> Option<u64>
    ensures { result ≡ at_most (2 ^ 64 - 1) (magnitude text.now) }
{
    if text.len() >= 2 && text[0] == b'0' && text[1] == b'x' {
        numeral(16, &text[2..])
    } else {
        numeral(10, text)
    }
}

/// The number that a literal writes, from -2^31 to 2^32 - 1.
#[tactic(auto, unfolding(crate::specs::Literals::number_of))]
pub fn number_of(text: &[u8]) -> Option<i64>
    ensures { result ≡ number_of text.now }
{
    let [first, rest @ ..] = text else {
        return None;
    };
    if *first == b'-' {
        let value = magnitude(rest)?;
        if value <= 0x8000_0000 {
            Some(-(value as i64))
        } else {
            None
        }
    } else {
        let value = magnitude(text)?;
        if value <= 0xFFFF_FFFF {
            Some(value as i64)
        } else {
            None
        }
    }
}
