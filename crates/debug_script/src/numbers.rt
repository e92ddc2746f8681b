//! Numbers of a script.
ghost use Rattle.std.specs.Prelude.{◌≡◌, ◌^◌, ◌-◌, ◌<◌, ◌≤◌, IfSome};
ghost use Rattle.debug_script.specs.Numbers.{all_digits, at_least, at_most, begins_with_digit, number, number_in, numeral, short_numeral};

/// Whether all bytes are digits of a radix.
fn all_digits(radix: u32, bytes: &[u8]) -> bool
    requires low { 2 ≤ radix }
    requires high { radix ≤ 36 }
    ensures { result ≡ all_digits radix bytes.now }
{
    bytes.iter().all(|byte| char::from(*byte).is_digit(radix))
}

/// The number that digits of a radix write, where it has 64 bits.
fn numeral(radix: u32, digits: &[u8]) -> Option<u64>
    requires low { 2 ≤ radix }
    requires high { radix ≤ 36 }
    ensures { result ≡ at_most (2 ^ 64 - 1) (numeral radix digits.now) }
{
    if !all_digits(radix, digits) {
        return None;
    }
    match str::from_utf8(digits) {
        Ok(text) => match u64::from_str_radix(text, radix) {
            Ok(value) => Some(value),
            Err(_) => None,
        },
        Err(_) => None,
    }
}

/// The number that at most so many digits of a radix write, where it has 64 bits.
fn short_numeral(radix: u32, most: usize, digits: &[u8]) -> Option<u64>
    requires low { 2 ≤ radix }
    requires high { radix ≤ 36 }
    ensures { result ≡ at_most (2 ^ 64 - 1) (short_numeral radix most digits.now) }
{
    if digits.len() <= most {
        numeral(radix, digits)
    } else {
        None
    }
}

/// The number that a word is, where it has 64 bits: decimal, or hexadecimal after `0x`.
#[tactic(auto, unfolding(crate::specs::Numbers::number))]
fn number(word: &[u8]) -> Option<u64>
    ensures { result ≡ at_most (2 ^ 64 - 1) (number word.now) }
{
    if word.len() >= 2 && word[0] == b'0' && word[1] == b'x' {
        short_numeral(16, 8, &word[2..])
    } else {
        short_numeral(10, 19, word)
    }
}

/// The number that a word is, within limits.
pub fn number_in(low: u64, high: u64, word: &[u8]) -> Option<u64>
    ensures number { result ≡ number_in low high word.now }
    ensures within { IfSome result (λ value. value ≤ high) }
{
    let value = number(word)?;
    if value <= high && low <= value {
        Some(value)
    } else {
        None
    }
}

/// Whether a word begins with a decimal digit.
pub fn begins_with_digit(word: &[u8]) -> bool
    ensures { result ≡ begins_with_digit word.now }
{
    match word {
        [] => false,
        [first, ..] => b'0' <= *first && *first <= b'9',
    }
}
