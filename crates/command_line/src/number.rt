// Numbers of the command line.
ghost use Rattle.std.specs.Prelude.{◌≡◌, ◌≤◌, IfSome, IsTrue, length};
ghost use Rattle.std.specs.Char.{is_ascii_digit};
ghost use Rattle.std.specs.List.{list_all};
ghost use Rattle.command_line.specs.Words;

/// A number of 1 to 19 digits within a limit.
#[tactic(auto, unfolding(crate::specs::Words::number_in))]
pub fn number_in(limit: u64, text: &str) -> Option<u64>
    ensures number { result ≡ Words.number_in limit text.now }
    ensures within { IfSome result (λ value. value ≤ limit) }
{
    let digits = text.as_bytes();
    if digits.is_empty() || digits.len() > 19 || !are_digits(digits) {
        return None;
    }
    let value = value_of(digits);
    if value <= limit { Some(value) } else { None }
}

fn are_digits(bytes: &[u8]) -> bool
    ensures { result ≡ list_all is_ascii_digit bytes.now }
{
    bytes.iter().all(u8::is_ascii_digit)
}

/// The number that at most 19 digits stand for.
fn value_of(digits: &[u8]) -> u64
    requires short { length digits.now ≤ 19 }
    requires digits { IsTrue (list_all is_ascii_digit digits.now) }
    ensures { result ≡ Words.decimal_value digits.now }
{
    let mut value = 0;
    for digit in digits {
        value = 10 * value + u64::from(*digit - b'0');
    }
    value
}
