//! Numbers as upper-case hexadecimal digits.
ghost use Rattle.std.specs.Prelude.{◌≡◌, ◌<◌};
ghost use Rattle.host_io.specs.Digits.{hex_16, hex_digit, hex_of, hex_of_byte};

/// A word as eight upper-case hexadecimal digits, the most significant first.
#[tactic(auto, unfolding(crate::specs::Digits::hex_of))]
pub fn hex_of(word: u32) -> [u8; 8]
    ensures { result ≡ hex_of word }
{
    [
        hex_digit(word >> 28 & 15),
        hex_digit(word >> 24 & 15),
        hex_digit(word >> 20 & 15),
        hex_digit(word >> 16 & 15),
        hex_digit(word >> 12 & 15),
        hex_digit(word >> 8 & 15),
        hex_digit(word >> 4 & 15),
        hex_digit(word & 15),
    ]
}

/// 16 bits as four upper-case hexadecimal digits, the most significant first.
#[tactic(auto, unfolding(crate::specs::Digits::hex_16))]
pub fn hex_16(value: u16) -> [u8; 4]
    ensures { result ≡ hex_16 value }
{
    let value = u32::from(value);
    [
        hex_digit(value / 0x1000 % 16),
        hex_digit(value / 0x100 % 16),
        hex_digit(value / 0x10 % 16),
        hex_digit(value % 16),
    ]
}

/// A byte as two upper-case hexadecimal digits, the most significant first.
#[tactic(auto, unfolding(crate::specs::Digits::hex_of_byte))]
pub fn hex_of_byte(byte: u8) -> [u8; 2]
    ensures { result ≡ hex_of_byte byte }
{
    let byte = byte as u32;
    [hex_digit(byte >> 4 & 15), hex_digit(byte & 15)]
}

fn hex_digit(value: u32) -> u8
    requires { value < 16 }
    ensures { result ≡ hex_digit value }
{
    if value < 10 {
        b'0' + value as u8
    } else {
        b'A' + (value as u8 - 10)
    }
}
