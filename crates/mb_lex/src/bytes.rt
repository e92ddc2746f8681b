//! What a byte may be part of.
ghost use Rattle.std.specs.Prelude.{◌≡◌, ◌==◌, ◌||◌};
ghost use Rattle.mb_lex.specs.Bytes.{begins_number, continues_name, is_blank, is_digit, is_escaped, is_printable, starts_name};

/// A space or a tab.
pub fn is_blank(byte: u8) -> bool
    ensures { result ≡ is_blank byte }
{
    byte == b' ' || byte == b'\t'
}

/// A decimal digit.
pub fn is_digit(byte: u8) -> bool
    ensures { result ≡ is_digit byte }
{
    b'0' <= byte && byte <= b'9'
}

/// A letter, `_`, `.` or `$`.
pub fn starts_name(byte: u8) -> bool
    ensures { result ≡ starts_name byte }
{
    b'a' <= byte && byte <= b'z'
        || b'A' <= byte && byte <= b'Z'
        || byte == b'_'
        || byte == b'.'
        || byte == b'$'
}

/// What may stand behind the first byte of a name, or of a number.
pub fn continues_name(byte: u8) -> bool
    ensures { result ≡ continues_name byte }
{
    starts_name(byte) || is_digit(byte)
}

/// A digit or a sign.
pub fn begins_number(byte: u8) -> bool
    ensures { result ≡ begins_number byte }
{
    is_digit(byte) || byte == b'-'
}

/// A printable character of ASCII.
pub fn is_printable(byte: u8) -> bool
    ensures { result ≡ is_printable byte }
{
    b' ' <= byte && byte <= b'~'
}

/// What may stand behind a backslash.
pub fn is_escaped(byte: u8) -> bool
    ensures { result ≡ is_escaped byte }
{
    byte == b'n' || byte == b'\\' || byte == b'"'
}
