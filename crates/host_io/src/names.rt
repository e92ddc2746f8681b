//! Names, kept in fixed room.
ghost use Rattle.std.specs.Prelude.{◌≡◌, ◌↔◌, ◌≤◌, List, ℕ, IsTrue, IfSome, is_some, length};
ghost use Rattle.std.specs.List.{list_all};
ghost use Rattle.std.specs.Str.{bytes_eq};
ghost use Rattle.host_io.specs.Names.{is_name, is_file_name, is_file_byte, begins_well};

use arrayvec::ArrayString;
use std::marker::Model;

/// A name of a part of a board: a text of 1 to 24 bytes. It means its bytes.
#[derive(Debug, Drop)]
pub struct Name {
    text: ArrayString<24>,
}

impl Model for Name {
    ghost Value = { List ℕ };

    ghost view = { λ n. n.text.bytes };

    ghost invariant = { λ n. IsTrue (is_name n.text.bytes) };
}

impl Name {
    /// The text as a name, or `None` exactly where it hasn't 1 to 24 bytes.
    pub fn from_text(text: &str) -> Option<Name>
        ensures variant { is_some result ≡ is_name text.now }
        ensures name { IfSome result (λ name. name ≡ text.now) }
    {
        if text.is_empty() {
            return None;
        }
        match ArrayString::from(text) {
            Ok(text) => Some(Name { text }),
            Err(_) => None,
        }
    }

    /// The name's text.
    pub fn as_text(&self) -> &str
        ensures text { result.now ≡ self.now }
        ensures rule { IsTrue (is_name result.now) }
    {
        self.text.as_str()
    }

    /// The name's bytes.
    pub fn as_bytes(&self) -> &[u8]
        ensures bytes { result.now ≡ self.now }
        ensures fits { (1 ≤ length result.now) × (length result.now ≤ 24) }
    {
        self.as_text().as_bytes()
    }

    /// A second name of the same text.
    pub fn copied(&self) -> Name
        ensures { result ≡ self.now }
    {
        Name { text: self.text }
    }

    /// Whether both names are one text.
    pub fn is(&self, other: &Name) -> bool
        ensures { IsTrue result ↔ (self.now ≡ other.now) }
    {
        self.as_bytes() == other.as_bytes()
    }
}

/// A name of a file: a text of 1 to 64 letters, digits, `_`, `-`, `.` and `/`, not beginning with `-`. It means its
/// bytes.
#[derive(Debug, Drop)]
pub struct FileName {
    text: ArrayString<64>,
}

impl Model for FileName {
    ghost Value = { List ℕ };

    ghost view = { λ n. n.text.bytes };

    ghost invariant = { λ n. IsTrue (is_file_name n.text.bytes) };
}

impl FileName {
    /// The text as a name of a file, or `None` exactly where the rule refuses it.
    pub fn from_text(text: &str) -> Option<FileName>
        ensures variant { is_some result ≡ is_file_name text.now }
        ensures name { IfSome result (λ name. name ≡ text.now) }
    {
        if !is_file_name(text.as_bytes()) {
            return None;
        }
        match ArrayString::from(text) {
            Ok(text) => Some(FileName { text }),
            Err(_) => None,
        }
    }

    /// A text that the rule takes, as a name of a file.
    pub(crate) fn of(text: &str) -> FileName
        requires { IsTrue (is_file_name text.now) }
        ensures { result ≡ text.now }
    {
        FileName::from_text(text).unwrap()
    }

    /// The name's text.
    pub fn as_text(&self) -> &str
        ensures text { result.now ≡ self.now }
        ensures rule { IsTrue (is_file_name result.now) }
    {
        self.text.as_str()
    }

    /// The name's bytes.
    pub fn as_bytes(&self) -> &[u8]
        ensures bytes { result.now ≡ self.now }
        ensures fits { (1 ≤ length result.now) × (length result.now ≤ 64) }
    {
        self.as_text().as_bytes()
    }

    /// A second name of the same text.
    pub fn copied(&self) -> FileName
        ensures { result ≡ self.now }
    {
        FileName { text: self.text }
    }

    /// Whether both names are one text.
    pub fn is(&self, other: &FileName) -> bool
        ensures same { IsTrue result ↔ (self.now ≡ other.now) }
        ensures test { result ≡ bytes_eq self.now other.now }
    {
        self.as_text() == other.as_text()
    }
}

/// Whether bytes are a name of a file: 1 to 64 letters, digits, `_`, `-`, `.` and `/`, of which the first is no `-`.
pub fn is_file_name(bytes: &[u8]) -> bool
    ensures { result ≡ is_file_name bytes.now }
{
    begins_well(bytes) && bytes.len() <= 64 && has_file_bytes(bytes)
}

fn begins_well(bytes: &[u8]) -> bool
    ensures { result ≡ begins_well bytes.now }
{
    match bytes {
        [] => false,
        [first, ..] => *first != b'-',
    }
}

fn has_file_bytes(bytes: &[u8]) -> bool
    ensures { result ≡ list_all is_file_byte bytes.now }
{
    bytes.iter().all(|byte| is_file_byte(*byte))
}

fn is_file_byte(byte: u8) -> bool
    ensures { result ≡ is_file_byte byte }
{
    byte.is_ascii_alphanumeric() || matches!(byte, b'_' | b'-' | b'.' | b'/')
}
