//! Texts in fixed room, which may be no UTF-8.
ghost use Rattle.std.specs.Prelude.{◌≡◌, ◌+◌, ◌≤◌, List, ℕ, [], ◌++◌, length, take};

use arrayvec::ArrayVec;
use std::marker::Model;

/// At most so many bytes. A text means its bytes.
#[derive(Debug, Drop)]
pub struct Text<const ROOM: usize> {
    bytes: ArrayVec<u8, ROOM>,
}

/// The place of a fault: the first 64 bytes of a path.
pub type Place = Text<64>;

/// A short text, of at most 64 bytes.
pub type ShortText = Text<64>;

/// A long text, of at most 160 bytes.
pub type LongText = Text<160>;

impl<const ROOM: usize> Model for Text<ROOM> {
    ghost Value = { List ℕ };

    ghost view = { λ t. t.bytes.items };

    ghost invariant = { λ t. length t.bytes.items ≤ ROOM };
}

/// The first `most` bytes, or all where there are fewer.
pub fn first_of(bytes: &[u8], most: usize) -> &[u8]
    ensures first { result.now ≡ take most bytes.now }
    ensures fits { length result.now ≤ most }
{
    if bytes.len() <= most {
        bytes
    } else {
        &bytes[..most]
    }
}

impl<const ROOM: usize> Text<ROOM> {
    /// The empty text.
    pub fn new() -> Self
        ensures { result ≡ [] }
    {
        Text {
            bytes: ArrayVec::new(),
        }
    }

    /// The first of the bytes, as many as there is room for.
    pub fn from_bytes(bytes: &[u8]) -> Self
        ensures { result ≡ take ROOM bytes.now }
    {
        let mut text = Self::new();
        text.add(bytes);
        text
    }

    /// Adds the first of the bytes, as many as there is room for.
    pub fn add(&mut self, more: &[u8])
        ensures { self.new ≡ take ROOM (self.old ++ more.now) }
    {
        let room = ROOM - self.bytes.len();
        self.bytes
            .try_extend_from_slice(first_of(more, room))
            .unwrap();
    }

    /// Adds bytes for which there is room.
    pub fn push(&mut self, more: &[u8])
        requires { length self.old + length more.now ≤ ROOM }
        ensures { self.new ≡ self.old ++ more.now }
    {
        self.bytes.try_extend_from_slice(more).unwrap();
    }

    /// The bytes.
    pub fn as_bytes(&self) -> &[u8]
        ensures bytes { result.now ≡ self.now }
        ensures fits { length result.now ≤ ROOM }
    {
        self.bytes.as_slice()
    }

    /// The same text again.
    pub fn copied(&self) -> Self
        ensures { result ≡ self.now }
    {
        Self::from_bytes(self.as_bytes())
    }

    /// This text with more at its end, as much as there is room for.
    pub fn with(&self, more: &[u8]) -> Self
        ensures { result ≡ take ROOM (self.now ++ more.now) }
    {
        let mut text = self.copied();
        text.add(more);
        text
    }
}
