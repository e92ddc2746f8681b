//! Lists of bytes, and lists of such lists.
ghost use Rattle.std.specs.Prelude.{◌≡◌, ◌↔◌, ◌<◌, List, ℕ, IsSome, IfSome, length, slice_get};

use std::marker::Model;

/// The bytes of a file. It means the list of its bytes.
#[derive(Debug, Drop)]
pub struct Blob {
    bytes: Vec<u8>,
}

impl Model for Blob {
    ghost Value = { List ℕ };

    ghost view = { λ b. b.bytes.items };
}

impl Blob {
    /// These bytes.
    pub fn from_vec(bytes: Vec<u8>) -> Self
        ensures { result ≡ bytes.items }
    {
        Blob { bytes }
    }

    /// All bytes in order.
    pub fn as_slice(&self) -> &[u8]
        ensures { result.now ≡ self.now }
    {
        self.bytes.as_slice()
    }

    /// The number of bytes.
    pub fn len(&self) -> usize
        ensures { result ≡ length self.now }
    {
        self.bytes.len()
    }

    /// Byte `k`, or `None` exactly where `k` isn't below `len`.
    pub fn get(&self, k: usize) -> Option<&u8>
        ensures within { IsSome result ↔ (k < length self.now) }
        ensures item { IfSome result (λ byte. slice_get self.now k ≡ Some byte.now) }
    {
        self.bytes.get(k)
    }
}

/// The bytes of several files, in order. It means the list of what they mean.
#[derive(Debug, Drop)]
pub struct Blobs {
    blobs: Vec<Blob>,
}

impl Model for Blobs {
    ghost Value = { List (List ℕ) };

    ghost view = { λ b. b.blobs.items };
}

impl Blobs {
    /// These files.
    pub fn from_vec(blobs: Vec<Blob>) -> Self
        ensures { result ≡ blobs.items }
    {
        Blobs { blobs }
    }

    /// All files in order.
    pub fn as_slice(&self) -> &[Blob]
        ensures { result.now ≡ self.now }
    {
        self.blobs.as_slice()
    }

    /// The number of files.
    pub fn len(&self) -> usize
        ensures { result ≡ length self.now }
    {
        self.blobs.len()
    }

    /// File `k`, or `None` exactly where `k` isn't below `len`.
    pub fn get(&self, k: usize) -> Option<&Blob>
        ensures within { IsSome result ↔ (k < length self.now) }
        ensures item { IfSome result (λ blob. slice_get self.now k ≡ Some blob.now) }
    {
        self.blobs.get(k)
    }
}
