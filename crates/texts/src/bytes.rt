//! Bytes that a process writes.

ghost use Rattle.std.specs.Prelude.{◌≡◌, ◌==◌, [], List, ℕ, length, IfOk};
ghost use Rattle.std.specs.Slice.Iter.{iter_rest};
ghost use Rattle.std.specs.Str.{bytes_eq};
ghost use Rattle.texts.specs.Equality.{bytes_law};

use std::alloc::{AllocError, Global};
use std::marker::Model;
use std::slice;

/// Bytes that a record holds, seen in contracts as their list.
///
/// It is made of a `Vec<u8>` and gives it back without memory.
#[derive(Debug, Drop)]
pub struct Bytes {
    bytes: Vec<u8>,
}

impl Model for Bytes {
    ghost Value = { List ℕ };

    ghost view = { λ b. b.bytes.items };
}

impl Bytes {
    /// No bytes.
    pub fn new(alloc: Global) -> Bytes
        ensures { result ≡ [] }
    {
        Bytes {
            bytes: Vec::new(alloc),
        }
    }

    /// Holds the bytes of `bytes`.
    pub fn from_vec(bytes: Vec<u8>) -> Bytes
        ensures { result ≡ bytes.items }
    {
        Bytes { bytes }
    }

    /// Bytes equal to `bytes`.
    pub fn copy_of(alloc: Global, bytes: &[u8]) -> Result<Bytes, AllocError>
        ensures { IfOk result (λ b. b ≡ bytes.now) }
    {
        Ok(Bytes {
            bytes: Vec::from_slice(alloc, bytes)?,
        })
    }

    /// The bytes as a slice.
    pub fn as_slice(&self) -> &[u8]
        ensures { result.now ≡ self.now }
    {
        self.bytes.as_slice()
    }

    /// Gives the `Vec` back.
    pub fn into_vec(self) -> Vec<u8>
        ensures { result.items ≡ self }
    {
        self.bytes
    }

    /// How many bytes there are.
    pub fn len(&self) -> usize
        ensures { result ≡ length self.now }
    {
        self.bytes.len()
    }

    /// Whether there are no bytes.
    pub fn is_empty(&self) -> bool
        ensures { result ≡ (length self.now == 0) }
    {
        self.bytes.is_empty()
    }

    /// Each byte, in order.
    pub fn iter(&self) -> slice::Iter<'_, u8>
        ensures { iter_rest result ≡ self.now }
    {
        self.bytes.iter()
    }

    /// Equal bytes, in memory of their own.
    pub fn try_clone(&self, alloc: Global) -> Result<Bytes, AllocError>
        ensures { IfOk result (λ b. b ≡ self.now) }
    {
        Bytes::copy_of(alloc, self.as_slice())
    }
}

impl<'a> IntoIterator for &'a Bytes {
    type Item = &'a u8;

    type IntoIter = slice::Iter<'a, u8>;

    ghost into_iter_gives = { λ bytes it. iter_rest it ≡ bytes.now };

    fn into_iter(self) -> Self::IntoIter {
        self.iter()
    }
}

impl PartialEq for Bytes {
    ghost eq = { bytes_eq };

    ghost laws = { bytes_law };

    fn eq(&self, other: &Bytes) -> bool {
        self.as_slice() == other.as_slice()
    }
}
