//! The bytes of a text, as they are kept.
ghost use Rattle.std.specs.Prelude.{◌≡◌, ◌≤◌, length, nat_eq, IfOk};
ghost use Rattle.std.specs.Cmp.Lexicographic.{pointwise};

use std::alloc::{AllocError, Global};
use std::marker::Model;
use std::simd::prelude::*;

/// Up to so many bytes lie in place; more have a place of their own.
const FEW: usize = 16;

/// Bytes that do not change. Few lie in place, with zeros after them.
#[derive(Drop)]
pub(crate) struct Bytes {
    kept: Kept,
}

#[derive(Drop)]
enum Kept {
    Few { len: usize, padded: [u8; FEW] },
    Many(Vec<u8>),
}

impl Model for Bytes {
    ghost use Rattle.std.specs.Prelude.{List, ℕ};
    ghost use Rattle.shared_text.specs.Kept.{bytes_in, IsPadded};

    ghost Value = { List ℕ };

    ghost view = { λ b. bytes_in b.kept };

    ghost invariant = { λ b. IsPadded b.kept };
}

impl Bytes {
    /// These bytes. They are moved, and copied only if they are few.
    pub(crate) fn new(bytes: Vec<u8>) -> Bytes
        ensures { result ≡ bytes.items }
    {
        if bytes.len() <= FEW {
            return Bytes::few(bytes.as_slice());
        }
        Bytes {
            kept: Kept::Many(bytes),
        }
    }

    /// A copy of these bytes. It takes no memory for up to 16 of them.
    pub(crate) fn from_slice(alloc: Global, bytes: &[u8]) -> Result<Bytes, AllocError>
        ensures { IfOk result (λ b. b ≡ bytes.now) }
    {
        if bytes.len() <= FEW {
            return Ok(Bytes::few(bytes));
        }
        Ok(Bytes {
            kept: Kept::Many(bytes.to_vec(alloc)?),
        })
    }

    fn few(bytes: &[u8]) -> Bytes
        requires { length bytes.now ≤ 16 }
        ensures { result ≡ bytes.now }
    {
        let mut padded = [0; FEW];
        padded[..bytes.len()].copy_from_slice(bytes);
        Bytes {
            kept: Kept::Few {
                len: bytes.len(),
                padded,
            },
        }
    }

    pub(crate) fn as_slice(&self) -> &[u8]
        ensures { result.now ≡ self.now }
    {
        match &self.kept {
            Kept::Few { len, padded } => &padded[..*len],
            Kept::Many(bytes) => bytes.as_slice(),
        }
    }

    /// Whether the two are the same. Few bytes are compared all at once.
    pub(crate) fn is_same(&self, other: &Bytes) -> bool
        ensures { result ≡ pointwise nat_eq self.now other.now }
    {
        match (&self.kept, &other.kept) {
            (
                Kept::Few { len, padded },
                Kept::Few {
                    len: other_len,
                    padded: others,
                },
            ) => *len == *other_len
                && are_same(u8x16::from_array(*padded), u8x16::from_array(*others)),
            _ => self.as_slice() == other.as_slice(),
        }
    }
}

fn are_same(a: u8x16, b: u8x16) -> bool
    ensures { result ≡ pointwise nat_eq a b }
{
    a.simd_ne(b).to_bitmask() == 0
}
