//! A seed, by which a table hashes its keys.
use std::hash::{BuildHasher, DefaultHasher, FoldHasher, Hash, Hasher};

/// What a table hashes its keys by. Tables with other seeds put the same keys in other buckets, so
/// keys that were picked to meet in one bucket for one seed are scattered for another.
///
/// No answer of a table depends on it, only what the answer costs.
#[derive(Clone, Copy)]
pub struct Seed {
    start: FoldHasher,
}

impl Seed {
    /// The seed that is the same for all.
    pub fn fixed() -> Seed {
        Seed {
            start: FoldHasher::default(),
        }
    }

    /// The seed of these bytes: other bytes have another seed. It costs their number.
    ///
    /// Who picks the keys of a text and wants them to meet has to know its seed before, and the seed
    /// depends on each byte of the text. It is their SipHash-1-3, of 64 bits.
    pub fn of(bytes: &[u8]) -> Seed {
        let mut hasher = DefaultHasher::new();
        hasher.write(bytes);
        let number = hasher.finish();
        let mut start = FoldHasher::default();
        number.hash(&mut start);
        Seed { start }
    }
}

impl BuildHasher for Seed {
    type Hasher = FoldHasher;

    ghost build_hasher = { λ s. s.start };

    fn build_hasher(&self) -> FoldHasher {
        self.start
    }
}
