//! Seeds: which bytes make the same one.
use hash_seed::Seed;
use std::hash::BuildHasher;
use std::test::Fail;

/// Bytes, others, and whether the two make the same seed.
type SeedRow = (&'static [u8], &'static [u8], bool);

const SEEDS: [SeedRow; 6] = [
    (b"", b"", true),
    (b"commit\n", b"commit\n", true),
    (b"", b"\n", false),
    (b"put a 1\n0\n", b"put a 1\n1\n", false),
    (b"put a 1\n0\n", b"put b 1\n0\n", false),
    (b"open t\nclose t\n", b"close t\nopen t\n", false),
];

/// The number of the first row of which the seeds hash a number otherwise than it says.
fn first_other_seed(rows: &[SeedRow]) -> Option<usize> {
    for i in 0..rows.len() {
        let (one, other, same) = rows[i];
        let first = Seed::of(one).hash_one(7u64);
        let second = Seed::of(other).hash_one(7u64);
        if (first == second) != same {
            return Some(i);
        }
    }
    None
}

#[test]
fn other_bytes_make_another_seed(rt: HostRuntime) -> Result<(), Fail> {
    assert!(rt; first_other_seed(&SEEDS) == None);
    Ok(())
}
