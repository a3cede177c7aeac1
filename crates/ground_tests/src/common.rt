//! What several tests ask of a value.
use version_ranges::Ranges;

/// A range of versions: its first one, and the first one above it, if any.
pub(crate) type RangeRow = (u64, Option<u64>);

/// Whether the set is this list of ranges.
pub(crate) fn lists(ranges: &Ranges, want: &[RangeRow]) -> bool {
    let have = ranges.as_slice();
    if have.len() != want.len() {
        return false;
    }
    for (range, row) in have.iter().zip(want) {
        if range.from != row.0 || range.to != row.1 {
            return false;
        }
    }
    true
}

/// A value of the type may go to another thread, and be read there.
pub(crate) fn crosses<T: Send + Sync>(_: &T) {}
