//! What a binary search finds in a list of ranges.
ghost use Rattle.std.specs.Prelude.{◌≡◌, ℕ, true, false, ◌-◌, ◌<◌, ◌≤◌, ◌&&◌, nat_lt, length, slice_index_or, MatchOption};
ghost use Rattle.version_ranges.specs.declared.half_open.Range.{Range};
ghost use Rattle.version_ranges.specs.Members.{contains, is_before, is_in};
ghost use Rattle.version_ranges.specs.Order.{IsSeparate};
ghost use Rattle.version_ranges.specs.Rounds.{all_between};

use crate::half_open::{Range, ends_by, is_before_end};

/// Whether one of the ranges has the version.
pub(crate) fn is_among(ranges: &[Range], version: u64) -> bool
    requires { IsSeparate ranges.now }
    ensures { result ≡ contains ranges.now version }
{
    let begun = ranges.partition_point(|range| range.from <= version);
    if begun == 0 {
        return false;
    }
    is_before_end(version, ranges[begun - 1].to)
}

/// The range that has the version, if one does.
pub(crate) fn range_at(ranges: &[Range], version: u64) -> Option<Range>
    requires { IsSeparate ranges.now }
    ensures { MatchOption result (contains ranges.now version ≡ false)
        (λ r. (is_before r.from r.to ≡ true)
        × ((w : ℕ) → is_in r w ≡ all_between (contains ranges.now) version w)) }
{
    let begun = ranges.partition_point(|next| next.from <= version);
    if begun == 0 {
        return None;
    }
    let last = ranges[begun - 1];
    if !is_before_end(version, last.to) {
        return None;
    }
    Some(last)
}

/// How many ranges begin below `end`.
fn begun_below(ranges: &[Range], end: u64) -> usize
    requires { IsSeparate ranges.now }
    ensures bound { result ≤ length ranges.now }
    ensures below { (d : Range) → 0 < result
        → (slice_index_or ranges.now (result - 1) d).from < end }
    ensures others { (d : Range) → result < length ranges.now
        → end ≤ (slice_index_or ranges.now result d).from }
{
    ranges.partition_point(|range| range.from < end)
}

/// Keeps what lies below `end`.
pub(crate) fn cut(ranges: &mut Vec<Range>, end: u64)
    requires { IsSeparate ranges.old.items }
    ensures separate { IsSeparate ranges.new.items }
    ensures members { (w : ℕ)
        → contains ranges.new.items w ≡ (contains ranges.old.items w && nat_lt w end) }
{
    let begun = begun_below(ranges, end);
    ranges.truncate(begun);
    if begun == 0 {
        return;
    }
    let last = ranges[begun - 1];
    if ends_by(last.to, Some(end)) {
        return;
    }
    ranges[begun - 1] = Range {
        from: last.from,
        to: Some(end),
    };
}
