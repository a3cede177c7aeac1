//! A range put at its place in a list.
ghost use Rattle.std.specs.Prelude.{◌≡◌, ℕ, true, false, ◌||◌, ◌-◌, ◌<◌, ◌≤◌, length, slice_index_or, OnOk, OnErr};
ghost use Rattle.version_ranges.specs.declared.half_open.Range.{Range};
ghost use Rattle.version_ranges.specs.Members.{is_before, is_in, contains};
ghost use Rattle.version_ranges.specs.Order.{ends_below, IsSeparate};

use crate::half_open::{Range, is_end_below, later};
use crate::memory::NoMemory;
use crate::merge::union_of;

/// Adds a range. If it touches one other at most, it is put at its place, or joined with that
/// one.
pub(crate) fn put(ranges: &mut Vec<Range>, range: Range) -> Result<(), NoMemory>
    requires separate { IsSeparate ranges.old.items }
    requires has_version { is_before range.from range.to ≡ true }
    ensures separate { OnOk result (IsSeparate ranges.new.items) }
    ensures members { OnOk result
        ((w : ℕ) → contains ranges.new.items w ≡ (contains ranges.old.items w || is_in range w)) }
    ensures err { OnErr result (ranges.new.items ≡ ranges.old.items) }
{
    let place = ranges.partition_point(|next| next.from <= range.from);
    if join_round(ranges, place, range) {
        return Ok(());
    }
    if is_clear(ranges, place, place, range) {
        ranges.insert(place, range)?;
        return Ok(());
    }
    *ranges = union_of(*ranges.allocator(), ranges, &[range])?;
    Ok(())
}

/// Joins a range with the one before a place or with the one at it, if it touches that one and
/// no other; tells whether it did.
fn join_round(ranges: &mut Vec<Range>, place: usize, range: Range) -> bool
    requires place { place ≤ length ranges.old.items }
    requires separate { IsSeparate ranges.old.items }
    requires has_version { is_before range.from range.to ≡ true }
    ensures separate { IsSeparate ranges.new.items }
    ensures joined { result ≡ true → (w : ℕ)
        → contains ranges.new.items w ≡ (contains ranges.old.items w || is_in range w) }
    ensures left { result ≡ false → ranges.new.items ≡ ranges.old.items }
{
    if place > 0 && join_at(ranges, place - 1, range) {
        return true;
    }
    place < ranges.len() && join_at(ranges, place, range)
}

/// Joins a range with the one at a place, if it touches that one and no other; tells whether it
/// did.
fn join_at(ranges: &mut Vec<Range>, place: usize, range: Range) -> bool
    requires place { place < length ranges.old.items }
    requires separate { IsSeparate ranges.old.items }
    requires has_version { is_before range.from range.to ≡ true }
    ensures separate { IsSeparate ranges.new.items }
    ensures joined { result ≡ true → (w : ℕ)
        → contains ranges.new.items w ≡ (contains ranges.old.items w || is_in range w) }
    ensures left { result ≡ false → ranges.new.items ≡ ranges.old.items }
{
    let own = ranges[place];
    let joined = Range {
        from: own.from.min(range.from),
        to: later(own.to, range.to),
    };
    if is_apart(own, range) || !is_clear(ranges, place, place + 1, joined) {
        return false;
    }
    ranges[place] = joined;
    true
}

/// Whether two ranges do not touch.
fn is_apart(a: Range, b: Range) -> bool
    ensures { result ≡ (ends_below a.to b.from || ends_below b.to a.from) }
{
    is_end_below(a.to, b.from) || is_end_below(b.to, a.from)
}

/// Whether a range touches neither what ends before one place nor what begins at another.
fn is_clear(ranges: &[Range], before: usize, after: usize, range: Range) -> bool
    requires before { before ≤ length ranges.now }
    requires after { after ≤ length ranges.now }
    ensures below { result ≡ true → (d : Range) → 0 < before
        → ends_below (slice_index_or ranges.now (before - 1) d).to range.from ≡ true }
    ensures above { result ≡ true → (d : Range) → after < length ranges.now
        → ends_below range.to (slice_index_or ranges.now after d).from ≡ true }
{
    (before == 0 || is_end_below(ranges[before - 1].to, range.from))
        && (after == ranges.len() || is_end_below(range.to, ranges[after].from))
}
