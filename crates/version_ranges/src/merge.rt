//! Lists of ranges made in one walk over two.
ghost use Rattle.std.specs.Prelude.{◌≡◌, ◌++◌, ◌∷◌, [], ℕ, true, false, ◌&&◌, ◌||◌, ◌<◌, ◌≤◌, length, slice_index_or, max, IfOk, OnOk, OnErr};
ghost use Rattle.version_ranges.specs.declared.half_open.Range.{Range};
ghost use Rattle.version_ranges.specs.Members.{is_before, is_in, contains};
ghost use Rattle.version_ranges.specs.Order.{IsSeparate, LastBeginsBy};

use crate::half_open::{Range, earlier, ends_by, is_before_end, is_end_below, later};
use crate::memory::NoMemory;
use std::alloc::Global;

/// Adds a range that begins no earlier than the last one, and joins it with that if they touch.
pub(crate) fn append(ranges: &mut Vec<Range>, next: Range) -> Result<(), NoMemory>
    requires separate { IsSeparate ranges.old.items }
    requires has_version { is_before next.from next.to ≡ true }
    requires in_order { LastBeginsBy ranges.old.items next.from }
    ensures separate { OnOk result (IsSeparate ranges.new.items) }
    ensures members { OnOk result
        ((w : ℕ) → contains ranges.new.items w ≡ (contains ranges.old.items w || is_in next w)) }
    ensures in_order { OnOk result (LastBeginsBy ranges.new.items next.from) }
    ensures err { OnErr result (ranges.new.items ≡ ranges.old.items) }
{
    let len = ranges.len();
    if len > 0 {
        let last = ranges[len - 1];
        if !is_end_below(last.to, next.from) {
            ranges[len - 1] = Range {
                from: last.from,
                to: later(last.to, next.to),
            };
            return Ok(());
        }
    }
    push(ranges, next)?;
    Ok(())
}

/// Adds a range at the end. The first one gets memory for itself alone: most lists stay so.
fn push(ranges: &mut Vec<Range>, next: Range) -> Result<(), NoMemory>
    ensures ok { OnOk result (ranges.new.items ≡ ranges.old.items ++ next ∷ []) }
    ensures err { OnErr result (ranges.new.items ≡ ranges.old.items) }
{
    if ranges.is_empty() {
        ranges.reserve_exact(1)?;
    }
    ranges.push(next)?;
    Ok(())
}

/// Adds what two ranges have in common, if anything.
pub(crate) fn append_common(ranges: &mut Vec<Range>, a: Range, b: Range) -> Result<(), NoMemory>
    requires separate { IsSeparate ranges.old.items }
    requires in_order { LastBeginsBy ranges.old.items (max a.from b.from) }
    ensures separate { OnOk result (IsSeparate ranges.new.items) }
    ensures members { OnOk result ((w : ℕ)
        → contains ranges.new.items w ≡ (contains ranges.old.items w || (is_in a w && is_in b w))) }
    ensures in_order { OnOk result (LastBeginsBy ranges.new.items (max a.from b.from)) }
{
    let common = Range {
        from: a.from.max(b.from),
        to: earlier(a.to, b.to),
    };
    if !is_before_end(common.from, common.to) {
        return Ok(());
    }
    append(ranges, common)
}

/// Whether, of what is left of two lists from these places on, the range that begins first is
/// `a[i]`.
fn is_left_next(a: &[Range], i: usize, b: &[Range], j: usize) -> bool
    requires left { i ≤ length a.now }
    requires right { j ≤ length b.now }
    ensures yes { result ≡ true → i < length a.now }
    ensures first { result ≡ true → (d : Range) → j < length b.now
        → (slice_index_or a.now i d).from ≤ (slice_index_or b.now j d).from }
    ensures no { result ≡ false → (d : Range) → i < length a.now
        → (slice_index_or b.now j d).from ≤ (slice_index_or a.now i d).from }
    ensures none { result ≡ false → i < length a.now → j < length b.now }
{
    i < a.len() && (j == b.len() || a[i].from <= b[j].from)
}

/// The ranges of either list, in one walk over both.
pub(crate) fn union_of(alloc: Global, a: &[Range], b: &[Range]) -> Result<Vec<Range>, NoMemory>
    requires left { IsSeparate a.now }
    requires right { IsSeparate b.now }
    ensures separate { IfOk result (λ v. IsSeparate v.items) }
    ensures members { IfOk result
        (λ v. (w : ℕ) → contains v.items w ≡ (contains a.now w || contains b.now w)) }
{
    let mut union = Vec::new(alloc);
    let mut i = 0;
    let mut j = 0;
    'walk: loop {
        if is_left_next(a, i, b, j) {
            append(&mut union, a[i])?;
            i += 1;
        } else if j < b.len() {
            append(&mut union, b[j])?;
            j += 1;
        } else {
            return Ok(union);
        }
    }
}

/// The ranges that two lists have in common, in one walk over both.
pub(crate) fn intersection_of(
    alloc: Global,
    a: &[Range],
    b: &[Range],
) -> Result<Vec<Range>, NoMemory>
    requires left { IsSeparate a.now }
    requires right { IsSeparate b.now }
    ensures separate { IfOk result (λ v. IsSeparate v.items) }
    ensures members { IfOk result
        (λ v. (w : ℕ) → contains v.items w ≡ (contains a.now w && contains b.now w)) }
{
    let mut common = Vec::new(alloc);
    let mut i = 0;
    let mut j = 0;
    'walk: while i < a.len() && j < b.len() {
        let (left, right) = (a[i], b[j]);
        append_common(&mut common, left, right)?;
        if ends_by(left.to, right.to) {
            i += 1;
        } else {
            j += 1;
        }
    }
    Ok(common)
}
