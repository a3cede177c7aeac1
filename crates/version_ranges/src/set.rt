//! A set of versions.
ghost use Rattle.std.specs.Prelude.{◌≡◌, ℕ, ◌<◌, ◌^◌, true, ◌&&◌, ◌||◌, [], ◌==◌, nat_lt, IfOk, OnOk, OnErr};
ghost use Rattle.std.specs.Option.{ForSome};
ghost use Rattle.version_ranges.specs.declared.half_open.Range.{Range};
ghost use Rattle.version_ranges.specs.Members.{contains, is_before, is_in, is_open};
ghost use Rattle.version_ranges.specs.Order.{IsSeparate};
ghost use Rattle.version_ranges.specs.Rounds.{all_between};

use crate::half_open::Range;
use crate::memory::NoMemory;
use crate::merge::{append, append_common, intersection_of, union_of};
use crate::place::put;
use crate::search::{cut, is_among, range_at};
use std::alloc::Global;
use std::marker::Model;

/// A set of versions: half-open ranges in rising order that do not touch. The last may be open.
///
/// Contracts see the list of the ranges, and speak of its members by `contains`.
#[derive(Drop)]
pub struct Ranges {
    pub(crate) ranges: Vec<Range>,
}

impl Model for Ranges {
    ghost use Rattle.std.specs.Prelude.{List};
    ghost use Rattle.version_ranges.specs.declared.half_open.Range.{Range};
    ghost use Rattle.version_ranges.specs.Order.{IsSeparate};

    ghost Value = { List Range };

    ghost view = { λ a. a.ranges.items };

    ghost invariant = { λ a. IsSeparate a.ranges.items };
}

impl Ranges {
    /// No versions. It takes no memory.
    pub fn new(alloc: Global) -> Ranges
        ensures { result ≡ [] }
    {
        Ranges {
            ranges: Vec::new(alloc),
        }
    }

    /// All versions.
    pub fn all(alloc: Global) -> Result<Ranges, NoMemory>
        ensures { IfOk result (λ r. (w : ℕ) → contains r w ≡ true) }
    {
        let mut all = Ranges::new(alloc);
        all.insert(0, None)?;
        Ok(all)
    }

    /// One version. The greatest `u64` is held as an open range, since nothing is above it.
    pub fn one(alloc: Global, version: u64) -> Result<Ranges, NoMemory>
        ensures versions { IfOk result (λ r. (w : ℕ) → w < 2 ^ 64 → contains r w ≡ (w == version)) }
        ensures exact { IfOk result
            (λ r. version < u64.MAX → (w : ℕ) → contains r w ≡ (w == version)) }
    {
        let mut one = Ranges::new(alloc);
        one.insert(version, version.checked_add(1))?;
        Ok(one)
    }

    /// A copy.
    pub fn try_clone(&self) -> Result<Ranges, NoMemory>
        ensures { IfOk result (λ r. r ≡ self.now) }
    {
        let ranges = Vec::from_slice(*self.ranges.allocator(), &self.ranges)?;
        Ok(Ranges { ranges })
    }

    /// The ranges, in rising order.
    pub fn as_slice(&self) -> &[Range]
        ensures value { result.now ≡ self.now }
        ensures separate { IsSeparate self.now }
    {
        &self.ranges
    }

    /// Whether the set has the version. The cost is logarithmic in the number of ranges.
    pub fn contains(&self, version: u64) -> bool
        ensures { result ≡ contains self.now version }
    {
        is_among(&self.ranges, version)
    }

    /// Whether the last range has no end.
    pub fn is_open(&self) -> bool
        ensures { result ≡ is_open self.now }
    {
        match self.ranges.as_slice() {
            [.., last] => last.to.is_none(),
            [] => false,
        }
    }

    /// Adds the versions from `from` on, up to but not with `to`; without a `to` all from `from`
    /// on.
    ///
    /// The cost is constant if nothing begins after `from`. Otherwise it is a binary search and a
    /// move of what lies above; if the new range touches more than one, it is linear in the
    /// number of ranges.
    pub fn insert(&mut self, from: u64, to: Option<u64>) -> Result<(), NoMemory>
        requires { ForSome to (λ t. from < t) }
        ensures ok { OnOk result ((w : ℕ)
            → contains self.new w
            ≡ (contains self.old w || is_in (record { from = from; to = to }) w)) }
        ensures err { OnErr result (self.new ≡ self.old) }
    {
        let range = Range { from, to };
        if let Some(last) = self.ranges.last()
            && from < last.from
        {
            return put(&mut self.ranges, range);
        }
        append(&mut self.ranges, range)
    }

    /// Adds the versions of another set. At an error all is as before.
    ///
    /// If the other set is one range, it costs what `insert` does; otherwise it is linear in the
    /// number of ranges.
    pub fn add(&mut self, other: &Ranges) -> Result<(), NoMemory>
        ensures ok { OnOk result
            ((w : ℕ) → contains self.new w ≡ (contains self.old w || contains other.now w)) }
        ensures err { OnErr result (self.new ≡ self.old) }
    {
        if let [one] = other.ranges.as_slice() {
            return self.insert(one.from, one.to);
        }
        self.ranges = union_of(*self.ranges.allocator(), &self.ranges, &other.ranges)?;
        Ok(())
    }

    /// The versions of either set.
    pub fn union(&self, other: &Ranges) -> Result<Ranges, NoMemory>
        ensures { IfOk result
            (λ r. (w : ℕ) → contains r w ≡ (contains self.now w || contains other.now w)) }
    {
        let ranges = union_of(*self.ranges.allocator(), &self.ranges, &other.ranges)?;
        Ok(Ranges { ranges })
    }

    /// The versions of both sets.
    pub fn intersect(&self, other: &Ranges) -> Result<Ranges, NoMemory>
        ensures { IfOk result
            (λ r. (w : ℕ) → contains r w ≡ (contains self.now w && contains other.now w)) }
    {
        let ranges = intersection_of(*self.ranges.allocator(), &self.ranges, &other.ranges)?;
        Ok(Ranges { ranges })
    }

    /// The versions of both sets, in place of this one. If both are one range it takes no
    /// memory.
    pub fn narrowed(self, other: &Ranges) -> Result<Ranges, NoMemory>
        ensures { IfOk result
            (λ r. (w : ℕ) → contains r w ≡ (contains self w && contains other.now w)) }
    {
        let mut ranges = self.ranges;
        if let ([a], [b]) = (ranges.as_slice(), other.ranges.as_slice()) {
            let (a, b) = (*a, *b);
            ranges.clear();
            append_common(&mut ranges, a, b)?;
        } else {
            ranges = intersection_of(*ranges.allocator(), &ranges, &other.ranges)?;
        }
        Ok(Ranges { ranges })
    }

    /// In place of these versions, those of them up to which the other set has all from the given
    /// one on, or from there back. The cost is logarithmic in the number of the other's ranges; if
    /// this set is one range it takes no memory.
    pub fn narrowed_round(self, other: &Ranges, version: u64) -> Result<Ranges, NoMemory>
        ensures { IfOk result (λ r. (w : ℕ)
            → contains r w ≡ (contains self w && all_between (contains other.now) version w)) }
    {
        match range_at(&other.ranges, version) {
            Some(range) => self.within(range),
            None => Ok(self.emptied()),
        }
    }

    /// In place of these versions, those of them in a range.
    fn within(self, range: Range) -> Result<Ranges, NoMemory>
        requires { is_before range.from range.to ≡ true }
        ensures { IfOk result (λ r. (w : ℕ) → contains r w ≡ (contains self w && is_in range w)) }
    {
        let mut ranges = self.ranges;
        if let [own] = ranges.as_slice() {
            let own = *own;
            ranges.clear();
            append_common(&mut ranges, own, range)?;
        } else {
            ranges = intersection_of(*ranges.allocator(), &ranges, &[range])?;
        }
        Ok(Ranges { ranges })
    }

    /// No versions, in place of these. It takes no memory.
    fn emptied(self) -> Ranges
        ensures { result ≡ [] }
    {
        let mut ranges = self.ranges;
        ranges.clear();
        Ranges { ranges }
    }

    /// Keeps exactly the versions below `end`. It takes no memory.
    pub fn close_at(&mut self, end: u64)
        ensures { (w : ℕ) → contains self.new w ≡ (contains self.old w && nat_lt w end) }
    {
        cut(&mut self.ranges, end);
    }
}
