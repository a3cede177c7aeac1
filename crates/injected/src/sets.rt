//! Many sets of one key.
ghost use Rattle.std.specs.Prelude.{◌≡◌, ℕ, ◌<◌, ◌≤◌, ◌-◌, true, false, [], ◌∷◌, ◌++◌, ◌&&◌, ◌||◌, length, slice_index_or, Some, None, IfOk, OnOk, OnErr};
ghost use Rattle.std.specs.List.{position};
ghost use Rattle.std.specs.Option.{ForSome};
ghost use Rattle.std.specs.Arc.{arc_value};
ghost use Rattle.dice_key.specs.Lawful.{IsEquality};
ghost use Rattle.version_ranges.specs.Members.{contains, is_in, is_open};
ghost use Rattle.injected.specs.History.{value_at, newest_of, IsRising};
ghost use Rattle.injected.specs.Numbers.{tests, names, AreBegun};
ghost use Rattle.version_ranges.specs.Rounds.{all_between};
ghost use Rattle.injected.specs.Rounds.{stays};

use dice_key::{NoMemory, Seed};
use indexmap::IndexSet;
use std::alloc::Global;
use std::hash::Hash;
use std::marker::Model;
use std::sync::Arc;
use version_ranges::{Range, Ranges, open_has_a_tail};

/// Sets of one key, in order, and for how many more there is room.
///
/// A value that is set again is kept once, and has one number: so two sets are to one value exactly
/// if their numbers are equal.
#[derive(Drop)]
pub(crate) struct Sets<V: Eq + Hash> {
    /// Each set: its version and the number of its value.
    sets: Vec<(u64, usize)>,
    /// The values that were set, each at its number.
    values: IndexSet<Arc<V>, Seed>,
    room: usize,
}

impl<V: Eq + Hash> Model for Sets<V> {
    ghost use Rattle.std.specs.Prelude.{◌-◌, vec_len, vec_capacity};
    ghost use Rattle.indexmap.specs.IndexSet.{spare};
    ghost use Rattle.injected.specs.Numbers.{sets_of, IsNumbered};
    ghost use Rattle.injected.specs.Seen.{Cell};

    ghost Value = { Cell V };

    ghost view = { λ h. record { room = h.room; sets = sets_of h.values.keys h.sets.items } };

    ghost invariant = { λ h. IsNumbered V.eq h.values.keys h.sets.items h.room
        (vec_capacity h.sets - vec_len h.sets) (spare h.values) };
}

impl<V: Eq + Hash + Drop> Sets<V> {
    /// No sets, with room for two.
    pub(crate) fn with_room(alloc: Global, seed: Seed) -> Result<Sets<V>, NoMemory>
        ensures sets { IfOk result (λ h. h.sets ≡ []) }
        ensures room { IfOk result (λ h. h.room ≡ 2) }
    {
        let sets = Vec::with_capacity(alloc, 2)?;
        let values = IndexSet::with_capacity_and_hasher(alloc, 2, seed)?;
        let room = 2;
        Ok(Sets { sets, values, room })
    }

    /// For how many more sets there is room.
    pub(crate) fn room(&self) -> usize
        ensures { result ≡ self.now.room }
    {
        self.room
    }

    /// Makes room for one more set if there is none.
    pub(crate) fn reserve(&mut self) -> Result<(), NoMemory>
        ensures room { OnOk result (0 < self.new.room) }
        ensures sets { self.new.sets ≡ self.old.sets }
        ensures err { OnErr result (self.new ≡ self.old) }
    {
        if self.room == 0 {
            self.sets.reserve(1)?;
            self.values.reserve(1)?;
            self.room = 1;
        }
        Ok(())
    }

    /// Adds a set if there is room for it. It takes no memory.
    pub(crate) fn push(&mut self, version: u64, value: Arc<V>)
        requires laws { IsEquality V.eq }
        requires room { 0 < self.old.room }
        ensures sets { self.new.sets ≡ self.old.sets ++ (version, arc_value value) ∷ [] }
        ensures used { self.new.room ≡ self.old.room - 1 }
    {
        let (number, _) = self.values.insert_full(value).unwrap();
        self.sets.push((version, number)).unwrap();
        self.room -= 1;
    }

    /// The value of the last set at or below the version, otherwise the absent one.
    pub(crate) fn at<'a>(&'a self, absent: &'a Arc<V>, version: u64) -> &'a Arc<V>
        requires { IsRising self.now.sets }
        ensures { arc_value result.now ≡ value_at (arc_value absent.now) self.now.sets version }
    {
        let count = begun_by(&self.sets, version);
        if count == 0 {
            return absent;
        }
        &self.values[self.sets[count - 1].1]
    }

    /// The value of the last set, otherwise the absent one.
    pub(crate) fn newest<'a>(&'a self, absent: &'a Arc<V>) -> &'a Arc<V>
        ensures { arc_value result.now ≡ newest_of (arc_value absent.now) self.now.sets }
    {
        let count = self.sets.len();
        if count == 0 {
            return absent;
        }
        &self.values[self.sets[count - 1].1]
    }

    /// The versions round this one up to which the value stays as it is there: a binary search, and
    /// a walk over the neighbouring sets to the same value.
    pub(crate) fn range_round(
        &self,
        alloc: Global,
        absent: &Arc<V>,
        version: u64,
    ) -> Result<Ranges, NoMemory>
        requires laws { IsEquality V.eq }
        requires rising { IsRising self.now.sets }
        ensures { IfOk result (λ r. (w : ℕ)
            → contains r w ≡ stays V.eq (value_at (arc_value absent.now) self.now.sets) version w) }
    {
        let first = **absent == **self.at(absent, version);
        let begun = begun_by(&self.sets, version);
        let number = number_after(&self.sets, &self.values, absent, begun);
        one_range(alloc, range_of(first, &self.sets, number, begun))
    }

    /// The versions at which the value is the wanted one: one look-up of its number, and then a
    /// walk over the numbers.
    pub(crate) fn ranges_with(
        &self,
        alloc: Global,
        absent: &Arc<V>,
        wanted: &Arc<V>,
    ) -> Result<Ranges, NoMemory>
        requires laws { IsEquality V.eq }
        requires rising { IsRising self.now.sets }
        ensures members { IfOk result (λ r. (w : ℕ)
            → contains r w
            ≡ V.eq (value_at (arc_value absent.now) self.now.sets w) (arc_value wanted.now)) }
        ensures tail { IfOk result (λ r. is_open r
            ≡ V.eq (newest_of (arc_value absent.now) self.now.sets) (arc_value wanted.now)) }
    {
        let first = **absent == **wanted;
        let number = self.values.get_index_of(wanted);
        versions_of(alloc, first, &self.sets, number)
    }
}

/// How many sets lie at the version or below it.
fn begun_by(sets: &[(u64, usize)], version: u64) -> usize
    requires { IsRising sets.now }
    ensures { AreBegun version sets.now result }
{
    sets.partition_point(|set| set.0 <= version)
}

/// The number of the value that stands after so many sets, if it has one.
fn number_after<V: Eq + Hash>(
    sets: &[(u64, usize)],
    values: &IndexSet<Arc<V>, Seed>,
    absent: &Arc<V>,
    begun: usize,
) -> Option<usize>
    requires { begun ≤ length sets.now }
    ensures none { begun ≡ 0
        → result ≡ position (λ k. V.eq (arc_value absent.now) (arc_value k)) values.now.keys }
    ensures last { (d : ℕ × ℕ) → 0 < begun
        → result ≡ Some (slice_index_or sets.now (begun - 1) d).1 }
{
    if begun == 0 {
        values.get_index_of(absent)
    } else {
        Some(sets[begun - 1].1)
    }
}

/// The versions round one up to which the number stays, if so many sets lie at it or below it.
fn range_of(first: bool, sets: &[(u64, usize)], number: Option<usize>, begun: usize) -> Range
    requires rising { IsRising sets.now }
    requires bound { begun ≤ length sets.now }
    requires none { begun ≡ 0 → first ≡ true }
    requires last { (d : ℕ × ℕ) → 0 < begun
        → names number (slice_index_or sets.now (begun - 1) d) ≡ true }
    ensures here { (v : ℕ) → AreBegun v sets.now begun → is_in result v ≡ true }
    ensures members { (v : ℕ) → AreBegun v sets.now begun → (w : ℕ)
        → is_in result w ≡ all_between (value_at first (tests number sets.now)) v w }
{
    let begin = begin_of_run(sets, number, begun);
    let end = end_of_run(sets, number, begun);
    Range {
        from: first_version(first, sets, begin),
        to: version_at(sets, end),
    }
}

/// The version of the set at this place; that of the first is 0 if the value before it is the
/// same.
fn first_version(first: bool, sets: &[(u64, usize)], place: usize) -> u64
    requires { (place ≡ 0 → first ≡ false) → place < length sets.now }
    ensures zero { place ≡ 0 → first ≡ true → result ≡ 0 }
    ensures set { (place ≡ 0 → first ≡ false) → (d : ℕ × ℕ)
        → result ≡ (slice_index_or sets.now place d).0 }
{
    if place == 0 && first {
        0
    } else {
        sets[place].0
    }
}

/// The version of the set at this place, if there is one.
fn version_at(sets: &[(u64, usize)], place: usize) -> Option<u64>
    ensures there { (d : ℕ × ℕ) → place < length sets.now
        → result ≡ Some (slice_index_or sets.now place d).0 }
    ensures none { length sets.now ≤ place → result ≡ None }
{
    if place < sets.len() {
        Some(sets[place].0)
    } else {
        None
    }
}

/// The first place from which on, up to this one, all sets name the number.
fn begin_of_run(sets: &[(u64, usize)], number: Option<usize>, begun: usize) -> usize
    requires { begun ≤ length sets.now }
    ensures bound { result ≤ begun }
    ensures run { (i : ℕ) (d : ℕ × ℕ) → result ≤ i → i < begun
        → names number (slice_index_or sets.now i d) ≡ true }
    ensures before { (d : ℕ × ℕ) → 0 < result
        → names number (slice_index_or sets.now (result - 1) d) ≡ false }
{
    let mut begin = begun;
    while begin > 0 && number == Some(sets[begin - 1].1) {
        begin -= 1;
    }
    begin
}

/// The first place, from this one on, at which no set names the number.
fn end_of_run(sets: &[(u64, usize)], number: Option<usize>, begun: usize) -> usize
    requires { begun ≤ length sets.now }
    ensures bound { (begun ≤ result) × (result ≤ length sets.now) }
    ensures run { (i : ℕ) (d : ℕ × ℕ) → begun ≤ i → i < result
        → names number (slice_index_or sets.now i d) ≡ true }
    ensures behind { (d : ℕ × ℕ) → result < length sets.now
        → names number (slice_index_or sets.now result d) ≡ false }
{
    let mut end = begun;
    while end < sets.len() && number == Some(sets[end].1) {
        end += 1;
    }
    end
}

/// The versions from each set to the number up to the next set, and those before the first set
/// if they belong too.
pub(crate) fn versions_of(
    alloc: Global,
    first: bool,
    sets: &[(u64, usize)],
    number: Option<usize>,
) -> Result<Ranges, NoMemory>
    requires { IsRising sets.now }
    ensures members { IfOk result
        (λ r. (w : ℕ) → contains r w ≡ value_at first (tests number sets.now) w) }
    ensures tail { IfOk result (λ r. is_open r ≡ newest_of first (tests number sets.now)) }
{
    let mut ranges = Ranges::new(alloc);
    let mut from = 0;
    let mut belongs = first;
    for (version, next) in sets {
        add_if(belongs, &mut ranges, from, Some(*version))?;
        from = *version;
        belongs = number == Some(*next);
    }
    add_if(belongs, &mut ranges, from, None)?;
    open_has_a_tail(&ranges);
    Ok(ranges)
}

/// The versions of one range.
pub(crate) fn one_range(alloc: Global, range: Range) -> Result<Ranges, NoMemory>
    requires { ForSome range.to (λ t. range.from < t) }
    ensures { IfOk result (λ r. (w : ℕ) → contains r w ≡ is_in range w) }
{
    let mut ranges = Ranges::new(alloc);
    ranges.insert(range.from, range.to).map_err(|_| NoMemory)?;
    Ok(ranges)
}

/// Every version.
pub(crate) fn always(alloc: Global) -> Result<Ranges, NoMemory>
    ensures members { IfOk result (λ r. (w : ℕ) → contains r w ≡ true) }
    ensures tail { IfOk result (λ r. is_open r ≡ true) }
{
    let mut ranges = Ranges::new(alloc);
    add_if(true, &mut ranges, 0, None)?;
    open_has_a_tail(&ranges);
    Ok(ranges)
}

/// If they belong to the ranges, adds the versions from `from` on up to but not with `to`, if any.
fn add_if(belongs: bool, ranges: &mut Ranges, from: u64, to: Option<u64>) -> Result<(), NoMemory>
    ensures { OnOk result ((w : ℕ)
        → contains ranges.new w
        ≡ (contains ranges.old w || (belongs && is_in (record { from = from; to = to }) w))) }
{
    if !belongs {
        return Ok(());
    }
    if let Some(to) = to
        && to <= from
    {
        return Ok(());
    }
    ranges.insert(from, to).map_err(|_| NoMemory)
}
