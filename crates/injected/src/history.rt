//! The sets of one key.
ghost use Rattle.std.specs.Prelude.{◌≡◌, ℕ, ◌<◌, ◌-◌, ◌++◌, ◌∷◌, [], Some, None, if◌then◌else◌, IfOk, OnOk, OnErr};
ghost use Rattle.std.specs.Arc.{arc_value};
ghost use Rattle.std.specs.Option.{ForSome};
ghost use Rattle.dice_key.specs.Lawful.{IsEquality};
ghost use Rattle.version_ranges.specs.Members.{contains, is_in, is_open};
ghost use Rattle.injected.specs.History.{value_at, newest_of, IsRising};
ghost use Rattle.injected.specs.Kept.{cell_in, IsSingle};
ghost use Rattle.injected.specs.Rounds.{stays};

use crate::sets::{Sets, always, one_range, versions_of};
use dice_key::{NoMemory, Seed};
use std::alloc::Global;
use std::hash::Hash;
use std::marker::Model;
use std::mem;
use std::sync::Arc;
use version_ranges::{Range, Ranges};

/// The sets of one key, in order, and for how many more there is room. The first lies in the
/// history itself and takes no memory.
#[derive(Drop)]
pub(crate) struct History<V: Eq + Hash> {
    kept: Kept<V>,
}

#[derive(Drop)]
enum Kept<V: Eq + Hash> {
    /// No set, and room for one.
    Empty,
    /// One set: its version and its value.
    Single { version: u64, value: Arc<V> },
    Many(Box<Sets<V>>),
}

impl<V: Eq + Hash> Model for History<V> {
    ghost use Rattle.injected.specs.Kept.{cell_in};
    ghost use Rattle.injected.specs.Seen.{Cell};

    ghost Value = { Cell V };

    ghost view = { λ h. cell_in h.kept };
}

impl<V: Eq + Hash + Drop> History<V> {
    /// No sets, and room for one.
    pub(crate) fn new() -> History<V>
        ensures sets { result.sets ≡ [] }
        ensures room { 0 < result.room }
    {
        History { kept: Kept::Empty }
    }

    /// For how many more sets there is room.
    pub(crate) fn room(&self) -> usize
        ensures { result ≡ self.now.room }
    {
        match &self.kept {
            Kept::Empty => 1,
            Kept::Single { .. } => 0,
            Kept::Many(sets) => sets.room(),
        }
    }

    /// Makes room for one more set if there is none. Values are then hashed by this seed.
    pub(crate) fn reserve(&mut self, alloc: Global, seed: Seed) -> Result<(), NoMemory>
        requires laws { IsEquality V.eq }
        ensures room { OnOk result (0 < self.new.room) }
        ensures sets { self.new.sets ≡ self.old.sets }
        ensures err { OnErr result (self.new ≡ self.old) }
    {
        let kept = &mut self.kept;
        match kept {
            Kept::Empty => Ok(()),
            Kept::Single { .. } => spread(kept, alloc, seed),
            Kept::Many(sets) => sets.reserve(),
        }
    }

    /// Adds a set if there is room for it. It takes no memory.
    pub(crate) fn push(&mut self, version: u64, value: Arc<V>)
        requires laws { IsEquality V.eq }
        requires room { 0 < self.old.room }
        ensures sets { self.new.sets ≡ self.old.sets ++ (version, arc_value value) ∷ [] }
        ensures used { self.new.room ≡ self.old.room - 1 }
    {
        let kept = &mut self.kept;
        match kept {
            Kept::Empty => *kept = Kept::Single { version, value },
            Kept::Single { .. } => unreachable!(),
            Kept::Many(sets) => sets.push(version, value),
        }
    }

    /// The value of the last set at or below the version, otherwise the absent one.
    pub(crate) fn at<'a>(&'a self, absent: &'a Arc<V>, version: u64) -> &'a Arc<V>
        requires { IsRising self.now.sets }
        ensures { arc_value result.now ≡ value_at (arc_value absent.now) self.now.sets version }
    {
        match &self.kept {
            Kept::Empty => absent,
            Kept::Single {
                version: set,
                value,
            } => { if *set <= version { value } else { absent } }
            Kept::Many(sets) => sets.at(absent, version),
        }
    }

    /// The value of the last set, otherwise the absent one.
    pub(crate) fn newest<'a>(&'a self, absent: &'a Arc<V>) -> &'a Arc<V>
        ensures { arc_value result.now ≡ newest_of (arc_value absent.now) self.now.sets }
    {
        match &self.kept {
            Kept::Empty => absent,
            Kept::Single { value, .. } => value,
            Kept::Many(sets) => sets.newest(absent),
        }
    }

    /// The versions round this one up to which the value stays as it is there: a binary search, and
    /// a walk over the neighbouring sets to the same value.
    pub(crate) fn range_round(
        &self,
        alloc: Global,
        absent: &Arc<V>,
        version: u64,
    ) -> Result<Ranges, NoMemory>
        requires laws { IsEquality V.eq }
        requires rising { IsRising self.now.sets }
        ensures { IfOk result (λ r. (w : ℕ)
            → contains r w ≡ stays V.eq (value_at (arc_value absent.now) self.now.sets) version w) }
    {
        match &self.kept {
            Kept::Empty => always(alloc),
            Kept::Single {
                version: set,
                value,
            } => { one_range(alloc, side_of(absent, *set, value, version)) }
            Kept::Many(sets) => sets.range_round(alloc, absent, version),
        }
    }

    /// The versions at which the value is the wanted one: one look-up of its number, and then a
    /// walk over the numbers.
    pub(crate) fn ranges_with(
        &self,
        alloc: Global,
        absent: &Arc<V>,
        wanted: &Arc<V>,
    ) -> Result<Ranges, NoMemory>
        requires laws { IsEquality V.eq }
        requires rising { IsRising self.now.sets }
        ensures members { IfOk result (λ r. (w : ℕ)
            → contains r w
            ≡ V.eq (value_at (arc_value absent.now) self.now.sets w) (arc_value wanted.now)) }
        ensures tail { IfOk result (λ r. is_open r
            ≡ V.eq (newest_of (arc_value absent.now) self.now.sets) (arc_value wanted.now)) }
    {
        match &self.kept {
            Kept::Empty => versions_of(alloc, **absent == **wanted, &[], None),
            Kept::Single { version, value } => {
                single_with(alloc, absent, *version, value, wanted)
            }
            Kept::Many(sets) => sets.ranges_with(alloc, absent, wanted),
        }
    }
}

/// The versions on this one's side of the only set, or all if the set changes nothing.
fn side_of<V: Eq + Hash>(absent: &Arc<V>, set: u64, value: &Arc<V>, version: u64) -> Range
    requires laws { IsEquality V.eq }
    ensures ends { ForSome result.to (λ t. result.from < t) }
    ensures members { (w : ℕ)
        → is_in result w
        ≡ stays V.eq (value_at (arc_value absent.now) ((set, arc_value value.now) ∷ [])) version w }
{
    if **absent == **value {
        return Range { from: 0, to: None };
    }
    if version < set {
        return Range {
            from: 0,
            to: Some(set),
        };
    }
    Range {
        from: set,
        to: None,
    }
}

/// The number of the only value, if it is meant.
fn number_if(meant: bool) -> Option<usize>
    ensures { result ≡ (if meant then Some 0 else None) }
{
    if meant { Some(0) } else { None }
}

/// The versions at which the value is the wanted one, if this is the only set.
fn single_with<V: Eq + Hash>(
    alloc: Global,
    absent: &Arc<V>,
    set: u64,
    value: &Arc<V>,
    wanted: &Arc<V>,
) -> Result<Ranges, NoMemory>
    requires laws { IsEquality V.eq }
    ensures members { IfOk result (λ r. (w : ℕ)
        → contains r w
        ≡ V.eq (value_at (arc_value absent.now) ((set, arc_value value.now) ∷ []) w)
        (arc_value wanted.now)) }
    ensures tail { IfOk result
        (λ r. is_open r ≡ V.eq (arc_value value.now) (arc_value wanted.now)) }
{
    let first = **absent == **wanted;
    let number = number_if(**value == **wanted);
    versions_of(alloc, first, &[(set, 0)], number)
}

/// Moves the only set to many, with room for one more.
fn spread<V: Eq + Hash + Drop>(
    kept: &mut Kept<V>,
    alloc: Global,
    seed: Seed,
) -> Result<(), NoMemory>
    requires laws { IsEquality V.eq }
    requires single { IsSingle kept.old }
    ensures room { OnOk result (0 < (cell_in kept.new).room) }
    ensures sets { (cell_in kept.new).sets ≡ (cell_in kept.old).sets }
    ensures err { OnErr result (kept.new ≡ kept.old) }
{
    let sets = Sets::with_room(alloc, seed)?;
    let mut sets = Box::new(alloc, sets)?;
    let (version, value) = take_single(kept);
    sets.push(version, value);
    *kept = Kept::Many(sets);
    Ok(())
}

/// Takes the only set out.
fn take_single<V: Eq + Hash + Drop>(kept: &mut Kept<V>) -> (u64, Arc<V>)
    requires single { IsSingle kept.old }
    ensures set { (cell_in kept.old).sets ≡ (result.0, arc_value result.1) ∷ [] }
{
    match mem::replace(kept, Kept::Empty) {
        Kept::Single { version, value } => (version, value),
        Kept::Empty => unreachable!(),
        Kept::Many(_sets) => unreachable!(),
    }
}
