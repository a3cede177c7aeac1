//! The map, and its calls.
ghost use Rattle.std.specs.Prelude.{◌≡◌, ◌+◌, ◌<◌, ◌≤◌, ◌++◌, ◌∷◌, ◌↔◌, nat_eq, ℕ, [], true, false, None, Some, length, is_some, if◌then◌else◌, IsTrue, IsOk, IsSome, IfSome, IfOk, OnOk, OnErr};
ghost use Rattle.std.specs.List.{IsDistinct};
ghost use Rattle.std.specs.Map.{lookup, keys_of, values_of};
ghost use Rattle.std.specs.Option.{option_to_list};
ghost use Rattle.small_map.specs.SmallMap.{Updates};
ghost use Rattle.small_map.specs.Kept.{entries_of, AreApart, IsFew, IsSingle, IsSpread};
ghost use Rattle.small_map.specs.declared.map.Kept.TheVariants.{Empty};

use crate::many::Many;
use std::alloc::{AllocError, Global};
use std::marker::Model;
use std::sync::Arc;
use std::{mem, slice};

/// A map from numbers to shared values. A single entry lies in the map itself and takes no memory;
/// two lie in one block of memory, and more in a hash map. A call takes constant time, but for
/// growth.
#[derive(Drop)]
pub struct SmallMap<T: Drop> {
    kept: Kept<T>,
    alloc: Global,
}

#[derive(Drop)]
enum Kept<T: Drop> {
    Empty,
    Single { number: usize, value: Arc<T> },
    Many(Many<T>),
}

impl<T: Drop> Model for SmallMap<T> {
    ghost use Rattle.std.specs.Global.{Global};
    ghost use Rattle.std.specs.declared.sync.Arc.{Arc};
    ghost use Rattle.small_map.specs.SmallMap.{SmallMap as Entries};
    ghost use Rattle.small_map.specs.Kept.{entries_of, room_of, AreApart};

    ghost Value = { Entries (Arc T Global) };

    ghost view = { λ m. record { entries = entries_of m.kept; room = room_of m.kept } };

    ghost invariant = { λ m. AreApart m.kept };
}

impl<T: Drop> SmallMap<T> {
    /// A map without entries. It takes no memory.
    #[tactic(auto, using(crate::proofs::Apart::none_apart))]
    pub fn new(alloc: Global) -> SmallMap<T>
        ensures entries { result.entries ≡ [] }
        ensures room { result.room ≡ 1 }
    {
        SmallMap {
            kept: Kept::Empty,
            alloc,
        }
    }

    /// The numbers, in the order of the entries.
    #[tactic(auto, using(crate::proofs::Apart::none_apart, crate::proofs::Apart::one_apart))]
    pub fn numbers(&self) -> &[usize]
        ensures numbers { result.now ≡ keys_of self.now.entries }
        ensures distinct { IsDistinct nat_eq (keys_of self.now.entries) }
    {
        match &self.kept {
            Kept::Empty => &[],
            Kept::Single { number, .. } => slice::from_ref(number),
            Kept::Many(many) => many.numbers(),
        }
    }

    /// The values, in the order of the entries.
    pub fn values(&self) -> &[Arc<T>]
        ensures { result.now ≡ values_of self.now.entries }
    {
        match &self.kept {
            Kept::Empty => &[],
            Kept::Single { value, .. } => slice::from_ref(value),
            Kept::Many(many) => many.values(),
        }
    }

    /// The number of entries.
    pub fn len(&self) -> usize
        ensures { result ≡ length self.now.entries }
    {
        self.values().len()
    }

    /// Whether there are no entries.
    pub fn is_empty(&self) -> bool
        ensures { IsTrue result ↔ (length self.now.entries ≡ 0) }
    {
        self.len() == 0
    }

    fn room(&self) -> usize
        ensures { result ≡ self.now.room }
    {
        match &self.kept {
            Kept::Empty => 1,
            Kept::Single { .. } => 0,
            Kept::Many(many) => many.room(),
        }
    }

    /// Makes room for this many more numbers, so that as many inserts need no memory.
    #[tactic(auto, using(crate::proofs::Apart::none_apart, crate::proofs::Apart::one_apart))]
    pub fn reserve(&mut self, additional: usize) -> Result<(), AllocError>
        ensures entries { self.new.entries ≡ self.old.entries }
        ensures ok { OnOk result (additional ≤ self.new.room) }
        ensures succeeds { additional ≤ self.old.room → IsOk result }
        ensures room { self.old.room ≤ self.new.room }
    {
        if additional <= self.room() {
            return Ok(());
        }
        let alloc = self.alloc;
        let kept = &mut self.kept;
        match kept {
            Kept::Many(many) => many.reserve(additional),
            _ => spread(kept, alloc, additional),
        }
    }

    /// Puts a value to a number, and gives the value that was there. With room it needs no memory;
    /// at an error nothing changes, and the value is dropped.
    #[tactic(auto, using(crate::proofs::Apart::none_apart, crate::proofs::Apart::one_apart))]
    pub fn insert(&mut self, number: usize, value: Arc<T>) -> Result<Option<Arc<T>>, AllocError>
        ensures old { IfOk result (λ old. old ≡ lookup (nat_eq number) self.old.entries) }
        ensures updates { OnOk result
            (Updates self.old.entries self.new.entries number (Some value)) }
        ensures len { IfOk result (λ old. length self.new.entries
            ≡ length self.old.entries + (if is_some old then 0 else 1)) }
        ensures err { OnErr result (self.new.entries ≡ self.old.entries) }
        ensures absent { OnErr result (lookup (nat_eq number) self.old.entries ≡ None) }
        ensures succeeds { 0 < self.old.room → IsOk result }
        ensures room { self.old.room ≤ self.new.room + 1 }
        ensures distinct { IsDistinct nat_eq (keys_of self.new.entries) }
    {
        let alloc = self.alloc;
        let kept = &mut self.kept;
        match kept {
            Kept::Empty => {
                *kept = single(number, value);
                Ok(None)
            }
            Kept::Single { number: there, .. } => {
                if *there == number {
                    let (_, old) = take_single(kept);
                    *kept = single(number, value);
                    return Ok(Some(old));
                }
                insert_beside(kept, alloc, number, value)
            }
            Kept::Many(many) => many.insert(number, value),
        }
    }

    /// Takes a number out, and gives its value. The order of the others may change.
    #[tactic(auto, using(crate::proofs::Apart::none_apart, crate::proofs::Apart::one_apart))]
    pub fn swap_remove(&mut self, number: usize) -> Option<Arc<T>>
        ensures value { result ≡ lookup (nat_eq number) self.old.entries }
        ensures updates { Updates self.old.entries self.new.entries number None }
        ensures len { length self.new.entries + (if is_some result then 1 else 0)
            ≡ length self.old.entries }
        ensures room { self.old.room ≤ self.new.room }
        ensures distinct { IsDistinct nat_eq (keys_of self.new.entries) }
    {
        let kept = &mut self.kept;
        match kept {
            Kept::Empty => None,
            Kept::Single { number: there, .. } => {
                if *there != number {
                    return None;
                }
                let (_, value) = take_single(kept);
                Some(value)
            }
            Kept::Many(many) => many.swap_remove(number),
        }
    }

    /// Takes the last entry out.
    #[tactic(auto, using(crate::proofs::Apart::none_apart, crate::proofs::Apart::one_apart))]
    pub fn pop(&mut self) -> Option<(usize, Arc<T>)>
        ensures entries { self.old.entries ≡ self.new.entries ++ option_to_list result }
        ensures found { IsSome result ↔ (0 < length self.old.entries) }
        ensures updates { IfSome result
            (λ e. Updates self.old.entries self.new.entries e.0 None) }
        ensures len { length self.new.entries + (if is_some result then 1 else 0)
            ≡ length self.old.entries }
        ensures room { self.old.room ≤ self.new.room }
        ensures distinct { IsDistinct nat_eq (keys_of self.new.entries) }
    {
        let kept = &mut self.kept;
        match kept {
            Kept::Empty => None,
            Kept::Single { .. } => Some(take_single(kept)),
            Kept::Many(many) => many.pop(),
        }
    }
}

/// Puts the entry, if there is one, into a `Many` with room for this many more numbers.
fn spread<T: Drop>(kept: &mut Kept<T>, alloc: Global, additional: usize) -> Result<(), AllocError>
    requires few { IsFew kept.old }
    ensures ok { OnOk result (IsSpread (entries_of kept.old) additional kept.new) }
    ensures err { OnErr result (kept.new ≡ kept.old) }
{
    let wanted = additional.checked_add(count(kept)).ok_or(AllocError)?;
    let mut many = Many::with_room(alloc, wanted)?;
    if is_single(kept) {
        let (number, value) = take_single(kept);
        many.insert(number, value).unwrap();
    }
    *kept = Kept::Many(many);
    Ok(())
}

/// Puts a value to a number beside the single entry, which is another number's.
fn insert_beside<T: Drop>(
    kept: &mut Kept<T>,
    alloc: Global,
    number: usize,
    value: Arc<T>,
) -> Result<Option<Arc<T>>, AllocError>
    requires few { IsFew kept.old }
    requires apart { AreApart kept.old }
    requires absent { lookup (nat_eq number) (entries_of kept.old) ≡ None }
    ensures apart { AreApart kept.new }
    ensures old { IfOk result (λ old. old ≡ None) }
    ensures updates { OnOk result
        (Updates (entries_of kept.old) (entries_of kept.new) number (Some value)) }
    ensures len { OnOk result (length (entries_of kept.new) ≡ length (entries_of kept.old) + 1) }
    ensures err { OnErr result (entries_of kept.new ≡ entries_of kept.old) }
{
    spread(kept, alloc, 1)?;
    match kept {
        Kept::Many(many) => many.insert(number, value),
        _ => unreachable!(),
    }
}

/// How many entries are there: none or one.
fn count<T: Drop>(kept: &Kept<T>) -> usize
    requires few { IsFew kept.now }
    ensures { result ≡ length (entries_of kept.now) }
{
    match kept {
        Kept::Empty => 0,
        Kept::Single { .. } => 1,
        Kept::Many(_) => unreachable!(),
    }
}

fn single<T: Drop>(number: usize, value: Arc<T>) -> Kept<T>
    ensures single { IsSingle result }
    ensures entry { entries_of result ≡ (number, value) ∷ [] }
{
    Kept::Single { number, value }
}

fn is_single<T: Drop>(kept: &Kept<T>) -> bool
    ensures yes { result ≡ true → IsSingle kept.now }
    ensures no { result ≡ false → IsFew kept.now → entries_of kept.now ≡ [] }
{
    matches!(kept, Kept::Single { .. })
}

/// Takes the single entry out.
fn take_single<T: Drop>(kept: &mut Kept<T>) -> (usize, Arc<T>)
    requires single { IsSingle kept.old }
    ensures empty { kept.new ≡ Empty }
    ensures entry { entries_of kept.old ≡ result ∷ [] }
{
    let taken = mem::replace(kept, Kept::Empty);
    match taken {
        Kept::Single { number, value } => (number, value),
        Kept::Empty => unreachable!(),
        Kept::Many(_many) => unreachable!(),
    }
}
