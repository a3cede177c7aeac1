//! Two entries or more, or room for them.
ghost use Rattle.std.specs.Prelude.{◌≡◌, ◌+◌, ◌<◌, ◌≤◌, ◌++◌, ◌∷◌, ◌↔◌, nat_eq, [], None, Some, length, is_some, if◌then◌else◌, IsOk, IsSome, IfSome, IfOk, OnOk, OnErr};
ghost use Rattle.std.specs.List.{IsDistinct};
ghost use Rattle.std.specs.Map.{lookup, keys_of, values_of};
ghost use Rattle.std.specs.Option.{option_to_list};
ghost use Rattle.indexmap.specs.IndexMap.{spare};
ghost use Rattle.small_map.specs.SmallMap.{Updates};
ghost use Rattle.small_map.specs.Held.{held_entries, IsFew, IsHashed};

use crate::few::{Few, MOST};
use indexmap::IndexMap;
use std::alloc::{AllocError, Global};
use std::marker::Model;
use std::sync::Arc;

/// Entries, or room for them: two lie side by side in one block of memory, more in a hash map.
#[derive(Drop)]
pub struct Many<T: Drop> {
    held: Held<T>,
    alloc: Global,
}

#[derive(Drop)]
enum Held<T: Drop> {
    Few(Box<Few<Arc<T>>>),
    Hashed(Box<IndexMap<usize, Arc<T>>>),
}

impl<T: Drop> Model for Many<T> {
    ghost use Rattle.std.specs.Global.{Global};
    ghost use Rattle.std.specs.declared.sync.Arc.{Arc};
    ghost use Rattle.small_map.specs.SmallMap.{SmallMap as Entries};
    ghost use Rattle.small_map.specs.Held.{held_entries, held_room, AreApart};

    ghost Value = { Entries (Arc T Global) };

    ghost view = { λ m. record { entries = held_entries m.held; room = held_room m.held } };

    ghost invariant = { λ m. AreApart m.held };
}

impl<T: Drop> Many<T> {
    /// No entry, and room for this many.
    pub fn with_room(alloc: Global, wanted: usize) -> Result<Many<T>, AllocError>
        ensures entries { IfOk result (λ m. m.entries ≡ []) }
        ensures room { IfOk result (λ m. wanted ≤ m.room) }
    {
        let held = if wanted <= MOST {
            Held::Few(Box::new(alloc, Few::new())?)
        } else {
            Held::Hashed(Box::new(alloc, IndexMap::with_capacity(alloc, wanted)?)?)
        };
        Ok(Many { held, alloc })
    }

    /// The numbers, in the order of the entries.
    pub fn numbers(&self) -> &[usize]
        ensures numbers { result.now ≡ keys_of self.now.entries }
        ensures distinct { IsDistinct nat_eq (keys_of self.now.entries) }
    {
        match &self.held {
            Held::Few(few) => few.numbers(),
            Held::Hashed(map) => map.keys().as_slice(),
        }
    }

    /// The values, in the order of the entries.
    pub fn values(&self) -> &[Arc<T>]
        ensures { result.now ≡ values_of self.now.entries }
    {
        match &self.held {
            Held::Few(few) => few.values(),
            Held::Hashed(map) => map.values().as_slice(),
        }
    }

    /// How many more numbers fit.
    pub fn room(&self) -> usize
        ensures { result ≡ self.now.room }
    {
        match &self.held {
            Held::Few(few) => MOST - few.len(),
            Held::Hashed(map) => map.capacity() - map.len(),
        }
    }

    /// Makes room for this many more numbers.
    #[inline(never)]
    pub fn reserve(&mut self, additional: usize) -> Result<(), AllocError>
        ensures entries { self.new.entries ≡ self.old.entries }
        ensures ok { OnOk result (additional ≤ self.new.room) }
        ensures succeeds { additional ≤ self.old.room → IsOk result }
        ensures room { self.old.room ≤ self.new.room }
        ensures distinct { IsDistinct nat_eq (keys_of self.new.entries) }
    {
        if additional <= self.room() {
            return Ok(());
        }
        let alloc = self.alloc;
        let held = &mut self.held;
        match held {
            Held::Few(_) => hash(held, alloc, additional),
            Held::Hashed(map) => map.reserve(additional),
        }
    }

    /// Puts a value to a number, and gives the value that was there.
    #[inline(never)]
    pub fn insert(&mut self, number: usize, value: Arc<T>) -> Result<Option<Arc<T>>, AllocError>
        ensures old { IfOk result (λ old. old ≡ lookup (nat_eq number) self.old.entries) }
        ensures updates { OnOk result
            (Updates self.old.entries self.new.entries number (Some value)) }
        ensures first { OnOk result
            (self.old.entries ≡ [] → self.new.entries ≡ (number, value) ∷ []) }
        ensures len { IfOk result (λ old. length self.new.entries
            ≡ length self.old.entries + (if is_some old then 0 else 1)) }
        ensures err { OnErr result (self.new.entries ≡ self.old.entries) }
        ensures absent { OnErr result (lookup (nat_eq number) self.old.entries ≡ None) }
        ensures succeeds { 0 < self.old.room → IsOk result }
        ensures room { self.old.room ≤ self.new.room + 1 }
        ensures distinct { IsDistinct nat_eq (keys_of self.new.entries) }
    {
        let alloc = self.alloc;
        let held = &mut self.held;
        match held {
            Held::Few(few) => {
                let old = few.remove(number);
                if few.len() < MOST {
                    few.push(number, value);
                    return Ok(old);
                }
                hash(held, alloc, 1)?;
            }
            Held::Hashed(_) => {}
        }
        match held {
            Held::Few(_) => unreachable!(),
            Held::Hashed(map) => Ok(map.insert(number, value)?),
        }
    }

    /// Takes a number out, and gives its value. The order of the others may change.
    #[inline(never)]
    pub fn swap_remove(&mut self, number: usize) -> Option<Arc<T>>
        ensures value { result ≡ lookup (nat_eq number) self.old.entries }
        ensures updates { Updates self.old.entries self.new.entries number None }
        ensures len { length self.new.entries + (if is_some result then 1 else 0)
            ≡ length self.old.entries }
        ensures room { self.old.room ≤ self.new.room }
        ensures distinct { IsDistinct nat_eq (keys_of self.new.entries) }
    {
        match &mut self.held {
            Held::Few(few) => few.remove(number),
            Held::Hashed(map) => map.swap_remove(&number),
        }
    }

    /// Takes the last entry out.
    #[inline(never)]
    pub fn pop(&mut self) -> Option<(usize, Arc<T>)>
        ensures entries { self.old.entries ≡ self.new.entries ++ option_to_list result }
        ensures found { IsSome result ↔ (0 < length self.old.entries) }
        ensures updates { IfSome result
            (λ e. Updates self.old.entries self.new.entries e.0 None) }
        ensures len { length self.new.entries + (if is_some result then 1 else 0)
            ≡ length self.old.entries }
        ensures room { self.old.room ≤ self.new.room }
        ensures distinct { IsDistinct nat_eq (keys_of self.new.entries) }
    {
        match &mut self.held {
            Held::Few(few) => few.pop(),
            Held::Hashed(map) => map.pop(),
        }
    }
}

/// Puts the entries into a hash map with room for this many more numbers.
fn hash<T: Drop>(held: &mut Held<T>, alloc: Global, additional: usize) -> Result<(), AllocError>
    requires few { IsFew held.old }
    requires most { length (held_entries held.old) ≤ 2 }
    ensures ok { OnOk result (IsHashed (held_entries held.old) additional held.new) }
    ensures err { OnErr result (held.new ≡ held.old) }
{
    let wanted = additional.checked_add(MOST).ok_or(AllocError)?;
    let mut map = Box::new(alloc, IndexMap::with_capacity(alloc, wanted)?)?;
    match held {
        Held::Few(few) => fill(&mut map, few),
        Held::Hashed(_) => unreachable!(),
    }
    *held = Held::Hashed(map);
    Ok(())
}

/// Moves the entries into an empty hash map that has room for them.
fn fill<T: Drop>(map: &mut IndexMap<usize, Arc<T>>, few: &mut Few<Arc<T>>)
    requires empty { map.old.entries ≡ [] }
    requires room { length few.old ≤ spare map.old }
    ensures entries { map.new.entries ≡ few.old }
    ensures room { spare map.old ≤ spare map.new + length few.old }
{
    if let Some((number, value)) = few.pop() {
        fill(map, few);
        map.insert(number, value).unwrap();
    }
}
