//! A set of numbers, most often none or one.
ghost use Rattle.std.specs.Prelude.{◌≡◌, ◌+◌, ◌<◌, ◌≤◌, ◌==◌, nat_eq, ℕ, [], ◌∷◌, true, false, length, is_some, if◌then◌else◌, IsOk, IfSome, IfNone, IfOk, OnOk, OnErr};
ghost use Rattle.std.specs.List.{list_any, IsDistinct};
ghost use Rattle.indexmap.specs.IndexSet.{spare};
ghost use Rattle.small_set.specs.Numbers.{Changes};
ghost use Rattle.small_set.specs.NumbersKept.{keys_in, room_in, AreApart};

use indexmap::IndexSet;
use std::alloc::{AllocError, Global};
use std::marker::Model;
use std::slice;

/// A set of numbers. A single one lies in the set itself and takes no memory; more lie in a hash
/// set. A call takes constant time, but for growth.
#[derive(Drop)]
pub struct NumberSet {
    kept: Kept,
    alloc: Global,
}

#[derive(Drop)]
enum Kept {
    Empty,
    Single(u64),
    Many(Box<IndexSet<u64>>),
}

impl Model for NumberSet {
    ghost use Rattle.small_set.specs.Numbers.{Numbers};
    ghost use Rattle.small_set.specs.NumbersKept.{keys_in, room_in, AreApart};

    ghost Value = { Numbers };

    ghost view = { λ s. record { keys = keys_in s.kept; room = room_in s.kept } };

    ghost invariant = { λ s. AreApart s.kept };
}

impl NumberSet {
    /// None yet. It takes no memory.
    #[tactic(auto, using(crate::proofs::Apart::none_apart))]
    pub fn new(alloc: Global) -> NumberSet
        ensures keys { result.keys ≡ [] }
    {
        NumberSet {
            kept: Kept::Empty,
            alloc,
        }
    }

    /// The numbers. None stands twice.
    #[tactic(auto, using(crate::proofs::Apart::none_apart, crate::proofs::Apart::one_apart))]
    pub fn as_slice(&self) -> &[u64]
        ensures keys { result.now ≡ self.now.keys }
        ensures distinct { IsDistinct nat_eq self.now.keys }
    {
        match &self.kept {
            Kept::Empty => &[],
            Kept::Single(number) => slice::from_ref(number),
            Kept::Many(set) => set.as_slice(),
        }
    }

    /// Whether there is none.
    pub fn is_empty(&self) -> bool
        ensures { result ≡ (length self.now.keys == 0) }
    {
        self.as_slice().is_empty()
    }

    fn room(&self) -> usize
        ensures { result ≡ self.now.room }
    {
        match &self.kept {
            Kept::Empty => 1,
            Kept::Single(_) => 0,
            Kept::Many(set) => set.capacity() - set.len(),
        }
    }

    /// Makes room for one more number, so that an insert needs no memory.
    #[tactic(auto, using(crate::proofs::Apart::none_apart, crate::proofs::Apart::one_apart))]
    pub fn reserve(&mut self) -> Result<(), AllocError>
        ensures keys { self.new.keys ≡ self.old.keys }
        ensures ok { OnOk result (0 < self.new.room) }
        ensures room { self.old.room ≤ self.new.room }
    {
        let alloc = self.alloc;
        match &mut self.kept {
            Kept::Empty => Ok(()),
            Kept::Single(number) => {
                self.kept = Kept::Many(beside(alloc, *number)?);
                Ok(())
            }
            Kept::Many(set) => set.reserve(1),
        }
    }

    /// Adds a number, and tells whether it is new. With room it needs no memory; at an error
    /// nothing changes.
    #[tactic(auto, using(crate::proofs::Apart::none_apart, crate::proofs::Apart::one_apart))]
    pub fn insert(&mut self, number: u64) -> Result<bool, AllocError>
        ensures updates { OnOk result (Changes self.old.keys self.new.keys number true) }
        ensures err { OnErr result (self.new.keys ≡ self.old.keys) }
        ensures absent { OnErr result (list_any (nat_eq number) self.old.keys ≡ false) }
        ensures succeeds { 0 < self.old.room → IsOk result }
        ensures room { self.old.room ≤ self.new.room + 1 }
    {
        let alloc = self.alloc;
        match &mut self.kept {
            Kept::Empty => {
                self.kept = Kept::Single(number);
                Ok(true)
            }
            Kept::Single(there) => {
                if *there == number {
                    return Ok(false);
                }
                let mut set = beside(alloc, *there)?;
                let _ = set.insert(number);
                self.kept = Kept::Many(set);
                Ok(true)
            }
            Kept::Many(set) => Ok(set.insert(number)?),
        }
    }

    /// Takes a number out, and tells whether it was there. The order of the others may change.
    #[tactic(auto, using(crate::proofs::Apart::none_apart, crate::proofs::Apart::one_apart))]
    pub fn swap_remove(&mut self, number: u64) -> bool
        ensures found { result ≡ list_any (nat_eq number) self.old.keys }
        ensures updates { Changes self.old.keys self.new.keys number false }
        ensures room { self.old.room ≤ self.new.room }
    {
        match &mut self.kept {
            Kept::Empty => false,
            Kept::Single(there) => {
                if *there != number {
                    return false;
                }
                self.kept = Kept::Empty;
                true
            }
            Kept::Many(set) => set.swap_remove(&number),
        }
    }
}

/// A hash set of one number, with room for more.
fn beside(alloc: Global, number: u64) -> Result<Box<IndexSet<u64>>, AllocError>
    ensures keys { IfOk result (λ s. s.value.keys ≡ number ∷ []) }
    ensures room { IfOk result (λ s. 0 < spare s.value) }
{
    let mut set = Box::new(alloc, IndexSet::with_capacity(alloc, 2)?)?;
    if set.insert(number).is_err() {
        unreachable!();
    }
    Ok(set)
}
