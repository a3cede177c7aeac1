//! The set.
ghost use Rattle.std.specs.Prelude.{◌≡◌, ◌+◌, ◌≤◌, ◌==◌, true, not, [], ◌∷◌, ◌++◌, length, if◌then◌else◌, IfOk, OnOk, OnErr};
ghost use Rattle.std.specs.List.{list_any, IsDistinct};
ghost use Rattle.indexmap.specs.IndexSet.{spare, insert_all, insert_key};
ghost use Rattle.small_set.specs.Members.{members_in, AreFew, IsSingle};

use hash_seed::Seed;
use indexmap::IndexSet;
use std::alloc::{AllocError, Global};
use std::hash::Hash;
use std::marker::Model;
use std::mem::replace;

/// How many members a list keeps at most.
const FEW: usize = 8;

/// A set that keeps a single member in place, up to eight members in a list, and more in a hash
/// set. They stay in the order in which they came.
pub struct SmallSet<T: Eq + Hash> {
    alloc: Global,
    seed: Seed,
    members: Members<T>,
}

/// The members of a set, each once.
#[derive(Drop)]
enum Members<T: Eq + Hash> {
    Single([T; 1]),
    Few(Vec<T>),
    Many(Box<IndexSet<T, Seed>>),
}

// (One function for all places that drop one: a derived drop is written out at each.)
impl<T: Eq + Hash + Drop> Drop for SmallSet<T> {
    fn drop(self) {
        let SmallSet {
            alloc: _,
            seed: _,
            members: _members,
        } = self;
    }
}

impl<T: Eq + Hash> Model for SmallSet<T> {
    ghost use Rattle.std.specs.Prelude.{List};

    ghost Value = { List T };

    ghost use Rattle.small_set.specs.Members.{members_in, AreKept};

    ghost view = { λ s. members_in s.members };

    ghost invariant = { λ s. AreKept T.eq s.members };
}

impl<T: Eq + Hash> SmallSet<T> {
    /// None yet. A hash set of many members hashes them by this seed. It takes no memory.
    #[tactic(auto, using(crate::proofs::Distinct::distinct_none))]
    pub fn new(alloc: Global, seed: Seed) -> SmallSet<T>
        ensures { result ≡ [] }
    {
        SmallSet {
            alloc,
            seed,
            members: Members::Few(Vec::new(alloc)),
        }
    }

    /// The members, in the order in which they came. No two are equal.
    pub fn as_slice(&self) -> &[T]
        ensures members { result.now ≡ self.now }
        ensures distinct { IsDistinct T.eq self.now }
    {
        match &self.members {
            Members::Single(one) => one.as_slice(),
            Members::Few(list) => list.as_slice(),
            Members::Many(set) => set.as_slice(),
        }
    }

    /// How many members there are.
    pub fn len(&self) -> usize
        ensures { result ≡ length self.now }
    {
        self.as_slice().len()
    }

    /// Whether there is no member.
    pub fn is_empty(&self) -> bool
        ensures { result ≡ (length self.now == 0) }
    {
        self.len() == 0
    }

    /// Whether a member is equal to a value.
    pub fn contains(&self, value: &T) -> bool
        ensures { result ≡ list_any (T.eq value.now) self.now }
    {
        match &self.members {
            Members::Single(one) => is_among(one, value),
            Members::Few(list) => is_among(list, value),
            Members::Many(set) => set.contains(value),
        }
    }
}

impl<T: Eq + Hash + Drop> SmallSet<T> {
    /// Adds a value as the last member, and tells `true`; if a member is equal to it, all stays,
    /// and it tells `false`. At an error all is as before.
    pub fn insert(&mut self, value: T) -> Result<bool, AllocError>
        ensures added { IfOk result (λ added. added ≡ not (list_any (T.eq value) self.old)) }
        ensures ok { OnOk result (self.new
            ≡ (if list_any (T.eq value) self.old then self.old else self.old ++ value ∷ [])) }
        ensures updates { OnOk result ((q : T) → list_any (T.eq q) self.new
            ≡ (if T.eq value q then true else list_any (T.eq q) self.old)) }
        ensures err { OnErr result (self.new ≡ self.old) }
    {
        match &mut self.members {
            Members::Single(_) => {
                if self.contains(&value) {
                    Ok(false)
                } else {
                    put_beside(self.alloc, &mut self.members, value)?;
                    Ok(true)
                }
            }
            Members::Few(list) => {
                if is_among(list, &value) {
                    return Ok(false);
                }
                if list.capacity() == 0 {
                    self.members = Members::Single([value]);
                    return Ok(true);
                }
                if list.len() < FEW {
                    list.push(value)?;
                    return Ok(true);
                }
                self.members = Members::Many(many(self.alloc, self.seed, list, value)?);
                Ok(true)
            }
            Members::Many(set) => Ok(set.insert(value)?),
        }
    }

    /// Takes all members away. It takes no memory, and what a hash set took is given back.
    #[tactic(auto, using(crate::proofs::Distinct::distinct_none))]
    pub fn clear(&mut self)
        ensures { self.new ≡ [] }
    {
        match &mut self.members {
            Members::Few(list) => list.clear(),
            _ => self.members = Members::Few(Vec::new(self.alloc)),
        }
    }
}

/// Puts the single member and a value into a list. At an error all is as before.
fn put_beside<T: Eq + Hash + Drop>(
    alloc: Global,
    members: &mut Members<T>,
    value: T,
) -> Result<(), AllocError>
    requires { IsSingle members.old }
    ensures ok { OnOk result (members_in members.new ≡ members_in members.old ++ value ∷ []) }
    ensures few { OnOk result (AreFew members.new) }
    ensures err { OnErr result (members.new ≡ members.old) }
{
    let mut list = Vec::with_capacity(alloc, 4)?;
    list.push_reserved(take_single(members, alloc));
    list.push_reserved(value);
    *members = Members::Few(list);
    Ok(())
}

/// Takes the single member out.
fn take_single<T: Eq + Hash + Drop>(members: &mut Members<T>, alloc: Global) -> T
    requires { IsSingle members.old }
    ensures { members_in members.old ≡ result ∷ [] }
{
    match replace(members, Members::Few(Vec::new(alloc))) {
        Members::Single([member]) => member,
        Members::Few(_list) => unreachable!(),
        Members::Many(_set) => unreachable!(),
    }
}

/// Whether one of a list is equal to a value.
fn is_among<T: Eq>(list: &[T], value: &T) -> bool
    ensures { result ≡ list_any (T.eq value.now) list.now }
{
    for member in list {
        if *value == *member {
            return true;
        }
    }
    false
}

/// A hash set of the members of a list, which it takes, and then a value. At an error the list is
/// as before.
fn many<T: Eq + Hash + Drop>(
    alloc: Global,
    seed: Seed,
    list: &mut Vec<T>,
    value: T,
) -> Result<Box<IndexSet<T, Seed>>, AllocError>
    requires { length list.old.items ≤ 8 }
    ensures ok { IfOk result (λ set. set.value.keys
        ≡ insert_key T.eq (insert_all T.eq [] list.old.items) value) }
    ensures err { OnErr result (list.new ≡ list.old) }
{
    let set = IndexSet::with_capacity_and_hasher(alloc, 2 * FEW, seed)?;
    let mut set = Box::new(alloc, set)?;
    fill(&mut set, replace(list, Vec::new(alloc)));
    if set.insert(value).is_err() {
        unreachable!();
    }
    Ok(set)
}

/// Inserts all of a list into a hash set that has room for them.
fn fill<T: Eq + Hash + Drop>(set: &mut IndexSet<T, Seed>, list: Vec<T>)
    requires { length list.items ≤ spare set.old }
    ensures keys { set.new.keys ≡ insert_all T.eq set.old.keys list.items }
    ensures room { spare set.old ≤ spare set.new + length list.items }
{
    for member in list {
        if set.insert(member).is_err() {
            unreachable!();
        }
    }
}
