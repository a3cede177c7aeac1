//! The cells of all injected keys.
ghost use Rattle.std.specs.Prelude.{◌≡◌, ℕ, ◌<◌, ◌≤◌, nat_lt, max, false, [], ◌∷◌, ◌++◌, if◌then◌else◌, map, IfOk, OnOk, OnErr, IsOk, IsSome};
ghost use Rattle.std.specs.Arc.{arc_value};
ghost use Rattle.std.specs.Map.{lookup};
ghost use Rattle.std.specs.Option.{option_copied};
ghost use Rattle.dice_key.specs.Lawful.{IsEquality};
ghost use Rattle.version_ranges.specs.Members.{contains, is_open};
ghost use Rattle.injected.specs.History.{AllBelow, IsRising};
ghost use Rattle.injected.specs.Rounds.{stays};
ghost use Rattle.injected.specs.Seen.{named, sets_in, room_in, sets_at, room_at, cell_at, newest_at, Writes};

use crate::history::History;
use crate::sets::always;
use dice_key::{NoMemory, Seed, Universe, laws_of};
use std::alloc::Global;
use std::collections::HashMap;
use std::hash::Hash;
use std::marker::Model;
use std::sync::Arc;
use version_ranges::Ranges;

/// The sets of each injected key, and so its value at each version.
///
/// Contracts see the sets of each key by `sets_at`, the room for more of them by `room_at`, and the
/// greatest version that was set. `cell_at` is the value that the sets make of a version.
pub struct Cells<U: Universe> {
    alloc: Global,
    universe: Arc<U>,
    histories: HashMap<Arc<U::Key>, History<U::Value>, Seed>,
    pub(crate) last: u64,
}

// (One function for all places that drop one: a derived drop is written out at each.)
impl<U: Universe> Drop for Cells<U> {
    fn drop(self) {
        let Cells {
            alloc: _,
            universe: _universe,
            histories: _histories,
            last: _,
        } = self;
    }
}

impl<U: Universe> Model for Cells<U> {
    ghost use Rattle.std.specs.Prelude.{map};
    ghost use Rattle.injected.specs.Seen.{Seen, named, IsInOrder};

    ghost Value = { Seen U.Key U.Value };

    ghost view = { λ a. record { cells = map named a.histories.entries; last = a.last } };

    ghost invariant = { λ a. IsInOrder U.Key.eq
        (record { cells = map named a.histories.entries; last = a.last }) };
}

impl<U: Universe> Cells<U> {
    /// Nothing was set yet. It takes no memory.
    pub fn new(alloc: Global, universe: Arc<U>) -> Cells<U>
        ensures sets { (k : U.Key) → sets_at U.Key.eq result k ≡ [] }
        ensures last { result.last ≡ 0 }
    {
        let histories = HashMap::with_hasher(alloc, universe.seed());
        Cells {
            alloc,
            universe,
            histories,
            last: 0,
        }
    }

    /// Makes room for one more set of the key, and changes nothing else.
    pub fn reserve(&mut self, key: Arc<U::Key>) -> Result<(), NoMemory>
        ensures ok { OnOk result (0 < room_at U.Key.eq self.new (arc_value key)) }
        ensures sets { (k : U.Key) → sets_at U.Key.eq self.new k ≡ sets_at U.Key.eq self.old k }
        ensures last { self.new.last ≡ self.old.last }
        ensures others { (k : U.Key) → U.Key.eq (arc_value key) k ≡ false
            → room_at U.Key.eq self.new k ≡ room_at U.Key.eq self.old k }
        ensures err { OnErr result
            ((k : U.Key) → room_at U.Key.eq self.new k ≡ room_at U.Key.eq self.old k) }
    {
        laws_of::<U>();
        make_room(self.alloc, &mut self.histories, key)
    }

    /// Sets the key's value from a version on; the versions of one key rise.
    ///
    /// If there is room for a set of the key, it is Ok and takes no memory.
    pub fn set(
        &mut self,
        version: u64,
        key: Arc<U::Key>,
        value: Arc<U::Value>,
    ) -> Result<(), NoMemory>
        requires { AllBelow (sets_at U.Key.eq self.old (arc_value key)) version }
        ensures reserved { 0 < room_at U.Key.eq self.old (arc_value key) → IsOk result }
        ensures sets { OnOk result ((k : U.Key)
            → sets_at U.Key.eq self.new k
            ≡ (if U.Key.eq (arc_value key) k
            then sets_at U.Key.eq self.old k ++ (version, arc_value value) ∷ []
            else sets_at U.Key.eq self.old k)) }
        ensures last { OnOk result (self.new.last ≡ max self.old.last version) }
        ensures others { (k : U.Key) → U.Key.eq (arc_value key) k ≡ false
            → room_at U.Key.eq self.new k ≡ room_at U.Key.eq self.old k }
        ensures err { OnErr result
            ((k : U.Key) → sets_at U.Key.eq self.new k ≡ sets_at U.Key.eq self.old k) }
        ensures err_room { OnErr result
            ((k : U.Key) → room_at U.Key.eq self.new k ≡ room_at U.Key.eq self.old k) }
        ensures err_last { OnErr result (self.new.last ≡ self.old.last) }
    {
        if !self.has_room(&key) {
            self.reserve(Arc::try_clone(&key)?)?;
        }
        self.write(version, &key, value);
        Ok(())
    }

    /// The key's value at the version: that of its last set there or below, otherwise the absent
    /// one. The cost is a look-up, and logarithmic in the number of the key's sets.
    pub fn at(&self, version: u64, key: &Arc<U::Key>) -> &Arc<U::Value>
        ensures { arc_value result.now
            ≡ cell_at U.Key.eq U.meaning self.now version (arc_value key.now) }
    {
        let absent = self.universe.absent(key);
        match self.history(key) {
            Some(history) => history.at(absent, version),
            None => absent,
        }
    }

    /// The key's newest value.
    pub fn newest(&self, key: &Arc<U::Key>) -> &Arc<U::Value>
        ensures { arc_value result.now ≡ newest_at U.Key.eq U.meaning self.now (arc_value key.now) }
    {
        let absent = self.universe.absent(key);
        match self.history(key) {
            Some(history) => history.newest(absent),
            None => absent,
        }
    }

    /// The versions at which the key's value equals that at the version; open if the newest
    /// does. The cost is linear in the number of the key's sets, and of values only the wanted one
    /// is hashed and looked up, and compared with the absent one.
    pub fn ranges_of(&self, version: u64, key: &Arc<U::Key>) -> Result<Ranges, NoMemory>
        ensures members { IfOk result (λ r. (w : ℕ)
            → contains r w
            ≡ U.Value.eq (cell_at U.Key.eq U.meaning self.now w (arc_value key.now))
            (cell_at U.Key.eq U.meaning self.now version (arc_value key.now))) }
        ensures tail { IfOk result (λ r. is_open r
            ≡ U.Value.eq (newest_at U.Key.eq U.meaning self.now (arc_value key.now))
            (cell_at U.Key.eq U.meaning self.now version (arc_value key.now))) }
    {
        laws_of::<U>();
        let Some(history) = self.history(key) else {
            return always(self.alloc);
        };
        let absent = self.universe.absent(key);
        let wanted = history.at(absent, version);
        history.ranges_with(self.alloc, absent, wanted)
    }

    /// The versions round this one up to which the key's value stays as it is there, and as it was
    /// from there back. The cost is a look-up, and logarithmic in the number of the key's sets
    /// if no two next to one another are to the same value.
    pub fn range_round(&self, version: u64, key: &Arc<U::Key>) -> Result<Ranges, NoMemory>
        ensures { IfOk result (λ r. (w : ℕ)
            → contains r w
            ≡ stays U.Value.eq (λ u. cell_at U.Key.eq U.meaning self.now u (arc_value key.now))
            version w) }
    {
        laws_of::<U>();
        let Some(history) = self.history(key) else {
            return always(self.alloc);
        };
        history.range_round(self.alloc, self.universe.absent(key), version)
    }

    /// The greatest version at which anything was set; 0 if nothing was.
    pub fn last(&self) -> u64
        ensures last { result ≡ self.now.last }
    {
        self.last
    }

    /// The key's sets, if there was ever room for one.
    fn history(&self, key: &Arc<U::Key>) -> Option<&History<U::Value>>
        ensures cell { option_copied result ≡ lookup (U.Key.eq (arc_value key.now)) self.now.cells }
        ensures rising { IsRising (sets_at U.Key.eq self.now (arc_value key.now)) }
    {
        self.histories.get(key)
    }

    /// Whether there is room for one more set of the key.
    fn has_room(&self, key: &Arc<U::Key>) -> bool
        ensures { result ≡ nat_lt 0 (room_at U.Key.eq self.now (arc_value key.now)) }
    {
        match self.history(key) {
            Some(history) => history.room() > 0,
            None => false,
        }
    }

    /// Adds a set of the key if there is room for it. It takes no memory.
    fn write(&mut self, version: u64, key: &Arc<U::Key>, value: Arc<U::Value>)
        requires room { 0 < room_at U.Key.eq self.old (arc_value key.now) }
        requires rises { AllBelow (sets_at U.Key.eq self.old (arc_value key.now)) version }
        ensures sets { (k : U.Key)
            → sets_at U.Key.eq self.new k
            ≡ (if U.Key.eq (arc_value key.now) k
            then sets_at U.Key.eq self.old k ++ (version, arc_value value) ∷ []
            else sets_at U.Key.eq self.old k) }
        ensures last { self.new.last ≡ max self.old.last version }
        ensures others { (k : U.Key) → U.Key.eq (arc_value key.now) k ≡ false
            → room_at U.Key.eq self.new k ≡ room_at U.Key.eq self.old k }
    {
        laws_of::<U>();
        push_set(&mut self.histories, version, key, value);
        self.last = self.last.max(version);
    }
}

/// Makes room for one more set of a key.
fn make_room<K: Eq + Hash + Drop, V: Eq + Hash + Drop>(
    alloc: Global,
    histories: &mut HashMap<Arc<K>, History<V>, Seed>,
    key: Arc<K>,
) -> Result<(), NoMemory>
    requires laws { IsEquality V.eq }
    ensures ok { OnOk result ((room : ℕ) × (0 < room)
        × Writes K.eq (map named histories.old.entries) (map named histories.new.entries)
        (arc_value key) (record {
          room = room;
          sets = sets_in (lookup (K.eq (arc_value key)) (map named histories.old.entries));
        })) }
    ensures err { OnErr result (map named histories.new.entries ≡ map named histories.old.entries) }
{
    if histories.contains_key(&key) {
        return reserve_more(alloc, histories, &key);
    }
    let history = History::new();
    histories.insert(key, history)?;
    Ok(())
}

/// Makes room for one more set of a key that is there.
fn reserve_more<K: Eq + Hash + Drop, V: Eq + Hash + Drop>(
    alloc: Global,
    histories: &mut HashMap<Arc<K>, History<V>, Seed>,
    key: &Arc<K>,
) -> Result<(), NoMemory>
    requires laws { IsEquality V.eq }
    requires there { IsSome (lookup (K.eq (arc_value key.now)) (map named histories.old.entries)) }
    ensures ok { OnOk result ((room : ℕ) × (0 < room)
        × Writes K.eq (map named histories.old.entries) (map named histories.new.entries)
        (arc_value key.now) (record {
          room = room;
          sets = sets_in (lookup (K.eq (arc_value key.now)) (map named histories.old.entries));
        })) }
    ensures err { OnErr result (map named histories.new.entries ≡ map named histories.old.entries) }
{
    let seed = *histories.hasher();
    match histories.get_mut(key) {
        Some(history) => history.reserve(alloc, seed),
        None => unreachable!(),
    }
}

/// Adds a set of a key that has room for it.
fn push_set<K: Eq + Hash + Drop, V: Eq + Hash + Drop>(
    histories: &mut HashMap<Arc<K>, History<V>, Seed>,
    version: u64,
    key: &Arc<K>,
    value: Arc<V>,
)
    requires laws { IsEquality V.eq }
    requires room { 0
        < room_in (lookup (K.eq (arc_value key.now)) (map named histories.old.entries)) }
    ensures { (room : ℕ)
        × Writes K.eq (map named histories.old.entries) (map named histories.new.entries)
        (arc_value key.now) (record {
          room = room;
          sets = sets_in (lookup (K.eq (arc_value key.now)) (map named histories.old.entries))
              ++ (version, arc_value value) ∷ [];
        }) }
{
    match histories.get_mut(key) {
        Some(history) => history.push(version, value),
        None => unreachable!(),
    }
}
