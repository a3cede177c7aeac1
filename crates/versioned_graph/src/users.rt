//! Which keys may use a key.
ghost use Rattle.std.specs.Prelude.{◌≡◌, false, List, [], map, if◌then◌else◌, OnOk, MatchOption};
ghost use Rattle.std.specs.Arc.{arc_value};
ghost use Rattle.versioned_graph.specs.Users.{users_of};
ghost use Rattle.lists.specs.Lists.{Has};

use dice_key::{NoMemory, Seed, Universe, laws_of};
use small_set::SmallSet;
use std::alloc::Global;
use std::collections::HashMap;
use std::marker::Model;
use std::sync::Arc;

/// For each key those that were recorded to use it, each once. One stays there after its edge was
/// taken away, until those of the key are forgotten together.
#[derive(Drop)]
pub(crate) struct Users<U: Universe> {
    alloc: Global,
    sets: HashMap<Arc<U::Key>, SmallSet<Arc<U::Key>>, Seed>,
}

impl<U: Universe> Model for Users<U> {
    ghost use Rattle.std.specs.Prelude.{List, map};
    ghost use Rattle.versioned_graph.specs.Users.{set_of};

    ghost Value = { List (U.Key × List U.Key) };

    ghost view = { λ u. map set_of u.sets.entries };
}

impl<U: Universe> Users<U> {
    /// None yet. It takes no memory.
    pub(crate) fn new(alloc: Global, seed: Seed) -> Users<U>
        ensures { result ≡ [] }
    {
        Users {
            alloc,
            sets: HashMap::with_hasher(alloc, seed),
        }
    }

    /// What sets of keys hash by.
    pub(crate) fn seed(&self) -> Seed {
        *self.sets.hasher()
    }

    /// The users of a key, if any were recorded.
    pub(crate) fn of(&self, key: &Arc<U::Key>) -> Option<&SmallSet<Arc<U::Key>>>
        ensures { MatchOption result (users_of U.Key.eq self.now (arc_value key.now) ≡ [])
            (λ s. map arc_value s.now ≡ users_of U.Key.eq self.now (arc_value key.now)) }
    {
        self.sets.get(key)
    }

    /// Adds a user of a key.
    pub(crate) fn add(&mut self, key: &Arc<U::Key>, user: &Arc<U::Key>) -> Result<(), NoMemory>
        ensures ok { OnOk result
            (Has (users_of U.Key.eq self.new (arc_value key.now)) (arc_value user.now)) }
        ensures stay { (j : U.Key) (q : U.Key) → Has (users_of U.Key.eq self.old j) q
            → Has (users_of U.Key.eq self.new j) q }
    {
        laws_of::<U>();
        let user = Arc::try_clone(user)?;
        if let Some(set) = self.sets.get_mut(key) {
            set.insert(user)?;
            return Ok(());
        }
        self.begin(key, user)
    }

    /// Makes the set of a key, with its first user.
    fn begin(&mut self, key: &Arc<U::Key>, user: Arc<U::Key>) -> Result<(), NoMemory>
        ensures ok { OnOk result
            (Has (users_of U.Key.eq self.new (arc_value key.now)) (arc_value user)) }
        ensures stay { (j : U.Key) (q : U.Key) → U.Key.eq (arc_value key.now) j ≡ false
            → Has (users_of U.Key.eq self.old j) q → Has (users_of U.Key.eq self.new j) q }
    {
        laws_of::<U>();
        let key = Arc::try_clone(key)?;
        let mut set = SmallSet::new(self.alloc, self.seed());
        set.insert(user)?;
        self.sets.insert(key, set)?;
        Ok(())
    }

    /// Forgets the users of a key. Its set stays, for those that use it next. It takes no memory.
    pub(crate) fn forget(&mut self, key: &Arc<U::Key>)
        ensures { (j : U.Key)
            → users_of U.Key.eq self.new j
            ≡ (if U.Key.eq (arc_value key.now) j then [] else users_of U.Key.eq self.old j) }
    {
        laws_of::<U>();
        if let Some(set) = self.sets.get_mut(key) {
            set.clear();
        }
    }
}
