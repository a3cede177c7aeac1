//! The log of commits.
ghost use Rattle.std.specs.Prelude.{◌≡◌, ◌<◌, ◌≤◌, ℕ, List, ◌++◌, ◌∷◌, [], length, map, IfOk, OnOk, OnErr};
ghost use Rattle.std.specs.Arc.{arc_value};
ghost use Rattle.dice_model.specs.Log.{IsCommit, input, pairs_of, commits_of, last_value_of};
ghost use Rattle.std.specs.Option.{option_map};
ghost use Rattle.std.specs.Map.{lookup};

use dice_key::{NoMemory, Universe};
use std::alloc::Global;
use std::marker::Model;
use std::sync::Arc;

/// The commits so far, oldest first. Each sets one or more injected keys, and none twice. The first
/// `v` of them are version `v`.
#[derive(Drop)]
pub struct Commits<U: Universe> {
    commits: Vec<Vec<(Arc<U::Key>, Arc<U::Value>)>>,
}

impl<U: Universe> Model for Commits<U> {
    ghost use Rattle.std.specs.Prelude.{List};
    ghost use Rattle.dice_model.specs.Log.{IsLog, commits_of};

    ghost Value = { List (List (U.Key × U.Value)) };

    ghost view = { λ a. commits_of a.commits.items };

    ghost invariant = { λ a. IsLog U.meaning (commits_of a.commits.items) };
}

impl<U: Universe> Commits<U> {
    /// No commit.
    pub fn new(alloc: Global) -> Commits<U>
        ensures { result ≡ [] }
    {
        Commits {
            commits: Vec::new(alloc),
        }
    }

    /// Adds a commit. At an error the log is as before.
    pub fn push(&mut self, changes: Vec<(Arc<U::Key>, Arc<U::Value>)>) -> Result<(), NoMemory>
        requires { IsCommit U.meaning (pairs_of changes.items) }
        ensures ok { OnOk result (self.new ≡ self.old ++ pairs_of changes.items ∷ []) }
        ensures err { OnErr result (self.new ≡ self.old) }
    {
        self.commits.push(changes)?;
        Ok(())
    }

    /// How many commits there are.
    pub fn len(&self) -> usize
        ensures { result ≡ length self.now }
    {
        self.commits.len()
    }

    /// The input at a version: the value in the last of its commits that has one, otherwise the
    /// absent one. It looks through all commits up to the version.
    #[tactic(auto, using(crate::proofs::Firsts::mapped_first))]
    pub fn input(&self, universe: &U, version: u64, key: &U::Key) -> Result<Arc<U::Value>, NoMemory>
        ensures { IfOk result
            (λ x. arc_value x ≡ input U.Key.eq U.meaning self.now version key.now) }
    {
        let count = version.min(self.commits.len() as u64) as usize;
        let found = last_value(&self.commits[..count], key, universe.absent(key));
        Ok(Arc::try_clone(found)?)
    }
}

/// The value in the last commit that has one, otherwise the absent one.
fn last_value<'a, K: Eq, V>(
    commits: &'a [Vec<(Arc<K>, Arc<V>)>],
    key: &K,
    absent: &'a Arc<V>,
) -> &'a Arc<V>
    ensures { arc_value result.now
        ≡ last_value_of (K.eq key.now) (arc_value absent.now) (commits_of commits.now) }
{
    let mut found = absent;
    for commit in commits {
        if let Some(value) = value_in(commit.as_slice(), key) {
            found = value;
        }
    }
    found
}

/// The value that a commit has for a key.
fn value_in<'a, K: Eq, V>(commit: &'a [(Arc<K>, Arc<V>)], key: &K) -> Option<&'a Arc<V>>
    ensures { option_map (λ x. arc_value x.now) result
        ≡ lookup (K.eq key.now) (pairs_of commit.now) }
{
    for (at, value) in commit {
        if *key == **at {
            return Some(value);
        }
    }
    None
}
