//! What a pure universe is.
ghost use Rattle.std.specs.Prelude.{◌≡◌, ◌≤◌, Bool, ℕ, List, length, IfOk};
ghost use Rattle.dice_key.specs.Meaning.{Step, Ends};
ghost use Rattle.dice_key.specs.Lawful.{IsStep, SameKeys, AreSame};

use dice_key::{Answers, Line, Move, NoMemory};
use std::alloc::Global;
use std::hash::Hash;

/// Keys and values, if each key is set from outside or computed from the values of other keys
/// alone: no value depends on the version. `Plain` makes a universe of it.
///
/// A key is computed by a run. It asks for other keys, a batch at a time, and is done with a value;
/// what it does next depends on the key and on the answers so far alone.
pub trait Pure: Send + Sync + Drop {
    /// What is asked for.
    type Key: Ord + Eq + Hash + Send + Sync + Drop;

    /// What a key comes to.
    type Value: Eq + Hash + Send + Sync + Drop;

    /// Whether the key is set from outside.
    ghost is_injected: { Self.Key → Bool };

    /// The value of each injected key that was never set.
    ghost absent: { Self.Value };

    /// What a key asks next or is, by the answers to its batches so far.
    ghost next: { Self.Key → List (List Self.Value) → Step Self.Key Self.Value };

    /// How many batches a run asks at most, of whatever key.
    ghost most: { ℕ };

    /// The text of a key; the flag says whether a short one is wanted.
    ghost text: { Self.Key → Bool → List ℕ };

    /// Whether the key is set from outside, by commits. It takes no memory.
    fn is_injected(&self, key: &Self::Key) -> bool
        ensures { result ≡ is_injected key.now };

    /// The value of each injected key that was never set. `Plain::new` asks for it, once.
    fn absent(&self, alloc: Global) -> Result<Self::Value, NoMemory>
        ensures { IfOk result (λ x. x ≡ absent) };

    /// What the key asks next or is, by the answers to its batches so far, the first of them first.
    /// What it makes is allocated by `alloc`. An injected key is set, and the engine never asks
    /// this of it.
    fn next(
        &self,
        alloc: Global,
        key: &Self::Key,
        answers: &[Answers<Self::Value>],
    ) -> Result<Move<Self::Key, Self::Value>, NoMemory>
        ensures { IfOk result (λ p. IsStep p (next key.now answers.now)) };

    /// How many batches a run asks at most, of whatever key. It takes no memory.
    fn most_batches(&self) -> u32
        ensures { result ≡ most };

    /// The key's text, allocated by `alloc`; if short its path or label alone.
    fn print(&self, alloc: Global, key: &Self::Key, short: bool) -> Result<Line, NoMemory>
        ensures { IfOk result (λ t. t ≡ text key.now short) };

    /// After as many answers a key is done.
    ghost ends: { (k : Self.Key) (A : List (List Self.Value)) → most ≤ length A → (x : Self.Value) × (next k A ≡ Ends x) };

    /// Keys that compare equal are the same.
    ghost same_keys: { SameKeys Self.Key.cmp };

    /// Values that are equal are the same.
    ghost equal_values: { AreSame Self.Value.eq };
}
