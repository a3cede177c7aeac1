//! The universe of keys and values.
ghost use Rattle.std.specs.Prelude.{◌≡◌, Bool, ℕ, List, [], length, IfOk, OnOk};
ghost use Rattle.std.specs.Arc.{arc_value};
ghost use Rattle.dice_key.specs.Meaning.{Meaning, Running, next_of, resumed, Takes};
ghost use Rattle.dice_key.specs.Lawful.{IsLawful, IsStep, SameKeys, AreSame};
ghost use Rattle.dice_key.specs.declared.universe.Kind.TheVariants.{Injected, Projection};

use crate::batch::{Answers, Batch, Move};
use crate::line::Line;
use hash_seed::Seed;
use std::alloc::{AllocError, AllocFailed};
use std::hash::Hash;
use std::sync::Arc;
use thiserror::Error;

/// A version of the inputs: how many commits came before.
pub type Version = u64;

/// A key, shared.
pub type KeyRef<U> = Arc<<U as Universe>::Key>;

/// A value, shared.
pub type ValueRef<U> = Arc<<U as Universe>::Value>;

/// How a key comes to its value.
#[derive(Clone, Copy, Debug, PartialEq, Eq)]
pub enum Kind {
    /// It is set from outside, by commits.
    Injected,
    /// It is computed by a run, which may ask any keys.
    Computed,
    /// It is computed by a run that asks one key, its base, and takes a part of that key's value.
    Projection,
}

/// Memory was refused.
#[derive(Clone, Copy, Debug, PartialEq, Eq, Drop, Error)]
#[error("no memory")]
pub struct NoMemory;

impl From<AllocError> for NoMemory {
    fn from(_error: AllocError) -> NoMemory {
        NoMemory
    }
}

impl<T: Drop> From<AllocFailed<T>> for NoMemory {
    fn from(_refused: AllocFailed<T>) -> NoMemory {
        NoMemory
    }
}

/// The keys and values of an engine, and how a key comes to its value.
///
/// A key's value is found by a run, which asks for other keys in batches until it is done. The next
/// move is a function of the key, the answers so far and the version; only a transient result may
/// depend on the version.
pub trait Universe: Send + Sync + Drop {
    /// What is asked for.
    type Key: Ord + Eq + Hash + Send + Sync + Drop;

    /// What a key comes to. It is hashed since the values that an injected key was set to are
    /// numbered by what they are: so only those values need to be hashed apart.
    type Value: Eq + Hash + Send + Sync + Drop;

    /// A key on its way to its value.
    type Run: Send + Drop;

    /// What the calls mean, the same for every value of the type.
    ghost meaning: { Meaning Self.Key Self.Value };

    /// Where a run stands: its key, its version and the answers so far.
    ghost running: { Self.Run → Running Self.Key Self.Value };

    /// How the key comes to its value. It takes no memory.
    fn kind(&self, key: &Self::Key) -> Kind
        ensures { result ≡ meaning.kind key.now };

    /// The value of an injected key that was never set. It takes no memory.
    fn absent(&self, key: &Self::Key) -> &Arc<Self::Value>
        ensures { arc_value result.now ≡ meaning.absent key.now };

    /// Begins a run of a key that is not injected, and makes its first move.
    fn begin(
        &self,
        key: &Arc<Self::Key>,
        version: u64,
    ) -> Result<(Self::Run, Move<Self::Key, Self::Value>), NoMemory>
        requires { meaning.kind (arc_value key.now) ≡ Injected → ⊥ }
        ensures run { IfOk result (λ p. running p.0
            ≡ record { key = arc_value key.now; version = version; answered = [] }) }
        ensures step { IfOk result
            (λ p. IsStep p.1 (meaning.next (arc_value key.now) [] version)) };

    /// The next move after the answers to the batch last asked. After `NoMemory` the run is given
    /// up.
    fn resume(
        &self,
        run: &mut Self::Run,
        answers: &Answers<Self::Value>,
    ) -> Result<Move<Self::Key, Self::Value>, NoMemory>
        requires { Takes (next_of meaning (running run.old)) (length answers.now) }
        ensures run { OnOk result
            (running run.new ≡ resumed meaning (running run.old) answers.now) }
        ensures step { IfOk result (λ p. IsStep p (next_of meaning (running run.new))) };

    /// The base of a projection key. Of another key nothing is said.
    fn base(&self, key: &Self::Key) -> Result<Arc<Self::Key>, NoMemory>
        ensures { IfOk result
            (λ b. meaning.kind key.now ≡ Projection → arc_value b ≡ meaning.base key.now) };

    /// The value of a projection key from the value of its base. Of another key nothing is said.
    fn project(&self, key: &Self::Key, base: &Self::Value) -> Result<Arc<Self::Value>, NoMemory>
        ensures { IfOk result (λ x. meaning.kind key.now ≡ Projection
            → arc_value x ≡ meaning.project key.now base.now) };

    /// Whether the value is not to be used again at later versions. It takes no memory.
    fn is_transient(&self, value: &Self::Value) -> bool
        ensures { result ≡ meaning.is_transient value.now };

    /// A bound on the number of batches that a run of the key asks. It takes no memory.
    fn most_batches(&self, key: &Self::Key) -> u32
        ensures { result ≡ meaning.most key.now };

    /// What tables of keys hash by. It changes no answer. A universe whose keys are picked by others
    /// makes one of all that they gave, so that they cannot pick keys that meet in one bucket. It
    /// takes no memory.
    fn seed(&self) -> Seed {
        Seed::fixed()
    }

    /// The key's text; if short its path or label alone.
    fn print(&self, key: &Self::Key, short: bool) -> Result<Line, NoMemory>
        ensures { IfOk result (λ t. t ≡ meaning.text key.now short) };

    /// Moves end, depend on the version only in a transient end, and are those of a projection if
    /// the key is one.
    ghost lawful: { IsLawful meaning };

    /// Keys that compare equal are the same. (So are keys that are equal, since `==` and the order
    /// of a type agree.)
    ghost same_keys: { SameKeys Self.Key.cmp };

    /// Values that are equal are the same.
    ghost equal_values: { AreSame Self.Value.eq };
}
