//! Laws of evaluation, as contracts. None of these functions does any work.
ghost use Rattle.std.specs.Prelude.{◌≡◌, ◌≢◌, ◌⊎◌, ◌≤◌, ℕ, false, List, ◌++◌, length, Some};
ghost use Rattle.dice_key.specs.Meaning.{Answered};
ghost use Rattle.dice_key.specs.declared.universe.Kind.TheVariants.{Injected};
ghost use Rattle.dice_model.specs.Eval.{eval, HasValue};
ghost use Rattle.dice_model.specs.Log.{IsLog, input, version_of};
ghost use Rattle.dice_model.specs.Newest.{IsNewest, IsUnset};
ghost use Rattle.dice_model.specs.Asks.{AllTrue, IsTrace, ReachesCycle, IsClosed};
ghost use Rattle.lists.specs.Lists.{Has};

use dice_key::{Universe, laws_of};

/// The input of a key at a version is its value in the last commit by then that has one; if none
/// has one, it is the absent value; one of the two is the case. The value of an injected key is its
/// input.
pub fn inputs_are_settled<U: Universe>()
    ensures newest { (C : List (List (U.Key × U.Value))) (v : ℕ) (k : U.Key) (x : U.Value)
        → IsLog U.meaning C → IsNewest k x (version_of C v) → input U.Key.eq U.meaning C v k ≡ x }
    ensures unset { (C : List (List (U.Key × U.Value))) (v : ℕ) (k : U.Key)
        → IsUnset k (version_of C v) → input U.Key.eq U.meaning C v k ≡ U.meaning.absent k }
    ensures either { (C : List (List (U.Key × U.Value))) (k : U.Key)
        → ((x : U.Value) × IsNewest k x C) ⊎ IsUnset k C }
    ensures value { (C : List (List (U.Key × U.Value))) (v : ℕ) (k : U.Key)
        → U.meaning.kind k ≡ Injected
        → HasValue U.Key.eq U.meaning C v k (input U.Key.eq U.meaning C v k) }
{
    laws_of::<U>();
}

/// A key has at most one value; more depth keeps it; it is the same over each log that goes on from
/// this one, for versions up to its length; a key that reaches a cycle has none; and if finitely
/// many keys are reached, a key has a value or reaches a cycle.
pub fn values_are_settled<U: Universe>()
    ensures one { (C : List (List (U.Key × U.Value))) (v : ℕ) (k : U.Key) (x y : U.Value)
        → HasValue U.Key.eq U.meaning C v k x → HasValue U.Key.eq U.meaning C v k y → x ≡ y }
    ensures deeper { (C : List (List (U.Key × U.Value))) (v n l : ℕ) (k : U.Key) (x : U.Value)
        → n ≤ l → eval U.Key.eq U.meaning n C v k ≡ Some x
        → eval U.Key.eq U.meaning l C v k ≡ Some x }
    ensures stable { (C D : List (List (U.Key × U.Value))) (v : ℕ) (k : U.Key) (x : U.Value)
        → v ≤ length C → HasValue U.Key.eq U.meaning C v k x
        → HasValue U.Key.eq U.meaning (C ++ D) v k x }
    ensures settled_before { (C D : List (List (U.Key × U.Value))) (v : ℕ) (k : U.Key) (x : U.Value)
        → v ≤ length C → HasValue U.Key.eq U.meaning (C ++ D) v k x
        → HasValue U.Key.eq U.meaning C v k x }
    ensures cyclic { (C : List (List (U.Key × U.Value))) (v : ℕ) (k : U.Key) (x : U.Value)
        → ReachesCycle U.Key.eq U.meaning C v k → HasValue U.Key.eq U.meaning C v k x → ⊥ }
    ensures settled { (C : List (List (U.Key × U.Value))) (v : ℕ) (all : List U.Key) (k : U.Key)
        → IsClosed U.Key.eq U.meaning C v all → Has all k
        → ((x : U.Value) × HasValue U.Key.eq U.meaning C v k x)
        ⊎ ReachesCycle U.Key.eq U.meaning C v k }
{
    laws_of::<U>();
}

/// A key that is not injected and has a value has exactly one trace, which ends in that value; and
/// what a trace ends in is the value.
pub fn traces_are_settled<U: Universe>()
    ensures some { (C : List (List (U.Key × U.Value))) (v : ℕ) (k : U.Key) (x : U.Value)
        → U.meaning.kind k ≢ Injected → HasValue U.Key.eq U.meaning C v k x
        → (A : List (Answered U.Key U.Value)) × IsTrace U.Key.eq U.meaning C v k A x }
    ensures one { (C : List (List (U.Key × U.Value))) (v : ℕ) (k : U.Key)
        (A B : List (Answered U.Key U.Value)) (x y : U.Value) → IsTrace U.Key.eq U.meaning C v k A x
        → IsTrace U.Key.eq U.meaning C v k B y → A ≡ B }
    ensures value { (C : List (List (U.Key × U.Value))) (v : ℕ) (k : U.Key)
        (A : List (Answered U.Key U.Value)) (x : U.Value) → IsTrace U.Key.eq U.meaning C v k A x
        → HasValue U.Key.eq U.meaning C v k x }
{
    laws_of::<U>();
}

/// A value that is not transient, and whose trace has the same answers at a version of some log, is
/// the value there too, by the same trace.
pub fn same_answers_give_the_value<U: Universe>()
    ensures { (C D : List (List (U.Key × U.Value))) (v w : ℕ) (k : U.Key)
        (A : List (Answered U.Key U.Value)) (x : U.Value) → IsTrace U.Key.eq U.meaning C v k A x
        → U.meaning.is_transient x ≡ false → AllTrue (HasValue U.Key.eq U.meaning D w) A
        → IsTrace U.Key.eq U.meaning D w k A x × HasValue U.Key.eq U.meaning D w k x }
{
    laws_of::<U>();
}
