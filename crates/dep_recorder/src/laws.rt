//! Laws of recordings and of checks, as contracts. None of these functions does any work.
ghost use Rattle.std.specs.Prelude.{◌≡◌, ◌++◌, ◌∷◌, [], ℕ, List, length, Some};
ghost use Rattle.std.specs.List.{AllZip};
ghost use Rattle.dice_key.specs.Meaning.{Answered, Asks};
ghost use Rattle.dice_model.specs.Eval.{HasValue};
ghost use Rattle.dice_model.specs.Asks.{Goes};
ghost use Rattle.dep_recorder.specs.Recordings.{Recording, with_answers};
ghost use Rattle.dep_recorder.specs.Checks.{finding, Wants, IsSame, HasChanged, IsFirstChange, values_of};

use dice_key::{Universe, laws_of};

/// A recording that goes with a run of a key at a version, and has its last batch answered with the
/// values there, goes with it still.
pub fn recordings_go_with_runs<U: Universe>()
    ensures { (C : List (List (U.Key × U.Value))) (v : ℕ) (k : U.Key) (r : Recording U.Key U.Value)
        (ks : List U.Key) (xs : List U.Value) → Goes U.Key.eq U.meaning C v k [] r.answered
        → r.asked ≡ Some ks → U.meaning.next k r.answered v ≡ Asks ks
        → AllZip (HasValue U.Key.eq U.meaning C v) ks xs
        → Goes U.Key.eq U.meaning C v k [] (with_answers r xs).answered }
{
    laws_of::<U>();
}

/// A check that was fed all answers as they were finds that they are the same; one that was fed
/// them for the first batches alone wants the next one; and one that was last fed a first change
/// finds it. (What it finds is so in no other case: that is what
/// [`Check::next`](crate::Check::next) tells.)
pub fn checks_are_exact<U: Universe>()
    ensures same { (T : List (Answered U.Key U.Value))
        → finding U.Value.eq T (values_of T) ≡ IsSame }
    ensures wants { (before after : List (Answered U.Key U.Value)) (b : Answered U.Key U.Value)
        → finding U.Value.eq (before ++ b ∷ after) (values_of before) ≡ Wants b.keys }
    ensures differs { (T : List (Answered U.Key U.Value)) (fed : List (List U.Value)) (d : U.Key)
        (x y : U.Value) → IsFirstChange T fed d x y → finding U.Value.eq T fed ≡ HasChanged d x y }
{
    laws_of::<U>();
}
