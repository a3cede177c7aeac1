//! Laws of jobs and steps, as contracts. None of these functions does any work.
ghost use Rattle.std.specs.Prelude.{◌≡◌, ◌≢◌, ◌≤◌, ℕ, List, [], ◌++◌, length, false};
ghost use Rattle.std.specs.List.{AllZip};
ghost use Rattle.dice_key.specs.Meaning.{Answered};
ghost use Rattle.dice_key.specs.declared.universe.Kind.TheVariants.{Injected};
ghost use Rattle.dice_model.specs.Eval.{HasValue};
ghost use Rattle.dice_model.specs.Asks.{AsksFor, IsTrace};
ghost use Rattle.dice_jobs.specs.Jobs.{Name, Assigned, Stepped, Computes, Checks, Wanting, Valued, Unchanged, Changed, IsStepOf, AsksThese, answered_more, computing};
ghost use Rattle.dice_jobs.specs.Truths.{IsEarlier, IsTrueJob, ChangesFirst};
ghost use Rattle.dice_jobs.specs.Alike.{AreAlike, AnsweredTruly, IsAnsweredIn};
ghost use Rattle.lists.specs.Lists.{Has};

use dice_key::{Universe, laws_of};

/// A job whose answers are the values at its version stays so: at its beginning; over every log
/// that goes on; when the keys that its step wants are answered with their values; and when a check
/// that found a change goes on as a computation with the answers that it has. Such a computation
/// asks the batches that it was answered.
pub fn jobs_stay_true<U: Universe>()
    ensures begun { (C : List (List (U.Key × U.Value))) (n : Name U.Key)
        → U.meaning.kind n.key ≢ Injected → n.version ≤ length C
        → IsTrueJob U.Key.eq U.meaning C (record { name = n; answered = []; work = Computes }) }
    ensures checked { (C : List (List (U.Key × U.Value))) (n : Name U.Key) (x : U.Value)
        (T : List (Answered U.Key U.Value)) (b : ℕ) → U.meaning.kind n.key ≢ Injected
        → n.version ≤ length C → IsEarlier U.Key.eq U.meaning C n.key T x
        → IsTrueJob U.Key.eq U.meaning C (record { name = n; answered = []; work = Checks x T b }) }
    ensures longer { (C D : List (List (U.Key × U.Value))) (a : Assigned U.Key U.Value)
        → IsTrueJob U.Key.eq U.meaning C a → IsTrueJob U.Key.eq U.meaning (C ++ D) a }
    ensures answered { (C : List (List (U.Key × U.Value))) (a : Assigned U.Key U.Value)
        (s : Stepped U.Key U.Value) (ks : List U.Key) (xs : List U.Value)
        → IsTrueJob U.Key.eq U.meaning C a → IsStepOf U.meaning U.Value.eq s a
        → s.outcome ≡ Wanting ks → AllZip (HasValue U.Key.eq U.meaning C a.name.version) ks xs
        → IsTrueJob U.Key.eq U.meaning C (answered_more a ks xs) }
    ensures changed { (C : List (List (U.Key × U.Value))) (a : Assigned U.Key U.Value)
        (s : Stepped U.Key U.Value) (x : U.Value) (T : List (Answered U.Key U.Value)) (b : ℕ)
        (d : U.Key) → IsTrueJob U.Key.eq U.meaning C a → IsStepOf U.meaning U.Value.eq s a
        → a.work ≡ Checks x T b → s.outcome ≡ Changed d
        → IsTrueJob U.Key.eq U.meaning C (computing a) }
    ensures asked { (C : List (List (U.Key × U.Value))) (a : Assigned U.Key U.Value)
        → IsTrueJob U.Key.eq U.meaning C a → a.work ≡ Computes
        → AsksThese U.meaning a.name.key a.name.version a.answered }
{
    laws_of::<U>();
}

/// What the step of such a job says of its key at its version: each key that it wants is asked
/// there; a value that it has come to is the key's, by the trace of its answers; if a check finds
/// all as it was, the value is the key's by the trace that was checked; and if it finds a change,
/// it is the first.
pub fn steps_tell_the_truth<U: Universe>()
    ensures asks { (C : List (List (U.Key × U.Value))) (a : Assigned U.Key U.Value)
        (s : Stepped U.Key U.Value) (ks : List U.Key) (j : U.Key) → IsTrueJob U.Key.eq U.meaning C a
        → IsStepOf U.meaning U.Value.eq s a → s.outcome ≡ Wanting ks → Has ks j
        → AsksFor U.Key.eq U.meaning C a.name.version a.name.key j }
    ensures value { (C : List (List (U.Key × U.Value))) (a : Assigned U.Key U.Value)
        (s : Stepped U.Key U.Value) (x : U.Value) → IsTrueJob U.Key.eq U.meaning C a
        → IsStepOf U.meaning U.Value.eq s a → s.outcome ≡ Valued x
        → (a.work ≡ Computes)
        × IsTrace U.Key.eq U.meaning C a.name.version a.name.key a.answered x }
    ensures same { (C : List (List (U.Key × U.Value))) (a : Assigned U.Key U.Value)
        (s : Stepped U.Key U.Value) (x : U.Value) (T : List (Answered U.Key U.Value)) (b : ℕ)
        → IsTrueJob U.Key.eq U.meaning C a → IsStepOf U.meaning U.Value.eq s a
        → a.work ≡ Checks x T b → s.outcome ≡ Unchanged
        → IsTrace U.Key.eq U.meaning C a.name.version a.name.key T x }
    ensures changed { (C : List (List (U.Key × U.Value))) (a : Assigned U.Key U.Value)
        (s : Stepped U.Key U.Value) (x : U.Value) (T : List (Answered U.Key U.Value)) (b : ℕ)
        (d : U.Key) → IsTrueJob U.Key.eq U.meaning C a → IsStepOf U.meaning U.Value.eq s a
        → a.work ≡ Checks x T b → s.outcome ≡ Changed d
        → ChangesFirst U.Key.eq U.meaning C a.name.version T d }
{
    laws_of::<U>();
}

/// Jobs that are alike are the same, if their answers are the values at their version, and if what
/// a check checks is the key's value at its base, with its trace: no other answers could be as
/// many, and a key has one trace at a version. Such answers stay the values over every log that
/// goes on.
pub fn true_jobs_are_one<U: Universe>()
    ensures one { (C : List (List (U.Key × U.Value))) (a b : Assigned U.Key U.Value) → AreAlike a b
        → AnsweredTruly U.Key.eq U.meaning C a → AnsweredTruly U.Key.eq U.meaning C b → a ≡ b }
    ensures longer { (C D : List (List (U.Key × U.Value))) (a : Assigned U.Key U.Value)
        → IsAnsweredIn U.Key.eq U.meaning C a → IsAnsweredIn U.Key.eq U.meaning (C ++ D) a }
{
    laws_of::<U>();
}
