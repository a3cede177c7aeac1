//! Laws of journals, as contracts. None of these functions does any work.
ghost use Rattle.std.specs.Prelude.{◌≡◌, ◌↔◌, ℕ, List, ◌++◌, true, false, Some};
ghost use Rattle.journal.specs.declared.event.Told.{Told};
ghost use Rattle.journal.specs.Events.{Opened, Asking, Decision, ClosesOpen, IsOpenByWords, open_at, opened_at, open_count, live_at, decided, asked_in_epoch, lost_in_epoch, is_running, is_base};
ghost use Rattle.journal.specs.declared.event.Told.TheVariants.{Lost};
ghost use Rattle.journal.specs.declared.event.Reason.TheVariants.{New, Differs};
ghost use Rattle.journal.specs.Worked.{File, same_key, small, worked};
ghost use Rattle.lists.specs.Lists.{Has};
ghost use Rattle.journal.specs.Words.{IsLiveByWords, HasKeptOrEnded, IsDecidedAmong, IsAskedAmong, RunsByWords, IsOfTask, epoch_of};
ghost use Rattle.dice_key.specs.declared.universe.Kind.TheVariants.{Injected};
ghost use Rattle.journal.specs.Law.{IsLawfulJournal, IsLawfulBack};

use dice_key::{Universe, laws_of};

/// The beginning of a lawful journal is lawful.
pub fn lawful_begins<U: Universe>()
    ensures { (J D : List (Told U.Key U.Value)) → IsLawfulJournal U.Key.eq U.meaning (J ++ D)
        → IsLawfulJournal U.Key.eq U.meaning J }
{}

/// What is computed of a journal, read backwards, says what the words say: a transaction that is
/// found open has an Open of its index and no later Close. If each Close names an open transaction,
/// as in a lawful journal, the number of open transactions of a version is 0 exactly if none is
/// open there.
pub fn journals_are_read<U: Universe>()
    ensures opened { (R : List (Told U.Key U.Value)) (i : ℕ) (o : Opened) → open_at R i ≡ Some o
        → IsOpenByWords R i o }
    ensures none { (R : List (Told U.Key U.Value)) (v : ℕ) → ClosesOpen R → open_count R v ≡ 0
        → (i : ℕ) → opened_at R v i ≡ false }
    ensures count { (R : List (Told U.Key U.Value)) (v : ℕ) → ClosesOpen R
        → ((i : ℕ) → opened_at R v i ≡ false) → open_count R v ≡ 0 }
    ensures closes { (R : List (Told U.Key U.Value)) → IsLawfulBack U.Key.eq U.meaning R
        → ClosesOpen R }
{}

/// What is computed of a journal, read backwards, and what the words say, are the same. A
/// transaction is found open, and an ask live, exactly if it was made and not ended later.
pub fn words_are_read<U: Universe>()
    ensures opened { (R : List (Told U.Key U.Value)) (i : ℕ) (o : Opened)
        → (open_at R i ≡ Some o) ↔ IsOpenByWords R i o }
    ensures live { (R : List (Told U.Key U.Value)) (i : ℕ) (a : Asking U.Key)
        → (live_at R i ≡ Some a) ↔ IsLiveByWords R i a }
    ensures base { (R : List (Told U.Key U.Value)) (b : ℕ) (k : U.Key)
        → (is_base U.Key.eq R b k ≡ true) ↔ HasKeptOrEnded R b k }
    ensures running { (R : List (Told U.Key U.Value)) (v : ℕ) (k : U.Key)
        → (is_running U.Key.eq R v k ≡ true) ↔ RunsByWords R v k }
    ensures lost { (R : List (Told U.Key U.Value)) (v : ℕ) (k : U.Key)
        → (lost_in_epoch U.Key.eq R v k ≡ true) ↔ Has (epoch_of R v) (Lost v k) }
    ensures decided { (R : List (Told U.Key U.Value)) (v : ℕ) (k : U.Key) (d : Decision)
        → IsLawfulBack U.Key.eq U.meaning R
        → (decided U.Key.eq R v k ≡ Some d) ↔ IsDecidedAmong (epoch_of R v) v k d }
    ensures injected { (R : List (Told U.Key U.Value)) (e : Told U.Key U.Value) (k : U.Key)
        → IsLawfulBack U.Key.eq U.meaning R → Has R e → IsOfTask k e → U.meaning.kind k ≡ Injected
        → ⊥ }
    ensures asked { (R : List (Told U.Key U.Value)) (v : ℕ) (k : U.Key)
        → IsLawfulBack U.Key.eq U.meaning R
        → (asked_in_epoch U.Key.eq R v k ≡ true) ↔ IsAskedAmong R (epoch_of R v) v k }
{
    laws_of::<U>();
}

/// The journal of a file whose comment changes is lawful: the package is computed again, since the
/// file differs, and so is the rule, since the package differs; what stands on the rule is kept. If
/// the second start of the package names another cause, it is not.
pub fn worked_journal()
    ensures lawful { IsLawfulJournal same_key small (worked (Differs 1 File)) }
    ensures no_cause { IsLawfulJournal same_key small (worked New) → ⊥ }
{}
