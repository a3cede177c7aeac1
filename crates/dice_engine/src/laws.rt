//! What callers keep of a seat from one call to the next, as contracts. None of these functions
//! does any work.
ghost use Rattle.std.specs.Prelude.{◌≡◌, ◌≢◌, ◌<◌, ◌≤◌, ◌⊎◌, ◌∷◌, ◌++◌, ℕ, List, [], reverse, Some};
ghost use Rattle.dice_key.specs.declared.universe.Kind.TheVariants.{Injected};
ghost use Rattle.dice_model.specs.Eval.{HasValue};
ghost use Rattle.journal.specs.declared.event.Told.{Told};
ghost use Rattle.journal.specs.declared.event.Told.TheVariants.{Open, Close};
ghost use Rattle.journal.specs.Events.{Opened, Decision, NotClosed, ByValue, ByCycle, decided, open_at, live_at, StandsAt, NotLeft};
ghost use Rattle.journal.specs.Law.{IsLawfulJournal};
ghost use Rattle.journal.specs.Tell.{event_by};
ghost use Rattle.dice_engine.specs.Seats.{EngineId};
ghost use Rattle.turnstile.specs.Events.{StartsWith, events_by, AllBelow};
ghost use Rattle.dice_engine.specs.Seats.{SeatView, IsSeatOf};
ghost use Rattle.shelf.specs.declared.op.Plain.{Plain};
ghost use Rattle.shelf.specs.Ops.{row_at, IsSound};
ghost use Rattle.dice_engine.specs.Turns.{newest_in, log_of, Later, Turn, Works};
ghost use Rattle.dice_engine.specs.Conditions.{HasOpen, HasAsk, SawAsk};
ghost use Rattle.dice_engine.specs.Calls.{Closes};
ghost use Rattle.dice_engine.specs.Replies.{Reply, TheValue, TheCycle, NoRoom, NotYet, NotLive, IsReply, IsLiveIn, IsValued};
ghost use Rattle.dice_engine.specs.Rows.{BeginsWithRows};
ghost use Rattle.lists.specs.Lists.{Has};

use dice_key::{Universe, laws_of};

/// Turns after one another: a seat stays one of its engine with its number; and what it has seen
/// begins all that it sees later.
pub fn turns_go_on<U: Universe>()
    ensures later { (s t u : SeatView (Told U.Key U.Value)) → Later U.Key.eq U.meaning s t
        → Later U.Key.eq U.meaning t u → Later U.Key.eq U.meaning s u }
    ensures seat { (id : EngineId) (s u : SeatView (Told U.Key U.Value))
        → Later U.Key.eq U.meaning s u → IsSeatOf id s → IsSeatOf id u }
    ensures number { (s u : SeatView (Told U.Key U.Value)) → Later U.Key.eq U.meaning s u
        → (u.number ≡ s.number) × (u.writers ≡ s.writers) }
    ensures stands { (J I : List (Told U.Key U.Value)) (i : ℕ) (e : Told U.Key U.Value)
        → StartsWith I J → StandsAt J i e → StandsAt I i e }
{}

/// A transaction stays open, and an ask the seat's own, until the seat closes or leaves it; and
/// what was seen of an ask stays seen.
pub fn conditions_stay<U: Universe>()
    ensures open { (s u : SeatView (Told U.Key U.Value)) (t v : ℕ) → Later U.Key.eq U.meaning s u
        → NotClosed t u.mine → HasOpen s t v → HasOpen u t v }
    ensures ask { (s u : SeatView (Told U.Key U.Value)) (i t v : ℕ) (k : U.Key)
        → Later U.Key.eq U.meaning s u → NotLeft i u.mine → HasAsk s i t v k → HasAsk u i t v k }
    ensures saw { (s u : SeatView (Told U.Key U.Value)) (i t v : ℕ) (k : U.Key)
        → StartsWith u.seen s.seen → SawAsk s i t v k → SawAsk u i t v k }
    ensures own { (s : SeatView (Told U.Key U.Value)) (i t v : ℕ) (k : U.Key) → HasAsk s i t v k
        → SawAsk s i t v k }
    ensures closed { (t : ℕ) (xs ys : List (Told U.Key U.Value)) → NotClosed t xs → NotClosed t ys
        → NotClosed t (xs ++ ys) }
    ensures left { (i : ℕ) (xs ys : List (Told U.Key U.Value)) → NotLeft i xs → NotLeft i ys
        → NotLeft i (xs ++ ys) }
{}

/// In what a seat has seen after a turn, its own transactions that it has not closed are open; and
/// its own asks that it has not left, in transactions that it has not closed, are live.
pub fn own_asks_are_live<U: Universe>()
    ensures open { (s : SeatView (Told U.Key U.Value)) (t v : ℕ)
        → IsLawfulJournal U.Key.eq U.meaning s.seen → events_by event_by s.number s.seen ≡ s.mine
        → HasOpen s t v
        → open_at (reverse s.seen) t ≡ Some (record { by = s.number; version = v }) }
    ensures live { (s : SeatView (Told U.Key U.Value)) (i t v : ℕ) (k : U.Key)
        → IsLawfulJournal U.Key.eq U.meaning s.seen → events_by event_by s.number s.seen ≡ s.mine
        → HasAsk s i t v k → NotClosed t s.mine
        → live_at (reverse s.seen) i ≡ Some (record { by = s.number; opened = t; key = k }) }
{}

/// How a key was decided at a version stays while a transaction is open there: in each longer
/// lawful journal in which one is open whose Open stands in the shorter one; and so in all that a
/// seat sees until it closes its transaction.
pub fn decisions_stay<U: Universe>()
    ensures longer { (J I : List (Told U.Key U.Value)) (t n v : ℕ) (k : U.Key) (o : Opened)
        (d : Decision) → StartsWith I J → IsLawfulJournal U.Key.eq U.meaning I
        → StandsAt J t (Open n v) → open_at (reverse I) t ≡ Some o
        → decided U.Key.eq (reverse J) v k ≡ Some d → decided U.Key.eq (reverse I) v k ≡ Some d }
    ensures seat { (s u : SeatView (Told U.Key U.Value)) (t v : ℕ) (k : U.Key) (d : Decision)
        → Later U.Key.eq U.meaning s u → HasOpen s t v → NotClosed t u.mine
        → decided U.Key.eq (reverse s.seen) v k ≡ Some d
        → decided U.Key.eq (reverse u.seen) v k ≡ Some d }
{
    laws_of::<U>();
}

/// A transaction is closed once; and as a key was decided when a seat closed its transaction, so it
/// was decided before the Close, in each lawful journal that begins with what the seat saw then.
pub fn decided_when_closed<U: Universe>()
    ensures once { (J before after front back : List (Told U.Key U.Value)) (n p t : ℕ)
        → IsLawfulJournal U.Key.eq U.meaning J → J ≡ before ++ (Close n t ∷ after)
        → J ≡ front ++ (Close p t ∷ back) → front ≡ before }
    ensures close { (s u : SeatView (Told U.Key U.Value)) (t v : ℕ) (k : U.Key) (d : Decision)
        → HasOpen s t v → Turn U.Key.eq U.meaning s u (λ found. Closes s.number t v)
        → decided U.Key.eq (reverse s.seen) v k ≡ Some d
        → (I before after : List (Told U.Key U.Value)) (n : ℕ) → StartsWith I u.seen
        → IsLawfulJournal U.Key.eq U.meaning I → I ≡ before ++ (Close n t ∷ after)
        → decided U.Key.eq (reverse before) v k ≡ Some d }
{
    laws_of::<U>();
}

/// If there is one writer, every event that tells a number tells 0, and the commits are those of
/// the seat with this number.
pub fn one_writer_knows_all<U: Universe>()
    ensures by { (J : List (Told U.Key U.Value)) (e : Told U.Key U.Value) (n : ℕ)
        → AllBelow event_by 1 J → Has J e → event_by e ≡ Some n → event_by e ≡ Some 0 }
    ensures log { (J : List (Told U.Key U.Value)) → AllBelow event_by 1 J
        → log_of (events_by event_by 0 J) ≡ log_of J }
{}

/// What a reply must be: of a live ask whose key is injected or was decided to have a value, that
/// value or `NoMemory`; of one whose key was found to reach a cycle, a cycle or `NoMemory`.
pub fn replies_are_exact<U: Universe>()
    ensures value { (J : List (Told U.Key U.Value)) (v : ℕ) (k : U.Key) (ask : ℕ) (left : ℕ × ℕ × ℕ)
        (r : Reply U.Key U.Value) → IsReply U.Key.eq U.meaning J v k ask left r → IsLiveIn J ask
        → IsValued U.Key.eq U.meaning J v k → ((x : U.Value) × (r ≡ TheValue x)) ⊎ (r ≡ NoRoom) }
    ensures cycle { (J : List (Told U.Key U.Value)) (v : ℕ) (k : U.Key) (ask : ℕ) (left : ℕ × ℕ × ℕ)
        (r : Reply U.Key U.Value) → IsReply U.Key.eq U.meaning J v k ask left r → IsLiveIn J ask
        → U.meaning.kind k ≢ Injected → decided U.Key.eq (reverse J) v k ≡ Some ByCycle
        → ((p : List U.Key) × (r ≡ TheCycle p)) ⊎ (r ≡ NoRoom) }
{}

/// What a look finds after a true `tell`, when the list that the reader sees is sound and begins
/// with the rows of the journal that the seat saw then. A row at a version of that journal has the
/// value of its key over the commits of the journal; and of a key that the journal shows decided by
/// a value there is such a row.
pub fn looks_after_a_tell<U: Universe>()
    ensures value { (J : List (Told U.Key U.Value)) (seen : List (Plain U.Key U.Value)) (v : ℕ)
        (k : U.Key) (x : U.Value) → BeginsWithRows J seen → IsSound U.Key.eq U.meaning seen
        → v ≤ newest_in J → row_at (U.Key.eq k) v seen ≡ Some x
        → HasValue U.Key.eq U.meaning (log_of J) v k x }
    ensures decided { (J : List (Told U.Key U.Value)) (seen : List (Plain U.Key U.Value)) (v : ℕ)
        (k : U.Key) → BeginsWithRows J seen → IsSound U.Key.eq U.meaning seen
        → IsLawfulJournal U.Key.eq U.meaning J
        → decided U.Key.eq (reverse J) v k ≡ Some ByValue
        → (x : U.Value) × (row_at (U.Key.eq k) v seen ≡ Some x)
        × HasValue U.Key.eq U.meaning (log_of J) v k x }
{
    laws_of::<U>();
}
