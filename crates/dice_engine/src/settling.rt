//! When a promise is settled, and when it is not, as contracts. None of these functions does any
//! work.
ghost use Rattle.std.specs.Prelude.{◌≡◌, ◌↔◌, ◌⊎◌, ◌+◌, ◌++◌, ℕ, List};
ghost use Rattle.std.specs.Arc.{arc_value};
ghost use Rattle.journal.specs.declared.event.Told.{Told};
ghost use Rattle.dice_core.specs.Cores.{CoreSeen, ToNothing, Pending, events_of, poll_of};
ghost use Rattle.dice_engine.specs.Seats.{SeatView};
ghost use Rattle.dice_engine.specs.Turns.{left_of};
ghost use Rattle.dice_engine.specs.Calls.{Closes, Leaves};
ghost use Rattle.dice_engine.specs.Replies.{Reply, TheValue, TheCycle, NoRoom, NotYet, IsReply, IsLiveIn};
ghost use Rattle.dice_engine.specs.Doings.{TellsOfCore};
ghost use Rattle.dice_engine.specs.Leaving.{DecidesNothing};

use crate::promise::Promise;
use dice_key::{Universe, laws_of};

/// If no task is ready and no job is out, nothing hangs: a live ask is answered by a value or a
/// cycle, or its key was lost, or memory was refused.
pub fn nothing_hangs<U: Universe>()
    ensures { (J : List (Told U.Key U.Value)) (v : ℕ) (k : U.Key) (ask : ℕ) (left : ℕ × ℕ × ℕ)
        (r : Reply U.Key U.Value) → IsReply U.Key.eq U.meaning J v k ask left r → IsLiveIn J ask
        → left.0 ≡ 0 → left.1 ≡ 0
        → ((x : U.Value) × (r ≡ TheValue x)) ⊎ ((p : List U.Key) × (r ≡ TheCycle p))
        ⊎ (r ≡ NoRoom) }
{}

/// A live ask is pending if and only if its key is so in the core that the turn left, of which the
/// seat sees the journal and the counts; and if the key was lost there, the answer is `NoMemory`.
pub fn pending_is_exact<U: Universe>(promise: &Promise<U>)
    ensures { (r : Reply U.Key U.Value) (s u : SeatView (Told U.Key U.Value))
        → TellsOfCore U.Key.eq U.meaning promise.now r s u → IsLiveIn u.seen promise.now.ask
        → (c : CoreSeen U.Key U.Value) × (events_of c ≡ u.seen) × (left_of u.left.2 c ≡ u.left)
        × (u.turns ≡ s.turns + 1)
        × ((r ≡ NotYet)
        ↔ (poll_of U.Key.eq U.meaning c promise.now.version (arc_value promise.now.key) ≡ Pending))
        × (poll_of U.Key.eq U.meaning c promise.now.version (arc_value promise.now.key) ≡ ToNothing
        → r ≡ NoRoom) }
{
    laws_of::<U>();
    let _ = promise;
}

/// By a Close or a Leave, and by the drops after it, no key is decided and none is lost; and
/// whoever asks then asked before.
pub fn leaving_decides_nothing<U: Universe>()
    ensures close { (J I own work : List (Told U.Key U.Value)) (n t v : ℕ) → Closes n t v own work
        → I ≡ J ++ (own ++ work) → DecidesNothing U.Key.eq J I }
    ensures leave { (J I own work : List (Told U.Key U.Value)) (n ask t v : ℕ)
        → Leaves n ask t v J own work → I ≡ J ++ (own ++ work) → DecidesNothing U.Key.eq J I }
{}
