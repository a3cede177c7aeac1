//! Asks that come and go, with the tasks of their version in hand.
ghost use Rattle.std.specs.Prelude.{◌≡◌, ◌≢◌, ◌<◌, ◌+◌, ◌++◌, [], ◌∷◌, ◌⊎◌, ℕ, List, length, map, reverse, true, Some};
ghost use Rattle.std.specs.Arc.{arc_value};
ghost use Rattle.journal.specs.declared.event.Told.TheVariants.{Leave};
ghost use Rattle.dice_core.specs.Askings.{MayBeAtHand, StaysAtHand, IsAskAt, DropsAfter};

use dice_key::{KeyRef, Universe, laws_of};
use dice_tasks::{Desk, Tasks, cascade};
use journal::Event;
use task_share::Asker;

/// A seat leaves its ask of a key at a version. Then the tasks at work that nobody asks for any
/// more are dropped. It takes no memory.
///
/// It costs the number of tasks that are dropped and of the keys that they waited for.
pub(crate) fn leave_promise<U: Universe>(
    desk: &mut Desk<U>,
    tasks: &mut Tasks<U>,
    version: u64,
    key: &KeyRef<U>,
    by: u64,
    ask: u64,
)
    requires hand { (owed : ℕ)
        × MayBeAtHand U.Key.eq U.meaning version (owed + 1) tasks.old desk.old }
    requires asked { IsAskAt (reverse desk.old.events) version by ask (arc_value key.now) }
    ensures log { (ks : List U.Key)
        × DropsAfter U.Key.eq version (Leave by ask ∷ []) ks tasks.old tasks.new desk.old desk.new }
    ensures kept { StaysAtHand U.Key.eq U.meaning version 1 tasks.old desk.old tasks.new desk.new }
{
    laws_of::<U>();
    desk.push(Event::Leave(by, ask));
    tasks.leave(key, &Asker::Promise(ask));
    cascade::<U>(desk, tasks, version);
}
