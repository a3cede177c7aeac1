//! Checks with a changed answer.
ghost use Rattle.std.specs.Prelude.{◌≡◌, ◌+◌, ℕ, List, [], map, reverse, Some};
ghost use Rattle.std.specs.Arc.{arc_value};
ghost use Rattle.dice_key.specs.Meaning.{Answered};
ghost use Rattle.task_share.specs.Seen.{task_at};
ghost use Rattle.journal.specs.declared.event.Told.TheVariants.{Start};
ghost use Rattle.journal.specs.declared.event.Reason.TheVariants.{Differs};
ghost use Rattle.journal.specs.Tell.{told};
ghost use Rattle.dice_jobs.specs.Jobs.{Computes, checking};
ghost use Rattle.core_laws.specs.Tasks.{IsReady, IsOut};
ghost use Rattle.core_laws.specs.Changes.{ChangesFirst};
ghost use Rattle.core_laws.specs.Desk.{World};
ghost use Rattle.dice_tasks.specs.Helds.{held_of};
ghost use Rattle.dice_tasks.specs.Hands.{Working};
ghost use Rattle.dice_tasks.specs.Endings.{Knows, BeginsAnew, AreTasked};

use crate::Tasks;
use crate::desk::Desk;
use dice_jobs::{Assignment, Job};
use dice_key::{KeyRef, Universe, laws_of};
use journal::Event;

/// The check of a key, which is out, found a changed answer. This event, a Start, tells it, and the
/// task computes the key's value by this job, which goes on from the answers of the check; the task
/// keeps a copy of it. It takes no memory.
pub fn differ<U: Universe>(
    desk: &mut Desk<U>,
    tasks: &mut Tasks<U>,
    key: &KeyRef<U>,
    event: Event<U::Key, U::Value>,
    job: Job<U>,
    own: Assignment<U>,
)
    requires known { Knows U.Key.eq job.name.version tasks.old desk.old }
    requires check { (x : U.Value) × (T : List (Answered U.Key U.Value)) × (b : ℕ)
        × (task_at U.Key.eq tasks.old (arc_value key.now)
        ≡ Some (held_of (checking job x T b) IsOut)) }
    requires own { own ≡ job }
    requires job { job.work ≡ Computes }
    ensures begun { (x : U.Value) × (T : List (Answered U.Key U.Value)) × (b : ℕ)
        × BeginsAnew U.Key.eq job.name.version (arc_value key.now)
        (held_of (checking job x T b) IsOut) (held_of job IsReady) (told event) tasks.old tasks.new
        desk.old desk.new }
    ensures tasked { AreTasked U.Key.eq tasks.old → AreTasked U.Key.eq tasks.new }
    ensures kept { (w : World U.Key U.Value) (W : List U.Key) (owed : ℕ) (x : U.Value)
        (T : List (Answered U.Key U.Value)) (base : ℕ) (changed : U.Key)
        → Working U.Key.eq U.meaning job.name.version W w (owed + 1) tasks.old desk.old
        → told event ≡ Start job.name.version (arc_value key.now) (Differs base changed)
        → task_at U.Key.eq tasks.old (arc_value key.now)
        ≡ Some (held_of (checking job x T base) IsOut) → ChangesFirst T job.answered changed
        → Working U.Key.eq U.meaning job.name.version W w owed tasks.new desk.new }
{
    laws_of::<U>();
    let version = job.name().version();
    let Some(task) = tasks.task_mut(key) else {
        return;
    };
    task.begin_anew(job, own);
    desk.returned(version, key);
    desk.push(event);
}
