//! A batch that a task asks: it waits for the answers, goes on with them, or ends with a cycle.
ghost use Rattle.std.specs.Prelude.{◌≡◌, ◌+◌, ℕ, List, length, reverse, Some, true, OnErr, OnOk, IfErr, IfOk};
ghost use Rattle.std.specs.Arc.{arc_value};
ghost use Rattle.dice_jobs.specs.Jobs.{Wanting};
ghost use Rattle.task_share.specs.Seen.{Share, task_at, is_live, KeepsTasks, KeepsAsks, KeepsRoom};
ghost use Rattle.injected.specs.Seen.{Seen};
ghost use Rattle.journal.specs.Events.{commits_of};
ghost use Rattle.versioned_graph.specs.Entries.{Stored};
ghost use Rattle.core_laws.specs.Tasks.{IsOut, IsWaiting};
ghost use Rattle.core_laws.specs.Stands.{AsksNext};
ghost use Rattle.core_laws.specs.Desk.{World};
ghost use Rattle.dice_steps.specs.AtHand.{AtHand};
ghost use Rattle.dice_tasks.specs.Helds.{held_of};
ghost use Rattle.dice_tasks.specs.Hands.{KeepsHands, KeepsDeskRoom, Working};
ghost use Rattle.dice_tasks.specs.Entries.{EntriesStand};
ghost use Rattle.dice_tasks.specs.Endings.{ReachesPath, GivesUpAll, IsEnough, path_of};
ghost use Rattle.dice_tasks.specs.Makings.{CanMake, IsMade, IsMaking, IsOfKey, MakesAlone, MayMake};
ghost use Rattle.dice_steps.specs.Plans.{IsPlan, IsPlanDone, IfEnds, key_in};
ghost use Rattle.dice_steps.specs.Taken.{IsBatchDone};
ghost use Rattle.dice_steps.specs.Batches.{AreMakable, GivesUp, HasRoomToMake, MakesOn, MakesParted, MakesParts, TakesUp};

use crate::plan::{Part, Plan, plan_batch};
use crate::shared::Shared;
use dice_jobs::{Parked, Report, Step};
use dice_key::{KeyRef, NoMemory, Universe, laws_of};
use dice_tasks::{Desk, How, Tasks, cascade, end_all, go_on, make, park};
use injected::cells_are_the_inputs;
use std::sync::Arc;
use versioned_graph::Graph;

/// Gives up the task at work of a key: it ends as lost, or with a cycle that the key reaches, and
/// with it all that ask for it, for one of these, and so on; and what nobody asks for then is
/// dropped. Of the cycle's path there is an owner for each of them. It takes no memory.
///
/// It costs the number of tasks that it ends and drops, and of the keys that they waited for.
pub fn give_up<U: Universe>(
    desk: &mut Desk<U>,
    tasks: &mut Tasks<U>,
    version: u64,
    key: &KeyRef<U>,
    how: How<U::Key>,
)
    requires hand { (w : World U.Key U.Value) × (owed : ℕ)
        × (es : List (U.Key × Stored U.Key U.Value)) × (s : Seen U.Key U.Value)
        × AtHand U.Key.eq U.meaning version w owed tasks.old desk.old es s }
    requires live { is_live U.Key.eq tasks.old (arc_value key.now) ≡ true }
    requires enough { IsEnough U.Key.eq tasks.old (arc_value key.now) how }
    requires reached { ReachesPath U.Key.eq U.meaning (path_of how)
        (commits_of (reverse desk.old.events)) version (arc_value key.now) }
    ensures ends { GivesUpAll U.Key.eq version (path_of how) (arc_value key.now) tasks.old tasks.new
        desk.old desk.new }
    ensures given { GivesUp U.Key.eq version (path_of how) (arc_value key.now) tasks.old desk.old
        tasks.new desk.new }
    ensures kept { (w : World U.Key U.Value) (owed : ℕ) (es : List (U.Key × Stored U.Key U.Value))
        (s : Seen U.Key U.Value) → AtHand U.Key.eq U.meaning version w owed tasks.old desk.old es s
        → AtHand U.Key.eq U.meaning version w owed tasks.new desk.new es s }
{
    laws_of::<U>();
    end_all(desk, tasks, version, key, how);
    cascade(desk, tasks, version);
}

/// Makes what was planned for the keys of a batch, the last part first, in room made ahead. It
/// takes no memory.
fn make_all<U: Universe>(
    desk: &mut Desk<U>,
    tasks: &mut Tasks<U>,
    graph: &mut Graph<U>,
    version: u64,
    parts: Vec<Part<U>>,
)
    requires hand { (W : List U.Key) × (w : World U.Key U.Value) × (owed : ℕ)
        × MakesOn U.Key.eq U.meaning version W w owed parts.items tasks.old desk.old graph.old }
    requires room { HasRoomToMake U.Key.eq parts.items tasks.old desk.old }
    ensures made { MakesParts U.Key.eq parts.items version tasks.old desk.old tasks.new desk.new }
    ensures looked { (born : ℕ)
        → AreMakable U.Key.eq U.meaning version born parts.items tasks.old graph.old
        → MakesParted U.Key.eq U.meaning version born parts.items tasks.old desk.old graph.old
        tasks.new desk.new graph.new }
    ensures kept { (W : List U.Key) (w : World U.Key U.Value) (owed : ℕ)
        → MakesOn U.Key.eq U.meaning version W w owed parts.items tasks.old desk.old graph.old
        → Working U.Key.eq U.meaning version W w owed tasks.new desk.new
        × EntriesStand U.Key.eq U.meaning (reverse desk.new.events) graph.new }
{
    laws_of::<U>();
    let mut rest = parts;
    'parts: while let Some(part) = rest.pop() {
        make_part::<U>(desk, tasks, graph, version, part);
    }
}

/// Makes what was planned for one key, in room made ahead. It takes no memory.
fn make_part<U: Universe>(
    desk: &mut Desk<U>,
    tasks: &mut Tasks<U>,
    graph: &mut Graph<U>,
    version: u64,
    part: Part<U>,
)
    requires own { IsOfKey version (key_in part) part.making }
    requires room { CanMake U.Key.eq version (key_in part) tasks.old desk.old part.making }
    ensures made { IsMade U.Key.eq version (key_in part) tasks.old desk.old graph.old part.making
        tasks.new desk.new graph.new }
    ensures alone { MakesAlone U.Key.eq version (key_in part) tasks.old desk.old graph.old tasks.new
        desk.new graph.new }
    ensures kept { (w : World U.Key U.Value) (W : List U.Key) (owed born : ℕ)
        → Working U.Key.eq U.meaning version W w (owed + 3) tasks.old desk.old
        → EntriesStand U.Key.eq U.meaning (reverse desk.old.events) graph.old
        → MayMake U.Key.eq U.meaning (reverse desk.old.events) version (key_in part) born
        → IsMaking U.Key.eq U.meaning version (key_in part) born tasks.old graph.old part.making
        → Working U.Key.eq U.meaning version W w owed tasks.new desk.new
        × EntriesStand U.Key.eq U.meaning (reverse desk.new.events) graph.new }
{
    let Part { key, making, .. } = part;
    make::<U>(desk, tasks, graph, version, &key, making);
}

/// Does what was planned: the task of a key, which was out, ends, or goes on or waits once what its
/// batch needs is made. It takes no memory.
fn take_up<U: Universe>(
    shared: &mut Shared<U>,
    tasks: &mut Tasks<U>,
    version: u64,
    key: &KeyRef<U>,
    parked: Parked<U>,
    plan: Plan<U>,
)
    requires own { (parked.job.name.key ≡ arc_value key.now) × (parked.job.name.version ≡ version) }
    requires out { task_at U.Key.eq tasks.old (arc_value key.now)
        ≡ Some (held_of parked.job IsOut) }
    requires next { AsksNext U.Key.eq U.meaning version (arc_value key.now) parked.job.work
        parked.job.answered (IsWaiting parked.keys) }
    requires hand { (w : World U.Key U.Value) × (owed : ℕ) × (s : Seen U.Key U.Value)
        × AtHand U.Key.eq U.meaning version w owed tasks.old shared.old.desk shared.old.graph s
        × IsPlan U.Key.eq U.meaning version owed parked.job parked.keys tasks.old shared.old.desk
        shared.old.graph s plan }
    ensures given { TakesUp U.Key.eq U.meaning version parked.job parked.keys tasks.old
        shared.old.desk tasks.new shared.new.desk }
    ensures cells { shared.new.cells ≡ shared.old.cells }
    ensures done { (w : World U.Key U.Value) (owed : ℕ) (s : Seen U.Key U.Value)
        → AtHand U.Key.eq U.meaning version w owed tasks.old shared.old.desk shared.old.graph s
        → IsPlan U.Key.eq U.meaning version owed parked.job parked.keys tasks.old shared.old.desk
        shared.old.graph s plan
        → IsPlanDone U.Key.eq U.meaning version owed parked.job parked.keys tasks.old
        shared.old.desk shared.old.graph s plan tasks.new shared.new.desk shared.new.graph }
    ensures kept { (w : World U.Key U.Value) (owed : ℕ) (s : Seen U.Key U.Value)
        → AtHand U.Key.eq U.meaning version w owed tasks.old shared.old.desk shared.old.graph s
        → IsPlan U.Key.eq U.meaning version owed parked.job parked.keys tasks.old shared.old.desk
        shared.old.graph s plan
        → AtHand U.Key.eq U.meaning version w owed tasks.new shared.new.desk shared.new.graph s }
{
    laws_of::<U>();
    cells_are_the_inputs::<U>();
    match plan {
        Plan::Ends(owners) => give_up::<U>(
            &mut shared.desk,
            tasks,
            version,
            key,
            How::Cycle(owners),
        ),
        Plan::GoesOn(parts, next) => {
            make_all::<U>(&mut shared.desk, tasks, &mut shared.graph, version, parts);
            go_on::<U>(&mut shared.desk, tasks, version, key, parked, next);
        }
        Plan::Waits(parts, waits) => {
            make_all::<U>(&mut shared.desk, tasks, &mut shared.graph, version, parts);
            park::<U>(&mut shared.desk, tasks, version, key, parked, waits);
        }
    }
}

/// Takes up the batch that a step asks, of the job of a task that is out: what its keys need is
/// made, and the task waits for it, or goes on if all keys have values at hand. If a key comes to a
/// cycle nothing is made: the task ends with the cycle, and all that ask for it.
///
/// If memory is refused the step is handed back, and all is as before, but for room; there is room
/// for `owed` events beside then as before. It costs a look-up for each key of the batch, a walk
/// over the waits that begin there, and what `give_up` says.
pub fn ask_batch<U: Universe>(
    shared: &mut Shared<U>,
    tasks: &mut Tasks<U>,
    owed: usize,
    step: Step<U>,
) -> Result<(), (NoMemory, Step<U>)>
    requires asks { (ks : List U.Key) × (step.outcome ≡ Wanting ks) }
    requires out { task_at U.Key.eq tasks.old step.job.name.key ≡ Some (held_of step.job IsOut) }
    requires hand { (w : World U.Key U.Value)
        × AtHand U.Key.eq U.meaning step.job.name.version w owed tasks.old shared.old.desk
        shared.old.graph shared.old.cells }
    ensures given { OnOk result ((ks : List U.Key) → step.outcome ≡ Wanting ks
        → TakesUp U.Key.eq U.meaning step.job.name.version step.job ks tasks.old shared.old.desk
        tasks.new shared.new.desk) }
    ensures done { OnOk result ((ks : List U.Key) → step.outcome ≡ Wanting ks
        → IsBatchDone U.Key.eq U.meaning step.job.name.version step.job ks shared.old.cells
        tasks.old shared.old.desk shared.old.graph tasks.new shared.new.desk shared.new.graph) }
    ensures cells { shared.new.cells ≡ shared.old.cells }
    ensures kept { (w : World U.Key U.Value)
        → AtHand U.Key.eq U.meaning step.job.name.version w owed tasks.old shared.old.desk
        shared.old.graph shared.old.cells
        → AtHand U.Key.eq U.meaning step.job.name.version w owed tasks.new shared.new.desk
        shared.new.graph shared.old.cells }

    // If memory is refused, all that is seen is as before.
    ensures step { IfErr result (λ e. e.1 ≡ step) }
    ensures tasks { OnErr result (KeepsTasks U.Key.eq tasks.old tasks.new) }
    ensures waits { OnErr result (KeepsAsks U.Key.eq tasks.old tasks.new) }
    ensures room { OnErr result (KeepsRoom U.Key.eq tasks.old tasks.new) }
    ensures hands { OnErr result (KeepsHands shared.old.desk shared.new.desk) }
    ensures desk_room { OnErr result (KeepsDeskRoom shared.old.desk shared.new.desk) }
    ensures graph { OnErr result (shared.new.graph ≡ shared.old.graph) }
{
    laws_of::<U>();
    let version = step.assignment().name().version();
    let (key, plan) = match plan_step::<U>(shared, tasks, owed, &step) {
        Ok(planned) => planned,
        Err(refused) => return Err((refused, step)),
    };
    let Some(parked) = step.into_parked() else {
        unreachable!();
    };
    take_up::<U>(shared, tasks, version, &key, parked, plan);
    Ok(())
}

/// Plans what comes of the batch that a step asks, and copies the key of its task.
fn plan_step<U: Universe>(
    shared: &mut Shared<U>,
    tasks: &mut Tasks<U>,
    owed: usize,
    step: &Step<U>,
) -> Result<(KeyRef<U>, Plan<U>), NoMemory>
    requires asks { (ks : List U.Key) × (step.now.outcome ≡ Wanting ks) }
    requires out { task_at U.Key.eq tasks.old step.now.job.name.key
        ≡ Some (held_of step.now.job IsOut) }
    requires hand { (w : World U.Key U.Value)
        × AtHand U.Key.eq U.meaning step.now.job.name.version w owed tasks.old shared.old.desk
        shared.old.graph shared.old.cells }
    ensures tasks { KeepsTasks U.Key.eq tasks.old tasks.new }
    ensures asks { KeepsAsks U.Key.eq tasks.old tasks.new }
    ensures room { KeepsRoom U.Key.eq tasks.old tasks.new }
    ensures hands { KeepsHands shared.old.desk shared.new.desk }
    ensures desk_room { KeepsDeskRoom shared.old.desk shared.new.desk }
    ensures graph { shared.new.graph ≡ shared.old.graph }
    ensures cells { shared.new.cells ≡ shared.old.cells }
    ensures key { IfOk result (λ r. arc_value r.0 ≡ step.now.job.name.key) }
    ensures plan { IfOk result (λ r. (ks : List U.Key) → step.now.outcome ≡ Wanting ks
        → IsPlan U.Key.eq U.meaning step.now.job.name.version owed step.now.job ks tasks.new
        shared.new.desk shared.new.graph shared.new.cells r.1) }
    ensures still { IfOk result (λ r. IfEnds r.1 ((tasks.new ≡ tasks.old) × (shared.new.desk
        ≡ shared.old.desk))) }
    ensures next { IfOk result (λ r. (ks : List U.Key) → step.now.outcome ≡ Wanting ks
        → AsksNext U.Key.eq U.meaning step.now.job.name.version step.now.job.name.key
        step.now.job.work step.now.job.answered (IsWaiting ks)) }
{
    laws_of::<U>();
    let assignment = step.assignment();
    let key = Arc::try_clone(assignment.name().key())?;
    match step.report() {
        Report::Asks(batch) => {
            let plan = plan_batch::<U>(shared, tasks, owed, assignment, batch)?;
            Ok((key, plan))
        }
        _ => unreachable!(),
    }
}
