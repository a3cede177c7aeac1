//! The tasks that wait for one key alone, and what they go on with.
ghost use Rattle.std.specs.Prelude.{◌≡◌, List, true, false, Some, IfOk, IfSome, IsSome};
ghost use Rattle.std.specs.Arc.{arc_value};
ghost use Rattle.std.specs.Option.{option_copied};
ghost use Rattle.task_share.specs.Numbers.{key_at};
ghost use Rattle.versioned_graph.specs.Entries.{Stored, kept_of};
ghost use Rattle.dice_steps.specs.Agreements.{IsEntryOf, AgreesIfKept, AllAgreeIfKept};
ghost use Rattle.dice_steps.specs.Wokens.{AsksAlone, AsksMore, HasAnswer, IsAnswer, WaitsAlone, HasAnswers, IsAnswered, AreWoken};

use crate::agreed::holds_at_base;
use crate::shared::Shared;
use crate::wake::Woken;
use dice_key::{Answers, KeyRef, Kind, NoMemory, Universe, ValueRef, laws_of};
use dice_tasks::{Next, Tasks};
use std::sync::Arc;
use task_share::{Askers, table_in_order};
use versioned_graph::{Entry, Graph};

/// A key whose task ends, its value, and what the graph keeps of it with that value, if more than
/// one task asks for it.
#[derive(Drop)]
struct Ended<'a, U: Universe> {
    key: &'a KeyRef<U>,
    value: &'a ValueRef<U>,
    kept: Option<&'a Entry<U>>,
}

/// The tasks that wait for a key alone, each with what it goes on with when the key's task ends
/// with this value: the answers to its batch. It takes the memory for them, and changes nothing.
///
/// It costs the number of tasks that ask for the key, and that of the keys and values of those that
/// wait for it alone; if more than one asks, also a comparison of the value with the one that the
/// graph keeps of the key.
pub(crate) fn woken_by<U: Universe>(
    shared: &Shared<U>,
    tasks: &Tasks<U>,
    version: u64,
    key: &KeyRef<U>,
    value: &ValueRef<U>,
) -> Result<Vec<Woken<U>>, NoMemory>
    requires answers { HasAnswers U.Key.eq U.meaning (arc_value key.now) tasks.now }
    requires agree { AllAgreeIfKept U.Key.eq U.meaning shared.now.cells version (arc_value key.now)
        (arc_value value.now) tasks.now shared.now.graph }
    ensures { IfOk result (λ ws. AreWoken U.Key.eq U.meaning shared.now.cells version (arc_value
        key.now) (arc_value value.now) tasks.now ws.items) }
{
    laws_of::<U>();
    let Askers {
        tasks: askers,
        numbers,
        ..
    } = tasks.askers(key);
    let kept = entry_of::<U>(&shared.graph, key, value, askers.len());
    let ended = Ended { key, value, kept };
    let mut woken = Vec::new(shared.alloc);
    for (asker, number) in askers.iter().zip(numbers) {
        if asks_alone::<U>(tasks, *number, key) {
            let next = next_of::<U>(shared, tasks, version, &ended, *number)?;
            let one = Woken::new(version, asker, next)?;
            woken.push(one)?;
        }
    }
    Ok(woken)
}

/// Whether a task that asks for a key, and is given by number, asks for no other. It looks at two
/// keys at most.
fn asks_alone<U: Universe>(tasks: &Tasks<U>, asker: usize, key: &KeyRef<U>) -> bool
    ensures alone { (j : U.Key) → key_at tasks.now asker ≡ Some j → result ≡ true
        → AsksAlone U.Key.eq (arc_value key.now) tasks.now j }
    ensures more { (j : U.Key) → key_at tasks.now asker ≡ Some j → result ≡ false
        → AsksMore U.Key.eq (arc_value key.now) tasks.now j }
{
    laws_of::<U>();
    table_in_order(tasks);
    let waits = tasks.waits_numbered(asker);
    for asked in waits {
        if **asked != **key {
            return false;
        }
    }
    true
}

/// What a task that waits for a key alone, and is given by number, goes on with when the key's task
/// ends with this value.
fn next_of<U: Universe>(
    shared: &Shared<U>,
    tasks: &Tasks<U>,
    version: u64,
    ended: &Ended<'_, U>,
    asker: usize,
) -> Result<Next<U>, NoMemory>
    requires { (j : U.Key) × (key_at tasks.now asker ≡ Some j)
        × WaitsAlone U.Key.eq U.meaning (arc_value ended.now.key.now) tasks.now j
        × (es : List (U.Key × Stored U.Key U.Value))
        × IfSome (option_copied ended.now.kept) (λ e. IsEntryOf U.Key.eq es (arc_value
        ended.now.key.now) (arc_value ended.now.value.now) (kept_of e))
        × AgreesIfKept U.Key.eq U.meaning shared.now.cells version (arc_value ended.now.key.now)
        (arc_value ended.now.value.now) tasks.now es j }
    ensures { (j : U.Key) → key_at tasks.now asker ≡ Some j
        → IfOk result (IsAnswered U.Key.eq U.meaning shared.now.cells version (arc_value
        ended.now.key.now) (arc_value ended.now.value.now) tasks.now j) }
{
    let Some(task) = tasks.task_numbered(asker) else {
        unreachable!();
    };
    let Some(batch) = task.batch() else {
        unreachable!();
    };
    let Some(assignment) = task.assignment() else {
        unreachable!();
    };
    let mut answers = Answers::new(shared.alloc);
    let keys = batch.keys();
    for asked in keys {
        let Some(answer) = answer_of::<U>(shared, tasks, version, ended.key, ended.value, asked)
        else {
            unreachable!();
        };
        answers.push(Arc::try_clone(answer)?)?;
    }
    let agreed = holds_at_base::<U>(ended.kept, assignment, batch);
    task.next(answers, agreed)
}

/// What the graph keeps of a key for which so many tasks ask, if they are more than one and its
/// value is this. It costs a look-up and a comparison of the values.
fn entry_of<'a, U: Universe>(
    graph: &'a Graph<U>,
    key: &KeyRef<U>,
    value: &ValueRef<U>,
    askers: usize,
) -> Option<&'a Entry<U>>
    ensures { IfSome (option_copied result) (λ e. IsEntryOf U.Key.eq graph.now (arc_value key.now)
        (arc_value value.now) (kept_of e)) }
{
    laws_of::<U>();
    if askers < 2 {
        return None;
    }
    match graph.entry(key) {
        Some(entry) if **entry.value() == **value => Some(entry),
        _ => None,
    }
}

/// The answer to a key of a batch: the input of an injected key at the version, the value with
/// which the task of `key` ends, and of any other key the value with which its task has ended.
fn answer_of<'a, U: Universe>(
    shared: &'a Shared<U>,
    tasks: &'a Tasks<U>,
    version: u64,
    key: &KeyRef<U>,
    value: &'a ValueRef<U>,
    asked: &KeyRef<U>,
) -> Option<&'a ValueRef<U>>
    ensures answer { IfSome result (λ x. IsAnswer U.Key.eq U.meaning shared.now.cells version
        (arc_value key.now) (arc_value value.now) tasks.now (arc_value asked.now)
        (arc_value x.now)) }
    ensures some { HasAnswer U.Key.eq U.meaning (arc_value key.now) tasks.now (arc_value asked.now)
        → IsSome result }
{
    laws_of::<U>();
    match shared.universe.kind(asked) {
        Kind::Injected => Some(shared.cells.at(version, asked)),
        _ if **asked == **key => Some(value),
        _ => tasks.task(asked)?.value(),
    }
}
