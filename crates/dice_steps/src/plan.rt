//! What the batch that a task asks comes to, prepared before anything is seen of it.
ghost use Rattle.std.specs.Prelude.{◌≡◌, ◌≢◌, ◌<◌, ◌≤◌, ◌⊎◌, ◌&&◌, ◌||◌, ◌++◌, ◌∷◌, [], ℕ, true, false, Some, length, map, MatchBool, IfOk, IfSome, IfNone, OnOk};
ghost use Rattle.std.specs.Arc.{arc_value};
ghost use Rattle.std.specs.List.{list_any, AllZip};
ghost use Rattle.std.specs.Option.{option_copied, option_map};
ghost use Rattle.dice_key.specs.declared.universe.Kind.TheVariants.{Injected};
ghost use Rattle.task_share.specs.Asked.{Leads};
ghost use Rattle.task_share.specs.Numbers.{IsPlaceOf};
ghost use Rattle.task_share.specs.Seen.{task_at, asked_of, is_live, has_place, asker_room, wait_room, KeepsTasks, KeepsAsks, KeepsRoom};
ghost use Rattle.versioned_graph.specs.Entries.{entry_at};
ghost use Rattle.versioned_graph.specs.Looks.{Matches, look};
ghost use Rattle.core_laws.specs.Tasks.{IsOut, IsWaiting, value_of};
ghost use Rattle.core_laws.specs.Stands.{AsksNext};
ghost use Rattle.core_laws.specs.Desk.{World};
ghost use Rattle.dice_steps.specs.AtHand.{AtHand};
ghost use Rattle.dice_tasks.specs.CyclePaths.{path_with};
ghost use Rattle.dice_tasks.specs.Helds.{held_of};
ghost use Rattle.dice_tasks.specs.Hands.{KeepsHands, KeepsDeskRoom, tasks_of};
ghost use Rattle.dice_steps.specs.Plans.{key_in, waits_of, is_awaited, AreMakings, IsPartFor, IsMatchedBy, IsAtHand, HasNone, IsMet, IsSurvey, ArePlaced, IsPlan, IfEnds};
ghost use Rattle.dice_steps.specs.Taken.{HasNoPath, IsPathAt};
ghost use Rattle.lists.specs.Lists.{Has};

use crate::agreed::holds_at_both;
use crate::noted::note;
use crate::shared::Shared;
use cycle_guard::{count_above, would_close_placed};
use dice_jobs::Assignment;
use dice_key::{Answers, Batch, KeyRef, Kind, NoMemory, Path, Universe, ValueRef, laws_of};
use dice_tasks::{Desk, Making, Next, Owners, Task, Tasks, looked, prepare};
use small_set::SmallSet;
use std::alloc::Global;
use std::sync::Arc;
use task_share::Wait;
use versioned_graph::{Found, Graph};

/// Up to so many keys are compared each with each; of more a set is made.
const FEW: usize = 16;

/// What is planned of a key of a batch: what is made of it, and whether it is waited for.
#[derive(Drop)]
pub(crate) struct Part<U: Universe> {
    pub(crate) key: KeyRef<U>,
    pub(crate) making: Making<U>,
    pub(crate) awaited: bool,
}

/// What one key of a batch comes to: a cycle, or its part.
#[derive(Drop)]
pub(crate) enum Met<U: Universe> {
    Cycle(Arc<Path<U::Key>>),
    Part(Part<U>),
}

/// What the keys of a batch come to.
#[derive(Drop)]
pub(crate) enum Survey<U: Universe> {
    /// A cycle: a wait for one of them would close it, or the task of one has ended with it.
    Cycle(Arc<Path<U::Key>>),
    /// A part for each key that is not injected, the last first.
    Parts(Vec<Part<U>>),
}

/// What a batch comes to, with all the memory that it takes.
#[derive(Drop)]
pub(crate) enum Plan<U: Universe> {
    /// The task that asks it ends with this cycle, with all that ask for it. Its path has an owner
    /// for each of them.
    Ends(Owners<U::Key>),
    /// After these are made, all keys have values, and the task goes on.
    GoesOn(Vec<Part<U>>, Next<U>),
    /// After these are made, the task waits.
    Waits(Vec<Part<U>>, Vec<Wait<U::Key>>),
}

/// Plans what comes of the batch that the job of this assignment asks, in the order of its keys. It
/// takes all the memory for it, and makes room for `owed` events beside; nothing else changes, even
/// if memory is refused.
///
/// It costs a look-up for each key, and a walk over the waits that begin there; if there is a
/// cycle, also a walk over the tasks that end with it.
pub(crate) fn plan_batch<U: Universe>(
    shared: &mut Shared<U>,
    tasks: &mut Tasks<U>,
    owed: usize,
    assignment: &Assignment<U>,
    batch: &Batch<U::Key>,
) -> Result<Plan<U>, NoMemory>
    requires hand { (w : World U.Key U.Value)
        × AtHand U.Key.eq U.meaning assignment.now.name.version w owed tasks.old shared.old.desk
        shared.old.graph shared.old.cells }
    requires out { task_at U.Key.eq tasks.old assignment.now.name.key
        ≡ Some (held_of assignment.now IsOut) }
    requires next { AsksNext U.Key.eq U.meaning assignment.now.name.version assignment.now.name.key
        assignment.now.work assignment.now.answered (IsWaiting batch.now) }
    ensures tasks { KeepsTasks U.Key.eq tasks.old tasks.new }
    ensures asks { KeepsAsks U.Key.eq tasks.old tasks.new }
    ensures room { KeepsRoom U.Key.eq tasks.old tasks.new }
    ensures hands { KeepsHands shared.old.desk shared.new.desk }
    ensures desk_room { KeepsDeskRoom shared.old.desk shared.new.desk }
    ensures graph { shared.new.graph ≡ shared.old.graph }
    ensures cells { shared.new.cells ≡ shared.old.cells }
    ensures plan { IfOk result (IsPlan U.Key.eq U.meaning assignment.now.name.version owed
        assignment.now batch.now tasks.new shared.new.desk shared.new.graph shared.new.cells) }
    ensures still { IfOk result (λ p. IfEnds p ((tasks.new ≡ tasks.old) × (shared.new.desk
        ≡ shared.old.desk))) }
{
    laws_of::<U>();
    let name = assignment.name();
    let version = name.version();
    let own = name.key();
    let alloc = shared.alloc;
    let born = told_so_far::<U>(&shared.desk);
    let parts = match look_over::<U>(shared, tasks, version, own, batch, born)? {
        Survey::Cycle(path) => {
            let count = count_above(alloc, tasks, own)?;
            return Ok(Plan::Ends(Owners::new(alloc, path, count)?));
        }
        Survey::Parts(parts) => parts,
    };
    let waits = reserve_parts::<U>(alloc, tasks, own, &parts)?;
    let count = parts.len();
    shared.desk.reserve(owed, count, count)?;
    if !waits.is_empty() {
        return Ok(Plan::Waits(parts, waits));
    }
    let Some(answers) = answers_of::<U>(shared, tasks, version, batch, &parts)? else {
        return Ok(Plan::Waits(parts, waits));
    };
    let agreed = holds_at_both::<U>(shared, version, assignment, batch);
    let next = Next::of_batch(assignment, batch, answers, agreed)?;
    Ok(Plan::GoesOn(parts, next))
}

/// How many events the journal has.
fn told_so_far<U: Universe>(desk: &Desk<U>) -> u64
    ensures { result ≡ length desk.now.events }
{
    desk.journal().len() as u64
}

/// What the keys of a batch come to, in their order: if one comes to a cycle the others are not
/// looked at. It changes nothing.
fn look_over<U: Universe>(
    shared: &Shared<U>,
    tasks: &Tasks<U>,
    version: u64,
    own: &KeyRef<U>,
    batch: &Batch<U::Key>,
    born: u64,
) -> Result<Survey<U>, NoMemory>
    ensures { IfOk result (IsSurvey U.Key.eq U.meaning version born tasks.now shared.now.graph
        (arc_value own.now) batch.now) }
{
    match batch.keys() {
        [key] => look_at::<U>(shared, tasks, version, own, key, born),
        keys => {
            if keys.len() <= FEW {
                look_over_few::<U>(shared, tasks, version, own, keys, born)
            } else {
                look_over_all::<U>(shared, tasks, version, own, keys, born)
            }
        }
    }
}

/// What a key that is asked alone comes to.
fn look_at<U: Universe>(
    shared: &Shared<U>,
    tasks: &Tasks<U>,
    version: u64,
    own: &KeyRef<U>,
    key: &KeyRef<U>,
    born: u64,
) -> Result<Survey<U>, NoMemory>
    ensures { IfOk result (IsSurvey U.Key.eq U.meaning version born tasks.now shared.now.graph
        (arc_value own.now) (arc_value key.now ∷ [])) }
{
    let mut parts = Vec::new(shared.alloc);
    if let Kind::Injected = shared.universe.kind(key) {
        return Ok(Survey::Parts(parts));
    }
    match meet::<U>(shared, tasks, version, own, key, born)? {
        Met::Cycle(path) => Ok(Survey::Cycle(path)),
        Met::Part(part) => {
            parts.push(part)?;
            Ok(Survey::Parts(parts))
        }
    }
}

/// What a few keys come to, in their order; each is looked at where it stands first. Those that
/// stand twice are found by a walk over the parts, which takes no memory.
fn look_over_few<U: Universe>(
    shared: &Shared<U>,
    tasks: &Tasks<U>,
    version: u64,
    own: &KeyRef<U>,
    keys: &[KeyRef<U>],
    born: u64,
) -> Result<Survey<U>, NoMemory>
    ensures { IfOk result (IsSurvey U.Key.eq U.meaning version born tasks.now shared.now.graph
        (arc_value own.now) (map arc_value keys.now)) }
{
    laws_of::<U>();
    let mut parts = Vec::new(shared.alloc);
    for key in keys {
        if is_passed::<U>(&*shared.universe, &parts, key) {
            continue;
        }
        match meet::<U>(shared, tasks, version, own, key, born)? {
            Met::Cycle(path) => return Ok(Survey::Cycle(path)),
            Met::Part(part) => parts.push(part)?,
        }
    }
    parts.reverse();
    Ok(Survey::Parts(parts))
}

/// Whether a key is injected, or is among those of these parts.
fn is_passed<U: Universe>(universe: &U, parts: &[Part<U>], key: &KeyRef<U>) -> bool
    ensures { MatchBool result ((U.meaning.kind (arc_value key.now) ≡ Injected)
        ⊎ Has (map key_in parts.now) (arc_value key.now)) ((U.meaning.kind (arc_value key.now)
        ≢ Injected) × (Has (map key_in parts.now) (arc_value key.now) → ⊥)) }
{
    laws_of::<U>();
    match universe.kind(key) {
        Kind::Injected => true,
        _ => is_among::<U>(parts, key),
    }
}

/// Whether a key is among those of these parts.
fn is_among<U: Universe>(parts: &[Part<U>], key: &KeyRef<U>) -> bool
    ensures { result ≡ list_any (U.Key.eq (arc_value key.now)) (map key_in parts.now) }
{
    for part in parts {
        if is_for::<U>(part, key) {
            return true;
        }
    }
    false
}

/// Whether a part is that of a key.
fn is_for<U: Universe>(part: &Part<U>, key: &KeyRef<U>) -> bool
    ensures { result ≡ U.Key.eq (arc_value key.now) (key_in part.now) }
{
    **key == *part.key
}

/// What many keys come to, in their order; each is looked at where it stands first.
fn look_over_all<U: Universe>(
    shared: &Shared<U>,
    tasks: &Tasks<U>,
    version: u64,
    own: &KeyRef<U>,
    keys: &[KeyRef<U>],
    born: u64,
) -> Result<Survey<U>, NoMemory>
    ensures { IfOk result (IsSurvey U.Key.eq U.meaning version born tasks.now shared.now.graph
        (arc_value own.now) (map arc_value keys.now)) }
{
    laws_of::<U>();
    let mut seen = SmallSet::new(shared.alloc, shared.universe.seed());
    let mut parts = Vec::new(shared.alloc);
    for key in keys {
        if !is_new::<U>(&*shared.universe, &mut seen, key)? {
            continue;
        }
        match meet::<U>(shared, tasks, version, own, key, born)? {
            Met::Cycle(path) => return Ok(Survey::Cycle(path)),
            Met::Part(part) => parts.push(part)?,
        }
    }
    parts.reverse();
    Ok(Survey::Parts(parts))
}

/// Whether a key is not injected and was not seen before. It is noted then.
fn is_new<U: Universe>(
    universe: &U,
    seen: &mut SmallSet<KeyRef<U>>,
    key: &KeyRef<U>,
) -> Result<bool, NoMemory>
    ensures new { IfOk result (λ b. MatchBool b ((U.meaning.kind (arc_value key.now) ≢ Injected)
        × (list_any (λ k. U.Key.eq (arc_value key.now) (arc_value k)) seen.old ≡ false))
        ((U.meaning.kind (arc_value key.now) ≡ Injected)
        ⊎ (list_any (λ k. U.Key.eq (arc_value key.now) (arc_value k)) seen.old ≡ true))) }
    ensures seen { IfOk result (λ b. (q : U.Key)
        → list_any (λ k. U.Key.eq q (arc_value k)) seen.new
        ≡ ((b && U.Key.eq (arc_value key.now) q)
        || list_any (λ k. U.Key.eq q (arc_value k)) seen.old)) }
{
    laws_of::<U>();
    match universe.kind(key) {
        Kind::Injected => Ok(false),
        _ => note(seen, key),
    }
}

/// What a key that is not injected comes to, if the task of `own` asks for it. It is looked up in
/// the table once.
fn meet<U: Universe>(
    shared: &Shared<U>,
    tasks: &Tasks<U>,
    version: u64,
    own: &KeyRef<U>,
    key: &KeyRef<U>,
    born: u64,
) -> Result<Met<U>, NoMemory>
    requires { U.meaning.kind (arc_value key.now) ≢ Injected }
    ensures { IfOk result (IsMet U.Key.eq U.meaning version born tasks.now shared.now.graph
        (arc_value own.now) (arc_value key.now)) }
{
    let name = Arc::try_clone(key)?;
    let place = place_of::<U>(tasks, key);
    if let Some(path) = cycle_at::<U>(shared.alloc, tasks, own, key, place)? {
        return Ok(Met::Cycle(path));
    }
    let task = task_in::<U>(tasks, place);
    let making = prepare::<U>(shared.alloc, &shared.graph, task, version, key, born)?;
    let awaited = is_awaited::<U>(tasks, place, &making);
    Ok(Met::Part(Part {
        key: name,
        making,
        awaited,
    }))
}

/// Where a key stands in the table: its number, if it has a place.
fn place_of<U: Universe>(tasks: &Tasks<U>, key: &KeyRef<U>) -> Option<usize>
    ensures { IsPlaceOf U.Key.eq tasks.now (arc_value key.now) result }
{
    tasks.number(key)
}

/// The task of the key that stands there, if it has one.
fn task_in<U: Universe>(tasks: &Tasks<U>, place: Option<usize>) -> Option<&Task<U>>
    ensures { (k : U.Key) → IsPlaceOf U.Key.eq tasks.now k place
        → task_at U.Key.eq tasks.now k ≡ option_copied result }
{
    match place {
        Some(number) => tasks.task_numbered(number),
        None => None,
    }
}

/// The cycle to which a wait of the task of `own` for a key comes, which stands there: the one that
/// it would close, or the one with which the key's task has ended.
fn cycle_at<U: Universe>(
    alloc: Global,
    tasks: &Tasks<U>,
    own: &KeyRef<U>,
    key: &KeyRef<U>,
    place: Option<usize>,
) -> Result<Option<Arc<Path<U::Key>>>, NoMemory>
    requires { IsPlaceOf U.Key.eq tasks.now (arc_value key.now) place }
    ensures some { IfOk result (λ o. IfSome o
        (λ p. IsPathAt U.Key.eq tasks.now (arc_value own.now) (arc_value key.now) (arc_value p))) }
    ensures apart { IfOk result (λ o. IfNone o
        (Leads (asked_of U.Key.eq tasks.now) (arc_value key.now) (arc_value own.now) → ⊥)) }
    ensures whole { IfOk result (λ o. IfNone o (HasNoPath U.Key.eq tasks.now (arc_value key.now))) }
{
    if let Some(path) = would_close_placed(alloc, tasks, own, key, place)? {
        return Ok(Some(Arc::new(alloc, path)?));
    }
    match ended_by_cycle::<U>(tasks, place) {
        Some(path) => Ok(Some(Arc::try_clone(path)?)),
        None => Ok(None),
    }
}

/// The cycle with which the task of the key that stands there has ended, if any.
fn ended_by_cycle<U: Universe>(tasks: &Tasks<U>, place: Option<usize>) -> Option<&Arc<Path<U::Key>>>
    ensures { (k : U.Key) → IsPlaceOf U.Key.eq tasks.now k place
        → option_map (λ p. arc_value p.now) result ≡ path_with (task_at U.Key.eq tasks.now k) }
{
    task_in::<U>(tasks, place)?.cycle()
}

/// Whether the key that stands there is waited for if this is made of it.
fn is_awaited<U: Universe>(tasks: &Tasks<U>, place: Option<usize>, making: &Making<U>) -> bool
    ensures { (k : U.Key) → IsPlaceOf U.Key.eq tasks.now k place
        → result ≡ is_awaited U.Key.eq tasks.now k making.now }
{
    match making {
        Making::Join => is_live_in::<U>(tasks, place),
        Making::Match { .. } => false,
        Making::Run { .. } | Making::Check { .. } => true,
    }
}

/// Whether the key that stands there has a task that has not ended.
fn is_live_in<U: Universe>(tasks: &Tasks<U>, place: Option<usize>) -> bool
    ensures { (k : U.Key) → IsPlaceOf U.Key.eq tasks.now k place
        → result ≡ is_live U.Key.eq tasks.now k }
{
    match place {
        Some(number) => tasks.is_live_numbered(number),
        None => false,
    }
}

/// Makes room for what is planned, and the waits of the task of `own` for the keys that are waited
/// for.
fn reserve_parts<U: Universe>(
    alloc: Global,
    tasks: &mut Tasks<U>,
    own: &KeyRef<U>,
    parts: &[Part<U>],
) -> Result<Vec<Wait<U::Key>>, NoMemory>
    ensures tasks { KeepsTasks U.Key.eq tasks.old tasks.new }
    ensures asks { KeepsAsks U.Key.eq tasks.old tasks.new }
    ensures room { KeepsRoom U.Key.eq tasks.old tasks.new }
    ensures placed { OnOk result (ArePlaced U.Key.eq parts.now tasks.new) }
    ensures waits { IfOk result (λ ws. ws.items ≡ waits_of (arc_value own.now) parts.now) }
    ensures fits { IfOk result
        (λ ws. length ws.items ≤ wait_room U.Key.eq tasks.new (arc_value own.now)) }
{
    laws_of::<U>();
    let mut waits = Vec::new(alloc);
    for part in parts {
        reserve_part::<U>(tasks, own, part, &mut waits)?;
    }
    tasks.reserve_waits(own, waits.len())?;
    Ok(waits)
}

/// Makes room for one part, and adds its wait to these if it is waited for.
fn reserve_part<U: Universe>(
    tasks: &mut Tasks<U>,
    own: &KeyRef<U>,
    part: &Part<U>,
    waits: &mut Vec<Wait<U::Key>>,
) -> Result<(), NoMemory>
    ensures tasks { KeepsTasks U.Key.eq tasks.old tasks.new }
    ensures asks { KeepsAsks U.Key.eq tasks.old tasks.new }
    ensures room { KeepsRoom U.Key.eq tasks.old tasks.new }
    ensures place { OnOk result (has_place U.Key.eq tasks.new (key_in part.now) ≡ true) }
    ensures asker { OnOk result
        (part.now.awaited ≡ true → 0 < asker_room U.Key.eq tasks.new (key_in part.now)) }
    ensures waits { OnOk result
        (waits.new.items ≡ waits.old.items ++ waits_of (arc_value own.now) (part.now ∷ [])) }
{
    if !part.awaited {
        return tasks.reserve(&part.key);
    }
    let wait = Wait::new(&part.key, own)?;
    waits.push(wait)?;
    tasks.reserve_asker(&part.key)
}

/// The answers to a batch, if each of its keys has a value at hand. These are its parts, the last
/// first.
fn answers_of<U: Universe>(
    shared: &Shared<U>,
    tasks: &Tasks<U>,
    version: u64,
    batch: &Batch<U::Key>,
    parts: &[Part<U>],
) -> Result<Option<Answers<U::Value>>, NoMemory>
    requires { (born : ℕ)
        × AreMakings U.Key.eq U.meaning version born tasks.now shared.now.graph parts.now }
    ensures some { IfOk result (λ o. IfSome o (AllZip (IsAtHand U.Key.eq U.meaning version tasks.now
        shared.now.graph shared.now.cells) batch.now)) }
    ensures none { IfOk result (λ o. IfNone o ((q : U.Key) × Has batch.now q
        × HasNone U.Key.eq U.meaning version tasks.now shared.now.graph q)) }
{
    laws_of::<U>();
    let mut answers = Answers::new(shared.alloc);
    let mut left = parts.len();
    let keys = batch.keys();
    for key in keys {
        let part = part_of::<U>(parts, left, key);
        if part.is_some() {
            left -= 1;
        }
        let Some(value) = value_at_hand::<U>(shared, tasks, version, key, part) else {
            return Ok(None);
        };
        answers.push(Arc::try_clone(value)?)?;
    }
    Ok(Some(answers))
}

/// The last of the first parts, so many, if it is that of a key.
fn part_of<'a, U: Universe>(
    parts: &'a [Part<U>],
    left: usize,
    key: &KeyRef<U>,
) -> Option<&'a Part<U>>
    ensures some { IfSome (option_copied result)
        (λ p. Has parts.now p × (key_in p ≡ arc_value key.now)) }
    ensures left { IfSome result (λ p. 0 < left) }
{
    laws_of::<U>();
    if left == 0 {
        return None;
    }
    match parts.get(left - 1) {
        Some(part) if is_for::<U>(part, key) => Some(part),
        _ => None,
    }
}

/// The value of a key at a version, if it is at hand. If its part is given, and makes a task that
/// has ended with a value, it is that.
fn value_at_hand<'a, U: Universe>(
    shared: &'a Shared<U>,
    tasks: &'a Tasks<U>,
    version: u64,
    key: &KeyRef<U>,
    part: Option<&'a Part<U>>,
) -> Option<&'a ValueRef<U>>
    requires { IfSome (option_copied part) (λ p. (born : ℕ) × IsPartFor U.Key.eq U.meaning version
        born tasks.now shared.now.graph (arc_value key.now) p) }
    ensures some { IfSome result (λ x. IsAtHand U.Key.eq U.meaning version tasks.now
        shared.now.graph shared.now.cells (arc_value key.now) (arc_value x.now)) }
    ensures none { IfNone result (HasNone U.Key.eq U.meaning version tasks.now shared.now.graph
        (arc_value key.now)) }
{
    if let Some(value) = matched_value::<U>(part) {
        return Some(value);
    }
    match shared.universe.kind(key) {
        Kind::Injected => Some(shared.cells.at(version, key)),
        _ => match ended_value::<U>(tasks, key) {
            Some(value) => Some(value),
            None => kept_value::<U>(&shared.graph, key, version),
        },
    }
}

/// The value with which the task has ended that a part makes, if it makes such a task.
fn matched_value<'a, U: Universe>(part: Option<&'a Part<U>>) -> Option<&'a ValueRef<U>>
    ensures { IfSome result (λ x. IsMatchedBy (option_copied part.entry) (arc_value x.now)) }
{
    match part {
        Some(
            Part {
                making: Making::Match { task, .. },
                ..
            },
        ) => task.value(),
        _ => None,
    }
}

/// The value with which the task of a key has ended, if any.
fn ended_value<'a, U: Universe>(tasks: &'a Tasks<U>, key: &KeyRef<U>) -> Option<&'a ValueRef<U>>
    ensures { option_map (λ x. arc_value x.now) result
        ≡ value_of (tasks_of U.Key.eq tasks.now (arc_value key.now)) }
{
    tasks.task(key)?.value()
}

/// The value that the entry of a key keeps at a version, if any.
fn kept_value<'a, U: Universe>(
    graph: &'a Graph<U>,
    key: &KeyRef<U>,
    version: u64,
) -> Option<&'a ValueRef<U>>
    ensures some { IfSome result (λ x. (b : ℕ)
        × (look U.meaning.is_transient (entry_at U.Key.eq graph.now (arc_value key.now)) version
        ≡ Matches (arc_value x.now) b)) }
    ensures none { IfNone result ((x : U.Value) (b : ℕ)
        → look U.meaning.is_transient (entry_at U.Key.eq graph.now (arc_value key.now)) version
        ≡ Matches x b → ⊥) }
{
    match looked::<U>(graph, key, version) {
        Found::Match(value, _) => Some(value),
        _ => None,
    }
}
