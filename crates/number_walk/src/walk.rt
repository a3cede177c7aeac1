//! The walk.
ghost use Rattle.std.specs.Prelude.{◌≡◌, ◌<◌, true, false, slice_get, Some, List, ℕ, IfOk, IfSome, IfNone, OnOk};
ghost use Rattle.lists.specs.Lists.{Has};
ghost use Rattle.number_walk.specs.Reach.{Reaches, AreBelow, AreAllFrom, IsTrail, IsWaited, Grows, IsWay, NotesAll};

use crate::trail::{ROOM, Trail};
use dice_key::NoMemory;
use indexmap::IndexSet;
use std::alloc::Global;

/// Numbers that wait for numbers.
pub trait Waits {
    /// What a number waits for.
    ghost waits: { Self → ℕ → List ℕ };

    /// How many numbers there are, from 0 on. A walk asks that what they wait for is among them.
    ghost count: { Self → ℕ };

    /// What a number waits for.
    fn waits_of(&self, number: usize) -> &[usize]
        ensures { result.now ≡ waits self.now number };
}

/// The way along the waits from `start` to a number that waits for `goal`, both among them; `None`
/// exactly if no waits lead from the start to the goal.
///
/// Each number is met at most once, and each of its waits passed at most once.
pub fn way<W: Waits>(
    alloc: Global,
    graph: &W,
    start: usize,
    goal: usize,
) -> Result<Option<Vec<usize>>, NoMemory>
    requires below { AreBelow (W.waits graph.now) (W.count graph.now) }
    requires start { start < W.count graph.now }
    requires other { start ≡ goal → ⊥ }
    ensures way { IfOk result (λ o. IfSome o (λ w. IsWay (W.waits graph.now) start goal w.items)) }
    ensures some { IfOk result (λ o. IfSome o (λ w. Reaches (W.waits graph.now) start goal)) }
    ensures none { IfOk result (λ o. IfNone o (Reaches (W.waits graph.now) start goal → ⊥)) }
{
    let mut trail = Trail::new(alloc, start)?;
    let mut head = 0;
    while let Some(number) = trail.met.get_index(head) {
        let number = *number;
        if follow(graph, &mut trail, head, number, goal)? {
            return Ok(Some(way_to(alloc, graph, &trail, head, start, goal)?));
        }
        head += 1;
    }
    Ok(None)
}

/// All numbers to which waits lead from `start`, which is among them, in the order in which a walk
/// meets them.
///
/// Each number is met at most once, and each of its waits passed at most once.
pub fn all_from<W: Waits>(
    alloc: Global,
    graph: &W,
    start: usize,
) -> Result<IndexSet<usize>, NoMemory>
    requires below { AreBelow (W.waits graph.now) (W.count graph.now) }
    requires start { start < W.count graph.now }
    ensures { IfOk result (λ s. AreAllFrom (W.waits graph.now) start s.keys) }
{
    let mut met = IndexSet::with_capacity(alloc, ROOM)?;
    met.insert(start)?;
    let mut next = 0;
    while let Some(number) = met.as_slice().get(next) {
        let number = *number;
        note_all(graph, &mut met, number)?;
        next += 1;
    }
    Ok(met)
}

/// Notes all that a number waits for, but what was met before.
fn note_all<W: Waits>(graph: &W, met: &mut IndexSet<usize>, number: usize) -> Result<(), NoMemory>
    ensures { OnOk result (NotesAll (W.waits graph.now number) met.old.keys met.new.keys) }
{
    for awaited in graph.waits_of(number) {
        met.insert(*awaited)?;
    }
    Ok(())
}

/// Notes all that the number at an index waits for; `true` if it waits for the goal.
fn follow<W: Waits>(
    graph: &W,
    trail: &mut Trail,
    head: usize,
    number: usize,
    goal: usize,
) -> Result<bool, NoMemory>
    requires trail { IsTrail (W.waits graph.now) goal trail.old.met.keys trail.old.parents.items }
    requires there { slice_get trail.old.met.keys head ≡ Some number }
    ensures trail { OnOk result
        (IsTrail (W.waits graph.now) goal trail.new.met.keys trail.new.parents.items) }
    ensures grows { OnOk result (Grows trail.old.met.keys trail.new.met.keys) }
    ensures met { IfOk result (λ b. b ≡ true → Has (W.waits graph.now number) goal) }
    ensures followed { IfOk result
        (λ b. b ≡ false → (m : ℕ) → Has (W.waits graph.now number) m → Has trail.new.met.keys m) }
{
    for wait in graph.waits_of(number) {
        if *wait == goal {
            return Ok(true);
        }
        trail.note(*wait, head)?;
    }
    Ok(false)
}

/// The way from the start to the number at `head`, which waits for the goal.
fn way_to<W: Waits>(
    alloc: Global,
    graph: &W,
    trail: &Trail,
    head: usize,
    start: usize,
    goal: usize,
) -> Result<Vec<usize>, NoMemory>
    requires trail { IsTrail (W.waits graph.now) goal trail.now.met.keys trail.now.parents.items }
    requires begun { slice_get trail.now.met.keys 0 ≡ Some start }
    requires met { IsWaited (W.waits graph.now) trail.now.met.keys head goal }
    ensures { IfOk result (λ w. IsWay (W.waits graph.now) start goal w.items) }
{
    let _ = graph;
    let met = trail.met.as_slice();
    let parents = trail.parents.as_slice();
    let mut way = Vec::new(alloc);
    way.push(met[head])?;
    let mut at = head;
    while at != 0 {
        at = parents[at];
        way.push(met[at])?;
    }
    way.reverse();
    Ok(way)
}
