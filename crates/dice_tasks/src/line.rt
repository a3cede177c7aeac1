//! Which of the ready tasks is to be taken next.
ghost use Rattle.std.specs.Prelude.{◌≡◌, ◌<◌, length, IfSome};
ghost use Rattle.indexmap.specs.IndexSet.{spare};
ghost use Rattle.dice_tasks.specs.Orders.{IsReordered};
ghost use Rattle.dice_tasks.specs.Shelves.{IsLaid};

use crate::shelf::Shelf;
use dice_key::{Universe, laws_of};

/// The line of the ready tasks. Those that came since a task was called stand last. As long as the
/// last is of the version of the task that was called, it goes next. The others stand in line
/// before them: as they came, the oldest last, or as a heap by version if more came to stand in
/// line meanwhile.
#[derive(Clone, Copy)]
pub(crate) struct Line {
    /// The version of the task that was called last.
    version: u64,
    /// How many of the ready tasks stand in line.
    len: usize,
    /// How many of these are a heap: all or none.
    heap: usize,
}

impl Line {
    /// An empty line.
    pub(crate) fn new() -> Line {
        Line {
            version: 0,
            len: 0,
            heap: 0,
        }
    }

    /// Whether the last of the ready tasks came after those in line, and is of the version of the
    /// task that was called last.
    pub(crate) fn goes_on<U: Universe>(&self, shelf: &Shelf<U>, ready: usize) -> bool {
        if ready <= self.len {
            return false;
        }
        match shelf.get_index(ready - 1) {
            Some(task) => task.version == self.version,
            None => false,
        }
    }

    /// Calls a task of those in line: it goes to the end of the ready ones. All stand in line then.
    pub(crate) fn call<U: Universe>(&mut self, shelf: &mut Shelf<U>, ready: usize)
        requires some { 0 < ready }
        requires laid { IsLaid ready shelf.old.keys }
        ensures { IsReordered ready shelf.old.keys shelf.new.keys (spare shelf.old)
            (spare shelf.new) }
    {
        self.line_up::<U>(shelf, ready);
        self.bring_first::<U>(shelf, ready);
        self.len = ready - 1;
        if let Some(task) = shelf.get_index(ready - 1) {
            self.version = task.version;
        }
    }

    /// Fewer tasks are ready: no more stand in line.
    pub(crate) fn shorten(&mut self, ready: usize) {
        self.len = self.len.min(ready);
        self.heap = self.heap.min(ready);
    }

    /// Puts the tasks in line that came meanwhile.
    fn line_up<U: Universe>(&mut self, shelf: &mut Shelf<U>, ready: usize)
        requires { IsLaid ready shelf.old.keys }
        ensures { IsReordered ready shelf.old.keys shelf.new.keys (spare shelf.old)
            (spare shelf.new) }
    {
        if self.len == 0 {
            turn_round::<U>(shelf, ready);
        } else if self.len < ready {
            lay_heap::<U>(shelf, self.heap, ready);
            self.heap = ready;
        }
    }

    /// Brings the first in line to the end, if they are a heap; otherwise it stands there.
    fn bring_first<U: Universe>(&mut self, shelf: &mut Shelf<U>, ready: usize)
        requires some { 0 < ready }
        requires laid { IsLaid ready shelf.old.keys }
        ensures { IsReordered ready shelf.old.keys shelf.new.keys (spare shelf.old)
            (spare shelf.new) }
    {
        if self.heap > 0 {
            exchange::<U>(shelf, ready, 0, ready - 1);
            sink::<U>(shelf, ready);
            self.heap = ready - 1;
        }
    }
}

/// Exchanges two ready tasks.
fn exchange<U: Universe>(shelf: &mut Shelf<U>, ready: usize, first: usize, second: usize)
    requires laid { IsLaid ready shelf.old.keys }
    requires first { first < ready }
    requires second { second < ready }
    ensures { IsReordered ready shelf.old.keys shelf.new.keys (spare shelf.old) (spare shelf.new) }
{
    laws_of::<U>();
    shelf.swap_indices(first, second);
}

/// Turns the order of the ready tasks round.
fn turn_round<U: Universe>(shelf: &mut Shelf<U>, ready: usize)
    requires { IsLaid ready shelf.old.keys }
    ensures { IsReordered ready shelf.old.keys shelf.new.keys (spare shelf.old) (spare shelf.new) }
{
    'pairs: for at in 0..ready / 2 {
        exchange::<U>(shelf, ready, at, ready - 1 - at);
    }
}

/// Lays the ready tasks as a heap by version. The first ones, so many, are one already.
fn lay_heap<U: Universe>(shelf: &mut Shelf<U>, heap: usize, ready: usize)
    requires { IsLaid ready shelf.old.keys }
    ensures { IsReordered ready shelf.old.keys shelf.new.keys (spare shelf.old) (spare shelf.new) }
{
    'each: for at in heap..ready {
        rise::<U>(shelf, ready, at);
    }
}

/// Lets a task that stands last in a heap rise to its place.
fn rise<U: Universe>(shelf: &mut Shelf<U>, ready: usize, last: usize)
    requires laid { IsLaid ready shelf.old.keys }
    requires last { last < ready }
    ensures { IsReordered ready shelf.old.keys shelf.new.keys (spare shelf.old) (spare shelf.new) }
{
    let mut at = last;
    'up: while at > 0 && is_lower::<U>(shelf, at, (at - 1) / 2) {
        let above = (at - 1) / 2;
        exchange::<U>(shelf, ready, at, above);
        at = above;
    }
}

/// Lets the task at the root sink to its place in the heap of all ready tasks but the last.
fn sink<U: Universe>(shelf: &mut Shelf<U>, ready: usize)
    requires some { 0 < ready }
    requires laid { IsLaid ready shelf.old.keys }
    ensures { IsReordered ready shelf.old.keys shelf.new.keys (spare shelf.old) (spare shelf.new) }
{
    let mut at = 0;
    'down: while let Some(below) = lower_below::<U>(shelf, ready - 1, at) {
        exchange::<U>(shelf, ready, at, below);
        at = below;
    }
}

/// The task of the two below one in a heap of this length that is to stand above it: the lower one,
/// if it is lower than that.
fn lower_below<U: Universe>(shelf: &Shelf<U>, len: usize, at: usize) -> Option<usize>
    ensures { IfSome result (λ below. (at < below) × (below < len)) }
{
    if at >= len / 2 {
        return None;
    }
    let left = 2 * at + 1;
    let right = left + 1;
    if right < len && is_lower::<U>(shelf, right, left) && is_lower::<U>(shelf, right, at) {
        return Some(right);
    }
    if is_lower::<U>(shelf, left, at) {
        return Some(left);
    }
    None
}

/// Whether the first of two tasks is of a lower version.
fn is_lower<U: Universe>(shelf: &Shelf<U>, first: usize, second: usize) -> bool {
    match (shelf.get_index(first), shelf.get_index(second)) {
        (Some(first), Some(second)) => first.version < second.version,
        _ => false,
    }
}
