//! What a walk has met.
ghost use Rattle.std.specs.Prelude.{◌≡◌, ◌∷◌, [], IfOk, OnOk};
ghost use Rattle.number_walk.specs.Reach.{IsNoted};

use dice_key::NoMemory;
use indexmap::IndexSet;
use std::alloc::Global;

/// How many numbers a walk mostly meets at most.
pub(crate) const ROOM: usize = 28;

/// The numbers that a walk has met, in their order, and beside each the index of the one through
/// whose wait it was met.
pub(crate) struct Trail {
    pub(crate) met: IndexSet<usize>,
    pub(crate) parents: Vec<usize>,
}

// (One function for all places that drop one: a derived drop is written out at each.)
impl Drop for Trail {
    fn drop(self) {
        let Trail {
            met: _met,
            parents: _parents,
        } = self;
    }
}

impl Trail {
    /// A walk that has met its start alone.
    pub(crate) fn new(alloc: Global, start: usize) -> Result<Trail, NoMemory>
        ensures met { IfOk result (λ t. t.met.keys ≡ start ∷ []) }
        ensures parents { IfOk result (λ t. t.parents.items ≡ 0 ∷ []) }
    {
        let mut met = IndexSet::with_capacity(alloc, ROOM)?;
        let mut parents = Vec::with_capacity(alloc, ROOM)?;
        met.insert(start)?;
        parents.push(0)?;
        Ok(Trail { met, parents })
    }

    /// Notes a number with the index of its parent, unless it was met before.
    pub(crate) fn note(&mut self, number: usize, parent: usize) -> Result<(), NoMemory>
        ensures { OnOk result (IsNoted number parent self.old.met.keys self.old.parents.items
            self.new.met.keys self.new.parents.items) }
    {
        if self.met.insert(number)? {
            self.parents.push(parent)?;
        }
        Ok(())
    }
}
