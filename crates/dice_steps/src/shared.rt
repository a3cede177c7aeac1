//! What the steps of all versions work on.

use dice_key::Universe;
use dice_tasks::Desk;
use injected::Cells;
use std::alloc::Global;
use std::sync::Arc;
use versioned_graph::Graph;

/// What the tasks of all versions have in common: the universe, the inputs, what is kept of the
/// other keys, and the desk, with the journal and the lists of the jobs.
pub struct Shared<U: Universe> {
    pub alloc: Global,
    pub universe: Arc<U>,
    pub cells: Cells<U>,
    pub graph: Graph<U>,
    pub desk: Desk<U>,
}

// (One function for all places that drop one: a derived drop is written out at each.)
impl<U: Universe> Drop for Shared<U> {
    fn drop(self) {
        let Shared {
            alloc: _,
            universe: _universe,
            cells: _cells,
            graph: _graph,
            desk: _desk,
        } = self;
    }
}
