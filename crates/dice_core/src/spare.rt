//! The table of a version that has closed, for the next one.
ghost use Rattle.std.specs.Prelude.{◌≡◌, []};
ghost use Rattle.std.specs.Option.{ForSome};

use dice_key::{Seed, Universe, laws_of};
use dice_tasks::Tasks;
use std::alloc::Global;
use task_share::Table;

/// So many places a table has at most that is kept: to clear a larger one costs more than a small
/// one that is made anew.
const MOST: usize = 256;

/// The room of a table whose version has closed, if there is some, for the next version.
#[derive(Drop)]
pub(crate) struct Spare<U: Universe> {
    alloc: Global,
    table: Option<Tasks<U>>,
    ghost empty: { ForSome table (λ t. t ≡ []) },
}

impl<U: Universe> Spare<U> {
    /// None yet.
    pub(crate) fn new(alloc: Global) -> Spare<U> {
        Spare { alloc, table: None }
    }

    /// An empty table. It takes no memory.
    pub(crate) fn take(&mut self, seed: Seed) -> Tasks<U>
        ensures { result ≡ [] }
    {
        laws_of::<U>();
        match self.table.take() {
            Some(table) => table,
            None => Table::new(self.alloc, seed),
        }
    }

    /// Keeps the room of a table, if there is one and it is not large. It takes no memory.
    pub(crate) fn keep(&mut self, table: Option<Tasks<U>>) {
        let Some(mut table) = table else {
            return;
        };
        if table.place_count() <= MOST {
            table.clear();
            self.table = Some(table);
        }
    }
}
