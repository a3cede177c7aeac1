//! The lines of a journal.
ghost use Rattle.std.specs.Prelude.{IfOk};
ghost use Rattle.dice_engine.specs.Lines.{AreLines};

use dice_key::{Line, NoMemory, Universe};
use journal::Journal;
use std::alloc::Global;

/// The lines of a journal, one for each event, in order. It takes as long as the journal and its
/// lines are.
pub(crate) fn lines_of<U: Universe>(
    alloc: Global,
    universe: &U,
    journal: &Journal<U>,
) -> Result<Vec<Line>, NoMemory>
    ensures { IfOk result (λ ls. AreLines U.meaning journal.now.events ls.items) }
{
    let count = journal.len();
    let mut lines = Vec::new(alloc);
    for index in 0..count {
        lines.push(journal.line(index, universe, alloc)?)?;
    }
    Ok(lines)
}
