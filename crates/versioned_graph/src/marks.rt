//! The versions that a finish marks.
ghost use Rattle.std.specs.Prelude.{◌≡◌, ◌<◌, ℕ, ◌&&◌, IfOk, Some, None};
ghost use Rattle.std.specs.Arc.{arc_value};
ghost use Rattle.std.specs.List.{list_all};
ghost use Rattle.std.specs.Option.{option_map};
ghost use Rattle.version_ranges.specs.Members.{contains};
ghost use Rattle.version_ranges.specs.Rounds.{all_between};
ghost use Rattle.injected.specs.Seen.{cell_at};
ghost use Rattle.dep_recorder.specs.Recordings.{keys_in};
ghost use Rattle.versioned_graph.specs.Entries.{kept_of, entry_at, known_by, known, all_of, marked};

use crate::entry::Entry;
use crate::store::Store;
use dep_recorder::Trace;
use dice_key::{Kind, NoMemory, Universe};
use injected::Cells;
use std::alloc::Global;
use std::sync::Arc;
use version_ranges::Ranges;

impl<U: Universe> Store<U> {
    /// The versions that a finish marks: its own, and those that are known for every dependency of
    /// its trace.
    pub(crate) fn marked(
        &self,
        cells: &Cells<U>,
        version: u64,
        value: &U::Value,
        trace: &Trace<U>,
    ) -> Result<Ranges, NoMemory>
        requires { version < u64.MAX }
        ensures { IfOk result (λ r. (w : ℕ)
            → contains r w
            ≡ marked U.meaning U.Value.eq (cell_at U.Key.eq U.meaning cells.now)
            (entry_at U.Key.eq self.now) version value.now trace.now w) }
    {
        let mut ranges = if self.universe.is_transient(value) {
            Ranges::new(self.alloc)
        } else {
            self.known_of_all(cells, version, trace)?
        };
        let next = Some(version + 1);
        ranges.insert(version, next).map_err(|_| NoMemory)?;
        Ok(ranges)
    }

    /// The versions that are known for every dependency of a trace.
    fn known_of_all(
        &self,
        cells: &Cells<U>,
        version: u64,
        trace: &Trace<U>,
    ) -> Result<Ranges, NoMemory>
        requires { version < u64.MAX }
        ensures { IfOk result (λ r. (w : ℕ)
            → contains r w
            ≡ all_of (known U.meaning U.Value.eq (cell_at U.Key.eq U.meaning cells.now)
            (entry_at U.Key.eq self.now) version w) trace.now) }
    {
        let mut ranges = Ranges::all(self.alloc).map_err(|_| NoMemory)?;
        for i in 0..trace.len() {
            ranges = self.known_of_batch(cells, version, trace.batch(i), ranges)?;
        }
        Ok(ranges)
    }

    /// Of these versions those that are known for every dependency of a batch.
    fn known_of_batch(
        &self,
        cells: &Cells<U>,
        version: u64,
        batch: &[(Arc<U::Key>, Arc<U::Value>)],
        ranges: Ranges,
    ) -> Result<Ranges, NoMemory>
        requires { version < u64.MAX }
        ensures { IfOk result (λ r. (w : ℕ)
            → contains r w
            ≡ (contains ranges w
            && list_all (known U.meaning U.Value.eq (cell_at U.Key.eq U.meaning cells.now)
            (entry_at U.Key.eq self.now) version w) (keys_in batch.now))) }
    {
        let mut left = ranges;
        for (dep, _) in batch {
            left = self.known_of(cells, version, dep, left)?;
        }
        Ok(left)
    }

    /// Of these versions those that are known for a dependency.
    fn known_of(
        &self,
        cells: &Cells<U>,
        version: u64,
        dep: &Arc<U::Key>,
        ranges: Ranges,
    ) -> Result<Ranges, NoMemory>
        requires { version < u64.MAX }
        ensures { IfOk result (λ r. (w : ℕ)
            → contains r w
            ≡ (contains ranges w
            && known U.meaning U.Value.eq (cell_at U.Key.eq U.meaning cells.now)
            (entry_at U.Key.eq self.now) version w (arc_value dep.now))) }
    {
        match self.universe.kind(dep) {
            Kind::Injected => both(ranges, &cells.range_round(version, dep)?),
            Kind::Computed | Kind::Projection => {
                known_by_entry(self.alloc, self.entry(dep), version, ranges)
            }
        }
    }
}

/// Of these versions those that are known by the entry of a dependency, if there is one.
fn known_by_entry<U: Universe>(
    alloc: Global,
    known: Option<&Entry<U>>,
    version: u64,
    ranges: Ranges,
) -> Result<Ranges, NoMemory>
    ensures { IfOk result (λ r. (w : ℕ)
        → contains r w
        ≡ (contains ranges w && known_by (option_map (λ e. kept_of e.now) known.entry) version w)) }
{
    match known {
        Some(entry) => round(ranges, &entry.ranges, version),
        None => Ok(Ranges::new(alloc)),
    }
}

/// Of these versions those up to which the others have all from the version on, or from there back.
fn round(ranges: Ranges, others: &Ranges, version: u64) -> Result<Ranges, NoMemory>
    ensures { IfOk result (λ r. (w : ℕ)
        → contains r w ≡ (contains ranges w && all_between (contains others.now) version w)) }
{
    ranges.narrowed_round(others, version).map_err(|_| NoMemory)
}

/// The versions of both sets.
fn both(a: Ranges, b: &Ranges) -> Result<Ranges, NoMemory>
    ensures { IfOk result (λ r. (w : ℕ) → contains r w ≡ (contains a w && contains b.now w)) }
{
    a.narrowed(b).map_err(|_| NoMemory)
}
