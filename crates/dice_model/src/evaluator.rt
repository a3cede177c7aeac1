//! The slow evaluator.
ghost use Rattle.std.specs.Prelude.{◌≡◌, ◌<◌, ◌≤◌, ℕ, List, ◌++◌, ◌∷◌, [], length, map, IfOk, OnOk, OnErr};
ghost use Rattle.std.specs.Option.{option_map};
ghost use Rattle.std.specs.Arc.{arc_value};
ghost use Rattle.dice_model.specs.Eval.{eval, answers};

use crate::commits::Commits;
use dice_key::{Answers, Batch, Kind, Move, NoMemory, Universe};
use std::alloc::Global;
use std::sync::Arc;

/// The value of the key at the version, by evaluation from nothing; `None` if this depth is not
/// enough. An injected key needs depth 1, another key one more than the keys that it asks. Nothing
/// is kept, so the time is exponential in the depth.
#[cycle(plain)]
pub fn plain<U: Universe>(
    alloc: Global,
    universe: &U,
    commits: &Commits<U>,
    version: u64,
    key: &Arc<U::Key>,
    depth: u32,
) -> Result<Option<Arc<U::Value>>, NoMemory>
    ensures { IfOk result (λ o. option_map arc_value o
        ≡ eval U.Key.eq U.meaning depth commits.now version (arc_value key.now)) }
{
    if depth == 0 {
        return Ok(None);
    }
    if universe.kind(key) == Kind::Injected {
        return Ok(Some(commits.input(universe, version, key)?));
    }
    let (mut run, mut step) = universe.begin(key, version)?;
    for _ in 0..universe.most_batches(key) {
        match step {
            Move::Done(value) => return Ok(Some(value)),
            Move::Ask(batch) => {
                let Some(answers) = answer(alloc, universe, commits, version, &batch, depth - 1)?
                else {
                    return Ok(None);
                };
                step = universe.resume(&mut run, &answers)?;
            }
        }
    }
    match step {
        Move::Done(value) => Ok(Some(value)),
        Move::Ask(_) => Ok(None),
    }
}

/// The values of a batch's keys, if the depth is enough for each.
#[cycle(plain)]
fn answer<U: Universe>(
    alloc: Global,
    universe: &U,
    commits: &Commits<U>,
    version: u64,
    batch: &Batch<U::Key>,
    depth: u32,
) -> Result<Option<Answers<U::Value>>, NoMemory>
    ensures { IfOk result
        (λ o. o ≡ answers (eval U.Key.eq U.meaning depth commits.now version) batch.now) }
{
    let mut values = Answers::new(alloc);
    for key in batch.keys() {
        match plain(alloc, universe, commits, version, key, depth)? {
            Some(value) => values.push(value)?,
            None => return Ok(None),
        }
    }
    Ok(Some(values))
}
