//! The universe.
ghost use Rattle.std.specs.Prelude.{◌≡◌, ◌<◌, ◌%◌, ◌^◌, ℕ, List, ◌++◌, ◌∷◌, [], length, map, IfOk, OnOk, Option, None};
ghost use Rattle.std.specs.Arc.{arc_value};
ghost use Rattle.dice_key.specs.Lawful.{IsStep};
ghost use Rattle.tiny_universe.specs.declared.place.Value.TheVariants.{Number};
ghost use Rattle.tiny_universe.specs.Tiny.{next_move, batches, number_in, first_in, second_in};

use crate::place::{Place, Value};
use dice_key::{Answers, Kind, Line, Move, NoMemory, Universe, Version};
use pure_universe::{ask, ask_both, done};
use std::alloc::Global;
use std::sync::Arc;

/// The universe: where it takes memory from, and the value of a cell that was never set.
#[derive(Drop)]
pub struct Tiny {
    alloc: Global,
    absent: Arc<Value>,
    ghost absent_is: { absent.value ≡ Number 0 },
}

/// A run: its key, its version, and the answers to its first and its second batch.
#[derive(Drop)]
pub struct Run {
    key: Place,
    version: Version,
    first: Option<Answers<Value>>,
    second: Option<Answers<Value>>,
    ghost in_order: { first ≡ None → second ≡ None },
}

impl Tiny {
    /// The universe. All its keys and values take memory from this allocator.
    pub fn new(alloc: Global) -> Result<Tiny, NoMemory> {
        let absent = Arc::new(alloc, Value::Number(0))?;
        Ok(Tiny { alloc, absent })
    }

    /// The next move of a run.
    fn step(&self, run: &Run) -> Result<Move<Place, Value>, NoMemory>
        ensures { IfOk result (λ p. IsStep p (next_move run.now.key
            (batches run.now.key run.now.version run.now.first run.now.second) run.now.version)) }
    {
        let alloc = self.alloc;
        match (run.key, &run.first, &run.second) {
            (Place::Cell(_), _, _) => done(alloc, Value::Number(0)),
            (Place::Follow(cell), None, _) => ask(alloc, Place::Cell(cell)),
            (Place::Follow(_), Some(first), None) => ask(
                alloc,
                Place::Cell((first_in(first) % (1 << 32)) as u32),
            ),
            (Place::Follow(_), Some(_), Some(second)) => done(
                alloc,
                Value::Number(first_in(second)),
            ),
            (Place::Parity(cell), None, _) => ask(alloc, Place::Follow(cell)),
            (Place::Parity(_), Some(first), _) => done(alloc, Value::Number(first_in(first) % 2)),
            (Place::Sum(a, b), None, _) => ask_both(alloc, Place::Cell(a), Place::Cell(b)),
            (Place::Sum(_, _), Some(first), _) => {
                done(
                    alloc,
                    Value::Number(first_in(first).wrapping_add(second_in(first))),
                )
            }
            (Place::Clock, _, _) => done(alloc, Value::Reading(run.version)),
            (Place::Ring(side), None, _) => ask(alloc, Place::Ring(!side)),
            (Place::Ring(_), Some(first), _) => done(alloc, Value::Number(first_in(first))),
        }
    }
}

impl Universe for Tiny {
    ghost use Rattle.tiny_universe.specs.Tiny.{tiny, batches};
    ghost use Rattle.tiny_universe.specs.Laws.{tiny_is_lawful};
    ghost use Rattle.tiny_universe.specs.Same.{same_places, equal_values};

    type Key = Place;

    type Value = Value;

    type Run = Run;

    ghost meaning = { tiny };

    ghost running = { λ r. record
        { key = r.key; version = r.version; answered = batches r.key r.version r.first r.second } };

    fn kind(&self, key: &Place) -> Kind {
        match key {
            Place::Cell(_) => Kind::Injected,
            Place::Parity(_) => Kind::Projection,
            Place::Follow(_) | Place::Sum(_, _) | Place::Clock | Place::Ring(_) => Kind::Computed,
        }
    }

    fn absent(&self, _key: &Place) -> &Arc<Value> {
        &self.absent
    }

    fn begin(&self, key: &Arc<Place>, version: u64) -> Result<(Run, Move<Place, Value>), NoMemory> {
        let run = Run {
            key: **key,
            version,
            first: None,
            second: None,
        };
        let step = self.step(&run)?;
        Ok((run, step))
    }

    fn resume(
        &self,
        run: &mut Run,
        answers: &Answers<Value>,
    ) -> Result<Move<Place, Value>, NoMemory> {
        let answers = answers.try_clone(self.alloc)?;
        if run.first.is_none() {
            run.first = Some(answers);
        } else {
            run.second = Some(answers);
        }
        self.step(run)
    }

    fn base(&self, key: &Place) -> Result<Arc<Place>, NoMemory> {
        let base = match *key {
            Place::Parity(cell) => Place::Follow(cell),
            other => other,
        };
        Ok(Arc::new(self.alloc, base)?)
    }

    fn project(&self, _key: &Place, base: &Value) -> Result<Arc<Value>, NoMemory> {
        Ok(Arc::new(self.alloc, Value::Number(number_in(base) % 2))?)
    }

    fn is_transient(&self, value: &Value) -> bool {
        match value {
            Value::Number(_) => false,
            Value::Reading(_) => true,
        }
    }

    fn most_batches(&self, key: &Place) -> u32 {
        match key {
            Place::Cell(_) | Place::Clock => 0,
            Place::Parity(_) | Place::Sum(_, _) | Place::Ring(_) => 1,
            Place::Follow(_) => 2,
        }
    }

    fn print(&self, key: &Place, short: bool) -> Result<Line, NoMemory> {
        let alloc = self.alloc;
        let text = match (*key, short) {
            (Place::Cell(cell), false) => format!(in alloc; "cell {cell}")?,
            (Place::Follow(cell), false) => format!(in alloc; "follow {cell}")?,
            (Place::Parity(cell), false) => format!(in alloc; "parity {cell}")?,
            (Place::Sum(a, b), false) => format!(in alloc; "sum {a} {b}")?,
            (Place::Cell(cell) | Place::Follow(cell) | Place::Parity(cell), true) => {
                format!(in alloc; "{cell}")?
            }
            (Place::Sum(a, b), true) => format!(in alloc; "{a} {b}")?,
            (Place::Clock, _) => format!(in alloc; "clock")?,
            (Place::Ring(side), false) => format!(in alloc; "ring {side}")?,
            (Place::Ring(side), true) => format!(in alloc; "{side}")?,
        };
        Ok(Line::from_bytes(text.into_bytes()))
    }

    ghost lawful = { tiny_is_lawful };

    ghost same_keys = { same_places };

    ghost equal_values = { equal_values };
}

/// The number in a value.
pub(crate) fn number_in(value: &Value) -> u64
    ensures { result ≡ number_in value.now }
{
    match *value {
        Value::Number(number) | Value::Reading(number) => number,
    }
}

/// The number in the first of a batch's values, 0 if there is none.
fn first_in(answers: &Answers<Value>) -> u64
    ensures { result ≡ first_in answers.now }
{
    match answers.values() {
        [first, ..] => number_in(first),
        [] => 0,
    }
}

/// The number in the second of a batch's values, 0 if there is none.
fn second_in(answers: &Answers<Value>) -> u64
    ensures { result ≡ second_in answers.now }
{
    match answers.values() {
        [_, second, ..] => number_in(second),
        _ => 0,
    }
}
