//! Tests of the example universe, call by call.
ghost use Rattle.std.specs.Prelude.{◌≡◌, ◌∷◌, [], IfOk};
ghost use Rattle.tiny_universe.specs.declared.place.Value.TheVariants.{Number};

use dice_key::{Answers, Batch, Kind, Move, NoMemory, TypedKey, Universe, laws_of};
use std::alloc::Global;
use std::sync::Arc;
use std::test::Fail;
use tiny_universe::{CellKey, FollowKey, ParityKey, Place, Tiny, Value};

/// A key with its kind, the most batches that it asks, and its long and its short text.
type Row = (Place, Kind, u32, &'static str, &'static str);

const ROWS: [Row; 6] = [
    (Place::Cell(3), Kind::Injected, 0, "cell 3", "3"),
    (Place::Follow(10), Kind::Computed, 2, "follow 10", "10"),
    (Place::Parity(0), Kind::Projection, 1, "parity 0", "0"),
    (Place::Sum(1, 2), Kind::Computed, 1, "sum 1 2", "1 2"),
    (Place::Clock, Kind::Computed, 0, "clock", "clock"),
    (Place::Ring(true), Kind::Computed, 1, "ring true", "true"),
];

fn prints(universe: &Tiny, key: &Place, short: bool, text: &str) -> Result<bool, NoMemory> {
    Ok(universe.print(key, short)?.as_bytes() == text.as_bytes())
}

/// Whether the key is as the row says.
fn agrees(universe: &Tiny, row: &Row) -> Result<bool, NoMemory> {
    let (key, kind, most, long, short) = row;
    Ok(
        universe.kind(key) == *kind
            && universe.most_batches(key) == *most
            && prints(universe, key, false, long)?
            && prints(universe, key, true, short)?,
    )
}

#[test]
fn kinds_bounds_and_texts(rt: HostRuntime) -> Result<(), Fail> {
    let universe = Tiny::new(rt.alloc())?;
    for row in &ROWS {
        assert!(rt; agrees(&universe, row)?);
    }
    laws_of::<Tiny>();
    Ok(())
}

/// What a move asks, if that is one key, or to which value it has come.
#[derive(Clone, Copy, PartialEq, Eq)]
enum Seen {
    Asks(Place),
    AsksOthers,
    Done(Value),
}

fn seen_of(step: &Move<Place, Value>) -> Seen {
    match step {
        Move::Ask(batch) => seen_in(batch),
        Move::Done(value) => Seen::Done(**value),
    }
}

fn seen_in(batch: &Batch<Place>) -> Seen {
    match batch.keys() {
        [key] => Seen::Asks(**key),
        _ => Seen::AsksOthers,
    }
}

/// The answers to a batch of one key.
fn one_answer(alloc: Global, number: u64) -> Result<Answers<Value>, NoMemory>
    ensures { IfOk result (λ r. r ≡ Number number ∷ []) }
{
    let mut answers = Answers::new(alloc);
    answers.push(Arc::new(alloc, Value::Number(number))?)?;
    Ok(answers)
}

#[test]
fn a_run_goes_from_batch_to_batch(rt: HostRuntime) -> Result<(), Fail> {
    let alloc = rt.alloc();
    let universe = Tiny::new(alloc)?;
    let (mut run, first) = universe.begin(&Arc::new(alloc, Place::Follow(1))?, 1)?;
    assert!(rt; seen_of(&first) == Seen::Asks(Place::Cell(1)));
    let second = universe.resume(&mut run, &one_answer(alloc, (1 << 32) + 2)?)?;
    assert!(rt; seen_of(&second) == Seen::Asks(Place::Cell(2)));
    let third = universe.resume(&mut run, &one_answer(alloc, 40)?)?;
    assert!(rt; seen_of(&third) == Seen::Done(Value::Number(40)));
    Ok(())
}

/// The base of the parity of a cell.
fn base_of(universe: &Tiny, cell: u32) -> Result<Place, NoMemory> {
    Ok(*universe.base(&ParityKey { cell }.wrap())?)
}

/// The parity of a number.
fn parity_of(universe: &Tiny, number: u64) -> Result<Value, NoMemory> {
    Ok(*universe.project(&ParityKey { cell: 4 }.wrap(), &Value::Number(number))?)
}

/// The value of a cell that was never set.
fn absent(universe: &Tiny, cell: u32) -> Value {
    **universe.absent(&CellKey { cell }.wrap())
}

fn keys_read_numbers() -> bool {
    CellKey::read(&Value::Number(5)) == Some(&5)
        && FollowKey::read(&Value::Reading(5)) == None
        && ParityKey::read(&Value::Number(1)) == Some(&1)
}

#[test]
fn fronts_and_projections(rt: HostRuntime) -> Result<(), Fail> {
    let universe = Tiny::new(rt.alloc())?;
    assert!(rt; ParityKey { cell: 4 }.wrap() == Place::Parity(4));
    assert!(rt; base_of(&universe, 4)? == FollowKey { cell: 4 }.wrap());
    assert!(rt; parity_of(&universe, 7)? == Value::Number(1));
    assert!(rt; absent(&universe, 4) == Value::Number(0));
    assert!(rt; keys_read_numbers());
    assert!(rt;
        universe.is_transient(&Value::Reading(1)) && !universe.is_transient(&Value::Number(1))
    );
    Ok(())
}
