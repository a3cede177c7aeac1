//! The builder: versions one after another, and the sum at each.
ghost use Rattle.dice_engine.specs.Seats.{IsSeatOf, IsWriter};

use dice_engine::{Engine, Open, Seat, Updater};
use dice_key::NoMemory;
use std::alloc::Global;
use std::sync::{Arc, Wait};
use tiny_universe::{Place, Tiny, Value};

/// The sum that is asked for.
pub(crate) const SUM: Place = Place::Sum(1, 2);

/// Commits the numbers up to `last` in turn, each in a version of its own, and waits for the sum at
/// each version.
pub(crate) fn build<R: Wait>(
    rt: &R,
    alloc: Global,
    engine: &Engine<Tiny>,
    seat: &mut Seat<Tiny>,
    last: u64,
) -> Result<(), NoMemory>
    requires { IsSeatOf engine.now seat.old × IsWriter seat.old }
    ensures { IsSeatOf engine.now seat.new }
{
    for number in 1..=last {
        build_version(rt, alloc, engine, seat, number)?;
    }
    Ok(())
}

/// Commits a number, and waits for the sum at its version.
fn build_version<R: Wait>(
    rt: &R,
    alloc: Global,
    engine: &Engine<Tiny>,
    seat: &mut Seat<Tiny>,
    number: u64,
) -> Result<(), NoMemory>
    requires { IsSeatOf engine.now seat.old × IsWriter seat.old }
    ensures { IsSeatOf engine.now seat.new × IsWriter seat.new }
{
    let mut changes = Updater::new(alloc);
    let key = Arc::new(alloc, Place::Cell(1))?;
    changes.changed_to(key, Arc::new(alloc, Value::Number(number))?)?;
    if engine.commit(rt, seat, &changes).is_err() {
        return Err(NoMemory);
    }
    let transaction = engine.open(rt, seat)?;
    let promise = engine.ask(rt, seat, &transaction, Arc::new(alloc, SUM)?)?;
    engine.wait(rt, seat, &promise, &Open, 0)?;
    engine.close(rt, seat, transaction);
    Ok(())
}
