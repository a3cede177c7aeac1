//! The reader that watches the builder.
ghost use Rattle.std.specs.Prelude.{◌≡◌, Some, IfSome};
ghost use Rattle.std.specs.Arc.{arc_value};
ghost use Rattle.dice_engine.specs.Seats.{IsSeatOf, IsWriter};
ghost use Rattle.shelf.specs.Ops.{IsSound, row_at};

use crate::beside::beside;
use crate::build::{SUM, build};
use anyhow::Result;
use dice_engine::{Engine, Reader, Seat, Transaction};
use dice_key::{NoMemory, Universe, ValueRef};
use std::alloc::Global;
use std::io::{self, Print};
use std::sync::atomic::{AtomicBool, Ordering};
use std::sync::{Arc, Wait};
use std::thread::{self, Threads};
use tiny_universe::{Tiny, Value};

/// How many versions are built.
const VERSIONS: u64 = 3;

/// Builds the versions on an engine of its own, which ends then, while a reader in another thread
/// prints their sums.
pub(crate) fn watch_builder<R: Print + Threads + Wait + Sync>(rt: &R, alloc: Global) -> Result<()> {
    let universe = Arc::new(alloc, Tiny::new(alloc)?)?;
    let (engine, seat, mut readers) = Engine::with_readers(rt, alloc, universe, 1, 1)?;
    let Some(reader) = readers.pop() else {
        unreachable!()
    };
    let (seat, printed, built) = build_watched(rt, alloc, &engine, seat, reader);
    engine.end(rt, seat);
    built?;
    if printed? < VERSIONS {
        // The shelf had no memory for a row.
        return Err(NoMemory.into());
    }
    Ok(())
}

/// Builds the versions in this thread, while the reader is in another one. The seat comes back.
fn build_watched<R: Print + Threads + Wait + Sync>(
    rt: &R,
    alloc: Global,
    engine: &Engine<Tiny>,
    seat: Seat<Tiny>,
    reader: Reader<Tiny>,
) -> (Seat<Tiny>, io::Result<u64>, Result<(), NoMemory>)
    requires { IsSeatOf engine.now seat × IsWriter seat }
    ensures { IsSeatOf engine.now result.0 }
{
    let done = AtomicBool::new(false);
    let over = &done;
    let (printed, (seat, built)) = beside(
        rt,
        reader,
        &|reader: Reader<Tiny>| -> io::Result<u64> { watch(rt, engine, reader, over) },
        move || -> (Seat<Tiny>, Result<(), NoMemory>)
            requires { IsSeatOf engine.now seat × IsWriter seat }
            ensures { IsSeatOf engine.entry.now result.0 }
        {
            let mut seat = seat;
            let built = build(rt, alloc, engine, &mut seat, VERSIONS);
            over.store(true, Ordering::Release);
            (seat, built)
        },
    );
    (seat, printed, built)
}

/// Prints the sum at each version as soon as it is finished, and answers the last version with one.
/// It stops if the builder is done and the next sum is not there.
fn watch<R: Print + Wait>(
    rt: &R,
    engine: &Engine<Tiny>,
    mut reader: Reader<Tiny>,
    done: &AtomicBool,
) -> io::Result<u64> {
    let mut last = 0;
    for version in 1..=VERSIONS {
        let transaction = Transaction { version, opened: 0 };
        let Some(sum) = finished(rt, engine, &mut reader, &transaction, &SUM, done) else {
            break;
        };
        if let Value::Number(number) = *sum {
            println!(rt; "version {version}: the sum is {number}")?;
        }
        last = version;
    }
    Ok(last)
}

/// The value of a key as soon as it is finished at the version of a transaction, or nothing once
/// the builder is done and it is not there. It looks without a turn, so it never keeps the builder
/// waiting for one.
fn finished<U: Universe, R: Wait>(
    rt: &R,
    engine: &Engine<U>,
    reader: &mut Reader<U>,
    transaction: &Transaction,
    key: &U::Key,
    done: &AtomicBool,
) -> Option<ValueRef<U>>
    ensures row { IfSome result (λ x. row_at (U.Key.eq key.now) transaction.now.version
        reader.new.seen ≡ Some (arc_value x)) }
    ensures sound { IfSome result (λ x. IsSound U.Key.eq U.meaning reader.new.seen) }
{
    for _ in rt.forever() {
        let is_last = done.load(Ordering::Acquire);
        if let Ok(Some(value)) = engine.quick(reader, transaction, key) {
            return Some(value);
        }
        if is_last {
            return None;
        }
        thread::yield_now();
    }
    unreachable!()
}
