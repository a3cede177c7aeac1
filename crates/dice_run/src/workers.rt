//! The workers beside the driver of a script: each on a seat of its own, in a thread of its own.
ghost use Rattle.std.specs.Prelude.{◌≡◌, ◌<◌, [], All, IfOk, OnOk};
ghost use Rattle.dice_engine.specs.Seats.{spare};
ghost use Rattle.dice_engine.specs.Seating.{IsPlaceOf};
ghost use Rattle.script_trace.specs.Tracing.{IsPrintout};
ghost use Rattle.script_trace.specs.Events.{IsJournalOf};
ghost use Rattle.dice_run.specs.Seats.{IsOurs};

use crate::driven::{Course, drive_alone};
use action_digest::Buck;
use dice_engine::{Engine, Gate, Place, Reader, Seat};
use dice_key::NoMemory;
use script::Script;
use std::alloc::Global;
use std::sync::Wait;
use std::thread::Threads;

/// How many jobs may be out for each worker before the driver does some itself.
const PATIENCE: u64 = 4;

/// Drives a script on an engine whose one writer this seat is, with so many workers beside it, and
/// answers its output: what each line prints, in the order of the lines. A request that the script
/// cancels has the line `cancelled`; each other one is waited for, at its `wait` or at the end, in
/// the order of asking. If it is wanted, the trace of the journal follows the output. The seat
/// comes back.
///
/// If there is a reader, it is told after each `open` what is finished. Then requests are first
/// looked at by it, without a turn, and polled before a transaction is closed.
///
/// Each worker has a seat that is split off from this one, and does jobs in a thread of its own
/// until the script is done; if no thread can be made, waiting does all jobs. With no workers no
/// thread is made.
pub fn drive<R: Threads + Wait + Sync, G: Gate>(
    rt: &R,
    alloc: Global,
    engine: &Engine<Buck>,
    seat: Seat<Buck>,
    reader: Option<Reader<Buck>>,
    script: &Script,
    trace: bool,
    workers: u32,
    gate: &G,
) -> (Seat<Buck>, Result<Vec<u8>, NoMemory>)
    requires ours { IsOurs engine.now seat }
    requires first { seat.mine ≡ [] }
    requires spare { workers < spare seat }
    ensures ours { IsOurs engine.now result.0 }
    ensures output { IfOk result.1 (λ out. IsPrintout trace script.now result.0.seen out.items) }
    ensures journal { OnOk result.1 (IsJournalOf script.now result.0.seen) }
{
    let mut course = Course {
        alloc,
        reader,
        script,
        trace,
        patience: 0,
    };
    if workers == 0 {
        return drive_alone(rt, engine, seat, course, gate);
    }
    let mut seat = seat;
    match engine.split_seats(alloc, &mut seat, u64::from(workers)) {
        Ok(seats) => {
            course.patience = PATIENCE.saturating_mul(u64::from(workers));
            drive_with(rt, engine, seat, seats, course, gate)
        }
        Err(NoMemory) => drive_alone(rt, engine, seat, course, gate),
    }
}

/// The workers in threads, and the driver in this one.
fn drive_with<R: Threads + Wait + Sync, G: Gate>(
    rt: &R,
    engine: &Engine<Buck>,
    seat: Seat<Buck>,
    seats: Vec<Place<Buck>>,
    course: Course<'_>,
    gate: &G,
) -> (Seat<Buck>, Result<Vec<u8>, NoMemory>)
    requires ours { IsOurs engine.now seat }
    requires first { seat.mine ≡ [] }
    requires seats { All (IsPlaceOf engine.now) seats.items }
    ensures ours { IsOurs engine.now result.0 }
    ensures output { IfOk result.1
        (λ out. IsPrintout course.entry.trace course.entry.script.now result.0.seen out.items) }
    ensures journal { OnOk result.1 (IsJournalOf course.entry.script.now result.0.seen) }
{
    let Course {
        alloc,
        reader,
        script,
        trace,
        patience,
    } = course;
    engine.with_workers(
        rt,
        seats,
        gate,
        move || -> (Seat<Buck>, Result<Vec<u8>, NoMemory>)
            requires { IsOurs engine.now seat × (seat.mine ≡ []) }
            ensures { IsOurs engine.entry.now result.0
                × IfOk result.1 (λ out. IsPrintout trace script.entry.now result.0.seen out.items)
                × OnOk result.1 (IsJournalOf script.entry.now result.0.seen) }
        {
            let course = Course {
                alloc,
                reader,
                script,
                trace,
                patience,
            };
            drive_alone(rt, engine, seat, course, gate)
        },
    )
}
