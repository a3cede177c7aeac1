//! An engine on the example universe: calls one after another, by one seat and by two.
ghost use Rattle.std.specs.Prelude.{◌≡◌};
ghost use Rattle.dice_engine.specs.Seats.{IsSeatOf, IsWriter};

use crate::way::{Came, Course, course_of, start, waited};
use dice_engine::{
    CommitRefusal, Engine, LookRefusal, Open, Reader, Seat, Settled, Transaction, Updater, Worked,
};
use dice_key::{Line, NoMemory, Version};
use std::alloc::Global;
use std::sync::{Arc, Wait};
use std::test::Fail;
use tiny_universe::{Place, Tiny, Value};

/// What a promise has come to; of a cycle the number of its keys.
#[derive(Clone, Copy, PartialEq)]
enum Seen {
    Pending,
    Number(u64),
    Reading(u64),
    Cycle(usize),
    Gone,
}

fn seen_of(came: &Came<Tiny>) -> Seen {
    match came {
        Came::Pending => Seen::Pending,
        Came::Value(value) => match **value {
            Value::Number(number) => Seen::Number(number),
            Value::Reading(version) => Seen::Reading(version),
        },
        Came::Cycle(length) => Seen::Cycle(*length),
        Came::Gone => Seen::Gone,
    }
}

/// What a commit came to: its version, or a key that it may not set.
#[derive(Clone, Copy, PartialEq)]
enum Made {
    Version(u64),
    NotInjected(Place),
    Twice(Place),
    NoMemory,
}

/// Numbers for keys, to be committed.
fn updater_of(alloc: Global, changes: &[(Place, u64)]) -> Result<Updater<Tiny>, NoMemory> {
    let mut updater = Updater::new(alloc);
    for (place, number) in changes {
        let key = Arc::new(alloc, *place)?;
        let value = Arc::new(alloc, Value::Number(*number))?;
        updater.changed_to(key, value)?;
    }
    Ok(updater)
}

/// Commits numbers for keys.
fn commit<R: Wait>(
    rt: &R,
    alloc: Global,
    engine: &Engine<Tiny>,
    seat: &mut Seat<Tiny>,
    changes: &[(Place, u64)],
) -> Result<Made, NoMemory>
    requires { IsSeatOf engine.now seat.old × IsWriter seat.old }
    ensures seat { IsSeatOf engine.now seat.new }
    ensures same { (seat.new.number ≡ seat.old.number) × (seat.new.writers ≡ seat.old.writers) }
{
    let updater = updater_of(alloc, changes)?;
    match engine.commit(rt, seat, &updater) {
        Ok(version) => Ok(Made::Version(version)),
        Err(CommitRefusal::NotInjected(key)) => Ok(Made::NotInjected(**key)),
        Err(CommitRefusal::Twice(key)) => Ok(Made::Twice(**key)),
        Err(CommitRefusal::NoMemory) => Ok(Made::NoMemory),
    }
}

const CELLS: [(Place, u64); 2] = [(Place::Cell(1), 2), (Place::Cell(2), 3)];

const WRONG: [(Place, u64); 2] = [(Place::Cell(1), 2), (Place::Clock, 3)];

const DOUBLE: [(Place, u64); 2] = [(Place::Cell(1), 2), (Place::Cell(1), 3)];

const OTHER: [(Place, u64); 2] = [(Place::Cell(1), 2), (Place::Cell(2), 4)];

const ROWS: [([(Place, u64); 2], Made); 5] = [
    (CELLS, Made::Version(1)),
    (CELLS, Made::Version(1)),
    (WRONG, Made::NotInjected(Place::Clock)),
    (DOUBLE, Made::Twice(Place::Cell(1))),
    (OTHER, Made::Version(2)),
];

/// Whether each commit in turn comes to what is wanted.
fn all_as_wanted<R: Wait>(
    rt: &R,
    alloc: Global,
    engine: &Engine<Tiny>,
    seat: &mut Seat<Tiny>,
) -> Result<bool, NoMemory>
    requires { IsSeatOf engine.now seat.old × IsWriter seat.old }
    ensures { IsSeatOf engine.now seat.new }
{
    for (changes, want) in &ROWS {
        if commit(rt, alloc, engine, seat, changes)? != *want {
            return Ok(false);
        }
    }
    Ok(true)
}

/// Whether they do so on an engine of their own, which ends then.
fn all_as_wanted_alone<R: Wait>(rt: &R, alloc: Global) -> Result<bool, NoMemory> {
    let (engine, mut seat) = start(rt, alloc, Tiny::new(alloc)?, 1)?;
    let all = all_as_wanted(rt, alloc, &engine, &mut seat);
    engine.end(rt, seat);
    all
}

#[test]
fn only_values_that_differ_make_a_version(rt: HostRuntime) -> Result<(), Fail> {
    let all = all_as_wanted_alone(&rt, rt.alloc())?;
    assert!(rt; all);
    Ok(())
}

/// What a run that asks for a sum comes to, on the cells that the sum stands on.
fn course_of_sum<R: Wait>(rt: &R, alloc: Global) -> Result<Course<Tiny>, NoMemory> {
    let key = Arc::new(alloc, Place::Sum(1, 2))?;
    let updater = updater_of(alloc, &CELLS)?;
    let universe = Tiny::new(alloc)?;
    course_of(rt, alloc, universe, &updater, key)
}

/// Whether the sum of the cells is computed once, by one job, which is on the line once the sum is
/// asked for, and the promise goes when its transaction is closed.
fn comes_to_five(course: &Course<Tiny>) -> bool {
    let way = &course.way;
    let worked = way.worked == Worked::Did && way.idle == Worked::Idle;
    let line = way.asked == (0, 1) && way.empties == 1;
    let first = seen_of(&way.first) == Seen::Pending;
    let last = seen_of(&way.last) == Seen::Number(5);
    let gone = seen_of(&way.gone) == Seen::Gone;
    !course.taken && way.version == 1 && worked && line && first && last && gone
}

#[test]
fn a_promise_is_pending_then_settled_and_at_last_gone(rt: HostRuntime) -> Result<(), Fail> {
    let course = course_of_sum(&rt, rt.alloc())?;
    let (made, all) = (course.made, comes_to_five(&course));
    drop(course);
    assert!(rt; made == Some(1) && all);
    Ok(())
}

/// Two seats, of which one works on what the other waits for: what the first did, what the other
/// sees, the number of the first when it is joined, and what is left to do then.
fn two_seats<R: Wait>(rt: &R, alloc: Global) -> Result<(Worked, Seen, u64, Worked), NoMemory> {
    let ring = Arc::new(alloc, Place::Ring(true))?;
    let (engine, mut zero) = start(rt, alloc, Tiny::new(alloc)?, 1)?;
    let Ok(mut one) = engine.split(&mut zero) else {
        engine.end(rt, zero);
        return Err(NoMemory);
    };
    let came = waited(rt, &engine, &mut zero, &mut one, ring);
    let number = engine.join(&mut zero, one);
    let left = engine.work(rt, &mut zero, &Open, 0);
    engine.end(rt, zero);
    let (worked, last) = came?;
    Ok((worked, seen_of(&last), number, left))
}

#[test]
fn a_seat_waits_for_what_another_seat_may_work_on(rt: HostRuntime) -> Result<(), Fail> {
    let (worked, seen, number, left) = two_seats(&rt, rt.alloc())?;
    assert!(rt; worked == Worked::Did && seen == Seen::Cycle(2));
    assert!(rt; number == 1 && left == Worked::Idle);
    Ok(())
}

/// Whether the lines are these texts.
fn are_these(lines: &[Line], texts: &[&str]) -> bool {
    if lines.len() != texts.len() {
        return false;
    }
    for (line, text) in lines.iter().zip(texts) {
        if line.as_bytes() != text.as_bytes() {
            return false;
        }
    }
    true
}

const LINES: [&str; 5] = [
    "commit 0 1 2",
    "open 0 1",
    "ask 0 1 sum 1 2",
    "start 1 sum 1 2 new",
    "end 1 sum 1 2",
];

#[test]
fn the_log_has_a_line_for_each_event(rt: HostRuntime) -> Result<(), Fail> {
    let course = course_of_sum(&rt, rt.alloc())?;
    let (before, made) = (course.before, course.made);
    let all = are_these(&course.way.lines, &LINES);
    drop(course);
    assert!(rt; before == 0 && made == Some(1) && all);
    Ok(())
}

/// What the first of two seats tells as the newest version before the second one commits, what this
/// commit came to, what the first one tells after it without a turn, and the version that it opens
/// at last.
fn newest_of_two<R: Wait>(
    rt: &R,
    alloc: Global,
) -> Result<(Version, Made, Version, Version), NoMemory> {
    let (engine, mut zero) = start(rt, alloc, Tiny::new(alloc)?, 2)?;
    let Ok(mut one) = engine.split(&mut zero) else {
        engine.end(rt, zero);
        return Err(NoMemory);
    };
    let before = engine.newest(&mut zero);
    let made = commit(rt, alloc, &engine, &mut one, &CELLS);
    let after = engine.newest(&mut zero);
    let opened = match engine.open(rt, &mut zero) {
        Ok(transaction) => {
            let version = transaction.version;
            engine.close(rt, &mut zero, transaction);
            Ok(version)
        }
        Err(NoMemory) => Err(NoMemory),
    };
    engine.end(rt, zero);
    Ok((before, made?, after, opened?))
}

#[test]
fn the_newest_version_is_told_without_a_turn(rt: HostRuntime) -> Result<(), Fail> {
    let (before, made, after, opened) = newest_of_two(&rt, rt.alloc())?;
    assert!(rt; before == 0 && made == Made::Version(1));
    assert!(rt; after == 1 && opened == 1);
    Ok(())
}

/// What a reader of an engine comes to.
#[derive(Drop)]
struct Looks {
    /// What it is told, and what it sees then, before a sum is asked for.
    told_before: bool,
    before: Option<u64>,
    /// What the asker waited for.
    settled: Seen,
    /// What the reader is told, and what it sees then of the sum and of another one.
    told_after: bool,
    after: Option<u64>,
    other: Option<u64>,
    /// How often it was refused.
    refused: u64,
}

/// The number that a reader sees of a key in a transaction.
fn number_of(
    engine: &Engine<Tiny>,
    reader: &mut Reader<Tiny>,
    transaction: &Transaction,
    key: &Place,
) -> Result<Option<u64>, LookRefusal> {
    let Some(value) = engine.quick(reader, transaction, key)? else {
        return Ok(None);
    };
    match *value {
        Value::Number(number) => Ok(Some(number)),
        Value::Reading(_) => Ok(None),
    }
}

/// A reader looks at a sum before it is asked for, and after the seat waited for it.
fn looks_of<R: Wait>(
    rt: &R,
    alloc: Global,
    engine: &Engine<Tiny>,
    seat: &mut Seat<Tiny>,
    reader: &mut Reader<Tiny>,
) -> Result<(Looks, Transaction), Fail>
    requires { IsSeatOf engine.now seat.old × IsWriter seat.old }
    ensures { IsSeatOf engine.now seat.new }
{
    let sum = Place::Sum(1, 2);
    commit(rt, alloc, engine, seat, &CELLS)?;
    let told_before = engine.tell(rt, seat, reader);
    let transaction = engine.open(rt, seat)?;
    let before = number_of(engine, reader, &transaction, &sum).ok().flatten();
    let key = Arc::new(alloc, sum)?;
    let promise = engine.ask(rt, seat, &transaction, key)?;
    let last = engine.wait(rt, seat, &promise, &Open, 0)?;
    let settled = match last {
        Settled::Value(value) => match *value {
            Value::Number(number) => Seen::Number(number),
            Value::Reading(version) => Seen::Reading(version),
        },
        Settled::Cycle(_) | Settled::Gone => Seen::Gone,
    };
    let told_after = engine.tell(rt, seat, reader);
    let after = number_of(engine, reader, &transaction, &sum).ok().flatten();
    let other = number_of(engine, reader, &transaction, &Place::Sum(2, 1))
        .ok()
        .flatten();
    let refused = reader.refused();
    let looks = Looks {
        told_before,
        before,
        settled,
        told_after,
        after,
        other,
        refused,
    };
    Ok((looks, transaction))
}

/// The same on an engine of its own, which ends then.
fn looks_alone<R: Wait>(rt: &R, alloc: Global) -> Result<Looks, Fail> {
    let universe = Arc::new(alloc, Tiny::new(alloc)?)?;
    let (engine, mut seat, mut readers) = Engine::with_readers(rt, alloc, universe, 1, 1)?;
    let Some(mut reader) = readers.pop() else {
        engine.end(rt, seat);
        return Err(Fail::from(NoMemory));
    };
    match looks_of(rt, alloc, &engine, &mut seat, &mut reader) {
        Ok((looks, transaction)) => {
            engine.end(rt, seat);
            drop(transaction);
            Ok(looks)
        }
        Err(fail) => {
            engine.end(rt, seat);
            Err(fail)
        }
    }
}

#[test]
fn a_reader_looks_without_a_turn(rt: HostRuntime) -> Result<(), Fail> {
    let looks = looks_alone(&rt, rt.alloc())?;
    assert!(rt; looks.told_before && looks.before == None);
    assert!(rt; looks.settled == Seen::Number(5));
    assert!(rt; looks.told_after && looks.after == Some(5) && looks.other == None);
    assert!(rt; looks.refused == 0);
    Ok(())
}
