//! Events and their lines.
use dice_key::NoMemory;
use journal::{Cause, Changes, Event, Journal};
use std::alloc::Global;
use std::sync::Arc;
use std::test::Fail;
use tiny_universe::{Place, Tiny, Value};

/// A commit of one cell.
fn commit(alloc: Global) -> Result<Event<Place, Value>, NoMemory> {
    let key = Arc::new(alloc, Place::Cell(3))?;
    let value = Arc::new(alloc, Value::Number(4))?;
    let mut pairs = Vec::new(alloc);
    pairs.push((key, value))?;
    Ok(Event::Commit(0, Changes::from_pairs(pairs)))
}

/// The clock is started, since that cell has another value.
fn start(alloc: Global) -> Result<Event<Place, Value>, NoMemory> {
    let cause = Cause::Differs(1, Arc::new(alloc, Place::Cell(3))?);
    Ok(Event::Start(2, Arc::new(alloc, Place::Clock)?, cause))
}

fn keep(alloc: Global) -> Result<Event<Place, Value>, NoMemory> {
    Ok(Event::Keep(2, Arc::new(alloc, Place::Clock)?, 1))
}

/// Appends an event, if there is room.
fn push(journal: &mut Journal<Tiny>, event: Event<Place, Value>) {
    if journal.spare() > 0 {
        journal.push_reserved(event);
    }
}

fn has_line(alloc: Global, journal: &Journal<Tiny>, row: &Row) -> Result<bool, NoMemory> {
    if row.0 >= journal.len() {
        return Ok(false);
    }
    let universe = Tiny::new(alloc)?;
    let line = journal.line(row.0, &universe, alloc)?;
    Ok(line.as_bytes() == row.1)
}

/// Whether the last of four events is that the clock keeps its value.
fn keeps_last(journal: &Journal<Tiny>) -> bool {
    journal.len() == 4 && matches!(journal.event(3), Event::Keep(2, _, 1))
}

/// The number of an event, and its line.
type Row = (usize, &'static [u8]);

const OPEN: Row = (0, b"open 0 0");

const ROWS: [Row; 3] = [
    (1, b"commit 0 3"),
    (2, b"start 2 clock differs 1 cell 3"),
    (3, b"keep 2 clock 1"),
];

#[test]
fn events_and_their_lines(rt: HostRuntime) -> Result<(), Fail> {
    let alloc = rt.alloc();
    let mut journal: Journal<Tiny> = Journal::new(alloc);
    journal.reserve(4)?;
    push(&mut journal, Event::Open(0, 0));
    assert!(rt; journal.len() == 1 && has_line(alloc, &journal, &OPEN)?);
    push(&mut journal, commit(alloc)?);
    push(&mut journal, start(alloc)?);
    push(&mut journal, keep(alloc)?);
    assert!(rt; journal.spare() == 0 && keeps_last(&journal));
    for row in &ROWS {
        assert!(rt; has_line(alloc, &journal, row)?);
    }
    Ok(())
}
