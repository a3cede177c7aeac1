//! Each call of a session once, with ample memory.
use dice_key::{NoMemory, TypedKey, Version};
use dice_session::{Cause, CommitError, Event, Found, Session};
use std::alloc::Global;
use std::sync::Wait;
use std::test::Fail;
use tiny_universe::{CellKey, FollowKey, ParityKey, Place, Tiny, Value};

/// A session in which these cells were set to these numbers, and committed.
fn session_of<R: Wait>(
    rt: &R,
    alloc: Global,
    cells: &[(u32, u64)],
) -> Result<Session<Tiny>, NoMemory> {
    let mut session = Session::new(rt, alloc, Tiny::new(alloc)?)?;
    commit_all(rt, &mut session, cells)?;
    Ok(session)
}

/// Commits these cells. The version, if it is not refused.
fn commit_all<R: Wait>(
    rt: &R,
    session: &mut Session<Tiny>,
    cells: &[(u32, u64)],
) -> Result<Option<u64>, NoMemory> {
    for (cell, number) in cells {
        session.set(Place::Cell(*cell), Value::Number(*number))?;
    }
    Ok(session.commit(rt).ok())
}

/// What a key came to: its number, or how many keys the cycle has that it reaches.
#[derive(Clone, Copy, Debug, PartialEq, Eq)]
enum Came {
    Number(u64),
    Reading(u64),
    Cycle(usize),
}

fn outcome_of(found: &Found<Tiny>) -> Came {
    match found {
        Found::Value(value) => match **value {
            Value::Number(number) => Came::Number(number),
            Value::Reading(reading) => Came::Reading(reading),
        },
        Found::Cycle(path) => Came::Cycle(path.keys().len()),
    }
}

/// How often a key was computed, how often its earlier value was kept, and how often a computing
/// ended.
#[derive(Clone, Copy, Debug, Default, PartialEq, Eq)]
struct Tally {
    started: u32,
    kept: u32,
    ended: u32,
}

fn count_of(events: &[Event<Place, Value>], wanted: Place) -> Tally {
    let mut tally = Tally::default();
    for event in events {
        match event {
            Event::Start(_, key, _) if **key == wanted => {
                tally.started = tally.started.saturating_add(1);
            }
            Event::Keep(_, key, _) if **key == wanted => {
                tally.kept = tally.kept.saturating_add(1);
            }
            Event::End(_, key) if **key == wanted => {
                tally.ended = tally.ended.saturating_add(1);
            }
            _ => {}
        }
    }
    tally
}

#[test]
fn keys_come_to_their_values(rt: HostRuntime) -> Result<(), Fail> {
    let mut session = session_of(&rt, rt.alloc(), &[(1, 2), (2, 7)])?;
    let rows = [
        (Place::Cell(1), Came::Number(2)),
        (Place::Cell(9), Came::Number(0)),
        (Place::Follow(1), Came::Number(7)),
        (Place::Parity(1), Came::Number(1)),
        (Place::Sum(1, 2), Came::Number(9)),
        (Place::Clock, Came::Reading(1)),
        (Place::Ring(false), Came::Cycle(2)),
    ];
    for (key, wanted) in rows {
        let found = session.compute(&rt, key)?;
        assert_eq!(rt; outcome_of(&found), wanted);
    }
    let mut keys = Vec::new(rt.alloc());
    for (key, _) in rows {
        keys.push(key)?;
    }
    let found = session.compute_all(&rt, keys)?;
    assert_eq!(rt; found.len(), rows.len());
    for (found, (_, wanted)) in found.iter().zip(rows) {
        assert_eq!(rt; outcome_of(found), wanted);
    }
    Ok(())
}

#[test]
fn fronts_are_read(rt: HostRuntime) -> Result<(), Fail> {
    let mut session = session_of(&rt, rt.alloc(), &[(1, 2), (2, 7)])?;
    let cell = session.get(&rt, CellKey { cell: 1 })?;
    assert_eq!(rt; cell, Some(2));
    let followed = session.get(&rt, FollowKey { cell: 1 })?;
    assert_eq!(rt; followed, Some(7));
    let parity = session.get(&rt, ParityKey { cell: 1 })?;
    assert_eq!(rt; parity, Some(1));

    // A cell may be set to a value that its front does not read.
    session.set(CellKey { cell: 1 }.wrap(), Value::Reading(5))?;
    let made = session.commit(&rt).ok();
    assert_eq!(rt; made, Some(2));
    let cell = session.get(&rt, CellKey { cell: 1 })?;
    assert_eq!(rt; cell, None);
    Ok(())
}

/// What is said of a refused commit; nothing of one that was made.
fn said_of(alloc: Global, made: &Result<Version, CommitError<Tiny>>) -> Result<String, NoMemory> {
    match made {
        Ok(_) => Ok(String::new(alloc)),
        Err(refused) => Ok(format!(in alloc; "{refused}")?),
    }
}

/// Whether a commit was refused since this key was set twice.
fn is_twice(made: &Result<Version, CommitError<Tiny>>, place: Place) -> bool {
    match made {
        Err(CommitError::Twice(key)) => **key == place,
        _ => false,
    }
}

#[test]
fn commits_are_made_or_refused(rt: HostRuntime) -> Result<(), Fail> {
    let mut session = session_of(&rt, rt.alloc(), &[(1, 2)])?;
    let again = commit_all(&rt, &mut session, &[(1, 2)])?;
    assert_eq!(rt; again, Some(1));
    let none = commit_all(&rt, &mut session, &[])?;
    assert_eq!(rt; none, Some(1));

    session.set(Place::Cell(1), Value::Number(3))?;
    session.set(Place::Follow(1), Value::Number(3))?;
    let refused = session.commit(&rt);
    let text = said_of(rt.alloc(), &refused)?;
    assert_eq!(rt; text.as_str(), "a key is set that is not injected");
    session.set(Place::Cell(1), Value::Number(3))?;
    session.set(Place::Cell(1), Value::Number(4))?;
    let refused = session.commit(&rt);
    let named = is_twice(&refused, Place::Cell(1));
    assert!(rt; named);

    // What was refused is let go.
    let made = commit_all(&rt, &mut session, &[(2, 5)])?;
    assert_eq!(rt; made, Some(2));
    let cell = session.get(&rt, CellKey { cell: 1 })?;
    assert_eq!(rt; cell, Some(2));
    Ok(())
}

#[test]
fn a_change_stops_at_an_equal_value(rt: HostRuntime) -> Result<(), Fail> {
    let mut session = session_of(&rt, rt.alloc(), &[(1, 2), (2, 7), (3, 7)])?;
    let parity = session.get(&rt, ParityKey { cell: 1 })?;
    assert_eq!(rt; parity, Some(1));

    // Cell 1 leads to another cell now, which has the same number.
    let made = commit_all(&rt, &mut session, &[(1, 3)])?;
    assert_eq!(rt; made, Some(2));
    let point = session.point(&rt);
    let parity = session.get(&rt, ParityKey { cell: 1 })?;
    assert_eq!(rt; parity, Some(1));
    let events = session.events_since(&rt, point)?;
    let followed = count_of(&events, Place::Follow(1));
    assert_eq!(rt;
        (followed.started, followed.kept, followed.ended),
        (1, 0, 1)
    );
    let parity = count_of(&events, Place::Parity(1));
    assert_eq!(rt; (parity.started, parity.kept, parity.ended), (0, 1, 0));
    let caused = events.iter().any(|event| match event {
        Event::Start(2, key, Cause::Differs(1, cell)) => {
            **key == Place::Follow(1) && **cell == Place::Cell(1)
        }
        _ => false,
    });
    assert!(rt; caused);

    // A value that no change reaches is not even looked at again.
    let made = commit_all(&rt, &mut session, &[(9, 1)])?;
    assert_eq!(rt; made, Some(3));
    let point = session.point(&rt);
    let followed = session.get(&rt, FollowKey { cell: 1 })?;
    assert_eq!(rt; followed, Some(7));
    let events = session.events_since(&rt, point)?;
    let followed = count_of(&events, Place::Follow(1));
    assert_eq!(rt;
        (followed.started, followed.kept, followed.ended),
        (0, 1, 0)
    );
    Ok(())
}

#[test]
fn events_and_lines_are_of_one_journal(rt: HostRuntime) -> Result<(), Fail> {
    let mut session = session_of(&rt, rt.alloc(), &[(1, 2)])?;
    let start = session.point(&rt);
    assert_eq!(rt; start, 1);
    let _sum = session.compute(&rt, Place::Sum(1, 1))?;
    let lines = session.log(&rt)?;
    let events = session.events_since(&rt, 0)?;
    assert_eq!(rt; lines.len(), events.len());
    match events.first() {
        Some(Event::Commit(0, changes)) => {
            assert_eq!(rt; changes.pairs().len(), 1);
        }
        _ => assert!(rt; false),
    }
    let later = session.events_since(&rt, start)?;
    assert_eq!(rt; later.len() + 1, events.len());
    match later.first() {
        Some(Event::Open(0, version)) => assert_eq!(rt; *version, 1),
        _ => assert!(rt; false),
    }
    let end = session.events_since(&rt, lines.len())?;
    assert_eq!(rt; end.len(), 0);
    match lines.last() {
        Some(last) => assert_eq!(rt; last.as_bytes(), b"leave 0 2".as_slice()),
        None => assert!(rt; false),
    }
    Ok(())
}

#[test]
fn workers_do_jobs_beside_a_session(rt: HostRuntime) -> Result<(), Fail> {
    let mut session = session_of(&rt, rt.alloc(), &[(1, 2), (2, 7)])?;
    for workers in 0..3 {
        let parity = session
            .workers(workers)?
            .beside(&rt, || session.get(&rt, ParityKey { cell: 1 }))?;
        assert_eq!(rt; parity, Some(1));
    }
    let made = commit_all(&rt, &mut session, &[(2, 8)])?;
    assert_eq!(rt; made, Some(2));
    let parity = session.get(&rt, ParityKey { cell: 1 })?;
    assert_eq!(rt; parity, Some(0));
    Ok(())
}
