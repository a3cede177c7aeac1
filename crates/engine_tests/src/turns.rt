//! Turns on a small ledger.
ghost use Rattle.std.specs.Prelude.{◌≡◌, ℕ, ◌≤◌, ◌<◌, List, [], ◌∷◌, ◌++◌, length, Some, OnOk, OnErr, IfOk};
ghost use Rattle.turnstile.specs.Seats.{IsSeatOf, IsWriter, first_seat};

use std::alloc::{AllocError, Global};
use std::sync::Wait;
use std::test::Fail;
use std::thread::{Threads, join};
use turnstile::{NoMemory, Seat, Tale, Turnstile};

#[derive(Clone, Copy, PartialEq)]
struct Entry {
    by: Option<u64>,
    turn: u64,
}

#[derive(Drop)]
struct Ledger {
    entries: Vec<Entry>,
}

impl Tale for Ledger {
    ghost use Rattle.std.proofs.Common.{sym, subst, length-append, le-add_right};

    type Event = Entry;

    ghost list = { λ s. s.entries.items };

    ghost by = { λ e. e.by };

    ghost counts = { λ s. (length s.entries.items, 0, 0) };

    ghost mark = { λ s. (0, 0) };

    ghost version = { length };

    fn tally(&self) -> (u64, u64, u64) {
        (self.entries.len() as u64, 0, 0)
    }

    fn list_version(&self) -> u64 {
        self.entries.len() as u64
    }

    ghost rises = { λ xs ys. subst (λ n. length xs ≤ n) (sym (length-append xs ys))
        (le-add_right (length xs) (length ys)) };
}

// Adds an entry of the seat, in a turn of its own.
fn add<R: Wait>(
    rt: &R,
    turnstile: &Turnstile<Ledger>,
    seat: &mut Seat<Entry>,
    turn: u64,
) -> Result<(), AllocError>
    requires seat { IsSeatOf turnstile.now seat.old }
    requires writer { IsWriter seat.old }
    ensures seat { IsSeatOf turnstile.now seat.new }
    ensures same { (seat.new.number ≡ seat.old.number) × (seat.new.writers ≡ seat.old.writers) }
{
    let by = Some(seat.number());
    let mut taken = turnstile.enter(rt, seat);
    let done = write(taken.state(), Entry { by, turn });
    turnstile.leave(taken);
    done
}

fn write(ledger: &mut Ledger, entry: Entry) -> Result<(), AllocError>
    ensures ok { OnOk result (ledger.new.entries.items ≡ ledger.old.entries.items ++ entry ∷ []) }
    ensures err { OnErr result (ledger.new.entries.items ≡ ledger.old.entries.items) }
{
    ledger.entries.push(entry)?;
    Ok(())
}

/// The first entry that a seat finds, and whether the turnstile is taken in its turn and after it.
fn first_entry<R: Wait>(
    rt: &R,
    turnstile: &Turnstile<Ledger>,
    seat: &mut Seat<Entry>,
) -> (Option<Entry>, bool, bool)
    requires { IsSeatOf turnstile.now seat.old }
    ensures { IsSeatOf turnstile.now seat.new }
{
    let mut turn = turnstile.enter(rt, seat);
    let seen = turn.state().entries.first().copied();
    let taken = turnstile.is_taken();
    turnstile.leave(turn);
    (seen, taken, turnstile.is_taken())
}

/// What two seats are seen to do, in the order in which it happens.
#[derive(Drop)]
struct Course {
    /// The number of each seat, and how many it can give away.
    numbers: [(u64, u64); 2],
    /// What the second seat left, and the newest version for the first, before the second adds an
    /// entry and after it.
    before: ((u64, u64, u64), u64),
    after: ((u64, u64, u64), u64),
    /// The first entry that the first seat finds, and whether the turnstile is taken in its turn
    /// and after it.
    found: (Option<Entry>, bool, bool),
    /// The number of the seat that is joined, and then what the first seat left, and its newest
    /// version.
    joined: u64,
    last: ((u64, u64, u64), u64),
    /// How many turns have ended.
    turns: u64,
    ledger: Ledger,
}

fn course_of_two<R: Wait>(rt: &R, alloc: Global) -> Result<Course, AllocError> {
    let (turnstile, mut zero) = start(alloc, 2, 1)?;
    let Ok(mut one) = turnstile.split(&mut zero) else {
        return Err(AllocError);
    };
    let numbers = [(zero.number(), zero.spare()), (one.number(), one.spare())];
    let before = (one.left(), turnstile.newest(&mut zero));
    add(rt, &turnstile, &mut one, 7)?;
    let after = (one.left(), turnstile.newest(&mut zero));
    let found = first_entry(rt, &turnstile, &mut zero);
    let joined = turnstile.join(&mut zero, one);
    let last = (zero.left(), turnstile.newest(&mut zero));
    let turns = turnstile.turns();
    let ledger = turnstile.end(rt, zero);
    Ok(Course {
        numbers,
        before,
        after,
        found,
        joined,
        last,
        turns,
        ledger,
    })
}

const ENTRY: Entry = Entry {
    by: Some(1),
    turn: 7,
};

/// Whether the first seat sees the entry of the second one, and each knows what is its own.
fn is_as_wanted(course: &Course) -> bool {
    let numbers = course.numbers == [(0, (1 << 32) - 2), (1, 0)];
    let left = course.before == ((0, 0, 0), 0) && course.after == ((1, 0, 0), 1);
    let (seen, taken, later) = course.found;
    let found = seen == Some(ENTRY) && taken && !later;
    let last = course.joined == 1 && course.last == ((1, 0, 0), 1) && course.turns == 2;
    numbers && left && found && last && course.ledger.entries.as_slice() == [ENTRY].as_slice()
}

#[test]
fn a_seat_sees_what_another_did(rt: HostRuntime) -> Result<(), Fail> {
    let course = course_of_two(&rt, rt.alloc())?;
    let all = is_as_wanted(&course);
    drop(course);
    assert!(rt; all);
    Ok(())
}

fn start(
    alloc: Global,
    writers: u64,
    room: usize,
) -> Result<(Turnstile<Ledger>, Seat<Entry>), AllocError>
    ensures { IfOk result (λ t. t.1 ≡ first_seat t.0 writers (0, 0)) }
{
    let entries = Vec::with_capacity(alloc, room)?;
    match Turnstile::new(alloc, Ledger { entries }, writers) {
        Ok(made) => Ok(made),
        Err((NoMemory, ledger)) => {
            drop(ledger);
            Err(AllocError)
        }
    }
}

const TURNS: u64 = 10_000;

// So many turns, each with an entry.
fn add_all<R: Wait>(
    rt: &R,
    turnstile: &Turnstile<Ledger>,
    mut seat: Seat<Entry>,
) -> (Seat<Entry>, Result<(), AllocError>)
    requires { IsSeatOf turnstile.now seat × IsWriter seat }
    ensures { IsSeatOf turnstile.entry.now result.0 }
{
    for turn in 0..TURNS {
        if let Err(error) = add(rt, turnstile, &mut seat, turn) {
            return (seat, Err(error));
        }
    }
    (seat, Ok(()))
}

// Two seats, each in a thread of its own.
fn add_all_twice<R: Wait + Threads + Sync>(
    rt: &R,
    turnstile: &Turnstile<Ledger>,
    seats: (Seat<Entry>, Seat<Entry>),
) -> (Seat<Entry>, Result<(), AllocError>)
    requires first { IsSeatOf turnstile.now seats.0 × IsWriter seats.0 }
    requires second { IsSeatOf turnstile.now seats.1 × IsWriter seats.1 }
    ensures { IsSeatOf turnstile.entry.now result.0 }
{
    let (mut one, two) = seats;
    let ((mut one, first), (two, second)) = join(
        rt,
        move || -> (Seat<Entry>, Result<(), AllocError>)
            requires { IsSeatOf turnstile.now one × IsWriter one }
            ensures { IsSeatOf turnstile.entry.now result.0 }
        { add_all(rt, turnstile, one) },
        move || -> (Seat<Entry>, Result<(), AllocError>)
            requires { IsSeatOf turnstile.now two × IsWriter two }
            ensures { IsSeatOf turnstile.entry.now result.0 }
        { add_all(rt, turnstile, two) },
    );
    turnstile.join(&mut one, two);
    (one, first.and(second))
}

/// How many entries each of four seats made, if each of them counts its turns from 0.
fn counts(entries: &[Entry]) -> Option<[u64; 4]> {
    let mut next = [0u64; 4];
    for entry in entries {
        let by = entry.by? as usize;
        if by >= 4 || entry.turn != next[by] {
            return None;
        }
        next[by] = next[by].wrapping_add(1);
    }
    Some(next)
}

#[test]
fn four_threads_leave_each_event_once(rt: HostRuntime) -> Result<(), Fail> {
    let (turnstile, mut zero) = start(rt.alloc(), 4, 40_000)?;
    let one = turnstile.split(&mut zero)?;
    let two = turnstile.split(&mut zero)?;
    let three = turnstile.split(&mut zero)?;
    let (shared, threads) = (&turnstile, &rt);
    let ((mut zero, first), (other, second)) = join(
        &rt,
        move || -> (Seat<Entry>, Result<(), AllocError>)
            requires { (IsSeatOf shared.now zero × IsWriter zero)
                × (IsSeatOf shared.now one × IsWriter one) }
            ensures { IsSeatOf shared.entry.now result.0 }
        { add_all_twice(threads, shared, (zero, one)) },
        move || -> (Seat<Entry>, Result<(), AllocError>)
            requires { (IsSeatOf shared.now two × IsWriter two)
                × (IsSeatOf shared.now three × IsWriter three) }
            ensures { IsSeatOf shared.entry.now result.0 }
        { add_all_twice(threads, shared, (two, three)) },
    );
    turnstile.join(&mut zero, other);
    let ledger = turnstile.end(&rt, zero);
    first?;
    second?;
    let all = counts(&ledger.entries) == Some([TURNS; 4]);
    assert!(rt; all);
    Ok(())
}
