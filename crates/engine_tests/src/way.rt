//! One promise on its way, on an engine over any universe.
ghost use Rattle.std.specs.Prelude.{◌≡◌, IfOk};
ghost use Rattle.dice_engine.specs.Seats.{first_seat, IsSeatOf, IsWriter};

use dice_engine::{Answer, Engine, Open, Seat, Settled, Updater, Worked};
use dice_key::{KeyRef, Line, NoMemory, Universe, ValueRef, Version};
use std::alloc::Global;
use std::sync::{Arc, Wait};

/// An engine for so many writers, and its first seat.
pub(crate) fn start<U: Universe, R: Wait>(
    rt: &R,
    alloc: Global,
    universe: U,
    writers: u64,
) -> Result<(Engine<U>, Seat<U>), NoMemory>
    ensures { IfOk result (λ t. t.1 ≡ first_seat t.0 writers) }
{
    Engine::new(rt, alloc, Arc::new(alloc, universe)?, writers)
}

/// What a promise has come to; of a cycle the number of its keys.
pub(crate) enum Came<U: Universe> {
    Pending,
    Value(ValueRef<U>),
    Cycle(usize),
    Gone,
}

// (One function for all places that drop one: a derived drop is written out at each.)
impl<U: Universe> Drop for Came<U> {
    fn drop(self) {
        match self {
            Came::Value(_value) => {}
            Came::Pending | Came::Cycle(_) | Came::Gone => {}
        }
    }
}

fn answered<U: Universe>(answer: Answer<U>) -> Came<U> {
    match answer {
        Answer::Pending => Came::Pending,
        Answer::Value(value) => Came::Value(value),
        Answer::Cycle(path) => Came::Cycle(path.keys().len()),
        Answer::Gone => Came::Gone,
    }
}

fn settled<U: Universe>(settled: Settled<U>) -> Came<U> {
    match settled {
        Settled::Value(value) => Came::Value(value),
        Settled::Cycle(path) => Came::Cycle(path.keys().len()),
        Settled::Gone => Came::Gone,
    }
}

/// What one seat sees of a promise, in the order in which it calls.
pub(crate) struct Way<U: Universe> {
    /// The version that its transaction reads.
    pub(crate) version: Version,
    pub(crate) first: Came<U>,
    /// How many tasks are ready and how many jobs are out once the key was asked for.
    pub(crate) asked: (u64, u64),
    pub(crate) worked: Worked,
    pub(crate) last: Came<U>,
    /// The lines of the journal then.
    pub(crate) lines: Vec<Line>,
    pub(crate) idle: Worked,
    /// How often the seat found the line of jobs empty in that call.
    pub(crate) empties: u64,
    /// What a poll answers once the transaction is closed.
    pub(crate) gone: Came<U>,
}

// (One function for all places that drop one.)
impl<U: Universe> Drop for Way<U> {
    fn drop(self) {
        let Way {
            version: _,
            first: _first,
            asked: _,
            worked: _,
            last: _last,
            lines: _lines,
            idle: _,
            empties: _,
            gone: _gone,
        } = self;
    }
}

/// A key is asked for in a transaction of its own, which is closed in the end.
pub(crate) fn way_of<U: Universe, R: Wait>(
    rt: &R,
    alloc: Global,
    engine: &Engine<U>,
    seat: &mut Seat<U>,
    key: KeyRef<U>,
) -> Result<Way<U>, NoMemory>
    requires { IsSeatOf engine.now seat.old × IsWriter seat.old }
    ensures { IsSeatOf engine.now seat.new }
{
    let transaction = engine.open(rt, seat)?;
    let version = transaction.version;
    let promise = engine.ask(rt, seat, &transaction, key)?;
    let (ready, out, _) = seat.left();
    let first = engine.poll(rt, seat, &promise)?;
    let first = answered(first);
    let worked = engine.work(rt, seat, &Open, 0);
    let last = engine.wait(rt, seat, &promise, &Open, 0)?;
    let last = settled(last);
    let lines = engine.log(rt, alloc, seat)?;
    let before = seat.empties();
    let idle = engine.work(rt, seat, &Open, 0);
    let empties = seat.empties().saturating_sub(before);
    engine.close(rt, seat, transaction);
    let gone = engine.poll(rt, seat, &promise)?;
    Ok(Way {
        version,
        first,
        asked: (ready, out),
        worked,
        last,
        lines,
        idle,
        empties,
        gone: answered(gone),
    })
}

/// What a run of one seat comes to.
pub(crate) struct Course<U: Universe> {
    /// How many lines the journal has at first.
    pub(crate) before: usize,
    /// The version of the commit, if it is not refused.
    pub(crate) made: Option<Version>,
    pub(crate) way: Way<U>,
    /// Whether a seat has a turn in the end.
    pub(crate) taken: bool,
}

// (One function for all places that drop one.)
impl<U: Universe> Drop for Course<U> {
    fn drop(self) {
        let Course {
            before: _,
            made: _,
            way: _way,
            taken: _,
        } = self;
    }
}

/// A commit on an engine of its own, which ends then, and the way of a promise for a key.
pub(crate) fn course_of<U: Universe, R: Wait>(
    rt: &R,
    alloc: Global,
    universe: U,
    updater: &Updater<U>,
    key: KeyRef<U>,
) -> Result<Course<U>, NoMemory> {
    let (engine, mut seat) = start(rt, alloc, universe, 1)?;
    let course = course_on(rt, alloc, &engine, &mut seat, updater, key);
    engine.end(rt, seat);
    course
}

fn course_on<U: Universe, R: Wait>(
    rt: &R,
    alloc: Global,
    engine: &Engine<U>,
    seat: &mut Seat<U>,
    updater: &Updater<U>,
    key: KeyRef<U>,
) -> Result<Course<U>, NoMemory>
    requires { IsSeatOf engine.now seat.old × IsWriter seat.old }
    ensures { IsSeatOf engine.now seat.new }
{
    let before = engine.log(rt, alloc, seat)?.len();
    let made = engine.commit(rt, seat, updater).ok();
    let way = way_of(rt, alloc, engine, seat, key)?;
    let taken = engine.is_taken();
    Ok(Course {
        before,
        made,
        way,
        taken,
    })
}

/// Asks for a key by one seat, lets another one work once, and waits; what the other one did, and
/// what the promise has come to.
pub(crate) fn waited<U: Universe, R: Wait>(
    rt: &R,
    engine: &Engine<U>,
    zero: &mut Seat<U>,
    one: &mut Seat<U>,
    key: KeyRef<U>,
) -> Result<(Worked, Came<U>), NoMemory>
    requires zero { IsSeatOf engine.now zero.old × IsWriter zero.old }
    requires one { IsSeatOf engine.now one.old }
    ensures zero { IsSeatOf engine.now zero.new }
    ensures one { IsSeatOf engine.now one.new }
{
    let transaction = engine.open(rt, zero)?;
    let promise = engine.ask(rt, zero, &transaction, key)?;
    let worked = engine.work(rt, one, &Open, 1);
    let last = engine.wait(rt, zero, &promise, &Open, 0)?;
    engine.leave(rt, zero, promise);
    Ok((worked, settled(last)))
}
