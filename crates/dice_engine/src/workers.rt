//! Workers beside a caller: each on a seat of its own, in a thread of its own.
ghost use Rattle.std.specs.Prelude.{◌≡◌, ◌≤◌, All, IfOk, length};
ghost use Rattle.dice_engine.specs.Seats.{IsSeatOf, spare};
ghost use Rattle.dice_engine.specs.Seating.{GivesSeats, IsPlaceOf};

use crate::engine::Engine;
use crate::gate::Gate;
use crate::promise::Worked;
use crate::seat::{Place, Seat, SeatOf};
use dice_key::{NoMemory, Universe};
use std::alloc::Global;
use std::sync::Wait;
use std::sync::atomic::{AtomicU64, Ordering};
use std::thread::{self, Threads, join};
use std::time::Duration;

/// How long a worker rests after a job, and at first if it finds none, in microseconds.
const REST: u64 = 1000;

/// How often a rest is twice as long as the one before it, at most.
const DOUBLED: u32 = 5;

/// If more turns than so many end in the time of `REST`, jobs are short.
const MANY: u64 = 64;

impl<U: Universe> Engine<U> {
    /// Splits off so many seats for workers. If memory is refused, those that were split off are let
    /// go.
    pub fn split_seats(
        &self,
        alloc: Global,
        seat: &mut Seat<U>,
        count: u64,
    ) -> Result<Vec<Place<U>>, NoMemory>
        requires seat { IsSeatOf self.now seat.old }
        requires spare { count ≤ spare seat.old }
        ensures gives { GivesSeats seat.old seat.new }
        ensures seats { IfOk result (λ v. All (IsPlaceOf self.now) v.items) }
        ensures count { IfOk result (λ v. length v.items ≡ count) }
    {
        let mut seats = Vec::new(alloc);
        for _ in 0..count {
            let SeatOf { place, pass: _pass } = self.split(seat)?;
            seats.push(place)?;
        }
        Ok(seats)
    }

    /// Calls `f` in this thread, with a worker on each of these seats beside it. A worker does jobs
    /// in a thread of its own until `f` has returned. If no thread can be made for a worker, its
    /// jobs are left to the others, and to `wait`.
    pub fn with_workers<R: Threads + Wait + Sync, G: Gate, T, F: FnOnce() -> T>(
        &self,
        rt: &R,
        seats: Vec<Place<U>>,
        gate: &G,
        f: F,
    ) -> T
        requires seats { All (IsPlaceOf self.now) seats.items }
        requires call { F.pre f }
        ensures { F.post f result }
    {
        let done = AtomicU64::new(0);
        let stop = &done;
        beside(
            rt,
            seats,
            &|seats: Vec<Place<U>>| -> bool
                requires { All (IsPlaceOf self.now) seats.items }
            { self.work_all(rt, seats, gate, stop) },
            f,
            stop,
        )
    }

    // Each worker in a thread of its own, if one can be made. It answers whether each was begun.
    fn work_all<R: Threads + Wait + Sync, G: Gate>(
        &self,
        rt: &R,
        seats: Vec<Place<U>>,
        gate: &G,
        stop: &AtomicU64,
    ) -> bool
        requires { All (IsPlaceOf self.now) seats.items }
    {
        thread::map_vec(
            rt,
            seats,
            &|place: Place<U>| -> bool
                requires { IsPlaceOf self.now place }
            { self.work_on(rt, place, gate, stop) },
        )
        .is_ok()
    }

    // A seat of a worker, in its thread. Its pass is made in a turn: what is passed to a thread may
    // not name the jobs of a line, since the engine beside it names the rule of its shelf.
    fn seated<R: Wait>(&self, rt: &R, mut place: Place<U>) -> Seat<U>
        requires { IsPlaceOf self.now place }
        ensures { IsSeatOf self.now result }
    {
        let mut turn = self.stile.enter(rt, &mut place);
        let state = turn.state();
        let pass = state.pass();
        self.stile.leave(turn);
        SeatOf { place, pass }
    }

    // Does jobs until it is stopped, which it answers. After each job it rests a little, and for
    // longer while it finds none, or while many turns end as it rests: then jobs are short, and a
    // turn of a worker costs more than it saves. If the engine is taken, it rests first. So the
    // turns are left to the caller: most jobs are short.
    fn work_on<R: Wait, G: Gate>(&self, rt: &R, place: Place<U>, gate: &G, stop: &AtomicU64) -> bool
        requires { IsPlaceOf self.now place }
    {
        let mut seat = self.seated(rt, place);
        let worker = (seat.number() % 4_294_967_296) as u32;
        let mut tries = 0u32;
        for _ in rt.forever() {
            if stop.load(Ordering::Acquire) != 0 {
                return true;
            }
            let found = !self.is_taken()
                && matches!(self.work(rt, &mut seat, gate, worker), Worked::Did);
            let are_long = self.rest(rt, stop, tries);
            tries = if found && are_long {
                0
            } else {
                tries.saturating_add(1)
            };
        }
        unreachable!()
    }

    // Sleeps for a while, the longer the more tries were for nothing, but not on after the stop. It
    // answers whether few turns ended meanwhile, as if jobs are long.
    fn rest<R: Wait>(&self, rt: &R, stop: &AtomicU64, tries: u32) -> bool {
        let doubled = tries.min(DOUBLED);
        let before = self.stile.turns();
        stop.park_timeout(rt, 0, Duration::from_micros(REST << doubled));
        self.stile.turns().wrapping_sub(before) <= MANY << doubled
    }
}

/// Calls `f` in this thread, and `work` on what is given in another one, which is told to stop when
/// `f` has returned. It names no engine: what is passed to a thread may not name the rule of its
/// shelf.
fn beside<R: Threads + Wait + Sync, S: Send + Drop, W: Fn(S) -> bool + Sync, T, F: FnOnce() -> T>(
    rt: &R,
    given: S,
    work: &W,
    f: F,
    stop: &AtomicU64,
) -> T
    requires work { W.pre work.now given }
    requires call { F.pre f }
    ensures { F.post f result }
{
    let (_, result) = join(
        rt,
        move || -> bool
            requires { W.pre work.now given }
        { work(given) },
        move || -> T
            requires { F.pre f }
            ensures { F.post f result }
        {
            let result = f();
            stop.store(1, Ordering::Release);
            stop.wake_all();
            result
        },
    );
    result
}
