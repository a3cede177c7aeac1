//! The engine, and how it is made.
ghost use Rattle.std.specs.Prelude.{◌≡◌, ◌<◌, ◌≤◌, ◌+◌, ◌∷◌, ◌++◌, max, IsOk, IfOk};
ghost use Rattle.turnstile.specs.Events.{longer};
ghost use Rattle.dice_engine.specs.Seats.{first_seat, spare, split_off, note_of, IsSeatOf};
ghost use Rattle.dice_engine.specs.Turns.{newest_in};

use crate::bench::Bench;
use crate::ledge::Published;
use crate::seat::{Seat, SeatOf};
use crate::state::State;
use dice_core::{Core, Job};
use dice_key::{NoMemory, Universe, Version};
use job_line::JobLine;
use std::alloc::Global;
use std::marker::Model;
use std::sync::{Arc, Wait};
use turnstile::Turnstile;

/// An engine. It may be shared by threads, each with a seat of its own. Contracts see it as the
/// identity of its turnstile and of its line of jobs.
pub struct Engine<U: Universe> {
    pub(crate) line: Arc<JobLine<Job<U>>>,
    pub(crate) stile: Turnstile<State<U>>,
    pub(crate) universe: Arc<U>,
}

// (One function for all places that drop one: a derived drop is written out at each. The line
// stands first: the borrow checker refuses it after the turnstile.)
impl<U: Universe> Drop for Engine<U> {
    fn drop(self) {
        let Engine {
            line: _line,
            stile: _stile,
            universe: _universe,
        } = self;
    }
}

/// What an engine held that has ended. It goes when this is dropped. A process that ends may forget
/// it.
pub struct Ended<U: Universe> {
    bench: Box<Bench<U>>,
    shelf: Option<Published<U>>,
    universe: Arc<U>,
}

// (One function for all places that drop one.)
impl<U: Universe> Drop for Ended<U> {
    fn drop(self) {
        let Ended {
            bench: _bench,
            shelf: _shelf,
            universe: _universe,
        } = self;
    }
}

impl<U: Universe> Model for Engine<U> {
    ghost use Rattle.std.specs.Arc.{arc_value};
    ghost use Rattle.dice_engine.specs.Seats.{EngineId, engine_id_coded};

    ghost Value = { EngineId };

    ghost coded = { engine_id_coded };

    ghost view = { λ e. record { turnstile = e.stile; line = arc_value e.line } };
}

impl<U: Universe> Engine<U> {
    /// An engine without commits, and its first seat, which has the number 0 and the spare numbers
    /// 1 to 2^32 - 1. Seats with a number below `writers` may commit, open and ask.
    pub fn new<R: Wait>(
        _rt: &R,
        alloc: Global,
        universe: Arc<U>,
        writers: u64,
    ) -> Result<(Engine<U>, Seat<U>), NoMemory>
        ensures { IfOk result (λ t. t.1 ≡ first_seat t.0 writers) }
    {
        let core = Core::new(alloc, Arc::try_clone(&universe)?)?;
        let (state, line, pass) = State::new(alloc, core)?;
        match Turnstile::new(alloc, state, writers) {
            Ok((stile, place)) => {
                let engine = Engine {
                    stile,
                    line,
                    universe,
                };
                Ok((engine, SeatOf { place, pass }))
            }
            Err(_) => Err(NoMemory),
        }
    }

    /// A new seat with the least spare number, which has seen what this one has. It takes no
    /// memory, and is never refused.
    pub fn split(&self, seat: &mut Seat<U>) -> Result<Seat<U>, NoMemory>
        requires seat { IsSeatOf self.now seat.old }
        requires spare { 0 < spare seat.old }
        ensures done { IsOk result }
        ensures new { IfOk result (λ new. new ≡ split_off seat.old) }
        ensures seat { seat.new ≡ record seat.old { spare_start = seat.old.spare_start + 1 } }
    {
        let Ok(place) = self.stile.split(&mut seat.place) else {
            return Err(NoMemory);
        };
        let Ok(pass) = self.line.split(&mut seat.pass) else {
            return Err(NoMemory);
        };
        Ok(SeatOf { place, pass })
    }

    /// Ends another seat, whose number it answers. This seat has seen from then on what either has,
    /// and notes the other's events and those of the seats that were joined to it. It has the
    /// places of both on the line of jobs.
    pub fn join(&self, seat: &mut Seat<U>, other: Seat<U>) -> u64
        requires seat { IsSeatOf self.now seat.old }
        requires other { IsSeatOf self.now other }
        ensures number { result ≡ other.number }
        ensures seen { seat.new.seen ≡ longer seat.old.seen other.seen }
        ensures floor { seat.new.floor ≡ max seat.old.floor other.floor }
        ensures ended { seat.new.ended ≡ note_of seat.old other ∷ (seat.old.ended ++ other.ended) }
        ensures places { seat.new.places ≡ seat.old.places ++ other.places }
        ensures same { seat.new
            ≡ record seat.old {
              seen = seat.new.seen;
              floor = seat.new.floor;
              ended = seat.new.ended;
              places = seat.new.places;
            } }
    {
        let SeatOf { place, pass } = other;
        self.line.join(&mut seat.pass, pass);
        self.stile.join(&mut seat.place, place)
    }

    /// The newest version that is shown now, by one look: it is no less than what the seat knows
    /// of, and the seat knows it from then on. It waits for nobody.
    pub fn newest(&self, seat: &mut Seat<U>) -> Version
        requires seat { IsSeatOf self.now seat.old }
        ensures floor { seat.old.floor ≤ result }
        ensures seen { newest_in seat.old.seen ≤ result }
        ensures seat { seat.new ≡ record seat.old { floor = result } }
    {
        self.stile.newest(&mut seat.place)
    }

    /// Waits for a turn of this seat, and ends the engine and its shelf in it. If the turn of
    /// another seat was never left, it waits for ever. It takes no memory. Later looks of readers
    /// are refused. What the engine held goes with the answer.
    pub fn end<R: Wait>(self, rt: &R, seat: Seat<U>) -> Ended<U>
        requires seat { IsSeatOf self seat }
    {
        let Engine {
            stile,
            line: _line,
            universe,
        } = self;
        let SeatOf { place, pass: _pass } = seat;
        let (bench, shelf) = stile.end(rt, place).end(rt);
        Ended {
            bench,
            shelf,
            universe,
        }
    }

    /// Whether a seat has a turn or waits for one just now. It is a hint, by which a seat that can
    /// wait lets others go first: nothing is promised of it.
    pub fn is_taken(&self) -> bool {
        self.stile.is_taken()
    }
}
