//! The steps of a turn, on a seat of the table.
ghost use Rattle.std.specs.Prelude.{◌≡◌, ℕ, [], ◌∷◌, MatchOption};
ghost use Rattle.turnstile.specs.declared.view.Stage.TheVariants.{Away, Empties};
ghost use Rattle.turnstile.specs.Events.{Grows};
ghost use Rattle.turnstile.specs.Steps.{Ticket, waiting, IsSameSeat, Waiting, Taken, IsFree, IsTurn, Found, Agrees, Left};

use crate::plays::{Draw, Empty, Leave, Look, Raise};
use crate::table::{RawSeat, Turnstile};
use crate::tale::Tale;
use crossbeam_utils::Backoff;
use std::sync::Wait;
use std::time::Duration;

const NEXT: usize = 0;

const SERVING: usize = 1;

pub(crate) const VERSIONS: usize = 2;

const STATE: usize = 0;

/// How often a seat looks whether its ticket is served before it sleeps: for some tens of
/// microseconds, the time of many turns.
const SPINS: u32 = 16;

/// How long a seat in line sleeps at most between two looks, in milliseconds.
const NAP: u64 = 1;

impl<S: Tale> Turnstile<S> {
    // Takes a ticket, and answers its word.
    fn draw(&self, seat: &mut RawSeat<S>) -> u64
        requires own { seat.old.table_id ≡ self.now }
        requires away { seat.old.me.0.stage ≡ Away }
        ensures seat { IsSameSeat seat.old seat.new }
        ensures ticket { (t : ℕ) × Ticket t result
            × (seat.new.me ≡ (waiting seat.old.me.0 t, seat.old.me.1)) }
    {
        self.table.shared.fetch_add::<Draw>(seat, NEXT, 1)
    }

    // Takes the state, if the ticket is served.
    fn look(&self, seat: &mut RawSeat<S>, ticket: u64) -> Option<S>
        requires own { seat.old.table_id ≡ self.now }
        requires empty_handed { seat.old.me.1 ≡ [] }
        requires waits { Waiting ticket seat.old.me.0.stage }
        ensures seat { IsSameSeat seat.old seat.new }
        ensures taken { MatchOption result (seat.new.me ≡ seat.old.me)
            (Taken S.list S.by S.version S.mark seat.old.me seat.new.me) }
    {
        let served = self.table.shared.load::<Look>(seat, SERVING);
        if served != ticket {
            return None;
        }
        self.table.shared.exchange(seat, STATE, None)
    }

    // Waits until the ticket is served: it spins for a short while, and then sleeps from one end of
    // a turn to the next.
    fn wait_turn<R: Wait>(&self, rt: &R, seat: &mut RawSeat<S>, ticket: u64) -> S
        requires own { seat.old.table_id ≡ self.now }
        requires empty_handed { seat.old.me.1 ≡ [] }
        requires waits { Waiting ticket seat.old.me.0.stage }
        ensures seat { IsSameSeat seat.old seat.new }
        ensures taken { Taken S.list S.by S.version S.mark seat.old.me seat.new.me result }
    {
        let backoff = Backoff::new();
        let mut looks = 0u32;
        for _ in rt.forever() {
            if let Some(state) = self.look(seat, ticket) {
                return state;
            }
            if looks < SPINS {
                looks += 1;
                backoff.spin();
            } else {
                self.sleep(rt, ticket);
            }
        }
        unreachable!()
    }

    // Sleeps until a turn ends, if another ticket than this is served. Who ends a turn wakes those
    // who sleep here. A wake that is missed costs no more than a nap.
    fn sleep<R: Wait>(&self, rt: &R, ticket: u64) {
        let seen = self.table.shared.peek(SERVING);
        if seen == ticket {
            return;
        }
        let low = (seen % 4_294_967_296) as u32;
        let nap = Duration::from_millis(NAP);
        self.table.shared.park_timeout(rt, SERVING, low, nap);
    }

    // Wakes those who sleep in line, once the turn of this ticket has ended. If no ticket beyond
    // the next one was drawn, none is in line, and no call of the system is made.
    fn wake(&self, ticket: u64) {
        if self.table.shared.peek(NEXT) != ticket.wrapping_add(1) {
            self.table.shared.wake_all(SERVING);
        }
    }

    /// Whether a seat has a turn or waits for one just now. It is a hint for those who may come
    /// later as well: nothing is promised of it, and all may be otherwise when it returns.
    pub fn is_taken(&self) -> bool {
        self.table.shared.peek(NEXT) != self.table.shared.peek(SERVING)
    }

    /// How many turns have ended so far, modulo 2^64. It is a hint, as `is_taken` is.
    pub fn turns(&self) -> u64 {
        self.table.shared.peek(SERVING)
    }

    // Waits for a turn, and takes the state.
    pub(crate) fn take<R: Wait>(&self, rt: &R, seat: &mut RawSeat<S>) -> S
        requires own { seat.old.table_id ≡ self.now }
        requires free { IsFree seat.old.me }
        ensures seat { IsSameSeat seat.old seat.new }
        ensures taken { Taken S.list S.by S.version S.mark seat.old.me seat.new.me result }
    {
        let ticket = self.draw(seat);
        self.wait_turn(rt, seat, ticket)
    }

    // Puts the state back, ends the turn and shows the version.
    pub(crate) fn hand_back(&self, seat: &mut RawSeat<S>, state: S)
        requires own { seat.old.table_id ≡ self.now }
        requires turn { IsTurn seat.old.me }
        requires grows { Grows S.by seat.old.me.0.number seat.old.me.0.writers seat.old.me.0.seen
            (S.list state) }
        requires mark { S.mark state ≡ seat.old.me.0.mark }
        ensures seat { IsSameSeat seat.old seat.new }
        ensures left { Left S.by S.version seat.old.me seat.new.me (S.list state) (S.counts state) }
        ensures agrees { Agrees S.by seat.old.me.0 (S.list state) }
    {
        let version = state.list_version();
        let none = self.table.shared.exchange(seat, STATE, Some(state));
        let None = none else { unreachable!() };
        let ticket = self.table.shared.fetch_add::<Leave>(seat, SERVING, 1);
        self.wake(ticket);
        self.table
            .shared
            .fetch_max::<Raise>(seat, VERSIONS, version);
    }

    // Waits for a turn and takes the state for good: the slot goes back empty, and no later ticket
    // is served.
    pub(crate) fn take_out<R: Wait>(&self, rt: &R, seat: &mut RawSeat<S>) -> S
        requires own { seat.old.table_id ≡ self.now }
        requires free { IsFree seat.old.me }
        ensures seat { IsSameSeat seat.old seat.new }
        ensures found { Found S.by S.version seat.old.me.0 (S.list result) }
        ensures mark { S.mark result ≡ seat.old.me.0.mark }
        ensures empty { (t : ℕ) × (seat.new.me.0.stage ≡ Empties t) }
    {
        let state = self.take(rt, seat);
        self.table.shared.load::<Empty>(seat, SERVING);
        state
    }
}
