//! What a seat does at a turnstile.
ghost use Rattle.std.specs.Prelude.{◌≡◌, ℕ, ◌+◌, ◌<◌, ◌≤◌, true, [], ◌∷◌, ◌++◌, max, IsOk, IfOk};
ghost use Rattle.turnstile.specs.Events.{StartsWith, longer, events_by, AllBelow, Grows};
ghost use Rattle.turnstile.specs.Seats.{IsAway, spare, in_turn, IsAfterTurn, split_off, note_of, EachNote, NotedIn};
ghost use Rattle.turnstile.specs.InTurn.{seat_in};

use crate::no_memory::NoMemory;
use crate::plays::{Check, Pair};
use crate::seat::{Numbers, Seat};
use crate::served::Served;
use crate::table::Turnstile;
use crate::tale::Tale;
use crate::turn::Turn;
use crate::turns::VERSIONS;
use std::sync::Wait;

impl<S: Tale> Turnstile<S> {
    /// Waits for a turn of this seat. It need not return: the turns before it have to end.
    pub fn enter<'a, R: Wait>(&self, rt: &R, seat: &'a mut Seat<S::Event>) -> Turn<'a, S>
        requires own { seat.old.turnstile ≡ self.now }
        requires away { IsAway seat.old }
        ensures place { result.place.ghost_name ≡ seat.entry.ghost_name }
        ensures turn { seat_in result ≡ in_turn seat.old (S.list result.state) }
        ensures seen { StartsWith (S.list result.state) seat.old.seen }
        ensures below { AllBelow S.by seat.old.writers (S.list result.state) }
        ensures mine { events_by S.by seat.old.number (S.list result.state) ≡ seat.old.mine }
        ensures noted { EachNote (NotedIn S.by (S.list result.state)) seat.old.ended }
        ensures floor { seat.old.floor ≤ S.version (S.list result.state) }
        ensures mark { S.mark result.state ≡ seat.old.mark }
    {
        let (mut raw, numbers, _left) = seat.lift();
        let state = self.take(rt, &mut raw);
        Turn {
            place: seat,
            seat: Served { raw, numbers },
            state,
        }
    }

    /// Ends the turn. The state's list has to be the one that the turn found, and then events that
    /// tell no number, or that of this seat, which has to be a writer; and its
    /// mark the one that it had.
    pub fn leave(&self, turn: Turn<'_, S>)
        requires own { (seat_in turn).turnstile ≡ self.now }
        requires grows { Grows S.by (seat_in turn).number (seat_in turn).writers (seat_in turn).seen
            (S.list turn.state) }
        requires mark { S.mark turn.state ≡ (seat_in turn).mark }
        ensures seen { turn.exit.0.now.seen ≡ S.list turn.entry.state }
        ensures mine { turn.exit.0.now.mine
            ≡ events_by S.by turn.exit.0.now.number turn.exit.0.now.seen }
        ensures left { turn.exit.0.now.left ≡ S.counts turn.entry.state }
        ensures turns { turn.exit.0.now.turns ≡ (seat_in turn.entry).turns + 1 }
        ensures floor { ((seat_in turn.entry).floor ≤ turn.exit.0.now.floor)
            × (S.version turn.exit.0.now.seen ≤ turn.exit.0.now.floor) }
        ensures below { AllBelow S.by turn.exit.0.now.writers turn.exit.0.now.seen }
        ensures noted { EachNote (NotedIn S.by turn.exit.0.now.seen) turn.exit.0.now.ended }
        ensures same { IsAfterTurn (seat_in turn.entry) turn.exit.0.now }
    {
        let Turn { place, seat, state } = turn;
        let Served { mut raw, numbers } = seat;
        let left = state.tally();
        self.hand_back(&mut raw, state);
        *place = Seat::settle(raw, numbers, left);
    }

    /// The version that is shown now, by one look: it is no less than what the seat knows of, and
    /// the seat knows it from then on.
    pub fn newest(&self, seat: &mut Seat<S::Event>) -> u64
        requires own { seat.old.turnstile ≡ self.now }
        requires away { IsAway seat.old }
        ensures floor { seat.old.floor ≤ result }
        ensures seen { S.version seat.old.seen ≤ result }
        ensures seat { seat.new ≡ record seat.old { floor = result } }
    {
        let (mut raw, numbers, left) = seat.lift();
        let version = self.table.shared.load::<Check>(&mut raw, VERSIONS);
        *seat = Seat::settle(raw, numbers, left);
        version
    }

    /// A new seat with the least spare number, which has seen what this one has. It takes no
    /// memory, and is never refused.
    pub fn split(&self, seat: &mut Seat<S::Event>) -> Result<Seat<S::Event>, NoMemory>
        requires own { seat.old.turnstile ≡ self.now }
        requires away { IsAway seat.old }
        requires spare { 0 < spare seat.old }
        ensures done { IsOk result }
        ensures new { IfOk result (λ new. new ≡ split_off seat.old) }
        ensures seat { seat.new ≡ record seat.old { spare_start = seat.old.spare_start + 1 } }
    {
        let (mut raw, numbers, left) = seat.lift();
        let new = self.table.shared.split_seat::<Pair>(&mut raw);
        let kept = Numbers {
            spare_start: numbers.spare_start + 1,
            ..numbers
        };
        *seat = Seat::settle(raw, kept, left);
        let given = Numbers {
            own: numbers.spare_start,
            spare_start: 0,
            spare_end: 0,
        };
        Ok(Seat::settle(new, given, (0, 0, 0)))
    }

    /// Ends another seat, whose number it answers. This seat has seen from then on what either has,
    /// and notes the other's events and those of the seats that were joined to it.
    pub fn join(&self, seat: &mut Seat<S::Event>, other: Seat<S::Event>) -> u64
        requires own { seat.old.turnstile ≡ self.now }
        requires own_other { other.turnstile ≡ self.now }
        requires away { IsAway seat.old }
        requires away_other { IsAway other }
        ensures number { result ≡ other.number }
        ensures seen { seat.new.seen ≡ longer seat.old.seen other.seen }
        ensures floor { seat.new.floor ≡ max seat.old.floor other.floor }
        ensures ended { seat.new.ended ≡ note_of seat.old other ∷ (seat.old.ended ++ other.ended) }
        ensures same { seat.new
            ≡ record seat.old
            { seen = seat.new.seen; floor = seat.new.floor; ended = seat.new.ended } }
    {
        let mut other = other;
        let (mut raw, numbers, left) = seat.lift();
        let (ends, ended, _left) = other.lift();
        self.table.shared.join_seat::<Pair>(&mut raw, ends);
        *seat = Seat::settle(raw, numbers, left);
        ended.own
    }
}
