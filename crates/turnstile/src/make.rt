//! How a turnstile is made, and how it ends.
ghost use Rattle.std.specs.Prelude.{◌≡◌, ℕ, ◌≤◌, [], ◌∷◌, Some, IfOk, IfErr};
ghost use Rattle.turnstile.specs.Events.{StartsWith, events_by, AllBelow};
ghost use Rattle.turnstile.specs.Seats.{first_seat, IsAway, EachNote, NotedIn};

use crate::no_memory::NoMemory;
use crate::seat::{Numbers, Seat};
use crate::table::{About, InTurns, RawSeat, Turnstile};
use crate::tale::Tale;
use crate::view::View;
use atomic_table::{Refused, Table};
use std::alloc::{AllocFailed, Global};
use std::snapshot::Snapshot;
use std::sync::Wait;

type Held<S> = Table<Option<S>, View<<S as Tale>::Event>, About<S>, InTurns, Global>;

const FIRST: Numbers = Numbers {
    own: 0,
    spare_start: 1,
    spare_end: 1 << 32,
};

// The state that lay in the one slot.
fn only<S>(mut slots: Vec<Option<S>>) -> S
    requires { (x : S) × (slots.items ≡ Some x ∷ []) }
    ensures { slots.items ≡ Some result ∷ [] }
{
    let last = slots.pop().unwrap();
    slots.destroy_empty();
    last.unwrap()
}

impl<S: Tale> Turnstile<S> {
    /// A turnstile round a state whose list is empty, and its first seat, which has the number 0
    /// and the spare numbers 1 to 2^32 - 1. Seats with a number below `writers` may make events
    /// that tell it. If there is no memory the state comes back as it was.
    pub fn new(
        alloc: Global,
        state: S,
        writers: u64,
    ) -> Result<(Turnstile<S>, Seat<S::Event>), (NoMemory, S)>
        requires { S.list state ≡ [] }
        ensures made { IfOk result (λ t. t.1 ≡ first_seat t.0 writers (S.mark state)) }
        ensures refused { IfErr result (λ e. e.1 ≡ state) }
    {
        let about = (writers, Snapshot::of(&state));
        let version = state.list_version();
        let mut slots = Vec::new(alloc);
        if let Err(failed) = slots.push(Some(state)) {
            let AllocFailed { value } = failed;
            slots.destroy_empty();
            return Err((NoMemory, value.unwrap()));
        }
        let made: Result<(Held<S>, RawSeat<S>), Refused<Option<S>, Global>> = Table::new(
            alloc,
            &[0, 0, version],
            slots,
            &about,
        );
        match made {
            Ok((table, raw)) => Ok((Turnstile { table }, Seat::settle(raw, FIRST, (0, 0, 0)))),
            Err(Refused { slots }) => Err((NoMemory, only(slots))),
        }
    }

    /// Waits for a turn of this seat, and hands the state out as `enter` would lend it. If the turn
    /// of another seat was never left, it waits for ever. It takes no memory.
    pub fn end<R: Wait>(self, rt: &R, seat: Seat<S::Event>) -> S
        requires own { seat.turnstile ≡ self }
        requires away { IsAway seat }
        ensures seen { StartsWith (S.list result) seat.seen }
        ensures below { AllBelow S.by seat.writers (S.list result) }
        ensures mark { S.mark result ≡ seat.mark }
        ensures mine { events_by S.by seat.number (S.list result) ≡ seat.mine }
        ensures noted { EachNote (NotedIn S.by (S.list result)) seat.ended }
        ensures floor { seat.floor ≤ S.version (S.list result) }
    {
        let mut seat = seat;
        let (mut raw, _numbers, _left) = seat.lift();
        let state = self.take_out(rt, &mut raw);
        let Turnstile { table } = self;
        let mut closed = table.close_with(raw);
        let none = closed.take(0);
        let None = none else { unreachable!() };
        closed.free();
        state
    }
}
