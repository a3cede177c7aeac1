//! A seat, as it is kept between turns.
ghost use Rattle.std.specs.Prelude.{◌≡◌, ℕ, true, false, [], ◌∷◌};
ghost use Rattle.turnstile.specs.Seats.{IsAway, spare, view_of};
ghost use Rattle.turnstile.specs.Steps.{IsFree, HasNumbers};

use crate::view::View;
use atomic_table::{Badge, Seat as RawSeat};
use std::marker::Model;
use std::mem;

/// The number of a seat, and its spare ones, from `spare_start` up to `spare_end`.
#[derive(Clone, Copy)]
pub(crate) struct Numbers {
    pub(crate) own: u64,
    pub(crate) spare_start: u64,
    pub(crate) spare_end: u64,
}

/// A place in the line of a turnstile whose events are `E`. It may travel to another thread, and
/// names no state. Contracts see it as a `SeatView`. While it has a turn, a blank seat stands in
/// its place, which is not away.
#[derive(Drop)]
pub struct Seat<E> {
    badge: Badge<View<E>>,
    numbers: Numbers,
    left: (u64, u64, u64),
}

impl<E> Model for Seat<E> {
    ghost use Rattle.std.specs.Prelude.{◌≡◌};
    ghost use Rattle.turnstile.specs.Seats.{SeatView, badge_view, IsSeat};

    ghost Value = { SeatView E };

    ghost view = { λ s. badge_view s.badge.table_id s.badge.views };

    ghost invariant = { λ s. IsSeat (badge_view s.badge.table_id s.badge.views) s.badge.views
        s.numbers.own s.numbers.spare_start s.numbers.spare_end s.left };
}

impl<E> Seat<E> {
    /// Its number. No two seats of a turnstile that have not ended have the same.
    pub fn number(&self) -> u64
        ensures { result ≡ self.now.number }
    {
        self.numbers.own
    }

    /// How many numbers it can give away, each to a seat that is split off.
    pub fn spare(&self) -> u64
        ensures { result ≡ spare self.now }
    {
        self.numbers.spare_end - self.numbers.spare_start
    }

    /// The tally of the state as this seat last gave it back, and zeros before its first turn.
    pub fn left(&self) -> (u64, u64, u64)
        ensures { result ≡ self.now.left }
    {
        self.left
    }

    // No seat, to stand in for one that has a turn.
    pub(crate) fn blank() -> Seat<E>
        ensures { result.away ≡ false }
    {
        Seat {
            badge: Badge::blank(),
            numbers: Numbers {
                own: 0,
                spare_start: 0,
                spare_end: 0,
            },
            left: (0, 0, 0),
        }
    }

    // The seat as it steps at the table, with its numbers and its tally. A blank one stands in its
    // place.
    pub(crate) fn lift<S>(&mut self) -> (RawSeat<Option<S>, View<E>>, Numbers, (u64, u64, u64))
        requires { IsAway self.old }
        ensures free { IsFree result.0.me }
        ensures view { view_of result.0.table_id result.0.me.0 ≡ self.old }
        ensures numbers { HasNumbers result.0.me.0 result.1.own result.1.spare_start
            result.1.spare_end }
        ensures left { result.0.me.0.left ≡ result.2 }
    {
        let Seat {
            badge,
            numbers,
            left,
        } = mem::replace(self, Seat::blank());
        (badge.into_seat(), numbers, left)
    }

    // The seat again.
    pub(crate) fn settle<S>(
        raw: RawSeat<Option<S>, View<E>>,
        numbers: Numbers,
        left: (u64, u64, u64),
    ) -> Seat<E>
        requires free { IsFree raw.me }
        requires numbers { HasNumbers raw.me.0 numbers.own numbers.spare_start numbers.spare_end }
        requires left { raw.me.0.left ≡ left }
        ensures { result ≡ view_of raw.table_id raw.me.0 }
    {
        Seat {
            badge: raw.into_badge(),
            numbers,
            left,
        }
    }
}
