//! A seat in its turn.
ghost use Rattle.std.specs.Prelude.{◌≡◌, ℕ};
ghost use Rattle.turnstile.specs.Steps.{IsTurn, HasNumbers};

use crate::seat::Numbers;
use crate::view::View;
use atomic_table::Seat;

/// The seat of the table, which has taken the state, and its numbers.
pub(crate) struct Served<S, E> {
    pub(crate) raw: Seat<Option<S>, View<E>>,
    pub(crate) numbers: Numbers,
    ghost in_turn: { IsTurn raw.me },
    ghost numbered: { HasNumbers raw.me.0 numbers.own numbers.spare_start numbers.spare_end },
}
