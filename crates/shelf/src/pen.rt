//! The end that writes, whatever is written.
use crossbeam_utils::rule::Protocol;
use left_right::{Absorb, writer};
use std::marker::Model;

/// What the writing end keeps of its list: when a list is sound, a list to begin with, and the list
/// that an end has seen.
pub trait Keeping<S, W> {
    ghost sound: { S → Type 0 };

    ghost nothing: { S };

    ghost seen: { W → S };
}

/// The writing end of a shelf. It is generic so that its rule is a bound of its own. Contracts see
/// it as a `PenView`: all that was appended, and what of it is published. It is not `Drop`: end it
/// by `end`.
pub struct Pen<T: Absorb<O> + Drop, O: Drop, W, P: Protocol<T, W> + Keeping<T::State, W>> {
    pub(crate) raw: Option<writer::Writer<T, O, W, P>>,
}

impl<T: Absorb<O> + Drop, O: Drop, W, P: Protocol<T, W> + Keeping<T::State, W>> Model
    for Pen<T, O, W, P> {
    ghost use Rattle.std.specs.Prelude.{◌≡◌, drop, fold, unwrap_or, IfSome, IsSome};
    ghost use Rattle.std.specs.Option.{option_map};
    ghost use Rattle.shelf.specs.Ends.{PenView, no_pen};

    ghost Value = { PenView T.State };

    ghost view = { λ p. unwrap_or (option_map (λ w. record {
      list = fold T.applied (T.state w.desk.shown.value) (drop w.behind w.log.items);
      published = T.state w.desk.shown.value;
    }) p.raw) (no_pen P.nothing) };

    ghost invariant = { λ p. IsSome p.raw × IfSome p.raw (λ w.
        P.sound (fold T.applied (T.state w.desk.shown.value) (drop w.behind w.log.items)) × (P.seen w.desk.place.me.0.client ≡ T.state w.desk.shown.value)) };
}
