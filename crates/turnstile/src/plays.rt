//! What each kind of step tells its seat.
use crate::tale::Tale;
use crate::view::View;
use atomic_table::{Join, Play, Split};

pub(crate) struct Draw;

impl<S: Tale> Play<Option<S>, View<S::Event>> for Draw {
    ghost use Rattle.turnstile.specs.Steps.{drawn};

    ghost then = { drawn };
}

pub(crate) struct Look;

impl<S: Tale> Play<Option<S>, View<S::Event>> for Look {
    ghost use Rattle.turnstile.specs.Steps.{looked};

    ghost then = { looked S.list S.by S.version S.mark };
}

pub(crate) struct Leave;

impl<S: Tale> Play<Option<S>, View<S::Event>> for Leave {
    ghost use Rattle.turnstile.specs.Steps.{left};

    ghost then = { left S.list S.by S.counts };
}

pub(crate) struct Raise;

impl<S: Tale> Play<Option<S>, View<S::Event>> for Raise {
    ghost use Rattle.turnstile.specs.Steps.{raised};

    ghost then = { raised S.version };
}

pub(crate) struct Check;

impl<S: Tale> Play<Option<S>, View<S::Event>> for Check {
    ghost use Rattle.turnstile.specs.Steps.{checked};

    ghost then = { checked S.version };
}

pub(crate) struct Empty;

impl<S: Tale> Play<Option<S>, View<S::Event>> for Empty {
    ghost use Rattle.turnstile.specs.Steps.{emptied};

    ghost then = { emptied };
}

pub(crate) struct Pair;

impl<E> Split<View<E>> for Pair {
    ghost use Rattle.turnstile.specs.Rule.{parent_view, child_view};

    ghost left = { parent_view };

    ghost right = { child_view };
}

impl<E> Join<View<E>> for Pair {
    ghost use Rattle.turnstile.specs.Rule.{joined_view, spent_view};

    ghost both = { joined_view };

    ghost spent = { spent_view };
}
