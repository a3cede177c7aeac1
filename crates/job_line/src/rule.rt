//! The rule of the line, and what each kind of step tells the end that makes it.
use crate::view::View;
use crossbeam_queue::protocol::{Join, Lesson, Outcome, Protocol, Split};
use crossbeam_queue::{RuledSegQueue, SegPass};

/// The rule that holds between any two steps: `specs/Rule.antt`.
pub struct InLine;

impl<J> Protocol<J, View<J>> for InLine {
    ghost use Rattle.job_line.specs.Rule.{Lined, first_view};

    ghost holds = { Lined };

    ghost first = { first_view };
}

pub(crate) struct Push;

impl<J> Outcome<J, View<J>> for Push {
    ghost use Rattle.job_line.specs.Rule.{pushed};

    ghost then = { pushed };
}

// A pop, which finds a job or an empty line; or a look.
pub(crate) struct Pop;

impl<J> Outcome<J, View<J>> for Pop {
    ghost use Rattle.job_line.specs.Rule.{popped};

    ghost then = { popped };
}

impl<J> Lesson<J, View<J>> for Pop {
    ghost use Rattle.job_line.specs.Rule.{looked};

    ghost fact = { looked };
}

pub(crate) struct Pair;

impl<J> Split<View<J>> for Pair {
    ghost use Rattle.job_line.specs.Rule.{child_view};

    ghost left = { λ v. v };

    ghost right = { child_view };
}

impl<J> Join<View<J>> for Pair {
    ghost use Rattle.job_line.specs.Rule.{joined_view, no_view};

    ghost both = { joined_view };

    ghost spent = { no_view };
}

// A putter meets a pass that was split off for it.
pub(crate) struct Meet;

impl<J> Join<View<J>> for Meet {
    ghost use Rattle.job_line.specs.Rule.{met_view, no_view};

    ghost both = { met_view };

    ghost spent = { no_view };
}

impl<J> Lesson<J, View<J>> for Meet {
    ghost use Rattle.job_line.specs.Rule.{met_all};

    ghost fact = { met_all };
}

pub(crate) type RawLine<J> = RuledSegQueue<J, View<J>, InLine>;

pub(crate) type RawPass<J> = SegPass<J, View<J>>;
