//! The table of a turnstile: three words, and one slot for the state.
use crate::tale::Tale;
use crate::view::View;
use atomic_table::{Seat, Table, TableRule};
use std::alloc::Global;
use std::marker::Model;
use std::snapshot::Snapshot;

/// The rule that holds between any two steps: `specs/Rule.antt`.
pub struct InTurns;

impl<S: Tale> TableRule<Option<S>, View<S::Event>, About<S>> for InTurns {
    ghost use Rattle.turnstile.specs.Rule.{Turns, first_view};

    ghost holds = { λ key. Turns S.list S.by S.version S.mark key.0 (S.mark key.1.value) };

    ghost first = { λ key. first_view key.0 (S.mark key.1.value) };
}

// What the table is told once: how many writers there are, and the state that it begins with, as
// contracts see it.
pub(crate) type About<S> = (u64, Snapshot<S>);

/// Turns on a state `S`. It may be shared by threads, each with a seat of its own. Contracts see it
/// as the identity of its table.
#[derive(Drop)]
pub struct Turnstile<S: Tale> {
    pub(crate) table: Table<Option<S>, View<S::Event>, About<S>, InTurns, Global>,
}

impl<S: Tale> Model for Turnstile<S> {
    ghost use Rattle.std.specs.Prelude.{◌≡◌};
    ghost use Rattle.atomic_table.specs.Seated.{TableId, table_id_coded};

    ghost Value = { TableId };

    ghost coded = { table_id_coded };

    ghost view = { λ t. t.table.shared.table_id };

    ghost invariant = { λ t. (t.table.shared.table_id.words ≡ 3)
        × (t.table.shared.table_id.slots ≡ 1) };
}

// A seat of the table, as it steps.
pub(crate) type RawSeat<S> = Seat<Option<S>, View<<S as Tale>::Event>>;
