//! The calls of an engine that serve readers.
ghost use Rattle.std.specs.Prelude.{◌≡◌, ◌↔◌, ◌<◌, true, false, length, All, Err, IfOk, MatchOption};
ghost use Rattle.std.specs.Arc.{arc_value};
ghost use Rattle.std.specs.Option.{option_map};
ghost use Rattle.dice_engine.specs.Seats.{first_seat, IsSeatOf};
ghost use Rattle.shelf.specs.Ops.{row_at};
ghost use Rattle.shelf.specs.Ends.{IsNewReader, after_refusal, door_to, Looked};
ghost use Rattle.shelf.specs.declared.reader.LookRefusal.TheVariants as refusal;
ghost use Rattle.dice_engine.specs.Turns.{Turn};
ghost use Rattle.dice_engine.specs.Calls.{AddsNothing};
ghost use Rattle.dice_engine.specs.Rows.{ShelfHas};

use crate::engine::Engine;
use crate::ledge::Ledge;
use crate::promise::Transaction;
use crate::seat::{Seat, SeatOf};
use crate::state::State;
use dice_core::Core;
use dice_key::{NoMemory, Universe, ValueRef};
use shelf::{LookRefusal, Reader, Told as News};
use std::alloc::Global;
use std::sync::{Arc, Wait};
use turnstile::Turnstile;

impl<U: Universe> Engine<U> {
    /// An engine as by `new`, and so many readers of its values. What its turns commit and finish
    /// stands on a shelf when they end, where readers look at it without a turn. `end` takes the
    /// shelf down; who only drops the engine leaves the shelf to its readers, and its memory is not
    /// freed.
    pub fn with_readers<R: Wait>(
        rt: &R,
        alloc: Global,
        universe: Arc<U>,
        writers: u64,
        readers: u32,
    ) -> Result<(Engine<U>, Seat<U>, Vec<Reader<U>>), NoMemory>
        requires { 0 < readers }
        ensures seat { IfOk result (λ t. t.1 ≡ first_seat t.0 writers) }
        ensures readers { IfOk result
            (λ t. (length t.2.items ≡ readers) × All IsNewReader t.2.items) }
    {
        let core = Core::new(alloc, Arc::try_clone(&universe)?)?;
        let (state, line, pass) = State::new(alloc, core)?;
        let (shelf, ends) = Ledge::boxed(rt, alloc, universe.seed(), readers)?;
        match Turnstile::new(alloc, state.with_shelf(shelf), writers) {
            Ok((stile, place)) => {
                let engine = Engine {
                    stile,
                    line,
                    universe,
                };
                Ok((engine, SeatOf { place, pass }, ends))
            }
            Err((_, state)) => {
                state.end(rt);
                Err(NoMemory)
            }
        }
    }

    /// Tells a reader what is on the shelf at this turn; its looks then see that and maybe more. It
    /// takes no memory, and is true exactly if the shelf has all rows of the journal: there was
    /// memory for them, and the engine has readers. If it has none, the reader stays as it is.
    ///
    /// If no place was free for what is told, the reader is shut. There are places enough for each
    /// reader to be told in one call at a time.
    pub fn tell<R: Wait>(&self, rt: &R, seat: &mut Seat<U>, reader: &mut Reader<U>) -> bool
        requires seat { IsSeatOf self.now seat.old }
        ensures turn { Turn U.Key.eq U.meaning seat.old seat.new (λ found. AddsNothing) }
        ensures exact { (result ≡ true) ↔ (seat.new.left.2 ≡ 0) }
        ensures told { result ≡ true → reader.new.shut ≡ false
            → ShelfHas seat.new.seen reader.new.seen }
        ensures refused { reader.new.refused ≡ reader.old.refused }
        ensures seat { IsSeatOf self.now seat.new }
        ensures same { (seat.new.number ≡ seat.old.number) × (seat.new.writers ≡ seat.old.writers) }
    {
        let mut turn = self.stile.enter(rt, &mut seat.place);
        let state = turn.state();
        let told = state.tell();
        state.line_up(rt);
        self.stile.leave(turn);
        learned(reader, told);
        seat.left().2 == 0
    }

    /// The value of a key at the version of a transaction, by one look at the shelf, without a
    /// turn: `None` exactly if no row of it is in what the reader sees, which begins with what it
    /// saw or was told of last. `Shut` only if the reader's count of refusals rose.
    pub fn quick(
        &self,
        reader: &mut Reader<U>,
        transaction: &Transaction,
        key: &U::Key,
    ) -> Result<Option<ValueRef<U>>, LookRefusal>
        ensures found { IfOk result (λ x. Looked U.Key.eq U.meaning reader.old reader.new
            × (option_map (λ y. arc_value y) x
            ≡ row_at (U.Key.eq key.now) transaction.now.version reader.new.seen)) }
        ensures no_memory { result ≡ Err refusal.NoMemory
            → Looked U.Key.eq U.meaning reader.old reader.new }
        ensures shut { result ≡ Err refusal.Shut → reader.new ≡ after_refusal reader.old }
        ensures no_place { reader.old.shut ≡ true → result ≡ Err refusal.Shut }
    {
        reader.look(transaction.version, key)
    }
}

/// A reader learns what it is told, if it is told anything.
fn learned<U: Universe>(reader: &mut Reader<U>, told: Option<News<U>>)
    ensures { MatchOption told (reader.new ≡ reader.old)
        (λ t. reader.new ≡ door_to t reader.old.refused) }
{
    if let Some(told) = told {
        reader.learn(told);
    }
}
