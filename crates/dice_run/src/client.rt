//! What the driver has the engine do, on its seat, which is that of the one writer.
ghost use Rattle.std.specs.Prelude.{◌≡◌, ◌≢◌, ◌≤◌, [], ◌∷◌, IfOk, OnOk, length};
ghost use Rattle.std.specs.Arc.{arc_value};
ghost use Rattle.journal.specs.declared.event.Told.TheVariants.{Close, Leave};
ghost use Rattle.journal.specs.Events.{NotClosed};
ghost use Rattle.dice_engine.specs.Conditions.{HasOpen, HasAsk};
ghost use Rattle.dice_engine.specs.Lines.{AreLines};
ghost use Rattle.dice_key.specs.declared.universe.Kind.TheVariants.{Injected};
ghost use Rattle.action_digest.specs.Buck.{buck};
ghost use Rattle.dice_run.specs.Commits.{AreDistinctSources};
ghost use Rattle.script_trace.specs.Events.{IsDecidedIn};
ghost use Rattle.dice_run.specs.Looking.{AreLive, WereDecided};
ghost use Rattle.dice_run.specs.Seats.{IsOurs, log_in, Commits, Opens, Asks, Goes, IsCome};

use action_digest::{Buck, Key, Value};
use dice_engine::{
    CommitRefusal, Engine, Gate, Promise, Seat, Settled, Transaction, Updater, Worked,
    conditions_stay, one_writer_knows_all, own_asks_are_live, turns_go_on,
};
use dice_key::{Line, NoMemory, Path};
use std::alloc::Global;
use std::sync::{Arc, Wait};

/// The worker that the driver is.
const DRIVER: u32 = 0;

/// What a key has come to.
#[derive(Drop)]
pub(crate) enum Came {
    Value(Arc<Value>),
    /// It reaches this cycle, and so has no value.
    Cycle(Arc<Path<Key>>),
}

/// Commits those changes whose value is not the newest one, if there are any. It answers the newest
/// version then.
pub(crate) fn commit<R: Wait>(
    rt: &R,
    engine: &Engine<Buck>,
    seat: &mut Seat<Buck>,
    changes: &Updater<Buck>,
) -> Result<u64, NoMemory>
    requires ours { IsOurs engine.now seat.old }
    requires sources { AreDistinctSources changes.now }
    ensures ours { IsOurs engine.now seat.new }
    ensures commits { OnOk result (Commits engine.now seat.old seat.new changes.now) }
    ensures version { IfOk result (λ v. v ≡ length (log_in seat.new)) }
{
    one_writer_knows_all::<Buck>();
    match engine.commit(rt, seat, changes) {
        Ok(version) => Ok(version),
        Err(CommitRefusal::NoMemory) => Err(NoMemory),
        Err(CommitRefusal::NotInjected(_)) => unreachable!(),
        Err(CommitRefusal::Twice(_)) => unreachable!(),
    }
}

/// Opens a transaction at the newest version.
pub(crate) fn open<R: Wait>(
    rt: &R,
    engine: &Engine<Buck>,
    seat: &mut Seat<Buck>,
) -> Result<Transaction, NoMemory>
    requires { IsOurs engine.now seat.old }
    ensures ours { IsOurs engine.now seat.new }
    ensures opens { IfOk result (λ t. Opens engine.now seat.old seat.new t.opened t.version) }
{
    one_writer_knows_all::<Buck>();
    engine.open(rt, seat)
}

/// Asks for a key in a transaction.
pub(crate) fn ask<R: Wait>(
    rt: &R,
    engine: &Engine<Buck>,
    seat: &mut Seat<Buck>,
    transaction: &Transaction,
    key: Arc<Key>,
) -> Result<Promise<Buck>, NoMemory>
    requires ours { IsOurs engine.now seat.old }
    requires open { HasOpen seat.old transaction.now.opened transaction.now.version }
    ensures ours { IsOurs engine.now seat.new }
    ensures asks { IfOk result
        (λ p. Asks engine.now seat.old seat.new p.ask p.opened p.version (arc_value p.key)) }
    ensures named { IfOk result (λ p. (p.opened ≡ transaction.now.opened)
        × (p.version ≡ transaction.now.version) × (arc_value p.key ≡ arc_value key)) }
{
    engine.ask(rt, seat, transaction, key)
}

/// Waits until a key that was asked for has come to something.
pub(crate) fn wait<R: Wait, G: Gate>(
    rt: &R,
    engine: &Engine<Buck>,
    seat: &mut Seat<Buck>,
    promise: &Promise<Buck>,
    gate: &G,
) -> Result<Came, NoMemory>
    requires ours { IsOurs engine.now seat.old }
    requires asked { HasAsk seat.old promise.now.ask promise.now.opened promise.now.version
        (arc_value promise.now.key) }
    requires open { NotClosed promise.now.opened seat.old.mine }
    ensures goes { Goes engine.now seat.old seat.new [] }
    ensures came { IfOk result
        (IsCome (log_in seat.old) promise.now.version (arc_value promise.now.key)) }
    ensures decided { OnOk result (buck.kind (arc_value promise.now.key) ≢ Injected
        → IsDecidedIn seat.new.seen promise.now.version (arc_value promise.now.key)) }
{
    one_writer_knows_all::<Buck>();
    own_asks_are_live::<Buck>();
    conditions_stay::<Buck>();
    match engine.wait(rt, seat, promise, gate, DRIVER)? {
        Settled::Value(value) => Ok(Came::Value(value)),
        Settled::Cycle(path) => Ok(Came::Cycle(path)),
        Settled::Gone => unreachable!(),
    }
}

/// Does jobs while more than so many are out, on the line or in the hands of workers, and one can
/// be had.
pub(crate) fn help<R: Wait, G: Gate>(
    rt: &R,
    engine: &Engine<Buck>,
    seat: &mut Seat<Buck>,
    gate: &G,
    most: u64,
)
    requires { IsOurs engine.now seat.old }
    ensures { Goes engine.now seat.old seat.new [] }
{
    for _ in rt.forever() {
        if seat.left().1 <= most {
            return;
        }
        if let Worked::Idle = engine.work(rt, seat, gate, DRIVER) {
            return;
        }
    }
    unreachable!()
}

/// Waits for each of these promises.
pub(crate) fn wait_all<R: Wait, G: Gate>(
    rt: &R,
    engine: &Engine<Buck>,
    seat: &mut Seat<Buck>,
    promises: &[Promise<Buck>],
    gate: &G,
) -> Result<(), NoMemory>
    requires ours { IsOurs engine.now seat.old }
    requires live { AreLive seat.old promises.now }
    ensures goes { Goes engine.now seat.old seat.new [] }
    ensures decided { OnOk result (WereDecided seat.new.seen promises.now) }
{
    for promise in promises {
        wait(rt, engine, seat, promise, gate)?;
    }
    Ok(())
}

/// The lines of the journal, one for each event, in order.
pub(crate) fn log<R: Wait>(
    rt: &R,
    alloc: Global,
    engine: &Engine<Buck>,
    seat: &mut Seat<Buck>,
) -> Result<Vec<Line>, NoMemory>
    requires { IsOurs engine.now seat.old }
    ensures goes { Goes engine.now seat.old seat.new [] }
    ensures lines { IfOk result (λ ls. AreLines buck seat.new.seen ls.items) }
{
    engine.log(rt, alloc, seat)
}

/// Leaves an ask, whose transaction is open.
pub(crate) fn leave<R: Wait>(
    rt: &R,
    engine: &Engine<Buck>,
    seat: &mut Seat<Buck>,
    promise: Promise<Buck>,
)
    requires ours { IsOurs engine.now seat.old }
    requires asked { HasAsk seat.old promise.ask promise.opened promise.version
        (arc_value promise.key) }
    requires open { NotClosed promise.opened seat.old.mine }
    ensures { Goes engine.now seat.old seat.new (Leave 0 promise.ask ∷ []) }
{
    own_asks_are_live::<Buck>();
    conditions_stay::<Buck>();
    engine.leave(rt, seat, promise);
}

/// Closes a transaction.
pub(crate) fn close<R: Wait>(
    rt: &R,
    engine: &Engine<Buck>,
    seat: &mut Seat<Buck>,
    transaction: Transaction,
)
    requires ours { IsOurs engine.now seat.old }
    requires open { HasOpen seat.old transaction.opened transaction.version }
    ensures { Goes engine.now seat.old seat.new (Close 0 transaction.opened ∷ []) }
{
    engine.close(rt, seat, transaction);
}
