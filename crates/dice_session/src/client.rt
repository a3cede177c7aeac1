//! What a session has its engine do, on the seat of the one writer.
ghost use Rattle.std.specs.Prelude.{◌≡◌, ℕ, map, if◌then◌else◌, Some, None, IfOk, IfErr, IfSome, OnOk, OnErr};
ghost use Rattle.std.specs.Arc.{arc_value};
ghost use Rattle.std.specs.List.{AllZip};
ghost use Rattle.std.specs.Map.{keys_of};
ghost use Rattle.turnstile.specs.Events.{StartsWith};
ghost use Rattle.dice_core.specs.Commits.{AreSettable, IsFirstFault};
ghost use Rattle.dice_engine.specs.Turns.{log_of, newest_in};
ghost use Rattle.dice_engine.specs.Conditions.{HasOpen};
ghost use Rattle.dice_session.specs.Sole.{IsSole, IsReady, IsOpen, IsAsked, AreAsked, Goes, Asks};
ghost use Rattle.dice_session.specs.Session.{committed, fault_in, IsFound};

use crate::refusal::{CommitError, owned};
use crate::session::Found;
use dice_engine::{Engine, Open, Promise, Seat, Settled, Transaction, Updater};
use dice_key::{KeyRef, NoMemory, Universe, Version};
use std::alloc::Global;
use std::sync::{Arc, Wait};

/// The worker that the session is.
const SESSION: u32 = 0;

/// Commits those changes whose value is not the key's newest one, if there are any. The transaction
/// that is kept is closed if the version is a new one.
pub(crate) fn commit<U: Universe, R: Wait>(
    rt: &R,
    engine: &Engine<U>,
    seat: &mut Seat<U>,
    kept: &mut Option<Transaction>,
    changes: &Updater<U>,
) -> Result<Version, CommitError<U>>
    requires { IsReady engine.now seat.old kept.old }
    ensures ready { IsReady engine.now seat.new kept.new }
    ensures begins { StartsWith seat.new.seen seat.old.seen }
    ensures ok { OnOk result (log_of seat.new.seen
        ≡ committed U.Key.eq U.Value.eq U.meaning (log_of seat.old.seen) changes.now) }
    ensures version { IfOk result (λ v. v ≡ newest_in seat.new.seen) }
    ensures settable { OnOk result (AreSettable U.meaning (keys_of changes.now)) }
    ensures fault { IfErr result
        (λ e. IfSome (fault_in e) (IsFirstFault U.meaning (keys_of changes.now))) }
    ensures err { OnErr result (log_of seat.new.seen ≡ log_of seat.old.seen) }
{
    match apply(rt, engine, seat, changes) {
        Ok(version) => {
            *kept = close_older(rt, engine, seat, kept.take(), version);
            Ok(version)
        }
        Err(refusal) => Err(refusal),
    }
}

/// Applies the changes whose value is not the key's newest one, as one commit, if there are any.
fn apply<U: Universe, R: Wait>(
    rt: &R,
    engine: &Engine<U>,
    seat: &mut Seat<U>,
    changes: &Updater<U>,
) -> Result<Version, CommitError<U>>
    requires { IsSole engine.now seat.old }
    ensures sole { IsSole engine.now seat.new }
    ensures open { (t v : ℕ) → HasOpen seat.old t v → HasOpen seat.new t v }
    ensures begins { StartsWith seat.new.seen seat.old.seen }
    ensures ok { OnOk result (log_of seat.new.seen
        ≡ committed U.Key.eq U.Value.eq U.meaning (log_of seat.old.seen) changes.now) }
    ensures version { IfOk result (λ v. v ≡ newest_in seat.new.seen) }
    ensures settable { OnOk result (AreSettable U.meaning (keys_of changes.now)) }
    ensures fault { IfErr result
        (λ e. IfSome (fault_in e) (IsFirstFault U.meaning (keys_of changes.now))) }
    ensures err { OnErr result (log_of seat.new.seen ≡ log_of seat.old.seen) }
{
    owned(engine.commit(rt, seat, changes))
}

/// Opens a transaction at the newest version.
fn open<U: Universe, R: Wait>(
    rt: &R,
    engine: &Engine<U>,
    seat: &mut Seat<U>,
) -> Result<Transaction, NoMemory>
    requires { IsSole engine.now seat.old }
    ensures goes { Goes engine.now seat.old seat.new }
    ensures open { IfOk result (λ t. IsOpen seat.new t.opened t.version) }
{
    engine.open(rt, seat)
}

/// Asks for a key in a transaction.
fn ask<U: Universe, R: Wait>(
    rt: &R,
    engine: &Engine<U>,
    seat: &mut Seat<U>,
    transaction: &Transaction,
    key: KeyRef<U>,
) -> Result<Promise<U>, NoMemory>
    requires sole { IsSole engine.now seat.old }
    requires open { IsOpen seat.old transaction.now.opened transaction.now.version }
    ensures asks { Asks engine.now seat.old seat.new transaction.now.opened
        transaction.now.version }
    ensures asked { IfOk result
        (IsAsked seat.new transaction.now.opened transaction.now.version (arc_value key)) }
{
    engine.ask(rt, seat, transaction, key)
}

/// Waits until a key that was asked for has come to something.
fn wait<U: Universe, R: Wait>(
    rt: &R,
    engine: &Engine<U>,
    seat: &mut Seat<U>,
    transaction: &Transaction,
    promise: &Promise<U>,
) -> Result<Found<U>, NoMemory>
    requires sole { IsSole engine.now seat.old }
    requires open { IsOpen seat.old transaction.now.opened transaction.now.version }
    requires asked { IsAsked seat.old transaction.now.opened transaction.now.version
        (arc_value promise.now.key) promise.now }
    ensures asks { Asks engine.now seat.old seat.new transaction.now.opened
        transaction.now.version }
    ensures found { IfOk result
        (IsFound U.Key.eq U.meaning (log_of seat.old.seen) (arc_value promise.now.key)) }
{
    match engine.wait(rt, seat, promise, &Open, SESSION)? {
        Settled::Value(value) => Ok(Found::Value(value)),
        Settled::Cycle(path) => Ok(Found::Cycle(path)),
        Settled::Gone => unreachable!(),
    }
}

/// Leaves a key that was asked for.
fn leave<U: Universe, R: Wait>(
    rt: &R,
    engine: &Engine<U>,
    seat: &mut Seat<U>,
    transaction: &Transaction,
    promise: Promise<U>,
)
    requires sole { IsSole engine.now seat.old }
    requires open { IsOpen seat.old transaction.now.opened transaction.now.version }
    requires asked { IsAsked seat.old transaction.now.opened transaction.now.version
        (arc_value promise.key) promise }
    ensures goes { Goes engine.now seat.old seat.new }
    ensures still { IsOpen seat.new transaction.now.opened transaction.now.version }
{
    engine.leave(rt, seat, promise);
}

/// Closes a transaction.
fn close<U: Universe, R: Wait>(
    rt: &R,
    engine: &Engine<U>,
    seat: &mut Seat<U>,
    transaction: Transaction,
)
    requires sole { IsSole engine.now seat.old }
    requires open { HasOpen seat.old transaction.opened transaction.version }
    ensures { Goes engine.now seat.old seat.new }
{
    engine.close(rt, seat, transaction);
}

/// The transaction that is kept, or a new one if none is.
fn reopen<U: Universe, R: Wait>(
    rt: &R,
    engine: &Engine<U>,
    seat: &mut Seat<U>,
    kept: Option<Transaction>,
) -> Result<Transaction, NoMemory>
    requires { IsReady engine.now seat.old kept }
    ensures goes { Goes engine.now seat.old seat.new }
    ensures open { IfOk result (λ t. IsOpen seat.new t.opened t.version) }
{
    match kept {
        Some(transaction) => Ok(transaction),
        None => open(rt, engine, seat),
    }
}

/// Keeps a transaction for the next call if its key was answered. If memory was refused it is
/// closed, since what was given up for that reason stays so while it is open.
fn keep_answered<U: Universe, R: Wait>(
    rt: &R,
    engine: &Engine<U>,
    seat: &mut Seat<U>,
    transaction: Transaction,
    answered: bool,
) -> Option<Transaction>
    requires sole { IsSole engine.now seat.old }
    requires open { IsOpen seat.old transaction.opened transaction.version }
    ensures goes { Goes engine.now seat.old seat.new }
    ensures ready { IsReady engine.now seat.new result }
    ensures kept { result ≡ (if answered then Some transaction else None) }
{
    if answered {
        return Some(transaction);
    }
    close(rt, engine, seat, transaction);
    None
}

/// Keeps the transaction if it is at this version, the newest one, and otherwise closes it.
fn close_older<U: Universe, R: Wait>(
    rt: &R,
    engine: &Engine<U>,
    seat: &mut Seat<U>,
    kept: Option<Transaction>,
    newest: Version,
) -> Option<Transaction>
    requires sole { IsSole engine.now seat.old }
    requires has { IfSome kept (λ t. HasOpen seat.old t.opened t.version) }
    requires newest { newest ≡ newest_in seat.old.seen }
    ensures goes { Goes engine.now seat.old seat.new }
    ensures ready { IsReady engine.now seat.new result }
{
    match kept {
        Some(transaction) if transaction.version == newest => Some(transaction),
        Some(transaction) => {
            close(rt, engine, seat, transaction);
            None
        }
        None => None,
    }
}

/// What a key comes to, in the transaction that is kept.
pub(crate) fn compute<U: Universe, R: Wait>(
    rt: &R,
    engine: &Engine<U>,
    seat: &mut Seat<U>,
    kept: &mut Option<Transaction>,
    key: KeyRef<U>,
) -> Result<Found<U>, NoMemory>
    requires { IsReady engine.now seat.old kept.old }
    ensures ready { IsReady engine.now seat.new kept.new }
    ensures goes { Goes engine.now seat.old seat.new }
    ensures found { IfOk result
        (IsFound U.Key.eq U.meaning (log_of seat.old.seen) (arc_value key)) }
    ensures lost { IfErr result (λ _. kept.new ≡ None) }
{
    let transaction = reopen(rt, engine, seat, kept.take())?;
    let found = compute_in(rt, engine, seat, &transaction, key);
    *kept = keep_answered(rt, engine, seat, transaction, found.is_ok());
    found
}

/// What a key comes to, in a transaction. It is left after its answer.
fn compute_in<U: Universe, R: Wait>(
    rt: &R,
    engine: &Engine<U>,
    seat: &mut Seat<U>,
    transaction: &Transaction,
    key: KeyRef<U>,
) -> Result<Found<U>, NoMemory>
    requires sole { IsSole engine.now seat.old }
    requires open { IsOpen seat.old transaction.now.opened transaction.now.version }
    ensures goes { Goes engine.now seat.old seat.new }
    ensures still { IsOpen seat.new transaction.now.opened transaction.now.version }
    ensures found { IfOk result
        (IsFound U.Key.eq U.meaning (log_of seat.old.seen) (arc_value key)) }
{
    let promise = ask(rt, engine, seat, transaction, key)?;
    let found = wait(rt, engine, seat, transaction, &promise)?;
    leave(rt, engine, seat, transaction, promise);
    Ok(found)
}

/// What these keys come to, in one transaction, in which all are asked before the first is waited
/// for. It is closed after that, which leaves all of them in one turn.
pub(crate) fn compute_all<U: Universe, R: Wait>(
    rt: &R,
    alloc: Global,
    engine: &Engine<U>,
    seat: &mut Seat<U>,
    kept: &mut Option<Transaction>,
    keys: Vec<U::Key>,
) -> Result<Vec<Found<U>>, NoMemory>
    requires { IsReady engine.now seat.old kept.old }
    ensures ready { IsReady engine.now seat.new kept.new }
    ensures goes { Goes engine.now seat.old seat.new }
    ensures found { IfOk result
        (λ v. AllZip (IsFound U.Key.eq U.meaning (log_of seat.old.seen)) keys.items v.items) }
{
    let keys = shared_all(alloc, keys)?;
    let transaction = reopen(rt, engine, seat, kept.take())?;
    let found = compute_all_in(rt, alloc, engine, seat, &transaction, keys.as_slice());
    close(rt, engine, seat, transaction);
    found
}

/// What these keys come to, in a transaction.
fn compute_all_in<U: Universe, R: Wait>(
    rt: &R,
    alloc: Global,
    engine: &Engine<U>,
    seat: &mut Seat<U>,
    transaction: &Transaction,
    keys: &[KeyRef<U>],
) -> Result<Vec<Found<U>>, NoMemory>
    requires sole { IsSole engine.now seat.old }
    requires open { IsOpen seat.old transaction.now.opened transaction.now.version }
    ensures asks { Asks engine.now seat.old seat.new transaction.now.opened
        transaction.now.version }
    ensures found { IfOk result (λ v. AllZip
        (λ k f. IsFound U.Key.eq U.meaning (log_of seat.old.seen) (arc_value k) f) keys.now
        v.items) }
{
    let promises = ask_all(rt, alloc, engine, seat, transaction, keys)?;
    wait_all(rt, alloc, engine, seat, transaction, promises.as_slice())
}

/// Asks for these keys in a transaction.
fn ask_all<U: Universe, R: Wait>(
    rt: &R,
    alloc: Global,
    engine: &Engine<U>,
    seat: &mut Seat<U>,
    transaction: &Transaction,
    keys: &[KeyRef<U>],
) -> Result<Vec<Promise<U>>, NoMemory>
    requires sole { IsSole engine.now seat.old }
    requires open { IsOpen seat.old transaction.now.opened transaction.now.version }
    ensures asks { Asks engine.now seat.old seat.new transaction.now.opened
        transaction.now.version }
    ensures asked { IfOk result (λ v. AllZip
        (λ k p. IsAsked seat.new transaction.now.opened transaction.now.version (arc_value k) p)
        keys.now v.items) }
{
    let mut promises = Vec::new(alloc);
    for key in keys {
        let key = Arc::try_clone(key)?;
        promises.push(ask(rt, engine, seat, transaction, key)?)?;
    }
    Ok(promises)
}

/// Waits until all these keys, which were asked for, have come to something.
fn wait_all<U: Universe, R: Wait>(
    rt: &R,
    alloc: Global,
    engine: &Engine<U>,
    seat: &mut Seat<U>,
    transaction: &Transaction,
    promises: &[Promise<U>],
) -> Result<Vec<Found<U>>, NoMemory>
    requires sole { IsSole engine.now seat.old }
    requires open { IsOpen seat.old transaction.now.opened transaction.now.version }
    requires asked { AreAsked seat.old transaction.now.opened transaction.now.version promises.now }
    ensures asks { Asks engine.now seat.old seat.new transaction.now.opened
        transaction.now.version }
    ensures found { IfOk result (λ v. AllZip
        (λ p f. IsFound U.Key.eq U.meaning (log_of seat.old.seen) (arc_value p.key) f) promises.now
        v.items) }
{
    let mut found = Vec::new(alloc);
    for promise in promises {
        found.push(wait(rt, engine, seat, transaction, promise)?)?;
    }
    Ok(found)
}

/// These keys, shared.
fn shared_all<K: Drop>(alloc: Global, keys: Vec<K>) -> Result<Vec<Arc<K>>, NoMemory>
    ensures { IfOk result (λ v. map arc_value v.items ≡ keys.items) }
{
    let mut shared = Vec::with_capacity(alloc, keys.len())?;
    for key in keys {
        shared.push(Arc::new(alloc, key)?)?;
    }
    Ok(shared)
}
