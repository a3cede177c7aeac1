//! The driver of a script: what its lines have the engine do.
ghost use Rattle.std.specs.Prelude.{◌≡◌, ◌++◌, ◌∷◌, [], ℕ, List, Some, None, IfOk, OnOk, length, nat_eq, if◌then◌else◌};
ghost use Rattle.std.specs.HashMap.{get};
ghost use Rattle.std.specs.Cmp.Lexicographic.{pointwise};
ghost use Rattle.std.specs.Arc.{arc_value};
ghost use Rattle.action_digest.specs.declared.key.Key.TheVariants as key;
ghost use Rattle.action_digest.specs.declared.value.Value.TheVariants as value;
ghost use Rattle.script.specs.Past.{Past};
ghost use Rattle.script.specs.Order.{Fits};
ghost use Rattle.script.specs.Plan.{Ends, Plan};
ghost use Rattle.dice_run.specs.Commits.{AreDistinctSources};
ghost use Rattle.dice_run.specs.Looking.{Sees, IsLive, AreLive};
ghost use Rattle.dice_run.specs.Seats.{IsOurs, IsCome, log_in, Commits};
ghost use Rattle.dice_run.specs.Recording.{RecordsStep};
ghost use Rattle.dice_run.specs.Driving.{Matches, Steps, IsReady, KeepsNames, DidOpen, DidAsk, DidWait, Comes, Confirms, DidCancel, DidClose, HasTransaction, MayWait, MayCancel, MayClose};

use crate::client::{self, Came};
use crate::named::{note, take};
use crate::outlook::Outlook;
use crate::request::came_lines;
use action_digest::{Buck, Contents, Key, Value};
use buck_label::{Path, Text};
use dice_engine::{Engine, Gate, Promise, Seat, Transaction, Updater};
use dice_key::{NoMemory, Seed};
use script::{Line, Name, Request};
use std::alloc::Global;
use std::collections::HashMap;
use std::mem;
use std::sync::{Arc, Wait};

/// What has been done of a script: the seat at the engine, and what is seen without a turn; what
/// was gathered since the last commit; the newest version after each commit; the transactions that
/// are open; the requests that are still to be answered; the answers; and how many jobs may be out
/// that it leaves to others.
#[derive(Drop)]
pub(crate) struct Driver {
    pub(crate) alloc: Global,
    pub(crate) seat: Seat<Buck>,
    pub(crate) outlook: Outlook,
    pub(crate) gathered: Updater<Buck>,
    pub(crate) newest: Vec<u64>,
    pub(crate) transactions: HashMap<Text, Transaction, Seed>,
    pub(crate) promises: HashMap<Text, Promise<Buck>, Seed>,
    pub(crate) answers: HashMap<Text, Vec<u8>, Seed>,
    pub(crate) patience: u64,
}

impl Driver {
    /// Carries out a line of the script.
    pub(crate) fn line<R: Wait, G: Gate>(
        &mut self,
        rt: &R,
        engine: &Engine<Buck>,
        gate: &G,
        line: &Line,
    ) -> Result<(), NoMemory>
        requires { IsReady engine.now self.old line.now }
        ensures ours { IsOurs engine.now self.new.seat }
        ensures stands { OnOk result ((ends : Ends) (p : Plan) (past : Past)
            → Matches engine.now self.old p past → Fits past line.now
            → Steps engine.now ends p past line.now self.old self.new) }
        ensures records { OnOk result ((p : Plan) (past : Past) → Matches engine.now self.old p past
            → Fits past line.now → RecordsStep p past line.now self.old self.new) }
    {
        match line {
            Line::Put(path, bytes) => {
                let contents = Contents::new(self.alloc, bytes.try_clone()?);
                self.gather(path, Some(contents))?
            }
            Line::Drop(path) => self.gather(path, None)?,
            Line::Commit => self.commit(rt, engine)?,
            Line::Open(name) => self.open(rt, engine, name)?,
            Line::Ask(request) => {
                let key = Arc::new(self.alloc, Key::Digest(request.label.try_clone()?))?;
                self.ask(rt, engine, gate, request, key)?
            }
            Line::Action(request) => {
                let key = Arc::new(self.alloc, Key::Action(request.label.try_clone()?))?;
                self.ask(rt, engine, gate, request, key)?
            }
            Line::Wait(name) => self.wait(rt, engine, gate, name)?,
            Line::Cancel(name) => self.cancel(rt, engine, name),
            Line::Close(name) => {
                self.confirm(rt, engine, gate)?;
                self.close(rt, engine, name);
            }
        }
        Ok(())
    }

    /// Notes the file of a path from the next commit on, or that it has none.
    fn gather(&mut self, path: &Path, file: Option<Contents>) -> Result<(), NoMemory>
        ensures seat { self.new.seat ≡ self.old.seat }
        ensures gathered { OnOk result (self.new.gathered
            ≡ self.old.gathered ++ (key.Source path.now, value.Source file) ∷ []) }
        ensures names { OnOk result (KeepsNames self.old self.new) }
        ensures newest { OnOk result (self.new.newest ≡ self.old.newest) }
    {
        let key = Arc::new(self.alloc, Key::Source(path.try_clone()?))?;
        let value = Arc::new(self.alloc, Value::Source(file))?;
        self.gathered.changed_to(key, value)
    }

    /// Commits what was gathered.
    fn commit<R: Wait>(&mut self, rt: &R, engine: &Engine<Buck>) -> Result<(), NoMemory>
        requires ours { IsOurs engine.now self.old.seat }
        requires sources { AreDistinctSources self.old.gathered }
        ensures ours { IsOurs engine.now self.new.seat }
        ensures seat { OnOk result
            (Commits engine.now self.old.seat self.new.seat self.old.gathered) }
        ensures gathered { OnOk result (self.new.gathered ≡ []) }
        ensures names { OnOk result (KeepsNames self.old self.new) }
        ensures newest { OnOk result
            (self.new.newest.items ≡ self.old.newest.items ++ length (log_in self.new.seat) ∷ []) }
    {
        let gathered = mem::replace(&mut self.gathered, Updater::new(self.alloc));
        let version = client::commit(rt, engine, &mut self.seat, &gathered)?;
        self.newest.push(version)?;
        Ok(())
    }

    /// Opens a transaction, and has the reader told what is finished.
    fn open<R: Wait>(&mut self, rt: &R, engine: &Engine<Buck>, name: &Name) -> Result<(), NoMemory>
        requires { IsOurs engine.now self.old.seat }
        ensures ours { IsOurs engine.now self.new.seat }
        ensures did { OnOk result (DidOpen engine.now name.now self.old self.new) }
    {
        let transaction = client::open(rt, engine, &mut self.seat)?;
        self.outlook
            .tell(rt, engine, &mut self.seat, transaction.version);
        note(&mut self.transactions, name, transaction)
    }

    /// Asks for a key. Before that it does jobs, while more of earlier requests are out than it has
    /// patience for.
    fn ask<R: Wait, G: Gate>(
        &mut self,
        rt: &R,
        engine: &Engine<Buck>,
        gate: &G,
        request: &Request,
        key: Arc<Key>,
    ) -> Result<(), NoMemory>
        requires ours { IsOurs engine.now self.old.seat }
        requires open { HasTransaction self.old request.now.transaction }
        ensures ours { IsOurs engine.now self.new.seat }
        ensures did { OnOk result
            (DidAsk engine.now request.now (arc_value key) self.old self.new) }
    {
        client::help(rt, engine, &mut self.seat, gate, self.patience);
        let Some(transaction) = self.transactions.get(request.transaction.as_text()) else {
            unreachable!()
        };
        let promise = client::ask(rt, engine, &mut self.seat, transaction, key)?;
        note(&mut self.promises, &request.name, promise)
    }

    /// Waits for a request, unless it was answered before, and notes how it is answered.
    pub(crate) fn wait<R: Wait, G: Gate>(
        &mut self,
        rt: &R,
        engine: &Engine<Buck>,
        gate: &G,
        name: &Name,
    ) -> Result<(), NoMemory>
        requires ours { IsOurs engine.now self.old.seat }
        requires open { MayWait self.old name.now }
        requires sees { Sees self.old.seat self.old.outlook }
        ensures ours { IsOurs engine.now self.new.seat }
        ensures did { OnOk result (DidWait engine.now name.now self.old self.new) }
    {
        if !self.promises.contains_key(name.as_text()) {
            return Ok(());
        }
        let Some(promise) = take(&mut self.promises, name) else {
            unreachable!()
        };
        let came = self.come(rt, engine, gate, promise)?;
        let answer = came_lines(self.alloc, &came)?;
        note(&mut self.answers, name, answer)
    }

    /// What a key that was asked for has come to. If a look does not tell, it is waited for;
    /// otherwise its promise is still to be polled.
    fn come<R: Wait, G: Gate>(
        &mut self,
        rt: &R,
        engine: &Engine<Buck>,
        gate: &G,
        promise: Promise<Buck>,
    ) -> Result<Came, NoMemory>
        requires ours { IsOurs engine.now self.old.seat }
        requires sees { Sees self.old.seat self.old.outlook }
        requires live { IsLive self.old.seat promise }
        ensures did { OnOk result (Comes engine.now promise self.old self.new) }
        ensures ours { IsOurs engine.now self.new.seat }
        ensures came { IfOk result
            (IsCome (log_in self.old.seat) promise.version (arc_value promise.key)) }
    {
        if let Some(value) = self.outlook.look(engine, &promise) {
            self.outlook.unpolled.push(promise)?;
            return Ok(Came::Value(value));
        }
        client::help(rt, engine, &mut self.seat, gate, self.patience);
        client::wait(rt, engine, &mut self.seat, &promise, gate)
    }

    /// Polls each promise that a look answered, and waits for it if it is pending: so the seat has
    /// seen then that its key is decided.
    pub(crate) fn confirm<R: Wait, G: Gate>(
        &mut self,
        rt: &R,
        engine: &Engine<Buck>,
        gate: &G,
    ) -> Result<(), NoMemory>
        requires ours { IsOurs engine.now self.old.seat }
        requires live { AreLive self.old.seat self.old.outlook.unpolled.items }
        ensures ours { IsOurs engine.now self.new.seat }
        ensures did { OnOk result (Confirms engine.now self.old self.new) }
    {
        client::wait_all(rt, engine, &mut self.seat, &self.outlook.unpolled, gate)?;
        self.outlook.unpolled.clear();
        Ok(())
    }

    /// Gives a request up.
    fn cancel<R: Wait>(&mut self, rt: &R, engine: &Engine<Buck>, name: &Name)
        requires ours { IsOurs engine.now self.old.seat }
        requires open { MayCancel self.old name.now }
        ensures { DidCancel engine.now name.now self.old self.new }
    {
        let Some(promise) = take(&mut self.promises, name) else {
            unreachable!()
        };
        client::leave(rt, engine, &mut self.seat, promise);
    }

    /// Closes a transaction.
    pub(crate) fn close<R: Wait>(&mut self, rt: &R, engine: &Engine<Buck>, name: &Name)
        requires ours { IsOurs engine.now self.old.seat }
        requires open { MayClose self.old name.now }
        ensures { DidClose engine.now name.now self.old self.new }
    {
        let Some(transaction) = take(&mut self.transactions, name) else {
            unreachable!()
        };
        client::close(rt, engine, &mut self.seat, transaction);
    }
}
