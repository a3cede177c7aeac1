//! Whole scripts, driven on an engine.
ghost use Rattle.std.specs.Prelude.{◌≡◌, ◌∷◌, ◌++◌, ℕ, List, [], OnOk, IfOk};
ghost use Rattle.script_trace.specs.Tracing.{IsTraceOf, IsPrintout};
ghost use Rattle.script_trace.specs.Events.{IsJournalOf};
ghost use Rattle.dice_run.specs.Seats.{IsOurs, Rests};
ghost use Rattle.dice_run.specs.Driving.{Starts, HasIfHeld};
ghost use Rattle.script.specs.declared.line.Line.{Line};
ghost use Rattle.dice_run.specs.Driven.{Carried, Settled, Closing, ClosesOpen, Waiting, MaySettle, SettlesOne};
ghost use Rattle.dice_run.specs.Printing.{IsDone};

use crate::driver::Driver;
use crate::named::with_room;
use crate::outlook::Outlook;
use crate::printer::print;
use crate::{append, client};
use action_digest::Buck;
use dice_engine::{Engine, Gate, Reader, Seat, Updater};
use dice_key::NoMemory;
use script::{Line, Name, Request, Script};
use std::alloc::Global;
use std::collections::HashMap;
use std::sync::Wait;

/// What a driver is given beside its seat: a reader, if there is one; the script; whether the trace
/// is wanted; and how many jobs may be out that it leaves to others.
#[derive(Drop)]
pub(crate) struct Course<'a> {
    pub(crate) alloc: Global,
    pub(crate) reader: Option<Reader<Buck>>,
    pub(crate) script: &'a Script,
    pub(crate) trace: bool,
    pub(crate) patience: u64,
}

/// Drives a script on this thread alone.
pub(crate) fn drive_alone<R: Wait, G: Gate>(
    rt: &R,
    engine: &Engine<Buck>,
    seat: Seat<Buck>,
    course: Course<'_>,
    gate: &G,
) -> (Seat<Buck>, Result<Vec<u8>, NoMemory>)
    requires ours { IsOurs engine.now seat }
    requires first { seat.mine ≡ [] }
    ensures ours { IsOurs engine.now result.0 }
    ensures output { IfOk result.1
        (λ out. IsPrintout course.entry.trace course.entry.script.now result.0.seen out.items) }
    ensures journal { OnOk result.1 (IsJournalOf course.entry.script.now result.0.seen) }
{
    let Course {
        alloc,
        reader,
        script,
        trace,
        patience,
    } = course;
    let requests = requests_in(script);
    let seed = script.seed();
    let mut driver = Driver {
        alloc,
        seat,
        outlook: Outlook::new(alloc, reader),
        gathered: Updater::new(alloc),
        newest: Vec::new(alloc),
        transactions: HashMap::with_hasher(alloc, seed),
        promises: with_room(alloc, seed, requests),
        answers: with_room(alloc, seed, requests),
        patience,
    };
    let output = driver.script(rt, engine, gate, script, trace);
    (driver.into_seat(), output)
}

/// How many requests a script has.
fn requests_in(script: &Script) -> usize {
    let mut count = 0usize;
    for line in script.lines() {
        if let Line::Ask(_) | Line::Action(_) = line {
            count = count.saturating_add(1);
        }
    }
    count
}

impl Driver {
    fn into_seat(self) -> Seat<Buck>
        ensures { result ≡ self.seat }
    {
        self.seat
    }

    /// Carries out a script, and answers its output, with the trace after it if it is wanted.
    fn script<R: Wait, G: Gate>(
        &mut self,
        rt: &R,
        engine: &Engine<Buck>,
        gate: &G,
        script: &Script,
        trace: bool,
    ) -> Result<Vec<u8>, NoMemory>
        requires { Starts engine.now self.old }
        ensures ours { IsOurs engine.now self.new.seat }
        ensures output { IfOk result
            (λ out. IsPrintout trace script.now self.new.seat.seen out.items) }
        ensures journal { OnOk result (IsJournalOf script.now self.new.seat.seen) }
    {
        self.lines(rt, engine, gate, script)?;
        self.settle(rt, engine, gate, script)?;
        self.confirm(rt, engine, gate)?;
        self.close_all(rt, engine, script);
        let output = print(self.alloc, script, self)?;
        if trace {
            return self.with_trace(rt, engine, output);
        }
        Ok(output)
    }

    /// The output, and after it the trace of the engine's journal.
    fn with_trace<R: Wait>(
        &mut self,
        rt: &R,
        engine: &Engine<Buck>,
        output: Vec<u8>,
    ) -> Result<Vec<u8>, NoMemory>
        requires { IsOurs engine.now self.old.seat }
        ensures seat { Rests engine.now self.old.seat self.new.seat }
        ensures ours { IsOurs engine.now self.new.seat }
        ensures traced { IfOk result (λ out. (trace : List ℕ) × IsTraceOf self.new.seat.seen trace
            × (out.items ≡ output.items ++ trace)) }
    {
        let lines = client::log(rt, self.alloc, engine, &mut self.seat)?;
        let mut out = output;
        append::trace(&mut out, &lines)?;
        Ok(out)
    }

    /// Carries out the lines.
    fn lines<R: Wait, G: Gate>(
        &mut self,
        rt: &R,
        engine: &Engine<Buck>,
        gate: &G,
        script: &Script,
    ) -> Result<(), NoMemory>
        requires { Starts engine.now self.old }
        ensures ours { IsOurs engine.now self.new.seat }
        ensures carried { OnOk result (Carried engine.now script.now self.new) }
    {
        for line in script.lines() {
            self.line(rt, engine, gate, line)?;
        }
        Ok(())
    }

    /// Waits, in the order of asking, for the requests that were neither waited for nor cancelled.
    fn settle<R: Wait, G: Gate>(
        &mut self,
        rt: &R,
        engine: &Engine<Buck>,
        gate: &G,
        script: &Script,
    ) -> Result<(), NoMemory>
        requires { Carried engine.now script.now self.old }
        ensures ours { IsOurs engine.now self.new.seat }
        ensures settled { OnOk result (Settled engine.now script.now self.new) }
    {
        for line in script.lines() {
            self.settle_line(rt, engine, gate, script, line)?;
        }
        Ok(())
    }

    /// Waits for the request of a line, if it has one.
    fn settle_line<R: Wait, G: Gate>(
        &mut self,
        rt: &R,
        engine: &Engine<Buck>,
        gate: &G,
        script: &Script,
        line: &Line,
    ) -> Result<(), NoMemory>
        requires { (rest : List Line) × Waiting engine.now script.now (line.now ∷ rest) self.old }
        ensures ours { IsOurs engine.now self.new.seat }
        ensures settles { OnOk result ((rest : List Line)
            → Waiting engine.now script.now (line.now ∷ rest) self.old
            → Waiting engine.now script.now rest self.new) }
    {
        match line {
            Line::Ask(request) => self.settle_one(rt, engine, gate, script, request),
            Line::Action(request) => self.settle_one(rt, engine, gate, script, request),
            Line::Put(_, _) => Ok(()),
            Line::Drop(_) => Ok(()),
            Line::Commit => Ok(()),
            Line::Open(_) => Ok(()),
            Line::Wait(_) => Ok(()),
            Line::Cancel(_) => Ok(()),
            Line::Close(_) => Ok(()),
        }
    }

    /// Waits for a request that the script does not cancel.
    fn settle_one<R: Wait, G: Gate>(
        &mut self,
        rt: &R,
        engine: &Engine<Buck>,
        gate: &G,
        script: &Script,
        request: &Request,
    ) -> Result<(), NoMemory>
        requires { MaySettle engine.now script.now self.old request.now.name }
        ensures ours { IsOurs engine.now self.new.seat }
        ensures settles { OnOk result
            (SettlesOne engine.now script.now request.now.name self.old self.new) }
    {
        if script.is_cancelled(&request.name) {
            return Ok(());
        }
        self.wait(rt, engine, gate, &request.name)
    }

    /// Closes the transactions that are open, in the order of opening.
    fn close_all<R: Wait>(&mut self, rt: &R, engine: &Engine<Buck>, script: &Script)
        requires settled { Settled engine.now script.now self.old }
        requires polled { self.old.outlook.unpolled.items ≡ [] }
        ensures { Closing engine.now script.now [] self.new }
    {
        for line in script.lines() {
            self.close_line(rt, engine, script, line);
        }
    }

    /// Closes the transaction that a line opened, if it did and the transaction is open.
    fn close_line<R: Wait>(&mut self, rt: &R, engine: &Engine<Buck>, _script: &Script, line: &Line)
        requires { (rest : List Line) × Closing engine.now _script.now (line.now ∷ rest) self.old }
        ensures { (rest : List Line) → Closing engine.now _script.now (line.now ∷ rest) self.old
            → Closing engine.now _script.now rest self.new }
    {
        match line {
            Line::Open(name) => self.close_open(rt, engine, name),
            Line::Ask(_) => {}
            Line::Action(_) => {}
            Line::Put(_, _) => {}
            Line::Drop(_) => {}
            Line::Commit => {}
            Line::Wait(_) => {}
            Line::Cancel(_) => {}
            Line::Close(_) => {}
        }
    }

    /// Closes the transaction of this name, if it is open.
    fn close_open<R: Wait>(&mut self, rt: &R, engine: &Engine<Buck>, name: &Name)
        requires ours { IsOurs engine.now self.old.seat }
        requires open { HasIfHeld self.old name.now }
        ensures { ClosesOpen engine.now name.now self.old self.new }
    {
        if self.transactions.contains_key(name.as_text()) {
            self.close(rt, engine, name);
        }
    }
}
