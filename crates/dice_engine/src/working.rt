//! The calls of an engine that do jobs.
ghost use Rattle.std.specs.Prelude.{◌≡◌, ◌+◌, [], None, IfOk, IfSome, IfNone};
ghost use Rattle.std.specs.Arc.{arc_value};
ghost use Rattle.job_line.specs.Ends.{after_empty};
ghost use Rattle.dice_jobs.specs.Alike.{IsAnsweredIn};
ghost use Rattle.dice_engine.specs.Seats.{IsSeatOf, AreOf, seated, found_empty};
ghost use Rattle.dice_engine.specs.declared.promise.Worked.TheVariants as worked;
ghost use Rattle.dice_engine.specs.Turns.{log_of, Works, Later};
ghost use Rattle.dice_engine.specs.Conditions.{SawAsk};
ghost use Rattle.dice_engine.specs.Replies.{reply_of, settled_of, IsReply};
ghost use Rattle.dice_engine.specs.Jobs.{GoesOut, IsKnown};
ghost use Rattle.dice_engine.specs.Doings.{TurnOver, TakesIn, FindsNothing, GetsJob, DoesJob, WaitsOn, GivesAndTells, TellsLast, WaitsFor};
ghost use Rattle.dice_engine.specs.Rounds.{settled_in};

use crate::engine::Engine;
use crate::gate::Gate;
use crate::promise::{Answer, Promise, Settled, Worked};
use crate::seat::{Place, Seat};
use crossbeam_utils::Backoff;
use dice_core::{Job, JobName, Step};
use dice_jobs::true_jobs_are_one;
use dice_key::{NoMemory, Universe};
use job_line::Pass;
use std::sync::Wait;

/// What a round of a wait comes to.
#[derive(Drop)]
pub(crate) enum Round<U: Universe> {
    /// The promise has come to this, or memory was refused.
    Settled(Result<Settled<U>, NoMemory>),
    /// The promise is pending, and a job was done or there was none.
    Pending(Worked),
}

impl<U: Universe> Engine<U> {
    /// Does one job, if there is one: it is taken from the line or, if that is empty, in a turn; it
    /// is done outside, and given in another turn. If there is no memory for it, it is given up.
    pub fn work<R: Wait, G: Gate>(
        &self,
        rt: &R,
        seat: &mut Seat<U>,
        gate: &G,
        worker: u32,
    ) -> Worked
        requires { IsSeatOf self.now seat.old }
        ensures works { Works U.Key.eq U.meaning seat.old seat.new }
        ensures later { Later U.Key.eq U.meaning seat.old seat.new
            × (seat.new.mine ≡ seat.old.mine) }
        ensures idle { result ≡ worked.Idle → seat.new.left.0 ≡ 0 }
        ensures empty { result ≡ worked.Idle → seat.new.empties ≡ (found_empty seat.old).empties }

        // A job was got and what came of it came home; or the line was empty, no task was ready,
        // and nothing changed.
        ensures job { result ≡ worked.Did
            → DoesJob U.Key.eq U.meaning U.Value.eq seat.old seat.new }
        ensures none { result ≡ worked.Idle → FindsNothing U.Key.eq U.meaning seat.old seat.new }
        ensures seat { IsSeatOf self.now seat.new }
        ensures same { (seat.new.number ≡ seat.old.number) × (seat.new.writers ≡ seat.old.writers) }
    {
        let Some(job) = self.next_job(rt, &mut seat.place, &mut seat.pass) else {
            return Worked::Idle;
        };
        gate.at(worker);
        let came = job.advance(&*self.universe);
        self.take_up(rt, &mut seat.place, &mut seat.pass, came);
        Worked::Did
    }

    // Takes a job from the line or, if that is empty, the job of a task that is ready, in a turn.
    fn next_job<R: Wait>(
        &self,
        rt: &R,
        place: &mut Place<U>,
        pass: &mut Pass<Job<U>>,
    ) -> Option<Job<U>>
        requires { AreOf self.now pass.old place.old }
        ensures none { IfNone result (FindsNothing U.Key.eq U.meaning (seated pass.old place.old)
            (seated pass.new place.new)) }
        ensures some { IfSome result (GetsJob U.Key.eq U.meaning (seated pass.old place.old)
            (seated pass.new place.new)) }
        ensures idle { IfNone result (place.new.left.0 ≡ 0) }
        ensures empty { IfNone result (pass.new ≡ after_empty pass.old) }
        ensures known { IfSome result
            (IsKnown U.Key.eq U.meaning (log_of place.new.seen) pass.new.seen) }
        ensures of { AreOf self.now pass.new place.new }
    {
        match self.line.take(rt, pass) {
            Some(job) => Some(job),
            None => self.take_job(rt, place, pass),
        }
    }

    // Takes the job of a task that is ready, in one turn.
    fn take_job<R: Wait>(&self, rt: &R, place: &mut Place<U>, pass: &Pass<Job<U>>) -> Option<Job<U>>
        requires { AreOf self.now pass.now place.old }
        ensures none { IfNone result (place.new.left.0 ≡ 0) }
        ensures answered { IfSome result (IsAnsweredIn U.Key.eq U.meaning (log_of place.new.seen)) }
        ensures goes { TurnOver U.Key.eq U.meaning (seated pass.now place.old)
            (seated pass.now place.new) (GoesOut U.Key.eq result) }
        ensures of { AreOf self.now pass.now place.new }
    {
        let _ = pass;
        let mut turn = self.stile.enter(rt, place);
        let state = turn.state();
        let job = state.take_job();
        state.line_up(rt);
        self.stile.leave(turn);
        job
    }

    // Gives what came of a job that was taken, in one turn.
    fn take_up<R: Wait>(
        &self,
        rt: &R,
        place: &mut Place<U>,
        pass: &mut Pass<Job<U>>,
        came: Result<Step<U>, JobName<U>>,
    )
        requires of { AreOf self.now pass.old place.old }
        requires known { IfOk came (λ s. IsKnown U.Key.eq U.meaning (log_of place.old.seen)
            pass.old.seen s.job) }
        ensures home { TakesIn U.Key.eq U.meaning U.Value.eq came (seated pass.old place.old)
            (seated pass.new place.new) }
        ensures of { AreOf self.now pass.new place.new }
    {
        true_jobs_are_one::<U>();
        let mut turn = self.stile.enter(rt, place);
        let state = turn.state();
        state.take_up(rt, pass, came);
        state.line_up(rt);
        self.stile.leave(turn);
    }

    /// Waits until a promise has come to something, and does jobs meanwhile. It need not return:
    /// jobs that others have taken have to be given.
    pub fn wait<R: Wait, G: Gate>(
        &self,
        rt: &R,
        seat: &mut Seat<U>,
        promise: &Promise<U>,
        gate: &G,
        worker: u32,
    ) -> Result<Settled<U>, NoMemory>
        requires seat { IsSeatOf self.now seat.old }
        requires ask { SawAsk seat.old promise.now.ask promise.now.opened promise.now.version
            (arc_value promise.now.key) }
        ensures works { Works U.Key.eq U.meaning seat.old seat.new }
        ensures later { Later U.Key.eq U.meaning seat.old seat.new
            × (seat.new.mine ≡ seat.old.mine) }
        ensures waits { WaitsFor U.Key.eq U.meaning U.Value.eq promise.now result seat.old
            seat.new }
        ensures reply { IsReply U.Key.eq U.meaning seat.new.seen promise.now.version
            (arc_value promise.now.key) promise.now.ask seat.new.left (settled_of result) }
        ensures seat { IsSeatOf self.now seat.new }
        ensures same { (seat.new.number ≡ seat.old.number) × (seat.new.writers ≡ seat.old.writers) }
    {
        if let Some(settled) = come_to(self.poll(rt, seat, promise)) {
            return settled;
        }
        let backoff = Backoff::new();
        for _ in rt.forever() {
            match self.go_round(rt, seat, promise, gate, worker) {
                Round::Settled(settled) => return settled,
                Round::Pending(Worked::Did) => backoff.reset(),
                Round::Pending(Worked::Idle) => backoff.snooze(),
            }
        }
        unreachable!()
    }

    // A round of a wait: a job from the line is done, and in the turn in which it is given the
    // promise is polled; or if the line is empty, it is polled alone, and a job is done that could
    // not go on the line.
    fn go_round<R: Wait, G: Gate>(
        &self,
        rt: &R,
        seat: &mut Seat<U>,
        promise: &Promise<U>,
        gate: &G,
        worker: u32,
    ) -> Round<U>
        requires seat { IsSeatOf self.now seat.old }
        requires ask { SawAsk seat.old promise.now.ask promise.now.opened promise.now.version
            (arc_value promise.now.key) }
        ensures works { Works U.Key.eq U.meaning seat.old seat.new }
        ensures later { Later U.Key.eq U.meaning seat.old seat.new
            × (seat.new.mine ≡ seat.old.mine) }
        ensures settled { IfSome (settled_in result) (λ r. TellsLast U.Key.eq U.meaning U.Value.eq
            promise.now r seat.old seat.new) }
        ensures pending { IfNone (settled_in result)
            (WaitsOn U.Key.eq U.meaning U.Value.eq seat.old seat.new) }
        ensures reply { IfSome (settled_in result) (λ r. IsReply U.Key.eq U.meaning seat.new.seen
            promise.now.version (arc_value promise.now.key) promise.now.ask seat.new.left r) }
    {
        let Some(job) = self.line.take(rt, &mut seat.pass) else {
            if let Some(settled) = come_to(self.poll(rt, seat, promise)) {
                return Round::Settled(settled);
            }
            if seat.left().0 == 0 {
                return Round::Pending(Worked::Idle);
            }
            return Round::Pending(self.work(rt, seat, gate, worker));
        };
        gate.at(worker);
        let came = job.advance(&*self.universe);
        let answer = self.give(rt, &mut seat.place, &mut seat.pass, came, promise);
        if let Some(settled) = come_to(answer) {
            return Round::Settled(settled);
        }
        Round::Pending(Worked::Did)
    }

    // Gives what came of a job that was got, and tells what the promise has come to, in one turn.
    fn give<R: Wait>(
        &self,
        rt: &R,
        place: &mut Place<U>,
        pass: &mut Pass<Job<U>>,
        came: Result<Step<U>, JobName<U>>,
        promise: &Promise<U>,
    ) -> Result<Answer<U>, NoMemory>
        requires of { AreOf self.now pass.old place.old }
        requires known { IfOk came (λ s. IsKnown U.Key.eq U.meaning (log_of place.old.seen)
            pass.old.seen s.job) }
        requires ask { SawAsk (seated pass.old place.old) promise.now.ask promise.now.opened
            promise.now.version (arc_value promise.now.key) }
        ensures home { TurnOver U.Key.eq U.meaning (seated pass.old place.old)
            (seated pass.new place.new) (GivesAndTells U.Key.eq U.meaning U.Value.eq promise.now
            (reply_of result) came) }
        ensures reply { IsReply U.Key.eq U.meaning place.new.seen promise.now.version
            (arc_value promise.now.key) promise.now.ask place.new.left (reply_of result) }
        ensures of { AreOf self.now pass.new place.new }
    {
        true_jobs_are_one::<U>();
        let mut turn = self.stile.enter(rt, place);
        let state = turn.state();
        state.take_up(rt, pass, came);
        let answer = state.poll(promise);
        state.line_up(rt);
        self.stile.leave(turn);
        answer
    }
}

/// What a promise has come to, if it is not pending.
fn come_to<U: Universe>(answer: Result<Answer<U>, NoMemory>) -> Option<Result<Settled<U>, NoMemory>>
    ensures { IfSome result (λ s. settled_of s ≡ reply_of answer) }
{
    match answer {
        Ok(Answer::Pending) => None,
        Ok(Answer::Value(value)) => Some(Ok(Settled::Value(value))),
        Ok(Answer::Cycle(path)) => Some(Ok(Settled::Cycle(path))),
        Ok(Answer::Gone) => Some(Ok(Settled::Gone)),
        Err(NoMemory) => Some(Err(NoMemory)),
    }
}
