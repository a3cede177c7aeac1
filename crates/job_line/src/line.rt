//! The line, and what its ends do.
ghost use Rattle.std.specs.Prelude.{◌≡◌, ℕ, ◌^◌, ◌<◌, List, [], length, IsOk, IfOk, IfErr, IfSome, IfNone};
ghost use Rattle.lists.specs.Lists.{AreDistinct};
ghost use mathlib.Core.List.{IsPrefix};
ghost use Rattle.job_line.specs.Ends.{first_putter, first_pass, with_job, Took, after_empty, Held, split_off, joined};

use crate::no_memory::NoMemory;
use crate::pass::Pass;
use crate::putter::Putter;
use crate::rule::{Meet, Pair, Pop, Push, RawLine};
use std::alloc::Global;
use std::marker::Model;
use std::sync::Wait;

/// A line of jobs, first in first out. It may be shared by threads, each with an end of its own.
/// Contracts see it as its identity.
pub struct JobLine<J: Drop> {
    queue: RawLine<J>,
}

impl<J: Drop> Model for JobLine<J> {
    ghost use Rattle.job_line.specs.Ends.{LineId};

    ghost Value = { LineId };

    ghost view = { λ l. l.queue };
}

impl<J: Drop> JobLine<J> {
    /// An empty line, its putter and its first pass.
    #[tactic(auto, using(crate::proofs::Keeps::begins, crate::proofs::Keeps::forks))]
    pub fn new(alloc: Global) -> Result<(JobLine<J>, Putter<J>, Pass<J>), NoMemory>
        ensures putter { IfOk result (λ t. t.1 ≡ first_putter t.0) }
        ensures pass { IfOk result (λ t. t.2 ≡ first_pass t.0) }
    {
        let Ok((queue, mut first)) = RawLine::with_rule(alloc) else {
            return Err(NoMemory);
        };
        let raw = queue.another::<Pair>(&mut first);
        let putter = Putter {
            raw: first,
            count: 0,
        };
        Ok((JobLine { queue }, putter, Pass { raw, empties: 0 }))
    }

    /// Puts a job at the end. If there is no memory the job comes back, and the line is as before.
    /// It may wait for a step of another thread.
    pub fn put<R: Wait>(&self, rt: &R, putter: &mut Putter<J>, job: J) -> Result<(), J>
        requires own { putter.old.line ≡ self.now }
        requires room { length putter.old.puts < 2 ^ 62 }
        ensures put { IfOk result (λ _. putter.new ≡ with_job putter.old job) }
        ensures refused { IfErr result (λ back. (back ≡ job) × (putter.new ≡ putter.old)) }
    {
        self.queue.push_as::<Push, R>(rt, &mut putter.raw, job)?;
        putter.count += 1;
        Ok(())
    }

    /// Takes the job at the first place that was not taken. `None` only if the line was empty at
    /// one moment of the call, and `empties` rises then and only then. It may wait for a step of
    /// another thread.
    #[tactic(auto, using(crate::proofs::Keeps::pops, crate::proofs::Keeps::looks))]
    pub fn take<R: Wait>(&self, rt: &R, pass: &mut Pass<J>) -> Option<J>
        requires own { pass.old.line ≡ self.now }
        ensures some { IfSome result (λ job. Took pass.old job pass.new) }
        ensures none { IfNone result
            ((pass.new ≡ after_empty pass.old) × Held [] pass.old.seen pass.old.places) }
    {
        let job = self.queue.pop_as::<Pop, R>(rt, &mut pass.raw);
        if job.is_none() {
            pass.empties = pass.empties.saturating_add(1);
        }
        job
    }

    /// How many jobs were left at one moment of the call. It may wait for a step of another thread.
    #[tactic(auto, using(crate::proofs::Keeps::looks))]
    pub fn left<R: Wait>(&self, rt: &R, pass: &mut Pass<J>) -> usize
        requires own { pass.old.line ≡ self.now }
        ensures held { (items : List J) × (length items ≡ result)
            × Held items pass.old.seen pass.old.places }
        ensures apart { AreDistinct pass.new.places }
        ensures pass { pass.new ≡ pass.old }
    {
        self.queue.len_as::<Pop, R>(rt, &mut pass.raw)
    }

    /// The putter has put all that a pass has seen. Nothing changes. It may wait for a step of
    /// another thread.
    #[tactic(auto, using(crate::proofs::Keeps::forks, crate::proofs::Keeps::meets, crate::proofs::Keeps::knows_met))]
    pub fn meet<R: Wait>(&self, rt: &R, putter: &mut Putter<J>, pass: &mut Pass<J>)
        requires own { putter.old.line ≡ self.now }
        requires own_pass { pass.old.line ≡ self.now }
        ensures begins { IsPrefix pass.old.seen putter.old.puts }
        ensures putter { putter.new ≡ putter.old }
        ensures pass { pass.new ≡ pass.old }
    {
        let other = self.queue.another::<Pair>(&mut pass.raw);
        self.queue.absorb::<Meet>(&mut putter.raw, other);
        self.queue.len_as::<Meet, R>(rt, &mut putter.raw);
    }

    /// A new pass, which has seen all that the putter put. It takes no memory.
    #[tactic(auto, using(crate::proofs::Keeps::forks))]
    pub fn pass(&self, putter: &mut Putter<J>) -> Pass<J>
        requires own { putter.old.line ≡ self.now }
        ensures new { result
            ≡ record { line = putter.old.line; seen = putter.old.puts; places = []; empties = 0 } }
        ensures putter { putter.new ≡ putter.old }
    {
        let raw = self.queue.another::<Pair>(&mut putter.raw);
        Pass { raw, empties: 0 }
    }

    /// A new pass, which has seen what this one has. It takes no memory, and is never refused.
    #[tactic(auto, using(crate::proofs::Keeps::forks))]
    pub fn split(&self, pass: &mut Pass<J>) -> Result<Pass<J>, NoMemory>
        requires own { pass.old.line ≡ self.now }
        ensures done { IsOk result }
        ensures new { IfOk result (λ new. new ≡ split_off pass.old) }
        ensures pass { pass.new ≡ pass.old }
    {
        let raw = self.queue.another::<Pair>(&mut pass.raw);
        Ok(Pass { raw, empties: 0 })
    }

    /// Ends another pass. This one has from then on the longer list of the two, and the places of
    /// both, of which no two are alike: the next `take` or `left` shows it.
    #[tactic(auto, using(crate::proofs::Keeps::merges))]
    pub fn join(&self, pass: &mut Pass<J>, other: Pass<J>)
        requires own { pass.old.line ≡ self.now }
        requires own_other { other.line ≡ self.now }
        ensures { pass.new ≡ joined pass.old other }
    {
        self.queue.absorb::<Pair>(&mut pass.raw, other.raw);
    }
}

impl<J: Drop> Drop for JobLine<J> {
    fn drop(self) {
        let Self { queue } = self;
        queue.destroy();
    }
}
