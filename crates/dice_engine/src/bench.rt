//! The core of an engine, and the line on which its ready jobs go.
ghost use Rattle.std.specs.Prelude.{◌≡◌, [], IfOk};
ghost use Rattle.std.specs.Arc.{arc_value};
ghost use Rattle.job_line.specs.Ends.{first_pass};
ghost use Rattle.dice_engine.specs.Jobs.{KeepsRest, LinesUp};
ghost use Rattle.dice_engine.specs.Benches.{IsLinedUp};

use dice_core::{Core, Job};
use dice_key::{NoMemory, Universe, laws_of};
use job_line::{JobLine, Pass, Putter};
use std::alloc::Global;
use std::marker::Model;
use std::sync::{Arc, Wait};

/// So many jobs are put on a line, and no more.
const MOST_PUTS: u64 = 1 << 62;

/// A core, and who puts its ready jobs on a line. Of each job that was put the answers are the
/// values at its version.
#[derive(Drop)]
pub(crate) struct Bench<U: Universe> {
    pub(crate) core: Core<U>,
    pub(crate) line: Arc<JobLine<Job<U>>>,
    pub(crate) putter: Putter<Job<U>>,
}

impl<U: Universe> Model for Bench<U> {
    ghost use Rattle.dice_engine.specs.Benches.{BenchView};

    ghost Value = { BenchView U.Key U.Value };

    ghost use Rattle.std.specs.Prelude.{◌≡◌};
    ghost use Rattle.std.specs.Arc.{arc_value};
    ghost use Rattle.dice_core.specs.Cores.{events_of};
    ghost use Rattle.dice_engine.specs.Turns.{log_of};
    ghost use Rattle.dice_engine.specs.Jobs.{AreAnswered};

    ghost view = { λ b. record { core = b.core; line = arc_value b.line; puts = b.putter.puts } };

    ghost invariant = { λ b. (b.putter.line ≡ arc_value b.line)
        × AreAnswered U.Key.eq U.meaning (log_of (events_of b.core)) b.putter.puts };
}

impl<U: Universe> Bench<U> {
    /// The bench of this core, its line, and the first pass to it.
    pub(crate) fn new(
        alloc: Global,
        core: Core<U>,
    ) -> Result<(Bench<U>, Arc<JobLine<Job<U>>>, Pass<Job<U>>), NoMemory>
        ensures core { IfOk result (λ t. t.0.core ≡ core) }
        ensures line { IfOk result (λ t. t.0.line ≡ arc_value t.1) }
        ensures pass { IfOk result (λ t. t.2 ≡ first_pass (arc_value t.1)) }
    {
        let Ok((line, putter, pass)) = JobLine::new(alloc) else {
            return Err(NoMemory);
        };
        let line = Arc::new(alloc, line)?;
        let shared = Arc::try_clone(&line)?;
        let bench = Bench { core, line, putter };
        Ok((bench, shared, pass))
    }

    /// Puts the ready jobs on the line, in order. It stops if the line had as many puts as it may
    /// have, or if there is no memory; then the jobs that are left stay ready.
    pub(crate) fn line_up<R: Wait>(&mut self, rt: &R)
        ensures lines_up { LinesUp U.Key.eq self.old.puts self.new.puts self.old.core
            self.new.core }
        ensures rest { KeepsRest self.old.core self.new.core }
        ensures none { self.old.core.desk.ready ≡ [] → self.new.core ≡ self.old.core }
        ensures line { self.new.line ≡ self.old.line }
    {
        put_ready(rt, &mut self.core, &*self.line, &mut self.putter);
    }
}

/// Puts ready jobs on the line, until it stops.
fn put_ready<U: Universe, R: Wait>(
    rt: &R,
    core: &mut Core<U>,
    line: &JobLine<Job<U>>,
    putter: &mut Putter<Job<U>>,
)
    requires own { putter.old.line ≡ line.now }
    ensures { IsLinedUp U.Key.eq U.meaning putter.old putter.new core.old core.new }
{
    laws_of::<U>();
    for _ in 0..core.ready() {
        if putter.puts() >= MOST_PUTS {
            return;
        }
        let Some(job) = core.take_job() else {
            unreachable!()
        };
        if let Err(job) = line.put(rt, putter, job) {
            drop(core.back(job));
            return;
        }
    }
}
