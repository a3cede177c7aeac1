//! Jobs on the example universe.
ghost use Rattle.std.specs.Prelude.{◌≡◌, IfOk};

use dice_jobs::{
    Earlier, Job, JobName, Parked, Report, Step, jobs_stay_true, steps_tell_the_truth,
};
use dice_key::{Answers, NoMemory};
use std::alloc::Global;
use std::sync::Arc;
use std::test::Fail;
use tiny_universe::{Place, Tiny, Value};

/// What came of a step: the first key that it asks, and how many; a value; or what a check found.
#[derive(Clone, Copy, PartialEq)]
enum Seen {
    Asks(Place, usize),
    AsksNothing,
    Done(Value),
    Same,
    Differs(Place),
}

/// What came of this step.
fn seen_of(step: &Step<Tiny>) -> Seen {
    match step.report() {
        Report::Asks(batch) => match batch.keys() {
            [first, ..] => Seen::Asks(**first, batch.len()),
            [] => Seen::AsksNothing,
        },
        Report::Done(value) => Seen::Done(**value),
        Report::Same => Seen::Same,
        Report::Differs(dep) => Seen::Differs(**dep),
    }
}

/// Adds a number to the answers.
fn push(alloc: Global, answers: &mut Answers<Value>, number: u64) -> Result<(), NoMemory> {
    let value = Arc::new(alloc, Value::Number(number))?;
    answers.push(value)
}

fn answers_of(alloc: Global, numbers: &[u64]) -> Result<Answers<Value>, NoMemory> {
    let mut answers = Answers::new(alloc);
    for number in numbers {
        push(alloc, &mut answers, *number)?;
    }
    Ok(answers)
}

fn name_of(alloc: Global, version: u64, key: Place, born: u64) -> Result<JobName<Tiny>, NoMemory>
    ensures { IfOk result (λ n. n.key ≡ key) }
{
    Ok(JobName::new(version, Arc::new(alloc, key)?, born))
}

fn advanced(job: Job<Tiny>, universe: &Tiny) -> Result<Step<Tiny>, NoMemory> {
    match job.advance(universe) {
        Ok(step) => Ok(step),
        Err(_name) => Err(NoMemory),
    }
}

/// The job that goes on with these answers; `NoMemory` if the step does not ask as many keys.
fn resumed(parked: Parked<Tiny>, answers: Answers<Value>) -> Result<Job<Tiny>, NoMemory> {
    if answers.len() != parked.batch().len() {
        return Err(NoMemory);
    }
    let next = parked.answered(&answers)?;
    Ok(parked.resume(next, answers, false))
}

/// The step after this one, which is answered with these numbers; `NoMemory` if it does not ask as
/// many keys.
fn after(
    alloc: Global,
    universe: &Tiny,
    step: Step<Tiny>,
    numbers: &[u64],
) -> Result<Step<Tiny>, NoMemory> {
    let Some(parked) = step.into_parked() else {
        return Err(NoMemory);
    };
    let answers = answers_of(alloc, numbers)?;
    let job = resumed(parked, answers)?;
    advanced(job, universe)
}

/// The step of a job when its first batch, and then its second, if there are numbers for it, are
/// answered with these.
fn run_to(
    alloc: Global,
    universe: &Tiny,
    job: Job<Tiny>,
    first: &[u64],
    second: &[u64],
) -> Result<Step<Tiny>, NoMemory> {
    let begun = advanced(job, universe)?;
    let step = after(alloc, universe, begun, first)?;
    if second.is_empty() {
        Ok(step)
    } else {
        after(alloc, universe, step, second)
    }
}

const FOLLOW: Place = Place::Follow(1);

const SUM: Place = Place::Sum(1, 2);

fn run_of_follow(alloc: Global) -> Result<Job<Tiny>, NoMemory> {
    Job::begin(alloc, name_of(alloc, 3, FOLLOW, 8)?)
}

fn run_of_sum(alloc: Global) -> Result<Job<Tiny>, NoMemory> {
    Job::begin(alloc, name_of(alloc, 3, SUM, 0)?)
}

/// The last step of a run of `Follow(1)`, when cell 1 is 7 and cell 7 is `last`.
fn followed(alloc: Global, universe: &Tiny, last: u64) -> Result<Step<Tiny>, NoMemory> {
    let job = run_of_follow(alloc)?;
    run_to(alloc, universe, job, &[7], &[last])
}

/// The last step of a run of `Sum(1, 2)`, when cell 1 is 5 and cell 2 is 6.
fn summed(alloc: Global, universe: &Tiny) -> Result<Step<Tiny>, NoMemory> {
    let job = run_of_sum(alloc)?;
    run_to(alloc, universe, job, &[5, 6], &[])
}

/// A check of a number to which a run had come, as its last step tells.
fn check_of(
    alloc: Global,
    name: (u64, Place, u64),
    number: u64,
    run: &Step<Tiny>,
    base: u64,
) -> Result<Job<Tiny>, NoMemory> {
    let earlier = Earlier {
        value: Arc::new(alloc, Value::Number(number))?,
        trace: run.assignment().answered()?,
        base,
    };
    Job::check(alloc, name_of(alloc, name.0, name.1, name.2)?, earlier)
}

/// What a run of `Follow(1)` asks first.
fn first_asked(alloc: Global, universe: &Tiny) -> Result<Seen, NoMemory> {
    let job = run_of_follow(alloc)?;
    let step = advanced(job, universe)?;
    Ok(seen_of(&step))
}

/// What a run of `Follow(1)` asks next, when cell 1 is 7.
fn next_asked(alloc: Global, universe: &Tiny) -> Result<Seen, NoMemory> {
    let job = run_of_follow(alloc)?;
    let step = run_to(alloc, universe, job, &[7], &[])?;
    Ok(seen_of(&step))
}

/// Whether these are one key and this answer.
fn is_one(pairs: &[(Arc<Place>, Arc<Value>)], key: Place, value: Value) -> bool {
    match pairs {
        [(k, v)] => **k == key && **v == value,
        _ => false,
    }
}

/// Whether the step's answers are those of cell 1 and of the cell that it names.
fn has_followed(step: &Step<Tiny>) -> Result<bool, NoMemory> {
    let trace = step.assignment().answered()?;
    if trace.len() != 2 {
        return Ok(false);
    }
    Ok(
        is_one(trace.batch(0), Place::Cell(1), Value::Number(7))
            && is_one(trace.batch(1), Place::Cell(7), Value::Number(40)),
    )
}

#[test]
fn a_run_asks_its_batches_and_comes_to_its_value(rt: HostRuntime) -> Result<(), Fail> {
    let alloc = rt.alloc();
    let universe = Tiny::new(alloc)?;
    assert!(rt; first_asked(alloc, &universe)? == Seen::Asks(Place::Cell(1), 1));
    assert!(rt; next_asked(alloc, &universe)? == Seen::Asks(Place::Cell(7), 1));
    let last = followed(alloc, &universe, 40)?;
    assert!(rt; seen_of(&last) == Seen::Done(Value::Number(40)));
    assert!(rt; has_followed(&last)?);
    assert!(rt; last.into_parked().is_none());
    Ok(())
}

/// A job, and a copy of the name with which it was begun.
fn job_and_name(alloc: Global) -> Result<(Job<Tiny>, JobName<Tiny>), NoMemory> {
    let name = name_of(alloc, 3, FOLLOW, 8)?;
    let copy = name.try_clone()?;
    Ok((Job::begin(alloc, name)?, copy))
}

/// Whether a step has this name, and no earlier value.
fn has_name(step: &Step<Tiny>, name: &JobName<Tiny>) -> bool {
    let assignment = step.assignment();
    assignment.name().is_same(name) && assignment.earlier().is_none()
}

/// Whether a job and its step have the name with which it was begun.
fn name_is_kept(alloc: Global, universe: &Tiny) -> Result<bool, NoMemory> {
    let (job, name) = job_and_name(alloc)?;
    let kept = job.name().is_same(&name);
    let step = advanced(job, universe)?;
    Ok(kept && has_name(&step, &name))
}

/// Whether a name has its parts.
fn name_has_parts(alloc: Global) -> Result<bool, NoMemory> {
    let name = name_of(alloc, 3, FOLLOW, 8)?;
    Ok(name.version() == 3 && **name.key() == FOLLOW && name.born() == 8)
}

#[test]
fn a_job_and_its_step_have_its_name(rt: HostRuntime) -> Result<(), Fail> {
    let universe = Tiny::new(rt.alloc())?;
    assert!(rt; name_is_kept(rt.alloc(), &universe)?);
    assert!(rt; name_has_parts(rt.alloc())?);
    jobs_stay_true::<Tiny>();
    steps_tell_the_truth::<Tiny>();
    Ok(())
}

/// What a check of `Follow(1)` is for: its name, the earlier value, the last answer of its trace,
/// and the base.
type Checking = ((u64, Place, u64), u64, u64, u64);

const CHECKING: Checking = ((4, FOLLOW, 9), 40, 40, 3);

fn checking(alloc: Global, universe: &Tiny, row: &Checking) -> Result<Job<Tiny>, NoMemory> {
    let run = followed(alloc, universe, row.2)?;
    check_of(alloc, row.0, row.1, &run, row.3)
}

/// The answers to the first batch of a check, and to its second, and what then comes of it.
type CheckRow = (&'static [u64], &'static [u64], Seen);

const CHECKS: [CheckRow; 4] = [
    (&[8], &[], Seen::Differs(Place::Cell(1))),
    (&[7], &[], Seen::Asks(Place::Cell(7), 1)),
    (&[7], &[40], Seen::Same),
    (&[7], &[41], Seen::Differs(Place::Cell(7))),
];

/// Whether a check of `Follow(1)`, which was 40, goes as the row says.
fn check_goes(alloc: Global, universe: &Tiny, row: &CheckRow) -> Result<bool, NoMemory> {
    let job = checking(alloc, universe, &CHECKING)?;
    let step = run_to(alloc, universe, job, row.0, row.1)?;
    Ok(seen_of(&step) == row.2)
}

#[test]
fn a_check_goes_from_batch_to_batch_up_to_the_first_change(rt: HostRuntime) -> Result<(), Fail> {
    let universe = Tiny::new(rt.alloc())?;
    for row in &CHECKS {
        assert!(rt; check_goes(rt.alloc(), &universe, row)?);
    }
    Ok(())
}

/// What comes of a check of `Sum(1, 2)` with other answers than those of this run.
fn check_of_sum(alloc: Global, universe: &Tiny, run: &Step<Tiny>) -> Result<Seen, NoMemory> {
    let job = check_of(alloc, (4, SUM, 9), 11, run, 3)?;
    let step = run_to(alloc, universe, job, &[4, 7], &[])?;
    Ok(seen_of(&step))
}

#[test]
fn a_check_names_the_first_key_that_has_changed(rt: HostRuntime) -> Result<(), Fail> {
    let universe = Tiny::new(rt.alloc())?;
    let run = summed(rt.alloc(), &universe)?;
    assert!(rt; seen_of(&run) == Seen::Done(Value::Number(11)));
    assert!(rt; check_of_sum(rt.alloc(), &universe, &run)? == Seen::Differs(Place::Cell(1)));
    Ok(())
}

/// Checks that are not that of `CHECKING`.
const OTHERS: [Checking; 6] = [
    ((5, FOLLOW, 9), 40, 40, 3),
    ((4, Place::Follow(2), 9), 40, 40, 3),
    ((4, FOLLOW, 10), 40, 40, 3),
    ((4, FOLLOW, 9), 41, 40, 3),
    ((4, FOLLOW, 9), 40, 41, 3),
    ((4, FOLLOW, 9), 40, 40, 2),
];

/// Whether the step is of the assignment of this check.
fn is_of_check(
    alloc: Global,
    universe: &Tiny,
    step: &Step<Tiny>,
    row: &Checking,
) -> Result<bool, NoMemory> {
    let job = checking(alloc, universe, row)?;
    let assignment = job.assignment().try_clone()?;
    Ok(step.is_of(&assignment))
}

#[test]
fn a_step_is_of_the_one_assignment_with_its_name_and_work(rt: HostRuntime) -> Result<(), Fail> {
    let universe = Tiny::new(rt.alloc())?;
    let job = checking(rt.alloc(), &universe, &CHECKING)?;
    let step = advanced(job, &universe)?;
    assert!(rt; is_of_check(rt.alloc(), &universe, &step, &CHECKING)?);
    for row in &OTHERS {
        assert!(rt; !is_of_check(rt.alloc(), &universe, &step, row)?);
    }
    Ok(())
}

/// Whether the step is of the assignment of a run whose last answer is this.
fn is_of_run(
    alloc: Global,
    universe: &Tiny,
    step: &Step<Tiny>,
    last: u64,
) -> Result<bool, NoMemory> {
    let run = followed(alloc, universe, last)?;
    Ok(step.is_of(run.assignment()))
}

/// Whether the step is of the assignment of a run that has no answers yet.
fn is_of_new_run(alloc: Global, step: &Step<Tiny>) -> Result<bool, NoMemory> {
    let job = run_of_follow(alloc)?;
    Ok(step.is_of(job.assignment()))
}

#[test]
fn a_step_is_not_of_an_assignment_with_other_answers(rt: HostRuntime) -> Result<(), Fail> {
    let universe = Tiny::new(rt.alloc())?;
    let run = followed(rt.alloc(), &universe, 40)?;
    assert!(rt; run.is_of(run.assignment()));
    assert!(rt; !is_of_run(rt.alloc(), &universe, &run, 41)?);
    assert!(rt; !is_of_new_run(rt.alloc(), &run)?);
    Ok(())
}
