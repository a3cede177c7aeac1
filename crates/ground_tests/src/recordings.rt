//! Recording and checking on the example universe.
ghost use Rattle.std.specs.Prelude.{◌≡◌, length, None, IfOk, OnOk};

use dep_recorder::{
    Check, Next, Recorder, Trace, checks_are_exact, copied_keys, recordings_go_with_runs,
};
use dice_key::{Answers, Batch, NoMemory};
use std::alloc::Global;
use std::sync::Arc;
use std::test::Fail;
use tiny_universe::{Place, Tiny, Value};

fn answer_of(alloc: Global, number: u64) -> Result<Answers<Value>, NoMemory>
    ensures { IfOk result (λ a. length a ≡ 1) }
{
    let mut answers = Answers::new(alloc);
    answers.push(Arc::new(alloc, Value::Number(number))?)?;
    Ok(answers)
}

fn two_answers_of(alloc: Global, first: u64, second: u64) -> Result<Answers<Value>, NoMemory>
    ensures { IfOk result (λ a. length a ≡ 2) }
{
    let mut answers = answer_of(alloc, first)?;
    answers.push(Arc::new(alloc, Value::Number(second))?)?;
    Ok(answers)
}

fn cell(alloc: Global, cell: u32) -> Result<Batch<Place>, NoMemory>
    ensures { IfOk result (λ b. length b ≡ 1) }
{
    Ok(Batch::one(alloc, Arc::new(alloc, Place::Cell(cell))?))
}

fn two_cells(alloc: Global, first: u32, second: u32) -> Result<Batch<Place>, NoMemory>
    ensures { IfOk result (λ b. length b ≡ 2) }
{
    let mut batch = cell(alloc, first)?;
    batch.push(Arc::new(alloc, Place::Cell(second))?)?;
    Ok(batch)
}

/// Records one batch with its answers.
fn record(
    recorder: &mut Recorder<Tiny>,
    batch: Batch<Place>,
    answers: Answers<Value>,
) -> Result<(), NoMemory>
    requires none { recorder.old.asked ≡ None }
    requires length { length answers ≡ length batch }
    ensures { OnOk result (recorder.new.asked ≡ None) }
{
    recorder.ask(batch)?;
    recorder.answer(answers)
}

/// Records that cell 1 is 5.
fn record_first(alloc: Global, recorder: &mut Recorder<Tiny>) -> Result<(), NoMemory>
    requires { recorder.old.asked ≡ None }
    ensures { OnOk result (recorder.new.asked ≡ None) }
{
    let batch = cell(alloc, 1)?;
    record(recorder, batch, answer_of(alloc, 5)?)
}

/// Records that cell 2 is 7 and cell 3 is `last`.
fn record_second(alloc: Global, recorder: &mut Recorder<Tiny>, last: u64) -> Result<(), NoMemory>
    requires { recorder.old.asked ≡ None }
    ensures { OnOk result (recorder.new.asked ≡ None) }
{
    let batch = two_cells(alloc, 2, 3)?;
    record(recorder, batch, two_answers_of(alloc, 7, last)?)
}

/// Cell 1 is 5; then cell 2 is 7 and cell 3 is `last`.
fn trace_of(alloc: Global, last: u64) -> Result<Trace<Tiny>, NoMemory> {
    let mut recorder = Recorder::new(alloc);
    record_first(alloc, &mut recorder)?;
    record_second(alloc, &mut recorder, last)?;
    Ok(recorder.finish())
}

/// Feeds the check if it wants as many answers.
fn feed(check: &mut Check<Tiny>, answers: Answers<Value>) -> bool {
    if let Next::Want(batch) = check.next()
        && batch.len() == answers.len()
    {
        check.feed(answers);
        return true;
    }
    false
}

/// What a check wants or finds: the first key and the number of keys that it wants, or the key that
/// has changed with its values.
#[derive(Clone, Copy, PartialEq, Eq)]
enum State {
    Wants(Place, usize),
    Same,
    Changed(Place, Value, Value),
    WantsNothing,
}

fn state_of(alloc: Global, check: &Check<Tiny>) -> Result<State, NoMemory> {
    match check.next() {
        Next::Want(batch) if batch.len() > 0 => {
            let keys = copied_keys(alloc, batch)?;
            Ok(match keys.keys() {
                [first, ..] => State::Wants(**first, keys.len()),
                [] => State::WantsNothing,
            })
        }
        Next::Want(_) => Ok(State::WantsNothing),
        Next::Same => Ok(State::Same),
        Next::Differs { dep, was, now } => Ok(State::Changed(**dep, **was, **now)),
    }
}

fn is_pair(pair: &(Arc<Place>, Arc<Value>), want: &(Place, Value)) -> bool {
    *pair.0 == want.0 && *pair.1 == want.1
}

/// Whether a batch of the trace has these keys with these answers.
fn has(trace: &Trace<Tiny>, batch: usize, want: &[(Place, Value)]) -> bool {
    if batch >= trace.len() || trace.batch(batch).len() != want.len() {
        return false;
    }
    for (pair, row) in trace.batch(batch).iter().zip(want) {
        if !is_pair(pair, row) {
            return false;
        }
    }
    true
}

/// Whether the trace is that in which cell 3 is `last`.
fn is_that_of(alloc: Global, trace: &Trace<Tiny>, last: u64) -> Result<bool, NoMemory> {
    Ok(trace.is_same(&trace_of(alloc, last)?))
}

/// Whether a recorder begins with no batch, which is not what the trace has.
fn begins_otherwise(alloc: Global, trace: &Trace<Tiny>) -> bool {
    let recorder = Recorder::new(alloc);
    recorder.answered().len() == 0 && !trace.is_same(recorder.answered())
}

const FIRST: [(Place, Value); 1] = [(Place::Cell(1), Value::Number(5))];

const SECOND: [(Place, Value); 2] = [
    (Place::Cell(2), Value::Number(7)),
    (Place::Cell(3), Value::Number(9)),
];

#[test]
fn a_trace_has_the_batches_and_answers_in_order(rt: HostRuntime) -> Result<(), Fail> {
    let alloc = rt.alloc();
    let trace = trace_of(alloc, 9)?;
    assert!(rt; trace.len() == 2);
    assert!(rt; has(&trace, 0, &FIRST) && has(&trace, 1, &SECOND));
    assert!(rt; is_that_of(alloc, &trace, 9)?);
    assert!(rt; !is_that_of(alloc, &trace, 8)?);
    assert!(rt; begins_otherwise(alloc, &trace));
    recordings_go_with_runs::<Tiny>();
    Ok(())
}

/// The trace with one batch more: cell 4 is 6.
fn longer(alloc: Global, trace: &Trace<Tiny>) -> Result<Trace<Tiny>, NoMemory> {
    trace.extended(alloc, &cell(alloc, 4)?, &answer_of(alloc, 6)?)
}

#[test]
fn an_extended_trace_has_one_batch_more(rt: HostRuntime) -> Result<(), Fail> {
    let alloc = rt.alloc();
    let trace = trace_of(alloc, 9)?;
    let longer = longer(alloc, &trace)?;
    assert!(rt; longer.len() == 3 && trace.len() == 2);
    assert!(rt; has(&longer, 2, &[(Place::Cell(4), Value::Number(6))]));
    assert!(rt; !longer.is_same(&trace));
    Ok(())
}

/// The answers to the first and to the second batch of a trace, and what its check then wants or
/// finds.
type Row = (u64, Option<(u64, u64)>, State);

const ROWS: [Row; 5] = [
    (5, None, State::Wants(Place::Cell(2), 2)),
    (
        6,
        None,
        State::Changed(Place::Cell(1), Value::Number(5), Value::Number(6)),
    ),
    (5, Some((7, 9)), State::Same),
    (
        5,
        Some((8, 10)),
        State::Changed(Place::Cell(2), Value::Number(7), Value::Number(8)),
    ),
    (
        5,
        Some((7, 10)),
        State::Changed(Place::Cell(3), Value::Number(9), Value::Number(10)),
    ),
];

/// Whether the check takes the answers of the row.
fn feed_row(alloc: Global, check: &mut Check<Tiny>, row: &Row) -> Result<bool, NoMemory> {
    if !feed(check, answer_of(alloc, row.0)?) {
        return Ok(false);
    }
    match row.1 {
        Some((second, third)) => Ok(feed(check, two_answers_of(alloc, second, third)?)),
        None => Ok(true),
    }
}

/// Whether a new check goes as the row says.
fn goes(alloc: Global, check: &mut Check<Tiny>, row: &Row) -> Result<bool, NoMemory> {
    let begun = state_of(alloc, check)? == State::Wants(Place::Cell(1), 1);
    let fed = feed_row(alloc, check, row)?;
    Ok(begun && fed && state_of(alloc, check)? == row.2)
}

#[test]
fn a_check_goes_from_batch_to_batch_up_to_the_first_change(rt: HostRuntime) -> Result<(), Fail> {
    let alloc = rt.alloc();
    let trace = Arc::new(alloc, trace_of(alloc, 9)?)?;
    for row in &ROWS {
        let mut check = Check::new(Arc::try_clone(&trace)?);
        assert!(rt; goes(alloc, &mut check, row)?);
    }
    let empty = Check::<Tiny>::new(Arc::new(alloc, Trace::new(alloc))?);
    assert!(rt; state_of(alloc, &empty)? == State::Same);
    checks_are_exact::<Tiny>();
    Ok(())
}
