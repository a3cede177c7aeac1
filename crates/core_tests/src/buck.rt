//! The core on the universe of Buck targets: commits, and calls one after another, with what they
//! answer and what stands after each.
use crate::bench::{Bench, Call, Outcome};
use crate::buck::Act::{Commit, Do};
use action_digest::{Buck, Contents, Key, Value};
use buck_label::{Label, Path, Text};
use dice_core::{Core, Polled};
use dice_key::NoMemory;
use journal::Event;
use std::alloc::Global;
use std::sync::Arc;
use std::test::Fail;

const FILE: &[u8] = b"write_file(name = \"w\", out = \"w.txt\", content = \"abc\")\n";

/// The keys of the tests.
#[derive(Clone, Copy)]
enum Name {
    /// The target file of the package `a`.
    File,
    /// A source that is never set.
    Unset,
    /// The rule of `//a:w`.
    Rule,
    /// The digest of `//a:w`.
    Digest,
}

fn label(alloc: Global) -> Result<Label, NoMemory> {
    Label::read(alloc, b"//a:w").map_err(|_| NoMemory)
}

fn source(alloc: Global, path: &[u8]) -> Result<Key, NoMemory> {
    let path = Path::read(alloc, path).map_err(|_| NoMemory)?;
    Ok(Key::Source(path))
}

fn key(alloc: Global, name: Name) -> Result<Arc<Key>, NoMemory> {
    let key = match name {
        Name::File => source(alloc, b"a/BUCK")?,
        Name::Unset => source(alloc, b"a/f")?,
        Name::Rule => Key::Rule(label(alloc)?),
        Name::Digest => Key::Digest(label(alloc)?),
    };
    Ok(Arc::new(alloc, key)?)
}

/// The target file's bytes.
fn file(alloc: Global) -> Result<Arc<Value>, NoMemory> {
    let bytes = Text::from_slice(alloc, FILE)?;
    let contents = Contents::new(alloc, bytes);
    Ok(Arc::new(alloc, Value::Source(Some(contents)))?)
}

type Change = (Arc<Key>, Arc<Value>);

/// The same change so many times.
fn changes(alloc: Global, name: Name, times: usize) -> Result<Vec<Change>, NoMemory> {
    let mut changes = Vec::new(alloc);
    for _ in 0..times {
        changes.push((key(alloc, name)?, file(alloc)?))?;
    }
    Ok(changes)
}

fn new_bench(alloc: Global) -> Result<Bench<Buck>, NoMemory> {
    let universe = Arc::new(alloc, Buck::new(alloc)?)?;
    Bench::new(alloc, universe)
}

/// A change and how often it stands in a commit, what the commit answers, and the number of events
/// then.
type CommitRow = (Name, usize, Outcome, usize);

const COMMITS: [CommitRow; 4] = [
    (Name::Rule, 1, Outcome::NotInjected, 0),
    (Name::File, 2, Outcome::Twice, 0),
    (Name::File, 1, Outcome::Version(1), 1),
    (Name::File, 1, Outcome::Version(1), 1),
];

/// Commits what a row says; whether it is answered as the row says.
fn commit_agrees(
    alloc: Global,
    bench: &mut Bench<Buck>,
    row: &CommitRow,
) -> Result<bool, NoMemory> {
    let (name, times, answer, events) = *row;
    let changes = changes(alloc, name, times)?;
    let left = bench.commit(&changes)?;
    Ok(left == answer && bench.core.journal().len() == events)
}

/// The number of the first commit that is answered otherwise than its row says.
fn first_other_commit(alloc: Global, rows: &[CommitRow]) -> Result<Option<usize>, NoMemory> {
    let mut bench = new_bench(alloc)?;
    for i in 0..rows.len() {
        if !commit_agrees(alloc, &mut bench, &rows[i])? {
            return Ok(Some(i));
        }
    }
    Ok(None)
}

#[test]
fn commits_of_sources(rt: HostRuntime) -> Result<(), Fail> {
    assert!(rt; first_other_commit(rt.alloc(), &COMMITS)? == None);
    Ok(())
}

/// What a key has come to.
#[derive(Clone, Copy, PartialEq)]
enum Seen {
    Value,
    NoFile,
    Cycle,
    Lost,
    Pending,
    Absent,
}

fn seen_of(polled: Polled<'_, Buck>) -> Seen {
    match polled {
        Polled::Value(value) => match **value {
            Value::Source(None) => Seen::NoFile,
            _ => Seen::Value,
        },
        Polled::Cycle(_) => Seen::Cycle,
        Polled::Lost => Seen::Lost,
        Polled::Pending => Seen::Pending,
        Polled::Absent => Seen::Absent,
    }
}

/// What a key has come to at the newest version.
fn polled(alloc: Global, core: &Core<Buck>, name: Name) -> Result<Seen, NoMemory> {
    let key = key(alloc, name)?;
    Ok(seen_of(core.poll(core.newest(), &key)))
}

/// What is done on a core: the target file is set, or another call is made.
#[derive(Clone, Copy)]
enum Act {
    /// Whether it is not refused.
    Commit,
    Do(Call),
}

/// What is done and what it answers; then a key, which an ask is for, and what it has come to at
/// the newest version; and the tasks that are ready and out.
type Row = (Act, bool, Name, Seen, u64, u64);

fn commit_file(alloc: Global, bench: &mut Bench<Buck>) -> Result<bool, NoMemory> {
    let changes = changes(alloc, Name::File, 1)?;
    let made = bench.commit(&changes)?;
    Ok(matches!(made, Outcome::Version(_)))
}

fn answer(alloc: Global, bench: &mut Bench<Buck>, act: Act, name: Name) -> Result<bool, NoMemory> {
    match act {
        Commit => commit_file(alloc, bench),
        Do(call) => bench.carry_out(call, key(alloc, name)?),
    }
}

/// Does what a row says; whether it answers, and all stands then, as the row says.
fn agrees(alloc: Global, bench: &mut Bench<Buck>, row: &Row) -> Result<bool, NoMemory> {
    let (act, told, name, seen, ready, out) = *row;
    let answered = answer(alloc, bench, act, name)?;
    let left = polled(alloc, &bench.core, name)?;
    Ok(answered == told && left == seen && bench.counts() == (ready, out))
}

/// Goes through these rows on a new core; the number of the first that says otherwise.
fn first_other(alloc: Global, rows: &[Row]) -> Result<Option<usize>, NoMemory> {
    let mut bench = new_bench(alloc)?;
    for i in 0..rows.len() {
        if !agrees(alloc, &mut bench, &rows[i])? {
            return Ok(Some(i));
        }
    }
    Ok(None)
}

const DIGEST: Name = Name::Digest;

/// A step of an ask that was left.
const STALE: [Row; 9] = [
    (Commit, true, DIGEST, Seen::Absent, 0, 0),
    (Do(Call::Open), true, DIGEST, Seen::Absent, 0, 0),
    (Do(Call::Ask), true, DIGEST, Seen::Pending, 1, 0),
    (Do(Call::Take), true, DIGEST, Seen::Pending, 0, 1),
    (Do(Call::Advance), true, DIGEST, Seen::Pending, 0, 1),
    (Do(Call::Leave), true, DIGEST, Seen::Absent, 0, 0),
    (Do(Call::Give), true, DIGEST, Seen::Absent, 0, 0),
    (Do(Call::Take), false, DIGEST, Seen::Absent, 0, 0),
    (Do(Call::Fail), false, DIGEST, Seen::Absent, 0, 0),
];

/// A step of a transaction that was closed, after another one was opened and its key asked for
/// again.
const STALE_ANEW: [Row; 9] = [
    (Commit, true, DIGEST, Seen::Absent, 0, 0),
    (Do(Call::Open), true, DIGEST, Seen::Absent, 0, 0),
    (Do(Call::Ask), true, DIGEST, Seen::Pending, 1, 0),
    (Do(Call::Take), true, DIGEST, Seen::Pending, 0, 1),
    (Do(Call::Advance), true, DIGEST, Seen::Pending, 0, 1),
    (Do(Call::Close), true, DIGEST, Seen::Absent, 0, 0),
    (Do(Call::Open), true, DIGEST, Seen::Absent, 0, 0),
    (Do(Call::Ask), true, DIGEST, Seen::Pending, 1, 0),
    (Do(Call::Give), true, DIGEST, Seen::Pending, 1, 0),
];

/// A job that is brought back, and one whose ask was left.
const BACK: [Row; 8] = [
    (Commit, true, DIGEST, Seen::Absent, 0, 0),
    (Do(Call::Open), true, DIGEST, Seen::Absent, 0, 0),
    (Do(Call::Ask), true, DIGEST, Seen::Pending, 1, 0),
    (Do(Call::Take), true, DIGEST, Seen::Pending, 0, 1),
    (Do(Call::Back), false, DIGEST, Seen::Pending, 1, 0),
    (Do(Call::Take), true, DIGEST, Seen::Pending, 0, 1),
    (Do(Call::Leave), true, DIGEST, Seen::Absent, 0, 0),
    (Do(Call::Back), true, DIGEST, Seen::Absent, 0, 0),
];

/// A source that was never set has a value without a job.
const UNSET: [Row; 3] = [
    (Do(Call::Open), true, Name::Unset, Seen::NoFile, 0, 0),
    (Do(Call::Ask), true, Name::Unset, Seen::NoFile, 0, 0),
    (Do(Call::Take), false, Name::Unset, Seen::NoFile, 0, 0),
];

/// A task that was given up is made anew by the next ask.
const LOST: [Row; 6] = [
    (Commit, true, DIGEST, Seen::Absent, 0, 0),
    (Do(Call::Open), true, DIGEST, Seen::Absent, 0, 0),
    (Do(Call::Ask), true, DIGEST, Seen::Pending, 1, 0),
    (Do(Call::Take), true, DIGEST, Seen::Pending, 0, 1),
    (Do(Call::Fail), true, DIGEST, Seen::Lost, 0, 0),
    (Do(Call::Ask), true, DIGEST, Seen::Pending, 1, 0),
];

#[test]
fn a_step_of_an_ask_that_was_left_is_stale(rt: HostRuntime) -> Result<(), Fail> {
    assert!(rt; first_other(rt.alloc(), &STALE)? == None);
    Ok(())
}

#[test]
fn a_step_of_a_transaction_that_was_closed_is_stale(rt: HostRuntime) -> Result<(), Fail> {
    assert!(rt; first_other(rt.alloc(), &STALE_ANEW)? == None);
    Ok(())
}

#[test]
fn a_job_is_brought_back_while_it_is_out(rt: HostRuntime) -> Result<(), Fail> {
    assert!(rt; first_other(rt.alloc(), &BACK)? == None);
    Ok(())
}

#[test]
fn a_source_that_was_never_set_has_no_file(rt: HostRuntime) -> Result<(), Fail> {
    assert!(rt; first_other(rt.alloc(), &UNSET)? == None);
    Ok(())
}

#[test]
fn a_task_that_was_given_up_is_made_anew(rt: HostRuntime) -> Result<(), Fail> {
    assert!(rt; first_other(rt.alloc(), &LOST)? == None);
    Ok(())
}

/// How many tasks were given up.
fn lost_events(core: &Core<Buck>) -> usize {
    let journal = core.journal();
    let mut lost = 0usize;
    for i in 0..journal.len() {
        if let Event::Lost(_, _) = journal.event(i) {
            lost = lost.saturating_add(1);
        }
    }
    lost
}

/// Asks for the digest, and gives up the job that follows so many that were done; how many tasks
/// ended as lost.
fn lost_behind(alloc: Global, bench: &mut Bench<Buck>, before: usize) -> Result<usize, NoMemory> {
    commit_file(alloc, bench)?;
    for call in [Call::Open, Call::Ask] {
        bench.carry_out(call, key(alloc, DIGEST)?)?;
    }
    bench.work(before)?;
    bench.take()?;
    bench.fail();
    Ok(lost_events(&bench.core))
}

/// Asks for the digest again and does all jobs; how many there were, and what the digest has come
/// to.
fn asked_again(alloc: Global, bench: &mut Bench<Buck>) -> Result<(usize, Seen), NoMemory> {
    bench.ask(key(alloc, DIGEST)?)?;
    let done = bench.work(20)?;
    Ok((done, polled(alloc, &bench.core, DIGEST)?))
}

/// So many jobs are done and the next is given up: how many tasks end as lost, and how many jobs
/// then bring the value after a second ask.
type LostRow = (usize, usize, usize);

const LOSSES: [LostRow; 8] = [
    (0, 1, 8),
    (1, 2, 8),
    (2, 3, 8),
    (3, 4, 8),
    (4, 4, 8),
    (5, 3, 6),
    (6, 2, 4),
    (7, 1, 2),
];

/// Whether all goes as a row says, on a new core.
fn loss_agrees(alloc: Global, row: &LostRow) -> Result<bool, NoMemory> {
    let (before, lost, further) = *row;
    let mut bench = new_bench(alloc)?;
    let left = lost_behind(alloc, &mut bench, before)?;
    let (done, seen) = asked_again(alloc, &mut bench)?;
    Ok(left == lost && done == further && seen == Seen::Value)
}

/// The number of the first row that says otherwise.
fn first_other_loss(alloc: Global, rows: &[LostRow]) -> Result<Option<usize>, NoMemory> {
    for i in 0..rows.len() {
        if !loss_agrees(alloc, &rows[i])? {
            return Ok(Some(i));
        }
    }
    Ok(None)
}

#[test]
fn a_lost_job_hurts_only_those_that_wait_for_it(rt: HostRuntime) -> Result<(), Fail> {
    assert!(rt; first_other_loss(rt.alloc(), &LOSSES)? == None);
    Ok(())
}
