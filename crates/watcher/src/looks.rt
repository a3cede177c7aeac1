//! The benchmark: readers that look all the time, beside one builder.
ghost use Rattle.std.specs.Prelude.{◌≤◌, ◌<◌};
ghost use Rattle.dice_engine.specs.Seats.{IsSeatOf, IsWriter};

use crate::beside::beside;
use crate::build::{SUM, build};
use anyhow::Result;
use dice_engine::{Engine, Reader, Seat, Transaction};
use dice_key::{NoMemory, Universe};
use std::alloc::Global;
use std::io::Print;
use std::sync::atomic::{AtomicBool, Ordering};
use std::sync::{Arc, Wait};
use std::thread::{Threads, map_vec};
use std::time::{Clock, Instant};
use tiny_universe::Tiny;

/// How many versions are built.
const VERSIONS: u64 = 50_000;

/// How many looks a reader made, and how many of them found a value.
#[derive(Clone, Copy)]
struct Looks {
    made: u64,
    found: u64,
}

/// Prints how long a builder takes whose readers do not look. Then it prints how long one takes
/// beside as many readers that look all the time, each in a thread of its own, and what these did.
pub(crate) fn measure<R: Print + Threads + Wait + Clock + Sync>(
    rt: &R,
    alloc: Global,
    count: u32,
) -> Result<()> {
    let count = count.max(1);
    let (alone, _) = timed(rt, alloc, count, 0)?;
    let (beside, all) = timed(rt, alloc, count, count)?;
    println!(rt; "builder {alone} microseconds alone, {beside} beside readers")?;
    for looks in &all {
        println!(rt; "reader {} looks, {} found", looks.made, looks.found)?;
    }
    Ok(())
}

/// Builds the versions on an engine of its own with so many readers, of which so many look. It
/// answers how many microseconds that took, and what each of these did.
fn timed<R: Threads + Wait + Clock + Sync>(
    rt: &R,
    alloc: Global,
    count: u32,
    looking: u32,
) -> Result<(u128, Vec<Looks>)>
    requires { 0 < count }
{
    let universe = Arc::new(alloc, Tiny::new(alloc)?)?;
    let (engine, seat, mut readers) = Engine::with_readers(rt, alloc, universe, 1, count)?;
    readers.truncate(looking as usize);
    let start = Instant::now(rt)?;
    let (seat, looks, built) = build_beside(rt, alloc, &engine, seat, readers);
    let micros = start.elapsed(rt)?.as_micros();
    engine.end(rt, seat);
    built?;
    Ok((micros, looks?))
}

/// Builds the versions in this thread, while the readers look. The seat comes back.
fn build_beside<R: Threads + Wait + Sync>(
    rt: &R,
    alloc: Global,
    engine: &Engine<Tiny>,
    seat: Seat<Tiny>,
    readers: Vec<Reader<Tiny>>,
) -> (
    Seat<Tiny>,
    Result<Vec<Looks>, NoMemory>,
    Result<(), NoMemory>,
)
    requires { IsSeatOf engine.now seat × IsWriter seat }
    ensures { IsSeatOf engine.now result.0 }
{
    let done = AtomicBool::new(false);
    let over = &done;
    let (looks, (seat, built)) = beside(
        rt,
        readers,
        &|readers: Vec<Reader<Tiny>>| -> Result<Vec<Looks>, NoMemory> {
            each(
                rt,
                readers,
                &|reader: Reader<Tiny>| -> Looks { looks_of(rt, engine, reader, &SUM, over) },
            )
        },
        move || -> (Seat<Tiny>, Result<(), NoMemory>)
            requires { IsSeatOf engine.now seat × IsWriter seat }
            ensures { IsSeatOf engine.entry.now result.0 }
        {
            let mut seat = seat;
            let built = build(rt, alloc, engine, &mut seat, VERSIONS);
            over.store(true, Ordering::Release);
            (seat, built)
        },
    );
    (seat, looks, built)
}

/// What `work` comes to on each of these, in a thread of its own.
fn each<R: Threads + Sync, S: Send + Drop, A: Send + Drop, W: Fn(S) -> A + Sync>(
    rt: &R,
    all: Vec<S>,
    work: &W,
) -> Result<Vec<A>, NoMemory>
    requires { (s : S) → W.pre work.now s }
{
    match map_vec(rt, all, work) {
        Ok(answers) => Ok(answers),
        Err(_) => Err(NoMemory),
    }
}

/// Looks in turn for the value of a key at the next version and at the newest one that was found,
/// until the builder is done.
fn looks_of<U: Universe, R: Wait>(
    rt: &R,
    engine: &Engine<U>,
    mut reader: Reader<U>,
    key: &U::Key,
    done: &AtomicBool,
) -> Looks
    ensures { result.found ≤ result.made }
{
    let mut looks = Looks { made: 0, found: 0 };
    let mut newest = 0u64;
    for _ in rt.forever() {
        if done.load(Ordering::Acquire) {
            return looks;
        }
        let next = newest.saturating_add(1);
        if look(engine, &mut reader, next, key, &mut looks) {
            newest = next;
        }
        look(engine, &mut reader, newest, key, &mut looks);
    }
    unreachable!()
}

/// Looks once, counts it, and answers whether there was a value.
fn look<U: Universe>(
    engine: &Engine<U>,
    reader: &mut Reader<U>,
    version: u64,
    key: &U::Key,
    looks: &mut Looks,
) -> bool
    requires { looks.old.found ≤ looks.old.made }
    ensures { looks.new.found ≤ looks.new.made }
{
    let transaction = Transaction { version, opened: 0 };
    let found = matches!(engine.quick(reader, &transaction, key), Ok(Some(_)));
    looks.made = looks.made.saturating_add(1);
    if found {
        looks.found = looks.found.saturating_add(1);
    }
    found
}
