//! Jobs that are numbers, put and taken.
ghost use Rattle.std.specs.Prelude.{◌≡◌, ℕ, ◌+◌, ◌^◌, ◌<◌, ◌≤◌, ◌++◌, length, IfOk};
ghost use Rattle.lists.specs.Lists.{AreDistinct};

use job_line::{JobLine, Pass, Putter};
use std::alloc::{AllocError, Global};
use std::sync::Wait;
use std::sync::atomic::{AtomicBool, Ordering};
use std::test::Fail;
use std::thread;
use std::thread::{Threads, join};

/// A job, or the order to stop.
type Order = Option<u64>;

// What two passes took, each once, once they are one.
fn places_of_both<R: Wait>(
    rt: &R,
    line: &JobLine<Order>,
    pass: &mut Pass<Order>,
    other: Pass<Order>,
) -> usize
    requires { (pass.old.line ≡ line.now) × (other.line ≡ line.now) }
    ensures { AreDistinct (pass.old.places ++ other.places) }
{
    line.join(pass, other);
    line.left(rt, pass)
}

#[test]
fn jobs_come_out_in_the_order_in_which_they_were_put(rt: HostRuntime) -> Result<(), Fail> {
    let (line, mut putter, mut pass) = JobLine::<Order>::new(rt.alloc())?;
    let put = line.put(&rt, &mut putter, Some(5)).is_ok()
        && line.put(&rt, &mut putter, Some(6)).is_ok();
    let mut other = line.split(&mut pass)?;
    let two = line.left(&rt, &mut pass);
    let first = line.take(&rt, &mut pass);
    let second = line.take(&rt, &mut other);
    let third = line.take(&rt, &mut pass);
    let counts = (putter.puts(), pass.empties(), other.empties());
    let none = places_of_both(&rt, &line, &mut pass, other);
    assert!(rt; put && two == 2 && none == 0);
    assert!(rt; first == Some(Some(5)) && second == Some(Some(6)) && third.is_none());
    assert!(rt; counts == (2, 1, 0) && pass.empties() == 1);
    Ok(())
}

#[test]
fn jobs_that_are_left_end_with_the_line(rt: HostRuntime) -> Result<(), Fail> {
    let (line, mut putter, pass) = JobLine::<Order>::new(rt.alloc())?;
    let mut put = 0u64;
    for n in 0..100u64 {
        if putter.puts() < 100 && line.put(&rt, &mut putter, Some(n)).is_ok() {
            put = putter.puts();
        }
    }
    drop((pass, putter));
    drop(line);
    assert!(rt; put == 100);
    Ok(())
}

const JOBS: u64 = 10_000;

// Puts the numbers below `JOBS`, and then two orders to stop. Answers whether all were put.
fn put_all<R: Wait>(rt: &R, line: &JobLine<Order>, mut putter: Putter<Order>) -> bool
    requires { putter.line ≡ line.now }
{
    for n in 0..JOBS + 2 {
        let job = if n < JOBS { Some(n) } else { None };
        if putter.puts() > JOBS + 2 || line.put(rt, &mut putter, job).is_err() {
            return false;
        }
    }
    true
}

// Takes jobs up to an order to stop, and answers them. If the line is empty after the putter has
// ended, the order could not be put.
fn take_all<R: Wait>(
    rt: &R,
    alloc: Global,
    line: &JobLine<Order>,
    ended: &AtomicBool,
    mut pass: Pass<Order>,
) -> (Pass<Order>, Result<Vec<u64>, AllocError>)
    requires { pass.line ≡ line.now }
    ensures { result.0.line ≡ line.entry.now }
{
    let mut taken = Vec::new(alloc);
    for _ in rt.forever() {
        let last = ended.load(Ordering::Acquire);
        match line.take(rt, &mut pass) {
            Some(Some(job)) => {
                if taken.push(job).is_err() {
                    return (pass, Err(AllocError));
                }
            }
            Some(None) => return (pass, Ok(taken)),
            None if last => return (pass, Err(AllocError)),
            None => thread::yield_now(),
        }
    }
    unreachable!()
}

type Takers = (Pass<Order>, Result<Vec<u64>, AllocError>);

// One thread puts, and two take. The one that puts stands last: if no thread can be made for the
// others, it goes first.
fn take_in_two_threads<R: Wait + Threads + Sync>(
    rt: &R,
    alloc: Global,
) -> Result<(Vec<u64>, Vec<u64>, bool), AllocError> {
    let Ok((line, putter, mut pass)) = JobLine::<Order>::new(alloc) else {
        return Err(AllocError);
    };
    let Ok(other) = line.split(&mut pass) else {
        return Err(AllocError);
    };
    let over = AtomicBool::new(false);
    let (shared, ended) = (&line, &over);
    let ((one, two), put) = join(
        rt,
        move || -> (Takers, Takers)
            requires { (pass.line ≡ shared.now) × (other.line ≡ shared.now) }
            ensures { (result.0.0.line ≡ shared.entry.now) × (result.1.0.line ≡ shared.entry.now) }
        { take_twice(rt, alloc, shared, ended, pass, other) },
        move || -> bool
            requires { putter.line ≡ shared.now }
        {
            let put = put_all(rt, shared, putter);
            ended.store(true, Ordering::Release);
            put
        },
    );
    let ((mut pass, first), (other, second)) = (one, two);
    let none = places_of_both(rt, &line, &mut pass, other);
    Ok((first?, second?, put && none == 0))
}

fn take_twice<R: Wait + Threads + Sync>(
    rt: &R,
    alloc: Global,
    line: &JobLine<Order>,
    ended: &AtomicBool,
    pass: Pass<Order>,
    other: Pass<Order>,
) -> (Takers, Takers)
    requires { (pass.line ≡ line.now) × (other.line ≡ line.now) }
    ensures { (result.0.0.line ≡ line.entry.now) × (result.1.0.line ≡ line.entry.now) }
{
    join(
        rt,
        move || -> Takers
            requires { pass.line ≡ line.now }
            ensures { result.0.line ≡ line.entry.now }
        { take_all(rt, alloc, line, ended, pass) },
        move || -> Takers
            requires { other.line ≡ line.now }
            ensures { result.0.line ≡ line.entry.now }
        { take_all(rt, alloc, line, ended, other) },
    )
}

/// Whether two rising lists have each number below `JOBS` once.
fn has_each_once(first: &[u64], second: &[u64]) -> bool {
    let (mut first, mut second) = (first.iter(), second.iter());
    let (mut one, mut two) = (first.next(), second.next());
    for n in 0..JOBS {
        if one == Some(&n) {
            one = first.next();
        } else if two == Some(&n) {
            two = second.next();
        } else {
            return false;
        }
    }
    one.is_none() && two.is_none()
}

#[test]
fn two_threads_take_each_job_once(rt: HostRuntime) -> Result<(), Fail> {
    let (first, second, all) = take_in_two_threads(&rt, rt.alloc())?;
    let once = has_each_once(&first, &second);
    assert!(rt; all && once);
    Ok(())
}
