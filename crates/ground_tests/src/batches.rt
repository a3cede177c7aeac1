//! What travels between an engine and a universe: batches, answers, paths and lines.
use dice_key::{Answers, Batch, Line, Move, NoMemory, Path};
use pure_universe::{ask_all, done};
use std::alloc::Global;
use std::sync::Arc;
use std::test::Fail;

fn arcs(alloc: Global, numbers: &[u32]) -> Result<Vec<Arc<u32>>, NoMemory> {
    let mut arcs = Vec::new(alloc);
    for number in numbers {
        arcs.push(Arc::new(alloc, *number)?)?;
    }
    Ok(arcs)
}

fn are(found: &[Arc<u32>], numbers: &[u32]) -> bool {
    if found.len() != numbers.len() {
        return false;
    }
    for (x, y) in found.iter().zip(numbers) {
        if **x != *y {
            return false;
        }
    }
    true
}

fn batch(alloc: Global, first: u32, rest: &[u32]) -> Result<Batch<u32>, NoMemory> {
    let mut batch = Batch::one(alloc, Arc::new(alloc, first)?);
    for key in rest {
        batch.push(Arc::new(alloc, *key)?)?;
    }
    Ok(batch)
}

/// Ten times each key.
fn answers(alloc: Global, batch: &Batch<u32>) -> Result<Answers<u32>, NoMemory> {
    let mut answers = Answers::new(alloc);
    for key in batch.keys() {
        answers.push(Arc::new(alloc, key.saturating_mul(10))?)?;
    }
    Ok(answers)
}

/// Whether a copy of the answers, ten times each key, has these.
fn answers_are(alloc: Global, batch: &Batch<u32>, numbers: &[u32]) -> Result<bool, NoMemory> {
    let again = answers(alloc, batch)?.try_clone(alloc)?;
    Ok(again.len() == numbers.len() && are(again.values(), numbers))
}

#[test]
fn batches_and_answers_keep_their_order(rt: HostRuntime) -> Result<(), Fail> {
    let alloc = rt.alloc();
    let batch = batch(alloc, 5, &[3, 5])?;
    assert!(rt; batch.len() == 3);
    assert!(rt; Answers::<u32>::new(alloc).len() == 0);
    assert!(rt; answers_are(alloc, &batch, &[50, 30, 50])?);
    Ok(())
}

fn list_is_batch(alloc: Global, numbers: &[u32]) -> Result<bool, NoMemory> {
    let keys = arcs(alloc, numbers)?;
    if keys.is_empty() {
        return Ok(false);
    }
    let batch = Batch::from_keys(keys);
    Ok(batch.len() == numbers.len() && are(batch.keys(), numbers))
}

fn list_is_path(alloc: Global, numbers: &[u32]) -> Result<bool, NoMemory> {
    let keys = arcs(alloc, numbers)?;
    if keys.is_empty() {
        return Ok(false);
    }
    Ok(are(Path::from_keys(keys).keys(), numbers))
}

fn list_is_answers(alloc: Global, number: u64) -> Result<bool, NoMemory> {
    let mut values = Vec::new(alloc);
    values.push(Arc::new(alloc, number)?)?;
    match Answers::from_values(values).values() {
        [value] => Ok(**value == number),
        _ => Ok(false),
    }
}

fn list_is_line(alloc: Global, bytes: &[u8]) -> Result<bool, NoMemory> {
    let line = Line::from_bytes(Vec::from_slice(alloc, bytes)?);
    Ok(line.as_bytes() == bytes && line.into_bytes().as_slice() == bytes)
}

#[test]
fn lists_go_in_and_out_without_memory(rt: HostRuntime) -> Result<(), Fail> {
    let alloc = rt.alloc();
    assert!(rt; list_is_batch(alloc, &[7])?);
    assert!(rt; list_is_path(alloc, &[1, 2])?);
    assert!(rt; list_is_answers(alloc, 9)?);
    assert!(rt; list_is_line(alloc, b"cell 3")?);
    Ok(())
}

#[test]
fn moves_have_their_keys_in_order(rt: HostRuntime) -> Result<(), Fail> {
    let alloc = rt.alloc();
    let asked: Move<u32, u32> = ask_all(alloc, Vec::from_array(alloc, [7, 9, 7])?)?;
    let right = match asked {
        Move::Ask(batch) => are(batch.keys(), &[7, 9, 7]),
        Move::Done(_) => false,
    };
    assert!(rt; right);
    let ended: Move<u32, u32> = done(alloc, 5)?;
    let right = match ended {
        Move::Ask(_) => false,
        Move::Done(value) => *value == 5,
    };
    assert!(rt; right);
    Ok(())
}
