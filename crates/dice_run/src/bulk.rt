//! The bulk script, carried out and summed up.
ghost use Rattle.std.specs.Prelude.{◌≡◌, ◌≢◌, ◌≤◌, ◌⊎◌, List, ℕ, Option, None, IfOk};
ghost use Rattle.dice_io.specs.Streams.{Rose, Gained, GainedPart, Unchanged};
ghost use Rattle.dice_run.specs.Run.{summary, Sums};
ghost use Rattle.dice_run.specs.declared.kept.Kept.{Kept};

use crate::append;
use crate::carried::{Ending, Options, carry_out, write_out};
use crate::kept::{Kept, end};
use crate::status::Status;
use bulk_script::{bulk_is_script, bulk_script, request_count};
use dice_engine::Gate;
use dice_io::Sink;
use dice_key::NoMemory;
use script::{ScriptRefusal, readings_are_one};
use sha2::{Digest, Sha256};
use std::alloc::Global;
use std::sync::Wait;
use std::thread::Threads;

/// Carries out the bulk script of so many targets, and writes its summary to the sink. With status
/// 0 it answers what the run leaves.
pub(crate) fn run_bulk<R: Threads + Wait + Sync, K: Sink, G: Gate>(
    rt: &R,
    alloc: Global,
    targets: u32,
    workers: u32,
    sink: &mut K,
    gate: &G,
) -> (Status, Option<Kept>)
    requires targets { (1 ≤ targets) × (targets ≤ 10000) }
    requires workers { workers ≤ 64 }
    ensures only { (result.0 ≡ Status.Done)
        ⊎ ((result.0 ≡ Status.WriteFailed) ⊎ (result.0 ≡ Status.NoMemory)) }
    ensures done { result.0 ≡ Status.Done
        → (out : List ℕ) × Sums targets out result.1
        × Gained (K.taken sink.old) (K.taken sink.new) out }
    ensures write { result.0 ≡ Status.WriteFailed
        → Rose (K.faults sink.old) (K.faults sink.new)
        × ((out : List ℕ) × (k : Option Kept) × Sums targets out k
        × GainedPart (K.taken sink.old) (K.taken sink.new) out) }
    ensures memory { result.0 ≡ Status.NoMemory
        → Unchanged (K.taken sink.old) (K.taken sink.new) }
    ensures empty { result.0 ≢ Status.Done → result.1 ≡ None }
{
    match sum_up(rt, alloc, targets, workers, gate) {
        Ok(ending) => write_out(rt, sink, ending),
        Err(NoMemory) => (Status::NoMemory, None),
    }
}

/// Carries out the bulk script of so many targets: what is written, and what is left.
fn sum_up<R: Threads + Wait + Sync, G: Gate>(
    rt: &R,
    alloc: Global,
    targets: u32,
    workers: u32,
    gate: &G,
) -> Result<Ending, NoMemory>
    requires targets { (1 ≤ targets) × (targets ≤ 10000) }
    requires workers { workers ≤ 64 }
    ensures sums { IfOk result (λ a. Sums targets a.out.items a.kept) }
    ensures status { IfOk result (λ a. a.status ≡ Status.Done) }
{
    let bytes = bulk_script(alloc, targets)?;
    bulk_is_script();
    readings_are_one();
    let script = match script::read(alloc, &bytes) {
        Ok(script) => script,
        Err(ScriptRefusal::TooLong) => unreachable!(),
        Err(
            ScriptRefusal::Fault {
                line: _line,
                word: _word,
            },
        ) => unreachable!(),
        Err(ScriptRefusal::NoMemory) => return Err(NoMemory),
    };
    let options = Options {
        workers,
        trace: false,
    };
    let ending = carry_out(rt, alloc, options, gate, &script)?;
    match summary(alloc, targets, &ending.out) {
        Ok(out) => Ok(Ending {
            status: Status::Done,
            out,
            kept: ending.kept,
        }),
        Err(NoMemory) => {
            end(rt, ending.kept);
            Err(NoMemory)
        }
    }
}

/// The line that an output of the bulk script of so many targets is summed up by.
fn summary(alloc: Global, targets: u32, output: &[u8]) -> Result<Vec<u8>, NoMemory>
    ensures { IfOk result (λ out. out.items ≡ summary targets output.now) }
{
    let digest = Sha256::digest(output);
    let mut out = Vec::new(alloc);
    append::bytes(&mut out, b"bulk ")?;
    append::number(&mut out, targets as u64)?;
    append::bytes(&mut out, b" requests ")?;
    append::number(&mut out, request_count(targets))?;
    append::bytes(&mut out, b" output ")?;
    append::number(&mut out, output.len() as u64)?;
    append::bytes(&mut out, b" digest ")?;
    append::bytes(&mut out, hex::encode(alloc, digest.as_slice())?.as_bytes())?;
    append::bytes(&mut out, b"\n")?;
    Ok(out)
}
