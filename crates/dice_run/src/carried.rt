//! What a run comes to before it is written.
ghost use Rattle.std.specs.Prelude.{◌≡◌, ◌≢◌, ◌≤◌, ◌⊎◌, List, ℕ, Option, None, IfOk};
ghost use Rattle.dice_io.specs.Streams.{Rose, Gained, GainedPart};
ghost use Rattle.script.specs.Scripts.{IsScript};
ghost use Rattle.script.specs.declared.line.Line.{Line};
ghost use Rattle.dice_run.specs.Run.{Answers, Refuses};
ghost use Rattle.dice_run.specs.declared.status.Status.TheVariants.{Done, ScriptRefused, WriteFailed};

use crate::append;
use crate::kept::{Kept, end};
use crate::status::Status;
use crate::workers::drive;
use action_digest::Buck;
use dice_engine::{Engine, Gate};
use dice_io::{Sink, write_all};
use dice_key::NoMemory;
use script::{Script, ScriptRefusal};
use std::alloc::Global;
use std::sync::{Arc, Wait};
use std::thread::Threads;

/// How a script is carried out: with so many workers beside the driver, and with the trace after
/// its output, if that is wanted.
#[derive(Clone, Copy)]
pub(crate) struct Options {
    pub(crate) workers: u32,
    pub(crate) trace: bool,
}

/// What is written, with which status, and what is left then.
#[derive(Drop)]
pub(crate) struct Ending {
    pub(crate) status: Status,
    pub(crate) out: Vec<u8>,
    pub(crate) kept: Option<Kept>,
}

/// What is written for an input, and with which status: the output of a script, or the first fault
/// of what is none.
pub(crate) fn answer<R: Threads + Wait + Sync, G: Gate>(
    rt: &R,
    alloc: Global,
    options: Options,
    gate: &G,
    bytes: &[u8],
) -> Result<Ending, NoMemory>
    requires { options.workers ≤ 64 }
    ensures done { IfOk result
        (λ a. a.status ≡ Done → Answers options.trace bytes.now a.out.items a.kept) }
    ensures refused { IfOk result
        (λ a. a.status ≡ ScriptRefused → Refuses bytes.now a.out.items × (a.kept ≡ None)) }
    ensures either { IfOk result (λ a. (a.status ≡ Done) ⊎ (a.status ≡ ScriptRefused)) }
{
    match script::read(alloc, bytes) {
        Ok(script) => carry_out(rt, alloc, options, gate, &script),
        Err(ScriptRefusal::TooLong) => {
            let mut out = Vec::new(alloc);
            append::bytes(&mut out, b"script too long\n")?;
            Ok(refusal(out))
        }
        Err(ScriptRefusal::Fault { line, word }) => {
            let mut out = Vec::new(alloc);
            append::bytes(&mut out, b"line ")?;
            append::number(&mut out, line as u64)?;
            append::bytes(&mut out, b": ")?;
            append::bytes(&mut out, word.text().as_bytes())?;
            append::bytes(&mut out, b"\n")?;
            Ok(refusal(out))
        }
        Err(ScriptRefusal::NoMemory) => Err(NoMemory),
    }
}

/// Writes what there is to write to the sink. If that fails the engine that is left ends; otherwise
/// it is answered.
pub(crate) fn write_out<R: Wait, K: Sink>(
    rt: &R,
    sink: &mut K,
    ending: Ending,
) -> (Status, Option<Kept>)
    requires { ending.status ≢ WriteFailed }
    ensures written { result.0 ≢ WriteFailed
        → (result ≡ (ending.status, ending.kept))
        × Gained (K.taken sink.old) (K.taken sink.new) ending.out.items }
    ensures write { result.0 ≡ WriteFailed
        → Rose (K.faults sink.old) (K.faults sink.new)
        × GainedPart (K.taken sink.old) (K.taken sink.new) ending.out.items
        × (result.1 ≡ None) }
{
    match write_all(sink, &ending.out) {
        Ok(()) => (ending.status, ending.kept),
        Err(_) => {
            end(rt, ending.kept);
            (Status::WriteFailed, None)
        }
    }
}

fn refusal(out: Vec<u8>) -> Ending
    ensures { (result.status ≡ ScriptRefused) × (result.out ≡ out) × (result.kept ≡ None) }
{
    Ending {
        status: Status::ScriptRefused,
        out,
        kept: None,
    }
}

/// Carries a script out on an engine of its own.
pub(crate) fn carry_out<R: Threads + Wait + Sync, G: Gate>(
    rt: &R,
    alloc: Global,
    options: Options,
    gate: &G,
    script: &Script,
) -> Result<Ending, NoMemory>
    requires { options.workers ≤ 64 }
    ensures status { IfOk result (λ a. a.status ≡ Done) }
    ensures answers { IfOk result (λ a. (input : List ℕ) → IsScript input script.now
        → Answers options.trace input a.out.items a.kept) }
{
    let universe = Arc::new(alloc, Buck::seeded(alloc, script.seed())?)?;
    let (engine, seat, mut readers) = Engine::with_readers(rt, alloc, universe, 1, 1)?;
    let reader = readers.pop();
    let Options { workers, trace } = options;
    let (seat, output) = drive(
        rt, alloc, &engine, seat, reader, script, trace, workers, gate,
    );
    match output {
        Ok(out) => Ok(Ending {
            status: Status::Done,
            out,
            kept: Some(Kept { engine, seat }),
        }),
        Err(NoMemory) => {
            engine.end(rt, seat);
            Err(NoMemory)
        }
    }
}
