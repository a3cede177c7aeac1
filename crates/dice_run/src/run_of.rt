//! A run, from the words of the command line to a status.
ghost use Rattle.std.specs.Prelude.{◌≡◌, ◌≢◌, ◌≤◌, ◌⊎◌, List, ℕ, None, map};
ghost use Rattle.dice_io.specs.Streams.{Rose, ReadPart, ReadTo, Unread, Gained, GainedPart, Unchanged};
ghost use Rattle.dice_words.specs.Accepted.{IsAccepted, Asks};
ghost use Rattle.dice_words.specs.declared.words.Command.{Command};
ghost use Rattle.dice_words.specs.declared.words.Command.TheVariants as command;
ghost use Rattle.dice_run.specs.Run.{Answers, Refuses, IsWritten, ReadWhole, Does, Begins};
ghost use Rattle.dice_run.specs.Given.{IsGiven};

use crate::bulk::run_bulk;
use crate::carried::{Options, answer, write_out};
use crate::kept::Kept;
use crate::status::Status;
use dice_engine::Gate;
use dice_io::{ReadFail, Sink, Source, read_all};
use dice_key::NoMemory;
use dice_words::{Command, WordsFail, read_words};
use script::readings_are_one;
use std::alloc::Global;
use std::sync::Wait;
use std::thread::Threads;

/// How many bytes are read at most: one more than a script may have.
const MOST: usize = 4_194_305;

/// Reads the words of the command line, of which the first is the program's name, and does what
/// they say. `run` reads a script from the source to its end, checks the whole of it, carries it
/// out, and writes its output to the sink, and after it the trace of what the engine did, if the
/// words ask for it. `bulk` makes a large script by itself, carries it out, and writes one line of
/// summary; it reads nothing.
///
/// The status says how it ended, and is tested in this order: words, reading, length, grammar,
/// running, writing; `NoMemory` may come at any of these points, before anything is written. At
/// most 4,194,305 bytes are read, and at most 65,536 asked for in one call; the whole rest of the
/// output is handed to the sink in each call, and no memory is taken once it is built. The gate is
/// told of each job before a worker does it. Of these, clauses speak only of the bytes that are
/// read.
///
/// With status 0 `kept` gets the engine and the driver's seat at it, whose seen journal is one of
/// the script; otherwise it stays empty.
pub fn run<R: Threads + Wait + Sync, S: Source, K: Sink, G: Gate>(
    rt: &R,
    alloc: Global,
    words: &[&str],
    source: &mut S,
    sink: &mut K,
    gate: &G,
    kept: &mut Option<Kept>,
) -> Status
    requires { kept.old ≡ None }
    ensures words { result ≡ Status.WordsRefused
        → (IsAccepted (map (λ w. w.now) words.now) → ⊥)
        × Unread (S.left source.old) (S.left source.new)
        × Unchanged (K.taken sink.old) (K.taken sink.new) }
    ensures accepted { IsAccepted (map (λ w. w.now) words.now)
        ⊎ ((result ≡ Status.WordsRefused) ⊎ (result ≡ Status.NoMemory)) }
    ensures few { ReadPart (S.left source.old) (S.left source.new) 4194305 }
    ensures unread { (targets workers : ℕ)
        → Asks (map (λ w. w.now) words.now) (command.Bulk targets workers)
        → Unread (S.left source.old) (S.left source.new) }
    ensures read { result ≡ Status.ReadFailed
        → ((workers : ℕ) × (trace : _)
        × Asks (map (λ w. w.now) words.now) (command.Run workers trace))
        × Rose (S.faults source.old) (S.faults source.new)
        × Unchanged (K.taken sink.old) (K.taken sink.new) }
    ensures write { result ≡ Status.WriteFailed
        → Rose (K.faults sink.old) (K.faults sink.new)
        × ((c : Command) × Asks (map (λ w. w.now) words.now) c
        × Begins c (S.left source.old) (S.left source.new)
        (GainedPart (K.taken sink.old) (K.taken sink.new))) }
    ensures script { result ≡ Status.ScriptRefused
        → ((workers : ℕ) × (trace : _)
        × Asks (map (λ w. w.now) words.now) (command.Run workers trace))
        × ((read : List ℕ) × (out : List ℕ)
        × ReadTo (S.left source.old) (S.left source.new) read 4194305 × Refuses read out
        × Gained (K.taken sink.old) (K.taken sink.new) out) }
    ensures done { result ≡ Status.Done
        → (c : Command) × Asks (map (λ w. w.now) words.now) c
        × Does c (S.left source.old) (S.left source.new)
        (Gained (K.taken sink.old) (K.taken sink.new)) kept.new }
    ensures memory { result ≡ Status.NoMemory → Unchanged (K.taken sink.old) (K.taken sink.new) }
    ensures empty { result ≢ Status.Done → kept.new ≡ None }

    // A command that has what it needs, and meets no fault of source or sink, is carried out, or
    // memory was refused.
    ensures complete { IsAccepted (map (λ w. w.now) words.now) → (c : Command)
        → Asks (map (λ w. w.now) words.now) c → IsGiven c (S.left source.old)
        → (Rose (S.faults source.old) (S.faults source.new) → ⊥)
        → (Rose (K.faults sink.old) (K.faults sink.new) → ⊥)
        → (result ≡ Status.Done) ⊎ (result ≡ Status.NoMemory) }
{
    readings_are_one();
    match read_words(alloc, words) {
        Ok(Command::Run { workers, trace }) => {
            let options = Options { workers, trace };
            let (status, left) = run_script(rt, alloc, options, source, sink, gate);
            *kept = left;
            status
        }
        Ok(Command::Bulk { targets, workers }) => {
            let (status, left) = run_bulk(rt, alloc, targets, workers, sink, gate);
            *kept = left;
            status
        }
        Err(WordsFail::Refused) => Status::WordsRefused,
        Err(WordsFail::NoMemory) => Status::NoMemory,
    }
}

/// Reads a script from the source to its end, and writes its output, or its first fault, to the
/// sink. With status 0 it answers what the run leaves.
fn run_script<R: Threads + Wait + Sync, S: Source, K: Sink, G: Gate>(
    rt: &R,
    alloc: Global,
    options: Options,
    source: &mut S,
    sink: &mut K,
    gate: &G,
) -> (Status, Option<Kept>)
    requires { options.workers ≤ 64 }
    ensures accepted { result.0 ≢ Status.WordsRefused }
    ensures few { ReadPart (S.left source.old) (S.left source.new) 4194305 }
    ensures read { result.0 ≡ Status.ReadFailed
        → Rose (S.faults source.old) (S.faults source.new)
        × Unchanged (K.taken sink.old) (K.taken sink.new) }
    ensures write { result.0 ≡ Status.WriteFailed
        → Rose (K.faults sink.old) (K.faults sink.new)
        × ((read : List ℕ) × (out : List ℕ)
        × ReadTo (S.left source.old) (S.left source.new) read 4194305
        × IsWritten options.trace read out × GainedPart (K.taken sink.old) (K.taken sink.new) out) }
    ensures script { result.0 ≡ Status.ScriptRefused
        → (read : List ℕ) × (out : List ℕ)
        × ReadTo (S.left source.old) (S.left source.new) read 4194305 × Refuses read out
        × Gained (K.taken sink.old) (K.taken sink.new) out }
    ensures done { result.0 ≡ Status.Done
        → (read : List ℕ) × (out : List ℕ) × ReadWhole (S.left source.old) (S.left source.new) read
        × Answers options.trace read out result.1
        × Gained (K.taken sink.old) (K.taken sink.new) out }
    ensures memory { result.0 ≡ Status.NoMemory
        → Unchanged (K.taken sink.old) (K.taken sink.new) }
    ensures empty { result.0 ≢ Status.Done → result.1 ≡ None }
{
    let bytes = match read_all(alloc, source, MOST) {
        Ok(bytes) => bytes,
        Err(ReadFail::Failed) => return (Status::ReadFailed, None),
        Err(ReadFail::NoMemory) => return (Status::NoMemory, None),
    };
    match answer(rt, alloc, options, gate, &bytes) {
        Ok(ending) => write_out(rt, sink, ending),
        Err(NoMemory) => (Status::NoMemory, None),
    }
}
