//! The program `dice`.
#![tactic(auto)]

use dice_run::{Open, RealSink, RealSource, Status, run};
use std::alloc::Global;
use std::env::{self, Args};
use std::io::{ErrorKind, Input, Print};
use std::mem;
use std::process::ExitCode;
use std::sync::Wait;
use std::thread::Threads;

/// Does what the words say, over standard input and output.
fn status<R: Input + Print + Threads + Wait + Sync>(rt: &R, alloc: Global, given: Args) -> Status {
    let mut words = Vec::new(alloc);
    for word in given {
        if words.push(word).is_err() {
            return Status::NoMemory;
        }
    }
    let mut texts: Vec<&str> = Vec::new(alloc);
    for word in &words {
        if texts.push(word.as_str()).is_err() {
            return Status::NoMemory;
        }
    }
    let mut source = RealSource::new(rt);
    let mut sink = RealSink::new(rt);
    let mut kept = None;
    let status = run(rt, alloc, &texts, &mut source, &mut sink, &Open, &mut kept);
    if let Some(kept) = kept {
        // The process ends here, and what the engine held goes with it.
        mem::forget(kept.end(rt));
    }
    status
}

fn main(rt: HostRuntime) -> ExitCode {
    let status = match env::args(&rt) {
        Ok(words) => status(&rt, rt.alloc(), words),
        Err(error) if error.kind() == ErrorKind::OutOfMemory => Status::NoMemory,
        Err(_) => Status::WordsRefused,
    };
    let _told = match status {
        Status::WordsRefused => eprintln!(rt; "dice: words refused"),
        Status::ReadFailed => eprintln!(rt; "dice: read failed"),
        Status::WriteFailed => eprintln!(rt; "dice: write failed"),
        Status::NoMemory => eprintln!(rt; "dice: no memory"),
        Status::Done | Status::ScriptRefused => Ok(()),
    };
    ExitCode::from(status.code())
}
