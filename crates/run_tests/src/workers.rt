//! Runs by several workers, with traces, and of the bulk script.
use crate::scripts::{FIRST, FIRST_OUT, Row, first_other, status_of};
use action_digest::Buck;
use dice_engine::Engine;
use dice_io::NoMemory;
use dice_run::{Gate, MemorySink, MemorySource, Open, drive};
use script::Script;
use std::alloc::Global;
use std::sync::atomic::{AtomicBool, AtomicU64, Ordering};
use std::sync::{Arc, Wait};
use std::test::Fail;
use std::thread::{self, Threads};

#[test]
fn workers_change_nothing(rt: HostRuntime) -> Result<(), Fail> {
    let numbers = ["0", "1", "2", "4", "16", "64"];
    for number in numbers {
        let words: [&'static str; 4] = ["dice", "run", "--workers", number];
        assert_eq!(rt; first_other(&rt, rt.alloc(), &words, b"", &SCRIPTS)?, None);
    }
    Ok(())
}

const TRACES: [(&[&str], Row); 4] = [
    (
        &["dice", "run", "--workers", "0", "--trace"],
        (
            b"put a/BUCK 76\nwrite_file(name = \"u\", content = \"a\")\nwrite_file(name = \"w\", content = \"b\")\n\ncommit\nopen t\nask t r //a:w\nwait r\nput a/BUCK 76\nwrite_file(name = \"u\", content = \"c\")\nwrite_file(name = \"w\", content = \"b\")\n\ncommit\nopen s\nask s q //a:w\n",
            0,
            b"commit 1\nopen t 1\nr 1 03da25344a55dde4115d94d454d37d56e1b44ab7eadead40c654e96380bb66f1\ncommit 2\nopen s 2\nq 2 03da25344a55dde4115d94d454d37d56e1b44ab7eadead40c654e96380bb66f1\ntrace 22\ncommit 0 a/BUCK\nopen 0 1\nask 0 1 digest //a:w\nstart 1 digest //a:w new\nstart 1 action //a:w new\nstart 1 rule //a:w new\nstart 1 package //a new\nend 1 package //a\nend 1 rule //a:w\nend 1 action //a:w\nend 1 digest //a:w\ncommit 0 a/BUCK\nopen 0 2\nask 0 12 digest //a:w\nstart 2 package //a differs 1 source a/BUCK\nend 2 package //a\nstart 2 rule //a:w differs 1 package //a\nend 2 rule //a:w\nkeep 2 action //a:w 1\nkeep 2 digest //a:w 1\nclose 0 1\nclose 0 12\n",
        ),
    ),
    (
        &["dice", "run", "--workers", "0", "--trace"],
        (
            b"put a/BUCK 76\nwrite_file(name = \"u\", content = \"a\")\nwrite_file(name = \"w\", content = \"b\")\n\ncommit\nopen t\nask t r //a:w\nwait r\nput z/f 1\na\ncommit\nopen s\nask s q //a:w\n",
            0,
            b"commit 1\nopen t 1\nr 1 03da25344a55dde4115d94d454d37d56e1b44ab7eadead40c654e96380bb66f1\ncommit 2\nopen s 2\nq 2 03da25344a55dde4115d94d454d37d56e1b44ab7eadead40c654e96380bb66f1\ntrace 17\ncommit 0 a/BUCK\nopen 0 1\nask 0 1 digest //a:w\nstart 1 digest //a:w new\nstart 1 action //a:w new\nstart 1 rule //a:w new\nstart 1 package //a new\nend 1 package //a\nend 1 rule //a:w\nend 1 action //a:w\nend 1 digest //a:w\ncommit 0 z/f\nopen 0 2\nask 0 12 digest //a:w\nkeep 2 digest //a:w 1\nclose 0 1\nclose 0 12\n",
        ),
    ),
    (
        &["dice", "run", "--trace", "--workers", "0"],
        (
            b"put a/BUCK 55\nwrite_file(name = \"w\", out = \"w.txt\", content = \"abc\")\n\ncommit\nopen t\nask t r //a:w\ncancel r\n",
            0,
            b"commit 1\nopen t 1\nr 1 cancelled\ntrace 7\ncommit 0 a/BUCK\nopen 0 1\nask 0 1 digest //a:w\nstart 1 digest //a:w new\nleave 0 2\ndrop 1 digest //a:w\nclose 0 1\n",
        ),
    ),
    (
        &["dice", "bulk", "1"],
        (
            b"",
            0,
            b"bulk 1 requests 2 output 176 digest af9559c96c79e1dfd0e572b25c7c4c26a4f37a13d3e3579c835e156a4917a1c7\n",
        ),
    ),
];

#[test]
fn traces_and_summaries(rt: HostRuntime) -> Result<(), Fail> {
    for (words, row) in TRACES {
        assert_eq!(rt; first_other(&rt, rt.alloc(), words, b"", &[row])?, None);
    }
    Ok(())
}

/// What a script prints that is driven on an engine of its own, with a reader, and the number of
/// the seat that comes back. The engine ends.
fn driven<R: Threads + Wait + Sync>(
    rt: &R,
    alloc: Global,
    script: &Script,
) -> Result<(Vec<u8>, u64), Fail> {
    let universe = Arc::new(alloc, Buck::new(alloc)?)?;
    let (engine, seat, mut readers) = Engine::with_readers(rt, alloc, universe, 1, 1)?;
    let reader = readers.pop();
    let (seat, out) = drive(rt, alloc, &engine, seat, reader, script, false, 2, &Open);
    let number = seat.number();
    engine.end(rt, seat);
    Ok((out?, number))
}

#[test]
fn a_script_is_driven_on_an_engine(rt: HostRuntime) -> Result<(), Fail> {
    let alloc = rt.alloc();
    let Ok(script) = script::read(alloc, FIRST) else {
        return Ok(assert!(rt; false, "it is a script"));
    };
    let (out, number) = driven(&rt, alloc, &script)?;
    assert!(rt; out.as_slice() == FIRST_OUT && number == 0);
    Ok(())
}

/// Holds the worker that comes first until another one comes, or for so many rounds.
#[derive(Drop)]
struct Meeting {
    /// The worker that came first, by its number and one.
    first: AtomicU64,
    met: AtomicBool,
}

/// How many rounds a worker is held at most.
const ROUNDS: u32 = 1_000_000;

impl Meeting {
    fn new() -> Meeting {
        Meeting {
            first: AtomicU64::new(0),
            met: AtomicBool::new(false),
        }
    }

    fn wait(&self) {
        for _ in 0..ROUNDS {
            if self.met.load(Ordering::Acquire) {
                return;
            }
            thread::yield_now();
        }
    }
}

impl Gate for Meeting {
    fn at(&self, worker: u32) {
        let number = worker as u64 + 1;
        match self
            .first
            .compare_exchange(0, number, Ordering::AcqRel, Ordering::Acquire)
        {
            Ok(_) => self.wait(),
            Err(first) => {
                if first != number {
                    self.met.store(true, Ordering::Release);
                }
            }
        }
    }
}

/// What a run by two workers prints, and whether two of them met at the gate.
fn run_by_two<R: Threads + Wait + Sync>(
    rt: &R,
    alloc: Global,
    script: &[u8],
) -> Result<(u8, Vec<u8>, bool), NoMemory> {
    let mut sink = MemorySink::new(alloc, 1_000, Vec::new(alloc), 4_000)?;
    let bytes = Vec::from_slice(alloc, script)?;
    let mut source = MemorySource::new(bytes, 1_000, Vec::new(alloc));
    let gate = Meeting::new();
    let words = ["dice", "run", "--workers", "2"];
    let status = status_of(rt, alloc, &words, &mut source, &mut sink, &gate);
    let met = gate.met.load(Ordering::Acquire);
    drop(source);
    let out = Vec::from_slice(alloc, sink.bytes())?;
    Ok((status, out, met))
}

const VERSIONS: &[u8] =
    b"put a/BUCK 24\nexport_file(name = \"f\")\n\nput a/f 1\na\ncommit\nopen t\nput a/f 1\nb\ncommit\nopen s\naction t r //a:f\naction s q //a:f\n";

const VERSIONS_OUT: &[u8] =
    b"commit 1\nopen t 1\ncommit 2\nopen s 2\nr 1 action 79\nexport_file\nf\nca978112ca1bbdcafac231b39a23dc4da786eff8147c4e72b9807785afee48bb\nq 2 action 79\nexport_file\nf\n3e23e8160039594a33894f6564e1b1348bbd7a0088d42c4acb73eeaed59c009d\n";

const PACKAGES: &[u8] =
    b"put a/BUCK 55\nwrite_file(name = \"w\", out = \"w.txt\", content = \"abc\")\n\nput b/BUCK 55\nwrite_file(name = \"w\", out = \"w.txt\", content = \"abc\")\n\ncommit\nopen t\nask t r //a:w\nask t q //b:w\n";

const PACKAGES_OUT: &[u8] =
    b"commit 1\nopen t 1\nr 1 72801cd249fb51131b7bbb93151ac0d3277ce1ef6febdf4fdc9f980dbb59266d\nq 1 72801cd249fb51131b7bbb93151ac0d3277ce1ef6febdf4fdc9f980dbb59266d\n";

const LEFT: &[u8] =
    b"put a/BUCK 55\nwrite_file(name = \"w\", out = \"w.txt\", content = \"abc\")\n\nput b/BUCK 55\nwrite_file(name = \"w\", out = \"w.txt\", content = \"abc\")\n\ncommit\nopen t\nask t r //a:w\nask t q //b:w\ncancel r\nwait q\nclose t\n";

const LEFT_OUT: &[u8] =
    b"commit 1\nopen t 1\nr 1 cancelled\nq 1 72801cd249fb51131b7bbb93151ac0d3277ce1ef6febdf4fdc9f980dbb59266d\n";

/// Scripts of one target, of two packages, of two versions, and with a request that is given up;
/// each with its output.
const SCRIPTS: [Row; 4] = [
    (FIRST, 0, FIRST_OUT),
    (PACKAGES, 0, PACKAGES_OUT),
    (VERSIONS, 0, VERSIONS_OUT),
    (LEFT, 0, LEFT_OUT),
];

#[test]
fn two_workers_at_the_gate_at_once(rt: HostRuntime) -> Result<(), Fail> {
    let (status, out, met) = run_by_two(&rt, rt.alloc(), PACKAGES)?;
    assert!(rt; status == 0 && out.as_slice() == PACKAGES_OUT && met);
    Ok(())
}

#[test]
fn two_workers_at_the_gate_at_two_versions(rt: HostRuntime) -> Result<(), Fail> {
    let (status, out, met) = run_by_two(&rt, rt.alloc(), VERSIONS)?;
    assert!(rt; status == 0 && out.as_slice() == VERSIONS_OUT && met);
    Ok(())
}
