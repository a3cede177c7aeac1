//! Scripts with their outputs and statuses.
use dice_io::NoMemory;
use dice_run::{Gate, MemorySink, MemorySource, Open, run};
use std::alloc::Global;
use std::sync::Wait;
use std::test::Fail;
use std::thread::Threads;

/// The status of a run with these words, from this source into this sink; 100 more if an engine
/// is kept after another status than 0, or none after 0. The engine ends.
pub(crate) fn status_of<R: Threads + Wait + Sync, G: Gate>(
    rt: &R,
    alloc: Global,
    words: &[&str],
    source: &mut MemorySource,
    sink: &mut MemorySink,
    gate: &G,
) -> u8 {
    let mut kept = None;
    let status = run(rt, alloc, words, source, sink, gate, &mut kept).code();
    let is_kept = kept.is_some();
    if let Some(kept) = kept {
        kept.end(rt);
    }
    if is_kept == (status == 0) {
        status
    } else {
        status.saturating_add(100)
    }
}

/// How a run with these words on this script ends: its status, and what the sink holds. Source and
/// sink move 10 bytes a call.
pub(crate) fn outcome<R: Threads + Wait + Sync>(
    rt: &R,
    alloc: Global,
    words: &[&str],
    script: &[u8],
    read_fails: &[u64],
    write_fails: &[u64],
) -> Result<(u8, Vec<u8>), NoMemory> {
    let write_fails = Vec::from_slice(alloc, write_fails)?;
    let mut sink = MemorySink::new(alloc, 10, write_fails, 4_000)?;
    let bytes = Vec::from_slice(alloc, script)?;
    let read_fails = Vec::from_slice(alloc, read_fails)?;
    let mut source = MemorySource::new(bytes, 10, read_fails);
    let status = status_of(rt, alloc, words, &mut source, &mut sink, &Open);
    drop(source);
    let out = Vec::from_slice(alloc, sink.bytes())?;
    Ok((status, out))
}

pub(crate) const FIRST: &[u8] =
    b"put a/BUCK 55\nwrite_file(name = \"w\", out = \"w.txt\", content = \"abc\")\n\ncommit\nopen t\naction t r //a:w\n";

pub(crate) const FIRST_OUT: &[u8] =
    b"commit 1\nopen t 1\nr 1 action 82\nwrite_file\nw.txt\nba7816bf8f01cfea414140de5dae2223b00361a396177a9cb410ff61f20015ad\n";

/// A script, the status of its run, and its output.
pub(crate) type Row = (&'static [u8], u8, &'static [u8]);

/// Whether the run of a script with these words, and with these bytes before it, is as its row
/// says.
fn is_as_told<R: Threads + Wait + Sync>(
    rt: &R,
    alloc: Global,
    words: &[&str],
    before: &[u8],
    row: &Row,
) -> Result<bool, NoMemory> {
    let (rest, status, wanted) = *row;
    let mut script = Vec::from_slice(alloc, before)?;
    script.extend_from_slice(rest)?;
    let found = outcome(rt, alloc, words, &script, &[], &[])?;
    Ok(found.0 == status && found.1.as_slice() == wanted)
}

/// Runs scripts with these words, each with the same bytes before it; the number of the first row
/// whose run says otherwise.
pub(crate) fn first_other<R: Threads + Wait + Sync>(
    rt: &R,
    alloc: Global,
    words: &[&str],
    before: &[u8],
    rows: &[Row],
) -> Result<Option<usize>, NoMemory> {
    for i in 0..rows.len() {
        if !is_as_told(rt, alloc, words, before, &rows[i])? {
            return Ok(Some(i));
        }
    }
    Ok(None)
}

pub(crate) const RUN: &[&str] = &["dice", "run"];

const ANSWERED: [Row; 1] = [(FIRST, 0, FIRST_OUT)];

#[test]
fn a_program_with_memory_answers_it(rt: HostRuntime) -> Result<(), Fail> {
    assert_eq!(rt; first_other(&rt, rt.alloc(), RUN, b"", &ANSWERED)?, None);
    Ok(())
}

const OUTPUTS: [Row; 10] = [
    (b"", 0, b""),
    (
        b"put a/BUCK 52\nwrite_file(name = \"w\", out = \"w.txt\", content = \"\")\n\ncommit\nopen t\naction t r //a:w\n",
        0,
        b"commit 1\nopen t 1\nr 1 action 82\nwrite_file\nw.txt\ne3b0c44298fc1c149afbf4c8996fb92427ae41e4649b934ca495991b7852b855\n",
    ),
    (
        b"put a/BUCK 55\nwrite_file(name = \"w\", out = \"w.txt\", content = \"abc\")\n\ncommit\nput a/BUCK 55\nwrite_file(name = \"w\", out = \"w.txt\", content = \"abc\")\n\ncommit\n",
        0,
        b"commit 1\ncommit 1\n",
    ),
    (
        b"open t\nask t r //a:w\n",
        0,
        b"open t 0\nr 0 fault no-package //a\n",
    ),
    (
        b"put a/BUCK 23\nwrite_file(name = \"w\")\n\ncommit\nopen t\nask t r //a:w\n",
        0,
        b"commit 1\nopen t 1\nr 1 fault bad-file a/BUCK 1\n",
    ),
    (
        b"put a/BUCK 12\nwrite_file(\n\ncommit\nopen t\nask t r //a:w\n",
        0,
        b"commit 1\nopen t 1\nr 1 fault bad-file a/BUCK 2\n",
    ),
    (
        b"put a/BUCK 0\n\ncommit\nopen t\nput a/BUCK 0\n\ncommit\nask t r //a\n",
        0,
        b"commit 1\nopen t 1\ncommit 1\nr 1 fault no-target //a:a\n",
    ),
    (
        b"put a/BUCK 55\nwrite_file(name = \"w\", out = \"w.txt\", content = \"abc\")\n\ncommit\nopen t\nask t q //a:w\n",
        0,
        b"commit 1\nopen t 1\nq 1 72801cd249fb51131b7bbb93151ac0d3277ce1ef6febdf4fdc9f980dbb59266d\n",
    ),
    (b"put a/x 5\nabc", 5, b"line 1: count\n"),
    (b"open t\nwait r\n", 5, b"line 2: unknown\n"),
];

#[test]
fn scripts_and_their_outputs(rt: HostRuntime) -> Result<(), Fail> {
    assert_eq!(rt; first_other(&rt, rt.alloc(), RUN, b"", &OUTPUTS)?, None);
    Ok(())
}

const FILES: [Row; 4] = [
    (
        b"put a/BUCK 24\nexport_file(name = \"f\")\n\nput a/f 1\na\ncommit\nopen t\nput a/f 1\nb\ncommit\nopen s\naction t r //a:f\naction s q //a:f\n",
        0,
        b"commit 1\nopen t 1\ncommit 2\nopen s 2\nr 1 action 79\nexport_file\nf\nca978112ca1bbdcafac231b39a23dc4da786eff8147c4e72b9807785afee48bb\nq 2 action 79\nexport_file\nf\n3e23e8160039594a33894f6564e1b1348bbd7a0088d42c4acb73eeaed59c009d\n",
    ),
    (
        b"put a/BUCK 24\nexport_file(name = \"f\")\n\nput a/f 1\na\ncommit\nopen t\nput a/f 1\nb\ncommit\nopen s\naction t r //a:f\naction s q //a:f\nput a/f 1\na\ncommit\nopen u\naction u p //a:f\n",
        0,
        b"commit 1\nopen t 1\ncommit 2\nopen s 2\nr 1 action 79\nexport_file\nf\nca978112ca1bbdcafac231b39a23dc4da786eff8147c4e72b9807785afee48bb\nq 2 action 79\nexport_file\nf\n3e23e8160039594a33894f6564e1b1348bbd7a0088d42c4acb73eeaed59c009d\ncommit 3\nopen u 3\np 3 action 79\nexport_file\nf\nca978112ca1bbdcafac231b39a23dc4da786eff8147c4e72b9807785afee48bb\n",
    ),
    (
        b"put a/BUCK 23\nstamp_file(name = \"s\")\n\ncommit\nopen t\naction t r //a:s\nwait r\nput a/f 1\na\ncommit\nopen s\naction s q //a:s\n",
        0,
        b"commit 1\nopen t 1\nr 1 action 15\nstamp_file\ns\n1\ncommit 2\nopen s 2\nq 2 action 15\nstamp_file\ns\n2\n",
    ),
    (
        b"put a/BUCK 24\nexport_file(name = \"f\")\n\nput a/f 1\na\ncommit\nopen t\nask t r //a:f\nput a/f 1\nb\ncommit\nput a/f 3\nabc\ncommit\nwait r\nopen u\nask u q //a:f\n",
        0,
        b"commit 1\nopen t 1\nr 1 58476ad4253eb4b4c1579cfe419c338454a374dfc141a2a21e68651e157b7de9\ncommit 2\ncommit 3\nopen u 3\nq 3 20900ba8f1c1e4695e6a29575e3a2bfe278f394ffd22086c9e78ee26a843e1c8\n",
    ),
];

#[test]
fn files_that_come_back_stamps_and_cutoff(rt: HostRuntime) -> Result<(), Fail> {
    assert_eq!(rt; first_other(&rt, rt.alloc(), RUN, b"", &FILES)?, None);
    Ok(())
}

const TARGETS: [Row; 8] = [
    (
        b"put a/BUCK 75\nfilegroup(name = \"x\", srcs = [\":y\"])\nwrite_file(name = \"y\", content = \"a\")\n\ncommit\nopen t\nask t r //a:x\nwait r\nput a/BUCK 75\nwrite_file(name = \"x\", content = \"b\")\nfilegroup(name = \"y\", srcs = [\":x\"])\n\ncommit\nopen s\nask s q //a:x\nask s p //a:y\n",
        0,
        b"commit 1\nopen t 1\nr 1 09a30994e1b1cf0f0211b73739b9b0f866ef2cc912db8abf10060e7fdc25c23e\ncommit 2\nopen s 2\nq 2 dcf905baf9b7cab203b65a3417ea403c2280f50826bf60bd28d97033260a52af\np 2 76b7dd0c0c3c2a35de1583cc386963d4aed38619e023a66eb6c87f4a0cc8bd0e\n",
    ),
    (
        b"put a/BUCK 74\nfilegroup(name = \"x\", srcs = [\":y\"])\nfilegroup(name = \"y\", srcs = [\":x\"])\n\ncommit\nopen t\nask t r //a:y\n",
        0,
        b"commit 1\nopen t 1\nr 1 cycle //a:x //a:y\n",
    ),
    (
        b"put a/BUCK 37\nfilegroup(name = \"s\", srcs = [\":s\"])\n\ncommit\nopen t\nask t r //a:s\n",
        0,
        b"commit 1\nopen t 1\nr 1 cycle //a:s\n",
    ),
    (
        b"put a/BUCK 45\nfilegroup(name = \"x\", srcs = [\"none\", \":b\"])\n\ncommit\nopen t\nask t r //a:x\n",
        0,
        b"commit 1\nopen t 1\nr 1 fault no-source a/none\n",
    ),
    (
        b"put a/BUCK 45\nfilegroup(name = \"x\", srcs = [\":b\", \"none\"])\n\ncommit\nopen t\nask t r //a:x\n",
        0,
        b"commit 1\nopen t 1\nr 1 fault no-target //a:b\n",
    ),
    (
        b"put a/BUCK 111\nwrite_file(name = \"w\", content = \"x\")\ngenrule(name = \"g\", srcs = [\"f\"], out = \"o\", cmd = \"cat $(location :w)\")\n\nput a/f 1\na\ncommit\nopen t\naction t r //a:g\n",
        0,
        b"commit 1\nopen t 1\nr 1 action 215\ngenrule\no\n7336b594865fdb588b7d1a3a71d0007082c09057986f56bd174f12af6161e41d\na/f ca978112ca1bbdcafac231b39a23dc4da786eff8147c4e72b9807785afee48bb\n//a:w fe8924915fa0f680747219bbe45ce7b1a4dcdcf1dbaaf66496b6edf247c138aa\n",
    ),
    (
        b"put a/BUCK 45\nfilegroup(name = \"x\", srcs = [\"none\", \":x\"])\n\ncommit\nopen t\nask t r //a:x\n",
        0,
        b"commit 1\nopen t 1\nr 1 cycle //a:x\n",
    ),
    (
        b"put a/BUCK 74\nfilegroup(name = \"x\", srcs = [\":y\"])\nfilegroup(name = \"y\", srcs = [\":x\"])\n\ncommit\nopen t\nask t r //a:x\ncancel r\nask t q //a:y\n",
        0,
        b"commit 1\nopen t 1\nr 1 cancelled\nq 1 cycle //a:x //a:y\n",
    ),
];

#[test]
fn targets_of_targets_and_cycles(rt: HostRuntime) -> Result<(), Fail> {
    assert_eq!(rt; first_other(&rt, rt.alloc(), RUN, b"", &TARGETS)?, None);
    Ok(())
}

const HOSTILE_FILES: [Row; 10] = [
    (
        b"put a/BUCK 34\nfilegroup(name = \"x\", srcs = [,])\n\ncommit\nopen t\nask t r //a:x\n",
        0,
        b"commit 1\nopen t 1\nr 1 fault bad-file a/BUCK 1\n",
    ),
    (
        b"put a/BUCK 45\nfilegroup(name = \"x\")\nfilegroup(\nname = \"x\")\n\ncommit\nopen t\nask t r //a:x\n",
        0,
        b"commit 1\nopen t 1\nr 1 fault bad-file a/BUCK 3\n",
    ),
    (
        b"put a/BUCK 54\ngenrule(name = \"x\", out = \"o\", cmd = \"$(location :y\")\n\ncommit\nopen t\nask t r //a:x\n",
        0,
        b"commit 1\nopen t 1\nr 1 fault bad-file a/BUCK 1\n",
    ),
    (
        b"put a/BUCK 33\ngenrule(name = \"x\",\n out = \"o\"\n)\n\ncommit\nopen t\nask t r //a:x\n",
        0,
        b"commit 1\nopen t 1\nr 1 fault bad-file a/BUCK 3\n",
    ),
    (
        b"put a/BUCK 39\nwrite_file(name = \"x\", content = \"\\q\")\n\ncommit\nopen t\nask t r //a:x\n",
        0,
        b"commit 1\nopen t 1\nr 1 fault bad-file a/BUCK 1\n",
    ),
    (
        b"put a/BUCK 14\n(, name = \"x\")\ncommit\nopen t\nask t r //a:x\n",
        0,
        b"commit 1\nopen t 1\nr 1 fault bad-file a/BUCK 1\n",
    ),
    (
        b"put a/BUCK 26\nexport_file(\n, name = \"x\")\ncommit\nopen t\nask t r //a:x\n",
        0,
        b"commit 1\nopen t 1\nr 1 fault bad-file a/BUCK 2\n",
    ),
    (
        b"put a/BUCK 41\nfilegroup(name = \"x\", srcs = [\"//a//b\"])\n\ncommit\nopen t\nask t r //a:x\n",
        0,
        b"commit 1\nopen t 1\nr 1 fault bad-file a/BUCK 1\n",
    ),
    (
        b"put a/BUCK 22\ngo_binary(name = \"x\")\n\ncommit\nopen t\nask t r //a:x\n",
        0,
        b"commit 1\nopen t 1\nr 1 fault bad-file a/BUCK 1\n",
    ),
    (
        b"put a/BUCK 25\n\x0cexport_file(name = \"x\")\n\ncommit\nopen t\nask t r //a:x\n",
        0,
        b"commit 1\nopen t 1\nr 1 fault bad-file a/BUCK 1\n",
    ),
];

#[test]
fn hostile_target_files(rt: HostRuntime) -> Result<(), Fail> {
    assert_eq!(rt;
        first_other(&rt, rt.alloc(), RUN, b"", &HOSTILE_FILES)?,
        None
    );
    Ok(())
}

/// One target file is put and committed.
const COMMITTED: &[u8] =
    b"put a/BUCK 55\nwrite_file(name = \"w\", out = \"w.txt\", content = \"abc\")\n\ncommit\n";

const GIVEN_UP: [Row; 7] = [
    (
        b"open t\nask t r //a:w\nask t q //a:w\ncancel r\n",
        0,
        b"commit 1\nopen t 1\nr 1 cancelled\nq 1 72801cd249fb51131b7bbb93151ac0d3277ce1ef6febdf4fdc9f980dbb59266d\n",
    ),
    (
        b"open t\nask t r //a:w\nask t q //a:w\nwait q\nclose t\n",
        0,
        b"commit 1\nopen t 1\nr 1 cancelled\nq 1 72801cd249fb51131b7bbb93151ac0d3277ce1ef6febdf4fdc9f980dbb59266d\n",
    ),
    (
        b"open t\nask t r //a:w\nwait r\ncancel r\n",
        5,
        b"line 8: answered\n",
    ),
    (
        b"open t\nask t r //a:w\ncancel r\nask t q //a:w\n",
        0,
        b"commit 1\nopen t 1\nr 1 cancelled\nq 1 72801cd249fb51131b7bbb93151ac0d3277ce1ef6febdf4fdc9f980dbb59266d\n",
    ),
    (
        b"open t\nask t r //a:w\nclose t\nopen s\nask s q //a:w\n",
        0,
        b"commit 1\nopen t 1\nr 1 cancelled\nopen s 1\nq 1 72801cd249fb51131b7bbb93151ac0d3277ce1ef6febdf4fdc9f980dbb59266d\n",
    ),
    (
        b"drop a/BUCK\ncommit\nopen t\nask t r //a:w\n",
        0,
        b"commit 1\ncommit 2\nopen t 2\nr 2 fault no-package //a\n",
    ),
    (b"drop a/x\ncommit\n", 0, b"commit 1\ncommit 1\n"),
];

const NOTHING_DROPPED: [Row; 1] = [(b"drop a/x\ncommit\n", 0, b"commit 0\n")];

#[test]
fn requests_that_are_given_up_and_paths_that_are_dropped(rt: HostRuntime) -> Result<(), Fail> {
    assert_eq!(rt;
        first_other(&rt, rt.alloc(), RUN, COMMITTED, &GIVEN_UP)?,
        None
    );
    assert_eq!(rt;
        first_other(&rt, rt.alloc(), RUN, b"", &NOTHING_DROPPED)?,
        None
    );
    Ok(())
}

/// A script, the line of its first fault, and the word for it.
type FaultRow = (&'static [u8], u64, &'static str);

const HOSTILE: [FaultRow; 10] = [
    (b"put a/x 4194305\n", 1, "number"),
    (b"put a/x 01\n", 1, "number"),
    (b"put a//x 1\n", 1, "path"),
    (b"put a/x 1\nab\n", 1, "count"),
    (b"commit \n", 1, "word"),
    (b"open t\nclose t\nopen t\n", 3, "taken"),
    (b"open t\nclose t\nclose t\n", 3, "open"),
    (b"wait r\n", 1, "unknown"),
    (b"open t\nask t r //a:w\nclose t\nwait r\n", 4, "cancelled"),
    (b"open abcdefghijklmnopqrstuvwxyzabcdefg\n", 1, "name"),
];

/// Two good lines.
const GOOD: &[u8] = b"drop z/z\ncommit\n";

/// Whether the fault of a row is told on its line, after so many pairs of good lines.
fn is_refused<R: Threads + Wait + Sync>(
    rt: &R,
    alloc: Global,
    pairs: u64,
    row: &FaultRow,
) -> Result<bool, NoMemory> {
    let (rest, line, word) = *row;
    let mut script = Vec::new(alloc);
    for _ in 0..pairs {
        script.extend_from_slice(GOOD)?;
    }
    script.extend_from_slice(rest)?;
    let told = line.saturating_add(pairs.saturating_mul(2));
    let wanted = format!(in alloc; "line {told}: {word}\n")?;
    let (status, out) = outcome(rt, alloc, RUN, &script, &[], &[])?;
    Ok(status == 5 && out.as_slice() == wanted.as_bytes())
}

#[test]
fn hostile_scripts(rt: HostRuntime) -> Result<(), Fail> {
    for row in &HOSTILE {
        assert!(rt; is_refused(&rt, rt.alloc(), 0, row)?);
        assert!(rt; is_refused(&rt, rt.alloc(), 5_000, row)?);
    }
    Ok(())
}

const UNNAMED: [Row; 1] = [(FIRST, 2, b"")];

const LONG: [Row; 2] = [(b"", 0, b""), (b"\n", 5, b"script too long\n")];

#[test]
fn words_that_name_no_command_and_scripts_that_are_too_long(rt: HostRuntime) -> Result<(), Fail> {
    let alloc = rt.alloc();
    let refused: [&[&str]; 4] = [
        &["dice"],
        &["dice", "run", "--workers", "65"],
        &["dice", "bulk", "0"],
        &["dice", "bulk", "10001"],
    ];
    for words in refused {
        assert_eq!(rt; first_other(&rt, alloc, words, b"", &UNNAMED)?, None);
    }
    let long = vec![in alloc; b'\n'; 4_194_304]?;
    assert_eq!(rt; first_other(&rt, alloc, RUN, &long, &LONG)?, None);
    Ok(())
}

/// Whether the run of the first script ends as it should if the read with this number fails, and if
/// the write does. The script has 101 bytes and the output 114, so that of each the calls from 0 to
/// 11 are made.
fn fails_as_told<R: Threads + Wait + Sync>(
    rt: &R,
    alloc: Global,
    call: u64,
) -> Result<bool, NoMemory> {
    let (read, unread) = outcome(rt, alloc, RUN, FIRST, &[call], &[])?;
    let (written, begun) = outcome(rt, alloc, RUN, FIRST, &[], &[call])?;
    if call == 12 {
        return Ok(
            read == 0
                && unread.as_slice() == FIRST_OUT
                && written == 0
                && begun.as_slice() == FIRST_OUT,
        );
    }
    Ok(
        read == 3
            && unread.is_empty()
            && written == 4
            && begun.len() as u64 == call.saturating_mul(10)
            && FIRST_OUT.starts_with(begun.as_slice()),
    )
}

#[test]
fn each_read_and_each_write_fails(rt: HostRuntime) -> Result<(), Fail> {
    for call in 0..13 {
        assert!(rt; fails_as_told(&rt, rt.alloc(), call)?, "call {call}");
    }
    Ok(())
}
