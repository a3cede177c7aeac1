//! Scripts whose reading is known.

use script::{Line, Request, Script, ScriptRefusal, Word, read, readings_are_one};
use std::alloc::Global;
use std::test::Fail;

/// A text, and the line of its first fault with the word for it.
type FaultRow = (&'static [u8], usize, Word);

/// Whether this is the first fault of the text.
fn is_first_fault(alloc: Global, row: FaultRow) -> bool {
    let (text, line, word) = row;
    match read(alloc, text) {
        Ok(_) => false,
        Err(refusal) => refusal == ScriptRefusal::Fault { line, word },
    }
}

/// The number of the first row whose text has another first fault, or no fault.
fn first_other_fault(alloc: Global, rows: &[FaultRow]) -> Option<usize> {
    for i in 0..rows.len() {
        if !is_first_fault(alloc, rows[i]) {
            return Some(i);
        }
    }
    None
}

fn line_count(alloc: Global, text: &[u8]) -> Result<usize, ScriptRefusal> {
    Ok(read(alloc, text)?.lines().len())
}

const PUT_FAULTS: [FaultRow; 10] = [
    (b"put a/x 5\nabc", 1, Word::Count),
    (b"put a/x 1\nab", 1, Word::Count),
    (b"put a/x 1", 1, Word::Count),
    (b"put a/x 4194305", 1, Word::Number),
    (b"put a/x 01", 1, Word::Number),
    (b"put a/x ", 1, Word::Number),
    (b"put a/x 99999999999999999999999", 1, Word::Number),
    (b"put a//x 1", 1, Word::Path),
    (b"put a/x 0\n\nput a/x 01", 3, Word::Twice),
    (b"put a/x 2\n\n\n\nbad", 5, Word::Word),
];

#[test]
fn faults_of_puts(rt: HostRuntime) {
    assert!(rt; first_other_fault(rt.alloc(), &PUT_FAULTS) == None);
}

const WORD_FAULTS: [FaultRow; 11] = [
    (b"commit ", 1, Word::Word),
    (b"commit\r", 1, Word::Word),
    (b" ", 1, Word::Word),
    (b"put a/x", 1, Word::Word),
    (b"ask t r //a //b", 1, Word::Word),
    (b"drop", 1, Word::Word),
    (b"wait r q", 1, Word::Word),
    (b"cancel", 1, Word::Word),
    (b"close t ", 1, Word::Word),
    (b"client a", 1, Word::Word),
    (b"Open t", 1, Word::Word),
];

#[test]
fn faults_of_words(rt: HostRuntime) {
    assert!(rt; first_other_fault(rt.alloc(), &WORD_FAULTS) == None);
}

const NAME_FAULTS: [FaultRow; 9] = [
    (b"open ", 1, Word::Name),
    (b"open t\r", 1, Word::Name),
    (b"open abcdefghijklmnopqrstuvwxyz1234567", 1, Word::Name),
    (b"open t\nopen t", 2, Word::Taken),
    (b"#\n\nask t r //a", 3, Word::Open),
    (b"open t\nask t r! bad", 2, Word::Name),
    (b"open t\nask t t //a\naction t t bad", 3, Word::Taken),
    (b"open t\nask t r a:b", 2, Word::Label),
    (b"open t\nask t r :b", 2, Word::Label),
];

#[test]
fn faults_of_names(rt: HostRuntime) {
    assert!(rt; first_other_fault(rt.alloc(), &NAME_FAULTS) == None);
}

const REQUEST_FAULTS: [FaultRow; 19] = [
    (b"wait r", 1, Word::Unknown),
    (b"cancel r", 1, Word::Unknown),
    (b"wait r!", 1, Word::Name),
    (b"cancel ", 1, Word::Name),
    (b"close t\r", 1, Word::Name),
    (b"close t", 1, Word::Open),
    (b"open t\nclose t\nopen t", 3, Word::Taken),
    (b"open t\nclose t\nclose t", 3, Word::Open),
    (b"open t\nclose t\nask t r //a", 3, Word::Open),
    (
        b"open t\nask t r //a:w\nclose t\nwait r",
        4,
        Word::Cancelled,
    ),
    (
        b"open t\nask t r //a:w\nclose t\ncancel r",
        4,
        Word::Cancelled,
    ),
    (
        b"open t\nask t r //a:w\ncancel r\nwait r",
        4,
        Word::Cancelled,
    ),
    (
        b"open t\nask t r //a:w\ncancel r\ncancel r",
        4,
        Word::Cancelled,
    ),
    (
        b"open t\nask t r //a:w\nwait r\ncancel r",
        4,
        Word::Answered,
    ),
    (
        b"open t\nask t r //a:w\nwait r\nclose t\ncancel r",
        5,
        Word::Answered,
    ),
    (b"drop a//x", 1, Word::Path),
    (b"drop a/x\ndrop a/x", 2, Word::Twice),
    (b"put a/x 0\n\ndrop a/x", 3, Word::Twice),
    (b"drop a/x\nput a/x 01", 2, Word::Twice),
];

#[test]
fn faults_of_requests_and_transactions(rt: HostRuntime) {
    assert!(rt; first_other_fault(rt.alloc(), &REQUEST_FAULTS) == None);
}

/// Scripts, and how many lines that do something they have.
const SCRIPTS: [(&[u8], usize); 8] = [
    (b"", 0),
    (b"\n# put\n\n", 0),
    (b"put a/x 0", 1),
    (b"put a/x 0\n", 1),
    (b"put a/x 0\n\ncommit\nput a/x 1\nb\ncommit", 4),
    (b"open abcdefghijklmnopqrstuvwxyz123456", 1),
    (b"drop a/x\ncommit\ndrop a/x", 3),
    (b"open t\nask t r //a\nwait r\nwait r\nclose t\nwait r", 6),
];

#[test]
fn scripts_of_few_lines(rt: HostRuntime) {
    for (text, lines) in SCRIPTS {
        assert!(rt; line_count(rt.alloc(), text) == Ok(lines));
    }
    readings_are_one();
}

fn is_request(request: &Request, name: &[u8], label: &[u8]) -> bool {
    request.transaction.as_bytes() == b"t".as_slice()
        && request.name.as_bytes() == name
        && request.label.as_bytes() == label
}

/// Whether a line is as the line of this number in `WRITTEN`.
fn is_as_written(at: usize, line: &Line) -> bool {
    match (at, line) {
        (0, Line::Put(path, bytes)) => {
            path.as_bytes() == b"a/f".as_slice() && bytes.as_bytes() == b"\n\n".as_slice()
        }
        (1, Line::Commit) => true,
        (2, Line::Open(name)) => name.as_bytes() == b"t".as_slice(),
        (3, Line::Ask(request)) => is_request(request, b"r", b"//a:a"),
        (4, Line::Action(request)) => is_request(request, b"q", b"//a:w"),
        _ => false,
    }
}

const WRITTEN: &[u8] = b"put a/f 2\n\n\n\ncommit\nopen t\nask t r //a\naction t q //a:w";

/// Whether there are five lines, each as written.
fn are_as_written(lines: &[Line]) -> bool {
    for i in 0..lines.len() {
        if !is_as_written(i, &lines[i]) {
            return false;
        }
    }
    lines.len() == 5
}

fn is_read_as_written(alloc: Global) -> Result<bool, ScriptRefusal> {
    Ok(are_as_written(read(alloc, WRITTEN)?.lines()))
}

#[test]
fn lines_as_written(rt: HostRuntime) {
    assert!(rt; is_read_as_written(rt.alloc()) == Ok(true));
    assert!(rt; Word::Twice.text() == "twice");
}

/// Whether the request in this line is cancelled; `None` if there is none.
fn is_cancelled(script: &Script, at: usize) -> Option<bool> {
    match script.lines().get(at) {
        Some(Line::Ask(request) | Line::Action(request)) => {
            Some(script.is_cancelled(&request.name))
        }
        _ => None,
    }
}

/// The same of the script that is read from this text.
fn cancelled(alloc: Global, text: &[u8], at: usize) -> Result<Option<bool>, ScriptRefusal> {
    Ok(is_cancelled(&read(alloc, text)?, at))
}

#[test]
fn requests_that_a_script_cancels(rt: HostRuntime) {
    let alloc = rt.alloc();
    let text =
        b"open t\nask t r //a\nask t q //a\nask t p //a\naction t o //a\nopen s\nask s n //a\nwait q\ncancel r\nclose t";
    let rows = [(1, true), (2, false), (3, true), (4, true), (6, false)];
    for (at, is) in rows {
        assert!(rt; cancelled(alloc, text, at) == Ok(Some(is)));
    }
}

/// What a long script begins with, and how many lines of it do something; then what it repeats,
/// with a number between the parts, and how many lines of that do something.
type LongRow = (&'static [u8], usize, &'static [&'static [u8]], usize);

const LONG: [LongRow; 9] = [
    // puts of one byte, and paths that are dropped
    (b"", 0, &[b"put a/", b" 1\nx\n"], 1),
    (b"", 0, &[b"drop a/", b"\n"], 1),
    // long names, requests, one that is waited for, and transactions that are closed
    (b"", 0, &[b"open abcdefghijklmnopqrstuvwx", b"\n"], 1),
    (b"open t\n", 1, &[b"ask t r", b" //a\n"], 1),
    (b"open t\nask t r //a\n", 2, &[b"wait r\n"], 1),
    (b"", 0, &[b"open t", b"\nclose t", b"\n"], 2),
    // lines that do nothing, and one line without an end
    (b"", 0, &[b"#\n"], 0),
    (b"", 0, &[b"\n"], 0),
    (b"#", 0, &[b"x"], 0),
];

const LONGEST: usize = 4_194_304;

/// Adds the parts, with the number between them.
fn push_numbered(
    alloc: Global,
    text: &mut Vec<u8>,
    parts: &[&[u8]],
    number: usize,
) -> Result<(), Fail> {
    for i in 0..parts.len() {
        if i > 0 {
            text.extend_from_slice(format!(in alloc; "{number}")?.as_bytes())?;
        }
        text.extend_from_slice(parts[i])?;
    }
    Ok(())
}

/// A script of the greatest length, and how many of its lines do something.
fn long(alloc: Global, row: &LongRow) -> Result<(Vec<u8>, usize), Fail> {
    let (before, begun, parts, each) = *row;
    let mut text = Vec::from_slice(alloc, before)?;
    let mut lines = begun;
    for number in 0..LONGEST {
        let length = text.len();
        push_numbered(alloc, &mut text, parts, number)?;
        if text.len() > LONGEST {
            text.truncate(length);
            break;
        }
        lines = lines.saturating_add(each);
    }
    text.resize(LONGEST, b'\n')?;
    Ok((text, lines))
}

/// Whether the longest script of a row has its lines, and is too long with one byte more.
fn is_longest(alloc: Global, row: &LongRow) -> Result<bool, Fail> {
    let (mut text, lines) = long(alloc, row)?;
    let read = line_count(alloc, &text);
    text.push(b'\n')?;
    let refused = line_count(alloc, &text);
    Ok(read == Ok(lines) && refused == Err(ScriptRefusal::TooLong))
}

/// The number of the first row that is not as told.
fn first_other_long(alloc: Global, rows: &[LongRow]) -> Result<Option<usize>, Fail> {
    for i in 0..rows.len() {
        if !is_longest(alloc, &rows[i])? {
            return Ok(Some(i));
        }
    }
    Ok(None)
}

#[test]
fn the_longest_scripts_of_puts(rt: HostRuntime) -> Result<(), Fail> {
    assert!(rt; first_other_long(rt.alloc(), &LONG[..2])? == None);
    Ok(())
}

#[test]
fn the_longest_scripts_of_transactions(rt: HostRuntime) -> Result<(), Fail> {
    assert!(rt; first_other_long(rt.alloc(), &LONG[2..4])? == None);
    assert!(rt; first_other_long(rt.alloc(), &LONG[5..6])? == None);
    Ok(())
}

#[test]
fn the_longest_scripts_of_waits(rt: HostRuntime) -> Result<(), Fail> {
    assert!(rt; first_other_long(rt.alloc(), &LONG[4..5])? == None);
    Ok(())
}

#[test]
fn the_longest_scripts_of_nothing(rt: HostRuntime) -> Result<(), Fail> {
    assert!(rt; first_other_long(rt.alloc(), &LONG[6..])? == None);
    Ok(())
}
