//! Texts with their targets, and texts that are none.

use buck_label::Text;
use std::alloc::Global;
use std::test::Fail;
use target_file::{Action, Command, File, FileFault, Source, Target, read};

/// How many targets the text has; 99 if it is no file.
fn count(alloc: Global, text: &[u8]) -> usize {
    match read(alloc, text) {
        Ok(file) => file.targets().len(),
        Err(_) => 99,
    }
}

/// The line that is named; 0 if the text is a file.
fn line_of(alloc: Global, text: &[u8]) -> u64 {
    match read(alloc, text) {
        Ok(_) => 0,
        Err(fault) => line_in(fault),
    }
}

fn line_in(fault: FileFault) -> u64 {
    match fault {
        FileFault::Bad { line } => line,
        FileFault::NoMemory => 0,
    }
}

fn shared<T: Send + Sync>(_value: &T) {}

const FILES: [(&[u8], usize); 15] = [
    (b"", 0),
    (b"# only a comment", 0),
    (b" \t\r\n#\n", 0),
    (b"write_file(name = \"w\", content = \"a\")\n", 1),
    (b"write_file(name='w',content='a',)", 1),
    (
        b"write_file(content=\"\",out=\"o\",name=\"a/b\")write_file(name=\"c\",content='\"')",
        2,
    ),
    (
        b"write_file(\r\n\tname = \"w\", # the name\r\n\tcontent = \"x\"\r\n)\r\n",
        1,
    ),
    (b"write_file\n(\nname\n=\n\"w\"\n,\ncontent\n=\n\"\"\n)", 1),
    (
        b"write_file(name = \"w\", content = \"\\\\ \\\" \\' \\n \\t \\r\")",
        1,
    ),
    (
        b"write_file(name = \"w\", content = \"a\")#c\n#d\n\nwrite_file(name = \"v\", content = \"a\")",
        2,
    ),
    // the other rules, lists, labels
    (
        b"export_file(name = \"f\")filegroup(name = \"x\")stamp_file(name = \"s\",)",
        3,
    ),
    (
        b"filegroup(name='x',srcs=[':y','//a:b','f','f',],labels=[],visibility=['PUBLIC'])",
        1,
    ),
    (
        b"genrule(name = \"g\", srcs = [\"f\"], out = \"o\", cmd = \"cat $(location :w)\")",
        1,
    ),
    // no location begins here
    (
        b"genrule(name='g',out='o',cmd='$(location)$ (location w)')",
        1,
    ),
    // a name of another rule, and attributes named like rules' words
    (
        b"stamp_file(name='genrule')write_file(name='out',content='')",
        2,
    ),
];

const FAULTS: [(&[u8], u64); 44] = [
    // an attribute is missing: told at the parenthesis, or at the end
    (b"write_file(name = \"w\")\n", 1),
    (b"write_file(\n", 2),
    (b"write_file(\n)", 2),
    (b"write_file(name = \"w", 1),
    (b"write_f", 1),
    (b"\nwrite_file", 2),
    (b"write_file(name = \"w\", # c\n", 2),
    // a string ends on its line
    (b"write_file(name = \"w\n\", content = \"a\")", 1),
    (b"write_file(name = \"w\", content = \"a\rb\")", 1),
    (b"write_file(name = \"w\", content = \"a\\q\")", 1),
    (b"write_file(name = 'w\", content = \"a\")\n", 1),
    // unknown words, and stumps
    (b"\ncxx_library(", 2),
    (b"write_fil\ne(", 1),
    // an attribute of another rule
    (b"stamp_file(name = \"s\",\ncontent = \"a\")", 2),
    (b"filegroup(name = \"x\",\nout = \"o\")", 2),
    (b"write_file(name = \"w\", content = \"a\")\nx", 2),
    // commas and brackets
    (b"write_file(\n,)", 2),
    (b"write_file(name = \"w\", content = \"a\",\n,)", 2),
    (b"write_file(name = \"w\" content = \"a\")", 1),
    (b"write_file(name =\n[\"w\"], content = \"a\")", 2),
    (b"filegroup(name = \"x\", srcs =\n\"a\")", 2),
    (b"filegroup(name = \"x\", srcs = [\n,])", 2),
    (b"filegroup(name = \"x\", srcs = [\"a\",\n,])", 2),
    (b"filegroup(name = \"x\", srcs = [\"a\"\n\"b\"])", 2),
    (b"filegroup(name = \"x\", srcs = [\n[\"a\"]])", 2),
    (b"write_file(name = \"w\", content = \"a\")\n)", 2),
    // an attribute or a name twice
    (
        b"write_file(name = \"w\",\nname = \"v\", content = \"a\")",
        2,
    ),
    (
        b"write_file(name = \"w\", content = \"a\")\nwrite_file(name = \"w\", content = \"b\")\n",
        2,
    ),
    (
        b"write_file(name='w',content='')\nwrite_file(name='v',content='')\nwrite_file(\nname='w',content='')",
        4,
    ),
    // a name is a path
    (b"write_file(\n#x\nname = \"a//b\"", 3),
    (b"write_file(name = \"..\", content = \"\")", 1),
    (b"write_file(name = \"w\",\nout = \"\", content = \"\")", 2),
    // sources and locations
    (b"filegroup(name = \"x\",\nsrcs = [\"f\", \"//a//b\"])", 2),
    (b"filegroup(name = \"x\",\nsrcs = [\"a:b\"])", 2),
    (
        b"genrule(name = \"g\", out = \"o\",\ncmd = \"$(location :w\")",
        2,
    ),
    (
        b"genrule(name = \"g\", out = \"o\",\ncmd = \"$(location  :w)\")",
        2,
    ),
    (
        b"genrule(name = \"g\", out = \"o\",\ncmd = \"$(location w)\")",
        2,
    ),
    (
        b"genrule(name = \"g\", out = \"o\", cmd = \"$(location a)\")",
        1,
    ),
    (b"genrule(name = \"g\", cmd = \"\"\n)", 2),
    // other bytes
    (b"\x0c", 1),
    (b"\n\0", 2),
    (b"\xef\xbb\xbf", 1),
    (b"\n\n,", 3),
    // the second name of a hash comes again
    (
        b"stamp_file(name='head000000021936UfrwccmK00000000')stamp_file(name='head000000021936UfrwccmK00000001')\nstamp_file(name='head000000021936UfrwccmK00000001')",
        2,
    ),
];

#[test]
fn files_are_read(rt: HostRuntime) {
    for (text, targets) in FILES {
        assert!(rt; count(rt.alloc(), text) == targets);
    }
}

#[test]
fn faults_are_told_on_their_line(rt: HostRuntime) {
    for (text, line) in FAULTS {
        assert!(rt; line_of(rt.alloc(), text) == line);
    }
}

/// The action of the target of this name.
fn action<'a>(file: &'a File, name: &[u8]) -> Option<&'a Action> {
    match file.target(name) {
        Some(target) => Some(target.action()),
        None => None,
    }
}

fn writes(file: &File, name: &[u8], wanted_out: &[u8], wanted: &[u8]) -> bool {
    match action(file, name) {
        Some(Action::WriteFile { content, out }) => {
            out.as_bytes() == wanted_out && content.as_bytes() == wanted
        }
        _ => false,
    }
}

/// The name of the target that this name finds.
fn has_name(file: &File, name: &[u8]) -> bool {
    match file.target(name) {
        Some(target) => target.name() == name,
        None => false,
    }
}

/// Whether the file has two targets, which begin on these lines.
fn has_lines(file: &File, first: u64, second: u64) -> bool {
    match file.targets() {
        [x, y] => x.line == first && y.line == second,
        _ => false,
    }
}

const TWO: &[u8] =
    b"write_file(name = \"u\", content = \"a\\n\")\n\nwrite_file(content = 'b', out = \"o/p\", name = \"w\")";

#[test]
fn targets_are_found_by_name(rt: HostRuntime) -> Result<(), Fail> {
    let file = read(rt.alloc(), TWO)?;
    assert!(rt; writes(&file, b"u", b"u", b"a\n") && writes(&file, b"w", b"o/p", b"b"));
    assert!(rt; has_name(&file, b"w"));
    assert!(rt; file.target(b"v").is_none() && file.target(b"").is_none());
    assert!(rt; has_lines(&file, 1, 3));
    shared(&file);
    Ok(())
}

// All names of such a head, with any eight bytes after it, have one hash in the table of a file.
const ONE_HASH: &[u8] = b"stamp_file(name = 'head000000021936UfrwccmK00000000')
stamp_file(name = 'head000000021936UfrwccmK00000001')
stamp_file(name = 'w')
stamp_file(name = 'head000000021936UfrwccmK00000002')
";

#[test]
fn names_of_one_hash_are_told_apart(rt: HostRuntime) -> Result<(), Fail> {
    let file = read(rt.alloc(), ONE_HASH)?;
    let names: [(&[u8], bool); 5] = [
        (b"head000000021936UfrwccmK00000000", true),
        (b"head000000021936UfrwccmK00000001", true),
        (b"head000000021936UfrwccmK00000002", true),
        (b"head000000021936UfrwccmK00000003", false),
        (b"w", true),
    ];
    for (name, found) in names {
        assert!(rt; has_name(&file, name) == found);
    }
    Ok(())
}

/// Whether two files have the same target `w`.
fn have_same(x: &File, y: &File) -> bool {
    match (x.target(b"w"), y.target(b"w")) {
        (Some(x), Some(y)) => **x == **y,
        _ => false,
    }
}

/// The same of the files of two texts.
fn same_target(alloc: Global, x: &[u8], y: &[u8]) -> Result<bool, FileFault> {
    Ok(have_same(&read(alloc, x)?, &read(alloc, y)?))
}

fn same_file(alloc: Global, x: &[u8], y: &[u8]) -> Result<bool, FileFault> {
    Ok(read(alloc, x)? == read(alloc, y)?)
}

#[test]
fn calls_are_equal_by_what_they_mean(rt: HostRuntime) {
    let alloc = rt.alloc();
    let plain = b"write_file(name = \"w\", content = \"a\")";
    let other = b"write_file(content = 'a', labels = [], out = \"w\", name = 'w',)";
    let below = b"\nwrite_file(name = \"w\", content = \"a\")";
    let changed = b"write_file(name = \"w\", content = \"b\")";
    let labelled = b"write_file(name = \"w\", content = \"a\", labels = ['x'])";
    let targets: [(&[u8], bool); 4] = [
        (other, true),
        (below, true),
        (changed, false),
        (labelled, false),
    ];
    for (text, same) in targets {
        assert!(rt; same_target(alloc, plain, text) == Ok(same));
    }
    let files: [(&[u8], bool); 3] = [(other, true), (below, false), (changed, false)];
    for (text, same) in files {
        assert!(rt; same_file(alloc, plain, text) == Ok(same));
    }
}

const FIVE: &[u8] = b"export_file(name = 'f', out = 'o')
filegroup(name = 'x', srcs = ['f', ':f', '//a'], labels = ['l', ''], visibility = ['PUBLIC'])
genrule(name = 'g', out = 'p', cmd = 'a $(location :f) $(location //a:b)')
stamp_file(name = 's')
";

fn exports(file: &File, name: &[u8], wanted_src: &[u8], wanted_out: &[u8]) -> bool {
    match action(file, name) {
        Some(Action::ExportFile { src, out }) => {
            src.as_bytes() == wanted_src && out.as_bytes() == wanted_out
        }
        _ => false,
    }
}

fn is_path(source: &Source, wanted: &[u8]) -> bool {
    match source {
        Source::Path(path) => path.as_bytes() == wanted,
        Source::Label(_) => false,
    }
}

fn is_label(source: &Source, wanted: &[u8]) -> bool {
    match source {
        Source::Label(label) => label.as_bytes() == wanted,
        Source::Path(_) => false,
    }
}

/// Whether the target `x` groups a path and two labels.
fn groups(file: &File) -> bool {
    match action(file, b"x") {
        Some(Action::Filegroup { srcs }) => match srcs.as_slice() {
            [path, here, there] => {
                is_path(path, b"f") && is_label(here, b":f") && is_label(there, b"//a")
            }
            _ => false,
        },
        _ => false,
    }
}

/// Whether the command has its text and its two locations.
fn is_command(cmd: &Command) -> bool {
    match cmd.locations() {
        [first, second] => {
            first.as_bytes() == b":f".as_slice()
                && second.as_bytes() == b"//a:b".as_slice()
                && cmd.text() == b"a $(location :f) $(location //a:b)".as_slice()
        }
        _ => false,
    }
}

fn generates(file: &File) -> bool {
    match action(file, b"g") {
        Some(Action::Genrule { srcs, out, cmd }) => {
            srcs.as_slice().is_empty() && out.as_bytes() == b"p".as_slice() && is_command(cmd)
        }
        _ => false,
    }
}

fn stamps(file: &File) -> bool {
    match action(file, b"s") {
        Some(Action::StampFile { out }) => out.as_bytes() == b"s".as_slice(),
        _ => false,
    }
}

fn are(texts: &[Text], wanted: &[&[u8]]) -> bool {
    if texts.len() != wanted.len() {
        return false;
    }
    for (text, bytes) in texts.iter().zip(wanted) {
        if text.as_bytes() != *bytes {
            return false;
        }
    }
    true
}

/// Whether a target has these labels and this visibility.
fn is_marked(file: &File, name: &[u8], labels: &[&[u8]], visibility: &[&[u8]]) -> bool {
    match file.target(name) {
        Some(target) => are(target.labels(), labels) && are(target.visibility(), visibility),
        None => false,
    }
}

#[test]
fn targets_of_five_rules(rt: HostRuntime) -> Result<(), Fail> {
    let file = read(rt.alloc(), FIVE)?;
    assert!(rt; exports(&file, b"f", b"f", b"o"));
    assert!(rt; groups(&file) && is_marked(&file, b"x", &[b"l", b""], &[b"PUBLIC"]));
    assert!(rt; generates(&file));
    assert!(rt; stamps(&file) && is_marked(&file, b"s", &[], &[]));
    Ok(())
}

/// A text of 256 KiB: bytes before, a piece that is repeated, and bytes at the end; then how many
/// targets it has, or 99, and the line of its fault, or 0.
type LargeRow = (&'static [u8], &'static [u8], &'static [u8], usize, u64);

const LARGE: [LargeRow; 8] = [
    // one string, one list, one command of locations, and quotes in a command
    (b"write_file(name='w',content='", b"x", b"')", 1, 0),
    (b"filegroup(name='x',srcs=[", b"'f',", b"])", 1, 0),
    (
        b"genrule(name='g',out='o',cmd='",
        b"$(location :f)",
        b"')",
        1,
        0,
    ),
    (b"genrule(name='g',out='o',cmd='", b"\\'\"", b"')", 1, 0),
    // commas, brackets and parentheses
    (b"filegroup(name='x',srcs=['f'", b",,", b"])", 99, 1),
    (b"filegroup(name='x',srcs=", b"[[", b"])", 99, 1),
    (b"filegroup(name='x'\n", b"((", b")", 99, 2),
    // lines without calls
    (b"", b"\n", b"x", 99, 262_144),
];

const LARGEST: usize = 262_144;

/// The text of a row.
fn large(alloc: Global, row: &LargeRow) -> Result<Vec<u8>, Fail> {
    let (before, piece, end, _, _) = *row;
    let mut text = Vec::new(alloc);
    text.extend_from_slice(before)?;
    for _ in 0..LARGEST {
        if text
            .len()
            .saturating_add(piece.len())
            .saturating_add(end.len())
            > LARGEST
        {
            break;
        }
        text.extend_from_slice(piece)?;
    }
    text.extend_from_slice(end)?;
    Ok(text)
}

/// Whether a large text is read as its row says.
fn is_read_so(alloc: Global, row: &LargeRow) -> Result<bool, Fail> {
    let (_, _, _, targets, line) = *row;
    let text = large(alloc, row)?;
    Ok(count(alloc, &text) == targets && line_of(alloc, &text) == line)
}

#[test]
fn large_files(rt: HostRuntime) -> Result<(), Fail> {
    for row in &LARGE {
        assert!(rt; is_read_so(rt.alloc(), row)?);
    }
    Ok(())
}

/// How many targets a file of so many calls has.
fn targets_of_calls(alloc: Global, calls: u32) -> Result<usize, Fail> {
    let mut text = String::new(alloc);
    for call in 0..calls {
        let line = format!(in alloc; "stamp_file(name='s{call}')\n")?;
        text.push_str(&line)?;
    }
    Ok(count(alloc, text.as_bytes()))
}

#[test]
fn a_file_of_many_calls(rt: HostRuntime) -> Result<(), Fail> {
    assert!(rt; targets_of_calls(rt.alloc(), 20_000)? == 20_000);
    Ok(())
}
