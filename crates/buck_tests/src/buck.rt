//! The universe of Buck targets, call by call, and its values from nothing.
ghost use Rattle.std.specs.Prelude.{◌≡◌, length, IfOk};
ghost use Rattle.dice_model.specs.Log.{IsCommit, pairs_of};
ghost use Rattle.action_digest.specs.Buck.{buck};

use action_digest::{
    ActionKey, Buck, Contents, DigestKey, Fault, Key, PackageKey, RuleKey, SourceKey, Value,
    cycles_are_of_labels, keys_are_settled, labels_of_cycle,
};
use buck_label::{Label, Package, Path, Text};
use dice_key::{Answers, Kind, Move, NoMemory, TypedKey, Universe};
use dice_model::{Commits, plain};
use std::alloc::Global;
use std::sync::Arc;
use std::test::Fail;

/// The commit of one file.
fn one_file(
    alloc: Global,
    path: Path,
    bytes: &[u8],
) -> Result<Vec<(Arc<Key>, Arc<Value>)>, NoMemory>
    ensures { IfOk result (λ c. IsCommit buck (pairs_of c.items)) }
{
    let text = Text::from_slice(alloc, bytes)?;
    let contents = Contents::new(alloc, text);
    let value = Arc::new(alloc, Value::Source(Some(contents)))?;
    let key = Arc::new(alloc, Key::Source(path))?;
    let mut changes = Vec::new(alloc);
    changes.push((key, value))?;
    Ok(changes)
}

fn label(alloc: Global, text: &[u8]) -> Result<Label, NoMemory> {
    Label::read(alloc, text).map_err(|_| NoMemory)
}

fn path(alloc: Global, text: &[u8]) -> Result<Path, NoMemory> {
    Path::read(alloc, text).map_err(|_| NoMemory)
}

/// The package `a`.
fn package(alloc: Global) -> Result<Package, NoMemory> {
    Package::read(alloc, b"a").map_err(|_| NoMemory)
}

fn is_no_package(value: &Value, name: &[u8]) -> bool {
    match value {
        Value::Package(Err(Fault::NoPackage(package))) => package.as_bytes() == name,
        _ => false,
    }
}

fn prints(universe: &Buck, key: &Key, short: bool, text: &[u8]) -> Result<bool, NoMemory> {
    Ok(universe.print(key, short)?.as_bytes() == text)
}

fn is_computed(alloc: Global) -> Result<bool, NoMemory> {
    let universe = Buck::new(alloc)?;
    let key = PackageKey {
        package: package(alloc)?,
    };
    Ok(universe.kind(&key.wrap()) == Kind::Computed)
}

/// Whether a move asks first for what prints as this.
fn asks(universe: &Buck, step: &Move<Key, Value>, text: &[u8]) -> Result<bool, NoMemory> {
    match step {
        Move::Ask(batch) => match batch.keys() {
            [key, ..] => prints(universe, key, false, text),
            [] => Ok(false),
        },
        Move::Done(_) => Ok(false),
    }
}

/// Whether a move tells that there is no package `a`.
fn tells_no_package(step: &Move<Key, Value>) -> bool {
    match step {
        Move::Done(value) => is_no_package(value, b"a"),
        Move::Ask(_) => false,
    }
}

/// The answer that a file has no bytes.
fn no_file(alloc: Global) -> Result<Answers<Value>, NoMemory>
    ensures { IfOk result (λ answers. length answers ≡ 1) }
{
    let none = Arc::new(alloc, Value::Source(None))?;
    let mut answers = Answers::new(alloc);
    answers.push(none)?;
    Ok(answers)
}

/// Whether the package `a` asks its target file, and is none if the file has no bytes.
fn asks_its_file(alloc: Global) -> Result<bool, NoMemory> {
    let universe = Buck::new(alloc)?;
    let answers = no_file(alloc)?;
    let package = package(alloc)?;
    let key = Arc::new(alloc, PackageKey { package }.wrap())?;
    let (mut run, first) = universe.begin(&key, 1)?;
    let asked = asks(&universe, &first, b"source a/BUCK")?;
    let second = universe.resume(&mut run, &answers)?;
    Ok(asked && tells_no_package(&second))
}

#[test]
fn a_package_asks_its_target_file(rt: HostRuntime) -> Result<(), Fail> {
    let alloc = rt.alloc();
    assert!(rt; is_computed(alloc)?);
    assert!(rt; asks_its_file(alloc)?);
    Ok(())
}

/// The rule of `//a:w`.
fn rule_key(alloc: Global) -> Result<Arc<Key>, NoMemory> {
    let label = label(alloc, b"//a:w")?;
    Ok(Arc::new(alloc, RuleKey { label }.wrap())?)
}

fn base_prints(universe: &Buck, key: &Key, text: &[u8]) -> Result<bool, NoMemory> {
    let base = universe.base(key)?;
    prints(universe, &base, false, text)
}

/// Whether the rule `//a:w` has its package as its base, prints as its label if short, and asks one
/// batch.
fn stands_on_its_package(alloc: Global) -> Result<bool, NoMemory> {
    let universe = Buck::new(alloc)?;
    let rule = rule_key(alloc)?;
    Ok(
        base_prints(&universe, &rule, b"package //a")?
            && prints(&universe, &rule, true, b"//a:w")?
            && universe.most_batches(&rule) == 1,
    )
}

#[test]
fn a_rule_stands_on_its_package(rt: HostRuntime) -> Result<(), Fail> {
    assert!(rt; stands_on_its_package(rt.alloc())?);
    Ok(())
}

/// Whether the rule has the fault that there is no package, which is not transient.
fn has_fault_of_package(alloc: Global) -> Result<bool, NoMemory> {
    let universe = Buck::new(alloc)?;
    let rule = rule_key(alloc)?;
    let package = package(alloc)?;
    let none = Arc::new(alloc, Value::Package(Err(Fault::NoPackage(package))))?;
    let found = universe.project(&rule, &none)?;
    Ok(is_no_package_of_rule(&found) && !universe.is_transient(&found))
}

#[test]
fn a_rule_of_no_package_has_its_fault(rt: HostRuntime) -> Result<(), Fail> {
    assert!(rt; has_fault_of_package(rt.alloc())?);
    Ok(())
}

fn is_no_package_of_rule(value: &Value) -> bool {
    matches!(RuleKey::read(value), Some(Err(Fault::NoPackage(_))))
}

/// Files that are put, each by a commit of its own.
type Files<'a> = &'a [(&'a [u8], &'a [u8])];

fn log_of(alloc: Global, files: Files<'_>) -> Result<Commits<Buck>, NoMemory> {
    let mut commits = Commits::new(alloc);
    for (name, bytes) in files {
        let name = path(alloc, name)?;
        commits.push(one_file(alloc, name, bytes)?)?;
    }
    Ok(commits)
}

/// How deep the evaluation goes: more than the keys of any row.
const DEPTH: u32 = 12;

/// The value of a key from nothing, at the version of the whole log, by an evaluation that goes
/// this deep.
fn value_within(
    alloc: Global,
    files: Files<'_>,
    key: Key,
    depth: u32,
) -> Result<Option<Arc<Value>>, NoMemory> {
    let key = Arc::new(alloc, key)?;
    let commits = log_of(alloc, files)?;
    let universe = Buck::new(alloc)?;
    plain(alloc, &universe, &commits, files.len() as u64, &key, depth)
}

/// The same, deep enough.
fn value_of(alloc: Global, files: Files<'_>, key: Key) -> Result<Option<Arc<Value>>, NoMemory> {
    value_within(alloc, files, key, DEPTH)
}

/// A fault in words.
fn fault_text(alloc: Global, fault: &Fault) -> Result<Vec<u8>, NoMemory> {
    let (word, place) = match fault {
        Fault::NoPackage(package) => (b"no-package ".as_slice(), package.as_bytes()),
        Fault::BadFile(path, 2) => (b"bad-file on line 2 ".as_slice(), path.as_bytes()),
        Fault::BadFile(path, _) => (b"bad-file ".as_slice(), path.as_bytes()),
        Fault::NoTarget(label) => (b"no-target ".as_slice(), label.as_bytes()),
        Fault::NoSource(path) => (b"no-source ".as_slice(), path.as_bytes()),
    };
    let mut text = Vec::from_slice(alloc, word)?;
    text.extend_from_slice(place)?;
    Ok(text)
}

/// The action of the target of this label.
fn action_key(alloc: Global, name: &[u8]) -> Result<Key, NoMemory> {
    let label = label(alloc, name)?;
    Ok(ActionKey { label }.wrap())
}

/// The digest of the target of this label.
fn digest_key(alloc: Global, name: &[u8]) -> Result<Key, NoMemory> {
    let label = label(alloc, name)?;
    Ok(DigestKey { label }.wrap())
}

/// The text of an action or its fault in words; nothing if it has no value.
fn action_text(alloc: Global, files: Files<'_>, name: &[u8]) -> Result<Vec<u8>, NoMemory> {
    let key = action_key(alloc, name)?;
    match value_of(alloc, files, key)? {
        Some(value) => match ActionKey::read(&value) {
            Some(Ok(action)) => Ok(Vec::from_slice(alloc, action.text.as_bytes())?),
            Some(Err(fault)) => fault_text(alloc, fault),
            None => Ok(Vec::new(alloc)),
        },
        None => Ok(Vec::new(alloc)),
    }
}

/// The value of the package `a`, whose target file has these bytes.
fn package_of(alloc: Global, bytes: &[u8]) -> Result<Option<Arc<Value>>, NoMemory> {
    let package = package(alloc)?;
    value_of(alloc, &[(b"a/BUCK", bytes)], PackageKey { package }.wrap())
}

fn has_one_target(value: &Value) -> bool {
    match value {
        Value::Package(Ok(package)) => package.file().targets().len() == 1,
        _ => false,
    }
}

/// Texts of a package, and whether it has the same targets as `WRITE`.
const PACKAGES: [(&[u8], bool); 4] = [
    (WRITE, true),
    (
        b"write_file(content = 'abc', out = 'w.txt', name = 'w')",
        true,
    ),
    (
        b"\nwrite_file(name = 'w', out = 'w.txt', content = 'abc')",
        false,
    ),
    (b"write_file(name = 'w', content = 'abc')", false),
];

#[test]
fn a_package_is_its_targets_whatever_their_text(rt: HostRuntime) -> Result<(), Fail> {
    let alloc = rt.alloc();
    let package = package_of(alloc, WRITE)?;
    for (bytes, same) in PACKAGES {
        assert!(rt; (package_of(alloc, bytes)? == package) == same);
    }
    assert!(rt; package.is_some_and(|value| has_one_target(&value)));
    Ok(())
}

const EXPORT: &[u8] = b"export_file(name = \"f\")\n";

const WRITE: &[u8] = b"write_file(name = \"w\", out = \"w.txt\", content = \"abc\")\n";

const STAMP: &[u8] = b"stamp_file(name = \"s\")\n";

const GENRULE: &[u8] =
    b"write_file(name = \"w\", content = \"a\")\ngenrule(name = \"g\", srcs = [\"f\"], out = \"o\", cmd = \"cat $(location :w)\")\n";

const GENRULE_TEXT: &[u8] =
    b"genrule\no\n7336b594865fdb588b7d1a3a71d0007082c09057986f56bd174f12af6161e41d\na/f ca978112ca1bbdcafac231b39a23dc4da786eff8147c4e72b9807785afee48bb\n//a:w 2616f37868187e67866efe13f05998dff95cdcc62be7a43364a81274bc2a6a49\n";

/// Files, a label, and the text of its action.
const ACTIONS: [(Files<'static>, &[u8], &[u8]); 7] = [
    (&[(b"a/BUCK", WRITE)], b"//a:w", WRITE_TEXT),
    (
        &[(b"a/BUCK", EXPORT), (b"a/f", b"a")],
        b"//a:f",
        b"export_file\nf\nca978112ca1bbdcafac231b39a23dc4da786eff8147c4e72b9807785afee48bb\n",
    ),
    (
        &[(b"a/BUCK", EXPORT), (b"a/f", b"a"), (b"a/f", b"b")],
        b"//a:f",
        b"export_file\nf\n3e23e8160039594a33894f6564e1b1348bbd7a0088d42c4acb73eeaed59c009d\n",
    ),
    (&[(b"a/BUCK", STAMP)], b"//a:s", b"stamp_file\ns\n1\n"),
    (
        &[(b"a/BUCK", STAMP), (b"a/f", b"a")],
        b"//a:s",
        b"stamp_file\ns\n2\n",
    ),
    (
        &[(b"a/BUCK", GENRULE), (b"a/f", b"a")],
        b"//a:g",
        GENRULE_TEXT,
    ),
    (
        &[(b"BUCK", b"filegroup(name = \"e\")\n")],
        b"//:e",
        b"filegroup\n",
    ),
];

#[test]
fn actions_of_the_rules_from_nothing(rt: HostRuntime) -> Result<(), Fail> {
    let alloc = rt.alloc();
    for (files, name, want) in ACTIONS {
        let text = action_text(alloc, files, name)?;
        assert!(rt; text.as_slice() == want);
    }
    Ok(())
}

/// Target files of `a`, and the fault of `//a:x` in words.
const FAULTS: [(&[u8], &[u8]); 8] = [
    (b"write_file(name = \"x\")\n", b"bad-file a/BUCK"),
    (b"write_file(\n", b"bad-file on line 2 a/BUCK"),
    (
        b"filegroup(name = \"x\", srcs = [\"none\", \":b\"])\n",
        b"no-source a/none",
    ),
    (
        b"filegroup(name = \"x\", srcs = [\":b\", \"none\"])\n",
        b"no-target //a:b",
    ),
    (
        b"genrule(name = \"x\", srcs = [\"none\"], out = \"o\", cmd = \"$(location //b:b)\")\n",
        b"no-source a/none",
    ),
    (
        b"genrule(name = \"x\", out = \"o\", cmd = \"$(location //b)\")\n",
        b"no-package b",
    ),
    (b"filegroup(name = \"y\")\n", b"no-target //a:x"),
    (b"filegroup(name = \"x\", srcs = [\"none\", \":x\"])\n", b""),
];

#[test]
fn faults_come_in_the_order_of_the_sources(rt: HostRuntime) -> Result<(), Fail> {
    let alloc = rt.alloc();
    for (file, want) in FAULTS {
        let text = action_text(alloc, &[(b"a/BUCK", file)], b"//a:x")?;
        assert!(rt; text.as_slice() == want);
    }
    Ok(())
}

/// The text of the action of `//a:w`.
const WRITE_TEXT: &[u8] =
    b"write_file\nw.txt\nba7816bf8f01cfea414140de5dae2223b00361a396177a9cb410ff61f20015ad\n";

/// The SHA-256 of that text, in hex.
const WRITE_DIGEST: &str = "72801cd249fb51131b7bbb93151ac0d3277ce1ef6febdf4fdc9f980dbb59266d";

fn is_write_text(value: &Value) -> bool {
    match ActionKey::read(value) {
        Some(Ok(action)) => action.text.as_bytes() == WRITE_TEXT,
        _ => false,
    }
}

fn is_write_digest(alloc: Global, value: &Value) -> Result<bool, NoMemory> {
    match DigestKey::read(value) {
        Some(Ok(digest)) => {
            Ok(hex::encode(alloc, digest.as_slice())?.as_bytes() == WRITE_DIGEST.as_bytes())
        }
        _ => Ok(false),
    }
}

/// The file of `//a:w`.
const WRITE_FILES: Files<'static> = &[(b"a/BUCK", WRITE)];

/// Whether the action of `//a:w` has its text, by an evaluation that goes this deep.
fn write_text_within(alloc: Global, depth: u32) -> Result<Option<bool>, NoMemory> {
    let key = action_key(alloc, b"//a:w")?;
    match value_within(alloc, WRITE_FILES, key, depth)? {
        Some(value) => Ok(Some(is_write_text(&value))),
        None => Ok(None),
    }
}

/// Whether the digest of `//a:w` is that of its text, by an evaluation that goes this deep.
fn write_digest_within(alloc: Global, depth: u32) -> Result<Option<bool>, NoMemory> {
    let key = digest_key(alloc, b"//a:w")?;
    match value_within(alloc, WRITE_FILES, key, depth)? {
        Some(value) => Ok(Some(is_write_digest(alloc, &value)?)),
        None => Ok(None),
    }
}

/// Whether the target file of `//a:w` has bytes.
fn write_file_is_read(alloc: Global) -> Result<bool, NoMemory> {
    let path = path(alloc, b"a/BUCK")?;
    match value_of(alloc, WRITE_FILES, SourceKey { path }.wrap())? {
        Some(value) => Ok(matches!(SourceKey::read(&value), Some(Some(_)))),
        None => Ok(false),
    }
}

/// The SHA-256 of `abc` (FIPS 180-4, appendix B.1).
const ABC: &[u8] = b"ba7816bf8f01cfea414140de5dae2223b00361a396177a9cb410ff61f20015ad";

/// Whether each of two calls gives the digest of what a file holds.
fn has_its_digest_twice(alloc: Global) -> Result<bool, NoMemory> {
    let contents = Contents::new(alloc, Text::from_slice(alloc, b"abc")?);
    let first = contents.digest(alloc)?;
    let again = contents.digest(alloc)?;
    let hex = hex::encode(alloc, first.as_slice())?;
    Ok(hex.as_bytes() == ABC && first == again)
}

#[test]
fn contents_keep_their_digest(rt: HostRuntime) -> Result<(), Fail> {
    let kept = has_its_digest_twice(rt.alloc())?;
    assert!(rt; kept);
    Ok(())
}

fn has_two_batches(alloc: Global, universe: &Buck, name: &[u8]) -> Result<bool, NoMemory> {
    let action = action_key(alloc, name)?;
    Ok(universe.most_batches(&action) == 2)
}

/// Whether an action has a value that is transient.
fn is_transient(
    alloc: Global,
    universe: &Buck,
    file: &[u8],
    name: &[u8],
) -> Result<bool, NoMemory> {
    let key = action_key(alloc, name)?;
    match value_of(alloc, &[(b"a/BUCK", file)], key)? {
        Some(value) => Ok(universe.is_transient(&value)),
        None => Ok(false),
    }
}

/// How deep an evaluation goes, and whether the text and the digest are those of `//a:w`.
///
/// The action stands on its rule, its package and the file; the digest on the action.
const DEPTHS: [(u32, Option<bool>, Option<bool>); 4] = [
    (3, None, None),
    (4, Some(true), None),
    (5, Some(true), Some(true)),
    (DEPTH, Some(true), Some(true)),
];

#[test]
fn a_digest_is_that_of_the_text(rt: HostRuntime) -> Result<(), Fail> {
    let alloc = rt.alloc();
    for (depth, text, digest) in DEPTHS {
        assert!(rt; write_text_within(alloc, depth)? == text);
        assert!(rt; write_digest_within(alloc, depth)? == digest);
    }
    assert!(rt; write_file_is_read(alloc)?);
    Ok(())
}

/// Target files of `a`, a label, and whether its action is transient.
const TRANSIENT: [(&[u8], &[u8], bool); 2] = [(WRITE, b"//a:w", false), (STAMP, b"//a:s", true)];

#[test]
fn a_stamp_is_transient(rt: HostRuntime) -> Result<(), Fail> {
    let alloc = rt.alloc();
    let universe = Buck::new(alloc)?;
    for (file, name, transient) in TRANSIENT {
        assert!(rt; has_two_batches(alloc, &universe, name)?);
        assert!(rt; is_transient(alloc, &universe, file, name)? == transient);
    }
    Ok(())
}

fn push_key(keys: &mut Vec<Arc<Key>>, key: Key) -> Result<(), NoMemory> {
    let key = Arc::new(*keys.allocator(), key)?;
    keys.push(key)?;
    Ok(())
}

/// The labels of the actions of a cycle: each asks the next one's digest, and the last the first
/// one's.
const CYCLE: [(&[u8], &[u8]); 3] = [
    (b"//a:y", b"//b:x"),
    (b"//b:x", b"//a:x"),
    (b"//a:x", b"//a:y"),
];

/// The keys of the cycle.
fn cycle(alloc: Global) -> Result<Vec<Arc<Key>>, NoMemory> {
    let mut keys = Vec::new(alloc);
    for (name, next) in CYCLE {
        push_key(&mut keys, action_key(alloc, name)?)?;
        push_key(&mut keys, digest_key(alloc, next)?)?;
    }
    Ok(keys)
}

/// Whether the labels are those of the cycle, from the least on.
fn begin_with_the_least(labels: &[Label]) -> bool {
    match labels {
        [x, y, z] => {
            x.as_bytes() == b"//a:x".as_slice()
                && y.as_bytes() == b"//a:y".as_slice()
                && z.as_bytes() == b"//b:x".as_slice()
        }
        _ => false,
    }
}

#[test]
fn the_labels_of_a_cycle_begin_with_the_least(rt: HostRuntime) -> Result<(), Fail> {
    let alloc = rt.alloc();
    let keys = cycle(alloc)?;
    assert!(rt; keys.len() == 6);
    let path = dice_key::Path::from_keys(keys);
    let labels = labels_of_cycle(alloc, &path)?;
    assert!(rt; begin_with_the_least(&labels));
    keys_are_settled();
    cycles_are_of_labels();
    Ok(())
}
