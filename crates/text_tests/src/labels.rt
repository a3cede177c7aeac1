//! The calls at texts whose answers are known.

use buck_label::{Label, Package, Path, Refused, is_label_text, is_path};
use std::alloc::Global;
use std::collections::HashMap;
use std::marker::{Send, Sync};

/// Whether the label of this text prints as that.
fn prints(alloc: Global, text: &[u8], printed: &[u8]) -> Result<bool, Refused> {
    Ok(Label::read(alloc, text)?.print(alloc)?.as_slice() == printed)
}

/// Whether a copy of the label of the first text is the label of the second.
fn is_copied(alloc: Global, text: &[u8], printed: &[u8]) -> Result<bool, Refused> {
    let label = Label::read(alloc, text)?.try_clone()?;
    Ok(label == Label::read(alloc, printed)?)
}

fn is_refused(alloc: Global, text: &[u8]) -> bool {
    matches!(Label::read(alloc, text), Err(Refused::Bad)) && !is_label_text(text)
}

/// Labels, and how they print.
const LABELS: [(&[u8], &[u8]); 5] = [
    (b"//a/b", b"//a/b:b"),
    (b"//:x", b"//:x"),
    (b"//a/b:c/d", b"//a/b:c/d"),
    (b"//a", b"//a:a"),
    (b"//a.b-c/D9_+=,@~:...", b"//a.b-c/D9_+=,@~:..."),
];

const NO_LABELS: [&[u8]; 11] = [
    b"",
    b"//",
    b"//a:",
    b"a:b",
    b"//a//b",
    b"//a/..:x",
    b"//a:b:c",
    b"//./a",
    b"/a",
    b"//a/",
    b"//a b",
];

#[test]
fn labels_as_written(rt: HostRuntime) {
    let alloc = rt.alloc();
    for (text, printed) in LABELS {
        assert!(rt; prints(alloc, text, printed) == Ok(true) && is_label_text(text));
        assert!(rt; is_copied(alloc, text, printed) == Ok(true));
    }
    for text in NO_LABELS {
        assert!(rt; is_refused(alloc, text));
    }
}

fn has_parts(label: &Label, printed: &[u8], package: &[u8], name: &[u8]) -> bool {
    label.as_bytes() == printed && label.package_bytes() == package && label.name() == name
}

/// Whether a copy of the label's package is this.
fn is_home(alloc: Global, label: &Label, home: &Package) -> Result<bool, Refused> {
    Ok(label.package(alloc)?.try_clone()? == *home)
}

/// Whether a label in a package is printed as this, its name is `w`, and its package is that
/// package.
fn is_local(alloc: Global, home: &Package, text: &[u8], printed: &[u8]) -> Result<bool, Refused> {
    let label = Label::read_in(alloc, text, home)?;
    Ok(has_parts(&label, printed, home.as_bytes(), b"w") && is_home(alloc, &label, home)?)
}

/// The same of the package of this text.
fn local(alloc: Global, package: &[u8], text: &[u8], printed: &[u8]) -> Result<bool, Refused> {
    let home = Package::read(alloc, package)?;
    Ok(is_local(alloc, &home, text, printed)? && home.as_bytes() == package)
}

const LOCAL: [(&[u8], &[u8], &[u8], Result<bool, Refused>); 6] = [
    (b"", b":w", b"//:w", Ok(true)),
    (b"a/b", b":w", b"//a/b:w", Ok(true)),
    (b"w", b"//w", b"//w:w", Ok(true)),
    (b"w", b":", b"", Err(Refused::Bad)),
    (b"w", b"w", b"", Err(Refused::Bad)),
    (b"a/", b":w", b"", Err(Refused::Bad)),
];

#[test]
fn labels_in_a_package(rt: HostRuntime) {
    for (package, text, printed, wanted) in LOCAL {
        assert!(rt; local(rt.alloc(), package, text, printed) == wanted);
    }
}

fn path_in(alloc: Global, package: &[u8], name: &Path) -> Result<Path, Refused> {
    Ok(Package::read(alloc, package)?.join(alloc, name)?)
}

/// Whether the path `a/f` in a package is this.
fn joins(alloc: Global, package: &[u8], joined: &[u8]) -> Result<bool, Refused> {
    let name = Path::read(alloc, b"a/f")?;
    Ok(path_in(alloc, package, &name)?.as_bytes() == joined)
}

/// Whether a path in the package at the top is that path itself.
fn joins_nothing(alloc: Global) -> Result<bool, Refused> {
    let name = Path::read(alloc, b"a/f")?;
    Ok(path_in(alloc, b"", &name)? == name)
}

/// Whether a package has this text and this target file.
fn has_target_file(alloc: Global, text: &[u8], file: &[u8]) -> Result<bool, Refused> {
    let package = Package::read(alloc, text)?;
    Ok(package.as_bytes() == text && package.target_file(alloc)?.as_bytes() == file)
}

fn prints_package(alloc: Global, text: &[u8], printed: &[u8]) -> Result<bool, Refused> {
    Ok(Package::read(alloc, text)?.print(alloc)?.as_slice() == printed)
}

#[test]
fn files_of_a_package(rt: HostRuntime) {
    let alloc = rt.alloc();
    assert!(rt; joins(alloc, b"p/q", b"p/q/a/f") == Ok(true));
    assert!(rt; joins_nothing(alloc) == Ok(true));
    let rows: [(&[u8], &[u8], &[u8]); 2] = [(b"p/q", b"p/q/BUCK", b"//p/q"), (b"", b"BUCK", b"//")];
    for (package, file, printed) in rows {
        assert!(rt; has_target_file(alloc, package, file) == Ok(true));
        assert!(rt; prints_package(alloc, package, printed) == Ok(true));
    }
}

/// A map that counts one path.
fn map_of(alloc: Global, path: Path) -> Result<HashMap<Path, u32>, Refused> {
    let mut seen = HashMap::new(alloc);
    match seen.insert(path, 1) {
        Ok(_) => Ok(seen),
        Err(_) => Err(Refused::NoMemory),
    }
}

/// Whether a map in which a copy of a path was put has that path, and has no other.
fn is_counted(alloc: Global, path: &Path, other: &Path) -> Result<bool, Refused> {
    let seen = map_of(alloc, path.try_clone()?)?;
    Ok(seen.get(path) == Some(&1) && seen.get(other).is_none())
}

/// Whether the path `a/f` is less than `a/g`, and is counted alone.
fn is_first(alloc: Global, path: &Path) -> Result<bool, Refused> {
    let other = Path::read(alloc, b"a/g")?;
    Ok(path.cmp(&other).is_lt() && is_counted(alloc, path, &other)?)
}

fn counted(alloc: Global) -> Result<bool, Refused> {
    is_first(alloc, &Path::read(alloc, b"a/f")?)
}

#[test]
fn paths_as_keys(rt: HostRuntime) {
    let alloc = rt.alloc();
    assert!(rt; counted(alloc) == Ok(true));
    assert!(rt; is_path(&[b'a'; 255]) && !is_path(&[b'a'; 256]));
    assert!(rt; matches!(Path::read(alloc, b"a/./b"), Err(Refused::Bad)));
}

fn shared<T: Send + Sync>() {}

#[test]
fn texts_go_between_threads(_rt: HostRuntime) {
    shared::<Path>();
    shared::<Package>();
    shared::<Label>();
}
