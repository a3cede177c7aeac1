//! A promise on the universe of Buck targets: one seat's calls, one after another.
use crate::way::{Came, Course, course_of};
use action_digest::{Buck, Contents, Key, Value};
use buck_label::{Label, Path, Text};
use dice_engine::{Updater, Worked};
use dice_key::NoMemory;
use std::alloc::Global;
use std::sync::{Arc, Wait};
use std::test::Fail;

const FILE: &[u8] = b"write_file(name = \"w\", out = \"w.txt\", content = \"abc\")\n";

/// The digest of `//a:w`, in hex.
const DIGEST: &str = "72801cd249fb51131b7bbb93151ac0d3277ce1ef6febdf4fdc9f980dbb59266d";

/// What a promise has come to.
#[derive(Clone, Copy, PartialEq)]
enum Seen {
    Pending,
    /// The digest that is wanted.
    Digest,
    Other,
    Gone,
}

fn seen_in(alloc: Global, value: &Value) -> Result<Seen, NoMemory> {
    match value {
        Value::Digest(Ok(digest)) => {
            let text = hex::encode(alloc, digest.as_slice())?;
            if text.as_str() == DIGEST {
                Ok(Seen::Digest)
            } else {
                Ok(Seen::Other)
            }
        }
        _ => Ok(Seen::Other),
    }
}

fn seen_of(alloc: Global, came: &Came<Buck>) -> Result<Seen, NoMemory> {
    match came {
        Came::Pending => Ok(Seen::Pending),
        Came::Value(value) => seen_in(alloc, value),
        Came::Cycle(_) => Ok(Seen::Other),
        Came::Gone => Ok(Seen::Gone),
    }
}

/// The target file of the package `a`, to be committed.
fn updater_of(alloc: Global) -> Result<Updater<Buck>, NoMemory> {
    let path = Path::read(alloc, b"a/BUCK").map_err(|_| NoMemory)?;
    let key = Arc::new(alloc, Key::Source(path))?;
    let file = Text::from_slice(alloc, FILE)?;
    let contents = Contents::new(alloc, file);
    let value = Arc::new(alloc, Value::Source(Some(contents)))?;
    let mut updater = Updater::new(alloc);
    updater.changed_to(key, value)?;
    Ok(updater)
}

fn digest_key(alloc: Global) -> Result<Arc<Key>, NoMemory> {
    let label = Label::read(alloc, b"//a:w").map_err(|_| NoMemory)?;
    Ok(Arc::new(alloc, Key::Digest(label))?)
}

/// Whether the digest is computed once, by one job, and the promise goes when its transaction is
/// closed.
fn comes_to_digest(alloc: Global, course: &Course<Buck>) -> Result<bool, NoMemory> {
    let way = &course.way;
    let first = seen_of(alloc, &way.first)? == Seen::Pending;
    let last = seen_of(alloc, &way.last)? == Seen::Digest;
    let gone = seen_of(alloc, &way.gone)? == Seen::Gone;
    let worked = way.worked == Worked::Did && way.idle == Worked::Idle;
    Ok(course.made == Some(1) && way.version == 1 && worked && first && last && gone)
}

fn digest_comes<R: Wait>(rt: &R, alloc: Global) -> Result<bool, NoMemory> {
    let key = digest_key(alloc)?;
    let updater = updater_of(alloc)?;
    let course = course_of(rt, alloc, Buck::new(alloc)?, &updater, key)?;
    comes_to_digest(alloc, &course)
}

#[test]
fn a_promise_is_pending_then_settled_and_at_last_gone(rt: HostRuntime) -> Result<(), Fail> {
    let all = digest_comes(&rt, rt.alloc())?;
    assert!(rt; all);
    Ok(())
}
