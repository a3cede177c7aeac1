//! The lines of events.
ghost use Rattle.std.specs.Prelude.{◌≡◌, ◌++◌, ◌∷◌, [], List, ℕ, IfOk, OnOk, OnErr, decimal, nat_eq, Some, refl, false, map, IsPermutation, IsSorted};
ghost use Rattle.std.specs.Arc.{arc_value};
ghost use Rattle.std.specs.Ordering.{nat_cmp};
ghost use Rattle.std.specs.Cmp.{partial_equiv_from_equiv};
ghost use Rattle.std.specs.Cmp.Lexicographic.{pointwise, slice_cmp, nat_list_eq_equiv, nat_list_cmp_total, texts_po, texts_ties};
ghost use Rattle.dice_model.specs.Log.{pairs_of};
ghost use Rattle.journal.specs.Tell.{told, reason_of};
ghost use Rattle.journal.specs.Texts.{IsLine, IsCommitLine, spaced, changed, reason_words};

use crate::changes::Changes;
use crate::event::{Cause, Event};
use dice_key::{Line, NoMemory, Universe};
use itoa::Buffer;
use std::alloc::Global;
use std::cmp::Ordering;
use std::marker::Model;
use std::sync::Arc;

/// A text, ordered by its bytes.
#[derive(Drop)]
struct Text {
    line: Line,
}

impl Model for Text {
    ghost use Rattle.std.specs.Prelude.{List, ℕ};

    ghost Value = { List ℕ };

    ghost view = { λ t. t.line };
}

impl PartialEq for Text {
    ghost eq = { pointwise nat_eq };

    ghost laws = { partial_equiv_from_equiv nat_list_eq_equiv };

    fn eq(&self, other: &Text) -> bool {
        self.line.as_bytes() == other.line.as_bytes()
    }
}

impl Eq for Text {
    ghost laws = { nat_list_eq_equiv };
}

impl PartialOrd for Text {
    ghost partial_cmp = { λ x y. Some (slice_cmp nat_cmp x y) };

    ghost laws = { texts_po };

    fn partial_cmp(&self, other: &Text) -> Option<Ordering> {
        Some(self.cmp(other))
    }
}

impl Ord for Text {
    ghost cmp = { slice_cmp nat_cmp };

    ghost total = { nat_list_cmp_total };

    ghost matches_partial_cmp = { λ x y. refl };

    ghost matches_eq = { texts_ties };

    fn cmp(&self, other: &Text) -> Ordering {
        self.line.as_bytes().cmp(other.line.as_bytes())
    }
}

/// Appends a space and a number.
fn number(text: &mut Vec<u8>, n: u64) -> Result<(), NoMemory>
    ensures { OnOk result (text.new.items ≡ text.old.items ++ 32 ∷ decimal n) }
{
    let mut buffer = Buffer::new();
    text.push(b' ')?;
    text.extend_from_slice(buffer.format(n).as_bytes())?;
    Ok(())
}

/// Appends a space and a key's text.
fn key<U: Universe>(text: &mut Vec<u8>, universe: &U, key: &U::Key) -> Result<(), NoMemory>
    ensures { OnOk result (text.new.items ≡ text.old.items ++ 32 ∷ U.meaning.text key.now false) }
{
    let line = universe.print(key, false)?;
    text.push(b' ')?;
    text.extend_from_slice(line.as_bytes())?;
    Ok(())
}

/// Appends a cause.
fn cause<U: Universe>(
    text: &mut Vec<u8>,
    universe: &U,
    cause: &Cause<U::Key>,
) -> Result<(), NoMemory>
    ensures { OnOk result
        (text.new.items ≡ text.old.items ++ spaced (reason_words U.meaning (reason_of cause.now))) }
{
    match cause {
        Cause::New => text.extend_from_slice(b" new")?,
        Cause::Transient(base) => {
            text.extend_from_slice(b" transient")?;
            number(text, *base)?;
        }
        Cause::Differs(base, dep) => {
            text.extend_from_slice(b" differs")?;
            number(text, *base)?;
            key(text, universe, dep)?;
        }
    }
    Ok(())
}

/// The short texts of the changed keys that are not empty, in the order of their bytes.
fn changed_texts<U: Universe>(
    alloc: Global,
    universe: &U,
    changes: &Changes<U::Key, U::Value>,
) -> Result<Vec<Text>, NoMemory>
    ensures same { IfOk result (λ ts. IsPermutation (changed U.meaning changes.now) ts.items) }
    ensures sorted { IfOk result (λ ts. IsSorted (slice_cmp nat_cmp) ts.items) }
{
    let mut texts = texts_in(alloc, universe, changes.pairs())?;
    texts.sort_unstable();
    Ok(texts)
}

fn texts_in<U: Universe>(
    alloc: Global,
    universe: &U,
    pairs: &[(Arc<U::Key>, Arc<U::Value>)],
) -> Result<Vec<Text>, NoMemory>
    ensures { IfOk result (λ ts. ts.items ≡ changed U.meaning (pairs_of pairs.now)) }
{
    let mut texts = Vec::new(alloc);
    for (key, _) in pairs {
        let line = universe.print(key, true)?;
        if !line.as_bytes().is_empty() {
            texts.push(Text { line })?;
        }
    }
    Ok(texts)
}

/// Appends a space and each text.
fn append_texts(text: &mut Vec<u8>, texts: &[Text]) -> Result<(), NoMemory>
    ensures { OnOk result (text.new.items ≡ text.old.items ++ spaced texts.now) }
{
    for one in texts {
        text.push(b' ')?;
        text.extend_from_slice(one.line.as_bytes())?;
    }
    Ok(())
}

/// The line of a commit.
fn commit_line<U: Universe>(
    alloc: Global,
    universe: &U,
    by: u64,
    changes: &Changes<U::Key, U::Value>,
) -> Result<Line, NoMemory>
    ensures { IfOk result (λ t. IsCommitLine U.meaning by changes.now t) }
{
    let texts = changed_texts(alloc, universe, changes)?;
    let mut text = Vec::from_slice(alloc, b"commit")?;
    number(&mut text, by)?;
    append_texts(&mut text, &texts)?;
    Ok(Line::from_bytes(text))
}

/// A word and two numbers.
fn numbers_line(alloc: Global, word: &[u8], a: u64, b: u64) -> Result<Line, NoMemory>
    ensures { IfOk result (λ t. t ≡ word.now ++ spaced (decimal a ∷ decimal b ∷ [])) }
{
    let mut text = Vec::from_slice(alloc, word)?;
    number(&mut text, a)?;
    number(&mut text, b)?;
    Ok(Line::from_bytes(text))
}

/// A word, a version and a key.
fn key_line<U: Universe>(
    alloc: Global,
    universe: &U,
    word: &[u8],
    version: u64,
    at: &U::Key,
) -> Result<Vec<u8>, NoMemory>
    ensures { IfOk result
        (λ t. t.items ≡ word.now ++ spaced (decimal version ∷ U.meaning.text at.now false ∷ [])) }
{
    let mut text = Vec::from_slice(alloc, word)?;
    number(&mut text, version)?;
    key(&mut text, universe, at)?;
    Ok(text)
}

/// The line of an event.
pub(crate) fn line_of<U: Universe>(
    alloc: Global,
    universe: &U,
    event: &Event<U::Key, U::Value>,
) -> Result<Line, NoMemory>
    ensures { IfOk result (λ t. IsLine U.meaning (told event.now) t) }
{
    match event {
        Event::Commit(by, changes) => commit_line(alloc, universe, *by, changes),
        Event::Open(by, version) => numbers_line(alloc, b"open", *by, *version),
        Event::Close(by, opened) => numbers_line(alloc, b"close", *by, *opened),
        Event::Leave(by, ask) => numbers_line(alloc, b"leave", *by, *ask),
        Event::Ask(by, opened, at) => {
            let mut text = Vec::from_slice(alloc, b"ask")?;
            number(&mut text, *by)?;
            number(&mut text, *opened)?;
            key(&mut text, universe, at)?;
            Ok(Line::from_bytes(text))
        }
        Event::Start(version, at, why) => {
            let mut text = key_line(alloc, universe, b"start", *version, at)?;
            cause(&mut text, universe, why)?;
            Ok(Line::from_bytes(text))
        }
        Event::Keep(version, at, base) => {
            let mut text = key_line(alloc, universe, b"keep", *version, at)?;
            number(&mut text, *base)?;
            Ok(Line::from_bytes(text))
        }
        Event::End(version, at) => end_line(alloc, universe, b"end", *version, at),
        Event::Cyclic(version, at) => end_line(alloc, universe, b"cyclic", *version, at),
        Event::Drop(version, at) => end_line(alloc, universe, b"drop", *version, at),
        Event::Lost(version, at) => end_line(alloc, universe, b"lost", *version, at),
    }
}

/// The line of a word, a version and a key.
fn end_line<U: Universe>(
    alloc: Global,
    universe: &U,
    word: &[u8],
    version: u64,
    at: &U::Key,
) -> Result<Line, NoMemory>
    ensures { IfOk result
        (λ t. t ≡ word.now ++ spaced (decimal version ∷ U.meaning.text at.now false ∷ [])) }
{
    Ok(Line::from_bytes(key_line(alloc, universe, word, version, at)?))
}
