//! A line's words.
ghost use Rattle.std.specs.Prelude.{◌≡◌, ◌≤◌, ◌++◌, ◌∷◌, [], ℕ, length, Some, None, IfSome, IfNone};
ghost use Rattle.script.specs.Lines.{before, words};
ghost use Rattle.std.specs.Option.{option_map};
ghost use Rattle.std.specs.Str.{bytes_eq};
ghost use Rattle.script.specs.Faults.{one_word, two_words, three_words, four_words, form_of};
ghost use Rattle.script.specs.Seen.{form_seen};

/// A line's operands as written, if its first word is in the table and their number is right.
#[derive(Clone, Copy)]
pub(crate) enum Form<'a> {
    Put(&'a [u8], &'a [u8]),
    Drop(&'a [u8]),
    Commit,
    Open(&'a [u8]),
    Ask(&'a [u8], &'a [u8], &'a [u8]),
    Action(&'a [u8], &'a [u8], &'a [u8]),
    Wait(&'a [u8]),
    Cancel(&'a [u8]),
    Close(&'a [u8]),
}

/// How many bytes stand before the first `mark`; all of them if there is none.
pub(crate) fn before(mark: u8, bytes: &[u8]) -> usize
    ensures at { result ≡ before mark bytes.now }
    ensures fits { result ≤ length bytes.now }
{
    for i in 0..bytes.len() {
        if bytes[i] == mark {
            return i;
        }
    }
    bytes.len()
}

/// The first word of these bytes, and what stands after its space.
fn split(bytes: &[u8]) -> Option<(&[u8], &[u8])>
    ensures some { IfSome result (λ r. words bytes.now ≡ r.0.now ∷ words r.1.now) }
    ensures none { IfNone result (words bytes.now ≡ bytes.now ∷ []) }
{
    let at = before(b' ', bytes);
    if at == bytes.len() {
        return None;
    }
    Some((&bytes[..at], &bytes[at + 1..]))
}

fn is(word: &[u8], text: &[u8]) -> bool
    ensures { result ≡ bytes_eq word.now text.now }
{
    word == text
}

fn one_word<'a>(word: &[u8]) -> Option<Form<'a>>
    ensures { option_map form_seen result ≡ one_word word.now }
{
    if is(word, b"commit") {
        Some(Form::Commit)
    } else {
        None
    }
}

fn two_words<'a>(word: &[u8], a: &'a [u8]) -> Option<Form<'a>>
    ensures { option_map form_seen result ≡ two_words word.now a.now }
{
    if is(word, b"drop") {
        Some(Form::Drop(a))
    } else if is(word, b"open") {
        Some(Form::Open(a))
    } else if is(word, b"wait") {
        Some(Form::Wait(a))
    } else if is(word, b"cancel") {
        Some(Form::Cancel(a))
    } else if is(word, b"close") {
        Some(Form::Close(a))
    } else {
        None
    }
}

fn three_words<'a>(word: &[u8], a: &'a [u8], b: &'a [u8]) -> Option<Form<'a>>
    ensures { option_map form_seen result ≡ three_words word.now a.now b.now }
{
    if is(word, b"put") {
        Some(Form::Put(a, b))
    } else {
        None
    }
}

fn four_words<'a>(word: &[u8], a: &'a [u8], b: &'a [u8], c: &'a [u8]) -> Option<Form<'a>>
    ensures { option_map form_seen result ≡ four_words word.now a.now b.now c.now }
{
    if is(word, b"ask") {
        Some(Form::Ask(a, b, c))
    } else if is(word, b"action") {
        Some(Form::Action(a, b, c))
    } else {
        None
    }
}

/// The form of a line.
pub(crate) fn form_of(line: &[u8]) -> Option<Form<'_>>
    ensures { option_map form_seen result ≡ form_of (words line.now) }
{
    match split(line) {
        None => one_word(line),
        Some((word, rest)) => with_operand(word, rest),
    }
}

/// The form of a line with this first word, and its operands after it.
fn with_operand<'a>(word: &[u8], rest: &'a [u8]) -> Option<Form<'a>>
    ensures { option_map form_seen result ≡ form_of (word.now ∷ words rest.now) }
{
    match split(rest) {
        None => two_words(word, rest),
        Some((a, rest)) => with_operands(word, a, rest),
    }
}

/// The form of a line with this first word and first operand, and more operands after them.
fn with_operands<'a>(word: &[u8], a: &'a [u8], rest: &'a [u8]) -> Option<Form<'a>>
    ensures { option_map form_seen result ≡ form_of (word.now ∷ a.now ∷ words rest.now) }
{
    let Some((b, rest)) = split(rest) else {
        return three_words(word, a, rest);
    };
    match split(rest) {
        None => four_words(word, a, b, rest),
        Some(_) => None,
    }
}
