//! Strings between quotes.
ghost use Rattle.std.specs.Prelude.{◌≡◌, ◌≤◌, ◌∷◌, ℕ, take, length, false, nat_eq, IfOk, IfSome, IfNone, MatchOption};
ghost use Rattle.std.specs.List.{AllByRecursion};
ghost use Rattle.target_file.specs.Tokens.{escaped};
ghost use Rattle.target_file.specs.Code.{is_special, unquoted, Means, IsBroken, HasNoEnd, Quoted};

use crate::fault::NoMemory;
use std::alloc::Global;

/// What a string stands for.
#[derive(Drop)]
pub enum Unquoted<'a> {
    /// Each of its bytes stands for itself.
    Plain(&'a [u8]),
    /// What its bytes and escapes stand for.
    Escaped(Vec<u8>),
}

impl<'a> Unquoted<'a> {
    /// The bytes that it stands for.
    pub fn as_bytes(&self) -> &[u8]
        ensures { result.now ≡ unquoted self.now }
    {
        match self {
            Unquoted::Plain(bytes) => bytes,
            Unquoted::Escaped(bytes) => bytes.as_slice(),
        }
    }
}

/// Whether a byte of a string with this quote does not stand for itself.
fn is_special(quote: u8, byte: u8) -> bool
    ensures { result ≡ is_special quote byte }
{
    byte == b'\n' || byte == b'\r' || byte == quote || byte == b'\\'
}

/// How many bytes of a string with this quote stand for themselves.
fn plain(quote: u8, rest: &[u8]) -> usize
    ensures fits { result ≤ length rest.now }
    ensures each { AllByRecursion (λ b. is_special quote b ≡ false) (take result rest.now) }
{
    for i in 0..rest.len() {
        if is_special(quote, rest[i]) {
            return i;
        }
    }
    rest.len()
}

fn escaped(byte: u8) -> Option<u8>
    ensures { result ≡ escaped byte }
{
    match byte {
        b'\\' | b'"' | b'\'' => Some(byte),
        b'n' => Some(b'\n'),
        b't' => Some(b'\t'),
        b'r' => Some(b'\r'),
        _ => None,
    }
}

/// What the bytes in front stand for in a string whose quote is not the first of them, and how many
/// these are.
fn meant(byte: u8, behind: &[u8]) -> Option<(u8, usize)>
    ensures some { IfSome result
        (λ c. (q : ℕ) → nat_eq byte q ≡ false → Means q (byte ∷ behind.now) c.0 c.1) }
    ensures none { IfNone result
        ((q : ℕ) → nat_eq byte q ≡ false → IsBroken q (byte ∷ behind.now)) }
{
    if byte == b'\n' || byte == b'\r' {
        return None;
    }
    if byte != b'\\' {
        return Some((byte, 1));
    }
    if behind.is_empty() {
        return None;
    }
    match escaped(behind[0]) {
        Some(meant) => Some((meant, 2)),
        None => None,
    }
}

/// What a string stands for, read byte by byte.
fn unescaped(alloc: Global, quote: u8, rest: &[u8]) -> Result<Option<(Vec<u8>, usize)>, NoMemory>
    ensures { IfOk result
        (λ o. MatchOption o (HasNoEnd quote rest.now) (λ r. Quoted quote rest.now r.0.items r.1)) }
{
    let mut text = Vec::new(alloc);
    let mut at = 0;
    while at < rest.len() {
        let byte = rest[at];
        if byte == quote {
            return Ok(Some((text, at)));
        }
        match meant(byte, &rest[at + 1..]) {
            Some((byte, taken)) => {
                text.push(byte)?;
                at += taken;
            }
            None => return Ok(None),
        }
    }
    Ok(None)
}

/// What the string whose quote stands before `rest` stands for, and how many bytes stand before its
/// closing quote; `None` if no file goes on so. It takes memory for escapes alone.
pub fn quoted(
    alloc: Global,
    quote: u8,
    rest: &[u8],
) -> Result<Option<(Unquoted<'_>, usize)>, NoMemory>
    ensures { IfOk result (λ o. MatchOption o (HasNoEnd quote rest.now)
        (λ r. Quoted quote rest.now (unquoted r.0) r.1)) }
{
    let end = plain(quote, rest);
    if end < rest.len() && rest[end] == quote {
        return Ok(Some((Unquoted::Plain(&rest[..end]), end)));
    }
    match unescaped(alloc, quote, rest)? {
        Some((text, end)) => Ok(Some((Unquoted::Escaped(text), end))),
        None => Ok(None),
    }
}
