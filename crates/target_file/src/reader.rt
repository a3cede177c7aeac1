//! A file, read token by token.
ghost use Rattle.std.specs.Prelude.{◌≡◌, ◌≢◌, ◌≤◌, ◌<◌, ◌+◌, ◌^◌, ◌↔◌, ◌∷◌, [], take, get_or, length, map, false, true, IfOk, Some};
ghost use Rattle.std.specs.List.{AllByRecursion};
ghost use Rattle.target_file.specs.Tokens.{is_blank, is_mark, is_quote, is_letter, start};
ghost use Rattle.target_file.specs.Machine.{first};
ghost use Rattle.target_file.specs.Files.{IsFine};
ghost use Rattle.target_file.specs.Targets.{located};
ghost use Rattle.target_file.specs.Code.{state_of, scan_of, Goes, Took, IsEnd};

use crate::fault::NoMemory;
use crate::file::File;
use crate::mode::Mode;
use crate::place::Place;
use crate::progress::Progress;
use crate::quoted::quoted;
use crate::table::Rule;
use std::alloc::Global;

/// Where a reader of a file stands.
#[derive(Drop)]
pub struct Reader {
    alloc: Global,
    mode: Mode,
    pub line: u64,
    pub progress: Progress,
}

fn is_blank(byte: u8) -> bool
    ensures { result ≡ is_blank byte }
{
    matches!(byte, b' ' | b'\t' | b'\r' | b'\n')
}

fn is_mark(byte: u8) -> bool
    ensures { result ≡ is_mark byte }
{
    matches!(byte, b'(' | b')' | b'[' | b']' | b',' | b'=')
}

fn is_quote(byte: u8) -> bool
    ensures { result ≡ is_quote byte }
{
    matches!(byte, b'"' | b'\'')
}

fn is_letter(byte: u8) -> bool
    ensures { result ≡ is_letter byte }
{
    matches!(byte, b'a'..=b'z' | b'_')
}

/// How many letters stand in front.
fn letters(rest: &[u8]) -> usize
    ensures fits { result ≤ length rest.now }
    ensures each { AllByRecursion (λ b. is_letter b ≡ true) (take result rest.now) }
    ensures end { result < length rest.now → is_letter (get_or rest.now result 0) ≡ false }
{
    for i in 0..rest.len() {
        if !is_letter(rest[i]) {
            return i;
        }
    }
    rest.len()
}

/// How many bytes of a comment stand in front.
fn before_line_feed(rest: &[u8]) -> usize
    ensures fits { result ≤ length rest.now }
    ensures none { AllByRecursion (λ b. b ≢ 10) (take result rest.now) }
    ensures end { result < length rest.now → get_or rest.now result 0 ≡ 10 }
{
    for i in 0..rest.len() {
        if rest[i] == b'\n' {
            return i;
        }
    }
    rest.len()
}

impl Reader {
    /// Nothing read.
    pub fn new(alloc: Global) -> Reader
        ensures scan { scan_of result ≡ start }
        ensures state { state_of result.progress ≡ first Rule.WriteFile }
    {
        Reader {
            alloc,
            mode: Mode::Between,
            line: 1,
            progress: Progress::new(alloc),
        }
    }

    /// The file of the calls that are whole, at their end.
    pub fn into_file(self) -> Result<File, NoMemory>
        requires top { self.progress.place ≡ Place.Top }
        requires fine { AllByRecursion IsFine (state_of self.progress).calls }
        ensures { IfOk result (λ f. f ≡ map located (state_of self.progress).calls) }
    {
        let progress = self.progress;
        progress.into_file()
    }

    /// Whether the file may end here.
    pub fn is_end(&self) -> bool
        ensures { (result ≡ true) ↔ IsEnd (scan_of self.now) (state_of self.now.progress) }
    {
        matches!(
            (self.mode, self.progress.place),
            (Mode::Between | Mode::Comment, Place::Top)
        )
    }

    /// Takes what stands in front, and says how many bytes that is; `None` if no file goes on
    /// so.
    pub fn take(&mut self, rest: &[u8]) -> Result<Option<usize>, NoMemory>
        requires some { 0 < length rest.now }
        requires line { self.old.line < 2 ^ 63 }
        ensures { IfOk result (λ o. Goes (scan_of self.old) rest.now (state_of self.old.progress) o
            (scan_of self.new) (state_of self.new.progress)) }
    {
        match self.mode {
            Mode::Between => self.between(rest),
            Mode::Comment => Ok(Some(self.comment(rest))),
        }
    }

    /// Takes what is left of a comment.
    fn comment(&mut self, rest: &[u8]) -> usize
        requires some { 0 < length rest.now }
        requires mode { self.old.mode ≡ Mode.Comment }
        requires line { self.old.line < 2 ^ 63 }
        ensures { Goes (scan_of self.old) rest.now (state_of self.old.progress) (Some result)
            (scan_of self.new) (state_of self.new.progress) }
    {
        let end = before_line_feed(rest);
        if end == rest.len() {
            return end;
        }
        self.line += 1;
        self.mode = Mode::Between;
        end + 1
    }

    /// Takes a word with what stands after it, or what stands in front.
    fn between(&mut self, rest: &[u8]) -> Result<Option<usize>, NoMemory>
        requires some { 0 < length rest.now }
        requires mode { self.old.mode ≡ Mode.Between }
        requires line { self.old.line < 2 ^ 63 }
        ensures { IfOk result (λ o. Goes (scan_of self.old) rest.now (state_of self.old.progress) o
            (scan_of self.new) (state_of self.new.progress)) }
    {
        let end = letters(rest);
        if end == 0 {
            return self.other(rest[0], &rest[1..]);
        }
        if end == rest.len() || !self.progress.word(self.line, &rest[..end])? {
            return Ok(None);
        }
        match self.other(rest[end], &rest[end + 1..])? {
            Some(taken) => Ok(Some(end + taken)),
            None => Ok(None),
        }
    }

    /// Takes a blank, a mark or a string, or begins a comment.
    fn other(&mut self, byte: u8, behind: &[u8]) -> Result<Option<usize>, NoMemory>
        requires no_letter { is_letter byte ≡ false }
        requires mode { self.old.mode ≡ Mode.Between }
        requires line { self.old.line < 2 ^ 63 }
        ensures { IfOk result (λ o. Goes (scan_of self.old) (byte ∷ behind.now)
            (state_of self.old.progress) o (scan_of self.new) (state_of self.new.progress)) }
    {
        if is_quote(byte) {
            return self.string(byte, behind);
        }
        if self.one(byte)? {
            return Ok(Some(1));
        }
        Ok(None)
    }

    /// Takes a blank or a mark, or begins a comment.
    fn one(&mut self, byte: u8) -> Result<bool, NoMemory>
        requires no_letter { is_letter byte ≡ false }
        requires no_quote { is_quote byte ≡ false }
        requires mode { self.old.mode ≡ Mode.Between }
        requires line { self.old.line < 2 ^ 63 }
        ensures { IfOk result (λ ok. Took (scan_of self.old) byte (state_of self.old.progress) ok
            (scan_of self.new) (state_of self.new.progress)) }
    {
        if is_blank(byte) {
            if byte == b'\n' {
                self.line += 1;
            }
            return Ok(true);
        }
        if byte == b'#' {
            self.mode = Mode::Comment;
            return Ok(true);
        }
        if is_mark(byte) {
            let ok = self.progress.mark(byte)?;
            return Ok(ok);
        }
        Ok(false)
    }

    /// Takes a string whose quote stands before `behind`.
    fn string(&mut self, quote: u8, behind: &[u8]) -> Result<Option<usize>, NoMemory>
        requires quote { is_quote quote ≡ true }
        requires mode { self.old.mode ≡ Mode.Between }
        ensures { IfOk result (λ o. Goes (scan_of self.old) (quote ∷ behind.now)
            (state_of self.old.progress) o (scan_of self.new) (state_of self.new.progress)) }
    {
        let Some((text, end)) = quoted(self.alloc, quote, behind)? else {
            return Ok(None);
        };
        if self.progress.text(text.as_bytes())? {
            return Ok(Some(end + 2));
        }
        Ok(None)
    }
}
