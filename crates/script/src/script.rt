//! Scripts, read and checked as a whole.
ghost use Rattle.std.specs.Prelude.{◌≡◌, ◌≤◌, ◌+◌, ◌++◌, ℕ, List, length, take, OnOk, option_to_list};
ghost use Rattle.script.specs.Past.{nothing, is_cancelled};
ghost use Rattle.script.specs.Scripts.{IsScript, IsFirstFault};
ghost use Rattle.script.specs.Order.{InOrder};
ghost use Rattle.script.specs.Reading.{IsRead};
ghost use Rattle.script.specs.Taking.{AreLines, broken_at};
ghost use Rattle.script.specs.GivingUp.{gives_up, some_give_up};
ghost use Rattle.lists.specs.Lines.{line_feeds};

use crate::fault::{ScriptRefusal, Stop, Word};
use crate::known::Known;
use crate::line::Line;
use crate::name::Name;
use crate::number::MOST_BYTES;
use crate::reader::Reader;
use buck_label::printed_is_read;
use hash_seed::Seed;
use std::alloc::{AllocError, Global};
use std::marker::Model;

/// A script that was read: its lines that do something, in order.
pub struct Script {
    seed: Seed,
    lines: Vec<Line>,
    known: Known,
    gives_up: bool,
}

// (One function for all places that drop one: a derived drop is written out at each.)
impl Drop for Script {
    fn drop(self) {
        let Script {
            seed: _,
            lines: _lines,
            known: _known,
            gives_up: _,
        } = self;
    }
}

impl Model for Script {
    ghost use Rattle.std.specs.Prelude.{List, ℕ};
    ghost use Rattle.script.specs.declared.line.Line.{Line};
    ghost use Rattle.std.specs.Prelude.{◌≡◌};
    ghost use Rattle.script.specs.Past.{nothing, after_all};
    ghost use Rattle.script.specs.Known.{past_of};
    ghost use Rattle.script.specs.Scripts.{IsScript};
    ghost use Rattle.script.specs.GivingUp.{some_give_up};

    ghost Value = { List Line };

    ghost view = { λ s. s.lines.items };

    ghost invariant = { λ s. (text : List ℕ) × IsScript text s.lines.items
        × (past_of s.known ≡ after_all nothing s.lines.items)
        × (s.gives_up ≡ some_give_up s.lines.items) };
}

impl Script {
    /// The seed of its bytes, by which the names in it are hashed: no name can be picked to meet
    /// others in a table without it.
    pub fn seed(&self) -> Seed {
        self.seed
    }

    /// Its lines.
    pub fn lines(&self) -> &[Line]
        ensures lines { result.now ≡ self.now }
        ensures read { (text : List ℕ) × IsScript text self.now }
        ensures in_order { InOrder nothing self.now }
    {
        self.lines.as_slice()
    }

    /// Whether the script cancels the request of this name: by `cancel`, or by the `close` of its
    /// transaction before a `wait`. It takes two look-ups, and none if no line of the script gives a
    /// request up.
    pub fn is_cancelled(&self, name: &Name) -> bool
        ensures { result ≡ is_cancelled self.now name.now }
    {
        if !self.gives_up {
            return false;
        }
        self.known.is_given_up(name.as_text())
    }
}

/// Why the lines were not all taken.
#[derive(Clone, Copy)]
enum Broken {
    /// The line that begins at this byte has this fault.
    At(usize, Word),
    NoMemory,
}

fn line_feeds(bytes: &[u8]) -> usize
    ensures count { result ≡ line_feeds bytes.now }
    ensures fits { result ≤ length bytes.now }
{
    let mut count = 0;
    for byte in bytes {
        if *byte == b'\n' {
            count += 1;
        }
    }
    count
}

fn broken_at(at: usize, stop: Stop) -> Broken
    ensures { result ≡ broken_at at stop }
{
    match stop {
        Stop::Fault(word) => Broken::At(at, word),
        Stop::NoMemory => Broken::NoMemory,
    }
}

fn keep(lines: &mut Vec<Line>, made: Option<Line>) -> Result<(), AllocError>
    ensures { OnOk result (lines.new.items ≡ lines.old.items ++ option_to_list made) }
{
    if let Some(line) = made {
        lines.push(line)?;
    }
    Ok(())
}

/// Whether a line gives requests up.
fn gives_up(line: &Line) -> bool
    ensures { result ≡ gives_up line.now }
{
    matches!(line, Line::Cancel(_) | Line::Close(_))
}

/// Whether one of the lines gives requests up.
fn some_give_up(lines: &[Line]) -> bool
    ensures { result ≡ some_give_up lines.now }
{
    for line in lines {
        if gives_up(line) {
            return true;
        }
    }
    false
}

/// The lines, and what is known at their end.
fn lines_of(alloc: Global, seed: Seed, bytes: &[u8]) -> Result<(Vec<Line>, Known), Broken>
    ensures { AreLines bytes.now result }
{
    let mut known = Known::new(alloc, seed);
    let mut reader = Reader::new(alloc);
    let mut lines = Vec::new(alloc);
    let mut at = 0;
    while at < bytes.len() {
        match known.line(&mut reader, &bytes[at..]) {
            Ok((made, taken)) => {
                if keep(&mut lines, made).is_err() {
                    return Err(Broken::NoMemory);
                }
                at += taken;
            }
            Err(stop) => return Err(broken_at(at, stop)),
        }
    }
    Ok((lines, known))
}

/// Reads a script: all of it is checked before anything runs.
///
/// `TooLong` is tested first. A `Fault` names the first line with a fault and the first test
/// that fails there, the operands from left to right. The time is that of a walk over the bytes,
/// and of a few look-ups in hash maps for each line, `close` among them.
pub fn read(alloc: Global, bytes: &[u8]) -> Result<Script, ScriptRefusal>
    ensures { IsRead bytes.now result }
{
    if bytes.len() > MOST_BYTES {
        return Err(ScriptRefusal::TooLong);
    }
    readings_are_one();
    let seed = Seed::of(bytes);
    match lines_of(alloc, seed, bytes) {
        Ok((lines, known)) => {
            let gives_up = some_give_up(lines.as_slice());
            Ok(Script {
                seed,
                lines,
                known,
                gives_up,
            })
        }
        Err(Broken::At(at, word)) => Err(ScriptRefusal::Fault {
            line: 1 + line_feeds(&bytes[..at]),
            word,
        }),
        Err(Broken::NoMemory) => Err(ScriptRefusal::NoMemory),
    }
}

/// A text is one script, or has one first fault, and not both.
pub fn readings_are_one()
    ensures script { (text : List ℕ) (ls ms : List Line) → IsScript text ls → IsScript text ms
        → ls ≡ ms }
    ensures fault { (text : List ℕ) (m n : ℕ) (v w : Word) → IsFirstFault text m v
        → IsFirstFault text n w → (m ≡ n) × (v ≡ w) }
    ensures not_both { (text : List ℕ) (ls : List Line) (n : ℕ) (w : Word) → IsScript text ls
        → IsFirstFault text n w → ⊥ }
{
    printed_is_read();
}
