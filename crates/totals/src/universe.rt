//! The universe: numbers that are set, and their running totals.
ghost use Rattle.std.specs.Prelude.{◌≡◌};
ghost use Rattle.totals.specs.Totals.{total_of};

use dice_key::{Answers, Line, Move, NoMemory};
use pure_universe::{Pure, ask, ask_both, done};
use std::alloc::Global;

/// What can be asked for.
#[derive(Clone, Copy, Debug, PartialEq, Eq, PartialOrd, Ord, Hash)]
pub enum Key {
    /// A number that is set from outside, 0 at first.
    Cell(u32),
    /// The sum of the cells up to this one, modulo 2^64.
    Total(u32),
}

/// The universe.
#[derive(Drop)]
pub struct Totals;

impl Pure for Totals {
    ghost use Rattle.totals.specs.Totals.{is_cell, next_move, text_of, ends, same_keys};
    ghost use Rattle.dice_key.specs.Same.{same_number};

    type Key = Key;

    type Value = u64;

    ghost is_injected = { is_cell };

    ghost absent = { 0 };

    ghost next = { next_move };

    ghost most = { 1 };

    ghost text = { text_of };

    fn is_injected(&self, key: &Key) -> bool {
        matches!(key, Key::Cell(_))
    }

    fn absent(&self, _alloc: Global) -> Result<u64, NoMemory> {
        Ok(0)
    }

    fn next(
        &self,
        alloc: Global,
        key: &Key,
        answers: &[Answers<u64>],
    ) -> Result<Move<Key, u64>, NoMemory> {
        match (*key, answers) {
            (Key::Cell(_), _) => done(alloc, 0),
            (Key::Total(0), []) => ask(alloc, Key::Cell(0)),
            (Key::Total(n), []) => ask_both(alloc, Key::Cell(n), Key::Total(n - 1)),
            (Key::Total(_), [first, ..]) => done(alloc, total_of(first)),
        }
    }

    fn most_batches(&self) -> u32 {
        1
    }

    fn print(&self, alloc: Global, key: &Key, _short: bool) -> Result<Line, NoMemory> {
        let text = match *key {
            Key::Cell(n) => format!(in alloc; "cell {n}")?,
            Key::Total(n) => format!(in alloc; "total {n}")?,
        };
        Ok(Line::from_bytes(text.into_bytes()))
    }

    ghost ends = { ends };

    ghost same_keys = { same_keys };

    ghost equal_values = { same_number };
}

/// The sum of one or two numbers.
fn total_of(answers: &Answers<u64>) -> u64
    ensures { result ≡ total_of answers.now }
{
    match answers.values() {
        [] => 0,
        [cell] => **cell,
        [cell, total, ..] => cell.wrapping_add(**total),
    }
}
