//! The universe: cells whose texts are set, and their values.
ghost use Rattle.std.specs.Prelude.{◌≡◌, [], map};
ghost use Rattle.std.specs.Arc.{arc_value};
ghost use Rattle.spreadsheet.specs.declared.value.Value.TheVariants as value;
ghost use Rattle.spreadsheet.specs.Sheet.{applied, combined, number_in, first_in, second_in, result_of, formula_in};

use crate::cell::Key;
use crate::formula::{Formula, Operator, Term, read};
use crate::value::{Fault, Value};
use dice_key::{Answers, Line, Move, NoMemory};
use pure_universe::{Pure, ask, ask_both, done};
use shared_text::Text;
use std::alloc::Global;
use std::sync::Arc;

/// The universe.
#[derive(Drop)]
pub struct Sheet;

impl Pure for Sheet {
    ghost use Rattle.spreadsheet.specs.Sheet.{is_text, next_move, text_of};
    ghost use Rattle.spreadsheet.specs.Laws.{ends, same_keys, equal_values};

    type Key = Key;

    type Value = Value;

    ghost is_injected = { is_text };

    ghost absent = { value.Text [] };

    ghost next = { next_move };

    ghost most = { 2 };

    ghost text = { text_of };

    fn is_injected(&self, key: &Key) -> bool {
        matches!(key, Key::Text(_))
    }

    fn absent(&self, alloc: Global) -> Result<Value, NoMemory> {
        Ok(Value::Text(Text::from_slice(alloc, b"")?))
    }

    fn next(
        &self,
        alloc: Global,
        key: &Key,
        answers: &[Answers<Value>],
    ) -> Result<Move<Key, Value>, NoMemory> {
        match (*key, answers) {
            (Key::Text(_), _) => done(alloc, Value::Number(Err(Fault::Unreadable))),
            (Key::Value(cell), []) => ask(alloc, Key::Text(cell)),
            (Key::Value(_), [text]) => match formula_in(text) {
                Formula::Two(Term::Cell(left), _, Term::Cell(right)) => {
                    ask_both(alloc, Key::Value(left), Key::Value(right))
                }
                Formula::One(Term::Cell(cell))
                | Formula::Two(Term::Cell(cell), _, Term::Number(_))
                | Formula::Two(Term::Number(_), _, Term::Cell(cell)) => ask(
                    alloc,
                    Key::Value(cell),
                ),
                formula => done(alloc, Value::Number(result_of(formula, &[]))),
            },
            (Key::Value(_), [text, cells, ..]) => {
                done(
                    alloc,
                    Value::Number(result_of(formula_in(text), cells.values())),
                )
            }
        }
    }

    fn most_batches(&self) -> u32 {
        2
    }

    fn print(&self, alloc: Global, key: &Key, short: bool) -> Result<Line, NoMemory> {
        let (word, cell): (&[u8], _) = match *key {
            Key::Text(cell) => (b"text ", cell),
            Key::Value(cell) => (b"value ", cell),
        };
        let mut text = Vec::new(alloc);
        if !short {
            text.extend_from_slice(word)?;
        }
        text.push(cell.column)?;
        text.push(cell.row)?;
        Ok(Line::from_bytes(text))
    }

    ghost ends = { ends };

    ghost same_keys = { same_keys };

    ghost equal_values = { equal_values };
}

/// The formula in the text that answers a batch.
fn formula_in(answers: &Answers<Value>) -> Formula
    ensures { result ≡ formula_in answers.now }
{
    match answers.values() {
        [first, ..] => match &**first {
            Value::Text(text) => read(text.as_bytes()),
            Value::Number(_) => Formula::Unreadable,
        },
        [] => Formula::Unreadable,
    }
}

/// What a formula comes to, by the values of its cells.
fn result_of(formula: Formula, cells: &[Arc<Value>]) -> Result<u64, Fault>
    ensures { result ≡ result_of formula (map arc_value cells.now) }
{
    match formula {
        Formula::One(Term::Number(number)) => Ok(number),
        Formula::One(Term::Cell(_)) => first_in(cells),
        Formula::Two(Term::Number(left), operator, Term::Number(right)) => {
            applied(operator, left, right)
        }
        Formula::Two(Term::Number(left), operator, Term::Cell(_)) => {
            combined(operator, Ok(left), first_in(cells))
        }
        Formula::Two(Term::Cell(_), operator, Term::Number(right)) => {
            combined(operator, first_in(cells), Ok(right))
        }
        Formula::Two(Term::Cell(_), operator, Term::Cell(_)) => {
            combined(operator, first_in(cells), second_in(cells))
        }
        Formula::Unreadable => Err(Fault::Unreadable),
    }
}

/// What is done with two numbers; a fault goes on, that on the left first.
fn combined(
    operator: Operator,
    left: Result<u64, Fault>,
    right: Result<u64, Fault>,
) -> Result<u64, Fault>
    ensures { result ≡ combined operator left right }
{
    match (left, right) {
        (Ok(left), Ok(right)) => applied(operator, left, right),
        (Err(fault), _) | (Ok(_), Err(fault)) => Err(fault),
    }
}

/// What comes of two numbers.
fn applied(operator: Operator, left: u64, right: u64) -> Result<u64, Fault>
    ensures { result ≡ applied operator left right }
{
    let number = match operator {
        Operator::Plus => left.checked_add(right),
        Operator::Minus => left.checked_sub(right),
        Operator::Times => left.checked_mul(right),
        Operator::Over if right == 0 => return Err(Fault::DividedByZero),
        Operator::Over => Some(left / right),
    };
    match number {
        Some(number) => Ok(number),
        None => Err(Fault::OutOfRange),
    }
}

/// The number of the first of these values.
fn first_in(values: &[Arc<Value>]) -> Result<u64, Fault>
    ensures { result ≡ first_in (map arc_value values.now) }
{
    match values {
        [first, ..] => number_in(first),
        [] => Err(Fault::Unreadable),
    }
}

/// The number of the second of these values.
fn second_in(values: &[Arc<Value>]) -> Result<u64, Fault>
    ensures { result ≡ second_in (map arc_value values.now) }
{
    match values {
        [_, second, ..] => number_in(second),
        _ => Err(Fault::Unreadable),
    }
}

/// The number of a value.
fn number_in(value: &Value) -> Result<u64, Fault>
    ensures { result ≡ number_in value.now }
{
    match value {
        Value::Number(number) => *number,
        Value::Text(_) => Err(Fault::Unreadable),
    }
}
