//! At most two entries, which lie side by side.
ghost use Rattle.std.specs.Prelude.{◌≡◌, ◌+◌, ◌<◌, ◌≤◌, ◌++◌, ◌∷◌, ◌↔◌, nat_eq, [], None, length, is_some, if◌then◌else◌, IfSome, IfNone, IsSome};
ghost use Rattle.std.specs.List.{IsDistinct};
ghost use Rattle.std.specs.Map.{lookup, keys_of, values_of};
ghost use Rattle.std.specs.Option.{option_to_list};
ghost use Rattle.small_map.specs.SmallMap.{Updates};
ghost use Rattle.small_map.specs.Few.{entries_in, AreFew};

use std::marker::Model;
use std::mem;

/// How many entries there are at most.
pub const MOST: usize = 2;

/// At most two entries, which lie side by side: numbers, no two the same, with their values.
#[derive(Drop)]
pub struct Few<V: Drop> {
    side: Side<V>,
}

/// Numbers, and a value of each.
#[derive(Drop)]
enum Side<V: Drop> {
    Zero,
    One([usize; 1], [V; 1]),
    Two([usize; 2], [V; 2]),
}

impl<V: Drop> Model for Few<V> {
    ghost use Rattle.std.specs.Prelude.{ℕ, List};
    ghost use Rattle.small_map.specs.Few.{entries_in, AreFew};

    ghost Value = { List (ℕ × V) };

    ghost view = { λ f. entries_in f.side };

    ghost invariant = { λ f. AreFew f.side };
}

impl<V: Drop> Few<V> {
    /// No entry.
    #[tactic(auto, using(crate::proofs::Apart::none_apart))]
    pub fn new() -> Few<V>
        ensures none { result ≡ [] }
        ensures distinct { IsDistinct nat_eq (keys_of result) }
    {
        Few { side: Side::Zero }
    }

    /// The numbers, in the order of the entries.
    #[tactic(auto, using(crate::proofs::Apart::none_apart, crate::proofs::Pairs::numbers_of_pairs, crate::proofs::Pairs::distinct_pairs))]
    pub fn numbers(&self) -> &[usize]
        ensures numbers { result.now ≡ keys_of self.now }
        ensures distinct { IsDistinct nat_eq (keys_of self.now) }
    {
        match &self.side {
            Side::Zero => &[],
            Side::One(numbers, _) => numbers.as_slice(),
            Side::Two(numbers, _) => numbers.as_slice(),
        }
    }

    /// The values, in the order of the entries.
    #[tactic(auto, using(crate::proofs::Pairs::values_of_pairs))]
    pub fn values(&self) -> &[V]
        ensures { result.now ≡ values_of self.now }
    {
        match &self.side {
            Side::Zero => &[],
            Side::One(_, values) => values.as_slice(),
            Side::Two(_, values) => values.as_slice(),
        }
    }

    /// The number of entries.
    #[tactic(auto, using(crate::proofs::Pairs::count_of_pairs))]
    pub fn len(&self) -> usize
        ensures len { result ≡ length self.now }
        ensures most { result ≤ 2 }
    {
        match &self.side {
            Side::Zero => 0,
            Side::One(_, _) => 1,
            Side::Two(_, _) => 2,
        }
    }

    /// Takes all entries out.
    fn take(&mut self) -> Side<V>
        ensures entries { entries_in result ≡ self.old }
        ensures few { AreFew result }
        ensures none { self.new ≡ [] }
    {
        let Few { side } = mem::replace(self, Few::new());
        side
    }

    /// Puts an entry after the others.
    #[tactic(auto, using(crate::proofs::Pairs::few_distinct))]
    pub fn push(&mut self, number: usize, value: V)
        requires room { length self.old < 2 }
        requires absent { lookup (nat_eq number) self.old ≡ None }
        ensures entries { self.new ≡ self.old ++ (number, value) ∷ [] }
        ensures distinct { IsDistinct nat_eq (keys_of self.new) }
    {
        let side = longer(self.take(), number, value);
        *self = Few { side };
    }

    /// Takes the last entry out.
    #[tactic(auto, using(crate::proofs::Pairs::few_distinct))]
    pub fn pop(&mut self) -> Option<(usize, V)>
        ensures entries { self.old ≡ self.new ++ option_to_list result }
        ensures absent { IfSome result (λ e. lookup (nat_eq e.0) self.new ≡ None) }
        ensures updates { IfSome result (λ e. Updates self.old self.new e.0 None) }
        ensures none { IfNone result ((self.old ≡ []) × (self.new ≡ [])) }
        ensures room { length self.new < 2 }
        ensures distinct { IsDistinct nat_eq (keys_of self.new) }
    {
        let (side, last) = shorter(self.take());
        *self = Few { side };
        last
    }

    /// Takes a number out, and gives its value.
    pub fn remove(&mut self, number: usize) -> Option<V>
        ensures value { result ≡ lookup (nat_eq number) self.old }
        ensures updates { Updates self.old self.new number None }
        ensures len { length self.new + (if is_some result then 1 else 0) ≡ length self.old }
        ensures none { IfNone result (self.new ≡ self.old) }
        ensures distinct { IsDistinct nat_eq (keys_of self.new) }
    {
        let Some((last, value)) = self.pop() else {
            return None;
        };
        if last == number {
            return Some(value);
        }
        let found = self.remove(number);
        self.push(last, value);
        found
    }
}

/// The entries with one more, as the last.
#[tactic(auto, using(crate::proofs::Apart::one_apart, crate::proofs::Pairs::count_of_pairs))]
fn longer<V: Drop>(side: Side<V>, number: usize, value: V) -> Side<V>
    requires few { AreFew side }
    requires room { length (entries_in side) < 2 }
    requires absent { lookup (nat_eq number) (entries_in side) ≡ None }
    ensures entries { entries_in result ≡ entries_in side ++ (number, value) ∷ [] }
    ensures few { AreFew result }
{
    match side {
        Side::Zero => Side::One([number], [value]),
        Side::One(numbers, values) => Side::Two(second(numbers, number), second(values, value)),
        Side::Two(_numbers, _values) => unreachable!(),
    }
}

/// The entries without the last, and the last.
#[tactic(auto, using(crate::proofs::Pairs::count_of_pairs))]
fn shorter<V: Drop>(side: Side<V>) -> (Side<V>, Option<(usize, V)>)
    requires few { AreFew side }
    ensures entries { entries_in side ≡ entries_in result.0 ++ option_to_list result.1 }
    ensures few { AreFew result.0 }
    ensures updates { IfSome result.1
        (λ e. Updates (entries_in side) (entries_in result.0) e.0 None) }
    ensures none { IfNone result.1
        ((entries_in side ≡ []) × (entries_in result.0 ≡ [])) }
    ensures room { length (entries_in result.0) < 2 }
    ensures absent { IfSome result.1 (λ e. lookup (nat_eq e.0) (entries_in result.0) ≡ None) }
{
    match side {
        Side::Zero => (Side::Zero, None),
        Side::One(numbers, values) => (Side::Zero, Some((only(numbers), only(values)))),
        Side::Two(numbers, values) => {
            let (numbers, number) = without_second(numbers);
            let (values, value) = without_second(values);
            (Side::One(numbers, values), Some((number, value)))
        }
    }
}

fn only<X: Drop>(array: [X; 1]) -> X
    ensures { array ≡ result ∷ [] }
{
    let [x] = array;
    x
}

fn second<X: Drop>(array: [X; 1], y: X) -> [X; 2]
    ensures { result ≡ array ++ y ∷ [] }
{
    let [x] = array;
    [x, y]
}

fn without_second<X: Drop>(array: [X; 2]) -> ([X; 1], X)
    ensures parts { array ≡ result.0 ++ result.1 ∷ [] }
    ensures len { length result.0 ≡ 1 }
{
    let [x, y] = array;
    ([x], y)
}
