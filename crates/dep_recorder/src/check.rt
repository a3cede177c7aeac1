//! Checking a trace again.
ghost use Rattle.std.specs.Prelude.{◌≡◌, ◌<◌, ◌++◌, ◌∷◌, [], length, map, take, drop, ◌+◌, IfOk, IfSome, IfNone, None, List};
ghost use Rattle.std.specs.Arc.{arc_value};
ghost use Rattle.dep_recorder.specs.Recordings.{keys_in, values_in};
ghost use Rattle.dep_recorder.specs.Checks.{finding, finding_of, first_change, IsWantingOf, changed_at, values_of, IsNextBatch, IsFirstChange, LendsNext, Wants, IsSame, HasChanged};

use crate::trace::Trace;
use dice_key::{Answers, Batch, NoMemory, Universe, laws_of};
use std::alloc::Global;
use std::marker::Model;
use std::sync::Arc;

/// What a check needs or finds.
#[derive(Drop)]
pub enum Next<'a, K, V> {
    /// The answers to the keys of this batch, the next of the trace. Each key stands beside its
    /// answer in the trace.
    Want(&'a [(Arc<K>, Arc<V>)]),
    /// All answers are as they were.
    Same,
    /// The answer to a key has changed.
    Differs {
        dep: &'a Arc<K>,
        was: &'a Arc<V>,
        now: &'a Arc<V>,
    },
}

/// A check of a trace: it is fed the answers to one batch after the other, as long as they are as
/// they were.
pub struct Check<U: Universe> {
    trace: Arc<Trace<U>>,
    agreed: usize,
    change: Option<Change<U::Value>>,
}

// (One function for all places that drop one: a derived drop is written out at each.)
impl<U: Universe> Drop for Check<U> {
    fn drop(self) {
        let Check {
            trace: _trace,
            agreed: _,
            change: _change,
        } = self;
    }
}

/// The answers to a batch, and the first place at which one of them has changed.
#[derive(Drop)]
struct Change<V> {
    answers: Answers<V>,
    at: usize,
}

impl<U: Universe> Model for Check<U> {
    ghost use Rattle.std.specs.Prelude.{◌≤◌, length, IfSome, drop};
    ghost use Rattle.std.specs.Option.{option_map};
    ghost use Rattle.std.specs.Arc.{arc_value};
    ghost use Rattle.dep_recorder.specs.Checks.{Checked, fed_so_far, HasChange};

    ghost Value = { Checked U.Key U.Value };

    ghost view = { λ c. record {
      trace = arc_value c.trace;
      fed = fed_so_far (arc_value c.trace) c.agreed (option_map (λ d. d.answers) c.change);
    } };

    ghost invariant = { λ c. (c.agreed ≤ length (arc_value c.trace))
        × IfSome c.change
        (λ d. HasChange U.Value.eq (drop c.agreed (arc_value c.trace)) d.answers d.at) };
}

impl<U: Universe> Check<U> {
    /// A check of a trace that was fed nothing yet. It takes no memory.
    pub fn new(trace: Arc<Trace<U>>) -> Check<U>
        ensures { result ≡ record { trace = arc_value trace; fed = [] } }
    {
        Check {
            trace,
            agreed: 0,
            change: None,
        }
    }

    /// What the check needs or finds. It takes no memory.
    pub fn next(&self) -> Next<'_, U::Key, U::Value>
        ensures finding { finding_of result ≡ finding U.Value.eq self.now.trace self.now.fed }
        ensures wants { (ks : List U.Key) → finding_of result ≡ Wants ks
            → (0 < length ks) × IsNextBatch self.now.trace self.now.fed ks }
        ensures pairs { LendsNext self.now.trace self.now.fed result }
        ensures same { finding_of result ≡ IsSame → self.now.fed ≡ values_of self.now.trace }
        ensures differs { (d : U.Key) (x y : U.Value) → finding_of result ≡ HasChanged d x y
            → IsFirstChange self.now.trace self.now.fed d x y }
    {
        laws_of::<U>();
        if let Some(change) = &self.change {
            let (dep, was) = &self.trace.batch(self.agreed)[change.at];
            let now = &change.answers.values()[change.at];
            return Next::Differs { dep, was, now };
        }
        if self.agreed < self.trace.len() {
            Next::Want(self.trace.batch(self.agreed))
        } else {
            Next::Same
        }
    }

    /// Takes the answers to the batch that is wanted, one for each of its keys. It takes no memory.
    pub fn feed(&mut self, answers: Answers<U::Value>)
        requires { IsWantingOf (length answers) (finding U.Value.eq self.old.trace self.old.fed) }
        ensures { self.new ≡ record { trace = self.old.trace; fed = self.old.fed ++ answers ∷ [] } }
    {
        laws_of::<U>();
        let found = first_change(self.trace.batch(self.agreed), answers.values());
        match found {
            Some(at) => self.change = Some(Change { answers, at }),
            None => self.agreed += 1,
        }
    }

    /// Takes the trace's own answers to the batch that is wanted: those that it has now are known
    /// to be the same, and none is compared. It takes no memory.
    pub fn agree(&mut self)
        requires { (ks : List U.Key)
            × (finding U.Value.eq self.old.trace self.old.fed ≡ Wants ks) }
        ensures { self.new
            ≡ record
            { trace = self.old.trace; fed = values_of (take (length self.old.fed + 1) self.old.trace) } }
    {
        laws_of::<U>();
        if self.agreed >= self.trace.len() {
            unreachable!();
        }
        self.agreed += 1;
    }
}

/// The first place at which the answer to a key has changed.
fn first_change<K, V: Eq>(was: &[(Arc<K>, Arc<V>)], now: &[Arc<V>]) -> Option<usize>
    requires { length was.now ≡ length now.now }
    ensures none { IfNone result
        (first_change V.eq (keys_in was.now) (values_in was.now) (map arc_value now.now) ≡ None) }
    ensures some { IfSome result (λ i. (i < length was.now)
        × (first_change V.eq (keys_in was.now) (values_in was.now) (map arc_value now.now)
        ≡ changed_at i (keys_in was.now) (values_in was.now) (map arc_value now.now))) }
{
    for i in 0..was.len() {
        if *was[i].1 != *now[i] {
            return Some(i);
        }
    }
    None
}

/// The keys of a batch that a check wants, to be asked.
pub fn copied_keys<K: Drop, V>(
    alloc: Global,
    wanted: &[(Arc<K>, Arc<V>)],
) -> Result<Batch<K>, NoMemory>
    requires { 0 < length wanted.now }
    ensures { IfOk result (λ b. b ≡ keys_in wanted.now) }
{
    if let [(key, _)] = wanted {
        return Ok(Batch::one(alloc, Arc::try_clone(key)?));
    }
    let mut keys = Vec::with_capacity(alloc, wanted.len())?;
    for (key, _) in wanted {
        keys.push(Arc::try_clone(key)?)?;
    }
    Ok(Batch::from_keys(keys))
}
