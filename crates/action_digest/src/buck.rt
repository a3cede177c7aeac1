//! The universe.
ghost use Rattle.std.specs.Prelude.{◌≡◌, ◌<◌, [], ◌∷◌, ℕ, List, IfOk, Option, Some, None, map, length};
ghost use Rattle.std.specs.Arc.{arc_value};
ghost use Rattle.action_digest.specs.Buck.{absent_of, first_of, package_by, rule_by, digest_by, package_value, rule_value, digest_value, rule_in, with_rule, second_batch, asked_with, asked_second, answered_so_far, buck_next};
ghost use Rattle.action_digest.specs.declared.key.Key.TheVariants as key;
ghost use Rattle.std.specs.Option.{option_copied, option_map};
ghost use Rattle.dice_key.specs.Meaning.{Asks, Ends};
ghost use Rattle.dice_key.specs.Lawful.{IsStep};

use crate::action::{action_of, digest_of};
use crate::asked::asked_by;
use crate::contents::Contents;
use crate::fault::Fault;
use crate::key::Key;
use crate::package_file::PackageFile;
use crate::rule::Rule;
use crate::run::Run;
use crate::value::{ActionText, Value};
use buck_label::{Label, Package};
use dice_key::{Answers, Batch, Kind, Line, Move, NoMemory, Seed, Universe};
use std::alloc::Global;
use std::sync::Arc;
use target_file::FileFault;

/// The universe of Buck targets. Sources are set from outside. A package is read from its target
/// file, and a rule is found in its package. An action's text is made of its rule, and a digest is
/// the SHA-256 of the text.
pub struct Buck {
    alloc: Global,
    seed: Seed,
    no_source: Arc<Value>,
    no_package: Arc<Value>,
    no_rule: Arc<Value>,
    no_action: Arc<Value>,
    no_digest: Arc<Value>,
    ghost no_source_is: { (p : List ℕ) → arc_value no_source ≡ absent_of (key.Source p) },
    ghost no_package_is: { (p : List ℕ) → arc_value no_package ≡ absent_of (key.Package p) },
    ghost no_rule_is: { (l : List ℕ) → arc_value no_rule ≡ absent_of (key.Rule l) },
    ghost no_action_is: { (l : List ℕ) → arc_value no_action ≡ absent_of (key.Action l) },
    ghost no_digest_is: { (l : List ℕ) → arc_value no_digest ≡ absent_of (key.Digest l) },
}

// (One function for all places that drop one: a derived drop is written out at each.)
impl Drop for Buck {
    fn drop(self) {
        let Buck {
            alloc: _,
            seed: _,
            no_source: _no_source,
            no_package: _no_package,
            no_rule: _no_rule,
            no_action: _no_action,
            no_digest: _no_digest,
        } = self;
    }
}

impl Buck {
    /// The universe.
    pub fn new(alloc: Global) -> Result<Buck, NoMemory> {
        Buck::seeded(alloc, Seed::fixed())
    }

    /// The universe, in whose tables keys are hashed by this seed. Its values are the same with
    /// each.
    pub fn seeded(alloc: Global, seed: Seed) -> Result<Buck, NoMemory> {
        let no_source = Arc::new(alloc, Value::Source(None))?;
        let no_package = Arc::new(alloc, Value::Package(Err(Fault::nothing(alloc)?)))?;
        let no_rule = Arc::new(alloc, Value::Rule(Err(Fault::nothing(alloc)?)))?;
        let no_action = Arc::new(alloc, Value::Action(Err(Fault::nothing(alloc)?)))?;
        let no_digest = Arc::new(alloc, Value::Digest(Err(Fault::nothing(alloc)?)))?;
        Ok(Buck {
            alloc,
            seed,
            no_source,
            no_package,
            no_rule,
            no_action,
            no_digest,
        })
    }
}

/// The targets of a package, by what its target file holds.
fn package_by(
    alloc: Global,
    home: &Package,
    source: Option<&Contents>,
) -> Result<Result<PackageFile, Fault>, NoMemory>
    ensures { IfOk result (λ r. r ≡ package_by home.now (option_copied source.entry)) }
{
    let Some(contents) = source else {
        return Ok(Err(Fault::NoPackage(home.try_clone()?)));
    };
    let bytes = contents.as_text();
    match target_file::read(alloc, bytes.as_bytes()) {
        Ok(file) => Ok(Ok(PackageFile::of(bytes.try_clone()?, file))),
        Err(FileFault::Bad { line }) => { Ok(Err(Fault::BadFile(home.target_file(alloc)?, line))) }
        Err(FileFault::NoMemory) => Err(NoMemory),
    }
}

/// The target of a label, by the targets of its package.
fn rule_by(
    label: &Label,
    found: &Result<PackageFile, Fault>,
) -> Result<Result<Rule, Fault>, NoMemory>
    ensures { IfOk result (λ r. r ≡ rule_by label.now found.now) }
{
    match found {
        Ok(package) => match package.file().target(label.name()) {
            Some(target) => Ok(Ok(Rule::of(Arc::try_clone(target)?))),
            None => Ok(Err(Fault::NoTarget(label.try_clone()?))),
        },
        Err(fault) => Ok(Err(fault.try_clone()?)),
    }
}

/// The digest of an action, by its text.
fn digest_by(action: &Result<ActionText, Fault>) -> Result<Result<[u8; 32], Fault>, NoMemory>
    ensures { IfOk result (λ r. r ≡ digest_by action.now) }
{
    match action {
        Ok(action) => Ok(Ok(digest_of(action.text.as_bytes()))),
        Err(fault) => Ok(Err(fault.try_clone()?)),
    }
}

/// The value of a package, by the answer for its target file.
fn package_value(alloc: Global, home: &Package, answer: Option<&Value>) -> Result<Value, NoMemory>
    ensures { IfOk result (λ x. x ≡ package_value home.now (option_copied answer.entry)) }
{
    let source = match answer {
        Some(Value::Source(source)) => source.as_ref(),
        _ => None,
    };
    Ok(Value::Package(package_by(alloc, home, source)?))
}

/// The value of a rule, by the answer for its package.
fn rule_value(alloc: Global, label: &Label, answer: Option<&Value>) -> Result<Value, NoMemory>
    ensures { IfOk result (λ x. x ≡ rule_value label.now (option_copied answer.entry)) }
{
    match answer {
        Some(Value::Package(package)) => Ok(Value::Rule(rule_by(label, package)?)),
        _ => Ok(Value::Rule(Err(Fault::nothing(alloc)?))),
    }
}

/// The value of a digest, by the answer for its action.
fn digest_value(alloc: Global, answer: Option<&Value>) -> Result<Value, NoMemory>
    ensures { IfOk result (λ x. x ≡ digest_value (option_copied answer.entry)) }
{
    match answer {
        Some(Value::Action(action)) => Ok(Value::Digest(digest_by(action)?)),
        _ => Ok(Value::Digest(Err(Fault::nothing(alloc)?))),
    }
}

/// The first of some answers.
fn first_of(values: &[Arc<Value>]) -> Option<&Value>
    ensures { option_copied result ≡ first_of (map arc_value values.now) }
{
    match values {
        [first, ..] => Some(first),
        [] => None,
    }
}

/// The keys of the second batch of a run, by the answers to its first.
fn asked_second(alloc: Global, key: &Key, first: &Answers<Value>) -> Result<Vec<Arc<Key>>, NoMemory>
    ensures { IfOk result (λ ks. map arc_value ks.items ≡ asked_second key.now (Some first.now)) }
{
    match (key, first_of(first.values())) {
        (Key::Action(label), Some(Value::Rule(Ok(rule)))) => {
            asked_by(alloc, label, rule.target().action())
        }
        _ => Ok(Vec::new(alloc)),
    }
}

impl Buck {
    /// The move that is done with a value.
    fn done(&self, value: Value) -> Result<Move<Key, Value>, NoMemory>
        ensures { IfOk result (λ p. IsStep p (Ends value)) }
    {
        Ok(Move::Done(Arc::new(self.alloc, value)?))
    }

    /// The move that asks one key.
    fn ask(&self, key: Key) -> Result<Move<Key, Value>, NoMemory>
        ensures { IfOk result (λ p. IsStep p (Asks (key ∷ []))) }
    {
        Ok(Move::Ask(Batch::one(self.alloc, Arc::new(self.alloc, key)?)))
    }

    /// The move that asks these keys.
    fn ask_all(&self, keys: &[Arc<Key>]) -> Result<Move<Key, Value>, NoMemory>
        requires { 0 < length keys.now }
        ensures { IfOk result (λ p. IsStep p (Asks (map arc_value keys.now))) }
    {
        let mut asked = Vec::with_capacity(self.alloc, keys.len())?;
        for key in keys {
            asked.push(Arc::try_clone(key)?)?;
        }
        Ok(Move::Ask(Batch::from_keys(asked)))
    }

    /// The next move of an action whose rule was answered.
    fn action_step(
        &self,
        label: &Label,
        run: &Run,
        rule: Option<&Value>,
    ) -> Result<Move<Key, Value>, NoMemory>
        requires { map arc_value run.now.asked.items
            ≡ asked_with label.now (rule_in (option_copied rule)) }
        ensures { IfOk result (λ p. IsStep p (with_rule run.now.version label.now
            (rule_in (option_copied rule.entry)) (second_batch run.now.second))) }
    {
        let action = match rule {
            Some(Value::Rule(Ok(rule))) => rule.target().action(),
            Some(Value::Rule(Err(fault))) => {
                return self.done(Value::Action(Err(fault.try_clone()?)));
            }
            _ => return self.done(Value::Action(Err(Fault::nothing(self.alloc)?))),
        };
        let values = match &run.second {
            Some(second) => second.values(),
            None if run.asked.is_empty() => &[],
            None => return self.ask_all(&run.asked),
        };
        let text = action_of(self.alloc, run.version, action, &run.asked, values)?;
        self.done(Value::Action(text))
    }

    /// The next move of a run.
    fn step(&self, run: &Run) -> Result<Move<Key, Value>, NoMemory>
        ensures { IfOk result (λ p. IsStep p (buck_next (arc_value run.now.key)
            (answered_so_far (arc_value run.now.key) run.now.version run.now.first run.now.second)
            run.now.version)) }
    {
        let key = &*run.key;
        let Some(first) = &run.first else {
            return self.first_step(key);
        };
        let answer = first_of(first.values());
        match key {
            Key::Source(_) => self.done(Value::Source(None)),
            Key::Package(package) => self.done(package_value(self.alloc, package, answer)?),
            Key::Rule(label) => self.done(rule_value(self.alloc, label, answer)?),
            Key::Action(label) => self.action_step(label, run, answer),
            Key::Digest(_) => self.done(digest_value(self.alloc, answer)?),
        }
    }

    /// The first move of a run: it asks the key's base.
    fn first_step(&self, key: &Key) -> Result<Move<Key, Value>, NoMemory>
        ensures { IfOk result (λ p. IsStep p (buck_next key.now [] 0)) }
    {
        match key {
            Key::Source(_) => self.done(Value::Source(None)),
            _ => self.ask(key.base(self.alloc)?),
        }
    }
}

impl Universe for Buck {
    ghost use Rattle.std.specs.Arc.{arc_value};
    ghost use Rattle.action_digest.specs.Buck.{buck, answered_so_far};
    ghost use Rattle.action_digest.specs.Laws.{buck_lawful};
    ghost use Rattle.action_digest.specs.Same.{keys_same, values_equal};

    type Key = Key;

    type Value = Value;

    type Run = Run;

    ghost meaning = { buck };

    ghost running = { λ r. record {
      key = arc_value r.key;
      version = r.version;
      answered = answered_so_far (arc_value r.key) r.version r.first r.second;
    } };

    fn kind(&self, key: &Key) -> Kind {
        match key {
            Key::Source(_) => Kind::Injected,
            Key::Package(_) | Key::Action(_) => Kind::Computed,
            Key::Rule(_) | Key::Digest(_) => Kind::Projection,
        }
    }

    fn absent(&self, key: &Key) -> &Arc<Value> {
        match key {
            Key::Source(_) => &self.no_source,
            Key::Package(_) => &self.no_package,
            Key::Rule(_) => &self.no_rule,
            Key::Action(_) => &self.no_action,
            Key::Digest(_) => &self.no_digest,
        }
    }

    fn begin(&self, key: &Arc<Key>, version: u64) -> Result<(Run, Move<Key, Value>), NoMemory> {
        let run = Run {
            key: Arc::try_clone(key)?,
            version,
            first: None,
            asked: Vec::new(self.alloc),
            second: None,
        };
        let step = self.step(&run)?;
        Ok((run, step))
    }

    fn resume(
        &self,
        run: &mut Run,
        answers: &Answers<Value>,
    ) -> Result<Move<Key, Value>, NoMemory> {
        let answers = answers.try_clone(self.alloc)?;
        if run.first.is_none() {
            run.asked = asked_second(self.alloc, &run.key, &answers)?;
            run.first = Some(answers);
        } else {
            run.second = Some(answers);
        }
        self.step(run)
    }

    fn base(&self, key: &Key) -> Result<Arc<Key>, NoMemory> {
        Ok(Arc::new(self.alloc, key.base(self.alloc)?)?)
    }

    fn project(&self, key: &Key, base: &Value) -> Result<Arc<Value>, NoMemory> {
        let value = match key {
            Key::Rule(label) => rule_value(self.alloc, label, Some(base))?,
            Key::Digest(_) => digest_value(self.alloc, Some(base))?,
            _ => Value::Source(None),
        };
        Ok(Arc::new(self.alloc, value)?)
    }

    fn is_transient(&self, value: &Value) -> bool {
        match value {
            Value::Action(Ok(action)) => action.holds_version,
            _ => false,
        }
    }

    fn most_batches(&self, key: &Key) -> u32 {
        match key {
            Key::Source(_) => 0,
            Key::Action(_) => 2,
            _ => 1,
        }
    }

    fn seed(&self) -> Seed {
        self.seed
    }

    fn print(&self, key: &Key, short: bool) -> Result<Line, NoMemory> {
        key.print(self.alloc, short)
    }

    ghost lawful = { buck_lawful };

    ghost same_keys = { keys_same };

    ghost equal_values = { values_equal };
}
