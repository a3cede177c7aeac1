//! A pure universe as a universe.
ghost use Rattle.std.specs.Prelude.{◌≡◌};

use crate::pure::Pure;
use dice_key::{Answers, Kind, Line, Move, NoMemory, Universe, Version};
use std::alloc::Global;
use std::sync::Arc;

/// A pure universe as one that an engine runs on. Each of its keys is injected or computed; none is
/// a projection.
#[derive(Drop)]
pub struct Plain<P: Pure> {
    alloc: Global,
    pure: P,
    absent: Arc<P::Value>,
    ghost absent_is: { absent.value ≡ P.absent },
}

/// A run: its key, its version, and the answers to its batches.
#[derive(Drop)]
pub struct Run<P: Pure> {
    key: Arc<P::Key>,
    version: Version,
    answers: Vec<Answers<P::Value>>,
}

impl<P: Pure> Plain<P> {
    /// The universe over this pure one. Its keys, values and runs are allocated by `alloc`.
    pub fn new(alloc: Global, pure: P) -> Result<Plain<P>, NoMemory> {
        let absent = Arc::new(alloc, pure.absent(alloc)?)?;
        Ok(Plain {
            alloc,
            pure,
            absent,
        })
    }
}

impl<P: Pure> Universe for Plain<P> {
    ghost use Rattle.std.specs.Arc.{arc_value};
    ghost use Rattle.pure_universe.specs.Plain.{plain, history, plain_is_lawful};

    type Key = P::Key;

    type Value = P::Value;

    type Run = Run<P>;

    ghost meaning = { plain P.is_injected (λ k. P.absent) P.next (λ k. P.most) P.text };

    ghost running = { λ r. record {
      key = arc_value r.key;
      version = r.version;
      answered = history (P.next (arc_value r.key)) r.answers.items;
    } };

    fn kind(&self, key: &P::Key) -> Kind {
        if self.pure.is_injected(key) {
            Kind::Injected
        } else {
            Kind::Computed
        }
    }

    fn absent(&self, _key: &P::Key) -> &Arc<P::Value> {
        &self.absent
    }

    fn begin(
        &self,
        key: &Arc<P::Key>,
        version: u64,
    ) -> Result<(Run<P>, Move<P::Key, P::Value>), NoMemory> {
        let answers = Vec::new(self.alloc);
        let step = self.pure.next(self.alloc, &**key, answers.as_slice())?;
        let key = Arc::try_clone(key)?;
        let run = Run {
            key,
            version,
            answers,
        };
        Ok((run, step))
    }

    fn resume(
        &self,
        run: &mut Run<P>,
        answers: &Answers<P::Value>,
    ) -> Result<Move<P::Key, P::Value>, NoMemory> {
        run.answers.push(answers.try_clone(self.alloc)?)?;
        self.pure
            .next(self.alloc, &*run.key, run.answers.as_slice())
    }

    /// No key is a projection, so an engine never asks for a base. There is none to give, and this
    /// only answers `NoMemory`.
    fn base(&self, _key: &P::Key) -> Result<Arc<P::Key>, NoMemory> {
        Err(NoMemory)
    }

    /// No key is a projection, so an engine never asks for a part of a value. This only answers
    /// `NoMemory`.
    fn project(&self, _key: &P::Key, _base: &P::Value) -> Result<Arc<P::Value>, NoMemory> {
        Err(NoMemory)
    }

    fn is_transient(&self, _value: &P::Value) -> bool {
        false
    }

    fn most_batches(&self, _key: &P::Key) -> u32 {
        self.pure.most_batches()
    }

    fn print(&self, key: &P::Key, short: bool) -> Result<Line, NoMemory> {
        self.pure.print(self.alloc, key, short)
    }

    ghost lawful = { plain_is_lawful P.is_injected (λ k. P.absent) P.next (λ k. P.most) P.text
        P.ends };

    ghost same_keys = { P.same_keys };

    ghost equal_values = { P.equal_values };
}
