//! Sets of texts.
ghost use Rattle.std.specs.Prelude.{◌≡◌, OnOk, IfOk, not};
ghost use Rattle.script.specs.Past.{no_texts, adding};
ghost use Rattle.script.specs.Names.{has};

use buck_label::Text;
use hash_seed::Seed;
use std::alloc::{AllocError, Global};
use std::collections::HashSet;

/// The room of so many texts is kept when they are taken out.
const FEW: usize = 32;

/// A set of texts, which contracts see as the test `has`. A look-up takes constant time: whoever
/// writes a script picks its names, but not the seed by which they are hashed.
#[derive(Drop)]
pub(crate) struct Names {
    texts: HashSet<Text, Seed>,
}

impl Names {
    pub(crate) fn new(alloc: Global, seed: Seed) -> Names
        ensures { has result ≡ no_texts }
    {
        Names {
            texts: HashSet::with_hasher(alloc, seed),
        }
    }

    /// Takes out all texts. The room of a few is kept for the next ones.
    pub(crate) fn clear(&mut self, alloc: Global)
        ensures { has self.new ≡ no_texts }
    {
        if self.texts.capacity() <= FEW {
            self.texts.clear();
        } else {
            *self = Names::new(alloc, *self.texts.hasher());
        }
    }

    /// Adds a text, and tells whether it is a new one.
    pub(crate) fn add(&mut self, text: &Text) -> Result<bool, AllocError>
        ensures is_new { IfOk result (λ is_new. is_new ≡ not (has self.old text.now)) }
        ensures added { OnOk result (has self.new ≡ adding text.now (has self.old)) }
    {
        Ok(self.texts.insert(text.try_clone()?)?)
    }
}
