//! The requests that were made.
ghost use Rattle.std.specs.Prelude.{◌≡◌, OnOk, IfOk, IfSome, IfNone, Some, None, is_none};
ghost use Rattle.script.specs.Past.{no_entries, with_entry, made_in, settling};
ghost use Rattle.script.specs.Known.{requests_at};

use crate::fate::Fate;
use buck_label::Text;
use hash_seed::Seed;
use std::alloc::{AllocError, Global};
use std::collections::HashMap;

/// A request.
#[derive(Drop)]
pub(crate) struct Asked {
    /// The transaction that it was made in.
    pub(crate) transaction: Text,
    /// What was noted of it.
    pub(crate) fate: Fate,
}

/// The requests by name, with what was noted of each.
#[derive(Drop)]
pub(crate) struct Requests {
    asked: HashMap<Text, Asked, Seed>,
}

impl Requests {
    pub(crate) fn new(alloc: Global, seed: Seed) -> Requests
        ensures { requests_at result ≡ no_entries }
    {
        Requests {
            asked: HashMap::with_hasher(alloc, seed),
        }
    }

    pub(crate) fn get(&self, name: &Text) -> Option<&Asked>
        ensures some { IfSome result (λ a. requests_at self.now name.now ≡ Some a.now) }
        ensures none { IfNone result (requests_at self.now name.now ≡ None) }
    {
        self.asked.get(name)
    }

    /// Adds a request that nobody has waited for, and tells whether its name is a new one.
    pub(crate) fn add(&mut self, name: &Text, transaction: &Text) -> Result<bool, AllocError>
        ensures is_new { IfOk result (λ is_new. is_new ≡ is_none (requests_at self.old name.now)) }
        ensures added { OnOk result (requests_at self.new
            ≡ with_entry name.now (made_in transaction.now) (requests_at self.old)) }
    {
        let asked = Asked {
            transaction: transaction.try_clone()?,
            fate: Fate::Pending,
        };
        Ok(self.asked.insert(name.try_clone()?, asked)?.is_none())
    }

    /// Notes what has become of a request, if one has this name.
    pub(crate) fn settle(&mut self, name: &Text, fate: Fate)
        ensures { requests_at self.new ≡ settling name.now fate (requests_at self.old) }
    {
        if let Some(asked) = self.asked.get_mut(name) {
            asked.fate = fate;
        }
    }
}
