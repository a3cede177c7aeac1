//! The transactions that were opened.
ghost use Rattle.std.specs.Prelude.{◌≡◌, OnOk, IfOk, is_none, true, false, Some};
ghost use Rattle.script.specs.Past.{no_entries, with_entry};
ghost use Rattle.script.specs.Known.{transactions_at};

use buck_label::Text;
use hash_seed::Seed;
use std::alloc::{AllocError, Global};
use std::collections::HashMap;

/// The transactions by name, with whether each is open still.
#[derive(Drop)]
pub(crate) struct Transactions {
    standing: HashMap<Text, bool, Seed>,
}

impl Transactions {
    pub(crate) fn new(alloc: Global, seed: Seed) -> Transactions
        ensures { transactions_at result ≡ no_entries }
    {
        Transactions {
            standing: HashMap::with_hasher(alloc, seed),
        }
    }

    /// Whether the transaction is open; `None` if none was opened by this name.
    pub(crate) fn is_open(&self, name: &Text) -> Option<bool>
        ensures { result ≡ transactions_at self.now name.now }
    {
        self.standing.get(name).copied()
    }

    /// Notes that the transaction is open, and tells whether its name is a new one.
    pub(crate) fn open(&mut self, name: &Text) -> Result<bool, AllocError>
        ensures is_new { IfOk result
            (λ is_new. is_new ≡ is_none (transactions_at self.old name.now)) }
        ensures opened { OnOk result
            (transactions_at self.new ≡ with_entry name.now true (transactions_at self.old)) }
    {
        Ok(self.standing.insert(name.try_clone()?, true)?.is_none())
    }

    /// Notes that a transaction that is open is closed.
    pub(crate) fn close(&mut self, name: &Text)
        requires { transactions_at self.old name.now ≡ Some true }
        ensures { transactions_at self.new ≡ with_entry name.now false (transactions_at self.old) }
    {
        let Some(is_open) = self.standing.get_mut(name) else {
            unreachable!()
        };
        *is_open = false;
    }
}
