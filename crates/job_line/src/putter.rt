//! The end that puts.
ghost use Rattle.std.specs.Prelude.{◌≡◌, ℕ, length};

use crate::rule::RawPass;
use std::marker::Model;

/// The one end of a line that puts. It may travel to another thread. Contracts see it as a
/// `PutterView`: its line, and all jobs that were put.
#[derive(Drop)]
pub struct Putter<J: Drop> {
    pub(crate) raw: RawPass<J>,
    pub(crate) count: u64,
}

impl<J: Drop> Model for Putter<J> {
    ghost use Rattle.std.specs.Prelude.{◌≡◌, None, true, [], length};
    ghost use Rattle.job_line.specs.Ends.{PutterView};

    ghost Value = { PutterView J };

    ghost view = { λ p. record {
      line = record { web = p.raw.web; heap = p.raw.heap };
      puts = p.raw.me.view.client.seen;
    } };

    ghost invariant = { λ p. (p.raw.me.hand ≡ None) × (p.raw.me.spare ≡ None)
        × (p.raw.me.view.client.putter ≡ true) × (p.raw.me.view.client.places ≡ [])
        × (length p.raw.me.view.client.seen ≡ p.count) };
}

impl<J: Drop> Putter<J> {
    /// How many jobs were put.
    pub fn puts(&self) -> u64
        ensures { result ≡ length self.now.puts }
    {
        self.count
    }
}
