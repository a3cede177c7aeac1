//! An end that takes.
ghost use Rattle.std.specs.Prelude.{◌≡◌};

use crate::rule::RawPass;
use std::marker::Model;

/// An end of a line that takes jobs. It may travel to another thread. Contracts see it as a
/// `PassView`: its line, what it has seen of the list of puts, the places that it took, and how
/// often it found the line empty.
#[derive(Drop)]
pub struct Pass<J: Drop> {
    pub(crate) raw: RawPass<J>,
    pub(crate) empties: u64,
}

impl<J: Drop> Model for Pass<J> {
    ghost use Rattle.std.specs.Prelude.{◌≡◌, None, false};
    ghost use Rattle.job_line.specs.Ends.{PassView};

    ghost Value = { PassView J };

    ghost view = { λ p. record {
      line = record { web = p.raw.web; heap = p.raw.heap };
      seen = p.raw.me.view.client.seen;
      places = p.raw.me.view.client.places;
      empties = p.empties;
    } };

    ghost invariant = { λ p. (p.raw.me.hand ≡ None) × (p.raw.me.spare ≡ None)
        × (p.raw.me.view.client.putter ≡ false) };
}

impl<J: Drop> Pass<J> {
    /// How often it found the line empty. At the type's end the count stands still.
    pub fn empties(&self) -> u64
        ensures { result ≡ self.now.empties }
    {
        self.empties
    }
}
