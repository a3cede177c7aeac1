//! The door of a reader: it lets the reader in, or counts that it was refused.
ghost use Rattle.std.specs.Prelude.{◌≡◌, IfSome, IfNone};
ghost use Rattle.left_right.specs.Sides.{view};
ghost use Rattle.shelf.specs.Ends.{reader_at, door_to, after_refusal, HasLeft, GoesOn};

use crate::rule::{RawReader, RawReading, See};
use crate::told::Told;
use dice_key::Universe;
use std::marker::Model;
use std::mem;

/// A place at a shelf, if there is one, and a count of the times that its reader was refused.
/// Contracts see it as a `ReaderView`.
#[derive(Drop)]
pub struct Door<U: Universe> {
    raw: Option<RawReader<U>>,
    refused: u64,
}

impl<U: Universe> Model for Door<U> {
    ghost use Rattle.std.specs.Option.{option_map};
    ghost use Rattle.shelf.specs.Ends.{ReaderView, door_to};

    ghost Value = { ReaderView U.Key U.Value };

    ghost view = { λ d. door_to (option_map (λ r. r.place.me.0.client.seen) d.raw) d.refused };
}

impl<U: Universe> Door<U> {
    /// A door to the place that is told, where nobody was refused yet.
    pub(crate) fn new(told: Told<U>) -> Door<U>
        ensures { result ≡ door_to told 0 }
    {
        let Told { raw } = told;
        Door { raw, refused: 0 }
    }

    /// How often the reader was refused. At the type's end the count stands still.
    pub(crate) fn refused(&self) -> u64
        ensures { result ≡ self.now.refused }
    {
        self.refused
    }

    /// Lets the reader in, who has the place until it leaves, or counts that it was refused. It
    /// waits for nobody.
    pub(crate) fn enter(&mut self) -> Option<RawReading<U>>
        ensures place { IfSome result (λ r. HasLeft self.old self.new) }
        ensures seen { IfSome result (λ r. (view r.place).seen ≡ r.part.value) }
        ensures goes_on { IfSome result
            (λ r. GoesOn U.Key.eq U.meaning self.old.seen r.part.value) }
        ensures none { IfNone result (self.new ≡ after_refusal self.old) }
    {
        let Some(reader) = mem::take(&mut self.raw) else {
            self.refused = self.refused.saturating_add(1);
            return None;
        };
        match reader.enter_as::<See<U>>() {
            Ok(reading) => Some(reading),
            Err(reader) => {
                self.raw = Some(reader);
                self.refused = self.refused.saturating_add(1);
                None
            }
        }
    }

    /// The reader leaves, and has its place again.
    pub(crate) fn leave(&mut self, reading: RawReading<U>)
        ensures { self.new ≡ reader_at (view reading.place).seen self.old.refused }
    {
        self.raw = Some(reading.leave());
    }

    /// The reader leaves its place for the one that is told, if there is one.
    pub(crate) fn move_to(&mut self, told: Told<U>)
        ensures { self.new ≡ door_to told self.old.refused }
    {
        let Told { raw } = told;
        self.raw = raw;
    }
}
