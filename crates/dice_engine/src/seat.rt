//! A seat of an engine.
ghost use Rattle.std.specs.Prelude.{◌≡◌};
ghost use Rattle.dice_engine.specs.Seats.{spare};

use dice_core::Job;
use dice_key::Universe;
use job_line::Pass;
use journal::Told;
use std::marker::Model;

/// A place at the turnstile of an engine: a seat without a pass to the line of jobs. A worker has
/// one, and makes a seat of it in its thread.
pub type Place<U> = turnstile::Seat<Told<<U as Universe>::Key, <U as Universe>::Value>>;

/// A seat of an engine: what one thread has seen of the engine's journal, and its pass to the line
/// of jobs. It may travel to another thread. Contracts see it as a `SeatView`.
pub type Seat<U> = SeatOf<Told<<U as Universe>::Key, <U as Universe>::Value>, Job<U>>;

/// A place at a turnstile whose events are `E`, and a pass to a line of jobs `J`.
#[derive(Drop)]
pub struct SeatOf<E, J: Drop> {
    pub(crate) place: turnstile::Seat<E>,
    pub(crate) pass: Pass<J>,
}

impl<E, J: Drop> Model for SeatOf<E, J> {
    ghost use Rattle.std.specs.Prelude.{◌≡◌};
    ghost use Rattle.dice_engine.specs.Seats.{SeatView, seated};

    ghost Value = { SeatView E };

    ghost view = { λ s. seated s.pass s.place };

    ghost invariant = { λ s. s.place.mark ≡ s.pass.line.web };
}

impl<E, J: Drop> SeatOf<E, J> {
    /// Its number. No two seats of an engine that have not ended have the same.
    pub fn number(&self) -> u64
        ensures { result ≡ self.now.number }
    {
        self.place.number()
    }

    /// How many numbers it can give away, each to a seat that is split off.
    pub fn spare(&self) -> u64
        ensures { result ≡ spare self.now }
    {
        self.place.spare()
    }

    /// How many tasks were ready and how many jobs were out, and the mark of the shelf, at the end
    /// of this seat's last turn; zeros before its first one.
    pub fn left(&self) -> (u64, u64, u64)
        ensures { result ≡ self.now.left }
    {
        self.place.left()
    }

    /// How often it found the line of jobs empty. At the type's end the count stands still.
    pub fn empties(&self) -> u64
        ensures { result ≡ self.now.empties }
    {
        self.pass.empties()
    }
}
