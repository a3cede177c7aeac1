//! Why a commit is refused.
ghost use Rattle.std.specs.Prelude.{◌≡◌};
ghost use Rattle.dice_session.specs.Session.{IsOwned};
ghost use Rattle.dice_session.specs.declared.refusal.CommitError.TheVariants.{NoMemory};

use dice_engine::CommitRefusal;
use dice_key::{KeyRef, Universe, Version};
use std::alloc::AllocError;
use std::error::Error;
use std::fmt::{self, Debug, Display, Formatter};
use std::sync::Arc;

/// Why a commit is refused. It names the key of the first change that is at fault.
#[derive(Drop)]
pub enum CommitError<U: Universe> {
    /// This key is computed, and only injected keys can be set.
    NotInjected(KeyRef<U>),
    /// This key was set twice since the last commit.
    Twice(KeyRef<U>),
    /// Memory was refused.
    NoMemory,
}

impl<U: Universe> From<AllocError> for CommitError<U> {
    ghost from_gives = { λ _ e. e ≡ NoMemory };

    fn from(_refused: AllocError) -> CommitError<U> {
        CommitError::NoMemory
    }
}

impl<U: Universe> Debug for CommitError<U> {
    fn fmt<W: fmt::Write>(&self, f: &mut Formatter<W>) -> fmt::Result {
        match self {
            CommitError::NotInjected(_) => f.write_str("NotInjected(_)"),
            CommitError::Twice(_) => f.write_str("Twice(_)"),
            CommitError::NoMemory => f.write_str("NoMemory"),
        }
    }
}

impl<U: Universe> Display for CommitError<U> {
    fn fmt<W: fmt::Write>(&self, f: &mut Formatter<W>) -> fmt::Result {
        match self {
            CommitError::NotInjected(_) => f.write_str("a key is set that is not injected"),
            CommitError::Twice(_) => f.write_str("a key is set twice in one commit"),
            CommitError::NoMemory => f.write_str("no memory"),
        }
    }
}

impl<U: Universe> Error for CommitError<U> {}

/// What came of a commit, with the key at fault shared.
pub(crate) fn owned<U: Universe>(
    made: Result<Version, CommitRefusal<'_, U>>,
) -> Result<Version, CommitError<U>>
    ensures { IsOwned made.entry result }
{
    match made {
        Ok(version) => Ok(version),
        Err(CommitRefusal::NotInjected(key)) => Err(CommitError::NotInjected(Arc::try_clone(key)?)),
        Err(CommitRefusal::Twice(key)) => Err(CommitError::Twice(Arc::try_clone(key)?)),
        Err(CommitRefusal::NoMemory) => Err(CommitError::NoMemory),
    }
}
