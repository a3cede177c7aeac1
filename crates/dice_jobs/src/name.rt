//! The names of jobs.
ghost use Rattle.std.specs.Prelude.{◌≡◌, IfOk, IsTrue, ◌↔◌};
ghost use Rattle.std.specs.Arc.{arc_value};

use dice_key::{KeyRef, NoMemory, Universe, Version, laws_of};
use std::marker::Model;
use std::sync::Arc;

/// The name of a job: the version and the key that it works for, and how long the journal was when
/// the key's task was made.
///
/// The task of a key at a version ends with an event, so no two of them have one name.
#[derive(Drop)]
pub struct JobName<U: Universe> {
    pub version: Version,
    pub key: KeyRef<U>,
    pub born: u64,
}

impl<U: Universe> Model for JobName<U> {
    ghost use Rattle.std.specs.Arc.{arc_value};
    ghost use Rattle.dice_jobs.specs.Jobs.{Name};

    ghost Value = { Name U.Key };

    ghost view = { λ n. record { version = n.version; key = arc_value n.key; born = n.born } };
}

impl<U: Universe> JobName<U> {
    /// A name. It takes no memory.
    pub fn new(version: Version, key: KeyRef<U>, born: u64) -> JobName<U>
        ensures { result ≡ record { version = version; key = arc_value key; born = born } }
    {
        JobName { version, key, born }
    }

    /// The version.
    pub fn version(&self) -> Version
        ensures { result ≡ self.now.version }
    {
        self.version
    }

    /// The key.
    pub fn key(&self) -> &KeyRef<U>
        ensures { arc_value result.now ≡ self.now.key }
    {
        &self.key
    }

    /// How long the journal was when the task was made.
    pub fn born(&self) -> u64
        ensures { result ≡ self.now.born }
    {
        self.born
    }

    /// The same name again; its key is shared.
    pub fn try_clone(&self) -> Result<JobName<U>, NoMemory>
        ensures { IfOk result (λ n. n ≡ self.now) }
    {
        Ok(JobName {
            version: self.version,
            key: Arc::try_clone(&self.key)?,
            born: self.born,
        })
    }

    /// Whether the two names are the same. It takes no memory.
    pub fn is_same(&self, other: &JobName<U>) -> bool
        ensures { IsTrue result ↔ (self.now ≡ other.now) }
    {
        laws_of::<U>();
        self.born == other.born && self.version == other.version && *self.key == *other.key
    }
}
