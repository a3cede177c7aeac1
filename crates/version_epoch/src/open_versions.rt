//! The tracker of open versions.
ghost use Rattle.std.specs.Prelude.{◌≡◌, ℕ, ◌+◌, ◌-◌, ◌<◌, ◌==◌, ◌&&◌, if◌then◌else◌, [], OnOk, OnErr};
ghost use Rattle.version_epoch.specs.Standings.{open_count_of, epoch_of, standing_of};

use crate::memory::NoMemory;
use std::alloc::Global;
use std::collections::HashMap;
use std::marker::Model;

/// How a version stands.
#[derive(Clone, Copy, Debug, PartialEq, Eq)]
pub struct Standing {
    /// How many transactions are open at the version.
    pub count: u64,
    /// How many epochs of the version have begun.
    pub epoch: u64,
}

/// For each version how many transactions are open at it, and how many epochs of it have begun.
///
/// Contracts see a list of versions with their standings, and read it by `open_count_of` and
/// `epoch_of`. A version that is not in it was never opened.
#[derive(Drop)]
pub struct Tracker {
    standings: HashMap<u64, Standing>,
}

impl Model for Tracker {
    ghost use Rattle.std.specs.Prelude.{ℕ, List};
    ghost use Rattle.version_epoch.specs.declared.open_versions.Standing.{Standing};

    ghost Value = { List (ℕ × Standing) };

    ghost view = { λ a. a.standings.entries };
}

impl Tracker {
    /// No version was opened yet. It takes no memory.
    pub fn new(alloc: Global) -> Tracker
        ensures count { (w : ℕ) → open_count_of result w ≡ 0 }
        ensures epoch { (w : ℕ) → epoch_of result w ≡ 0 }
    {
        Tracker {
            standings: HashMap::new(alloc),
        }
    }

    /// A transaction is opened at the version. If none was open there, an epoch of it begins.
    pub fn open(&mut self, version: u64) -> Result<(), NoMemory>
        requires count { open_count_of self.old version < u64.MAX }
        requires epoch { epoch_of self.old version < u64.MAX }
        ensures count { OnOk result ((w : ℕ)
            → open_count_of self.new w
            ≡ (if w == version then open_count_of self.old w + 1 else open_count_of self.old w)) }
        ensures epoch { OnOk result ((w : ℕ)
            → epoch_of self.new w
            ≡ (if w == version && open_count_of self.old w == 0
            then epoch_of self.old w + 1
            else epoch_of self.old w)) }
        ensures err { OnErr result (self.new ≡ self.old) }
    {
        let before = self.standing(version);
        let begins = before.count == 0;
        let after = Standing {
            count: before.count + 1,
            epoch: before.epoch + u64::from(begins),
        };
        self.standings.insert(version, after)?;
        Ok(())
    }

    /// A transaction at the version is closed. It takes no memory.
    pub fn close(&mut self, version: u64)
        requires { 0 < open_count_of self.old version }
        ensures count { (w : ℕ)
            → open_count_of self.new w
            ≡ (if w == version then open_count_of self.old w - 1 else open_count_of self.old w) }
        ensures epoch { (w : ℕ) → epoch_of self.new w ≡ epoch_of self.old w }
    {
        if let Some(standing) = self.standings.get_mut(&version) {
            standing.count -= 1;
        }
    }

    /// How many transactions are open at the version.
    pub fn open_count(&self, version: u64) -> u64
        ensures { result ≡ open_count_of self.now version }
    {
        self.standing(version).count
    }

    /// How many epochs of the version have begun.
    pub fn epoch(&self, version: u64) -> u64
        ensures { result ≡ epoch_of self.now version }
    {
        self.standing(version).epoch
    }

    /// How the version stands.
    fn standing(&self, version: u64) -> Standing
        ensures { result ≡ standing_of self.now version }
    {
        match self.standings.get(&version) {
            Some(standing) => *standing,
            None => Standing { count: 0, epoch: 0 },
        }
    }
}
