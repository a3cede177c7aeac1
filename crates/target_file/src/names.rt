//! Which call has which name.
ghost use Rattle.std.specs.Prelude.{◌≡◌, List, ℕ, None, Some, OnOk, OnErr, if◌then◌else◌};
ghost use Rattle.std.specs.Str.{bytes_eq};
ghost use Rattle.target_file.specs.Names.{hash_of, has_other, number_of, gives_name};
ghost use Rattle.target_file.specs.Calls.{One};

use crate::fault::NoMemory;
use crate::table::Attribute;
use buck_label::Text;
use std::alloc::Global;
use std::collections::BTreeMap;
use std::hash::{FoldHasher, Hasher};

/// A name, with the number of its call.
#[derive(Drop)]
pub struct Named {
    pub name: Text,
    pub number: usize,
}

/// Names, each with the number of its call.
///
/// A look-up takes logarithmic time, whatever the names are: whoever writes a file picks them, so
/// they lie in ordered maps. The first name of a hash is found by that; others of the same hash, of
/// which there are none but by design, by their bytes.
#[derive(Drop)]
pub struct Names {
    pub first: BTreeMap<u64, Named>,
    pub others: BTreeMap<Vec<u8>, usize>,
}

fn hash_of(name: &[u8]) -> u64
    ensures { result ≡ hash_of name.now }
{
    let mut hasher = FoldHasher::default();
    hasher.write(name);
    hasher.finish()
}

impl Names {
    /// No names.
    pub fn new(alloc: Global) -> Names
        ensures { (q : List ℕ) → number_of result q ≡ None }
    {
        Names {
            first: BTreeMap::new(alloc),
            others: BTreeMap::new(alloc),
        }
    }

    /// The number of the call of this name.
    pub fn find(&self, name: &[u8]) -> Option<usize>
        ensures { result ≡ number_of self.now name.now }
    {
        match self.first.get(&hash_of(name)) {
            Some(named) if named.name.as_bytes() == name => Some(named.number),
            _ => self.others.get(name).copied(),
        }
    }

    /// Gives a name a number. The name is shared, not copied.
    pub fn add(&mut self, alloc: Global, name: &Text, number: usize) -> Result<(), NoMemory>
        ensures ok { OnOk result ((q : List ℕ)
            → number_of self.new q
            ≡ (if bytes_eq name.now q then Some number else number_of self.old q)) }
        ensures err { OnErr result ((q : List ℕ) → number_of self.new q ≡ number_of self.old q) }
    {
        let bytes = name.as_bytes();
        let hash = hash_of(bytes);
        if self.has_other(hash, bytes) {
            let copy = Vec::from_slice(alloc, bytes)?;
            self.others.insert(copy, number)?;
        } else {
            let name = name.try_clone()?;
            self.first.insert(hash, Named { name, number })?;
        }
        Ok(())
    }

    /// Whether a hash has another name as its first one.
    fn has_other(&self, hash: u64, name: &[u8]) -> bool
        ensures { result ≡ has_other self.now hash name.now }
    {
        match self.first.get(&hash) {
            Some(named) => named.name.as_bytes() != name,
            None => false,
        }
    }

    /// Notes an argument: a name is given this number.
    pub fn note(
        &mut self,
        alloc: Global,
        attribute: Attribute,
        text: &Text,
        number: usize,
    ) -> Result<(), NoMemory>
        ensures ok { OnOk result ((q : List ℕ)
            → number_of self.new q
            ≡ (if gives_name q attribute (One text.now)
            then Some number
            else number_of self.old q)) }
        ensures err { OnErr result ((q : List ℕ) → number_of self.new q ≡ number_of self.old q) }
    {
        match attribute {
            Attribute::Name => self.add(alloc, text, number),
            _ => Ok(()),
        }
    }
}
