//! The end that looks.
ghost use Rattle.std.specs.Prelude.{◌≡◌, true, Err, IfOk};
ghost use Rattle.std.specs.Arc.{arc_value};
ghost use Rattle.std.specs.Option.{option_map};
ghost use Rattle.shelf.specs.Ops.{row_at};
ghost use Rattle.shelf.specs.declared.reader.LookRefusal.TheVariants.{NoMemory, Shut};
ghost use Rattle.shelf.specs.Ends.{after_refusal, door_to, Looked};

use crate::door::Door;
use crate::store::Store;
use crate::told::Told;
use dice_key::Universe;
use std::alloc::AllocError;
use std::hash::Hash;
use std::marker::Model;
use std::sync::Arc;

/// Why a look has no answer.
#[derive(Clone, Copy, Debug, PartialEq, Eq)]
pub enum LookRefusal {
    /// There was no memory.
    NoMemory,
    /// The reader has no place, or its shelf has ended.
    Shut,
}

/// A reader of the shelf of a universe, with a count of the looks that it was refused. It waits for
/// nobody. Contracts see it as a `ReaderView`.
#[derive(Drop)]
pub struct Reader<U: Universe> {
    pub(crate) door: Door<U>,
}

impl<U: Universe> Model for Reader<U> {
    ghost use Rattle.shelf.specs.Ends.{ReaderView};

    ghost Value = { ReaderView U.Key U.Value };

    ghost view = { λ r. r.door };
}

// The value of a row, shared.
fn copied<K: Eq + Hash + Drop, V: Drop>(
    store: &Store<K, V>,
    version: u64,
    key: &K,
) -> Result<Option<Arc<V>>, AllocError>
    ensures { IfOk result
        (λ x. option_map (λ y. arc_value y) x ≡ row_at (K.eq key.now) version store.now) }
{
    match store.row(version, key) {
        Some(value) => Ok(Some(Arc::try_clone(value)?)),
        None => Ok(None),
    }
}

impl<U: Universe> Reader<U> {
    /// How many looks were refused because the reader was not let in. At the type's end the count
    /// stands still.
    pub fn refused(&self) -> u64
        ensures { result ≡ self.now.refused }
    {
        self.door.refused()
    }

    /// The value of the row of that version and key in the list that is published, which begins
    /// with the one that the reader saw or was told of last. `None` exactly if it has no such row.
    /// `Shut` only if the count of refusals rose. It is one read of a hash map, however long the
    /// list is.
    pub fn look(&mut self, version: u64, key: &U::Key) -> Result<Option<Arc<U::Value>>, LookRefusal>
        ensures found { IfOk result (λ x. Looked U.Key.eq U.meaning self.old self.new
            × (option_map (λ y. arc_value y) x ≡ row_at (U.Key.eq key.now) version self.new.seen)) }
        ensures no_memory { result ≡ Err NoMemory → Looked U.Key.eq U.meaning self.old self.new }
        ensures shut { result ≡ Err Shut → self.new ≡ after_refusal self.old }
        ensures no_place { self.old.shut ≡ true → result ≡ Err Shut }
    {
        let Some(reading) = self.door.enter() else {
            return Err(LookRefusal::Shut);
        };
        let found = copied(reading.get(), version, key);
        self.door.leave(reading);
        match found {
            Ok(value) => Ok(value),
            Err(_) => Err(LookRefusal::NoMemory),
        }
    }

    /// The reader takes over the place of what it is told, so its looks see a list that begins with
    /// the one told. If the shelver had no place for it, the reader is refused from then on. It
    /// waits for nobody and takes no memory.
    pub fn learn(&mut self, told: Told<U>)
        ensures { self.new ≡ door_to told self.old.refused }
    {
        self.door.move_to(told);
    }
}
