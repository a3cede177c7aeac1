//! Lists of what is shared, which mostly have one item.
ghost use Rattle.std.specs.Prelude.{◌≡◌, ◌++◌, ◌∷◌, [], map, IfOk, OnErr, OnOk};
ghost use Rattle.std.specs.Arc.{arc_value};
ghost use Rattle.dice_key.specs.Shared.{values_of, only_of};

use crate::universe::NoMemory;
use std::alloc::Global;
use std::mem::replace;
use std::slice;
use std::sync::Arc;

/// How many there is room for as soon as there are two.
const FEW: usize = 4;

/// Pointers in order. Up to one of them takes no memory.
pub(crate) enum Shared<T> {
    None(Global),
    One(Global, Arc<T>),
    Many(Vec<Arc<T>>),
}

// (One function for all places that drop one: a derived drop is written out at each.)
impl<T: Drop> Drop for Shared<T> {
    fn drop(self) {
        match self {
            Shared::None(_) => {}
            Shared::One(_, _item) => {}
            Shared::Many(_items) => {}
        }
    }
}

impl<T> Shared<T> {
    /// None, and room for so many.
    pub(crate) fn with_room(alloc: Global, count: usize) -> Result<Shared<T>, NoMemory>
        ensures { IfOk result (λ s. values_of s ≡ []) }
    {
        if count < 2 {
            return Ok(Shared::None(alloc));
        }
        Ok(Shared::Many(Vec::with_capacity(alloc, count)?))
    }

    /// The pointers.
    pub(crate) fn as_slice(&self) -> &[Arc<T>]
        ensures { map arc_value result.now ≡ values_of self.now }
    {
        match self {
            Shared::None(_) => &[],
            Shared::One(_, item) => slice::from_ref(item),
            Shared::Many(items) => items.as_slice(),
        }
    }
}

impl<T: Drop> Shared<T> {
    /// The pointer that lies in place, if there is one.
    fn into_only(self) -> Option<Arc<T>>
        ensures { result ≡ only_of self }
    {
        match self {
            Shared::One(_, item) => Some(item),
            Shared::None(_) | Shared::Many(_) => None,
        }
    }

    /// Adds one at the end. At an error all is as before.
    pub(crate) fn push(&mut self, item: Arc<T>) -> Result<(), NoMemory>
        ensures ok { OnOk result (values_of self.new ≡ values_of self.old ++ arc_value item ∷ []) }
        ensures err { OnErr result (values_of self.new ≡ values_of self.old) }
    {
        match self {
            Shared::None(alloc) => {
                let one = Shared::One(*alloc, item);
                *self = one;
            }
            Shared::One(alloc, _) => {
                let alloc = *alloc;
                let mut items = Vec::with_capacity(alloc, FEW)?;
                if let Some(first) = replace(self, Shared::None(alloc)).into_only() {
                    items.push_reserved(first);
                }
                items.push_reserved(item);
                *self = Shared::Many(items);
            }
            Shared::Many(items) => items.push(item)?,
        }
        Ok(())
    }
}
