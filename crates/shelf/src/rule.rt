//! The rule of the shelf, and what each kind of step tells the end that makes it.
use crate::op::{Plain, ShelfOp};
use crate::store::Store;
use atomic_table::{Join, Split};
use crossbeam_utils::rule::{Outcome, Protocol};
use dice_key::Universe;
use left_right::reader;
use std::collections::LinkedList;
use std::marker::PhantomData;

/// What an end knows: the list that it has seen or was told of last. It is plain data for the rule:
/// no value of it is made.
pub struct Seen<K, V> {
    pub seen: LinkedList<Plain<K, V>>,
}

/// The rule that holds between any two steps: `specs/Rule.antt`.
pub struct OnShelf<U> {
    universe: PhantomData<U>,
}

impl<U: Universe> Protocol<Store<U::Key, U::Value>, Seen<U::Key, U::Value>> for OnShelf<U> {
    ghost use Rattle.shelf.specs.Rule.{Shelved, newcomer};

    ghost holds = { Shelved U.Key.eq U.meaning };

    ghost first = { newcomer };
}

/// A look or a publish.
pub struct See<U> {
    universe: PhantomData<U>,
}

impl<U: Universe> Outcome<Store<U::Key, U::Value>, Seen<U::Key, U::Value>> for See<U> {
    ghost use Rattle.shelf.specs.Rule.{Saw};

    ghost then = { Saw U.Key.eq U.meaning };
}

/// A note, which is told and learnt.
pub struct Note;

impl<K, V> Split<Seen<K, V>> for Note {
    ghost left = { λ v. v };

    ghost right = { λ v. v };
}

impl<K, V> Join<Seen<K, V>> for Note {
    ghost use Rattle.shelf.specs.Rule.{informed, newcomer};

    ghost both = { informed };

    ghost spent = { newcomer };
}

pub(crate) type RawReader<U> = reader::Reader<
    Store<<U as Universe>::Key, <U as Universe>::Value>,
    Seen<<U as Universe>::Key, <U as Universe>::Value>,
    OnShelf<U>,
>;

pub(crate) type RawReading<U> = reader::Reading<
    Store<<U as Universe>::Key, <U as Universe>::Value>,
    Seen<<U as Universe>::Key, <U as Universe>::Value>,
    OnShelf<U>,
>;
