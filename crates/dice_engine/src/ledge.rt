//! What the turns of an engine put on its shelf.
ghost use Rattle.std.specs.Prelude.{◌≡◌, ◌≤◌, ◌<◌, ◌++◌, ℕ, [], map, length, take, reverse, Some, false, is_some, IfOk, IfSome, OnOk, OnErr, All};
ghost use Rattle.std.specs.Arc.{arc_value};
ghost use Rattle.std.specs.Option.{ForSome, ForNone, option_map};
ghost use Rattle.shelf.specs.Ops.{plain, commits_in, MayFollow};
ghost use Rattle.shelf.specs.Ends.{IsNewReader};
ghost use Rattle.shelf.specs.declared.op.Plain.{Plain};
ghost use Rattle.journal.specs.Tell.{told};
ghost use Rattle.dice_core.specs.Cores.{events_of};
ghost use Rattle.dice_engine.specs.Turns.{log_of};
ghost use Rattle.dice_engine.specs.Rows.{Finished, item_of, items_of, event_items, Keeps, Follows, IsBare, HasCome, IsFinished, AreFinished, IsTrueRow, Gives};

use crate::events::shared_pairs;
use dice_core::{Core, Polled};
use dice_key::{KeyRef, NoMemory, Seed, Universe, Version, laws_of};
use journal::Event;
use shelf::{Reader, ShelfOp, Shelver, Store, Told as News};
use std::alloc::{AllocFailed, Global};
use std::marker::Model;
use std::mem::ManuallyDrop;
use std::sync::{Arc, Wait};

/// What readers of a shelf could see when it ended.
pub(crate) type Published<U> = Box<Store<<U as Universe>::Key, <U as Universe>::Value>>;

/// The writing end of an engine's shelf, and how many events of the journal it has taken up. It
/// puts up a commit for each commit, and a row for each key that got a value.
pub(crate) struct Ledge<U: Universe> {
    pen: Shelver<U>,
    taken: usize,
    alloc: Global,
}

// Who drops it leaves the shelf to its readers, for good: only `end` can wait for them.
impl<U: Universe> Drop for Ledge<U> {
    fn drop(self) {
        let Ledge {
            pen,
            taken: _,
            alloc: _,
        } = self;
        // SAFETY: the writing end is never used again; its memory is not freed.
        let _left = unsafe { ManuallyDrop::new_unchecked(pen) };
    }
}

impl<U: Universe> Model for Ledge<U> {
    ghost use Rattle.dice_engine.specs.Rows.{LedgeView};

    ghost Value = { LedgeView U.Key U.Value };

    ghost view = { λ l. record { list = l.pen.list; published = l.pen.published; taken = l.taken } };
}

impl<U: Universe> Ledge<U> {
    /// An empty shelf, and so many readers of it.
    pub(crate) fn boxed<R: Wait>(
        rt: &R,
        alloc: Global,
        seed: Seed,
        readers: u32,
    ) -> Result<(Box<Ledge<U>>, Vec<Reader<U>>), NoMemory>
        requires { 0 < readers }
        ensures bare { IfOk result (λ t. IsBare t.0.value) }
        ensures readers { IfOk result
            (λ t. (length t.1.items ≡ readers) × All IsNewReader t.1.items) }
    {
        let (pen, ends) = Shelver::<U>::new(alloc, seed, readers)?;
        let ledge = Ledge {
            pen,
            taken: 0,
            alloc,
        };
        match Box::new(alloc, ledge) {
            Ok(ledge) => Ok((ledge, ends)),
            Err(AllocFailed { value }) => {
                drop(value.end(rt));
                Err(NoMemory)
            }
        }
    }

    /// What readers can see, for one that learns it.
    pub(crate) fn told(&mut self) -> News<U>
        ensures told { IfSome result (λ xs. xs ≡ self.old.published) }
        ensures same { self.new ≡ self.old }
    {
        self.pen.told()
    }

    /// Ends the shelf. It waits for readers that still look.
    pub(crate) fn end<R: Wait>(self, rt: &R) -> Published<U> {
        let Ledge {
            pen,
            taken: _,
            alloc: _,
        } = self;
        pen.end(rt)
    }

    /// Takes up the events that the journal has gained, in order, and shows what was put up.
    #[tactic(auto, using(crate::proofs::Shelved::all_begun, crate::proofs::Shelved::put_all))]
    fn follow<R: Wait>(&mut self, rt: &R, core: &Core<U>) -> Result<(), NoMemory>
        requires taken { self.old.taken ≤ length (events_of core.now) }
        requires list { map item_of self.old.list
            ≡ items_of (take self.old.taken (events_of core.now)) }
        requires published { self.old.published ≡ self.old.list }
        requires finished { AreFinished U.Key.eq U.meaning self.old.taken (events_of core.now) }
        ensures ok { OnOk result ((map item_of self.new.list ≡ items_of (events_of core.now))
            × (self.new.published ≡ self.new.list)
            × (self.new.taken ≡ length (events_of core.now))) }
        ensures begun { map item_of self.new.list
            ≡ take (length self.new.list) (items_of (events_of core.now)) }
    {
        core.in_order();
        let journal = core.journal();
        let mut gained = false;
        for index in self.taken..journal.len() {
            if self.put(core, journal.event(index))? {
                gained = true;
            }
        }
        self.taken = journal.len();
        if gained {
            self.pen.publish(rt)?;
        }
        Ok(())
    }

    /// Puts up what an event has for the shelf, if anything, and answers whether it did.
    fn put(&mut self, core: &Core<U>, event: &Event<U::Key, U::Value>) -> Result<bool, NoMemory>
        requires finished { IsFinished U.Key.eq U.meaning (reverse (events_of core.now))
            (told event.now) }
        requires may { (x : Plain U.Key U.Value)
            → Gives U.Key.eq U.meaning (log_of (events_of core.now)) (told event.now) (Some x)
            → MayFollow U.Key.eq U.meaning (commits_in self.old.list) x }
        ensures ok { OnOk result
            (map item_of self.new.list ≡ map item_of self.old.list ++ event_items (told event.now)) }
        ensures none { IfOk result (λ b. b ≡ false → self.new.list ≡ self.old.list) }
        ensures err { OnErr result (self.new ≡ self.old) }
        ensures same { self.new ≡ record self.old { list = self.new.list } }
    {
        let Some(op) = operation(self.alloc, core, event)? else {
            return Ok(false);
        };
        self.pen.append(op)?;
        Ok(true)
    }
}

/// What an event has for the shelf: a commit its changes, and the finish of a key the row of its
/// value.
fn operation<U: Universe>(
    alloc: Global,
    core: &Core<U>,
    event: &Event<U::Key, U::Value>,
) -> Result<Option<ShelfOp<U::Key, U::Value>>, NoMemory>
    requires { IsFinished U.Key.eq U.meaning (reverse (events_of core.now)) (told event.now) }
    ensures { IfOk result (λ o. Gives U.Key.eq U.meaning (log_of (events_of core.now))
        (told event.now) (option_map plain o)) }
{
    match event {
        Event::Commit(_, changes) => Ok(Some(ShelfOp::Commit(Arc::new(
            alloc,
            shared_pairs(alloc, changes)?,
        )?))),
        Event::Keep(version, key, _) | Event::End(version, key) => {
            Ok(Some(row(core, *version, key)?))
        }
        Event::Open(_, _)
        | Event::Close(_, _)
        | Event::Ask(_, _, _)
        | Event::Leave(_, _)
        | Event::Start(_, _, _)
        | Event::Cyclic(_, _)
        | Event::Drop(_, _)
        | Event::Lost(_, _) => Ok(None),
    }
}

/// The row of a key that has a value at a version.
fn row<U: Universe>(
    core: &Core<U>,
    version: Version,
    key: &KeyRef<U>,
) -> Result<ShelfOp<U::Key, U::Value>, NoMemory>
    requires { HasCome U.Key.eq U.meaning (reverse (events_of core.now)) version
        (arc_value key.now) }
    ensures item { IfOk result (λ o. item_of (plain o) ≡ Finished version (arc_value key.now)) }
    ensures true_row { IfOk result
        (λ o. IsTrueRow U.Key.eq U.meaning (log_of (events_of core.now)) (plain o)) }
{
    let Polled::Value(value) = core.poll(version, key) else {
        unreachable!()
    };
    Ok(ShelfOp::Row(version, Arc::try_clone(key)?, Arc::try_clone(value)?))
}

/// The shelf, if there is one, takes up what the core's journal has gained. The answer is the mark
/// from now on: 1 once there was no memory for some of it.
pub(crate) fn shelve<U: Universe, R: Wait>(
    rt: &R,
    shelf: &mut Option<Box<Ledge<U>>>,
    mark: u64,
    core: &Core<U>,
) -> u64
    requires { ForSome shelf.old (λ b. Follows (events_of core.now) mark b.value) }
    ensures keeps { ForSome shelf.new (λ b. Keeps (events_of core.now) result b.value) }
    ensures none { ForNone shelf.old (result ≡ mark) }
    ensures same { is_some shelf.new ≡ is_some shelf.old }
{
    let Some(ledge) = shelf else {
        return mark;
    };
    if mark != 0 {
        return mark;
    }
    laws_of::<U>();
    core.in_order();
    match ledge.follow(rt, core) {
        Ok(()) => 0,
        Err(NoMemory) => 1,
    }
}
