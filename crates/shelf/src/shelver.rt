//! What the writing end does.
ghost use Rattle.std.specs.Prelude.{◌≡◌, ℕ, ◌^◌, ◌<◌, [], ◌∷◌, ◌++◌, map, drop, fold, length, ◌≤◌, vec_capacity, All, IfOk, IfErr, IfSome, OnErr};
ghost use Rattle.left_right.specs.Sides.{view};
ghost use Rattle.shelf.specs.Ops.{plain, commits_in, MayFollow, IsSound};
ghost use Rattle.shelf.specs.Rule.{with_op};
ghost use Rattle.shelf.specs.Ends.{no_pen, IsNewReader};

use crate::door::Door;
use crate::op::{Plain, ShelfOp};
use crate::pen::{Keeping, Pen};
use crate::reader::Reader;
use crate::rule::{OnShelf, See, Seen};
use crate::store::Store;
use crate::told::{Told, told_place};
use dice_key::{NoMemory, Seed, Universe};
use left_right::writer;
use std::alloc::{AllocError, Global};
use std::collections::LinkedList;
use std::mem;
use std::sync::Wait;

type Plains<U> = LinkedList<Plain<<U as Universe>::Key, <U as Universe>::Value>>;

impl<U: Universe> Keeping<Plains<U>, Seen<U::Key, U::Value>> for OnShelf<U> {
    ghost use Rattle.std.specs.Prelude.{[]};
    ghost use Rattle.shelf.specs.Ops.{IsSound};

    ghost sound = { IsSound U.Key.eq U.meaning };

    ghost nothing = { [] };

    ghost seen = { λ v. v.seen };
}

/// The writing end of the shelf of a universe.
pub type Shelver<U> = Pen<
    Store<<U as Universe>::Key, <U as Universe>::Value>,
    ShelfOp<<U as Universe>::Key, <U as Universe>::Value>,
    Seen<<U as Universe>::Key, <U as Universe>::Value>,
    OnShelf<U>,
>;

pub(crate) type RawWriter<U> = writer::Writer<
    Store<<U as Universe>::Key, <U as Universe>::Value>,
    ShelfOp<<U as Universe>::Key, <U as Universe>::Value>,
    Seen<<U as Universe>::Key, <U as Universe>::Value>,
    OnShelf<U>,
>;

// So many places a shelf has at most.
const MOST_PLACES: usize = (1 << 32) - 1;

// Shows readers all that was appended.
fn publish_raw<U: Universe, R: Wait>(
    rt: &R,
    writer: RawWriter<U>,
) -> (RawWriter<U>, Result<(), AllocError>)
    requires sound { IsSound U.Key.eq U.meaning
        (fold with_op writer.desk.shown.value (drop writer.behind writer.log.items)) }
    ensures published { IfOk result.1 (λ _. (result.0.desk.shown.value
        ≡ fold with_op writer.desk.shown.value (drop writer.behind writer.log.items))
        × (drop result.0.behind result.0.log.items ≡ [])
        × ((view result.0.desk.place).seen ≡ result.0.desk.shown.value)) }
    ensures refused { IfErr result.1 (λ _. (result.0.desk.shown.value ≡ writer.desk.shown.value)
        × (drop result.0.behind result.0.log.items ≡ drop writer.behind writer.log.items)
        × (view result.0.desk.place ≡ view writer.desk.place)) }
{
    writer.publish_as::<See<U>, R>(rt)
}

// Adds an operation at the end.
fn append_raw<U: Universe>(
    writer: &mut RawWriter<U>,
    op: ShelfOp<U::Key, U::Value>,
) -> Result<(), ShelfOp<U::Key, U::Value>>
    requires sound { IsSound U.Key.eq U.meaning
        (fold with_op writer.old.desk.shown.value (drop writer.old.behind writer.old.log.items)) }
    requires may { MayFollow U.Key.eq U.meaning (commits_in
        (fold with_op writer.old.desk.shown.value (drop writer.old.behind writer.old.log.items)))
        (plain op) }
    ensures desk { writer.new.desk ≡ writer.old.desk }
    ensures sound { IsSound U.Key.eq U.meaning
        (fold with_op writer.new.desk.shown.value (drop writer.new.behind writer.new.log.items)) }
    ensures ok { IfOk result (λ _. fold with_op writer.new.desk.shown.value
        (drop writer.new.behind writer.new.log.items)
        ≡ fold with_op writer.old.desk.shown.value (drop writer.old.behind writer.old.log.items)
        ++ plain op ∷ []) }
    ensures err { IfErr result (λ _. drop writer.new.behind writer.new.log.items
        ≡ drop writer.old.behind writer.old.log.items) }
{
    writer.append(op)
}

// A new reader, which has seen nothing. It has no place if none is free.
fn reader_of<U: Universe>(writer: &RawWriter<U>) -> Reader<U>
    ensures { IsNewReader result }
{
    let raw = writer.factory().reader().ok();
    Reader {
        door: Door::new(Told { raw }),
    }
}

// So many new readers.
fn fill<U: Universe>(
    writer: &RawWriter<U>,
    mut ends: Vec<Reader<U>>,
    readers: u32,
) -> Vec<Reader<U>>
    requires { (ends.items ≡ []) × (readers ≤ vec_capacity ends) }
    ensures { (length result.items ≡ readers) × All IsNewReader result.items }
{
    for _ in 0..readers {
        ends.push_reserved(reader_of::<U>(writer));
    }
    ends
}

impl<U: Universe> Shelver<U> {
    /// An empty shelf, whose rows are hashed by this seed, and so many readers of it, with as many
    /// places again for what readers are told. A reader for which there was no place is refused each
    /// look.
    #[tactic(auto, using(crate::proofs::Keeps::begins))]
    pub fn new(
        alloc: Global,
        seed: Seed,
        readers: u32,
    ) -> Result<(Shelver<U>, Vec<Reader<U>>), NoMemory>
        requires { 0 < readers }
        ensures shelver { IfOk result (λ t. t.0 ≡ no_pen []) }
        ensures readers { IfOk result
            (λ t. (length t.1.items ≡ readers) × All IsNewReader t.1.items) }
    {
        let ends = Vec::with_capacity(alloc, readers as usize)?;
        let (first, second) = (Store::new(alloc, seed), Store::new(alloc, seed));
        let places = (2 * readers as usize).min(MOST_PLACES);
        let writer: RawWriter<U> = writer::Writer::new(alloc, first, second, places)?;
        let ends = fill::<U>(&writer, ends, readers);
        Ok((Pen { raw: Some(writer) }, ends))
    }

    /// Adds an operation at the end, which readers see once it is published. A commit has to have
    /// the shape of one. A row has to have the value of its key at its version over the commits
    /// before it.
    pub fn append(&mut self, op: ShelfOp<U::Key, U::Value>) -> Result<(), NoMemory>
        requires { MayFollow U.Key.eq U.meaning (commits_in self.old.list) (plain op) }
        ensures ok { IfOk result
            (λ _. self.new ≡ record self.old { list = self.old.list ++ plain op ∷ [] }) }
        ensures err { OnErr result (self.new ≡ self.old) }
    {
        let Some(writer) = &mut self.raw else {
            unreachable!()
        };
        match append_raw::<U>(writer, op) {
            Ok(()) => Ok(()),
            Err(_op) => Err(NoMemory),
        }
    }

    /// Publishes all that was appended, at once. It may wait for readers that still look.
    pub fn publish<R: Wait>(&mut self, rt: &R) -> Result<(), NoMemory>
        ensures ok { IfOk result (λ _. self.new ≡ record self.old { published = self.old.list }) }
        ensures err { OnErr result (self.new ≡ self.old) }
    {
        let Some(writer) = mem::take(&mut self.raw) else {
            unreachable!()
        };
        let (writer, done) = publish_raw::<U, R>(rt, writer);
        let none = mem::replace(&mut self.raw, Some(writer));
        let None = none else { unreachable!() };
        Ok(done?)
    }

    /// Tells what is published, once for a reader that learns it. It has a place until then; there
    /// are as many as readers, and if none is free it tells nothing. It waits for nobody and takes
    /// no memory.
    pub fn told(&mut self) -> Told<U>
        ensures told { IfSome result (λ xs. xs ≡ self.old.published) }
        ensures same { self.new ≡ self.old }
    {
        let Some(writer) = &mut self.raw else {
            unreachable!()
        };
        Told {
            raw: told_place::<U>(writer),
        }
    }

    /// Ends the shelf, and hands out what was published last. It waits for readers that still look,
    /// and later looks are refused.
    pub fn end<R: Wait>(self, rt: &R) -> Box<Store<U::Key, U::Value>>
        ensures { result.value ≡ self.published }
    {
        let Pen { raw } = self;
        let Some(writer) = raw else { unreachable!() };
        writer.take(rt)
    }
}
