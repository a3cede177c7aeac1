//! What the shelver tells a reader.
ghost use Rattle.std.specs.Prelude.{◌≡◌, IfSome};
ghost use Rattle.left_right.specs.Sides.{view};

use crate::rule::{Note, RawReader};
use crate::shelver::RawWriter;
use dice_key::Universe;
use std::marker::Model;

/// What is published, for a reader that learns it. It has a place at the shelf, which that reader
/// takes over. Contracts see it as the list that it tells, or as nothing if no place was free.
#[derive(Drop)]
pub struct Told<U: Universe> {
    pub(crate) raw: Option<RawReader<U>>,
}

impl<U: Universe> Model for Told<U> {
    ghost use Rattle.std.specs.Prelude.{List, Option};
    ghost use Rattle.std.specs.Option.{option_map};
    ghost use Rattle.shelf.specs.declared.op.Plain.{Plain as Bare};

    ghost Value = { Option (List (Bare U.Key U.Value)) };

    ghost view = { λ t. option_map (λ r. r.place.me.0.client.seen) t.raw };
}

// A new place that was told what is published, if one is free.
pub(crate) fn told_place<U: Universe>(writer: &mut RawWriter<U>) -> Option<RawReader<U>>
    ensures told { IfSome result (λ r. (view r.place).seen ≡ (view writer.old.desk.place).seen) }
    ensures kept { (writer.new.desk.shown ≡ writer.old.desk.shown)
        × (writer.new.log ≡ writer.old.log) × (writer.new.behind ≡ writer.old.behind)
        × (view writer.new.desk.place ≡ view writer.old.desk.place) }
{
    let mut reader = writer.factory().reader().ok()?;
    reader.learn::<Note>(writer.tell::<Note>());
    Some(reader)
}
