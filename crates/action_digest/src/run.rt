//! A run of a key.
ghost use Rattle.std.specs.Prelude.{◌≡◌, None, map};
ghost use Rattle.std.specs.Arc.{arc_value};
ghost use Rattle.action_digest.specs.Buck.{asked_second};

use crate::key::Key;
use crate::value::Value;
use dice_key::{Answers, Version};
use std::sync::Arc;

/// A run of a key: the answers to its first and to its second batch, and the keys of the second
/// batch, which are known once the first is answered.
#[derive(Drop)]
pub struct Run {
    pub(crate) key: Arc<Key>,
    pub(crate) version: Version,
    pub(crate) first: Option<Answers<Value>>,
    pub(crate) asked: Vec<Arc<Key>>,
    pub(crate) second: Option<Answers<Value>>,
    ghost in_order: { first ≡ None → second ≡ None },
    ghost asked_is: { map arc_value asked.items ≡ asked_second (arc_value key) first },
}
