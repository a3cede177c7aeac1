//! What is true of each list of operations.
ghost use Rattle.shelf.specs.Ops.{BeginningsAreSound};

use dice_key::Universe;

/// A beginning of a sound list is sound. The call does nothing: its contract is the law.
pub fn beginnings_are_sound<U: Universe>()
    ensures { BeginningsAreSound U.Key.eq U.meaning }
{}
