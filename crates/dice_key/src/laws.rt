//! The laws of a universe, as what a call ensures.
ghost use Rattle.dice_key.specs.Lawful.{IsLawful, SameKeys, IsEquality};
ghost use Rattle.std.specs.Cmp.{IsTotalOrder};

use crate::universe::Universe;

/// The laws that each universe keeps: those of its moves; keys that are equal, or compare equal,
/// are the same, and so are values that are equal. It does no work.
pub fn laws_of<U: Universe>()
    ensures lawful { IsLawful U.meaning }
    ensures same_keys { SameKeys U.Key.cmp }
    ensures total { IsTotalOrder U.Key.cmp }
    ensures keys { IsEquality U.Key.eq }
    ensures values { IsEquality U.Value.eq }
{}
