//! Typed fronts of some kinds of key, whose values are numbers.
ghost use Rattle.std.specs.Prelude.{◌≡◌};
ghost use Rattle.std.specs.Option.{option_copied};
ghost use Rattle.tiny_universe.specs.Fronts.{number_of};

use crate::place::{Place, Value};
use crate::tiny::Tiny;
use dice_key::{ProjectionKey, TypedKey};

/// The number in a cell.
#[derive(Clone, Copy, Debug, PartialEq, Eq)]
pub struct CellKey {
    pub cell: u32,
}

/// The number in the cell that this cell's number names.
#[derive(Clone, Copy, Debug, PartialEq, Eq)]
pub struct FollowKey {
    pub cell: u32,
}

/// The parity of the number in the cell that this cell's number names.
#[derive(Clone, Copy, Debug, PartialEq, Eq)]
pub struct ParityKey {
    pub cell: u32,
}

impl TypedKey<Tiny> for CellKey {
    ghost use Rattle.tiny_universe.specs.Fronts.{cell_of, number_of, cells_are_numbers};

    type Out = u64;

    ghost wrapped = { cell_of };

    ghost reads = { number_of };

    fn wrap(self) -> Place {
        Place::Cell(self.cell)
    }

    fn read(value: &Value) -> Option<&u64> {
        number(value)
    }

    ghost of_it = { cells_are_numbers };
}

impl TypedKey<Tiny> for FollowKey {
    ghost use Rattle.tiny_universe.specs.Fronts.{follow_of, number_of, follows_are_numbers};

    type Out = u64;

    ghost wrapped = { follow_of };

    ghost reads = { number_of };

    fn wrap(self) -> Place {
        Place::Follow(self.cell)
    }

    fn read(value: &Value) -> Option<&u64> {
        number(value)
    }

    ghost of_it = { follows_are_numbers };
}

impl TypedKey<Tiny> for ParityKey {
    ghost use Rattle.tiny_universe.specs.Fronts.{parity_of, number_of, parities_are_numbers};

    type Out = u64;

    ghost wrapped = { parity_of };

    ghost reads = { number_of };

    fn wrap(self) -> Place {
        Place::Parity(self.cell)
    }

    fn read(value: &Value) -> Option<&u64> {
        number(value)
    }

    ghost of_it = { parities_are_numbers };
}

impl ProjectionKey<Tiny> for ParityKey {
    ghost use Rattle.tiny_universe.specs.Fronts.{followed_by, parity_projects, parity_is_of_follow};

    type Base = FollowKey;

    ghost base_of = { followed_by };

    ghost projects = { parity_projects };

    ghost bases = { parity_is_of_follow };
}

/// The number that a value holds; a reading of the clock holds none.
fn number(value: &Value) -> Option<&u64>
    ensures { option_copied result ≡ number_of value.now }
{
    match value {
        Value::Number(number) => Some(number),
        Value::Reading(_) => None,
    }
}
