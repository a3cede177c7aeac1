//! Typed fronts: kinds of key whose values have one type.
ghost use Rattle.std.specs.Prelude.{◌≡◌, Option};
ghost use Rattle.std.specs.Option.{option_copied};
ghost use Rattle.dice_key.specs.Fronts.{ValuesAreOf};
ghost use Rattle.dice_key.specs.declared.universe.Kind.TheVariants.{Projection};

use crate::universe::Universe;

/// A kind of key of a universe, whose values have one type.
pub trait TypedKey<U: Universe> {
    /// What a value of the kind holds.
    type Out;

    /// The key of the universe.
    ghost wrapped: { Self → U.Key };

    /// What a value holds, if it is of this kind.
    ghost reads: { U.Value → Option Self.Out };

    /// The key of the universe that this one stands for.
    fn wrap(self) -> U::Key
        ensures { result ≡ wrapped self };

    /// What the value holds; `None` exactly if it is of another kind.
    fn read(value: &U::Value) -> Option<&Self::Out>
        ensures { option_copied result ≡ reads value.now };

    /// The absent value of such a key, and each value that it is done with, are of the kind.
    ghost of_it: { (k : Self) → ValuesAreOf U.meaning (wrapped k) reads };
}

/// A kind of key that is a projection of another kind.
pub trait ProjectionKey<U: Universe>: TypedKey<U> {
    /// The kind of its base.
    type Base: TypedKey<U>;

    /// The base.
    ghost base_of: { Self → Self.Base };

    /// The universe's key is a projection.
    ghost projects: { (k : Self) → U.meaning.kind (Self.wrapped k) ≡ Projection };

    /// The base of the universe's key is that of the front.
    ghost bases: { (k : Self) → U.meaning.base (Self.wrapped k) ≡ Self.Base.wrapped (base_of k) };
}
