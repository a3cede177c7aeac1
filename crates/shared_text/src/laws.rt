//! Laws of texts, as what a call ensures.
ghost use Rattle.std.specs.Prelude.{◌≡◌, true, List, ℕ, nat_eq};
ghost use Rattle.std.specs.Ordering.{nat_cmp};
ghost use Rattle.std.specs.declared.cmp.Ordering.TheVariants.{Equal};
ghost use Rattle.std.specs.Cmp.Lexicographic.{pointwise, slice_cmp};

/// Texts that are equal, or compare equal, are the same.
pub fn equal_is_same()
    ensures eq { (x y : List ℕ) → pointwise nat_eq x y ≡ true → x ≡ y }
    ensures cmp { (x y : List ℕ) → slice_cmp nat_cmp x y ≡ Equal → x ≡ y }
{}
