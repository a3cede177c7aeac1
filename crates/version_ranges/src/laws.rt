//! What holds of every set of versions.
ghost use Rattle.std.specs.Prelude.{◌≡◌, ℕ, ◌≤◌, true, ◌↔◌, IsTrue};
ghost use Rattle.version_ranges.specs.Members.{contains, is_open};

use crate::set::Ranges;

/// Two sets with the same members are the same list of ranges.
pub fn same_members(a: &Ranges, b: &Ranges)
    ensures { ((w : ℕ) → contains a.now w ≡ contains b.now w) → a.now ≡ b.now }
{
    let _ = &a.ranges;
    let _ = &b.ranges;
}

/// A set is open exactly if it has all versions from some version on.
pub fn open_has_a_tail(ranges: &Ranges)
    ensures { IsTrue (is_open ranges.now)
        ↔ ((v : ℕ) × ((w : ℕ) → v ≤ w → contains ranges.now w ≡ true)) }
{
    let _ = &ranges.ranges;
}
