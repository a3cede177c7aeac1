//! What holds of all cells.
ghost use Rattle.std.specs.Prelude.{◌≡◌, ℕ, ◌<◌, ◌≤◌, suc, List, [], ◌∷◌, ◌++◌, length};
ghost use Rattle.std.specs.Map.{lookup};
ghost use Rattle.dice_model.specs.Log.{input};
ghost use Rattle.injected.specs.History.{AllBelow};
ghost use Rattle.injected.specs.Seen.{Seen, sets_at, cell_at, newest_at, IsInOrder};
ghost use Rattle.injected.specs.Inputs.{AreOf, set_if};

use crate::store::Cells;
use dice_key::Universe;

/// The sets of each key rise, and none lies above the last version: so any key may be set above it,
/// and from it on the newest value stands. It does no work.
pub fn cells_in_order<U: Universe>(cells: &Cells<U>)
    ensures in_order { IsInOrder U.Key.eq cells.now }
    ensures below { (v : ℕ) (k : U.Key) → cells.now.last < v
        → AllBelow (sets_at U.Key.eq cells.now k) v }
    ensures newest { (w : ℕ) (k : U.Key) → cells.now.last ≤ w
        → cell_at U.Key.eq U.meaning cells.now w k ≡ newest_at U.Key.eq U.meaning cells.now k }
{
    let _ = &cells.last;
}

/// Cells that were set as a log of commits says have the log's inputs as their values; and they are
/// set so if each commit sets the keys that it has, at its version, which is one more than the
/// number of commits before it. It does no work.
pub fn cells_are_the_inputs<U: Universe>()
    ensures start { (s : Seen U.Key U.Value) → ((k : U.Key) → sets_at U.Key.eq s k ≡ [])
        → AreOf U.Key.eq [] s }
    ensures commit { (C : List (List (U.Key × U.Value))) (c : List (U.Key × U.Value))
        (s t : Seen U.Key U.Value) → AreOf U.Key.eq C s
        → ((k : U.Key)
        → sets_at U.Key.eq t k
        ≡ sets_at U.Key.eq s k ++ set_if (suc (length C)) (lookup (U.Key.eq k) c))
        → AreOf U.Key.eq (C ++ c ∷ []) t }
    ensures inputs { (C : List (List (U.Key × U.Value))) (s : Seen U.Key U.Value)
        → AreOf U.Key.eq C s → (v : ℕ) (k : U.Key)
        → cell_at U.Key.eq U.meaning s v k ≡ input U.Key.eq U.meaning C v k }
    ensures newest { (C : List (List (U.Key × U.Value))) (s : Seen U.Key U.Value)
        → AreOf U.Key.eq C s → (k : U.Key)
        → newest_at U.Key.eq U.meaning s k ≡ input U.Key.eq U.meaning C (length C) k }
{}
