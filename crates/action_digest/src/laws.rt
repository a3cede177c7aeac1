//! Laws of the universe. None of these functions does any work.
ghost use Rattle.std.specs.Prelude.{◌≡◌, ◌<◌, ◌^◌, ◌⊎◌, ◌++◌, List, ℕ, length, Some, Ok, Err};
ghost use Rattle.dice_model.specs.Eval.{HasValue};
ghost use Rattle.dice_model.specs.Asks.{IsCycle, ReachesCycle};
ghost use Rattle.action_digest.specs.Cycles.{keys_of};
ghost use Rattle.action_digest.specs.Buck.{buck, package_by};
ghost use Rattle.action_digest.specs.Written.{full_label};
ghost use Rattle.action_digest.specs.declared.fault.Fault.TheVariants.{BadFile};
ghost use Rattle.buck_label.specs.Labels.{Name, IsLabelIn, printed, target_file_of};
ghost use Rattle.target_file.specs.Files.{IsBad};
ghost use Rattle.target_file.specs.Targets.{Located, IsFile};
ghost use Rattle.action_digest.specs.declared.key.Key.{Key};
ghost use Rattle.action_digest.specs.declared.value.Value.{Value};
ghost use Rattle.lists.specs.Lists.{AreDistinct};

use crate::buck::Buck;
use crate::key::Key;
use crate::value::Value;
use dice_model::values_are_settled;
use target_file::contents_by_grammar;

/// Over every log and at every version a key has a value or reaches a cycle: what a key reaches
/// stands in the finitely many target files of the log.
pub fn keys_are_settled()
    ensures { (C : List (List (Key × Value))) (v : ℕ) (k : Key)
        → ((x : Value) × HasValue ⟦<Key as PartialEq>⟧.eq buck C v k x)
        ⊎ ReachesCycle ⟦<Key as PartialEq>⟧.eq buck C v k }
{
    values_are_settled::<Buck>();
}

/// Sources, packages and rules are on no cycle. The keys of a cycle, from one of them on, are in
/// turn the digest and the action of distinct targets.
pub fn cycles_are_of_labels()
    ensures { (C : List (List (Key × Value))) (v : ℕ) (ks : List Key)
        → IsCycle ⟦<Key as PartialEq>⟧.eq buck C v ks
        → (front : List Key) × (back : List Key) × (ls : List (List ℕ)) × (ks ≡ front ++ back)
        × (back ++ front ≡ keys_of ls) × AreDistinct ls }
{}

/// A package is what the grammar of target files says of its bytes: the targets of the file that
/// they are, or the fault with the line that the grammar gives it.
pub fn packages_by_grammar()
    ensures file { (p : List ℕ) (text : List ℕ) (f : List Located) → length text < 2 ^ 64
        → IsFile text f → package_by p (Some text) ≡ Ok f }
    ensures bad { (p : List ℕ) (text : List ℕ) (line : ℕ) → length text < 2 ^ 64 → IsBad text line
        → package_by p (Some text) ≡ Err (BadFile (target_file_of p) line) }
{
    contents_by_grammar();
}

/// The full form of a label in a package's target file is what the grammar of labels says that it
/// names there.
pub fn labels_in_full()
    ensures { (home : List ℕ) (text : List ℕ) (n : Name) → IsLabelIn home text n
        → full_label home text ≡ printed n }
{}
