//! Files: their targets in order, found by name.
ghost use Rattle.std.specs.Prelude.{◌≡◌, ℕ, List, [], map, IfOk, OnOk, Option};
ghost use Rattle.std.specs.List.{AllByRecursion};
ghost use Rattle.std.specs.Option.{option_map};
ghost use Rattle.std.specs.Arc.{arc_value};
ghost use Rattle.std.specs.Cmp.{partial_equiv_from_equiv};
ghost use Rattle.target_file.specs.Files.{IsFine};
ghost use Rattle.target_file.specs.Names.{number_of, number_from};
ghost use Rattle.target_file.specs.Seen.{call_of};
ghost use Rattle.target_file.specs.Targets.{located, target_named, same_file};
ghost use Rattle.target_file.specs.Laws.{file_equiv};

use crate::call::Call;
use crate::fault::NoMemory;
use crate::locating::located_all;
use crate::mark::mark_of;
use crate::names::Names;
use crate::target::Target;
use std::alloc::Global;
use std::hash::{Hash, Hasher};
use std::marker::Model;
use std::sync::Arc;

/// A target, with the line of its rule's name (1 for the first line).
#[derive(Drop)]
pub struct Located {
    pub line: u64,
    pub target: Arc<Target>,
}

/// The targets of a file, in order. A contract sees the list; no two have the same name.
///
/// Files that are not equal are mostly told apart by their marks.
pub struct File {
    targets: Vec<Located>,
    names: Names,
    mark: u64,
}

// (One function for all places that drop one: a derived drop is written out at each.)
impl Drop for File {
    fn drop(self) {
        let File {
            targets: _targets,
            names: _names,
            mark: _,
        } = self;
    }
}

impl Model for File {
    ghost use Rattle.std.specs.Prelude.{◌≡◌, List, ℕ};
    ghost use Rattle.target_file.specs.Targets as targets_of;
    ghost use Rattle.target_file.specs.Names.{number_of};

    ghost Value = { List targets_of.Located };

    ghost use Rattle.target_file.specs.Lent.{all_of, number_at};

    ghost view = { λ f. all_of f.targets.items };

    ghost use Rattle.target_file.specs.Marks.{mark_of};

    ghost invariant = { λ f. ((q : List ℕ)
        → number_of f.names q ≡ number_at 0 q (all_of f.targets.items))
        × (f.mark ≡ mark_of (all_of f.targets.items)) };
}

impl File {
    ghost use Rattle.target_file.specs.Lent.{all_of};

    /// The targets, in order.
    pub fn targets(&self) -> &[Located]
        ensures { all_of result.now ≡ self.now }
    {
        self.targets.as_slice()
    }

    /// The target of this name, in logarithmic time.
    pub fn target(&self, name: &[u8]) -> Option<&Arc<Target>>
        ensures { option_map (λ t. arc_value t.now) result ≡ target_named name.now self.now }
    {
        self.look_up(name)
    }

    fn look_up(&self, name: &[u8]) -> Option<&Arc<Target>>
        ensures { option_map (λ t. arc_value t.now) result ≡ target_named name.now self.now }
    {
        match self.names.find(name) {
            Some(number) => Some(&self.targets[number].target),
            None => None,
        }
    }

    /// The file of these calls. `names` has the number of each.
    pub(crate) fn of(alloc: Global, calls: Vec<Call>, names: Names) -> Result<File, NoMemory>
        requires fine { AllByRecursion IsFine (map call_of calls.items) }
        requires numbered { (q : List ℕ)
            → number_of names q ≡ number_from 0 q (map call_of calls.items) [] }
        ensures { IfOk result (λ f. f ≡ map located (map call_of calls.items)) }
    {
        let targets = located_all(alloc, calls)?;
        let mark = mark_of(&targets);
        Ok(File {
            targets,
            names,
            mark,
        })
    }
}

impl PartialEq for File {
    ghost eq = { same_file };

    ghost laws = { partial_equiv_from_equiv file_equiv };

    fn eq(&self, other: &File) -> bool {
        self.mark == other.mark && self.targets == other.targets
    }
}

impl Eq for File {
    ghost laws = { file_equiv };
}

impl PartialEq for Located {
    ghost use Rattle.std.specs.Cmp.{partial_equiv_from_equiv, on_equiv};
    ghost use Rattle.target_file.specs.Targets.{same_located};
    ghost use Rattle.target_file.specs.Lent.{located_of};
    ghost use Rattle.target_file.specs.Laws.{located_equiv};

    ghost eq = { λ x y. same_located (located_of x) (located_of y) };

    ghost laws = { partial_equiv_from_equiv (on_equiv located_of located_equiv) };

    fn eq(&self, other: &Located) -> bool {
        self.line == other.line && *self.target == *other.target
    }
}

impl Eq for Located {
    ghost use Rattle.std.specs.Cmp.{on_equiv};
    ghost use Rattle.target_file.specs.Lent.{located_of};
    ghost use Rattle.target_file.specs.Laws.{located_equiv};

    ghost laws = { on_equiv located_of located_equiv };
}

impl Hash for Located {
    ghost use Rattle.std.proofs.Common.{ap};
    ghost use Rattle.target_file.specs.Lent.{located_of};
    ghost use Rattle.target_file.specs.Laws.{same_located_ones};
    ghost use Rattle.target_file.specs.Marks.{located_fed};

    ghost hash_input = { λ x. located_fed (located_of x) };

    ghost respects_eq = { λ x y e. ap located_fed
        (same_located_ones (located_of x) (located_of y) e) };

    fn hash<H: Hasher>(&self, state: &mut H) {
        self.line.hash(state);
        self.target.hash(state);
    }
}
