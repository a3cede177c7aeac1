//! Targets: what calls mean.
ghost use Rattle.std.specs.Prelude.{◌≡◌, List, ℕ, IfOk};
ghost use Rattle.std.specs.Cmp.{partial_equiv_from_equiv};
ghost use Rattle.buck_label.specs.Paths.{IsPath};
ghost use Rattle.target_file.specs.Files.{IsFine};
ghost use Rattle.target_file.specs.Seen.{call_of};
ghost use Rattle.target_file.specs.Targets.{IsSound, target_of, same_target};
ghost use Rattle.target_file.specs.Laws.{target_equiv};

use crate::action::Action;
use crate::call::Call;
use crate::fault::NoMemory;
use crate::making::{action_of, list_of, path_of, text_given, texts_of};
use crate::table::Attribute;
use buck_label::{Path, Text};
use std::alloc::Global;
use std::hash::{Hash, Hasher};
use std::marker::Model;

/// What a call means, apart from its line: a default that is left out equals the same value written
/// out, and the order of the attributes does not count.
pub struct Target {
    name: Path,
    visibility: Vec<Text>,
    labels: Vec<Text>,
    action: Action,
}

// (One function for all places that drop one: a derived drop is written out at each.)
impl Drop for Target {
    fn drop(self) {
        let Target {
            name: _name,
            visibility: _visibility,
            labels: _labels,
            action: _action,
        } = self;
    }
}

impl Model for Target {
    ghost use Rattle.buck_label.specs.Paths.{IsPath};
    ghost use Rattle.target_file.specs.Targets as targets;

    ghost Value = { targets.Target };

    ghost view = { λ t. record {
      name = t.name;
      visibility = t.visibility.items;
      labels = t.labels.items;
      action = t.action;
    } };

    ghost invariant = { λ t. IsPath t.name × targets.IsSound t.action };
}

impl Target {
    /// The target's name: a path as written.
    pub fn name(&self) -> &[u8]
        ensures name { result.now ≡ self.now.name }
        ensures path { IsPath result.now }
    {
        self.name.as_bytes()
    }

    /// Who may use the target, in order: any strings, which nothing is done with.
    pub fn visibility(&self) -> &[Text]
        ensures { result.now ≡ self.now.visibility }
    {
        self.visibility.as_slice()
    }

    /// The target's labels, in order: any strings, which nothing is done with. They are no labels
    /// of targets.
    pub fn labels(&self) -> &[Text]
        ensures { result.now ≡ self.now.labels }
    {
        self.labels.as_slice()
    }

    /// What the target does.
    pub fn action(&self) -> &Action
        ensures action { result.now ≡ self.now.action }
        ensures sound { IsSound result.now }
    {
        &self.action
    }

    /// The target that a call means.
    pub(crate) fn of(alloc: Global, call: &Call) -> Result<Target, NoMemory>
        requires { IsFine (call_of call.now) }
        ensures { IfOk result
            (λ t. t ≡ target_of (call_of call.now).rule (call_of call.now).arguments) }
    {
        let given = call.arguments.as_slice();
        let text = text_given(alloc, given, Attribute::Name)?;
        let name = path_of(&text)?;
        let visibility = texts_of(alloc, list_of(given, Attribute::Visibility))?;
        let labels = texts_of(alloc, list_of(given, Attribute::Labels))?;
        let action = action_of(alloc, call)?;
        Ok(Target {
            name,
            visibility,
            labels,
            action,
        })
    }
}

impl PartialEq for Target {
    ghost eq = { same_target };

    ghost laws = { partial_equiv_from_equiv target_equiv };

    fn eq(&self, other: &Target) -> bool {
        self.name == other.name
            && self.visibility == other.visibility
            && self.labels == other.labels
            && self.action == other.action
    }
}

impl Eq for Target {
    ghost laws = { target_equiv };
}

impl Hash for Target {
    ghost use Rattle.std.proofs.Common.{ap};
    ghost use Rattle.target_file.specs.Laws.{same_targets};
    ghost use Rattle.target_file.specs.Marks.{target_fed};

    ghost hash_input = { target_fed };

    ghost respects_eq = { λ x y e. ap target_fed (same_targets x y e) };

    fn hash<H: Hasher>(&self, state: &mut H) {
        self.name.hash(state);
        self.visibility.hash(state);
        self.labels.hash(state);
        self.action.hash(state);
    }
}
