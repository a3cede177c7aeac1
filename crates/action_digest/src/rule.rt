//! A target of a package, shared with the package's file.
ghost use Rattle.std.specs.Prelude.{◌≡◌, IfOk};
ghost use Rattle.std.specs.Arc.{arc_value};
ghost use Rattle.std.specs.Cmp.{partial_equiv_from_equiv};
ghost use Rattle.target_file.specs.Targets.{same_target};
ghost use Rattle.target_file.specs.Laws.{target_equiv};

use std::marker::Model;
use std::sync::Arc;
use target_file::Target;

/// A target apart from the line it stands on. A contract sees it as what the target is.
#[derive(Drop)]
pub struct Rule {
    target: Arc<Target>,
}

impl Model for Rule {
    ghost use Rattle.std.specs.Arc.{arc_value};
    ghost use Rattle.target_file.specs.Targets.{Target};

    ghost Value = { Target };

    ghost view = { λ r. arc_value r.target };
}

impl Rule {
    /// The rule of this target. It takes no memory.
    pub fn of(target: Arc<Target>) -> Rule
        ensures { result ≡ arc_value target }
    {
        Rule { target }
    }

    /// The target.
    pub fn target(&self) -> &Target
        ensures { result.now ≡ self.now }
    {
        &self.target
    }
}

impl PartialEq for Rule {
    ghost eq = { same_target };

    ghost laws = { partial_equiv_from_equiv target_equiv };

    fn eq(&self, other: &Rule) -> bool {
        *self.target == *other.target
    }
}

impl Eq for Rule {
    ghost laws = { target_equiv };
}
