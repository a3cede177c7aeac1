//! What a call takes as its inputs.
ghost use Rattle.std.specs.Prelude.{◌≡◌};
ghost use Rattle.std.specs.Cmp.{partial_equiv_from_equiv};

use crate::label_text::LabelText;
use buck_label::Path;
use std::hash::{Hash, Hasher};
use std::marker::Model;

/// One input, as written.
#[derive(PartialEq, Eq, Hash, Drop)]
pub enum Source {
    /// A file, by its path in the package.
    Path(Path),
    /// A target.
    Label(LabelText),
}

/// Inputs in their order; one may stand there twice. A contract sees the list.
#[derive(Drop)]
pub struct Sources {
    items: Vec<Source>,
}

impl Model for Sources {
    ghost use Rattle.std.specs.Prelude.{List};
    ghost use Rattle.target_file.specs.declared.source.Source.{Source};

    ghost Value = { List Source };

    ghost view = { λ s. s.items.items };
}

impl Sources {
    /// These inputs.
    pub(crate) fn of(items: Vec<Source>) -> Sources
        ensures { result ≡ items.items }
    {
        Sources { items }
    }

    /// The inputs, in order.
    pub fn as_slice(&self) -> &[Source]
        ensures { result.now ≡ self.now }
    {
        self.items.as_slice()
    }
}

impl PartialEq for Sources {
    ghost use Rattle.target_file.specs.SameSources.{same_sources, sources_equiv};

    ghost eq = { same_sources };

    ghost laws = { partial_equiv_from_equiv sources_equiv };

    fn eq(&self, other: &Sources) -> bool {
        self.items == other.items
    }
}

impl Eq for Sources {
    ghost use Rattle.target_file.specs.SameSources.{sources_equiv};

    ghost laws = { sources_equiv };
}

impl Hash for Sources {
    ghost use Rattle.std.proofs.Common.{ap};
    ghost use Rattle.std.specs.Hash as fed;
    ghost use Rattle.target_file.specs.SameSources.{source_fed, sources_decide};

    ghost hash_input = { fed.slice source_fed };

    ghost respects_eq = { λ x y e. ap (fed.slice source_fed) ((sources_decide x y).0 e) };

    fn hash<H: Hasher>(&self, state: &mut H) {
        self.items.hash(state);
    }
}
