//! A number by which files that are not equal are mostly told apart at once.
ghost use Rattle.std.specs.Prelude.{◌≡◌};
ghost use Rattle.target_file.specs.Lent.{all_of};
ghost use Rattle.target_file.specs.Marks.{mark_of};

use crate::file::Located;
use std::hash::{FoldHasher, Hash, Hasher};

/// The mark of these targets. It costs a few steps for each text, since a text keeps its hash.
pub(crate) fn mark_of(targets: &[Located]) -> u64
    ensures { result ≡ mark_of (all_of targets.now) }
{
    let mut hasher = FoldHasher::default();
    targets.hash(&mut hasher);
    hasher.finish()
}
