//! Typed fronts: one type for each kind of key.
ghost use Rattle.std.specs.Prelude.{◌≡◌};
ghost use Rattle.std.specs.Option.{option_copied};

use crate::buck::Buck;
use crate::contents::Contents;
use crate::fault::Fault;
use crate::key::Key;
use crate::package_file::PackageFile;
use crate::rule::Rule;
use crate::value::{ActionText, Value};
use buck_label::{Label, Package, Path};
use dice_key::{ProjectionKey, TypedKey};

/// What a file holds.
#[derive(Drop)]
pub struct SourceKey {
    pub path: Path,
}

/// The targets of a package.
#[derive(Drop)]
pub struct PackageKey {
    pub package: Package,
}

/// One target.
#[derive(Drop)]
pub struct RuleKey {
    pub label: Label,
}

/// The text of a target's action.
#[derive(Drop)]
pub struct ActionKey {
    pub label: Label,
}

/// The digest of a target's action.
#[derive(Drop)]
pub struct DigestKey {
    pub label: Label,
}

impl TypedKey<Buck> for SourceKey {
    ghost use Rattle.action_digest.specs.declared.key.Key.TheVariants as key;
    ghost use Rattle.action_digest.specs.Fronts.{as_source, source_front};

    type Out = Option<Contents>;

    ghost wrapped = { λ k. key.Source k.path };

    ghost reads = { as_source };

    fn wrap(self) -> Key {
        Key::Source(self.path)
    }

    fn read(value: &Value) -> Option<&Option<Contents>> {
        match value {
            Value::Source(source) => Some(source),
            _ => None,
        }
    }

    ghost of_it = { λ k. source_front k.path };
}

impl TypedKey<Buck> for PackageKey {
    ghost use Rattle.action_digest.specs.declared.key.Key.TheVariants as key;
    ghost use Rattle.action_digest.specs.Fronts.{as_package, package_front};

    type Out = Result<PackageFile, Fault>;

    ghost wrapped = { λ k. key.Package k.package };

    ghost reads = { as_package };

    fn wrap(self) -> Key {
        Key::Package(self.package)
    }

    fn read(value: &Value) -> Option<&Result<PackageFile, Fault>> {
        match value {
            Value::Package(package) => Some(package),
            _ => None,
        }
    }

    ghost of_it = { λ k. package_front k.package };
}

impl TypedKey<Buck> for RuleKey {
    ghost use Rattle.action_digest.specs.declared.key.Key.TheVariants as key;
    ghost use Rattle.action_digest.specs.Fronts.{as_rule, rule_front};

    type Out = Result<Rule, Fault>;

    ghost wrapped = { λ k. key.Rule k.label };

    ghost reads = { as_rule };

    fn wrap(self) -> Key {
        Key::Rule(self.label)
    }

    fn read(value: &Value) -> Option<&Result<Rule, Fault>> {
        match value {
            Value::Rule(rule) => Some(rule),
            _ => None,
        }
    }

    ghost of_it = { λ k. rule_front k.label };
}

impl TypedKey<Buck> for ActionKey {
    ghost use Rattle.action_digest.specs.declared.key.Key.TheVariants as key;
    ghost use Rattle.action_digest.specs.Fronts.{as_action, action_front};

    type Out = Result<ActionText, Fault>;

    ghost wrapped = { λ k. key.Action k.label };

    ghost reads = { as_action };

    fn wrap(self) -> Key {
        Key::Action(self.label)
    }

    fn read(value: &Value) -> Option<&Result<ActionText, Fault>> {
        match value {
            Value::Action(text) => Some(text),
            _ => None,
        }
    }

    ghost of_it = { λ k. action_front k.label };
}

impl TypedKey<Buck> for DigestKey {
    ghost use Rattle.action_digest.specs.declared.key.Key.TheVariants as key;
    ghost use Rattle.action_digest.specs.Fronts.{as_digest, digest_front};

    type Out = Result<[u8; 32], Fault>;

    ghost wrapped = { λ k. key.Digest k.label };

    ghost reads = { as_digest };

    fn wrap(self) -> Key {
        Key::Digest(self.label)
    }

    fn read(value: &Value) -> Option<&Result<[u8; 32], Fault>> {
        match value {
            Value::Digest(digest) => Some(digest),
            _ => None,
        }
    }

    ghost of_it = { λ k. digest_front k.label };
}

impl ProjectionKey<Buck> for RuleKey {
    ghost use Rattle.std.specs.Prelude.{refl};
    ghost use Rattle.buck_label.specs.Labels.{package_of};

    type Base = PackageKey;

    ghost base_of = { λ k. record { «package» = package_of k.label } };

    ghost projects = { λ k. refl };

    ghost bases = { λ k. refl };
}

impl ProjectionKey<Buck> for DigestKey {
    ghost use Rattle.std.specs.Prelude.{refl};

    type Base = ActionKey;

    ghost base_of = { λ k. record { label = k.label } };

    ghost projects = { λ k. refl };

    ghost bases = { λ k. refl };
}
