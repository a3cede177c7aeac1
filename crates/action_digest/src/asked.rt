//! What a target asks for.
ghost use Rattle.std.specs.Prelude.{◌≡◌, ◌++◌, map, IfOk, OnOk};
ghost use Rattle.std.specs.Arc.{arc_value};
ghost use Rattle.target_file.specs.declared.source.Source.TheVariants as source;
ghost use Rattle.action_digest.specs.Written.{full_label, key_in};
ghost use Rattle.action_digest.specs.Actions.{asked_by};
ghost use Rattle.buck_label.specs.Labels.{package_of};

use crate::key::Key;
use buck_label::{Label, Path};
use dice_key::NoMemory;
use std::alloc::Global;
use std::sync::Arc;
use target_file::{Action, LabelText, Source};

/// The keys that the target of this label asks: its sources in order, then its locations in order.
pub(crate) fn asked_by(
    alloc: Global,
    asker: &Label,
    action: &Action,
) -> Result<Vec<Arc<Key>>, NoMemory>
    ensures { IfOk result
        (λ ks. map arc_value ks.items ≡ asked_by (package_of asker.now) action.now) }
{
    let mut keys = Vec::new(alloc);
    match action {
        Action::ExportFile { src, .. } => keys.push(path_key(alloc, asker, src)?)?,
        Action::Filegroup { srcs } => push_sources(&mut keys, asker, srcs.as_slice())?,
        Action::Genrule { srcs, cmd, .. } => {
            push_sources(&mut keys, asker, srcs.as_slice())?;
            push_locations(&mut keys, asker, cmd.locations())?;
        }
        Action::WriteFile { .. } | Action::StampFile { .. } => {}
    }
    Ok(keys)
}

/// Adds the key of each source.
fn push_sources(keys: &mut Vec<Arc<Key>>, asker: &Label, sources: &[Source]) -> Result<(), NoMemory>
    ensures { OnOk result (map arc_value keys.new.items
        ≡ map arc_value keys.old.items ++ map (key_in (package_of asker.now)) sources.now) }
{
    let alloc = *keys.allocator();
    for source in sources {
        let key = match source {
            Source::Path(path) => path_key(alloc, asker, path)?,
            Source::Label(label) => label_key(alloc, asker, label)?,
        };
        keys.push(key)?;
    }
    Ok(())
}

/// Adds the key of each location.
fn push_locations(
    keys: &mut Vec<Arc<Key>>,
    asker: &Label,
    labels: &[LabelText],
) -> Result<(), NoMemory>
    ensures { OnOk result (map arc_value keys.new.items
        ≡ map arc_value keys.old.items
        ++ map (key_in (package_of asker.now)) (map source.Label labels.now)) }
{
    let alloc = *keys.allocator();
    for label in labels {
        keys.push(label_key(alloc, asker, label)?)?;
    }
    Ok(())
}

/// The key of a file of the asker's package.
fn path_key(alloc: Global, asker: &Label, path: &Path) -> Result<Arc<Key>, NoMemory>
    ensures { IfOk result
        (λ k. arc_value k ≡ key_in (package_of asker.now) (source.Path path.now)) }
{
    Ok(Arc::new(alloc, Key::Source(asker.join(alloc, path)?))?)
}

/// The key of a target that is named in the file of the asker's package.
fn label_key(alloc: Global, asker: &Label, label: &LabelText) -> Result<Arc<Key>, NoMemory>
    ensures { IfOk result
        (λ k. arc_value k ≡ key_in (package_of asker.now) (source.Label label.now)) }
{
    let label = label_of(alloc, asker, label)?;
    Ok(Arc::new(alloc, Key::Digest(label))?)
}

/// The label that this text stands for in the file of the asker's package.
fn label_of(alloc: Global, asker: &Label, text: &LabelText) -> Result<Label, NoMemory>
    ensures { IfOk result (λ l. l ≡ full_label (package_of asker.now) text.now) }
{
    Ok(Label::of_text(alloc, text.as_text(), asker.package_bytes())?)
}
