//! From the arguments of calls to what they mean.
ghost use Rattle.std.specs.Prelude.{◌≡◌, ◌++◌, ◌∷◌, [], List, ℕ, IfOk, OnOk, Some, map};
ghost use Rattle.std.specs.List.{AllByRecursion};
ghost use Rattle.std.specs.Option.{option_or, option_map};
ghost use Rattle.buck_label.specs.Paths.{IsPath};
ghost use Rattle.target_file.specs.Calls.{One, Many};
ghost use Rattle.target_file.specs.Files.{IsFine};
ghost use Rattle.target_file.specs.Given.{text_or, list_or_none, exported, written, commanded};
ghost use Rattle.target_file.specs.Seen as seen;
ghost use Rattle.target_file.specs.Seen.{arguments_of, call_of};
ghost use Rattle.target_file.specs.Strings.{IsSource, IsCommand, IsLocated, before_close, locations};
ghost use Rattle.target_file.specs.Targets.{given, text_in, list_in, source_of, action_by, value_of};

use crate::action::Action;
use crate::call::{Argument, Call, Value};
use crate::command::Command;
use crate::fault::NoMemory;
use crate::label_text::LabelText;
use crate::source::{Source, Sources};
use crate::strings::{is_label_like, label_in, opens};
use crate::table::{Attribute, Rule};
use buck_label::{Path, Text};
use std::alloc::Global;

/// The value that is given for an attribute.
fn given(arguments: &[Argument], attribute: Attribute) -> Option<&Value>
    ensures { option_map (λ v. seen.value_of v.now) result
        ≡ given attribute (arguments_of arguments.now) }
{
    for argument in arguments {
        if argument.attribute == attribute {
            return Some(&argument.value);
        }
    }
    None
}

/// The string that is given for an attribute, or an empty one. It is shared, not copied.
pub fn text_given(
    alloc: Global,
    arguments: &[Argument],
    attribute: Attribute,
) -> Result<Text, NoMemory>
    ensures { IfOk result
        (λ t. t ≡ text_or attribute (arguments_of arguments.now) []) }
{
    match given(arguments, attribute) {
        Some(Value::One(text)) => Ok(text.try_clone()?),
        _ => Ok(Text::from_slice(alloc, b"")?),
    }
}

/// The string that is given for an attribute, or the default. It is shared, not copied.
fn text_of(
    alloc: Global,
    arguments: &[Argument],
    attribute: Attribute,
    default: &Text,
) -> Result<Text, NoMemory>
    ensures { IfOk result
        (λ t. t ≡ text_or attribute (arguments_of arguments.now) default.now) }
{
    match given(arguments, attribute) {
        Some(Value::One(text)) => Ok(text.try_clone()?),
        Some(Value::Many(_)) => Ok(Text::from_slice(alloc, b"")?),
        None => Ok(default.try_clone()?),
    }
}

/// The list that is given for an attribute, or an empty one.
pub fn list_of(arguments: &[Argument], attribute: Attribute) -> &[Text]
    ensures { result.now
        ≡ list_in (option_or (given attribute (arguments_of arguments.now)) (Some (Many []))) }
{
    match given(arguments, attribute) {
        Some(Value::Many(items)) => items,
        _ => &[],
    }
}

/// The path of this text, which it shares.
pub fn path_of(text: &Text) -> Result<Path, NoMemory>
    requires { IsPath text.now }
    ensures { IfOk result (λ p. p ≡ text.now) }
{
    Ok(Path::of_text(text)?)
}

/// The path that is given for an attribute, or the default.
fn path_or(
    alloc: Global,
    arguments: &[Argument],
    attribute: Attribute,
    default: &Text,
) -> Result<Path, NoMemory>
    requires { IsPath (text_or attribute (arguments_of arguments.now) default.now) }
    ensures { IfOk result
        (λ p. p ≡ text_or attribute (arguments_of arguments.now) default.now) }
{
    let text = text_of(alloc, arguments, attribute, default)?;
    path_of(&text)
}

/// The texts of a list.
pub fn texts_of(alloc: Global, items: &[Text]) -> Result<Vec<Text>, NoMemory>
    ensures { IfOk result (λ v. v.items ≡ items.now) }
{
    let mut texts = Vec::with_capacity(alloc, items.len())?;
    for item in items {
        texts.push(item.try_clone()?)?;
    }
    Ok(texts)
}

/// The source that a string names.
fn source_of(text: &Text) -> Result<Source, NoMemory>
    requires { IsSource text.now }
    ensures { IfOk result (λ s. s ≡ source_of text.now) }
{
    if is_label_like(text.as_bytes()) {
        return Ok(Source::Label(LabelText::of(text.try_clone()?)));
    }
    Ok(Source::Path(path_of(text)?))
}

/// Adds the source that a string names.
fn add_source(sources: &mut Vec<Source>, text: &Text) -> Result<(), NoMemory>
    requires { IsSource text.now }
    ensures { OnOk result (sources.new.items ≡ sources.old.items ++ source_of text.now ∷ []) }
{
    sources.push(source_of(text)?)?;
    Ok(())
}

/// The sources of a list.
fn sources_of(alloc: Global, items: &[Text]) -> Result<Sources, NoMemory>
    requires { AllByRecursion IsSource items.now }
    ensures { IfOk result (λ s. s ≡ map source_of items.now) }
{
    let mut sources = Vec::with_capacity(alloc, items.len())?;
    for item in items {
        add_source(&mut sources, item)?;
    }
    Ok(Sources::of(sources))
}

/// The labels that a command names, in order.
fn locations_of(alloc: Global, text: &[u8]) -> Result<Vec<LabelText>, NoMemory>
    requires { IsCommand text.now }
    ensures { IfOk result (λ v. v.items ≡ locations text.now) }
{
    let mut labels = Vec::new(alloc);
    for i in 0..text.len() {
        if opens(&text[i..]) {
            let label = Text::from_slice(alloc, label_in(&text[i + 11..]))?;
            labels.push(LabelText::of(label))?;
        }
    }
    Ok(labels)
}

/// The command of this text.
fn command_of(alloc: Global, text: Text) -> Result<Command, NoMemory>
    requires { IsCommand text }
    ensures { IfOk result (λ c. c ≡ text) }
{
    let labels = locations_of(alloc, text.as_bytes())?;
    Ok(Command::of(text, labels))
}

/// What an `export_file` of this name does.
fn export_file(alloc: Global, arguments: &[Argument], name: &Text) -> Result<Action, NoMemory>
    requires src { IsPath (text_or Attribute.Src (arguments_of arguments.now) name.now) }
    requires out { IsPath (text_or Attribute.Out (arguments_of arguments.now) name.now) }
    ensures { IfOk result (λ a. a ≡ exported (arguments_of arguments.now) name.now) }
{
    let src = path_or(alloc, arguments, Attribute::Src, name)?;
    let out = path_or(alloc, arguments, Attribute::Out, name)?;
    Ok(Action::ExportFile { src, out })
}

/// What a `write_file` of this name does.
fn write_file(alloc: Global, arguments: &[Argument], name: &Text) -> Result<Action, NoMemory>
    requires { IsPath (text_or Attribute.Out (arguments_of arguments.now) name.now) }
    ensures { IfOk result (λ a. a ≡ written (arguments_of arguments.now) name.now) }
{
    let content = text_given(alloc, arguments, Attribute::Content)?;
    let out = path_or(alloc, arguments, Attribute::Out, name)?;
    Ok(Action::WriteFile { content, out })
}

/// What a `genrule` does.
fn genrule(alloc: Global, arguments: &[Argument]) -> Result<Action, NoMemory>
    requires srcs { AllByRecursion IsSource
        (list_or_none Attribute.Srcs (arguments_of arguments.now)) }
    requires out { IsPath (text_or Attribute.Out (arguments_of arguments.now) []) }
    requires cmd { IsCommand (text_or Attribute.Cmd (arguments_of arguments.now) []) }
    ensures { IfOk result (λ a. a ≡ commanded (arguments_of arguments.now)) }
{
    let srcs = sources_of(alloc, list_of(arguments, Attribute::Srcs))?;
    let path = text_given(alloc, arguments, Attribute::Out)?;
    let out = path_of(&path)?;
    let command = text_given(alloc, arguments, Attribute::Cmd)?;
    let cmd = command_of(alloc, command)?;
    Ok(Action::Genrule { srcs, out, cmd })
}

/// What the target of a call does.
pub fn action_of(alloc: Global, call: &Call) -> Result<Action, NoMemory>
    requires { IsFine (call_of call.now) }
    ensures { IfOk result (λ a. a
        ≡ action_by call.now.rule
        (value_of call.now.rule (arguments_of call.now.arguments.items))) }
{
    let given = call.arguments.as_slice();
    let name = text_given(alloc, given, Attribute::Name)?;
    match call.rule {
        Rule::ExportFile => export_file(alloc, given, &name),
        Rule::Filegroup => {
            let srcs = sources_of(alloc, list_of(given, Attribute::Srcs))?;
            Ok(Action::Filegroup { srcs })
        }
        Rule::WriteFile => write_file(alloc, given, &name),
        Rule::Genrule => genrule(alloc, given),
        Rule::StampFile => {
            let out = path_or(alloc, given, Attribute::Out, &name)?;
            Ok(Action::StampFile { out })
        }
    }
}
