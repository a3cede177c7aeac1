//! The arguments of a call so far.
ghost use Rattle.std.specs.Prelude.{◌≡◌, ◌↔◌, true, List, []};
ghost use Rattle.std.specs.List.{AllByRecursion};
ghost use Rattle.target_file.specs.Calls.{One, Many};
ghost use Rattle.target_file.specs.Table.{form_of, needed};
ghost use Rattle.target_file.specs.Files.{Belongs, attributes};
ghost use Rattle.target_file.specs.Machine.{HasItem};
ghost use Rattle.target_file.specs.Seen.{arguments_of};
ghost use Rattle.lists.specs.Lists.{Has};

use crate::call::Argument;
use crate::strings::{is_command, is_source};
use crate::table::{Attribute, Form, Rule, form_of, needed};
use buck_label::is_path;

/// Whether no attribute that has no default is missing.
pub fn is_whole(rule: Rule, given: &[Argument]) -> bool
    ensures { (result ≡ true)
        ↔ AllByRecursion (λ a. Has (attributes (arguments_of given.now)) a) (needed rule) }
{
    for attribute in needed(rule) {
        if !is_given(given, *attribute) {
            return false;
        }
    }
    true
}

/// Whether the attribute is among these.
pub fn is_given(given: &[Argument], attribute: Attribute) -> bool
    ensures { (result ≡ true) ↔ Has (attributes (arguments_of given.now)) attribute }
{
    for argument in given {
        if argument.attribute == attribute {
            return true;
        }
    }
    false
}

/// Whether the string may be the attribute's value.
pub fn may_be(rule: Rule, attribute: Attribute, text: &[u8]) -> bool
    ensures { (result ≡ true) ↔ Belongs (form_of rule attribute) (One text.now) }
{
    match form_of(rule, attribute) {
        Some(Form::Path) => is_path(text),
        Some(Form::Text) => true,
        Some(Form::Command) => is_command(text),
        _ => false,
    }
}

/// Whether an attribute of this form takes a list.
pub fn is_list(form: Option<Form>) -> bool
    ensures { (result ≡ true) ↔ Belongs form (Many []) }
{
    matches!(form, Some(Form::Sources) | Some(Form::Texts))
}

/// Whether the string may stand in the attribute's list.
pub fn may_hold(rule: Rule, attribute: Attribute, text: &[u8]) -> bool
    ensures { (result ≡ true) ↔ HasItem (form_of rule attribute) text.now }
{
    match form_of(rule, attribute) {
        Some(Form::Sources) => is_source(text),
        Some(Form::Texts) => true,
        _ => false,
    }
}
