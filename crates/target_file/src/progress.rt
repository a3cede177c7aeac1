//! Calls, read token by token.
ghost use Rattle.std.specs.Prelude.{◌≡◌, ℕ, List, length, map};
ghost use Rattle.target_file.specs.Names.{number_of, number_from};
ghost use Rattle.target_file.specs.Seen.{call_of, arguments_of};
ghost use Rattle.target_file.specs.declared.place.Place.TheVariants as at;

use crate::call::{Argument, Call, Value};
use crate::fault::NoMemory;
use crate::file::File;
use crate::given::{is_given, is_list, is_whole, may_be, may_hold};
use crate::names::Names;
use crate::place::Place;
use crate::table::{Attribute, Rule, attribute_of, form_of, rule_of};
use buck_label::Text;
use std::alloc::Global;
use std::mem::replace;

/// The calls so far, and what is known of the one that is being read.
#[derive(Drop)]
pub struct Progress {
    alloc: Global,
    pub calls: Vec<Call>,
    line: u64,
    rule: Rule,
    given: Vec<Argument>,
    items: Vec<Text>,
    pub place: Place,
    names: Names,
    ghost numbered: { (q : List ℕ) → number_of names q ≡ number_from 0 q (map call_of calls.items) (arguments_of given.items) },
    ghost idle: { place ≡ at.Top → length given.items ≡ 0 },
}

impl Progress {
    ghost use Rattle.std.specs.Prelude.{◌≡◌, ◌↔◌, true, false, ℕ, List, [], IfOk, OnOk, length, map};
    ghost use Rattle.target_file.specs.Tokens.{Word, Mark};
    ghost use Rattle.target_file.specs.Tokens as token;
    ghost use Rattle.target_file.specs.Calls.{One};
    ghost use Rattle.target_file.specs.Files.{IsFine, names};
    ghost use Rattle.lists.specs.Lists.{Has};
    ghost use Rattle.target_file.specs.Machine.{IsFresh, set_place, give, first};
    ghost use Rattle.std.specs.List.{AllByRecursion};
    ghost use Rattle.target_file.specs.Targets.{located};
    ghost use Rattle.target_file.specs.Code.{state_of, Stepped};

    /// Nothing read.
    pub fn new(alloc: Global) -> Progress
        ensures { state_of result ≡ first (Rule.WriteFile) }
    {
        Progress {
            alloc,
            calls: Vec::new(alloc),
            line: 0,
            rule: Rule::WriteFile,
            given: Vec::new(alloc),
            items: Vec::new(alloc),
            place: Place::Top,
            names: Names::new(alloc),
        }
    }

    /// The file of the calls that are whole, at their end.
    pub fn into_file(self) -> Result<File, NoMemory>
        requires top { self.place ≡ Place.Top }
        requires fine { AllByRecursion IsFine (state_of self).calls }
        ensures { IfOk result (λ f. f ≡ map located (state_of self).calls) }
    {
        File::of(self.alloc, self.calls, self.names)
    }

    /// A word.
    pub fn word(&mut self, line: u64, word: &[u8]) -> Result<bool, NoMemory>
        ensures { IfOk result
            (λ ok. Stepped (state_of self.old) (Word line word.now) ok (state_of self.new)) }
    {
        match self.place {
            Place::Top => Ok(self.begin(line, word)),
            Place::Inside => Ok(self.name(word)),
            _ => Ok(false),
        }
    }

    /// A rule's name.
    fn begin(&mut self, line: u64, word: &[u8]) -> bool
        requires { self.old.place ≡ Place.Top }
        ensures { Stepped (state_of self.old) (Word line word.now) result (state_of self.new) }
    {
        let Some(rule) = rule_of(word) else {
            return false;
        };
        self.line = line;
        self.rule = rule;
        self.given.clear();
        self.items.clear();
        self.place = Place::Named;
        true
    }

    /// An attribute's name.
    fn name(&mut self, word: &[u8]) -> bool
        requires { self.old.place ≡ Place.Inside }
        ensures { (line : ℕ)
            → Stepped (state_of self.old) (Word line word.now) result (state_of self.new) }
    {
        let Some(attribute) = attribute_of(word) else {
            return false;
        };
        if form_of(self.rule, attribute).is_none() || is_given(&self.given, attribute) {
            return false;
        }
        self.place = Place::Equal(attribute);
        true
    }

    /// A string.
    pub fn text(&mut self, text: &[u8]) -> Result<bool, NoMemory>
        ensures { IfOk result
            (λ ok. Stepped (state_of self.old) (token.Text text.now) ok (state_of self.new)) }
    {
        match self.place {
            Place::Value(attribute) => self.value(attribute, text),
            Place::List(attribute) => self.item(attribute, text),
            _ => Ok(false),
        }
    }

    /// A string as an attribute's value.
    fn value(&mut self, attribute: Attribute, text: &[u8]) -> Result<bool, NoMemory>
        requires { self.old.place ≡ Place.Value attribute }
        ensures { IfOk result
            (λ ok. Stepped (state_of self.old) (token.Text text.now) ok (state_of self.new)) }
    {
        if !may_be(self.rule, attribute, text) || !self.is_fresh(attribute, text) {
            return Ok(false);
        }
        self.give(attribute, text)?;
        Ok(true)
    }

    /// Gives the attribute this string.
    fn give(&mut self, attribute: Attribute, text: &[u8]) -> Result<(), NoMemory>
        requires { IsFresh (map call_of self.old.calls.items) attribute (One text.now) }
        ensures { OnOk result
            (state_of self.new ≡ give (state_of self.old) attribute (One text.now)) }
    {
        let kept = Text::from_slice(self.alloc, text)?;
        self.given.reserve(1)?;
        self.names
            .note(self.alloc, attribute, &kept, self.calls.len())?;
        self.given.push(Argument {
            attribute,
            value: Value::One(kept),
        })?;
        self.items.clear();
        self.place = Place::Done;
        Ok(())
    }

    /// Whether the string, if it is a name, is that of no whole call.
    fn is_fresh(&self, attribute: Attribute, text: &[u8]) -> bool
        ensures { (result ≡ true)
            ↔ IsFresh (map call_of self.now.calls.items) attribute (One text.now) }
    {
        attribute != Attribute::Name || !self.is_used(text)
    }

    fn is_used(&self, name: &[u8]) -> bool
        ensures { (result ≡ true) ↔ Has (names (map call_of self.now.calls.items)) name.now }
    {
        match self.names.find(name) {
            Some(number) => number < self.calls.len(),
            None => false,
        }
    }

    /// A string of a list.
    fn item(&mut self, attribute: Attribute, text: &[u8]) -> Result<bool, NoMemory>
        requires { self.old.place ≡ Place.List attribute }
        ensures { IfOk result
            (λ ok. Stepped (state_of self.old) (token.Text text.now) ok (state_of self.new)) }
    {
        if !may_hold(self.rule, attribute, text) {
            return Ok(false);
        }
        self.items.push(Text::from_slice(self.alloc, text)?)?;
        self.place = Place::Item(attribute);
        Ok(true)
    }

    /// One of ( ) [ ] , =
    pub fn mark(&mut self, mark: u8) -> Result<bool, NoMemory>
        ensures { IfOk result
            (λ ok. Stepped (state_of self.old) (Mark mark) ok (state_of self.new)) }
    {
        match self.place {
            Place::Top => Ok(false),
            Place::Named => Ok(self.go(mark, b'(', Place::Inside)),
            Place::Inside => self.close(mark),
            Place::Equal(attribute) => Ok(self.go(mark, b'=', Place::Value(attribute))),
            Place::Value(attribute) => Ok(self.open_list(mark, attribute)),
            Place::List(attribute) => self.close_list(mark, attribute),
            Place::Item(attribute) => self.behind_item(mark, attribute),
            Place::Done => self.behind_value(mark),
        }
    }

    /// A comma or the end, after a string of a list.
    fn behind_item(&mut self, mark: u8, attribute: Attribute) -> Result<bool, NoMemory>
        requires { self.old.place ≡ Place.Item attribute }
        ensures { IfOk result
            (λ ok. Stepped (state_of self.old) (Mark mark) ok (state_of self.new)) }
    {
        if mark == b',' {
            self.place = Place::List(attribute);
            return Ok(true);
        }
        self.close_list(mark, attribute)
    }

    /// A comma or the end, after a value.
    fn behind_value(&mut self, mark: u8) -> Result<bool, NoMemory>
        requires { self.old.place ≡ Place.Done }
        ensures { IfOk result
            (λ ok. Stepped (state_of self.old) (Mark mark) ok (state_of self.new)) }
    {
        if mark == b',' {
            self.place = Place::Inside;
            return Ok(true);
        }
        self.close(mark)
    }

    /// The one mark that may stand here.
    fn go(&mut self, mark: u8, wanted: u8, place: Place) -> bool
        requires { place ≡ Place.Top → ⊥ }
        ensures yes { result ≡ true
            → (mark ≡ wanted) × (state_of self.new ≡ set_place (state_of self.old) place) }
        ensures no { result ≡ false → mark ≡ wanted → ⊥ }
    {
        if mark != wanted {
            return false;
        }
        self.place = place;
        true
    }

    /// The beginning of a list.
    fn open_list(&mut self, mark: u8, attribute: Attribute) -> bool
        requires { self.old.place ≡ Place.Value attribute }
        ensures { Stepped (state_of self.old) (Mark mark) result (state_of self.new) }
    {
        if mark != b'[' || !is_list(form_of(self.rule, attribute)) {
            return false;
        }
        self.items.clear();
        self.place = Place::List(attribute);
        true
    }

    /// The end of a list.
    fn close_list(&mut self, mark: u8, attribute: Attribute) -> Result<bool, NoMemory>
        ensures list { self.old.place ≡ Place.List attribute
            → IfOk result (λ ok. Stepped (state_of self.old) (Mark mark) ok (state_of self.new)) }
        ensures item { self.old.place ≡ Place.Item attribute → (mark ≡ 44 → ⊥)
            → IfOk result (λ ok. Stepped (state_of self.old) (Mark mark) ok (state_of self.new)) }
    {
        if mark != b']' {
            return Ok(false);
        }
        let items = replace(&mut self.items, Vec::new(self.alloc));
        self.given.push(Argument {
            attribute,
            value: Value::Many(items),
        })?;
        self.place = Place::Done;
        Ok(true)
    }

    /// The end of a call.
    fn close(&mut self, mark: u8) -> Result<bool, NoMemory>
        ensures inside { self.old.place ≡ Place.Inside
            → IfOk result (λ ok. Stepped (state_of self.old) (Mark mark) ok (state_of self.new)) }
        ensures done { self.old.place ≡ Place.Done → (mark ≡ 44 → ⊥)
            → IfOk result (λ ok. Stepped (state_of self.old) (Mark mark) ok (state_of self.new)) }
    {
        if mark != b')' || !is_whole(self.rule, &self.given) {
            return Ok(false);
        }
        self.calls.reserve(1)?;
        let arguments = replace(&mut self.given, Vec::new(self.alloc));
        self.calls.push(Call {
            line: self.line,
            rule: self.rule,
            arguments,
        })?;
        self.place = Place::Top;
        Ok(true)
    }
}
