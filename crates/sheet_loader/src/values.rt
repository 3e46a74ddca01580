//! The values of a tag's attributes by their names.

ghost use Rattle.std.specs.Prelude.{◌≡◌, [], ◌∷◌, ◌++◌, OnOk, codes, bytes_eq};
ghost use Rattle.std.specs.Option.{option_copied, option_map};
ghost use Rattle.std.specs.Str.{chars};
ghost use Rattle.stxpath_syntax.specs.declared.expr.Expr.TheVariants as expression;
ghost use Rattle.sheet_loader.specs.Gathering.{values_in};
ghost use Rattle.sheet_loader.specs.Making as spec;
ghost use Rattle.sheet_loader.specs.Making.{value_at};
ghost use Rattle.sheet_loader.specs.Meant.{value_of};
ghost use Rattle.sheet_loader.specs.Read as read;
ghost use Rattle.sheet_loader.specs.Taking.{IsPlace, maybe_word, without};

use crate::value::Value;
use crate::words::{are_same, is_word};
use sheet_model::{Pass, Visibility};
use std::alloc::Global;
use stx_base::{List, Memory, Name, Text};
use stxpath_syntax::{Avt, Expr, Pattern};

/// An attribute with its value.
#[derive(Debug, Drop)]
pub struct Entry {
    pub name: &'static str,
    pub value: Value,
}

/// The values of a tag's attributes by their names, where no attribute has a fault. A required one is there then, so that what
/// stands for its lack never comes.
#[derive(Debug, Drop)]
pub struct Values {
    alloc: Global,
    entries: Vec<Entry>,
}

impl Entry {
    fn is_called(&self, name: &str) -> bool
        ensures { result ≡ bytes_eq (chars self.now.name.now) (chars name.now) }
    {
        are_same(self.name, name)
    }
}

/// From where a template is seen.
fn visibility_of(word: &Text) -> Visibility
    ensures { result ≡ spec.visibility_of word.now }
{
    if is_word(word, "global") {
        Visibility::Global
    } else if is_word(word, "group") {
        Visibility::Group
    } else {
        Visibility::Local
    }
}

impl Values {
    pub fn new(alloc: Global) -> Values
        ensures { values_in result ≡ [] }
    {
        Values {
            alloc,
            entries: Vec::new(alloc),
        }
    }

    pub fn add(&mut self, name: &'static str, value: Value) -> Result<(), Memory>
        ensures { OnOk result (values_in self.new ≡ values_in self.old ++ (chars name.now, value_of value) ∷ []) }
    {
        self.entries.push(Entry { name, value })?;
        Ok(())
    }

    fn place(&self, name: &str) -> Option<usize>
        ensures { IsPlace (chars name.now) (values_in self.now) result }
    {
        for (place, entry) in self.entries.iter().enumerate() {
            if entry.is_called(name) {
                return Some(place);
            }
        }
        None
    }

    pub fn get(&self, name: &str) -> Option<&Value>
        ensures { option_map value_of (option_copied result) ≡ value_at (chars name.now) (values_in self.now) }
    {
        let place = self.place(name)?;
        let entry = self.entries.get(place)?;
        Some(&entry.value)
    }

    /// Takes a value out.
    fn take(&mut self, name: &str) -> Option<Value>
        ensures value { option_map value_of result ≡ value_at (chars name.now) (values_in self.old) }
        ensures others { values_in self.new ≡ without (chars name.now) (values_in self.old) }
    {
        let place = self.place(name)?;
        let Entry { value, .. } = self.entries.remove(place);
        Some(value)
    }

    pub fn has_select(&self) -> bool
        ensures { result ≡ read.has_select (values_in self.now) }
    {
        match self.expression("select") {
            Some(_) => true,
            None => false,
        }
    }

    fn expression(&self, name: &str) -> Option<&Expr>
        ensures { option_copied result ≡ spec.as_expression (value_at (chars name.now) (values_in self.now)) }
    {
        match self.get(name) {
            Some(Value::Expression(expression)) => Some(expression),
            _ => None,
        }
    }

    /// The name that the attribute `name` spells.
    pub fn own_name(&self) -> Option<&Name>
        ensures { option_copied result ≡ spec.as_name (value_at (codes "name") (values_in self.now)) }
    {
        self.named("name")
    }

    pub fn named(&self, name: &str) -> Option<&Name>
        ensures { option_copied result ≡ spec.as_name (value_at (chars name.now) (values_in self.now)) }
    {
        match self.get(name) {
            Some(Value::Name(name)) => Some(name),
            _ => None,
        }
    }

    fn word(&self, name: &str) -> Option<&Text>
        ensures { option_copied result ≡ maybe_word (value_at (chars name.now) (values_in self.now)) }
    {
        match self.get(name) {
            Some(Value::Word(word)) => Some(word),
            _ => None,
        }
    }

    fn word_by(&self, name: &str) -> &str
        ensures { chars result.now ≡ spec.as_word (value_at (chars name.now) (values_in self.now)) }
    {
        match self.word(name) {
            Some(word) => word.as_str(),
            None => "",
        }
    }

    /// The name of the file that an include wants.
    pub fn href(&self) -> &str
        ensures { chars result.now ≡ spec.as_word (value_at (codes "href") (values_in self.now)) }
    {
        self.word_by("href")
    }

    pub fn is_yes(&self, name: &str) -> bool
        ensures { result ≡ spec.is_yes (value_at (chars name.now) (values_in self.now)) }
    {
        match self.word(name) {
            Some(word) => is_word(word, "yes"),
            None => false,
        }
    }

    /// What a group passes through: as it says, or as the group around it.
    pub fn pass_or(&self, around: Pass) -> Pass
        ensures { result ≡ spec.pass_or around (value_at (codes "pass-through") (values_in self.now)) }
    {
        self.pass_by("pass-through", around)
    }

    fn pass_by(&self, name: &str, around: Pass) -> Pass
        ensures { result ≡ spec.pass_or around (value_at (chars name.now) (values_in self.now)) }
    {
        match self.get(name) {
            Some(Value::Pass(own)) => *own,
            _ => around,
        }
    }

    pub fn priority(&self) -> Option<i32>
        ensures { result ≡ spec.as_priority (value_at (codes "priority") (values_in self.now)) }
    {
        self.priority_by("priority")
    }

    fn priority_by(&self, name: &str) -> Option<i32>
        ensures { result ≡ spec.as_priority (value_at (chars name.now) (values_in self.now)) }
    {
        match self.get(name) {
            Some(Value::Priority(priority)) => Some(*priority),
            _ => None,
        }
    }

    pub fn visibility(&self) -> Visibility
        ensures { result ≡ spec.visibility_of (spec.as_word (value_at (codes "visibility") (values_in self.now))) }
    {
        self.visibility_by("visibility")
    }

    fn visibility_by(&self, name: &str) -> Visibility
        ensures { result ≡ spec.visibility_of (spec.as_word (value_at (chars name.now) (values_in self.now))) }
    {
        match self.word(name) {
            Some(word) => visibility_of(word),
            None => Visibility::Local,
        }
    }

    pub fn take_word(&mut self, name: &str) -> Text
        ensures value { result ≡ spec.as_word (value_at (chars name.now) (values_in self.old)) }
        ensures others { values_in self.new ≡ without (chars name.now) (values_in self.old) }
    {
        match self.take(name) {
            Some(Value::Word(word)) => word,
            _ => Text::new(self.alloc),
        }
    }

    pub fn take_maybe_name(&mut self, name: &str) -> Option<Name>
        ensures value { result ≡ spec.as_name (value_at (chars name.now) (values_in self.old)) }
        ensures others { values_in self.new ≡ without (chars name.now) (values_in self.old) }
    {
        match self.take(name) {
            Some(Value::Name(name)) => Some(name),
            _ => None,
        }
    }

    pub fn take_name(&mut self) -> Name
        ensures value { result ≡ spec.name (values_in self.old) }
        ensures others { values_in self.new ≡ without (codes "name") (values_in self.old) }
    {
        self.take_name_by("name")
    }

    fn take_name_by(&mut self, name: &str) -> Name
        ensures value { result ≡ spec.or_else spec.nameless (spec.as_name (value_at (chars name.now) (values_in self.old))) }
        ensures others { values_in self.new ≡ without (chars name.now) (values_in self.old) }
    {
        match self.take_maybe_name(name) {
            Some(name) => name,
            None => Name {
                uri: Text::new(self.alloc),
                local: Text::new(self.alloc),
                prefix: Text::new(self.alloc),
            },
        }
    }

    pub fn take_maybe_expression(&mut self, name: &str) -> Option<Expr>
        ensures value { result ≡ spec.as_expression (value_at (chars name.now) (values_in self.old)) }
        ensures others { values_in self.new ≡ without (chars name.now) (values_in self.old) }
    {
        match self.take(name) {
            Some(Value::Expression(expression)) => Some(expression),
            _ => None,
        }
    }

    pub fn take_expression(&mut self, name: &str) -> Expr
        ensures value { result ≡ spec.or_else (expression.Seq []) (spec.as_expression (value_at (chars name.now) (values_in self.old))) }
        ensures others { values_in self.new ≡ without (chars name.now) (values_in self.old) }
    {
        match self.take_maybe_expression(name) {
            Some(expression) => expression,
            None => Expr::Seq(List::new(self.alloc)),
        }
    }

    pub fn take_maybe_pattern(&mut self, name: &str) -> Option<Pattern>
        ensures value { result ≡ spec.as_pattern (value_at (chars name.now) (values_in self.old)) }
        ensures others { values_in self.new ≡ without (chars name.now) (values_in self.old) }
    {
        match self.take(name) {
            Some(Value::Pattern(pattern)) => Some(pattern),
            _ => None,
        }
    }

    pub fn take_pattern(&mut self, name: &str) -> Pattern
        ensures value { result ≡ spec.pattern (chars name.now) (values_in self.old) }
        ensures others { values_in self.new ≡ without (chars name.now) (values_in self.old) }
    {
        match self.take_maybe_pattern(name) {
            Some(pattern) => pattern,
            None => Pattern {
                alternatives: List::new(self.alloc),
            },
        }
    }

    pub fn take_maybe_template(&mut self, name: &str) -> Option<Avt>
        ensures value { result ≡ spec.as_template (value_at (chars name.now) (values_in self.old)) }
        ensures others { values_in self.new ≡ without (chars name.now) (values_in self.old) }
    {
        match self.take(name) {
            Some(Value::Template(template)) => Some(template),
            _ => None,
        }
    }

    pub fn take_template(&mut self, name: &str) -> Avt
        ensures value { result ≡ spec.template (chars name.now) (values_in self.old) }
        ensures others { values_in self.new ≡ without (chars name.now) (values_in self.old) }
    {
        match self.take_maybe_template(name) {
            Some(template) => template,
            None => Avt {
                parts: List::new(self.alloc),
            },
        }
    }
}
