//! What the values of attributes are read as.

ghost use Rattle.std.specs.Prelude.{◌≡◌, Ok, Err, bytes_eq, if◌then◌else◌};
ghost use Rattle.std.specs.List.{list_any};
ghost use Rattle.std.specs.Str.{chars};
ghost use Rattle.stxpath_syntax.specs.Template.{IsPattern, Read};
ghost use Rattle.sheet_loader.specs.Meant as meant;
ghost use Rattle.sheet_loader.specs.Meant.{Tells, form_of};
ghost use Rattle.sheet_loader.specs.Values as spec;
ghost use Rattle.sheet_loader.specs.Values.{Reads};

use crate::named::name_in;
use crate::passing::pass_in;
use crate::priority::priority_of;
use crate::refused::Refused;
use crate::rows::Form;
use crate::tests_of_attributes::are_tests;
use crate::words::is_spelled;
use sheet_model::Pass;
use std::alloc::Global;
use stx_base::{Binding, Copied, List, Name, SheetCode, Text};
use stxpath_syntax::{Avt, Dialect, Expr, Pattern, read_avt, read_expr, read_pattern};

/// A value by its form.
#[derive(Debug, Drop)]
pub enum Value {
    Word(Text),
    Pass(Pass),
    /// In hundredths.
    Priority(i32),
    Name(Name),
    Expression(Expr),
    Pattern(Pattern),
    Template(Avt),
}

fn is_text(word: &str, text: &Text) -> bool
    ensures { result ≡ bytes_eq (chars word.now) text.now }
{
    is_spelled(text, word)
}

fn is_one_of(words: &[&str], text: &Text) -> bool
    ensures { result ≡ list_any (λ word. bytes_eq (chars word.now) text.now) words.now }
{
    words.iter().any(|word| is_text(word, text))
}

/// One of the words.
fn one_of(alloc: Global, words: &[&str], text: &Text) -> Result<Value, Refused>
    ensures { Tells (if list_any (λ word. bytes_eq (chars word.now) text.now) words.now then Ok (spec.A_word text.now) else Err SheetCode.BadValue) result }
{
    if is_one_of(words, text) {
        word(alloc, text)
    } else {
        Err(Refused::Code(SheetCode::BadValue))
    }
}

fn pass(dialect: Dialect, text: &Text) -> Result<Value, Refused>
    ensures { Tells (spec.some_value spec.A_pass (spec.pass_in dialect text.now)) result }
{
    match pass_in(dialect, text) {
        None => Err(Refused::Code(SheetCode::BadValue)),
        Some(pass) => Ok(Value::Pass(pass)),
    }
}

fn priority(text: &Text) -> Result<Value, Refused>
    ensures { Tells (spec.some_value spec.A_priority (spec.priority_of text.now)) result }
{
    match priority_of(text) {
        None => Err(Refused::Code(SheetCode::BadValue)),
        Some(priority) => Ok(Value::Priority(priority)),
    }
}

fn name(alloc: Global, text: &Text, scope: &List<Binding>) -> Result<Value, Refused>
    ensures { Tells (spec.some_value spec.A_name (spec.name_in scope.now text.now)) result }
{
    match name_in(alloc, scope, text.as_str())? {
        None => Err(Refused::Code(SheetCode::BadValue)),
        Some(name) => Ok(Value::Name(name)),
    }
}

fn expression(
    alloc: Global,
    text: &Text,
    dialect: Dialect,
    scope: &List<Binding>,
) -> Result<Value, Refused>
    ensures { (reads : Reads) → Tells (spec.read spec.An_expression (reads.expression dialect scope.now text.now)) result }
{
    match read_expr(alloc, text, scope, dialect) {
        Ok(expression) => Ok(Value::Expression(expression)),
        Err(fault) => Err(Refused::from(fault)),
    }
}

fn pattern(
    alloc: Global,
    text: &Text,
    dialect: Dialect,
    scope: &List<Binding>,
) -> Result<Value, Refused>
    ensures { (reads : Reads) → Tells (spec.read spec.A_pattern (reads.pattern dialect scope.now text.now)) result }
{
    match read_pattern(alloc, text, scope, dialect) {
        Ok(pattern) => Ok(Value::Pattern(pattern)),
        Err(fault) => Err(Refused::from(fault)),
    }
}

fn tests(
    alloc: Global,
    text: &Text,
    dialect: Dialect,
    scope: &List<Binding>,
) -> Result<Value, Refused>
    ensures { (reads : Reads) → Tells (spec.read_tests (reads.pattern dialect scope.now text.now)) result }
{
    match read_pattern(alloc, text, scope, dialect) {
        Ok(pattern) => if are_tests(&pattern) {
            Ok(Value::Pattern(pattern))
        } else {
            Err(Refused::Code(SheetCode::BadValue))
        },
        Err(fault) => Err(Refused::from(fault)),
    }
}

fn template(
    alloc: Global,
    text: &Text,
    dialect: Dialect,
    scope: &List<Binding>,
) -> Result<Value, Refused>
    ensures { (reads : Reads) → Tells (spec.read spec.A_template (reads.template dialect scope.now text.now)) result }
{
    match read_avt(alloc, text, scope, dialect) {
        Ok(template) => Ok(Value::Template(template)),
        Err(fault) => Err(Refused::from(fault)),
    }
}

fn word(alloc: Global, text: &Text) -> Result<Value, Refused>
    ensures { Tells (Ok (spec.A_word text.now)) result }
{
    let text = text.copy(alloc)?;
    Ok(Value::Word(text))
}

/// What a value of a form is read as. A version is judged by itself.
pub fn value_of(
    alloc: Global,
    form: Form,
    text: &Text,
    dialect: Dialect,
    scope: &List<Binding>,
) -> Result<Value, Refused>
    ensures { (reads : Reads) → Tells (spec.value_of reads dialect scope.now (form_of form) text.now) result }
{
    match form {
        Form::YesOrNo => one_of(alloc, &["yes", "no"], text),
        Form::Visibility => one_of(alloc, &["local", "group", "global"], text),
        Form::Passing => pass(dialect, text),
        Form::Priority => priority(text),
        Form::Named => name(alloc, text, scope),
        Form::Expression => expression(alloc, text, dialect, scope),
        Form::Pattern => pattern(alloc, text, dialect, scope),
        Form::Tests => tests(alloc, text, dialect, scope),
        Form::Template => template(alloc, text, dialect, scope),
        Form::Version | Form::Any => word(alloc, text),
    }
}
