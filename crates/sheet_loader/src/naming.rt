//! The variables that a tag names.

ghost use Rattle.std.specs.Prelude.{◌≡◌, ◌++◌, codes, map, IfOk, OnOk};
ghost use Rattle.std.specs.List.{flat_map};
ghost use Rattle.std.specs.Str.{chars};
ghost use Rattle.sheet_model.specs.Names.{template_variables};
ghost use Rattle.sheet_model.specs.declared.instr.LiteralAttr as model;
ghost use Rattle.sheet_loader.specs.Gathering.{values_in};
ghost use Rattle.sheet_loader.specs.Making.{bare};
ghost use Rattle.sheet_loader.specs.Keys.{name_of};
ghost use Rattle.sheet_loader.specs.Referring as spec;

use crate::names::Expanded;
use crate::value::Value;
use crate::values::Values;
use crate::variables::{add_of_pattern, add_of_template, add_variables};
use sheet_model::LiteralAttr;
use std::alloc::Global;
use stx_base::{List, Memory};

/// Appends the variables of the expression of an attribute.
fn add_of_expression_at(
    alloc: Global,
    values: &Values,
    name: &str,
    found: &mut List<Expanded>,
) -> Result<(), Memory>
    ensures { OnOk result (map name_of found.new ≡ map name_of found.old ++ map bare (spec.variables_at (chars name.now) (values_in values.now))) }
{
    match values.get(name) {
        Some(Value::Expression(expr)) => add_variables(alloc, expr, found),
        _ => Ok(()),
    }
}

/// Appends those of a template.
fn add_of_template_at(
    alloc: Global,
    values: &Values,
    name: &str,
    found: &mut List<Expanded>,
) -> Result<(), Memory>
    ensures { OnOk result (map name_of found.new ≡ map name_of found.old ++ map bare (spec.variables_of_template_at (chars name.now) (values_in values.now))) }
{
    match values.get(name) {
        Some(Value::Template(template)) => add_of_template(alloc, template, found),
        _ => Ok(()),
    }
}

/// Appends those of a pattern.
fn add_of_pattern_at(
    alloc: Global,
    values: &Values,
    name: &str,
    found: &mut List<Expanded>,
) -> Result<(), Memory>
    ensures { OnOk result (map name_of found.new ≡ map name_of found.old ++ map bare (spec.variables_of_pattern_at (chars name.now) (values_in values.now))) }
{
    match values.get(name) {
        Some(Value::Pattern(pattern)) => add_of_pattern(alloc, pattern, found),
        _ => Ok(()),
    }
}

/// The variables that the expressions and templates of a tag name.
pub fn named_in(alloc: Global, values: &Values) -> Result<List<Expanded>, Memory>
    ensures { IfOk result (λ found. map name_of found ≡ map bare (spec.named_in (values_in values.now))) }
{
    let mut found = List::new(alloc);
    add_of_expression_at(alloc, values, "select", &mut found)?;
    add_of_expression_at(alloc, values, "test", &mut found)?;
    add_of_template_at(alloc, values, "separator", &mut found)?;
    add_of_template_at(alloc, values, "name", &mut found)?;
    add_of_template_at(alloc, values, "namespace", &mut found)?;
    add_of_template_at(alloc, values, "href", &mut found)?;
    Ok(found)
}

/// Those that its patterns name.
pub fn named_in_patterns(alloc: Global, values: &Values) -> Result<List<Expanded>, Memory>
    ensures { IfOk result (λ found. map name_of found ≡ map bare (spec.variables_of_pattern_at (codes "match") (values_in values.now) ++ spec.variables_of_pattern_at (codes "while") (values_in values.now) ++ spec.variables_of_pattern_at (codes "until") (values_in values.now))) }
{
    let mut found = List::new(alloc);
    add_of_pattern_at(alloc, values, "match", &mut found)?;
    add_of_pattern_at(alloc, values, "while", &mut found)?;
    add_of_pattern_at(alloc, values, "until", &mut found)?;
    Ok(found)
}

/// The variables that the attributes of a literal element name.
pub fn named_in_attrs(alloc: Global, attrs: &List<LiteralAttr>) -> Result<List<Expanded>, Memory>
    ensures { IfOk result (λ found. map name_of found ≡ map bare (flat_map (λ (a : model.LiteralAttr). template_variables a.value) attrs.now)) }
{
    let mut found = List::new(alloc);
    for attr in attrs.as_slice() {
        add_of_template(alloc, &attr.value, &mut found)?;
    }
    Ok(found)
}
