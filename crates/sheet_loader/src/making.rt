//! What the elements of bodies come to, once they were judged.

ghost use Rattle.std.specs.Prelude.{◌≡◌, List, IfOk, codes};
ghost use Rattle.std.specs.Option.{option_map, option_to_list};
ghost use Rattle.sheet_loader.specs.Contents.{Holds, content_by};
ghost use Rattle.sheet_loader.specs.Gathering.{values_in};
ghost use Rattle.sheet_loader.specs.Making as spec;
ghost use Rattle.sheet_loader.specs.Making.{value_at};
ghost use Rattle.sheet_loader.specs.Meant.{item_of, kind_of};
ghost use Rattle.sheet_loader.specs.Reading as reading;

use crate::content::Content as Inner;
use crate::item::Item;
use crate::kind::Kind;
use crate::values::Values;
use sheet_model::{Content, Instr, Variable, When, WithParam};
use std::alloc::Global;
use stx_base::{Binding, Copied, List, Memory, Place};

/// Where an element stands.
#[derive(Clone, Copy, Debug)]
pub struct Spot {
    /// Its start tag.
    pub at: Place,
    pub group: u32,
}

/// A variable or parameter that an element declares; with `select` left out it has the empty text.
pub fn variable(spot: Spot, is_param: bool, values: &mut Values) -> Variable
    ensures { result ≡ spec.variable spot.group is_param spot.at (values_in values.old) }
{
    Variable {
        group: spot.group,
        name: values.take_name(),
        select: values.take_maybe_expression("select"),
        keep: values.is_yes("keep-value"),
        param: is_param,
        at: spot.at,
    }
}

/// The attribute, or without it the characters inside.
fn content(values: &mut Values, inner: &mut Inner) -> Content
    ensures { result ≡ content_by (spec.as_expression (value_at (codes "select") (values_in values.old))) inner.old.text }
{
    match values.take_maybe_expression("select") {
        Some(select) => Content::Select(select),
        None => Content::Chars(inner.take_text()),
    }
}

fn value_of(spot: Spot, values: &mut Values) -> Item
    ensures { result ≡ Item.Instruction (Instr.ValueOf (spec.select (values_in values.old)) (spec.as_template (value_at (codes "separator") (values_in values.old))) spot.at) }
{
    Item::Instruction(Instr::ValueOf {
        select: values.take_expression("select"),
        separator: values.take_maybe_template("separator"),
        at: spot.at,
    })
}

fn chars(spot: Spot, inner: &mut Inner) -> Item
    ensures { result ≡ Item.Instruction (Instr.Chars inner.old.text spot.at) }
{
    Item::Instruction(Instr::Chars {
        text: inner.take_text(),
        at: spot.at,
    })
}

fn copy(spot: Spot, values: &mut Values, inner: &mut Inner) -> Item
    ensures { result ≡ Item.Instruction (Instr.Copy (spec.as_pattern (value_at (codes "attributes") (values_in values.old))) inner.old.body spot.at) }
{
    Item::Instruction(Instr::Copy {
        attributes: values.take_maybe_pattern("attributes"),
        body: inner.take_body(),
        at: spot.at,
    })
}

fn element(spot: Spot, scope: List<Binding>, values: &mut Values, inner: &mut Inner) -> Item
    ensures { result ≡ Item.Instruction (Instr.Element (spec.template (codes "name") (values_in values.old)) (spec.as_template (value_at (codes "namespace") (values_in values.old))) scope inner.old.body spot.at) }
{
    Item::Instruction(Instr::Element {
        name: values.take_template("name"),
        namespace: values.take_maybe_template("namespace"),
        scope,
        body: inner.take_body(),
        at: spot.at,
    })
}

fn start_element(spot: Spot, scope: List<Binding>, values: &mut Values) -> Item
    ensures { result ≡ Item.Instruction (Instr.StartElement (spec.template (codes "name") (values_in values.old)) (spec.as_template (value_at (codes "namespace") (values_in values.old))) scope spot.at) }
{
    Item::Instruction(Instr::StartElement {
        name: values.take_template("name"),
        namespace: values.take_maybe_template("namespace"),
        scope,
        at: spot.at,
    })
}

fn end_element(spot: Spot, scope: List<Binding>, values: &mut Values) -> Item
    ensures { result ≡ Item.Instruction (Instr.EndElement (spec.template (codes "name") (values_in values.old)) (spec.as_template (value_at (codes "namespace") (values_in values.old))) scope spot.at) }
{
    Item::Instruction(Instr::EndElement {
        name: values.take_template("name"),
        namespace: values.take_maybe_template("namespace"),
        scope,
        at: spot.at,
    })
}

fn attribute(spot: Spot, scope: List<Binding>, values: &mut Values, inner: &mut Inner) -> Item
    ensures { result ≡ Item.Instruction (Instr.Attribute (spec.template (codes "name") (values_in values.old)) (spec.as_template (value_at (codes "namespace") (values_in values.old))) scope (content_by (spec.as_expression (value_at (codes "select") (values_in values.old))) inner.old.text) spot.at) }
{
    Item::Instruction(Instr::Attribute {
        name: values.take_template("name"),
        namespace: values.take_maybe_template("namespace"),
        scope,
        content: content(values, inner),
        at: spot.at,
    })
}

fn comment(spot: Spot, values: &mut Values, inner: &mut Inner) -> Item
    ensures { result ≡ Item.Instruction (Instr.Comment (content_by (spec.as_expression (value_at (codes "select") (values_in values.old))) inner.old.text) spot.at) }
{
    Item::Instruction(Instr::Comment {
        content: content(values, inner),
        at: spot.at,
    })
}

fn instruction(spot: Spot, scope: List<Binding>, values: &mut Values, inner: &mut Inner) -> Item
    ensures { result ≡ Item.Instruction (Instr.Pi (spec.template (codes "name") (values_in values.old)) scope (content_by (spec.as_expression (value_at (codes "select") (values_in values.old))) inner.old.text) spot.at) }
{
    Item::Instruction(Instr::Pi {
        name: values.take_template("name"),
        scope,
        content: content(values, inner),
        at: spot.at,
    })
}

fn message(spot: Spot, values: &mut Values, inner: &mut Inner) -> Item
    ensures { result ≡ Item.Instruction (Instr.Message (content_by (spec.as_expression (value_at (codes "select") (values_in values.old))) inner.old.text) spot.at) }
{
    Item::Instruction(Instr::Message {
        content: content(values, inner),
        at: spot.at,
    })
}

fn choose(spot: Spot, inner: &mut Inner) -> Item
    ensures { result ≡ Item.Instruction (Instr.Choose inner.old.branches inner.old.otherwise spot.at) }
{
    Item::Instruction(Instr::Choose {
        whens: inner.take_branches(),
        other: inner.take_otherwise(),
        at: spot.at,
    })
}

fn for_each_item(spot: Spot, values: &mut Values, inner: &mut Inner) -> Item
    ensures { result ≡ Item.Instruction (Instr.ForEachItem (spec.name (values_in values.old)) (spec.select (values_in values.old)) inner.old.body spot.at) }
{
    Item::Instruction(Instr::ForEachItem {
        name: values.take_name(),
        select: values.take_expression("select"),
        body: inner.take_body(),
        at: spot.at,
    })
}

fn while_holds(spot: Spot, values: &mut Values, inner: &mut Inner) -> Item
    ensures { result ≡ Item.Instruction (Instr.While (spec.test (values_in values.old)) inner.old.body spot.at) }
{
    Item::Instruction(Instr::While {
        test: values.take_expression("test"),
        body: inner.take_body(),
        at: spot.at,
    })
}

fn assign(spot: Spot, values: &mut Values) -> Item
    ensures { result ≡ Item.Instruction (Instr.Assign (spec.name (values_in values.old)) (spec.select (values_in values.old)) spot.at) }
{
    Item::Instruction(Instr::Assign {
        name: values.take_name(),
        select: values.take_expression("select"),
        at: spot.at,
    })
}

fn call_procedure(spot: Spot, values: &mut Values, inner: &mut Inner) -> Item
    ensures { result ≡ Item.Instruction (Instr.CallProcedure (spec.name (values_in values.old)) inner.old.values spot.at) }
{
    Item::Instruction(Instr::CallProcedure {
        name: values.take_name(),
        params: inner.take_values(),
        at: spot.at,
    })
}

fn process_children(spot: Spot, values: &mut Values, inner: &mut Inner) -> Item
    ensures { result ≡ Item.Instruction (Instr.ProcessChildren (spec.group_in (values_in values.old)) inner.old.values spot.at) }
{
    Item::Instruction(Instr::ProcessChildren {
        group: values.take_maybe_name("group"),
        params: inner.take_values(),
        at: spot.at,
    })
}

fn process_attributes(spot: Spot, values: &mut Values, inner: &mut Inner) -> Item
    ensures { result ≡ Item.Instruction (Instr.ProcessAttributes (spec.group_in (values_in values.old)) inner.old.values spot.at) }
{
    Item::Instruction(Instr::ProcessAttributes {
        group: values.take_maybe_name("group"),
        params: inner.take_values(),
        at: spot.at,
    })
}

fn process_self(spot: Spot, values: &mut Values, inner: &mut Inner) -> Item
    ensures { result ≡ Item.Instruction (Instr.ProcessSelf (spec.group_in (values_in values.old)) inner.old.values spot.at) }
{
    Item::Instruction(Instr::ProcessSelf {
        group: values.take_maybe_name("group"),
        params: inner.take_values(),
        at: spot.at,
    })
}

fn process_siblings(spot: Spot, values: &mut Values, inner: &mut Inner) -> Item
    ensures { result ≡ Item.Instruction (Instr.ProcessSiblings (spec.as_pattern (value_at (codes "while") (values_in values.old))) (spec.as_pattern (value_at (codes "until") (values_in values.old))) (spec.group_in (values_in values.old)) inner.old.values spot.at) }
{
    Item::Instruction(Instr::ProcessSiblings {
        going: values.take_maybe_pattern("while"),
        until: values.take_maybe_pattern("until"),
        group: values.take_maybe_name("group"),
        params: inner.take_values(),
        at: spot.at,
    })
}

fn process_buffer(spot: Spot, values: &mut Values, inner: &mut Inner) -> Item
    ensures { result ≡ Item.Instruction (Instr.ProcessBuffer (spec.name (values_in values.old)) (spec.group_in (values_in values.old)) inner.old.values spot.at) }
{
    Item::Instruction(Instr::ProcessBuffer {
        name: values.take_name(),
        group: values.take_maybe_name("group"),
        params: inner.take_values(),
        at: spot.at,
    })
}

fn process_document(spot: Spot, values: &mut Values, inner: &mut Inner) -> Item
    ensures { result ≡ Item.Instruction (Instr.ProcessDocument (spec.template (codes "href") (values_in values.old)) (spec.group_in (values_in values.old)) inner.old.values spot.at) }
{
    Item::Instruction(Instr::ProcessDocument {
        href: values.take_template("href"),
        group: values.take_maybe_name("group"),
        params: inner.take_values(),
        at: spot.at,
    })
}

fn result_buffer(spot: Spot, values: &mut Values, inner: &mut Inner) -> Item
    ensures { result ≡ Item.Instruction (Instr.ResultBuffer (spec.name (values_in values.old)) (spec.is_yes (value_at (codes "clear") (values_in values.old))) inner.old.body spot.at) }
{
    Item::Instruction(Instr::ResultBuffer {
        name: values.take_name(),
        clear: values.is_yes("clear"),
        body: inner.take_body(),
        at: spot.at,
    })
}

fn if_holds(spot: Spot, values: &mut Values, inner: &mut Inner) -> Item
    ensures { result ≡ Item.If (spec.test (values_in values.old)) inner.old.body spot.at }
{
    Item::If {
        test: values.take_expression("test"),
        body: inner.take_body(),
        at: spot.at,
    }
}

fn when(values: &mut Values, inner: &mut Inner) -> When
    ensures { result ≡ record { test = spec.test (values_in values.old); body = inner.old.body } }
{
    When {
        test: values.take_expression("test"),
        body: inner.take_body(),
    }
}

fn local(spot: Spot, values: &mut Values) -> Item
    ensures { result ≡ Item.Local (spec.name (values_in values.old)) (spec.as_expression (value_at (codes "select") (values_in values.old))) spot.at }
{
    Item::Local {
        name: values.take_name(),
        select: values.take_maybe_expression("select"),
        at: spot.at,
    }
}

fn with_param(values: &mut Values) -> WithParam
    ensures { result ≡ record { name = spec.name (values_in values.old); select = spec.select (values_in values.old) } }
{
    WithParam {
        name: values.take_name(),
        select: values.take_expression("select"),
    }
}

/// What an element comes to that was read to its end, in a body, a choose or a process instruction, or as a parameter: by its
/// values, the declarations in force at it, and what its list came to.
pub fn item(
    alloc: Global,
    kind: Kind,
    spot: Spot,
    scope: &List<Binding>,
    values: &mut Values,
    inner: &mut Inner,
) -> Result<Option<Item>, Memory>
    ensures { IfOk result (λ made. (items : List reading.Item) → Holds items inner.old → option_to_list (option_map item_of made) ≡ spec.item (kind_of kind) spot.group spot.at scope.now (values_in values.old) items) }
{
    match kind {
        Kind::ValueOf => Ok(Some(value_of(spot, values))),
        Kind::Chars => Ok(Some(chars(spot, inner))),
        Kind::Copy => Ok(Some(copy(spot, values, inner))),
        Kind::Element => Ok(Some(element(spot, scope.copy(alloc)?, values, inner))),
        Kind::StartElement => Ok(Some(start_element(spot, scope.copy(alloc)?, values))),
        Kind::EndElement => Ok(Some(end_element(spot, scope.copy(alloc)?, values))),
        Kind::Attribute => Ok(Some(attribute(spot, scope.copy(alloc)?, values, inner))),
        Kind::Comment => Ok(Some(comment(spot, values, inner))),
        Kind::Instruction => Ok(Some(instruction(spot, scope.copy(alloc)?, values, inner))),
        Kind::Message => Ok(Some(message(spot, values, inner))),
        Kind::Choose => Ok(Some(choose(spot, inner))),
        Kind::ForEachItem => Ok(Some(for_each_item(spot, values, inner))),
        Kind::While => Ok(Some(while_holds(spot, values, inner))),
        Kind::Assign => Ok(Some(assign(spot, values))),
        Kind::CallProcedure => Ok(Some(call_procedure(spot, values, inner))),
        Kind::ProcessChildren => Ok(Some(process_children(spot, values, inner))),
        Kind::ProcessAttributes => Ok(Some(process_attributes(spot, values, inner))),
        Kind::ProcessSelf => Ok(Some(process_self(spot, values, inner))),
        Kind::ProcessSiblings => Ok(Some(process_siblings(spot, values, inner))),
        Kind::ProcessBuffer => Ok(Some(process_buffer(spot, values, inner))),
        Kind::ProcessDocument => Ok(Some(process_document(spot, values, inner))),
        Kind::ResultBuffer => Ok(Some(result_buffer(spot, values, inner))),
        Kind::If => Ok(Some(if_holds(spot, values, inner))),
        Kind::Else => Ok(Some(Item::Else(inner.take_body()))),
        Kind::When => Ok(Some(Item::Branch(when(values, inner)))),
        Kind::Otherwise => Ok(Some(Item::Otherwise(inner.take_body()))),
        Kind::Variable => Ok(Some(local(spot, values))),
        Kind::Param => Ok(Some(Item::Param(variable(spot, true, values)))),
        Kind::WithParam => Ok(Some(Item::Value(with_param(values)))),
        Kind::Transform
        | Kind::Group
        | Kind::Template
        | Kind::Procedure
        | Kind::Include
        | Kind::Buffer => Ok(None),
    }
}
