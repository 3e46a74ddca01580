//! What the expressions, templates and contents of a sheet give.

ghost use Rattle.std.specs.Prelude.{◌≡◌, ◌∷◌, [], ◌++◌, ◌-◌, ◌<◌, ℕ, List as Items, ◌≤◌, nat_lt, IfOk, Ok, All, length, true, unwrap_or, slice_get};
ghost use Rattle.std.specs.Option.{option_copied, ForSome};
ghost use Rattle.std.specs.Result.{result_map_both};
ghost use Rattle.std.specs.Str.{chars};
ghost use Rattle.node_stack.specs.Open.{node_of};
ghost use Rattle.node_stack.specs.Path as paths;
ghost use Rattle.node_stack.specs.Path.{is_told};
ghost use Rattle.node_stack.specs.Stack.{path};
ghost use Rattle.stxpath_eval.specs.Env.{setting};
ghost use Rattle.stxpath_eval.specs.Nodes.{referred, referred_at};
ghost use Rattle.stxpath_eval.specs.Value as eval;
ghost use Rattle.stxpath_syntax.specs.Shape.{CanBeEvaluated};
ghost use Rattle.stxpath_values.specs.Conversion as conversion;
ghost use Rattle.stxpath_values.specs.Functions.{limited_text};
ghost use Rattle.stxpath_values.specs.Outcome.{and_then, each, IsAnswer};
ghost use Rattle.stxpath_values.specs.Words.{joined};
ghost use Rattle.template_machine.specs.Evaluating.{seen, ContentCanBeEvaluated, PartCanBeEvaluated, TemplateCanBeEvaluated, parted_text};
ghost use Rattle.template_machine.specs.Values as spec;

pub use crate::setting::Setting;
use node_stack::{NodeStack, NodeView};
use sheet_model::Content;
use std::alloc::Global;
use stx_base::{Copied, List, Memory, Text};
use stxpath_eval::{Env, Vars, eval, eval_atoms, eval_text, eval_truth, text};
use stxpath_syntax::{Avt, AvtPart, Expr};
use stxpath_values::{Atom, EvalFault, EvalStop, Item, NodeRef, to_text};

impl<V: Vars> Setting<'_, V> {
    /// The last node of the path is the current one.
    fn env(&self) -> Env<'_, V>
        ensures seen { setting V.value_of self.now.stack.now result ≡ seen V.value_of self.now }
        ensures place { result.place < length (path self.now.stack.now).nodes }
        ensures told { is_told (path self.now.stack.now) result.place result.test.now ≡ true }
    {
        let place = self.stack.len() - 1;
        Env {
            vars: &self.vars,
            place,
            test: self.test,
            limits: self.limits,
        }
    }

    fn items(&self, expr: &Expr) -> Result<List<Item>, EvalStop>
        requires { CanBeEvaluated expr.now }
        ensures { IsAnswer result (eval.value expr.now (seen V.value_of self.now)) }
    {
        let env = self.env();
        eval(self.alloc, expr, self.stack, &env)
    }

    /// A value that is kept: nodes are their string values.
    pub fn value(&self, expr: &Expr) -> Result<List<Atom>, EvalStop>
        requires { CanBeEvaluated expr.now }
        ensures { IsAnswer result (spec.atoms_of expr.now (seen V.value_of self.now)) }
    {
        let env = self.env();
        eval_atoms(self.alloc, expr, self.stack, &env)
    }

    /// The same, or the empty text where there is no expression.
    pub fn value_or_empty(&self, expr: &Option<Expr>) -> Result<List<Atom>, EvalStop>
        requires { ForSome expr.now CanBeEvaluated }
        ensures { IsAnswer result (spec.selected expr.now (seen V.value_of self.now)) }
    {
        match expr {
            Some(expr) => self.value(expr),
            None => Ok(text_value(self.alloc, Text::new(self.alloc))?),
        }
    }

    pub fn truth(&self, expr: &Expr) -> Result<bool, EvalStop>
        requires { CanBeEvaluated expr.now }
        ensures { IsAnswer result (spec.truth_of expr.now (seen V.value_of self.now)) }
    {
        let env = self.env();
        eval_truth(self.alloc, expr, self.stack, &env)
    }

    /// An expression as a text, its items with a space between.
    pub fn text(&self, expr: &Expr) -> Result<Text, EvalStop>
        requires { CanBeEvaluated expr.now }
        ensures { IsAnswer result (spec.text_of expr.now (seen V.value_of self.now)) }
    {
        let env = self.env();
        eval_text(self.alloc, " ", expr, self.stack, &env)
    }

    /// The same with another separator, which is asked for behind the items.
    pub fn parted_text(&self, expr: &Expr, separator: &Avt) -> Result<Text, EvalStop>
        requires expr { CanBeEvaluated expr.now }
        requires separator { TemplateCanBeEvaluated separator.now }
        ensures { IsAnswer result (parted_text expr.now separator.now (seen V.value_of self.now)) }
    {
        let items = self.items(expr)?;
        let between = self.template(separator)?;
        if items.len() > 1 {
            return self.joined(&between, &items);
        }
        self.only(items)
    }

    /// Several items as one text.
    fn joined(&self, separator: &Text, items: &List<Item>) -> Result<Text, EvalStop>
        requires { 1 < length items.now }
        ensures { IsAnswer result (spec.items_text (seen V.value_of self.now) separator.now items.now) }
    {
        text(self.alloc, separator, items, self.stack, self.limits)
    }

    /// The text of one item or none, which isn't measured.
    fn only(&self, items: List<Item>) -> Result<Text, EvalStop>
        requires { length items ≤ 1 }
        ensures { (separator : Items ℕ) → IsAnswer result (spec.items_text (seen V.value_of self.now) separator items) }
    {
        let mut items = items;
        match items.pop() {
            None => Ok(Text::new(self.alloc)),
            Some(Item::Atom(atom)) => atom_text(self.alloc, atom),
            Some(Item::Node(node)) => node_text(self.alloc, self.stack, node),
        }
    }

    /// An attribute value template as a text. Only where it has several parts is the text measured.
    pub fn template(&self, template: &Avt) -> Result<Text, EvalStop>
        requires { TemplateCanBeEvaluated template.now }
        ensures { IsAnswer result (spec.template_text template.now (seen V.value_of self.now)) }
    {
        match template.parts.as_slice() {
            [] => Ok(Text::new(self.alloc)),
            [part] => self.part(part),
            parts => self.parts(parts),
        }
    }

    /// The texts of parts in a row, measured.
    fn parts(&self, parts: &[AvtPart]) -> Result<Text, EvalStop>
        requires { All PartCanBeEvaluated parts.now }
        ensures { IsAnswer result (and_then (each (spec.part_text (seen V.value_of self.now)) parts.now) (λ texts. limited_text self.now.limits.now (joined [] texts))) }
    {
        let whole = self.in_a_row(parts)?;
        if is_longer(&whole, self.limits.text) {
            return Err(EvalStop::Fault(EvalFault::TextTooLong));
        }
        Ok(whole)
    }

    fn in_a_row(&self, parts: &[AvtPart]) -> Result<Text, EvalStop>
        requires { All PartCanBeEvaluated parts.now }
        ensures { IsAnswer result (and_then (each (spec.part_text (seen V.value_of self.now)) parts.now) (λ texts. Ok (joined [] texts))) }
    {
        let mut whole = Text::new(self.alloc);
        for part in parts {
            self.push_part(&mut whole, part)?;
        }
        Ok(whole)
    }

    fn push_part(&self, whole: &mut Text, part: &AvtPart) -> Result<(), EvalStop>
        requires { PartCanBeEvaluated part.now }
        ensures { IsAnswer (result_map_both (λ _. whole.new) (λ stop. stop) result) (and_then (spec.part_text (seen V.value_of self.now) part.now) (λ text. Ok (whole.old ++ text))) }
    {
        match part {
            AvtPart::Chars(text) => Ok(whole.push_str(text.as_str())?),
            AvtPart::Value(expr) => {
                let text = self.text(expr)?;
                Ok(whole.push_str(text.as_str())?)
            }
        }
    }

    fn part(&self, part: &AvtPart) -> Result<Text, EvalStop>
        requires { PartCanBeEvaluated part.now }
        ensures { IsAnswer result (spec.part_text (seen V.value_of self.now) part.now) }
    {
        match part {
            AvtPart::Chars(text) => Ok(text.copy(self.alloc)?),
            AvtPart::Value(expr) => self.text(expr),
        }
    }

    /// The namespace that a template gives, if there is one.
    pub fn optional_template(&self, template: &Option<Avt>) -> Result<Option<Text>, EvalStop>
        requires { ForSome template.now TemplateCanBeEvaluated }
        ensures { IsAnswer result (spec.namespace_text template.now (seen V.value_of self.now)) }
    {
        match template {
            None => Ok(None),
            Some(template) => {
                let text = self.template(template)?;
                Ok(Some(text))
            }
        }
    }

    pub fn content(&self, content: &Content) -> Result<Text, EvalStop>
        requires { ContentCanBeEvaluated content.now }
        ensures { IsAnswer result (spec.content_text content.now (seen V.value_of self.now)) }
    {
        match content {
            Content::Select(expr) => self.text(expr),
            Content::Chars(text) => Ok(text.copy(self.alloc)?),
        }
    }
}

/// An atom as a text, which is taken over where it is one.
fn atom_text(alloc: Global, atom: Atom) -> Result<Text, EvalStop>
    ensures { IsAnswer result (Ok (conversion.atom_text atom)) }
{
    match atom {
        Atom::Chars(text) => Ok(text),
        atom => {
            let mut value = List::new(alloc);
            value.push(atom)?;
            to_text(alloc, &value)
        }
    }
}

/// The string value of a node that is referred to; empty where it isn't there.
fn node_text(alloc: Global, stack: &NodeStack, node: NodeRef) -> Result<Text, EvalStop>
    ensures { IsAnswer result (Ok (paths.text_of (referred (path stack.now) node))) }
{
    match string_value(stack, node) {
        Some(text) => Ok(text.copy(alloc)?),
        None => Ok(Text::new(alloc)),
    }
}

fn string_value(stack: &NodeStack, node: NodeRef) -> Option<&Text>
    ensures { unwrap_or (option_copied result) [] ≡ paths.text_of (referred (path stack.now) node) }
{
    if node.place >= stack.len() {
        return None;
    }
    match node.attr {
        None => Some(stack.string_value(node.place)),
        Some(index) => attribute_value(stack.view(node.place), index),
    }
}

fn attribute_value(node: NodeView<'_>, index: usize) -> Option<&Text>
    ensures { unwrap_or (option_copied result) [] ≡ paths.text_of (referred_at (Some index) (Some (node_of node.entry))) }
{
    match node {
        NodeView::Element { attrs, .. } => {
            let attr = attrs.get(index)?;
            Some(&attr.value)
        }
        _ => None,
    }
}

/// Whether a text has more characters than a limit. Most are known by their bytes.
fn is_longer(text: &Text, limit: u64) -> bool
    ensures { result ≡ nat_lt limit (length text.now) }
{
    let text = text.as_str();
    text.len() as u64 > limit && count(text) > limit
}

fn count(text: &str) -> u64
    ensures { result ≡ length (chars text.now) }
{
    text.chars().count() as u64
}

/// A text as a value.
pub fn text_value(alloc: Global, text: Text) -> Result<List<Atom>, Memory>
    ensures { IfOk result (λ value. value ≡ spec.text_value text) }
{
    let mut value = List::new(alloc);
    value.push(Atom::Chars(text))?;
    Ok(value)
}
