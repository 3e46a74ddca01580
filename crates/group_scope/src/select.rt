//! The choice of a template.

ghost use Rattle.std.specs.Prelude.{◌≡◌, ◌∷◌, [], IfOk, Some, option_map, take};
ghost use Rattle.std.specs.Bool.{OnFalse};
ghost use Rattle.node_stack.specs.Open.{node_of};
ghost use Rattle.node_stack.specs.Path.{kind_of};
ghost use Rattle.node_stack.specs.Stack.{path};
ghost use Rattle.sheet_model.specs.Sound.{IsSound};
ghost use Rattle.group_scope.specs.Choice as spec;
ghost use Rattle.group_scope.specs.Rows.{NoRows};
ghost use Rattle.group_scope.specs.Scopes.{IsScopeOf};
ghost use Rattle.group_scope.specs.Words.{asked, of_element};
ghost use Rattle.group_scope.specs.declared.key.Test.TheVariants as test;

use crate::asking::Asking;
use crate::choosing::chosen_of;
use crate::key::{Home, Test};
use crate::rank::{Category, Chosen, Rank};
use crate::scope::Scope;
use match_patterns::GroupVars;
use node_stack::{NodeStack, NodeView};
use sheet_model::Sheet;
use std::alloc::Global;
use stx_base::{Limits, List, Memory, Name};

impl Scope {
    /// The choice for the current node: the best alternative that fits, of a template that the base group sees and that
    /// isn't active. It asks only the rows to which the node's kind and name lead, and none where no row can be for them.
    #[inline(always)]
    pub fn select<G: GroupVars>(
        &self,
        alloc: Global,
        sheet: &Sheet,
        base: u32,
        stack: &NodeStack,
        vars: &G,
        active: &List<u32>,
        limits: &Limits,
    ) -> Result<Option<Chosen>, Memory>
        requires sound { IsSound sheet.now }
        requires built { IsScopeOf sheet.now self.now }
        ensures { IfOk result (λ choice. choice ≡ option_map spec.chosen_of (spec.chosen sheet.now base active.now (spec.settings (G.seen vars.now) limits.now (path stack.now)))) }
    {
        if !self.may_have(stack.current()) {
            return Ok(None);
        }
        self.select_by_rows(alloc, sheet, base, stack, vars, active, limits)
    }

    /// The same of any node.
    #[inline(never)]
    fn select_by_rows<G: GroupVars>(
        &self,
        alloc: Global,
        sheet: &Sheet,
        base: u32,
        stack: &NodeStack,
        vars: &G,
        active: &List<u32>,
        limits: &Limits,
    ) -> Result<Option<Chosen>, Memory>
        requires sound { IsSound sheet.now }
        requires built { IsScopeOf sheet.now self.now }
        ensures { IfOk result (λ choice. choice ≡ option_map spec.chosen_of (spec.chosen sheet.now base active.now (spec.settings (G.seen vars.now) limits.now (path stack.now)))) }
    {
        let asking = Asking {
            sheet,
            stack,
            vars,
            active,
            limits,
        };
        let best = self.best(alloc, base, &asking)?;
        Ok(chosen_of(best))
    }

    /// Whether a row may be for a node, by its kind and its name: it is true wherever one is. It may be true of others as
    /// well, since their rows are asked then, and have nothing for them.
    #[inline(always)]
    fn may_have(&self, node: NodeView<'_>) -> bool
        ensures { OnFalse result (NoRows self.now.rows (asked self.now.words (kind_of (node_of node.entry)))) }
    {
        if self.rows.may_have_kind(Test::AnyNode) {
            return true;
        }
        match node {
            NodeView::Document => self.rows.may_have_kind(Test::Document),
            NodeView::Element { name, .. } => self.may_have_element(name),
            NodeView::Chars(_) => self.rows.may_have_kind(Test::Chars),
            NodeView::CData(_) => self.may_have_cdata(),
            NodeView::Comment(_) => self.rows.may_have_kind(Test::Comment),
            NodeView::Pi { .. } => true,
            NodeView::Attribute(_) => true,
        }
    }

    /// The same of an element, by its name.
    #[inline(always)]
    fn may_have_element(&self, name: &Name) -> bool
        ensures { OnFalse result (NoRows self.now.rows (take 3 (of_element self.now.words name.now))) }
    {
        if self.rows.may_have_kind(Test::AnyElement) {
            return true;
        }
        if self.rows.may_have_kind(Test::Prefix(None)) {
            return true;
        }
        if !self.rows.may_have_kind(Test::Name(None, None)) {
            return false;
        }
        if self.rows.may_have_unknown() {
            return true;
        }
        self.words.may_have(&name.local)
    }

    /// The same of a CDATA section.
    fn may_have_cdata(&self) -> bool
        ensures { OnFalse result (NoRows self.now.rows (Some test.CData ∷ Some test.Chars ∷ [])) }
    {
        if self.rows.may_have_kind(Test::CData) {
            return true;
        }
        self.rows.may_have_kind(Test::Chars)
    }

    fn best<G: GroupVars>(
        &self,
        alloc: Global,
        base: u32,
        asking: &Asking<'_, G>,
    ) -> Result<Option<Rank>, Memory>
        requires sound { IsSound asking.now.sheet.now }
        requires built { IsScopeOf asking.now.sheet.now self.now }
        ensures { IfOk result (λ r. r ≡ spec.chosen asking.now.sheet.now base asking.now.active.now (spec.settings (G.seen asking.now.vars.now) asking.now.limits.now (path asking.now.stack.now))) }
    {
        let rows = &self.rows;
        let last = asking.stack.len() - 1;
        let node = asking.stack.view(last);
        let tests = self.words.asked(node);
        let levels = asking.sheet.groups.len();
        let home = Home::Own(base);
        let own = asking.best_of_home(alloc, rows, &tests, Category::Own, home, None)?;
        let inner = asking.best_around(alloc, rows, &tests, levels, base, own)?;
        let home = Home::Everywhere;
        asking.best_of_home(alloc, rows, &tests, Category::Everywhere, home, inner)
    }
}
