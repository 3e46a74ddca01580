//! The best alternatives of rows.

ghost use Rattle.std.specs.Prelude.{◌≡◌, ◌++◌, All, IfOk, Some, option_map, length};
ghost use Rattle.std.specs.List.{list_any};
ghost use Rattle.node_stack.specs.Stack.{path};
ghost use Rattle.sheet_model.specs.Sound.{IsSound};
ghost use Rattle.group_scope.specs.Asking as spec;
ghost use Rattle.group_scope.specs.Entries.{IsBestFirst};
ghost use Rattle.group_scope.specs.Rank.{improved};
ghost use Rattle.group_scope.specs.Rows.{Key as RowKey, row as row_of};

use crate::category::parent_of;
use crate::entry::Entry;
use crate::key::{Home, Key, Test};
use crate::rank::{Category, Rank};
use crate::rows::Rows;
use match_patterns::{GroupVars, InGroup, matches};
use node_stack::NodeStack;
use sheet_model::Sheet;
use std::alloc::Global;
use stx_base::{Limits, List, Memory};

/// For what node it is asked.
#[derive(Drop)]
pub struct Asking<'a, G: GroupVars> {
    pub sheet: &'a Sheet,
    /// The current node is the one.
    pub stack: &'a NodeStack,
    pub vars: &'a G,
    /// The templates that can't be chosen.
    pub active: &'a List<u32>,
    pub limits: &'a Limits,
}

impl<G: GroupVars> Asking<'_, G> {
    fn is_active(&self, template: u32) -> bool
        ensures { result ≡ spec.is_active self.now.active.now template }
    {
        self.active.as_slice().iter().any(|n| *n == template)
    }

    fn fits(&self, alloc: Global, entry: Entry) -> Result<bool, Memory>
        requires { IsSound self.now.sheet.now }
        ensures { IfOk result (λ b. b ≡ spec.entry_fits (spec.question self.now.sheet.now self.now.active.now (G.seen self.now.vars.now) self.now.limits.now (path self.now.stack.now)) entry) }
    {
        let Some(template) = self.sheet.templates.get(entry.template as usize) else {
            return Ok(false);
        };
        let place = entry.alternative as usize;
        let Some(alternative) = template.pattern.alternatives.get(place) else {
            return Ok(false);
        };
        let vars = InGroup {
            all: self.vars,
            group: template.group,
        };
        matches(alloc, alternative, self.stack, &vars, self.limits)
    }

    /// Whether an alternative can be chosen.
    fn can_be(&self, alloc: Global, entry: Entry) -> Result<bool, Memory>
        requires sound { IsSound self.now.sheet.now }
        requires sure { spec.IsSure (spec.question self.now.sheet.now self.now.active.now (G.seen self.now.vars.now) self.now.limits.now (path self.now.stack.now)) entry }
        ensures { IfOk result (λ b. b ≡ spec.can_be (spec.question self.now.sheet.now self.now.active.now (G.seen self.now.vars.now) self.now.limits.now (path self.now.stack.now)) entry) }
    {
        if self.is_active(entry.template) {
            return Ok(false);
        }
        if entry.by_test {
            return Ok(true);
        }
        self.fits(alloc, entry)
    }

    /// The best of one, if there is one, and a row: the first of the row that can be chosen, where it is better.
    fn best_in_row(
        &self,
        alloc: Global,
        category: Category,
        row: &[Entry],
        best: Option<Rank>,
    ) -> Result<Option<Rank>, Memory>
        requires sound { IsSound self.now.sheet.now }
        requires ordered { IsBestFirst row.now }
        requires sure { All (spec.IsSure (spec.question self.now.sheet.now self.now.active.now (G.seen self.now.vars.now) self.now.limits.now (path self.now.stack.now))) row.now }
        ensures { IfOk result (λ r. r ≡ improved best (spec.ranks (spec.question self.now.sheet.now self.now.active.now (G.seen self.now.vars.now) self.now.limits.now (path self.now.stack.now)) category row.now)) }
    {
        for entry in row {
            let rank = entry.ranked(category);
            if !is_better_than_best(rank, best) {
                return Ok(best);
            }
            if self.can_be(alloc, *entry)? {
                return Ok(Some(rank));
            }
        }
        Ok(best)
    }

    /// The same of one and all rows of a home.
    pub fn best_of_home(
        &self,
        alloc: Global,
        rows: &Rows,
        tests: &[Option<Test>],
        category: Category,
        home: Home,
        best: Option<Rank>,
    ) -> Result<Option<Rank>, Memory>
        requires sound { IsSound self.now.sheet.now }
        requires ordered { (key : RowKey) → IsBestFirst (row_of rows.now key) }
        requires sure { spec.AreSure (spec.question self.now.sheet.now self.now.active.now (G.seen self.now.vars.now) self.now.limits.now (path self.now.stack.now)) rows.now tests.now }
        ensures { IfOk result (λ r. r ≡ improved best (spec.ranks_of_home (spec.question self.now.sheet.now self.now.active.now (G.seen self.now.vars.now) self.now.limits.now (path self.now.stack.now)) rows.now tests.now category home)) }
    {
        let mut best = best;
        if !may_be_better(best, category) {
            return Ok(best);
        }
        if !rows.may_have(home) {
            return Ok(best);
        }
        for test in tests {
            if let Some(test) = test {
                let row = rows.get(Key { home, test: *test });
                best = self.best_in_row(alloc, category, row, best)?;
            }
        }
        Ok(best)
    }

    /// The same of one and all groups around a group, so many levels out.
    pub fn best_around(
        &self,
        alloc: Global,
        rows: &Rows,
        tests: &[Option<Test>],
        levels: usize,
        group: u32,
        best: Option<Rank>,
    ) -> Result<Option<Rank>, Memory>
        requires sound { IsSound self.now.sheet.now }
        requires ordered { (key : RowKey) → IsBestFirst (row_of rows.now key) }
        requires sure { spec.AreSure (spec.question self.now.sheet.now self.now.active.now (G.seen self.now.vars.now) self.now.limits.now (path self.now.stack.now)) rows.now tests.now }
        ensures { IfOk result (λ r. r ≡ improved best (spec.ranks_around (spec.question self.now.sheet.now self.now.active.now (G.seen self.now.vars.now) self.now.limits.now (path self.now.stack.now)) rows.now tests.now levels group)) }
    {
        let Some(fewer) = levels.checked_sub(1) else {
            return Ok(best);
        };
        let Some(outer) = parent_of(&self.sheet.groups, group) else {
            return Ok(best);
        };
        let home = Home::Within(outer);
        let best = self.best_of_home(alloc, rows, tests, Category::Around, home, best)?;
        self.best_around(alloc, rows, tests, fewer, outer, best)
    }
}

fn is_better_than_best(rank: Rank, best: Option<Rank>) -> bool
    ensures { result ≡ spec.is_better_than_best rank best }
{
    match best {
        Some(best) => rank.is_better(best),
        None => true,
    }
}

fn may_be_better(best: Option<Rank>, category: Category) -> bool
    ensures { result ≡ spec.may_be_better best category }
{
    match best {
        Some(best) => !best.category.is_less(category),
        None => true,
    }
}
