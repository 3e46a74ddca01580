//! The choice among all templates in the order of the sheet.

ghost use Rattle.std.specs.Prelude.{◌≡◌, ◌<◌, ◌^◌, ◌==◌, All, IfOk, Some, option_map, length};
ghost use Rattle.std.specs.List.{list_any};
ghost use Rattle.node_stack.specs.Stack.{path};
ghost use Rattle.group_scope.specs.Choice as spec;
ghost use Rattle.group_scope.specs.Rank.{improved};
ghost use Rattle.sheet_model.specs.Sound.{IsSound};
ghost use Rattle.stxpath_syntax.specs.Shape.{PredicatesCanBeEvaluated};

use crate::category::category;
use crate::choosing::{chosen_of, priority};
use crate::rank::{Category, Chosen, Rank, better_of};
use match_patterns::{GroupVars, InGroup, matches};
use node_stack::NodeStack;
use sheet_model::{Sheet, Template};
use std::alloc::Global;
use stx_base::{Limits, List, Memory};
use stxpath_syntax::Alternative;

/// The choice for the current node: the best alternative that fits, of a template that the base group sees and that isn't
/// active.
pub fn choose<G: GroupVars>(
    alloc: Global,
    sheet: &Sheet,
    base: u32,
    stack: &NodeStack,
    vars: &G,
    active: &List<u32>,
    limits: &Limits,
) -> Result<Option<Chosen>, Memory>
    requires { IsSound sheet.now }
    ensures { IfOk result (λ choice. choice ≡ option_map spec.chosen_of (spec.chosen sheet.now base active.now (spec.settings (G.seen vars.now) limits.now (path stack.now)))) }
{
    let mut best = None;
    for (index, template) in sheet.templates.as_slice().iter().enumerate() {
        let number = index as u32;
        if is_active(active, number) {
            continue;
        }
        if let Some(category) = category(sheet, base, template) {
            best = best_with(alloc, best, number, template, category, stack, vars, limits)?;
        }
    }
    Ok(chosen_of(best))
}

fn is_active(active: &List<u32>, number: u32) -> bool
    ensures { result ≡ list_any (λ n. n == number) active.now }
{
    active.as_slice().iter().any(|n| *n == number)
}

/// The best of one, if there is one, and the alternatives of a template that fit.
fn best_with<G: GroupVars>(
    alloc: Global,
    best: Option<Rank>,
    number: u32,
    template: &Template,
    category: Category,
    stack: &NodeStack,
    vars: &G,
    limits: &Limits,
) -> Result<Option<Rank>, Memory>
    requires few { length template.now.pattern.alternatives < 2 ^ 32 }
    requires predicates { All PredicatesCanBeEvaluated template.now.pattern.alternatives }
    ensures { IfOk result (λ r. r ≡ improved best (spec.fitting (spec.settings (G.seen vars.now) limits.now (path stack.now)) (spec.seen_by number template.now (Some category)))) }
{
    let vars = InGroup {
        all: vars,
        group: template.group,
    };
    let mut best = best;
    for (place, alternative) in template.pattern.alternatives.as_slice().iter().enumerate() {
        if matches(alloc, alternative, stack, &vars, limits)? {
            let rank = rank_of(template, alternative, category, number, place as u32);
            best = Some(better_of(best, rank));
        }
    }
    Ok(best)
}

fn rank_of(
    template: &Template,
    alternative: &Alternative,
    category: Category,
    number: u32,
    place: u32,
) -> Rank
    ensures { result ≡ spec.rank_of template.now alternative.now category number place }
{
    Rank {
        category,
        priority: priority(template, alternative),
        template: number,
        alternative: place,
    }
}
