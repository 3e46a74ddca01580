//! A pattern's steps, walked from the last one backwards.

ghost use Rattle.std.specs.Prelude.{◌≡◌, ◌<◌, ◌↔◌, length, All, IfOk, IsTrue, None};
ghost use Rattle.node_stack.specs.Path as on_path;
ghost use Rattle.node_stack.specs.Stack.{path};
ghost use Rattle.match_patterns.specs.Fits.{at_current, may_follow};
ghost use Rattle.match_patterns.specs.Fits as spec;
ghost use Rattle.match_patterns.specs.Walk.{EndBefore, IsEnding};
ghost use Rattle.stxpath_eval.specs.Env.{setting};
ghost use Rattle.stxpath_eval.specs.Steps as eval;
ghost use Rattle.stxpath_eval.specs.Value.{value};
ghost use Rattle.stxpath_syntax.specs.Shape.{CanBeEvaluated};
ghost use Rattle.stxpath_syntax.specs.declared.expr.PathStep.{PathStep};

use node_stack::{NodeStack, passes};
use std::alloc::Global;
use stx_base::{Limits, Memory};
use stxpath_eval::{Env, Vars, holds};
use stxpath_syntax::{Expr, Link, PathStep as Step};
use stxpath_values::EvalStop;

/// Whether steps end at a place.
#[derive(Clone, Copy, Debug, PartialEq, Eq)]
pub enum Ending {
    Here,
    /// Not there.
    Elsewhere,
    /// Neither there nor at any place before it.
    NotBefore,
}

impl Ending {
    pub fn is_here(self) -> bool
        ensures { IsTrue result ↔ (self ≡ Ending.Here) }
    {
        matches!(self, Ending::Here)
    }
}

/// Whether steps end at a place. Of places for the steps before a `//` the latest are as good as any: where these steps
/// fit nowhere before a place, the steps behind them need not be tried at any earlier one.
#[cycle(walk)]
pub fn ends_at<V: Vars>(
    alloc: Global,
    steps: &[Step],
    place: usize,
    stack: &NodeStack,
    vars: &V,
    limits: &Limits,
) -> Result<Ending, Memory>
    requires place { place < length (path stack.now).nodes }
    requires predicates { All (λ (step : PathStep). All CanBeEvaluated step.predicates) steps.now }
    ensures { IfOk result (λ ending. IsEnding (at_current (V.value_of vars.now) limits.now (path stack.now)) steps.now place ending) }
{
    let Some((step, front)) = steps.split_last() else {
        return Ok(Ending::NotBefore);
    };
    if !step_fits(alloc, step, place, stack, vars, limits)? {
        return Ok(Ending::Elsewhere);
    }
    if front.is_empty() {
        return Ok(first_ending(step.link, place));
    }
    match step.link {
        Link::Start => Ok(Ending::NotBefore),
        Link::Slash => match place.checked_sub(1) {
            Some(before) => ends_at(alloc, front, before, stack, vars, limits),
            None => Ok(Ending::NotBefore),
        },
        Link::Deep => {
            if end_before(alloc, front, place, stack, vars, limits)? {
                Ok(Ending::Here)
            } else {
                Ok(Ending::NotBefore)
            }
        }
    }
}

/// Whether steps end at a place before another.
#[cycle(walk)]
fn end_before<V: Vars>(
    alloc: Global,
    steps: &[Step],
    place: usize,
    stack: &NodeStack,
    vars: &V,
    limits: &Limits,
) -> Result<bool, Memory>
    requires place { place < length (path stack.now).nodes }
    requires predicates { All (λ (step : PathStep). All CanBeEvaluated step.predicates) steps.now }
    ensures { IfOk result (λ found. IsTrue found ↔ EndBefore (at_current (V.value_of vars.now) limits.now (path stack.now)) steps.now place) }
{
    for before in (0..place).rev() {
        match ends_at(alloc, steps, before, stack, vars, limits)? {
            Ending::Here => return Ok(true),
            Ending::NotBefore => return Ok(false),
            Ending::Elsewhere => {}
        }
    }
    Ok(false)
}

/// How a first step, which fits a place, ends there.
pub fn first_ending(link: Link, place: usize) -> Ending
    ensures here { result ≡ Ending.Here ↔ IsTrue (may_follow link None place) }
    ensures elsewhere { result ≡ Ending.Elsewhere ↔ ¬ IsTrue (may_follow link None place) }
{
    let follows = match link {
        Link::Start => true,
        Link::Slash => place == 1,
        Link::Deep => place > 0,
    };
    if follows {
        Ending::Here
    } else {
        Ending::Elsewhere
    }
}

/// Whether the node at a place passes a step's test and predicates.
fn step_fits<V: Vars>(
    alloc: Global,
    step: &Step,
    place: usize,
    stack: &NodeStack,
    vars: &V,
    limits: &Limits,
) -> Result<bool, Memory>
    requires place { place < length (path stack.now).nodes }
    requires predicates { All CanBeEvaluated step.now.predicates }
    ensures { IfOk result (λ fits. fits ≡ spec.step_fits step.now (at_current (V.value_of vars.now) limits.now (path stack.now)) place) }
{
    if !passes(&step.test, stack.view(place)) {
        return Ok(false);
    }
    let env = Env {
        vars,
        place,
        test: &step.test,
        limits,
    };
    for predicate in step.predicates.as_slice() {
        if !holds_surely(alloc, predicate, stack, &env)? {
            return Ok(false);
        }
    }
    Ok(true)
}

/// Whether a predicate holds of the current node; one that faults doesn't.
fn holds_surely<V: Vars>(
    alloc: Global,
    predicate: &Expr,
    stack: &NodeStack,
    env: &Env<'_, V>,
) -> Result<bool, Memory>
    requires place { env.now.place < length (path stack.now).nodes }
    requires told { IsTrue (on_path.is_told (path stack.now) env.now.place env.now.test.now) }
    requires predicate { CanBeEvaluated predicate.now }
    ensures { IfOk result (λ b. b ≡ spec.surely (eval.holds (value predicate.now) (setting V.value_of stack.now env.now))) }
{
    match holds(alloc, predicate, stack, env) {
        Ok(truth) => Ok(truth),
        Err(EvalStop::Fault(_)) => Ok(false),
        Err(EvalStop::Memory) => Err(Memory),
    }
}
