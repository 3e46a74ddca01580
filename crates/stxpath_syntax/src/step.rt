//! One token's part of the parser's work.

ghost use Rattle.std.specs.Prelude.{◌≡◌, ◌+◌, ◌<◌, ◌^◌, IfOk};
ghost use Rattle.stxpath_syntax.specs.Counts.{CanCount, StateCanCount, mode_count};
ghost use Rattle.stxpath_syntax.specs.Machine as spec;

use crate::dialect::Dialect;
use crate::expr::{Alternative, Expr};
use crate::meant;
use crate::meant::Meant;
use crate::operand::{complete, function, gather, operand};
use crate::path::{
    above, after_name, after_root, after_target, after_type, all_steps, attribute,
    begin_alternative, begin_step, higher, named_walk, walk_on,
};
use crate::stack::Stack;
use crate::state::{Frame, Mode, Named, State, Walk};
use crate::stop::{Stop, stuck};
use crate::token::{Placed, Token};
use crate::words::name_of;
use std::alloc::Global;
use stx_base::{Binding, List, Memory};

/// The name behind `$`.
fn variable(alloc: Global, scope: &List<Binding>, placed: Placed) -> Result<Mode, Stop>
    ensures { spec.Takes (spec.variable scope.now placed.at placed.token) result }
{
    let Placed { token, at } = placed;
    match token {
        Token::Name(name) => {
            let name = name_of(alloc, scope, name, at)?;
            Ok(Mode::Complete(meant::var(name)))
        }
        _ => Err(Stop::Stuck),
    }
}

fn turn(
    alloc: Global,
    dialect: Dialect,
    scope: &List<Binding>,
    stack: &mut Stack<Frame>,
    mode: Mode,
    placed: Placed,
) -> Result<Mode, Stop>
    requires frames { CanCount stack.old }
    requires mode { mode_count mode + 1 < 2 ^ 64 }
    ensures { spec.Turns (spec.turn dialect scope.now stack.old mode placed.at placed.token) result stack.new }
{
    match mode {
        Mode::Operand => operand(alloc, stack, placed),
        Mode::Complete(last) => complete(alloc, stack, last, &placed),
        Mode::Variable => variable(alloc, scope, placed),
        Mode::Function { name, at } => function(alloc, stack, name, at, placed.token),
        Mode::Root => after_root(alloc, scope, stack, placed),
        Mode::Alternative => begin_alternative(alloc, scope, stack, placed),
        Mode::Step(begun) => begin_step(alloc, scope, stack, begun, placed),
        Mode::Named(named) => after_name(alloc, dialect, scope, stack, named, placed),
        Mode::Kind { begun, test } => after_type(alloc, begun, test, placed.token),
        Mode::Target { begun, target } => after_target(alloc, begun, target, placed.token),
        Mode::Walked(walk) => walk_on(alloc, stack, walk, placed),
        Mode::Attribute(owner) => attribute(alloc, scope, owner, placed),
        Mode::Above(count) => above(alloc, stack, count, placed),
        Mode::Higher(count) => higher(count, placed.token),
    }
}

/// What follows the token, or that no reading goes on with it.
#[tactic(auto, unfolding(crate::specs::Machine::step))]
pub fn step(
    alloc: Global,
    dialect: Dialect,
    scope: &List<Binding>,
    state: State,
    placed: Placed,
) -> Result<State, Stop>
    requires { StateCanCount state }
    ensures { spec.Takes (spec.step dialect scope.now state placed) result }
{
    let State { mut stack, mode } = state;
    let mode = turn(alloc, dialect, scope, &mut stack, mode, placed)?;
    Ok(State { stack, mode })
}

/// The path that ends with a step.
fn whole_path(walk: Walk) -> Result<Meant<Expr>, Memory>
    ensures { IfOk result (λ path. path ≡ spec.whole_path walk) }
{
    let steps = all_steps(walk)?;
    Ok(meant::abs(steps, meant::untested()))
}

/// The path that ends with a name.
fn named_path(alloc: Global, scope: &List<Binding>, named: Named) -> Result<Meant<Expr>, Memory>
    ensures { IfOk result (λ path. path ≡ spec.whole_path (spec.named_walk scope.now named)) }
{
    let walk = named_walk(alloc, scope, named)?;
    whole_path(walk)
}

/// The operand that ends with the last token, if it may end there.
fn last_operand(alloc: Global, scope: &List<Binding>, mode: Mode) -> Result<Meant<Expr>, Stop>
    ensures { spec.Takes (spec.last_operand scope.now mode) result }
{
    match mode {
        Mode::Complete(operand) => Ok(operand),
        Mode::Root => Ok(meant::root()),
        Mode::Above(count) => Ok(meant::up(count, meant::untested())),
        Mode::Walked(walk) => Ok(whole_path(walk)?),
        Mode::Named(named) => Ok(named_path(alloc, scope, named)?),
        other => stuck(other),
    }
}

/// The whole expression, where the tokens are one.
#[tactic(auto, unfolding(crate::specs::Machine::end_of_expression))]
pub fn end_of_expression(
    alloc: Global,
    scope: &List<Binding>,
    state: State,
) -> Result<Meant<Expr>, Stop>
    ensures { spec.Takes (spec.end_of_expression scope.now state) result }
{
    let State { mut stack, mode } = state;
    let last = last_operand(alloc, scope, mode)?;
    let whole = gather(alloc, 0, &mut stack, last)?;
    if stack.is_empty() {
        Ok(whole)
    } else {
        stuck(whole)
    }
}

/// The alternative that ends with a step.
fn whole_alternative(walk: Walk) -> Result<Meant<Alternative>, Memory>
    ensures { IfOk result (λ last. last ≡ spec.whole_alternative walk) }
{
    let steps = all_steps(walk)?;
    Ok(meant::steps(steps))
}

/// The alternative that ends with a name.
fn named_alternative(
    alloc: Global,
    scope: &List<Binding>,
    named: Named,
) -> Result<Meant<Alternative>, Memory>
    ensures { IfOk result (λ last. last ≡ spec.whole_alternative (spec.named_walk scope.now named)) }
{
    let walk = named_walk(alloc, scope, named)?;
    whole_alternative(walk)
}

/// The alternative that ends with the last token, if it may end there.
fn last_alternative(
    alloc: Global,
    scope: &List<Binding>,
    mode: Mode,
) -> Result<Meant<Alternative>, Stop>
    ensures { spec.Takes (spec.last_alternative scope.now mode) result }
{
    match mode {
        Mode::Root => Ok(meant::flat(Alternative::Root)),
        Mode::Walked(walk) => Ok(whole_alternative(walk)?),
        Mode::Named(named) => Ok(named_alternative(alloc, scope, named)?),
        other => stuck(other),
    }
}

/// The whole pattern's alternatives, where the tokens are one.
#[tactic(auto, unfolding(crate::specs::Machine::end_of_pattern))]
pub fn end_of_pattern(
    alloc: Global,
    scope: &List<Binding>,
    state: State,
) -> Result<Meant<List<Alternative>>, Stop>
    ensures { spec.Takes (spec.end_of_pattern scope.now state) result }
{
    let State { mut stack, mode } = state;
    let last = last_alternative(alloc, scope, mode)?;
    let Some(frame) = stack.pop() else {
        return Err(Stop::Stuck);
    };
    match frame {
        Frame::Alternatives(all) => Ok(meant::and_also(all, last)?),
        other => stuck(other),
    }
}
