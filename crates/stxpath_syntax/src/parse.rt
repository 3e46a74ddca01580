//! Expressions and patterns: tokens through the parser's states.

ghost use Rattle.std.specs.Prelude.{◌≡◌, ◌<◌, ◌≤◌, ◌+◌, ◌^◌, true, IfOk, length, map};
ghost use Rattle.std.specs.List.{list_all};
ghost use Rattle.stxpath_syntax.specs.Counts.{CountsTo, StateCanCount};
ghost use Rattle.stxpath_syntax.specs.Running as running;
ghost use Rattle.stxpath_syntax.specs.Shape as shape;
ghost use Rattle.stxpath_syntax.specs.Template as spec;

use crate::dialect::Dialect;
use crate::expr::{Alternative, Expr, Pattern};
use crate::fault::{ParseFault, PathFault, PathKind};
use crate::lex::tokens;
use crate::meant;
use crate::meant::Meant;
use crate::stack::Stack;
use crate::state::{Frame, Mode, State};
use crate::step::{end_of_expression, end_of_pattern, step};
use crate::stop::Stop;
use crate::token::Placed;
use std::alloc::Global;
use stx_base::{Binding, List, Text};

fn stopped(stop: Stop, place: usize) -> ParseFault
    ensures { result ≡ running.stopped stop place }
{
    match stop {
        Stop::Stuck => ParseFault::Path(PathFault {
            kind: PathKind::Syntax,
            place,
        }),
        Stop::Memory => ParseFault::Memory,
    }
}

/// One token's step, or the fault where no reading goes on with it.
fn next(
    alloc: Global,
    dialect: Dialect,
    scope: &List<Binding>,
    state: State,
    placed: Placed,
) -> Result<State, ParseFault>
    requires { StateCanCount state }
    ensures { running.Nexts dialect scope.now state placed result }
{
    let at = placed.at;
    match step(alloc, dialect, scope, state, placed) {
        Ok(next) => Ok(next),
        Err(stop) => Err(stopped(stop, at)),
    }
}

/// The state behind all tokens, or the fault at the first with which no reading goes on.
fn run(
    alloc: Global,
    dialect: Dialect,
    scope: &List<Binding>,
    begun: State,
    tokens: List<Placed>,
) -> Result<State, ParseFault>
    requires { CountsTo 0 begun }
    ensures { running.Runs dialect scope.now begun tokens result }
{
    let mut rest = Stack::from_list(tokens);
    let mut state = begun;
    'tokens: while let Some(placed) = rest.pop() {
        state = next(alloc, dialect, scope, state, placed)?;
    }
    Ok(state)
}

fn finished<T: Drop>(meant: Meant<T>) -> Result<T, ParseFault>
    ensures { spec.Answers (λ read. read ≡ spec.finished meant) result }
{
    match meant {
        Meant::Fine(value, _) => Ok(value),
        Meant::High => Err(ParseFault::Path(PathFault {
            kind: PathKind::TooDeep,
            place: 0,
        })),
        Meant::Bad(fault) => Err(ParseFault::Path(fault)),
    }
}

/// The expression that is whole with this state, or the fault at the end.
fn whole_expression(
    alloc: Global,
    scope: &List<Binding>,
    state: State,
    end: usize,
) -> Result<Expr, ParseFault>
    ensures { running.EndsExpression scope.now state end result }
{
    match end_of_expression(alloc, scope, state) {
        Ok(meant) => finished(meant),
        Err(stop) => Err(stopped(stop, end)),
    }
}

/// The expression that characters write, the first of them at a place.
pub fn expression(
    alloc: Global,
    text: &[char],
    at: usize,
    scope: &List<Binding>,
    dialect: Dialect,
) -> Result<Expr, ParseFault>
    requires { at + length text.now < 2 ^ 64 }
    ensures { spec.Answers (spec.IsExpression dialect scope.now at text.now) result }
{
    let tokens = tokens(alloc, text, at)?;
    let begun = State {
        stack: Stack::new(alloc),
        mode: Mode::Operand,
    };
    let state = run(alloc, dialect, scope, begun, tokens)?;
    whole_expression(alloc, scope, state, at + text.len())
}

/// Reads an expression of a dialect, its prefixes by the last binding of each; the fault is the first one.
pub fn read_expr(
    alloc: Global,
    text: &Text,
    scope: &List<Binding>,
    dialect: Dialect,
) -> Result<Expr, ParseFault>
    ensures reads { spec.Answers (spec.IsExpression dialect scope.now 0 text.now) result }
    ensures called_well { IfOk result (λ expr. shape.is_called_well expr ≡ true) }
    ensures low { IfOk result (λ expr. shape.height expr ≤ 64) }
{
    let chars: Vec<char> = text.as_str().chars().collect(alloc)?;
    expression(alloc, &chars, 0, scope, dialect)
}

/// Reads an expression of version 1.0.
pub fn parse_expr(alloc: Global, text: &Text, scope: &List<Binding>) -> Result<Expr, ParseFault>
    ensures reads { spec.Answers (spec.IsExpression Dialect.One scope.now 0 text.now) result }
    ensures called_well { IfOk result (λ expr. shape.is_called_well expr ≡ true) }
    ensures low { IfOk result (λ expr. shape.height expr ≤ 64) }
{
    read_expr(alloc, text, scope, Dialect::One)
}

/// The alternatives that are a whole pattern with this state, or the fault at the end.
fn whole_pattern(
    alloc: Global,
    scope: &List<Binding>,
    state: State,
    end: usize,
) -> Result<List<Alternative>, ParseFault>
    ensures { running.EndsPattern scope.now state end result }
{
    match end_of_pattern(alloc, scope, state) {
        Ok(meant) => finished(meant),
        Err(stop) => Err(stopped(stop, end)),
    }
}

/// The alternatives of the pattern that characters write.
fn alternatives(
    alloc: Global,
    text: &[char],
    scope: &List<Binding>,
    dialect: Dialect,
) -> Result<List<Alternative>, ParseFault>
    requires { length text.now < 2 ^ 64 }
    ensures { spec.Answers (spec.IsPattern dialect scope.now text.now) result }
{
    let tokens = tokens(alloc, text, 0)?;
    let mut stack = Stack::new(alloc);
    stack.push(Frame::Alternatives(meant::none(alloc)))?;
    let begun = State {
        stack,
        mode: Mode::Alternative,
    };
    let state = run(alloc, dialect, scope, begun, tokens)?;
    whole_pattern(alloc, scope, state, text.len())
}

/// Reads a pattern of a dialect; the fault is the first one.
pub fn read_pattern(
    alloc: Global,
    text: &Text,
    scope: &List<Binding>,
    dialect: Dialect,
) -> Result<Pattern, ParseFault>
    ensures reads { spec.Answers (spec.IsPattern dialect scope.now text.now) (spec.alternatives_of result) }
    ensures called_well { IfOk result (λ pattern. list_all shape.is_alternative_called_well pattern.alternatives ≡ true) }
    ensures low { IfOk result (λ pattern. shape.greatest (map shape.alternative_height pattern.alternatives) ≤ 64) }
{
    let chars: Vec<char> = text.as_str().chars().collect(alloc)?;
    let alternatives = alternatives(alloc, &chars, scope, dialect)?;
    Ok(Pattern { alternatives })
}

/// Reads a pattern of version 1.0.
pub fn parse_pattern(
    alloc: Global,
    text: &Text,
    scope: &List<Binding>,
) -> Result<Pattern, ParseFault>
    ensures reads { spec.Answers (spec.IsPattern Dialect.One scope.now text.now) (spec.alternatives_of result) }
    ensures called_well { IfOk result (λ pattern. list_all shape.is_alternative_called_well pattern.alternatives ≡ true) }
    ensures low { IfOk result (λ pattern. shape.greatest (map shape.alternative_height pattern.alternatives) ≤ 64) }
{
    read_pattern(alloc, text, scope, Dialect::One)
}
