//! What tokens mean. A fault or a height that is too great takes a tree's place, so no tree is ever higher than the
//! limit, however long the text is.

ghost use Rattle.std.specs.Prelude.{◌≡◌, ◌+◌, Some as Just, IfOk};
ghost use Rattle.stxpath_syntax.specs.Meaning as spec;

use crate::expr::{Alternative, Bin, Expr, Link, PathStep};
use crate::fault::{PathFault, PathKind};
use crate::functions::permits;
use crate::stop::instead;
use crate::token::Operator;
use std::alloc::Global;
use stx_base::{Boxed, Fun, List, Memory, Name, NodeTest};

/// How high a tree may be.
const MAX_HEIGHT: usize = 64;

/// What tokens mean, so far as it is of use.
#[derive(Drop)]
pub enum Meant<T> {
    /// A value, with the height of its tree.
    Fine(T, usize),
    /// A value whose tree is too high.
    High,
    /// The first fault.
    Bad(PathFault),
}

/// A value with its height, where that isn't too great.
pub fn of_height<T: Drop>(value: T, height: usize) -> Meant<T>
    ensures { result ≡ spec.of_height value height }
{
    if height <= MAX_HEIGHT {
        Meant::Fine(value, height)
    } else {
        Meant::High
    }
}

/// A value that is one higher than what it is made of.
fn above<T: Drop>(value: T, height: usize) -> Meant<T>
    ensures { result ≡ spec.of_height value (height + 1) }
{
    if height < MAX_HEIGHT {
        Meant::Fine(value, height + 1)
    } else {
        Meant::High
    }
}

/// What comes of two where the first is too high: a fault of the second counts.
fn spoiled<T: Drop, U: Drop>(second: Meant<T>) -> Meant<U>
    ensures { result ≡ spec.spoiled second }
{
    match second {
        Meant::Bad(fault) => Meant::Bad(fault),
        _ => Meant::High,
    }
}

pub fn refused<T: Drop>(kind: PathKind, place: usize) -> Meant<T>
    ensures { result ≡ spec.refused kind place }
{
    Meant::Bad(PathFault { kind, place })
}

/// No value yet.
pub fn none<T>(alloc: Global) -> Meant<List<T>>
    ensures { result ≡ spec.none }
{
    Meant::Fine(List::new(alloc), 0)
}

/// A value that is no tree.
pub fn flat<T>(value: T) -> Meant<T>
    ensures { result ≡ spec.flat value }
{
    Meant::Fine(value, 0)
}

/// Values one after another, and one more.
pub fn and_also<T: Drop>(values: Meant<List<T>>, value: Meant<T>) -> Result<Meant<List<T>>, Memory>
    ensures { IfOk result (λ meant. meant ≡ spec.and_also values value) }
{
    match values {
        Meant::Bad(fault) => Ok(Meant::Bad(fault)),
        Meant::High => Ok(spoiled(value)),
        Meant::Fine(values, height) => pushed(values, height, value),
    }
}

fn pushed<T: Drop>(
    mut values: List<T>,
    height: usize,
    value: Meant<T>,
) -> Result<Meant<List<T>>, Memory>
    ensures { IfOk result (λ meant. meant ≡ spec.and_also (Meant.Fine values height) value) }
{
    match value {
        Meant::Bad(fault) => Ok(Meant::Bad(fault)),
        Meant::High => Ok(Meant::High),
        Meant::Fine(value, other) => {
            values.push(value)?;
            Ok(of_height(values, height.max(other)))
        }
    }
}

pub fn neg(alloc: Global, operand: Meant<Expr>) -> Result<Meant<Expr>, Memory>
    ensures { IfOk result (λ meant. meant ≡ spec.neg operand) }
{
    match operand {
        Meant::Bad(fault) => Ok(Meant::Bad(fault)),
        Meant::High => Ok(Meant::High),
        Meant::Fine(operand, height) => {
            let operand = Boxed::new(alloc, operand)?;
            Ok(above(Expr::Neg(operand), height))
        }
    }
}

fn boxed<T: Drop>(alloc: Global, left: T, right: T) -> Result<(Boxed<T>, Boxed<T>), Memory>
    ensures { IfOk result (λ both. both ≡ (left, right)) }
{
    let left = Boxed::new(alloc, left)?;
    let right = Boxed::new(alloc, right)?;
    Ok((left, right))
}

fn pair(alloc: Global, bin: Bin, left: Expr, right: Expr) -> Result<Expr, Memory>
    ensures { IfOk result (λ made. made ≡ Expr.Binary bin left right) }
{
    let (left, right) = boxed(alloc, left, right)?;
    Ok(Expr::Binary(bin, left, right))
}

fn paired(
    alloc: Global,
    bin: Bin,
    left: Expr,
    height: usize,
    right: Meant<Expr>,
) -> Result<Meant<Expr>, Memory>
    ensures { IfOk result (λ meant. meant ≡ spec.binary bin (Meant.Fine left height) right) }
{
    match right {
        Meant::Bad(fault) => Ok(instead(left, Meant::Bad(fault))),
        Meant::High => Ok(instead(left, Meant::High)),
        Meant::Fine(right, other) => {
            let both = pair(alloc, bin, left, right)?;
            Ok(above(both, height.max(other)))
        }
    }
}

fn binary(
    alloc: Global,
    bin: Bin,
    left: Meant<Expr>,
    right: Meant<Expr>,
) -> Result<Meant<Expr>, Memory>
    ensures { IfOk result (λ meant. meant ≡ spec.binary bin left right) }
{
    match left {
        Meant::Bad(fault) => Ok(instead(right, Meant::Bad(fault))),
        Meant::High => Ok(spoiled(right)),
        Meant::Fine(left, height) => paired(alloc, bin, left, height, right),
    }
}

/// What `div` makes of its left operand: a fault.
fn divided(at: usize, left: Meant<Expr>) -> PathFault
    ensures { result ≡ spec.divided at left }
{
    match left {
        Meant::Bad(fault) => fault,
        rest => {
            let kind = PathKind::Fraction;
            instead(rest, PathFault { kind, place: at })
        }
    }
}

/// An operator at a place between its operands.
pub fn operated(
    alloc: Global,
    operator: Operator,
    at: usize,
    left: Meant<Expr>,
    right: Meant<Expr>,
) -> Result<Meant<Expr>, Memory>
    ensures { IfOk result (λ meant. meant ≡ spec.operated operator at left right) }
{
    match operator {
        Operator::Binary(bin) => binary(alloc, bin, left, right),
        Operator::Div => Ok(instead(right, Meant::Bad(divided(at, left)))),
    }
}

pub fn seq(items: Meant<List<Expr>>) -> Meant<Expr>
    ensures { result ≡ spec.seq items }
{
    match items {
        Meant::Bad(fault) => Meant::Bad(fault),
        Meant::High => Meant::High,
        Meant::Fine(items, height) => above(Expr::Seq(items), height),
    }
}

/// A call of so many arguments, with its function's name at a place.
pub fn called(
    function: Option<Fun>,
    at: usize,
    count: usize,
    items: Meant<List<Expr>>,
) -> Meant<Expr>
    ensures { result ≡ spec.called_by function at count items }
{
    match function {
        None => refused(PathKind::UnknownFunction, at),
        Some(fun) => called_with(fun, at, count, items),
    }
}

fn called_with(fun: Fun, at: usize, count: usize, items: Meant<List<Expr>>) -> Meant<Expr>
    ensures { result ≡ spec.called_by (Just fun) at count items }
{
    if !permits(fun, count) {
        return refused(PathKind::Arity, at);
    }
    match items {
        Meant::Bad(fault) => Meant::Bad(fault),
        Meant::High => Meant::High,
        Meant::Fine(items, height) => above(Expr::Call(fun, items), height),
    }
}

pub fn var(name: Meant<Name>) -> Meant<Expr>
    ensures { result ≡ spec.var name }
{
    match name {
        Meant::Bad(fault) => Meant::Bad(fault),
        Meant::High => Meant::High,
        Meant::Fine(name, height) => above(Expr::Var(name), height),
    }
}

pub fn attr(test: Meant<NodeTest>) -> Meant<Expr>
    ensures { result ≡ spec.attr test }
{
    match test {
        Meant::Bad(fault) => Meant::Bad(fault),
        Meant::High => Meant::High,
        Meant::Fine(test, height) => above(Expr::Attr(test), height),
    }
}

/// The document node.
pub fn root() -> Meant<Expr>
    ensures { result ≡ spec.root }
{
    Meant::Fine(Expr::Root, 1)
}

/// No test at the end of a path.
pub fn untested() -> Meant<Option<NodeTest>>
    ensures { result ≡ spec.untested }
{
    Meant::Fine(None, 0)
}

/// The test at the end of a path.
pub fn some(test: Meant<NodeTest>) -> Meant<Option<NodeTest>>
    ensures { result ≡ spec.some test }
{
    match test {
        Meant::Bad(fault) => Meant::Bad(fault),
        Meant::High => Meant::High,
        Meant::Fine(test, height) => of_height(Some(test), height),
    }
}

pub fn up(count: u64, test: Meant<Option<NodeTest>>) -> Meant<Expr>
    ensures { result ≡ spec.up count test }
{
    match test {
        Meant::Bad(fault) => Meant::Bad(fault),
        Meant::High => Meant::High,
        Meant::Fine(test, height) => above(Expr::Up(count, test), height),
    }
}

fn path(steps: List<PathStep>, height: usize, test: Meant<Option<NodeTest>>) -> Meant<Expr>
    ensures { result ≡ spec.abs (Meant.Fine steps height) test }
{
    match test {
        Meant::Bad(fault) => Meant::Bad(fault),
        Meant::High => Meant::High,
        Meant::Fine(test, other) => above(Expr::Abs(steps, test), height.max(other)),
    }
}

pub fn abs(steps: Meant<List<PathStep>>, test: Meant<Option<NodeTest>>) -> Meant<Expr>
    ensures { result ≡ spec.abs steps test }
{
    match steps {
        Meant::Bad(fault) => instead(test, Meant::Bad(fault)),
        Meant::High => spoiled(test),
        Meant::Fine(steps, height) => path(steps, height, test),
    }
}

fn tested(
    link: Link,
    test: NodeTest,
    height: usize,
    predicates: Meant<List<Expr>>,
) -> Meant<PathStep>
    ensures { result ≡ spec.step link (Meant.Fine test height) predicates }
{
    match predicates {
        Meant::Bad(fault) => instead(test, Meant::Bad(fault)),
        Meant::High => instead(test, Meant::High),
        Meant::Fine(predicates, other) => {
            let step = PathStep {
                link,
                test,
                predicates,
            };
            of_height(step, height.max(other))
        }
    }
}

pub fn step(link: Link, test: Meant<NodeTest>, predicates: Meant<List<Expr>>) -> Meant<PathStep>
    ensures { result ≡ spec.step link test predicates }
{
    match test {
        Meant::Bad(fault) => Meant::Bad(fault),
        Meant::High => spoiled(predicates),
        Meant::Fine(test, height) => tested(link, test, height, predicates),
    }
}

/// The steps of a pattern's alternative.
pub fn steps(steps: Meant<List<PathStep>>) -> Meant<Alternative>
    ensures { result ≡ spec.steps steps }
{
    match steps {
        Meant::Bad(fault) => Meant::Bad(fault),
        Meant::High => Meant::High,
        Meant::Fine(steps, height) => of_height(Alternative::Steps(steps), height),
    }
}
