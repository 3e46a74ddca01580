//! Tokens behind operands, and those that begin them.

ghost use Rattle.std.specs.Prelude.{◌≡◌, ◌+◌, ◌<◌, ◌^◌, Some as Just, IfOk};
ghost use Rattle.stxpath_syntax.specs.Counts.{CanCount, frame_count};
ghost use Rattle.stxpath_syntax.specs.Grammar as grammar;
ghost use Rattle.stxpath_syntax.specs.Meaning as meaning;
ghost use Rattle.stxpath_syntax.specs.Ending as ending;
ghost use Rattle.stxpath_syntax.specs.Machine as spec;

use crate::expr::{Bin, Expr, Link};
use crate::meant;
use crate::meant::Meant;
use crate::stack::Stack;
use crate::state::{Begun, Frame, Mode, Owner, Walk};
use crate::stop::{Stop, instead, stuck};
use crate::token::{Operator, Placed, Token, Written};
use crate::words::function_of;
use std::alloc::Global;
use stx_base::{List, Memory, Op};

/// How tightly an operator binds.
fn level(operator: Operator) -> u8
    ensures { result ≡ grammar.level operator }
{
    match operator {
        Operator::Binary(Bin::Or) => 1,
        Operator::Binary(Bin::And) => 2,
        Operator::Binary(Bin::Compare(_)) => 3,
        Operator::Binary(Bin::Arith(Op::Add | Op::Sub)) => 4,
        Operator::Binary(Bin::Arith(Op::Mul | Op::Idiv | Op::Mod)) => 5,
        Operator::Div => 5,
    }
}

/// How tightly its left operand must bind.
fn left_level(operator: Operator) -> u8
    ensures { result ≡ grammar.left_level operator }
{
    match operator {
        Operator::Binary(Bin::Compare(_)) => 4,
        other => level(other),
    }
}

/// Whether a frame is part of an operand that binds at least so tightly.
fn binds(least: u8, frame: &Frame) -> bool
    ensures { result ≡ spec.binds least frame.now }
{
    match frame {
        Frame::Negated => true,
        Frame::Left { operator, .. } => least <= level(*operator),
        _ => false,
    }
}

/// What a frame and the operand behind it make.
fn reduced(alloc: Global, frame: Frame, last: Meant<Expr>) -> Result<Meant<Expr>, Memory>
    ensures { IfOk result (λ made. made ≡ spec.reduced frame last) }
{
    match frame {
        Frame::Negated => meant::neg(alloc, last),
        Frame::Left { left, operator, at } => meant::operated(alloc, operator, at, left, last),
        other => Ok(instead(other, last)),
    }
}

/// Whether the frame on top is part of an operand that binds at least so tightly.
fn top_binds(least: u8, stack: &Stack<Frame>) -> bool
    ensures { result ≡ spec.top_binds least stack.now }
{
    match stack.top() {
        Some(frame) => binds(least, frame),
        None => false,
    }
}

/// Takes the top off, where it is part of an operand that binds at least so tightly.
fn take_bound(least: u8, stack: &mut Stack<Frame>) -> Option<Frame>
    ensures { spec.TakesBound least stack.old result stack.new }
{
    if top_binds(least, stack) {
        stack.pop()
    } else {
        None
    }
}

/// Takes what binds at least so tightly off the stack and makes it one operand with the last.
pub fn gather(
    alloc: Global,
    least: u8,
    stack: &mut Stack<Frame>,
    last: Meant<Expr>,
) -> Result<Meant<Expr>, Memory>
    ensures { spec.Gathers least stack.old last result stack.new }
{
    let mut operand = last;
    'frames: while let Some(frame) = take_bound(least, stack) {
        operand = reduced(alloc, frame, operand)?;
    }
    Ok(operand)
}

/// Whether an operator of this level stands on top, with its right operand still open.
fn is_beside(operator: Operator, stack: &Stack<Frame>) -> bool
    ensures { result ≡ spec.is_beside operator stack.now }
{
    match stack.top() {
        Some(
            Frame::Left {
                operator: other,
                ..
            },
        ) => level(*other) == level(operator),
        _ => false,
    }
}

fn is_minus(operator: Operator) -> bool
    ensures { result ≡ spec.is_minus operator }
{
    matches!(operator, Operator::Binary(Bin::Arith(Op::Sub)))
}

/// A function's name, at its place, with the arguments.
fn call(name: &Written, at: usize, count: usize, items: Meant<List<Expr>>) -> Mode
    ensures { result ≡ Mode.Complete (meaning.called name.now at count items) }
{
    Mode::Complete(meant::called(function_of(name), at, count, items))
}

/// `)` behind `(` or a comma.
fn close_empty(stack: &mut Stack<Frame>) -> Result<Mode, Stop>
    ensures { spec.Turns (spec.close_empty stack.old) result stack.new }
{
    match stack.pop() {
        Some(Frame::Group { items, count: 0 }) => Ok(Mode::Complete(meant::seq(items))),
        Some(
            Frame::Call {
                name,
                at,
                items,
                count: 0,
            },
        ) => Ok(call(&name, at, 0, items)),
        other => stuck(other),
    }
}

/// `)` behind the last expression in brackets.
fn grouped(items: Meant<List<Expr>>, count: usize, last: Meant<Expr>) -> Result<Mode, Stop>
    ensures { spec.Takes (Just (Mode.Complete (spec.grouped items count last))) result }
{
    if count == 0 {
        return Ok(Mode::Complete(last));
    }
    let items = meant::and_also(items, last)?;
    Ok(Mode::Complete(meant::seq(items)))
}

/// `)` behind a function's last argument.
fn called(
    name: Written,
    at: usize,
    count: usize,
    items: Meant<List<Expr>>,
    last: Meant<Expr>,
) -> Result<Mode, Stop>
    requires { count + 1 < 2 ^ 64 }
    ensures { spec.Takes (Just (Mode.Complete (meaning.called name at (count + 1) (meaning.and_also items last)))) result }
{
    let items = meant::and_also(items, last)?;
    Ok(call(&name, at, count + 1, items))
}

/// `)` behind an expression.
fn close(stack: &mut Stack<Frame>, last: Meant<Expr>) -> Result<Mode, Stop>
    requires { CanCount stack.old }
    ensures { spec.Turns (spec.close (stack.old, last)) result stack.new }
{
    let Some(frame) = stack.pop() else {
        return stuck(last);
    };
    match frame {
        Frame::Group { items, count } => grouped(items, count, last),
        Frame::Call {
            name,
            at,
            items,
            count,
        } => called(name, at, count, items, last),
        other => stuck(instead(last, other)),
    }
}

/// Brackets with one more expression, behind a comma.
fn more_grouped(items: Meant<List<Expr>>, count: usize, last: Meant<Expr>) -> Result<Frame, Stop>
    requires { count + 1 < 2 ^ 64 }
    ensures { spec.Takes (spec.separated (Frame.Group items count) last) result }
{
    let items = meant::and_also(items, last)?;
    let count = count + 1;
    Ok(Frame::Group { items, count })
}

/// A call with one more argument, behind a comma.
fn more_called(
    name: Written,
    at: usize,
    items: Meant<List<Expr>>,
    count: usize,
    last: Meant<Expr>,
) -> Result<Frame, Stop>
    requires { count + 1 < 2 ^ 64 }
    ensures { spec.Takes (spec.separated (Frame.Call name at items count) last) result }
{
    let items = meant::and_also(items, last)?;
    let count = count + 1;
    Ok(Frame::Call {
        name,
        at,
        items,
        count,
    })
}

/// The frame of brackets with one more expression, behind a comma.
fn separated(frame: Frame, last: Meant<Expr>) -> Result<Frame, Stop>
    requires { frame_count frame + 1 < 2 ^ 64 }
    ensures { spec.Takes (spec.separated frame last) result }
{
    match frame {
        Frame::Group { items, count } => more_grouped(items, count, last),
        Frame::Call {
            name,
            at,
            items,
            count,
        } => more_called(name, at, items, count, last),
        other => stuck(instead(last, other)),
    }
}

/// A comma behind an expression.
fn separate(stack: &mut Stack<Frame>, last: Meant<Expr>) -> Result<Mode, Stop>
    requires { CanCount stack.old }
    ensures { spec.Turns (spec.separate (stack.old, last)) result stack.new }
{
    match stack.pop() {
        Some(frame) => {
            let frame = separated(frame, last)?;
            stack.push(frame)?;
            Ok(Mode::Operand)
        }
        None => stuck(last),
    }
}

/// A path's last step with one more predicate.
fn filtered(walk: Walk, last: Meant<Expr>) -> Result<Mode, Stop>
    ensures { spec.Takes (Just (Mode.Walked (spec.filtered walk last))) result }
{
    let predicates = meant::and_also(walk.predicates, last)?;
    Ok(Mode::Walked(Walk { predicates, ..walk }))
}

/// `]` behind an expression.
fn close_predicate(stack: &mut Stack<Frame>, last: Meant<Expr>) -> Result<Mode, Stop>
    ensures { spec.Turns (spec.close_predicate (stack.old, last)) result stack.new }
{
    let Some(frame) = stack.pop() else {
        return stuck(last);
    };
    match frame {
        Frame::Predicate(walk) => filtered(walk, last),
        other => stuck(instead(last, other)),
    }
}

/// An operator behind its left operand.
fn wait(
    operator: Operator,
    at: usize,
    stack: &mut Stack<Frame>,
    left: Meant<Expr>,
) -> Result<Mode, Stop>
    ensures { spec.Turns (spec.wait operator at (stack.old, left)) result stack.new }
{
    if is_beside(operator, stack) {
        return stuck(left);
    }
    stack.push(Frame::Left { left, operator, at })?;
    Ok(Mode::Operand)
}

/// What ends an operand, or an operator that follows it.
#[derive(Clone, Copy)]
enum Sequel {
    Operator(Operator),
    Close,
    Comma,
    ClosePredicate,
}

fn sequel_of(token: &Token) -> Option<Sequel>
    ensures { result ≡ ending.sequel_of token.now }
{
    match token {
        Token::Operator(operator) => Some(Sequel::Operator(*operator)),
        Token::Close => Some(Sequel::Close),
        Token::Comma => Some(Sequel::Comma),
        Token::ClosePredicate => Some(Sequel::ClosePredicate),
        _ => None,
    }
}

/// What ends an operand, when all that binds tighter is one with it.
fn end(sequel: Sequel, at: usize, stack: &mut Stack<Frame>, last: Meant<Expr>) -> Result<Mode, Stop>
    requires { CanCount stack.old }
    ensures { spec.Turns (ending.ended sequel at (stack.old, last)) result stack.new }
{
    match sequel {
        Sequel::Operator(operator) => wait(operator, at, stack, last),
        Sequel::Close => close(stack, last),
        Sequel::Comma => separate(stack, last),
        Sequel::ClosePredicate => close_predicate(stack, last),
    }
}

/// How tightly an operand that ends so must bind.
fn least(sequel: Sequel) -> u8
    ensures { result ≡ ending.least sequel }
{
    match sequel {
        Sequel::Operator(operator) => left_level(operator),
        _ => 0,
    }
}

/// A token behind an operand.
#[tactic(auto, unfolding(crate::specs::Machine::complete))]
pub fn complete(
    alloc: Global,
    stack: &mut Stack<Frame>,
    operand: Meant<Expr>,
    placed: &Placed,
) -> Result<Mode, Stop>
    requires { CanCount stack.old }
    ensures { spec.Turns (spec.complete stack.old operand placed.now.at placed.now.token) result stack.new }
{
    match sequel_of(&placed.token) {
        Some(sequel) => {
            let last = gather(alloc, least(sequel), stack, operand)?;
            end(sequel, placed.at, stack, last)
        }
        None => stuck(operand),
    }
}

/// A path of which nothing but its first link is read.
pub fn first(alloc: Global, link: Link) -> Begun
    ensures { result ≡ spec.first link }
{
    Begun {
        steps: meant::none(alloc),
        link,
        is_first: true,
    }
}

/// Lays a frame on the stack, for the operand behind it.
fn open(stack: &mut Stack<Frame>, frame: Frame) -> Result<Mode, Stop>
    ensures { spec.Turns (spec.opened stack.old frame) result stack.new }
{
    stack.push(frame)?;
    Ok(Mode::Operand)
}

/// A function's name behind which `(` must stand.
pub fn function(
    alloc: Global,
    stack: &mut Stack<Frame>,
    name: Written,
    at: usize,
    token: Token,
) -> Result<Mode, Stop>
    ensures { spec.Turns (spec.function stack.old name at token) result stack.new }
{
    match token {
        Token::Open => {
            let items = meant::none(alloc);
            open(
                stack,
                Frame::Call {
                    name,
                    at,
                    items,
                    count: 0,
                },
            )
        }
        _ => Err(Stop::Stuck),
    }
}

/// An operator that begins an operand.
fn sign(stack: &mut Stack<Frame>, operator: Operator) -> Result<Mode, Stop>
    ensures { spec.Turns (spec.sign stack.old operator) result stack.new }
{
    if is_minus(operator) {
        open(stack, Frame::Negated)
    } else {
        Err(Stop::Stuck)
    }
}

/// A token that begins an operand.
#[tactic(auto, unfolding(crate::specs::Machine::operand))]
pub fn operand(alloc: Global, stack: &mut Stack<Frame>, placed: Placed) -> Result<Mode, Stop>
    ensures { spec.Turns (spec.operand stack.old placed.at placed.token) result stack.new }
{
    let Placed { token, at } = placed;
    match token {
        Token::Whole(value) => Ok(Mode::Complete(Meant::Fine(Expr::Whole(value), 1))),
        Token::Literal(text) => Ok(Mode::Complete(Meant::Fine(Expr::Literal(text), 1))),
        Token::Name(name) => Ok(Mode::Function { name, at }),
        Token::Operator(operator) => sign(stack, operator),
        Token::Dollar => Ok(Mode::Variable),
        Token::Open => {
            let items = meant::none(alloc);
            open(stack, Frame::Group { items, count: 0 })
        }
        Token::Close => close_empty(stack),
        Token::Slash => Ok(Mode::Root),
        Token::SlashSlash => Ok(Mode::Step(first(alloc, Link::Deep))),
        Token::Dot => Ok(Mode::Above(0)),
        Token::DotDot => Ok(Mode::Above(1)),
        Token::At => Ok(Mode::Attribute(Owner::Here)),
        _ => Err(Stop::Stuck),
    }
}
