//! Tokens in paths.

ghost use Rattle.std.specs.Prelude.{◌≡◌, ◌+◌, ◌<◌, ◌^◌, false, IfOk};
ghost use Rattle.stxpath_syntax.specs.Counts.{CanCount};
ghost use Rattle.stxpath_syntax.specs.Machine as spec;
ghost use Rattle.stxpath_syntax.specs.Meaning as meaning;

use crate::dialect::Dialect;
use crate::expr::{Alternative, Link, PathStep};
use crate::meant;
use crate::meant::Meant;
use crate::operand::{complete, first};
use crate::stack::Stack;
use crate::state::{Begun, Frame, Mode, Named, Owner, Walk};
use crate::stop::{Stop, instead, stuck};
use crate::token::{Placed, Token, Written};
use crate::words::{attribute_named, attribute_within, element_named, element_within, type_of};
use std::alloc::Global;
use stx_base::{Binding, List, Memory, NodeTest, Text};

pub fn is_pattern(stack: &Stack<Frame>) -> bool
    ensures { result ≡ spec.is_pattern stack.now }
{
    matches!(stack.top(), Some(Frame::Alternatives(_)))
}

/// A step that has its test.
fn walk_of(alloc: Global, begun: Begun, test: Meant<NodeTest>, is_attribute: bool) -> Walk
    ensures { result ≡ spec.walk_of begun test is_attribute }
{
    Walk {
        steps: begun.steps,
        link: begun.link,
        test,
        predicates: meant::none(alloc),
        is_attribute,
    }
}

/// What follows a step of nodes.
fn walked(alloc: Global, begun: Begun, test: Meant<NodeTest>) -> Mode
    ensures { result ≡ Mode.Walked (spec.walk_of begun test false) }
{
    Mode::Walked(walk_of(alloc, begun, test, false))
}

/// The step whose test is a name.
pub fn named_walk(alloc: Global, scope: &List<Binding>, named: Named) -> Result<Walk, Memory>
    ensures { IfOk result (λ walk. walk ≡ spec.named_walk scope.now named) }
{
    let test = element_named(alloc, scope, named.name, named.at)?;
    Ok(walk_of(alloc, named.begun, test, false))
}

/// `@` where a step may stand.
fn begin_attribute(stack: &Stack<Frame>, begun: Begun) -> Result<Mode, Stop>
    ensures { spec.Takes (spec.begin_attribute stack.now begun) result }
{
    if is_pattern(stack) {
        return Ok(Mode::Attribute(Owner::Last(begun)));
    }
    match begun.link {
        Link::Slash if !begun.is_first => Ok(Mode::Attribute(Owner::Path(begun.steps))),
        _ => Err(Stop::Stuck),
    }
}

/// A token that begins a step.
#[tactic(auto, unfolding(crate::specs::Machine::begin_step))]
pub fn begin_step(
    alloc: Global,
    scope: &List<Binding>,
    stack: &Stack<Frame>,
    begun: Begun,
    placed: Placed,
) -> Result<Mode, Stop>
    ensures { spec.Turns (spec.begin_step scope.now stack.now begun placed.at placed.token) result stack.now }
{
    let Placed { token, at } = placed;
    match token {
        Token::Name(name) => Ok(Mode::Named(Named { begun, name, at })),
        Token::Within(prefix) => {
            let test = element_within(alloc, scope, prefix, at)?;
            Ok(walked(alloc, begun, test))
        }
        Token::Star => Ok(walked(alloc, begun, meant::flat(NodeTest::AnyElement))),
        Token::At => begin_attribute(stack, begun),
        _ => Err(Stop::Stuck),
    }
}

/// The test of attributes that a token writes.
fn attribute_test(
    alloc: Global,
    scope: &List<Binding>,
    placed: Placed,
) -> Result<Meant<NodeTest>, Stop>
    ensures { spec.Takes (spec.attribute_test scope.now placed.at placed.token) result }
{
    let Placed { token, at } = placed;
    match token {
        Token::Name(name) => Ok(attribute_named(alloc, scope, name, at)?),
        Token::Within(prefix) => Ok(attribute_within(alloc, scope, prefix, at)?),
        Token::Star => Ok(meant::flat(NodeTest::AnyAttr)),
        _ => Err(Stop::Stuck),
    }
}

/// What a test of attributes ends.
fn owned(alloc: Global, owner: Owner, test: Meant<NodeTest>) -> Mode
    ensures { result ≡ spec.owned owner test }
{
    match owner {
        Owner::Here => Mode::Complete(meant::attr(test)),
        Owner::Above(count) => Mode::Complete(meant::up(count, meant::some(test))),
        Owner::Path(steps) => Mode::Complete(meant::abs(steps, meant::some(test))),
        Owner::Last(begun) => Mode::Walked(walk_of(alloc, begun, test, true)),
    }
}

/// A token behind `@`.
pub fn attribute(
    alloc: Global,
    scope: &List<Binding>,
    owner: Owner,
    placed: Placed,
) -> Result<Mode, Stop>
    ensures { spec.Takes (spec.attribute scope.now owner placed.at placed.token) result }
{
    let test = attribute_test(alloc, scope, placed)?;
    Ok(owned(alloc, owner, test))
}

/// The steps of a path with the last one.
pub fn all_steps(walk: Walk) -> Result<Meant<List<PathStep>>, Memory>
    ensures { IfOk result (λ steps. steps ≡ spec.all_steps walk) }
{
    let step = meant::step(walk.link, walk.test, walk.predicates);
    meant::and_also(walk.steps, step)
}

/// A bar behind an alternative.
fn alternate(stack: &mut Stack<Frame>, last: Meant<Alternative>) -> Result<Mode, Stop>
    ensures { spec.Turns (spec.alternated stack.old last) result stack.new }
{
    let Some(frame) = stack.pop() else {
        return stuck(last);
    };
    let all = match frame {
        Frame::Alternatives(all) => meant::and_also(all, last)?,
        other => return stuck(instead(last, other)),
    };
    stack.push(Frame::Alternatives(all))?;
    Ok(Mode::Alternative)
}

/// A token behind an alternative of a pattern.
fn end_of_alternative(
    stack: &mut Stack<Frame>,
    last: Meant<Alternative>,
    token: Token,
) -> Result<Mode, Stop>
    ensures { spec.Turns (spec.end_of_alternative stack.old last token) result stack.new }
{
    match token {
        Token::Bar => alternate(stack, last),
        _ => Err(Stop::Stuck),
    }
}

/// A link behind a step.
fn linked(walk: Walk, link: Link) -> Result<Mode, Stop>
    ensures { spec.Takes (spec.linked walk link) result }
{
    if walk.is_attribute {
        return stuck(walk);
    }
    let steps = all_steps(walk)?;
    Ok(Mode::Step(Begun {
        steps,
        link,
        is_first: false,
    }))
}

/// A token behind the last step of a path.
fn end_of_path(
    alloc: Global,
    stack: &mut Stack<Frame>,
    walk: Walk,
    placed: Placed,
) -> Result<Mode, Stop>
    requires { CanCount stack.old }
    ensures { spec.Turns (spec.end_of_path stack.old walk placed.at placed.token) result stack.new }
{
    let steps = all_steps(walk)?;
    if is_pattern(stack) {
        end_of_alternative(stack, meant::steps(steps), placed.token)
    } else {
        complete(alloc, stack, meant::abs(steps, meant::untested()), &placed)
    }
}

/// A token behind a step.
#[tactic(auto, unfolding(crate::specs::Machine::walk_on))]
pub fn walk_on(
    alloc: Global,
    stack: &mut Stack<Frame>,
    walk: Walk,
    placed: Placed,
) -> Result<Mode, Stop>
    requires { CanCount stack.old }
    ensures { spec.Turns (spec.walk_on stack.old walk placed.at placed.token) result stack.new }
{
    match placed.token {
        Token::OpenPredicate => {
            stack.push(Frame::Predicate(walk))?;
            Ok(Mode::Operand)
        }
        Token::Slash => linked(walk, Link::Slash),
        Token::SlashSlash => linked(walk, Link::Deep),
        token => {
            let at = placed.at;
            end_of_path(alloc, stack, walk, Placed { token, at })
        }
    }
}

/// Whether a token begins a step.
fn begins_step(in_pattern: bool, token: &Token) -> bool
    ensures { result ≡ spec.begins_step in_pattern token.now }
{
    match token {
        Token::Name(_) | Token::Within(_) | Token::Star => true,
        Token::At => in_pattern,
        _ => false,
    }
}

/// A token behind `/` at the beginning of a path.
#[tactic(auto, unfolding(crate::specs::Machine::after_root))]
pub fn after_root(
    alloc: Global,
    scope: &List<Binding>,
    stack: &mut Stack<Frame>,
    placed: Placed,
) -> Result<Mode, Stop>
    requires { CanCount stack.old }
    ensures { spec.Turns (spec.after_root scope.now stack.old placed.at placed.token) result stack.new }
{
    if begins_step(is_pattern(stack), &placed.token) {
        return begin_step(alloc, scope, stack, first(alloc, Link::Slash), placed);
    }
    if is_pattern(stack) {
        return end_of_alternative(stack, meant::flat(Alternative::Root), placed.token);
    }
    complete(alloc, stack, meant::root(), &placed)
}

/// A token that begins an alternative of a pattern.
#[tactic(auto, unfolding(crate::specs::Machine::begin_alternative))]
pub fn begin_alternative(
    alloc: Global,
    scope: &List<Binding>,
    stack: &Stack<Frame>,
    placed: Placed,
) -> Result<Mode, Stop>
    ensures { spec.Turns (spec.begin_alternative scope.now stack.now placed.at placed.token) result stack.now }
{
    match placed.token {
        Token::Slash => Ok(Mode::Root),
        Token::SlashSlash => Ok(Mode::Step(first(alloc, Link::Deep))),
        token => {
            let at = placed.at;
            let begun = first(alloc, Link::Start);
            begin_step(alloc, scope, stack, begun, Placed { token, at })
        }
    }
}

/// `(` behind the name of a node type.
fn begin_type(dialect: Dialect, begun: Begun, name: &Written) -> Result<Mode, Stop>
    ensures { spec.Takes (spec.begin_type dialect begun name.now) result }
{
    match type_of(dialect, name) {
        Some(test) => Ok(Mode::Kind { begun, test }),
        None => Err(Stop::Stuck),
    }
}

/// A token behind a name that begins a step.
#[tactic(auto, unfolding(crate::specs::Machine::after_name))]
pub fn after_name(
    alloc: Global,
    dialect: Dialect,
    scope: &List<Binding>,
    stack: &mut Stack<Frame>,
    named: Named,
    placed: Placed,
) -> Result<Mode, Stop>
    requires { CanCount stack.old }
    ensures { spec.Turns (spec.after_name dialect scope.now stack.old named placed.at placed.token) result stack.new }
{
    if matches!(placed.token, Token::Open) {
        return begin_type(dialect, named.begun, &named.name);
    }
    let walk = named_walk(alloc, scope, named)?;
    walk_on(alloc, stack, walk, placed)
}

/// The target of instructions, behind their node type and `(`.
fn target(begun: Begun, test: NodeTest, target: Text) -> Result<Mode, Stop>
    ensures { spec.Takes (spec.targeted begun test target) result }
{
    match test {
        NodeTest::AnyPi => Ok(Mode::Target { begun, target }),
        other => stuck(other),
    }
}

/// A token behind a node type and `(`.
pub fn after_type(alloc: Global, begun: Begun, test: NodeTest, token: Token) -> Result<Mode, Stop>
    ensures { spec.Takes (spec.after_type begun test token) result }
{
    match token {
        Token::Close => Ok(walked(alloc, begun, meant::flat(test))),
        Token::Literal(text) => target(begun, test, text),
        _ => Err(Stop::Stuck),
    }
}

/// A token behind the target of instructions.
pub fn after_target(alloc: Global, begun: Begun, target: Text, token: Token) -> Result<Mode, Stop>
    ensures { spec.Takes (spec.after_target begun target token) result }
{
    match token {
        Token::Close => Ok(walked(alloc, begun, meant::flat(NodeTest::Pi(target)))),
        _ => Err(Stop::Stuck),
    }
}

/// A token behind `.` or the last of so many `..`.
pub fn above(
    alloc: Global,
    stack: &mut Stack<Frame>,
    count: u64,
    placed: Placed,
) -> Result<Mode, Stop>
    requires { CanCount stack.old }
    ensures { spec.Turns (spec.above stack.old count placed.at placed.token) result stack.new }
{
    if matches!(placed.token, Token::Slash) {
        return Ok(Mode::Higher(count));
    }
    complete(alloc, stack, meant::up(count, meant::untested()), &placed)
}

/// A token behind `.` or `..`, and `/`.
pub fn higher(count: u64, token: Token) -> Result<Mode, Stop>
    requires { count + 1 < 2 ^ 64 }
    ensures { spec.Takes (spec.higher count token) result }
{
    match token {
        Token::DotDot if count != 0 => Ok(Mode::Above(count + 1)),
        Token::At => Ok(Mode::Attribute(Owner::Above(count))),
        _ => Err(Stop::Stuck),
    }
}
