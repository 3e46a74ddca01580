//! The parser's states. It takes one token after another, and what is open waits on its own stack, so it never recurses.

use crate::expr::{Alternative, Expr, Link, PathStep};
use crate::meant::Meant;
use crate::stack::Stack;
use crate::token::{Operator, Written};
use stx_base::{List, NodeTest, Text};

/// A path that waits for the test of a step.
#[derive(Drop)]
pub struct Begun {
    pub steps: Meant<List<PathStep>>,
    /// What stands before the step.
    pub link: Link,
    /// Whether no step stands before it.
    pub is_first: bool,
}

/// The name of a step, at its place.
#[derive(Drop)]
pub struct Named {
    pub begun: Begun,
    pub name: Written,
    pub at: usize,
}

/// The steps of a path so far.
#[derive(Drop)]
pub struct Walk {
    /// The steps before the last one.
    pub steps: Meant<List<PathStep>>,
    pub link: Link,
    pub test: Meant<NodeTest>,
    pub predicates: Meant<List<Expr>>,
    /// Whether the last step tests attributes, as that of a pattern may.
    pub is_attribute: bool,
}

/// What waits for an expression that is being read.
#[derive(Drop)]
pub enum Frame {
    /// `-`
    Negated,
    /// An operator behind its left operand.
    Left {
        left: Meant<Expr>,
        operator: Operator,
        at: usize,
    },
    /// `(`, with the expressions before the last comma.
    Group {
        items: Meant<List<Expr>>,
        count: usize,
    },
    /// A function's name and `(`, with the arguments before the last comma.
    Call {
        name: Written,
        at: usize,
        items: Meant<List<Expr>>,
        count: usize,
    },
    /// A path and `[`.
    Predicate(Walk),
    /// The alternatives of a pattern before the last bar.
    Alternatives(Meant<List<Alternative>>),
}

/// What a test of attributes belongs to.
#[derive(Drop)]
pub enum Owner {
    /// The current node.
    Here,
    /// The node so many places above it.
    Above(u64),
    /// The nodes that the steps reach.
    Path(Meant<List<PathStep>>),
    /// The last step of a pattern.
    Last(Begun),
}

/// What the next token may be.
#[derive(Drop)]
pub enum Mode {
    /// An operand begins.
    Operand,
    /// The name behind `$`.
    Variable,
    /// `(` behind a function's name.
    Function { name: Written, at: usize },
    /// A step behind `/` at the beginning of a path, or what follows the document node.
    Root,
    /// An alternative of a pattern begins.
    Alternative,
    /// A step behind a link.
    Step(Begun),
    /// `(` behind a name that may be a node type, or what follows a step.
    Named(Named),
    /// `)` behind a node type and `(`, or the target of instructions.
    Kind { begun: Begun, test: NodeTest },
    /// `)` behind the target of instructions.
    Target { begun: Begun, target: Text },
    /// What follows a step.
    Walked(Walk),
    /// The test behind `@`.
    Attribute(Owner),
    /// What follows `.` or the last of so many `..`.
    Above(u64),
    /// `..` or `@` behind `/`.
    Higher(u64),
    /// What follows an operand.
    Complete(Meant<Expr>),
}

#[derive(Drop)]
pub struct State {
    pub stack: Stack<Frame>,
    pub mode: Mode,
}
