use stx_base::{Boxed, Cmp, Fun, List, Name, NodeTest, Op, Text};

/// An operator with two operands.
#[derive(Clone, Copy, Debug, PartialEq, Eq)]
pub enum Bin {
    Or,
    And,
    Compare(Cmp),
    Arith(Op),
}

#[cycle(expression)]
#[derive(Debug, Drop)]
pub enum Expr {
    Whole(i64),
    Literal(Text),
    Var(Name),
    Call(Fun, List<Expr>),
    /// No expression or several, one after another.
    Seq(List<Expr>),
    Neg(Boxed<Expr>),
    Binary(Bin, Boxed<Expr>, Boxed<Expr>),
    /// The document node.
    Root,
    /// The nodes on the stack that steps from the document node reach, or those of their attributes that pass.
    Abs(List<PathStep>, Option<NodeTest>),
    /// The node so many places above the current one, or those of its attributes that pass.
    Up(u64, Option<NodeTest>),
    /// The attributes of the current node that pass.
    Attr(NodeTest),
}

/// What stands before a step.
#[derive(Clone, Copy, Debug, PartialEq, Eq)]
pub enum Link {
    /// Nothing: the first step of a pattern.
    Start,
    /// `/`
    Slash,
    /// `//`
    Deep,
}

#[cycle(expression)]
#[derive(Debug, Drop)]
pub struct PathStep {
    pub link: Link,
    pub test: NodeTest,
    pub predicates: List<Expr>,
}

/// Alternatives with bars between.
#[derive(Debug, Drop)]
pub struct Pattern {
    pub alternatives: List<Alternative>,
}

#[derive(Debug, Drop)]
pub enum Alternative {
    /// `/`, the document node.
    Root,
    /// The last step's test may be one of attributes.
    Steps(List<PathStep>),
}

/// Plain characters with expressions between: an attribute value template.
#[derive(Debug, Drop)]
pub struct Avt {
    pub parts: List<AvtPart>,
}

#[derive(Debug, Drop)]
pub enum AvtPart {
    Chars(Text),
    Value(Expr),
}
