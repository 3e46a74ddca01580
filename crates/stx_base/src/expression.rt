/// An arithmetic operator.
#[derive(Clone, Copy, Debug, PartialEq, Eq)]
pub enum Op {
    Add,
    Sub,
    Mul,
    /// Division that cuts towards zero.
    Idiv,
    /// The remainder, with the sign of the left operand.
    Mod,
}

/// A comparison.
#[derive(Clone, Copy, Debug, PartialEq, Eq)]
pub enum Cmp {
    Eq,
    Ne,
    Lt,
    Le,
    Gt,
    Ge,
}

/// A function of the path language.
#[derive(Clone, Copy, Debug, PartialEq, Eq)]
pub enum Fun {
    Name,
    LocalName,
    NamespaceUri,
    Position,
    Level,
    HasChildNodes,
    /// The function `string`.
    Str,
    Integer,
    Boolean,
    Not,
    True,
    False,
    Concat,
    StringJoin,
    StringLength,
    Substring,
    SubstringBefore,
    SubstringAfter,
    Contains,
    StartsWith,
    EndsWith,
    NormalizeSpace,
    Translate,
    Count,
    Empty,
    Exists,
    Sum,
    ItemAt,
    IndexOf,
    Subsequence,
}
