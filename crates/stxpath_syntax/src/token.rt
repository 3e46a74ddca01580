use crate::expr::Bin;
use stx_base::Text;

/// A QName as it is written (Namespaces in XML 1.0, 4).
#[derive(Drop)]
pub struct Written {
    /// Empty where there is none.
    pub prefix: Text,
    pub local: Text,
}

#[derive(Clone, Copy)]
pub enum Operator {
    Binary(Bin),
    /// `div`, which would give a fraction.
    Div,
}

#[derive(Drop)]
pub enum Token {
    Whole(i64),
    /// A text in quotes.
    Literal(Text),
    /// A QName that is no operator.
    Name(Written),
    /// An NCName with `:*`.
    Within(Text),
    /// A `*` that is no operator.
    Star,
    Operator(Operator),
    /// `$`
    Dollar,
    /// `(`
    Open,
    /// `)`
    Close,
    /// `[`
    OpenPredicate,
    /// `]`
    ClosePredicate,
    Comma,
    At,
    Dot,
    DotDot,
    Slash,
    SlashSlash,
    Bar,
}

/// A token with the place of its first character.
#[derive(Drop)]
pub struct Placed {
    pub token: Token,
    pub at: usize,
}

/// What stands before the rest of a text.
#[derive(Clone, Copy)]
pub struct Before {
    /// The place of the next character.
    pub at: usize,
    /// The brackets that are open.
    pub opened: usize,
    /// Whether the last token can end an operand.
    pub is_operand: bool,
}
