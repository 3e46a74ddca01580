//! Under what alternatives stand in the rows of a scope.

/// The templates of which a row has alternatives.
#[derive(Clone, Copy, Debug, PartialEq, Eq, Hash)]
pub enum Home {
    /// A group's own ones, and the public ones of its child groups.
    Own(u32),
    /// Those of a group that are for the groups within it.
    Within(u32),
    /// Those for all groups.
    Everywhere,
}

/// The test of a last step, where numbers stand for its texts. A text that no test of the sheet names has none.
#[derive(Clone, Copy, Debug, PartialEq, Eq, Hash)]
pub enum Test {
    Document,
    /// A URI and a local part.
    Name(Option<usize>, Option<usize>),
    /// A URI.
    Prefix(Option<usize>),
    AnyElement,
    AnyNode,
    Chars,
    CData,
    Comment,
    AnyPi,
    /// A target.
    Pi(Option<usize>),
    /// A URI and a local part.
    AttrName(Option<usize>, Option<usize>),
    /// A URI.
    AttrPrefix(Option<usize>),
    AnyAttr,
}

/// Under what a row stands.
#[derive(Clone, Copy, Debug, PartialEq, Eq, Hash)]
pub struct Key {
    pub home: Home,
    pub test: Test,
}
