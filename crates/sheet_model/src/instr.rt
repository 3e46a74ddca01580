use stx_base::{Binding, List, Name, Place, Text};
use stxpath_syntax::{Avt, Expr, Pattern};

/// Where the content of an attribute, a comment, an instruction or a message comes from.
#[derive(Debug, Drop)]
pub enum Content {
    Select(Expr),
    Chars(Text),
}

/// A value that is handed to a parameter.
#[derive(Debug, Drop)]
pub struct WithParam {
    pub name: Name,
    pub select: Expr,
}

/// An attribute of a literal element.
#[derive(Debug, Drop)]
pub struct LiteralAttr {
    pub name: Name,
    pub value: Avt,
}

/// An instruction, a literal element or a literal text of a body. `at` is its start tag, or the text's first byte;
/// `scope` is the bindings in force there.
#[cycle(instruction)]
#[derive(Debug, Drop)]
pub enum Instr {
    ValueOf {
        select: Expr,
        separator: Option<Avt>,
        at: Place,
    },
    /// The element `text`.
    Chars {
        text: Text,
        at: Place,
    },
    Copy {
        attributes: Option<Pattern>,
        body: List<Instr>,
        at: Place,
    },
    Element {
        name: Avt,
        namespace: Option<Avt>,
        scope: List<Binding>,
        body: List<Instr>,
        at: Place,
    },
    StartElement {
        name: Avt,
        namespace: Option<Avt>,
        scope: List<Binding>,
        at: Place,
    },
    EndElement {
        name: Avt,
        namespace: Option<Avt>,
        scope: List<Binding>,
        at: Place,
    },
    Attribute {
        name: Avt,
        namespace: Option<Avt>,
        scope: List<Binding>,
        content: Content,
        at: Place,
    },
    Comment {
        content: Content,
        at: Place,
    },
    Pi {
        name: Avt,
        scope: List<Binding>,
        content: Content,
        at: Place,
    },
    Message {
        content: Content,
        at: Place,
    },
    /// `other` is the body of the `else` behind it; empty where there is none.
    If {
        test: Expr,
        body: List<Instr>,
        other: List<Instr>,
        at: Place,
    },
    /// `other` is the body of `otherwise`; empty where there is none.
    Choose {
        whens: List<When>,
        other: List<Instr>,
        at: Place,
    },
    ForEachItem {
        name: Name,
        select: Expr,
        body: List<Instr>,
        at: Place,
    },
    While {
        test: Expr,
        body: List<Instr>,
        at: Place,
    },
    Assign {
        name: Name,
        select: Expr,
        at: Place,
    },
    CallProcedure {
        name: Name,
        params: List<WithParam>,
        at: Place,
    },
    ProcessChildren {
        group: Option<Name>,
        params: List<WithParam>,
        at: Place,
    },
    ProcessAttributes {
        group: Option<Name>,
        params: List<WithParam>,
        at: Place,
    },
    ProcessSelf {
        group: Option<Name>,
        params: List<WithParam>,
        at: Place,
    },
    /// `going` is its `while`.
    ProcessSiblings {
        going: Option<Pattern>,
        until: Option<Pattern>,
        group: Option<Name>,
        params: List<WithParam>,
        at: Place,
    },
    ProcessBuffer {
        name: Name,
        group: Option<Name>,
        params: List<WithParam>,
        at: Place,
    },
    ProcessDocument {
        href: Avt,
        group: Option<Name>,
        params: List<WithParam>,
        at: Place,
    },
    ResultBuffer {
        name: Name,
        clear: bool,
        body: List<Instr>,
        at: Place,
    },
    /// A literal element.
    Literal {
        name: Name,
        attrs: List<LiteralAttr>,
        body: List<Instr>,
        at: Place,
    },
    /// A literal text.
    LiteralChars {
        text: Text,
        at: Place,
    },
    /// A `variable` of a body.
    Local {
        name: Name,
        select: Option<Expr>,
        at: Place,
    },
}

/// One branch of a `choose`.
#[cycle(instruction)]
#[derive(Debug, Drop)]
pub struct When {
    pub test: Expr,
    pub body: List<Instr>,
}
