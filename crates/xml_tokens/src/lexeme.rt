use stx_base::{List, Text, XmlFault};

/// An attribute as it stands in a start tag, its value normalized (XML 1.0, 3.1 and 3.3.3).
#[derive(Debug, Drop)]
pub struct RawAttr {
    pub name: Text,
    pub value: Text,
}

/// What a lexeme says.
#[derive(Debug, Drop)]
pub enum Body {
    /// Character data (XML 1.0, 2.4), its references and line ends read. `blank` says that its bytes are white space alone.
    Chars {
        text: Text,
        blank: bool,
    },
    /// A CDATA section (XML 1.0, 2.7).
    CData {
        text: Text,
    },
    /// A start tag, or with `empty` an empty-element tag (XML 1.0, 3.1).
    Start {
        name: Text,
        attrs: List<RawAttr>,
        empty: bool,
    },
    /// An end tag (XML 1.0, 3.1).
    End {
        name: Text,
    },
    /// A comment (XML 1.0, 2.5).
    Comment {
        text: Text,
    },
    /// A processing instruction (XML 1.0, 2.6); the text is what follows the white space behind the target.
    Pi {
        target: Text,
        text: Text,
    },
    /// A document type declaration (XML 1.0, 2.8), which is skipped.
    Doctype,
    /// The XML declaration (XML 1.0, 2.8).
    Declaration,
}

/// A lexeme and where it begins, in bytes from the document's first one, a byte order mark included.
#[derive(Debug, Drop)]
pub struct Lexeme {
    pub offset: u64,
    pub body: Body,
}

/// An answer of the lexer.
#[derive(Debug, Drop)]
pub enum Step {
    Lexeme(Lexeme),
    /// More bytes, or word that there are none, must come first.
    Need,
    /// The document is used up.
    End,
    Bad(XmlFault),
    Memory,
}

/// An answer after which nothing else comes.
#[derive(Clone, Copy, Debug, PartialEq, Eq)]
pub enum Ending {
    End,
    Bad(XmlFault),
    Memory,
}

impl Ending {
    ghost use Rattle.std.specs.Prelude.{◌≡◌};
    ghost use Rattle.xml_tokens.specs.Reader.{step_of};

    pub(crate) fn step(self) -> Step
        ensures { result ≡ step_of self }
    {
        match self {
            Ending::End => Step::End,
            Ending::Bad(fault) => Step::Bad(fault),
            Ending::Memory => Step::Memory,
        }
    }
}
