use crate::text::Text;
use thiserror::Error;

/// What is wrong with a document (XML 1.0, 2 to 4; Namespaces in XML 1.0, 3 to 7; and the limits). Of the
/// kinds that apply to one lexeme the first in this order is reported.
#[derive(Clone, Copy, Debug, PartialEq, Eq, Error)]
pub enum XmlKind {
    #[error("a lexeme has more bytes than the limit")]
    LexemeTooLong,
    #[error("the bytes are not UTF-8")]
    BadUtf8,
    #[error("a literal character is not a Char")]
    BadChar,
    #[error("the document type declaration has an internal subset")]
    InternalSubset,
    #[error("markup that is neither a comment, a CDATA section nor a document type declaration")]
    BadMarkup,
    #[error("not an XML declaration")]
    BadDeclaration,
    #[error("the declared version is not 1. and digits")]
    BadVersion,
    #[error("the declared encoding is neither UTF-8 nor US-ASCII")]
    Encoding,
    #[error("a comment holds -- or ends in -")]
    BadComment,
    #[error("the target of a processing instruction is not allowed")]
    BadPi,
    #[error("a literal ]]> in text")]
    CdataEnd,
    #[error("not a start or end tag")]
    BadTag,
    #[error("an & begins no reference")]
    BadReference,
    #[error("the entity is not one of the five that XML predefines")]
    UnknownEntity,
    #[error("not allowed at this place of the document")]
    Misplaced,
    #[error("an element or attribute name is not a QName")]
    BadName,
    #[error("a reserved prefix or namespace is declared, or a prefix is declared empty")]
    BadBinding,
    #[error("a prefix is not bound")]
    UndeclaredPrefix,
    #[error("two attributes have one name")]
    DuplicateAttribute,
    #[error("an end tag without its start tag")]
    Mismatch,
    #[error("more open elements than the limit")]
    TooDeep,
    #[error("a text node has more characters than the limit")]
    TextTooLong,
    #[error("the document ends too early")]
    Truncated,
    #[error("the document has more bytes than the limit")]
    InputTooLong,
}

/// Why a sheet is refused. Of the codes that apply to one element the first in this order is reported.
#[derive(Clone, Copy, Debug, PartialEq, Eq, Error)]
pub enum SheetCode {
    #[error("the sheet files have more bytes than the limit")]
    SheetTooLarge,
    #[error("a sheet file is not well formed")]
    BadXml,
    #[error("the root element is not a transform")]
    NotStx,
    #[error("no element of the language has this name")]
    UnknownElement,
    #[error("not allowed at this place of the sheet")]
    Misplaced,
    #[error("the element has no such attribute")]
    UnknownAttribute,
    #[error("a required attribute is missing")]
    MissingAttribute,
    #[error("the version is not one of the language's")]
    Version,
    #[error("the attribute does not take this value")]
    BadValue,
    #[error("an expression holds a fraction")]
    Fraction,
    #[error("an expression, pattern or template cannot be read")]
    BadPath,
    #[error("a name is declared twice")]
    DuplicateName,
    #[error("a file includes itself")]
    IncludeLoop,
    #[error("the document is absent")]
    NoDocument,
    #[error("no group has this name")]
    NoGroup,
    #[error("no procedure has this name")]
    NoProcedure,
    #[error("no buffer has this name")]
    NoBuffer,
    #[error("no variable has this name")]
    NoVariable,
}

/// Why a run stops at an instruction.
#[derive(Clone, Copy, Debug, PartialEq, Eq, Error)]
pub enum RunCode {
    #[error("a number outside of 64 bits")]
    Overflow,
    #[error("a division by zero")]
    ZeroDivisor,
    #[error("a number with a fraction")]
    Fraction,
    #[error("not a whole number")]
    NotWhole,
    #[error("not exactly one item")]
    NotOne,
    #[error("an item that is no node")]
    NotNode,
    #[error("a value has more items than the limit")]
    SequenceTooLong,
    #[error("a text has more characters than the limit")]
    TextTooLong,
    #[error("the children of a node are processed twice")]
    ChildrenTwice,
    #[error("the buffer is open")]
    BufferBusy,
    #[error("more buffers and documents are open than the limit")]
    TooManySources,
    #[error("the document is absent")]
    NoDocument,
    #[error("more templates and procedures are open than the limit")]
    Instances,
    #[error("the name is not allowed in a result")]
    BadName,
    #[error("a character is not a Char")]
    BadChar,
    #[error("the comment is not allowed in a result")]
    BadComment,
    #[error("the processing instruction is not allowed in a result")]
    BadPi,
    #[error("an attribute after the start tag")]
    LateAttribute,
    #[error("an end without an open element")]
    UnmatchedEnd,
    #[error("an end of another element than the innermost one")]
    WrongEnd,
    #[error("an element of the result is left open")]
    UnclosedResult,
    #[error("more result elements are open than the limit")]
    ResultDepth,
    #[error("the buffer has more weight than the limit")]
    BufferFull,
}

/// A fault of a document.
#[derive(Clone, Copy, Debug, PartialEq, Eq, Error)]
#[error("{kind} at byte {offset}")]
pub struct XmlFault {
    pub kind: XmlKind,
    /// In bytes from the document's first one, a byte order mark included.
    pub offset: u64,
}

/// A fault of a sheet.
#[derive(Debug, Drop, Error)]
#[error("{code} at byte {offset}")]
pub struct SheetFault {
    /// The file that has it.
    pub file: Text,
    pub code: SheetCode,
    /// In bytes from the file's first one.
    pub offset: u64,
}

/// A place in a sheet: a file by its number, and a byte of it.
#[derive(Clone, Copy, Debug, PartialEq, Eq)]
pub struct Place {
    pub file: u32,
    pub offset: u64,
}

/// A fault of a run.
#[derive(Clone, Copy, Debug, PartialEq, Eq, Error)]
#[error("{code}")]
pub struct RunFault {
    pub code: RunCode,
    /// The instruction that it comes from.
    pub at: Place,
}
