//! The elements of the language.

ghost use Rattle.std.specs.Prelude.{◌≡◌, bytes_eq, find, true, nat_lt};
ghost use Rattle.std.specs.List.{list_all};
ghost use Rattle.std.specs.Option.{option_map};
ghost use Rattle.std.specs.Str.{chars};
ghost use Rattle.sheet_loader.specs.Elements as element;
ghost use Rattle.sheet_loader.specs.Meant.{kind_of};
ghost use Rattle.sheet_loader.specs.Meant as meant;

/// An element, by the local part of its name.
#[derive(Clone, Copy, Debug, PartialEq, Eq)]
pub enum Kind {
    Transform,
    Group,
    Template,
    Procedure,
    Include,
    Param,
    Variable,
    Buffer,
    ValueOf,
    /// The element `text`.
    Chars,
    Copy,
    Element,
    StartElement,
    EndElement,
    Attribute,
    Comment,
    /// The element `processing-instruction`.
    Instruction,
    Message,
    If,
    Else,
    Choose,
    When,
    Otherwise,
    ForEachItem,
    While,
    Assign,
    CallProcedure,
    ProcessChildren,
    ProcessAttributes,
    ProcessSelf,
    ProcessSiblings,
    ProcessBuffer,
    ProcessDocument,
    ResultBuffer,
    WithParam,
}

const KINDS: [Kind; 35] = [
    Kind::Transform,
    Kind::Group,
    Kind::Template,
    Kind::Procedure,
    Kind::Include,
    Kind::Param,
    Kind::Variable,
    Kind::Buffer,
    Kind::ValueOf,
    Kind::Chars,
    Kind::Copy,
    Kind::Element,
    Kind::StartElement,
    Kind::EndElement,
    Kind::Attribute,
    Kind::Comment,
    Kind::Instruction,
    Kind::Message,
    Kind::If,
    Kind::Else,
    Kind::Choose,
    Kind::When,
    Kind::Otherwise,
    Kind::ForEachItem,
    Kind::While,
    Kind::Assign,
    Kind::CallProcedure,
    Kind::ProcessChildren,
    Kind::ProcessAttributes,
    Kind::ProcessSelf,
    Kind::ProcessSiblings,
    Kind::ProcessBuffer,
    Kind::ProcessDocument,
    Kind::ResultBuffer,
    Kind::WithParam,
];

/// The local part of the element's name.
fn word_of(kind: Kind) -> &'static str
    ensures { result.now ≡ meant.word_of kind }
{
    match kind {
        Kind::Transform => "transform",
        Kind::Group => "group",
        Kind::Template => "template",
        Kind::Procedure => "procedure",
        Kind::Include => "include",
        Kind::Param => "param",
        Kind::Variable => "variable",
        Kind::Buffer => "buffer",
        Kind::ValueOf => "value-of",
        Kind::Chars => "text",
        Kind::Copy => "copy",
        Kind::Element => "element",
        Kind::StartElement => "start-element",
        Kind::EndElement => "end-element",
        Kind::Attribute => "attribute",
        Kind::Comment => "comment",
        Kind::Instruction => "processing-instruction",
        Kind::Message => "message",
        Kind::If => "if",
        Kind::Else => "else",
        Kind::Choose => "choose",
        Kind::When => "when",
        Kind::Otherwise => "otherwise",
        Kind::ForEachItem => "for-each-item",
        Kind::While => "while",
        Kind::Assign => "assign",
        Kind::CallProcedure => "call-procedure",
        Kind::ProcessChildren => "process-children",
        Kind::ProcessAttributes => "process-attributes",
        Kind::ProcessSelf => "process-self",
        Kind::ProcessSiblings => "process-siblings",
        Kind::ProcessBuffer => "process-buffer",
        Kind::ProcessDocument => "process-document",
        Kind::ResultBuffer => "result-buffer",
        Kind::WithParam => "with-param",
    }
}

impl Kind {
    /// Whether the element is a group of the sheet.
    pub fn makes_group(self) -> bool
        ensures { result ≡ element.makes_group (kind_of self) }
    {
        match self {
            Kind::Group | Kind::Transform => true,
            _ => false,
        }
    }
}

/// The first of these whose name is the text.
fn first_named(kinds: &[Kind], local: &str) -> Option<Kind>
    ensures { result ≡ find (λ k. bytes_eq (meant.word_of k) local.now) kinds.now }
{
    for kind in kinds {
        if word_of(*kind) == local {
            return Some(*kind);
        }
    }
    None
}

/// The element of this name.
pub fn kind_named(local: &str) -> Option<Kind>
    ensures { option_map kind_of result ≡ element.kind_named (chars local.now) }
{
    first_named(&KINDS, local)
}
