//! What stands where.

ghost use Rattle.std.specs.Prelude.{◌≡◌, false, if◌then◌else◌};
ghost use Rattle.sheet_loader.specs.Elements as element;
ghost use Rattle.sheet_loader.specs.Judging as judging;
ghost use Rattle.sheet_loader.specs.Meant.{kind_of, inside_of, before_of};
ghost use Rattle.sheet_loader.specs.Sound.{is_document, is_of_parts};

use crate::kind::Kind;

/// What the list of an element may hold. Comments and processing instructions may stand everywhere, and count for nothing.
#[derive(Clone, Copy, Debug, PartialEq, Eq)]
pub enum Inside {
    /// A file: its root, of the sheet itself or of a file that is included.
    Document { included: bool },
    /// Groups, templates, procedures, includes, variables and buffers; in the transform of the sheet itself parameters too.
    Declarations { params: bool },
    /// Parameters, and then a body.
    StartOfBody,
    Body,
    /// The branches of a choose.
    Branches,
    /// Values for parameters.
    WithParams,
    /// Characters; white space alone is dropped unless it is kept.
    Characters { kept: bool },
    /// Texts and literal elements, written as they are.
    Parts,
    Nothing,
}

/// What stands before an element in its list, as far as it counts.
#[derive(Clone, Copy, Debug, PartialEq, Eq)]
pub enum Before {
    Something,
    /// An if without an else.
    AfterIf,
    AfterOtherwise,
}

impl Kind {
    fn is_declaration(self) -> bool
        ensures { result ≡ element.is_declaration (kind_of self) }
    {
        match self {
            Kind::Group
            | Kind::Template
            | Kind::Procedure
            | Kind::Include
            | Kind::Variable
            | Kind::Buffer => true,
            _ => false,
        }
    }

    fn is_param(self) -> bool
        ensures { result ≡ element.is_param (kind_of self) }
    {
        match self {
            Kind::Param => true,
            _ => false,
        }
    }

    /// An instruction of a body; an else has its place directly behind an if.
    fn is_instruction(self) -> bool
        ensures { result ≡ element.is_instruction (kind_of self) }
    {
        match self {
            Kind::Transform
            | Kind::Group
            | Kind::Template
            | Kind::Procedure
            | Kind::Include
            | Kind::Param
            | Kind::Buffer
            | Kind::Else
            | Kind::When
            | Kind::Otherwise
            | Kind::WithParam => false,
            _ => true,
        }
    }

    fn may_be_else(self, before: Before) -> bool
        ensures { result ≡ element.may_be_else (before_of before) (kind_of self) }
    {
        match (before, self) {
            (Before::AfterIf, Kind::Else) => true,
            _ => false,
        }
    }

    /// A branch of a choose: nothing comes behind an otherwise.
    fn is_branch(self, before: Before) -> bool
        ensures { result ≡ element.is_branch (before_of before) (kind_of self) }
    {
        match (before, self) {
            (Before::AfterOtherwise, _) => false,
            (_, Kind::When | Kind::Otherwise) => true,
            _ => false,
        }
    }

    fn is_with_param(self) -> bool
        ensures { result ≡ element.is_with_param (kind_of self) }
    {
        match self {
            Kind::WithParam => true,
            _ => false,
        }
    }

    pub fn is_transform(self) -> bool
        ensures { result ≡ element.is_transform (kind_of self) }
    {
        match self {
            Kind::Transform => true,
            _ => false,
        }
    }
}

impl Inside {
    /// Whether an element of the language may stand there.
    pub fn allows(self, before: Before, kind: Kind) -> bool
        ensures { result ≡ element.is_allowed (inside_of self) (before_of before) (kind_of kind) }
    {
        match self {
            Inside::Document { .. } => kind.is_transform(),
            Inside::Declarations { params } => kind.is_declaration() || (params && kind.is_param()),
            Inside::StartOfBody => kind.is_param() || kind.is_instruction(),
            Inside::Body => kind.is_instruction() || kind.may_be_else(before),
            Inside::Branches => kind.is_branch(before),
            Inside::WithParams => kind.is_with_param(),
            Inside::Characters { .. } | Inside::Parts | Inside::Nothing => false,
        }
    }

    /// A file, whose root is next.
    pub fn is_document(self) -> bool
        ensures { result ≡ is_document (inside_of self) }
    {
        match self {
            Inside::Document { .. } => true,
            _ => false,
        }
    }

    /// The content of a buffer.
    pub fn is_of_parts(self) -> bool
        ensures { result ≡ is_of_parts (inside_of self) }
    {
        match self {
            Inside::Parts => true,
            _ => false,
        }
    }

    /// Whether a literal element may stand there.
    pub fn allows_literals(self) -> bool
        ensures { result ≡ element.allows_literals (inside_of self) }
    {
        match self {
            Inside::StartOfBody | Inside::Body | Inside::Parts => true,
            _ => false,
        }
    }

    /// Whether a text that is no white space may stand there.
    pub fn allows_text(self) -> bool
        ensures { result ≡ element.allows_text (inside_of self) }
    {
        match self {
            Inside::StartOfBody | Inside::Body | Inside::Parts | Inside::Characters { .. } => true,
            _ => false,
        }
    }

    /// Whether a text of white space alone counts there.
    pub fn keeps_space(self) -> bool
        ensures { result ≡ element.keeps_space (inside_of self) }
    {
        match self {
            Inside::Characters { kept } => kept,
            _ => false,
        }
    }

    /// Whether declarations stand there.
    pub fn is_of_declarations(self) -> bool
        ensures { result ≡ judging.is_declared_here (inside_of self) }
    {
        match self {
            Inside::Declarations { .. } => true,
            _ => false,
        }
    }

    /// Whether it is the file of the sheet itself.
    pub fn is_own(self) -> bool
        ensures { result ≡ element.is_own (inside_of self) }
    {
        match self {
            Inside::Document { included } => !included,
            _ => false,
        }
    }

    /// What the list of an element holds that stands there; `has_select` says that its content comes from its attribute.
    pub fn of(self, kind: Kind, has_select: bool) -> Inside
        ensures { inside_of result ≡ element.inside_of (inside_of self) (kind_of kind) has_select }
    {
        match kind {
            Kind::Transform => Inside::Declarations {
                params: self.is_own(),
            },
            Kind::Group => Inside::Declarations { params: false },
            Kind::Template | Kind::Procedure => Inside::StartOfBody,
            Kind::Buffer => Inside::Parts,
            Kind::Chars => Inside::Characters { kept: true },
            Kind::Copy
            | Kind::Element
            | Kind::If
            | Kind::Else
            | Kind::When
            | Kind::Otherwise
            | Kind::ForEachItem
            | Kind::While
            | Kind::ResultBuffer => Inside::Body,
            Kind::Attribute | Kind::Comment | Kind::Instruction | Kind::Message => content(
                has_select,
            ),
            Kind::Choose => Inside::Branches,
            Kind::CallProcedure
            | Kind::ProcessChildren
            | Kind::ProcessAttributes
            | Kind::ProcessSelf
            | Kind::ProcessSiblings
            | Kind::ProcessBuffer
            | Kind::ProcessDocument => Inside::WithParams,
            _ => Inside::Nothing,
        }
    }
}

/// The content of an instruction that has it from its attribute, or else from the characters in it.
fn content(has_select: bool) -> Inside
    ensures { inside_of result ≡ (if has_select then element.Nothing else element.Characters false) }
{
    if has_select {
        Inside::Nothing
    } else {
        Inside::Characters { kept: false }
    }
}
