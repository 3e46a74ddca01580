//! The attributes of each element, and the forms of their values.

ghost use Rattle.std.specs.Prelude.{◌≡◌, map};
ghost use Rattle.sheet_loader.specs.Attributes as spec;
ghost use Rattle.sheet_loader.specs.Meant.{kind_of, row_of};

use crate::kind::Kind;
use stxpath_syntax::Dialect;

/// The form of an attribute's value.
#[derive(Clone, Copy, Debug, PartialEq, Eq)]
pub enum Form {
    YesOrNo,
    Visibility,
    Version,
    /// The kinds of nodes that are passed through.
    Passing,
    /// A priority in hundredths.
    Priority,
    /// A name, with its prefix resolved; without one it is in no namespace.
    Named,
    Expression,
    Pattern,
    /// Attribute tests with bars between them, read as a pattern.
    Tests,
    /// Plain text with expressions in braces.
    Template,
    /// Any text.
    Any,
}

/// An attribute of an element.
#[derive(Clone, Copy, Debug)]
pub struct Row {
    pub name: &'static str,
    pub is_required: bool,
    pub form: Form,
}

const VERSION: Row = Row {
    name: "version",
    is_required: true,
    form: Form::Version,
};

const PASS: Row = Row {
    name: "pass-through",
    is_required: false,
    form: Form::Passing,
};

const STRIP: Row = Row {
    name: "strip-space",
    is_required: false,
    form: Form::YesOrNo,
};

const CDATA: Row = Row {
    name: "recognize-cdata",
    is_required: false,
    form: Form::YesOrNo,
};

const MATCH: Row = Row {
    name: "match",
    is_required: true,
    form: Form::Pattern,
};

const PRIORITY: Row = Row {
    name: "priority",
    is_required: false,
    form: Form::Priority,
};

const VISIBILITY: Row = Row {
    name: "visibility",
    is_required: false,
    form: Form::Visibility,
};

const PUBLIC: Row = Row {
    name: "public",
    is_required: false,
    form: Form::YesOrNo,
};

const NEW_SCOPE: Row = Row {
    name: "new-scope",
    is_required: false,
    form: Form::YesOrNo,
};

const KEEP: Row = Row {
    name: "keep-value",
    is_required: false,
    form: Form::YesOrNo,
};

const CLEAR: Row = Row {
    name: "clear",
    is_required: false,
    form: Form::YesOrNo,
};

const HREF: Row = Row {
    name: "href",
    is_required: true,
    form: Form::Any,
};

const COMPUTED_HREF: Row = Row {
    name: "href",
    is_required: true,
    form: Form::Template,
};

const NAME: Row = Row {
    name: "name",
    is_required: true,
    form: Form::Named,
};

const MAYBE_NAME: Row = Row {
    name: "name",
    is_required: false,
    form: Form::Named,
};

const COMPUTED_NAME: Row = Row {
    name: "name",
    is_required: true,
    form: Form::Template,
};

const NAMESPACE: Row = Row {
    name: "namespace",
    is_required: false,
    form: Form::Template,
};

const GROUP: Row = Row {
    name: "group",
    is_required: false,
    form: Form::Named,
};

const SELECT: Row = Row {
    name: "select",
    is_required: true,
    form: Form::Expression,
};

const MAYBE_SELECT: Row = Row {
    name: "select",
    is_required: false,
    form: Form::Expression,
};

const TEST: Row = Row {
    name: "test",
    is_required: true,
    form: Form::Expression,
};

const SEPARATOR: Row = Row {
    name: "separator",
    is_required: false,
    form: Form::Template,
};

const TESTS: Row = Row {
    name: "attributes",
    is_required: false,
    form: Form::Tests,
};

const GOING: Row = Row {
    name: "while",
    is_required: false,
    form: Form::Pattern,
};

const UNTIL: Row = Row {
    name: "until",
    is_required: false,
    form: Form::Pattern,
};

static OF_TRANSFORM: [Row; 3] = [VERSION, PASS, STRIP];

static OF_TRANSFORM_WITH_CDATA: [Row; 4] = [VERSION, PASS, STRIP, CDATA];

static OF_GROUP: [Row; 2] = [MAYBE_NAME, PASS];

static OF_TEMPLATE: [Row; 5] = [MATCH, PRIORITY, VISIBILITY, PUBLIC, NEW_SCOPE];

static OF_INCLUDE: [Row; 1] = [HREF];

static OF_PARAM: [Row; 2] = [NAME, MAYBE_SELECT];

static OF_GROUP_VARIABLE: [Row; 3] = [NAME, MAYBE_SELECT, KEEP];

static OF_NAMED: [Row; 1] = [NAME];

static OF_VALUE: [Row; 2] = [SELECT, SEPARATOR];

static OF_COPY: [Row; 1] = [TESTS];

static OF_ELEMENT: [Row; 2] = [COMPUTED_NAME, NAMESPACE];

static OF_ATTRIBUTE: [Row; 3] = [COMPUTED_NAME, NAMESPACE, MAYBE_SELECT];

static OF_CONTENT: [Row; 1] = [MAYBE_SELECT];

static OF_INSTRUCTION: [Row; 2] = [COMPUTED_NAME, MAYBE_SELECT];

static OF_TEST: [Row; 1] = [TEST];

static OF_ASSIGNED: [Row; 2] = [NAME, SELECT];

static OF_PROCESS: [Row; 1] = [GROUP];

static OF_SIBLINGS: [Row; 3] = [GOING, UNTIL, GROUP];

static OF_READ_BUFFER: [Row; 2] = [NAME, GROUP];

static OF_DOCUMENT: [Row; 2] = [COMPUTED_HREF, GROUP];

static OF_WRITTEN_BUFFER: [Row; 2] = [NAME, CLEAR];

static NONE: [Row; 0] = [];

/// The attributes of an element, in their order; `in_body` says that a variable stands in a body.
pub fn rows(dialect: Dialect, in_body: bool, kind: Kind) -> &'static [Row]
    ensures { map row_of result.now ≡ spec.rows dialect in_body (kind_of kind) }
{
    match kind {
        Kind::Transform => match dialect {
            Dialect::One => &OF_TRANSFORM,
            Dialect::OneOne => &OF_TRANSFORM_WITH_CDATA,
        },
        Kind::Group => &OF_GROUP,
        Kind::Template => &OF_TEMPLATE,
        Kind::Procedure => &OF_NAMED,
        Kind::Include => &OF_INCLUDE,
        Kind::Param => &OF_PARAM,
        Kind::Variable => if in_body {
            &OF_PARAM
        } else {
            &OF_GROUP_VARIABLE
        },
        Kind::Buffer => &OF_NAMED,
        Kind::ValueOf => &OF_VALUE,
        Kind::Chars => &NONE,
        Kind::Copy => &OF_COPY,
        Kind::Element => &OF_ELEMENT,
        Kind::StartElement => &OF_ELEMENT,
        Kind::EndElement => &OF_ELEMENT,
        Kind::Attribute => &OF_ATTRIBUTE,
        Kind::Comment => &OF_CONTENT,
        Kind::Instruction => &OF_INSTRUCTION,
        Kind::Message => &OF_CONTENT,
        Kind::If => &OF_TEST,
        Kind::Else => &NONE,
        Kind::Choose => &NONE,
        Kind::When => &OF_TEST,
        Kind::Otherwise => &NONE,
        Kind::ForEachItem => &OF_ASSIGNED,
        Kind::While => &OF_TEST,
        Kind::Assign => &OF_ASSIGNED,
        Kind::CallProcedure => &OF_NAMED,
        Kind::ProcessChildren => &OF_PROCESS,
        Kind::ProcessAttributes => &OF_PROCESS,
        Kind::ProcessSelf => &OF_PROCESS,
        Kind::ProcessSiblings => &OF_SIBLINGS,
        Kind::ProcessBuffer => &OF_READ_BUFFER,
        Kind::ProcessDocument => &OF_DOCUMENT,
        Kind::ResultBuffer => &OF_WRITTEN_BUFFER,
        Kind::WithParam => &OF_ASSIGNED,
    }
}
