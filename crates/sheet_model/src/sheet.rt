use crate::instr::Instr;
use crate::pass::Pass;
use stx_base::{List, Name, Part, Place, Text};
use stxpath_syntax::{Expr, Pattern};

/// A sheet, each list in the order of its text, where an include stands for its file. Groups, files and the others are
/// named by their numbers in these lists, from 0.
#[derive(Debug, Drop)]
pub struct Sheet {
    /// The first is the root.
    pub groups: List<Group>,
    pub templates: List<Template>,
    pub procedures: List<Procedure>,
    pub buffers: List<Buffer>,
    /// The variables and parameters of all groups.
    pub variables: List<Variable>,
    /// Whether text nodes of white space alone are no nodes.
    pub strip: bool,
    /// Whether CDATA sections are nodes of their own.
    pub cdata: bool,
    pub files: List<Text>,
}

#[derive(Debug, Drop)]
pub struct Group {
    /// The root has none.
    pub parent: Option<u32>,
    pub name: Option<Name>,
    /// What the group passes through, as it says itself or has it from its parent.
    pub pass: Pass,
    pub at: Place,
}

/// From where a template is seen.
#[derive(Clone, Copy, Debug, PartialEq, Eq)]
pub enum Visibility {
    /// Its own group.
    Local,
    /// The groups within its group too.
    Group,
    /// All groups.
    Global,
}

#[derive(Debug, Drop)]
pub struct Template {
    pub group: u32,
    pub pattern: Pattern,
    /// In hundredths, where the sheet says one.
    pub priority: Option<i32>,
    pub visibility: Visibility,
    /// Whether the parent of its group sees it as its own.
    pub public: bool,
    /// Whether it runs on new copies of its group's variables and buffers.
    pub new_scope: bool,
    pub params: List<Variable>,
    pub body: List<Instr>,
    pub at: Place,
}

#[derive(Debug, Drop)]
pub struct Procedure {
    pub group: u32,
    pub name: Name,
    pub params: List<Variable>,
    pub body: List<Instr>,
    pub at: Place,
}

#[derive(Debug, Drop)]
pub struct Buffer {
    pub group: u32,
    pub name: Name,
    /// What each new copy begins with.
    pub content: List<Part>,
    pub at: Place,
}

/// A variable or a parameter of a group, or a parameter of a template or a procedure.
#[derive(Debug, Drop)]
pub struct Variable {
    pub group: u32,
    pub name: Name,
    /// Without one it has the empty text.
    pub select: Option<Expr>,
    /// Whether a new copy of its group keeps its value.
    pub keep: bool,
    pub param: bool,
    pub at: Place,
}
