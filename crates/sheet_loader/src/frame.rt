//! Open elements, and open files.

ghost use Rattle.std.specs.Prelude.{◌≡◌, ◌++◌, ◌∷◌, [], None, OnOk, false, is_some};
ghost use Rattle.sheet_loader.specs.Keys.{names_in};
ghost use Rattle.sheet_loader.specs.Drafts as spec;
ghost use Rattle.sheet_loader.specs.Elements.{is_allowed};
ghost use Rattle.sheet_loader.specs.Meant.{before_of, inside_of, kind_of};

use crate::declared::Own;
use crate::inside::{Before, Inside};
use crate::item::Item;
use crate::kind::Kind;
use crate::names::NameSet;
use crate::values::Values;
use sheet_model::{LiteralAttr, Pass};
use std::alloc::Global;
use stx_base::{Binding, List, Memory, Name};
use stxpath_syntax::Dialect;

/// What a list stands in, with what it says itself.
#[derive(Drop)]
pub enum Opened {
    /// The sheet's own file.
    Sheet,
    /// A file that is included, by this one.
    File(OpenFile),
    /// An element of the language, with the name that it declares or refers to.
    Element {
        kind: Kind,
        values: Values,
        own: Own,
    },
    /// A literal element of a body.
    Literal {
        name: Name,
        attrs: List<LiteralAttr>,
    },
    /// A literal element of a buffer's content, and how many parts stand before it.
    Part {
        name: Name,
        start: usize,
    },
}

/// A list that is read: what it stands in, what it may hold, and what it came to so far.
#[derive(Drop)]
pub struct Frame {
    pub opened: Opened,
    pub inside: Inside,
    /// The start tag of its element.
    pub at: u64,
    /// The group in which it stands, and what that passes through.
    pub group: u32,
    pub pass: Pass,
    pub items: List<Item>,
    /// What the last of them is.
    pub before: Before,
    /// The parameters that have a value in it.
    pub given: NameSet,
    /// How many locals, and how many namespace declarations, are in force around the element, and how many parts stand before the list.
    pub locals: usize,
    pub around: usize,
    pub parts: usize,
}

impl Frame {
    /// The list of the sheet's own file, of which nothing is read.
    pub fn of_sheet(alloc: Global) -> Frame
        ensures list { result ≡ record { opened = Opened.Sheet; inside = Inside.Document false; at = 0; group = 0; pass = Pass.None; items = []; before = Before.Something; given = result.given; locals = 0; around = 0; parts = 0 } }
        ensures given { names_in result.given ≡ [] }
    {
        Frame {
            opened: Opened::Sheet,
            inside: Inside::Document { included: false },
            at: 0,
            group: 0,
            pass: Pass::None,
            items: List::new(alloc),
            before: Before::Something,
            given: NameSet::new(alloc),
            locals: 0,
            around: 0,
            parts: 0,
        }
    }

    /// Whether an element of the language may come next.
    pub fn allows(&self, kind: Kind) -> bool
        ensures { result ≡ is_allowed (inside_of self.now.inside) (before_of self.now.before) (kind_of kind) }
    {
        self.inside.allows(self.before, kind)
    }

    /// Behind anything but parameters no parameter may stand.
    pub fn add(&mut self, item: Item) -> Result<(), Memory>
        ensures { OnOk result (spec.Adds item self.old self.new) }
    {
        if self.inside == Inside::StartOfBody && !item.is_param() {
            self.inside = Inside::Body;
        }
        self.before = item.before();
        self.items.push(item)
    }
}

/// How a file is read, and whether its root names a version that there is.
#[derive(Clone, Copy, Debug, PartialEq, Eq)]
pub struct Version {
    pub dialect: Dialect,
    pub is_known: bool,
}

/// A file that is read.
#[derive(Drop)]
pub struct OpenFile {
    pub number: u32,
    /// That of its root, once it is read.
    pub version: Option<Version>,
    /// The namespace declarations in force, the outermost first.
    pub scope: List<Binding>,
}

impl OpenFile {
    pub fn new(alloc: Global, number: u32) -> OpenFile
        ensures { result ≡ record { number = number; version = None; scope = [] } }
    {
        OpenFile {
            number,
            version: None,
            scope: List::new(alloc),
        }
    }

    /// The version of what stands in the root.
    pub fn version(&self) -> Version
        ensures { result ≡ spec.version_or_default self.now.version }
    {
        match self.version {
            Some(version) => version,
            None => Version {
                dialect: Dialect::One,
                is_known: false,
            },
        }
    }

    /// Takes the declarations of a tag.
    pub fn declare(&mut self, decls: List<Binding>) -> Result<(), Memory>
        ensures { OnOk result (self.new ≡ record self.old { scope = self.old.scope ++ decls }) }
    {
        for binding in decls.into_vec() {
            self.scope.push(binding)?;
        }
        Ok(())
    }
}
