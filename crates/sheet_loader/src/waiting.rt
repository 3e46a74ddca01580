//! References, which wait for the whole sheet.

ghost use Rattle.std.specs.Prelude.{◌≡◌};
ghost use Rattle.sheet_loader.specs.References as spec;
ghost use Rattle.sheet_loader.specs.Known.{Knows, known_of, sought_of};
ghost use Rattle.sheet_model.specs.declared.sheet.Sheet.{Sheet};

use crate::declared::{Declared, Own};
use crate::names::Expanded;
use sheet_model::Group;
use stx_base::{List, Place, SheetCode};

/// What is referred to.
#[derive(Debug, Drop)]
pub enum Wanted {
    Group(Expanded),
    Procedure(Own),
    Buffer(Own),
    Variable(Own),
    /// A variable that nothing declares before it is named.
    NoVariable,
}

/// A reference, with the start tag that has it.
#[derive(Debug, Drop)]
pub struct Reference {
    pub at: Place,
    pub wanted: Wanted,
}

impl Wanted {
    /// The code where nothing is found.
    pub fn code(&self) -> SheetCode
        ensures { result ≡ spec.code_of (sought_of self.now) }
    {
        match self {
            Wanted::Group(_) => SheetCode::NoGroup,
            Wanted::Procedure(_) => SheetCode::NoProcedure,
            Wanted::Buffer(_) => SheetCode::NoBuffer,
            Wanted::Variable(_) | Wanted::NoVariable => SheetCode::NoVariable,
        }
    }

    pub fn is_found(self, declared: &Declared, groups: &List<Group>) -> bool
        ensures { (sheet : Sheet) → Knows (known_of declared.now) sheet → groups.now ≡ sheet.groups → result ≡ spec.is_found sheet (sought_of self) }
    {
        match self {
            Wanted::Group(name) => declared.groups.has(&name),
            Wanted::Procedure(own) => declared.procedures.is_seen(groups, own),
            Wanted::Buffer(own) => declared.buffers.is_seen(groups, own),
            Wanted::Variable(own) => declared.variables.is_seen(groups, own),
            Wanted::NoVariable => false,
        }
    }
}
