ghost use Rattle.std.specs.Prelude.{◌≡◌, ◌≤◌, ◌<◌, [], ◌∷◌, ◌++◌, length, map, take, OnOk, OnErr, Some, slice_get};
ghost use Rattle.frame_stack.specs.Locals.{local, with_value};

use std::alloc::Global;
use std::marker::Model;
use stx_base::{Copied, List, Memory, Name};
use stxpath_values::Atom;

/// A variable of a body, or a value that waits.
#[derive(Debug, Drop)]
pub struct Local {
    pub name: Name,
    pub value: List<Atom>,
}

/// The variables of a body, in the order of their declaration, seen as the list of them. They stand apart, so that a frame is
/// small: frames are moved for each element, and most have none.
#[derive(Debug, Drop)]
pub struct Locals {
    entries: Vec<Local>,
}

impl Model for Locals {
    ghost use Rattle.std.specs.Prelude.{List};
    ghost use Rattle.frame_stack.specs.declared.locals.Local.{Local};

    ghost Value = { List Local };

    ghost view = { λ locals. locals.entries.items };
}

impl Locals {
    /// None. Allocates nothing.
    pub fn new(alloc: Global) -> Locals
        ensures { result ≡ [] }
    {
        Locals {
            entries: Vec::new(alloc),
        }
    }

    pub fn len(&self) -> usize
        ensures { result ≡ length self.now }
    {
        self.entries.len()
    }

    pub fn name(&self, index: usize) -> &Name
        requires { index < length self.now }
        ensures { slice_get (map (λ entry. entry.name) self.now) index ≡ Some result.now }
    {
        &self.entries[index].name
    }

    pub fn value(&self, index: usize) -> &List<Atom>
        requires { index < length self.now }
        ensures { slice_get (map (λ entry. entry.value) self.now) index ≡ Some result.now }
    {
        &self.entries[index].value
    }

    /// Appends a local. After a refusal nothing has changed.
    pub fn push(&mut self, name: Name, value: List<Atom>) -> Result<(), Memory>
        ensures ok { OnOk result (self.new ≡ self.old ++ local name value ∷ []) }
        ensures err { OnErr result (self.new ≡ self.old) }
    {
        self.entries.push(Local { name, value })?;
        Ok(())
    }

    /// Gives one local another value. Allocates nothing.
    pub fn set(&mut self, index: usize, value: List<Atom>)
        requires { index < length self.old }
        ensures { self.new ≡ with_value index value self.old }
    {
        let entry = &mut self.entries[index];
        entry.value = value;
    }

    /// Keeps the first `len` locals. Allocates nothing.
    pub fn cut(&mut self, len: usize)
        requires { len ≤ length self.old }
        ensures { self.new ≡ take len self.old }
    {
        self.entries.truncate(len);
    }
}

impl Copied for Local {
    fn copy(&self, alloc: Global) -> Result<Local, Memory> {
        let name = self.name.copy(alloc)?;
        let value = self.value.copy(alloc)?;
        Ok(Local { name, value })
    }
}

impl Copied for Locals {
    fn copy(&self, alloc: Global) -> Result<Locals, Memory> {
        let mut entries = Vec::with_capacity(alloc, self.entries.len())?;
        for entry in &self.entries {
            let copy = entry.copy(alloc)?;
            entries.push(copy)?;
        }
        Ok(Locals { entries })
    }
}
