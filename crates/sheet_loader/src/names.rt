//! Names without their prefixes, as sets hold them.

ghost use Rattle.std.specs.Prelude.{◌≡◌, [], take, length, OnOk, IfOk};
ghost use Rattle.sheet_model.specs.Names.{is_among};
ghost use Rattle.sheet_loader.specs.Making.{bare};
ghost use Rattle.sheet_loader.specs.Keys.{name_of, names_in, with_name};

use indexmap::IndexSet;
use std::alloc::Global;
use stx_base::{Memory, Name};

/// An expanded name (Namespaces in XML 1.0, 2.1).
#[derive(Debug, PartialEq, Eq, Hash, Drop)]
pub struct Expanded {
    pub uri: String,
    pub local: String,
}

impl Expanded {
    /// A name, whatever its prefix.
    pub fn of(alloc: Global, name: &Name) -> Result<Expanded, Memory>
        ensures { IfOk result (λ made. name_of made ≡ bare name.now) }
    {
        let uri = String::from_str(alloc, name.uri.as_str())?;
        let local = String::from_str(alloc, name.local.as_str())?;
        Ok(Expanded { uri, local })
    }

    /// The same name.
    pub fn again(&self, alloc: Global) -> Result<Expanded, Memory>
        ensures { IfOk result (λ made. name_of made ≡ name_of self.now) }
    {
        let uri = String::from_str(alloc, self.uri.as_str())?;
        let local = String::from_str(alloc, self.local.as_str())?;
        Ok(Expanded { uri, local })
    }
}

/// Names, each once, in the order in which they came.
#[derive(Drop)]
pub struct NameSet {
    names: IndexSet<Expanded>,
}

impl NameSet {
    pub fn new(alloc: Global) -> NameSet
        ensures { names_in result ≡ [] }
    {
        NameSet {
            names: IndexSet::new(alloc),
        }
    }

    pub fn has(&self, name: &Expanded) -> bool
        ensures { result ≡ is_among (names_in self.now) (name_of name.now) }
    {
        self.names.contains(name)
    }

    pub fn add(&mut self, name: Expanded) -> Result<(), Memory>
        ensures { OnOk result (names_in self.new ≡ with_name (names_in self.old) (name_of name)) }
    {
        self.names.insert(name)?;
        Ok(())
    }

    pub fn len(&self) -> usize
        ensures { result ≡ length (names_in self.now) }
    {
        self.names.len()
    }

    /// Drops all names but the first `len`.
    pub fn truncate(&mut self, len: usize)
        ensures { names_in self.new ≡ take len (names_in self.old) }
    {
        self.names.truncate(len);
    }
}
