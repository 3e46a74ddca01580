ghost use Rattle.std.specs.Prelude.{◌≡◌, ◌↔◌, IsTrue};

use crate::copied::Copied;
use crate::memory::Memory;
use crate::text::Text;
use std::alloc::Global;

/// An expanded name (Namespaces in XML 1.0, 2.1), with its prefix as written.
#[derive(Debug, Drop)]
pub struct Name {
    /// The namespace's URI; empty for no namespace.
    pub uri: Text,
    pub local: Text,
    /// Empty where the name has none.
    pub prefix: Text,
}

/// A namespace declaration (Namespaces in XML 1.0, 3).
#[derive(Debug, Drop)]
pub struct Binding {
    /// Empty for the default namespace.
    pub prefix: Text,
    /// Empty where the declaration takes the default namespace away.
    pub uri: Text,
}

/// An attribute that is no declaration.
#[derive(Debug, Drop)]
pub struct Attr {
    pub name: Name,
    pub value: Text,
}

impl Name {
    /// Whether the expanded names agree: URI and local part, whatever the prefixes.
    pub fn same(&self, other: &Name) -> bool
        ensures { IsTrue result ↔ ((self.now.uri ≡ other.now.uri) × (self.now.local ≡ other.now.local)) }
    {
        self.uri.same(&other.uri) && self.local.same(&other.local)
    }
}

impl Copied for Name {
    fn copy(&self, alloc: Global) -> Result<Name, Memory> {
        let uri = self.uri.copy(alloc)?;
        let local = self.local.copy(alloc)?;
        let prefix = self.prefix.copy(alloc)?;
        Ok(Name { uri, local, prefix })
    }
}

impl Copied for Binding {
    fn copy(&self, alloc: Global) -> Result<Binding, Memory> {
        let prefix = self.prefix.copy(alloc)?;
        let uri = self.uri.copy(alloc)?;
        Ok(Binding { prefix, uri })
    }
}

impl Copied for Attr {
    fn copy(&self, alloc: Global) -> Result<Attr, Memory> {
        let name = self.name.copy(alloc)?;
        let value = self.value.copy(alloc)?;
        Ok(Attr { name, value })
    }
}
