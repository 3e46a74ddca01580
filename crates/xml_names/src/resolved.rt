use std::alloc::AllocError;
use stx_base::{Attr, Binding, List, Memory, Name, XmlKind};
use thiserror::Error;

/// What a start tag says, its names expanded (Namespaces in XML 1.0, 2.1).
#[derive(Debug, Drop)]
pub struct Resolved {
    pub name: Name,
    /// Those that aren't declarations, in the tag's order.
    pub attrs: List<Attr>,
    /// What the tag declares, in its order.
    pub decls: List<Binding>,
}

/// Why a start tag was not taken.
#[derive(Clone, Copy, Debug, PartialEq, Eq, Error)]
pub enum NameFault {
    /// `BadName`, `BadBinding`, `UndeclaredPrefix` or `DuplicateAttribute`: the first of these that applies.
    #[error("{0}")]
    Xml(XmlKind),
    #[error("out of memory")]
    Memory,
}

impl From<Memory> for NameFault {
    ghost use Rattle.std.specs.Prelude.{◌≡◌};
    ghost use Rattle.xml_names.specs.declared.resolved.NameFault.TheVariants as fault;

    ghost from_gives = { λ memory answer. answer ≡ fault.Memory };

    fn from(_memory: Memory) -> NameFault {
        NameFault::Memory
    }
}

impl From<AllocError> for NameFault {
    ghost use Rattle.std.specs.Prelude.{◌≡◌};
    ghost use Rattle.xml_names.specs.declared.resolved.NameFault.TheVariants as fault;

    ghost from_gives = { λ error answer. answer ≡ fault.Memory };

    fn from(_error: AllocError) -> NameFault {
        NameFault::Memory
    }
}
