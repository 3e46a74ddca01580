use crate::copied::Copied;
use crate::list::List;
use crate::memory::Memory;
use crate::name::{Binding, Name};
use crate::text::Text;
use std::alloc::Global;

/// One part of a result, in document order.
#[derive(Debug, Drop)]
pub enum Part {
    /// A start tag; `scope` is the bindings in force where the element comes from.
    Start { name: Name, scope: List<Binding> },
    /// An attribute of the start tag before it.
    Attribute { name: Name, value: Text },
    End { name: Name },
    Chars { text: Text },
    /// A CDATA section. Its text is one of which `is_cdata_text` holds.
    CData { text: Text },
    Comment { text: Text },
    Pi { target: Text, text: Text },
}

impl Copied for Part {
    fn copy(&self, alloc: Global) -> Result<Part, Memory> {
        match self {
            Part::Start { name, scope } => {
                let name = name.copy(alloc)?;
                let scope = scope.copy(alloc)?;
                Ok(Part::Start { name, scope })
            }
            Part::Attribute { name, value } => {
                let name = name.copy(alloc)?;
                let value = value.copy(alloc)?;
                Ok(Part::Attribute { name, value })
            }
            Part::End { name } => {
                let name = name.copy(alloc)?;
                Ok(Part::End { name })
            }
            Part::Chars { text } => {
                let text = text.copy(alloc)?;
                Ok(Part::Chars { text })
            }
            Part::CData { text } => {
                let text = text.copy(alloc)?;
                Ok(Part::CData { text })
            }
            Part::Comment { text } => {
                let text = text.copy(alloc)?;
                Ok(Part::Comment { text })
            }
            Part::Pi { target, text } => {
                let target = target.copy(alloc)?;
                let text = text.copy(alloc)?;
                Ok(Part::Pi { target, text })
            }
        }
    }
}
