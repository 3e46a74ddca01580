use std::alloc::Global;
use stx_base::{Attr, Binding, Copied, First, List, Memory, Name, Spare, Text, XmlFault};

/// What comes next in a document's tree, in document order. Places are in bytes from the document's first one, a byte order mark
/// included.
#[derive(Debug, Drop)]
pub enum Event {
    /// An element begins; its first child is known.
    Start {
        offset: u64,
        name: Name,
        /// In the order of the tag, without the declarations.
        attrs: List<Attr>,
        /// What the tag declares, in its order.
        decls: List<Binding>,
        first: First,
    },
    /// The innermost open element ends, at its end tag, or at its empty-element tag.
    End {
        offset: u64,
    },
    /// A text node, at the first lexeme of its characters.
    Chars {
        offset: u64,
        text: Text,
    },
    /// A CDATA section, where it is a node of its own. It may be empty.
    CData {
        offset: u64,
        text: Text,
    },
    Comment {
        offset: u64,
        text: Text,
    },
    Pi {
        offset: u64,
        target: Text,
        text: Text,
    },
    /// The document ends; the place is its length.
    DocumentEnd {
        offset: u64,
    },
}

/// An answer of the reader.
#[derive(Debug, Drop)]
pub enum Pull {
    Event(Event),
    /// More bytes, or word that there are none, must come first.
    Need,
    /// The document was told to its end.
    End,
    Bad(XmlFault),
    Memory,
}

impl Event {
    /// Gives the texts of an event that is done with back, so that the next ones are made of them.
    pub fn give_back(self, spare: &mut Spare) {
        match self {
            Event::Start {
                name,
                attrs,
                first,
                ..
            } => {
                spare.keep_name(name);
                spare.keep_attrs(attrs);
                if let First::Chars(text) = first {
                    spare.keep(text);
                }
            }
            Event::Chars { text, .. } | Event::CData { text, .. } | Event::Comment { text, .. } =>
                spare.keep(text),
            Event::Pi { target, text, .. } => {
                spare.keep(target);
                spare.keep(text);
            }
            Event::End { .. } | Event::DocumentEnd { .. } => {}
        }
    }
}

impl Copied for Event {
    fn copy(&self, alloc: Global) -> Result<Event, Memory> {
        match self {
            Event::Start {
                offset,
                name,
                attrs,
                decls,
                first,
            } => {
                let name = name.copy(alloc)?;
                let attrs = attrs.copy(alloc)?;
                let decls = decls.copy(alloc)?;
                let first = first.copy(alloc)?;
                Ok(Event::Start {
                    offset: *offset,
                    name,
                    attrs,
                    decls,
                    first,
                })
            }
            Event::End { offset } => Ok(Event::End { offset: *offset }),
            Event::Chars { offset, text } => {
                let text = text.copy(alloc)?;
                Ok(Event::Chars {
                    offset: *offset,
                    text,
                })
            }
            Event::CData { offset, text } => {
                let text = text.copy(alloc)?;
                Ok(Event::CData {
                    offset: *offset,
                    text,
                })
            }
            Event::Comment { offset, text } => {
                let text = text.copy(alloc)?;
                Ok(Event::Comment {
                    offset: *offset,
                    text,
                })
            }
            Event::Pi {
                offset,
                target,
                text,
            } => {
                let target = target.copy(alloc)?;
                let text = text.copy(alloc)?;
                Ok(Event::Pi {
                    offset: *offset,
                    target,
                    text,
                })
            }
            Event::DocumentEnd { offset } => Ok(Event::DocumentEnd { offset: *offset }),
        }
    }
}
