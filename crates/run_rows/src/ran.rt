use rows::{Row, Trouble, string_of};
use std::alloc::Global;
use std::fmt::Write;
use stx_host::{Act, Lane, MemHost};

/// What a run gave.
#[derive(Drop)]
pub struct Ran {
    pub status: u8,
    pub host: MemHost,
}

/// Bytes as text.
pub fn text(bytes: &[u8]) -> &str {
    std::str::from_utf8(bytes).unwrap_or("bytes that are no text")
}

impl Ran {
    /// What the host took on the lane `Out`, without what every result begins with, which `: head` sets; or `nothing`.
    pub fn tell_out(&self, alloc: Global, row: &Row, out: &mut String) -> Result<(), Trouble> {
        let head = string_of(alloc, row.setting("head").unwrap_or(""))?;
        let told = text(self.host.out.as_slice());
        match told.strip_prefix(head.as_str()) {
            Some(content) => out.push_str(content)?,
            None if told.is_empty() => out.push_str("nothing")?,
            None => write!(out, "without its head {told}")?,
        }
        Ok(())
    }

    /// The status and the note behind ` !! `, if there are any.
    pub fn tell_end(&self, out: &mut String) -> Result<(), Trouble> {
        if self.status != 0 || !self.host.note.is_empty() {
            let gap = if out.is_empty() || out.ends_with(' ') {
                ""
            } else {
                " "
            };
            write!(out, "{gap}!! {}", self.status)?;
        }
        if !self.host.note.is_empty() {
            write!(out, " {}", text(self.host.note.as_slice()))?;
        }
        Ok(())
    }

    /// The names that were opened, each with the id that was given.
    pub fn tell_opened(&self, out: &mut String) -> Result<(), Trouble> {
        for act in &self.host.log {
            match act {
                Act::Open {
                    doc: Some(place),
                    id,
                } => {
                    let name = match self.host.docs.get(*place) {
                        Some(doc) => doc.name.as_str(),
                        None => "what isn't there",
                    };
                    write!(out, "opened {name} as {id}, ")?;
                }
                Act::Open { doc: None, .. } => out.push_str("opened what is absent, ")?,
                Act::Read { .. } | Act::Close(_) | Act::Write { .. } => {}
            }
        }
        Ok(())
    }

    /// How many bytes each read of the main document gave.
    pub fn reads(&self, alloc: Global) -> Result<Vec<usize>, Trouble> {
        let mut reads = Vec::new(alloc);
        for act in &self.host.log {
            if let Act::Read { id: 0, got } = act {
                reads.push(*got)?;
            }
        }
        Ok(reads)
    }

    /// How many bytes `Out` had taken at each read of the main document, and at the end.
    pub fn taken(&self, alloc: Global) -> Result<Vec<usize>, Trouble> {
        let mut taken = 0usize;
        let mut before = Vec::new(alloc);
        for act in &self.host.log {
            match act {
                Act::Write {
                    lane: Lane::Out,
                    len,
                } => taken = taken.saturating_add(*len),
                Act::Read { id: 0, .. } => before.push(taken)?,
                _ => {}
            }
        }
        before.push(taken)?;
        Ok(before)
    }
}
