//! A file that is being read.

ghost use Rattle.std.specs.Prelude.{◌≡◌, ◌+◌, ◌<◌, ◌≤◌, ◌∷◌, [], false, length, slice_get, Some, OnErr, OnOk};
ghost use Rattle.stx_host.specs.Outside.{IsOpen};
ghost use Rattle.xml_events.specs.Source.{fed_with, future, source};
ghost use Rattle.sheet_files.specs.Steps.{HandsOver, Looks, IsFresh};

use crate::reading::Halt;
use std::alloc::Global;
use stx_base::{Limits, Memory};
use stx_host::{Got, Host};
use xml_events::EventReader;

/// How many bytes a read asks for at most.
const PIECE: usize = 4096;

/// A file that is being read.
#[derive(Drop)]
pub(crate) struct Going {
    pub(crate) id: u32,
    /// Its number, in the order of opening.
    pub(crate) number: usize,
    pub(crate) reader: EventReader,
    /// What the host gave of it, of which the reader has the first `taken`.
    pub(crate) bytes: Vec<u8>,
    pub(crate) taken: usize,
}

/// What a file has next.
#[derive(Clone, Copy, Debug, PartialEq, Eq)]
pub(crate) enum Next {
    Byte,
    End,
}

impl Going {
    /// A file that was opened, and of which nothing is read.
    pub(crate) fn new(alloc: Global, limits: Limits, id: u32, number: usize) -> Going
        ensures { IsFresh limits id number result }
    {
        Going {
            id,
            number,
            reader: EventReader::new(alloc, limits, false),
            bytes: Vec::new(alloc),
            taken: 0,
        }
    }

    /// Whether a byte comes next. The host is asked for more where the reader has all that it gave.
    pub(crate) fn look<H: Host>(&mut self, host: &mut H) -> Result<Next, Halt>
        requires open { IsOpen (H.outside host.old).open_ids self.old.id }
        requires within { self.old.taken ≤ length self.old.bytes.items }
        ensures { Looks (H.outside host.old) (H.outside host.new) self.old self.new result }
    {
        if self.taken < self.bytes.len() {
            return Ok(Next::Byte);
        }
        let mut room = [0; PIECE];
        match host.read(self.id, &mut room) {
            Got::Bytes(got) => {
                self.bytes.extend_from_slice(&room[..got])?;
                Ok(Next::Byte)
            }
            Got::End => Ok(Next::End),
            Got::Failed => Err(Halt::Unread),
        }
    }

    /// Hands the reader a byte more, so that what it tells is known by as few bytes as can be.
    pub(crate) fn hand_over(&mut self) -> Result<(), Memory>
        requires within { self.old.taken < length self.old.bytes.items }
        requires going { self.old.reader.lexer.ended ≡ false }
        ensures handed { OnOk result (HandsOver self.old self.new) }
        ensures kept { OnErr result (self.new ≡ self.old) }
    {
        let byte = self.bytes[self.taken];
        self.reader.feed(&[byte])?;
        self.taken += 1;
        Ok(())
    }
}
