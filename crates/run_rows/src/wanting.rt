//! A host that lacks memory.

ghost use Rattle.stx_host.specs.MemHost.{outside_of};

use crate::given::{run, words_of};
use crate::ran::text;
use rows::{Row, Trouble};
use std::alloc::Global;
use std::fmt::Write;
use stx_base::{List, Text};
use stx_host::{Got, Host, Lane, MemHost, Opened, Put};

/// Wants memory at each opening, and is else the host in it.
#[derive(Drop)]
struct Wanting {
    host: MemHost,
}

impl Host for Wanting {
    ghost outside = { λ wanting. outside_of wanting.host };

    fn open(&mut self, _name: &Text) -> Opened {
        Opened::Memory
    }

    fn read(&mut self, id: u32, room: &mut [u8]) -> Got {
        self.host.read(id, room)
    }

    fn close(&mut self, id: u32) {
        self.host.close(id);
    }

    fn write(&mut self, lane: Lane, bytes: &[u8]) -> Put {
        self.host.write(lane, bytes)
    }
}

/// Words, and what comes of a run: the number of acts, both lanes and the status.
pub fn tell(alloc: Global, row: &Row, out: &mut String) -> Result<(), Trouble> {
    let (main, docs) = (List::new(alloc), List::new(alloc));
    let (cuts, fails) = (List::new(alloc), List::new(alloc));
    let host = MemHost::new(alloc, main, docs, cuts, fails, 9, 99)?;
    let mut wanting = Wanting { host };
    let words = words_of(alloc, row.given)?;
    let status = run(alloc, words.as_slice(), &mut wanting);
    let Wanting { host } = wanting;
    write!(
        out,
        "{} acts: {}",
        host.log.len(),
        text(host.out.as_slice())
    )?;
    write!(out, "!! {status} {}", text(host.note.as_slice()))?;
    Ok(())
}
