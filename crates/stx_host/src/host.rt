ghost use Rattle.std.specs.Prelude.{ℕ, ◌<◌, length};
ghost use Rattle.stx_host.specs.Outside.{Outside, IsOpen, IsReadable, MayOpen, Opens, MayRead, Reads, Closes, MayWrite, Writes};

use crate::act::{Got, Lane, Opened, Put};
use stx_base::Text;

/// The outside: documents by name, a main document, and two lanes to write to.
///
/// Of what a host tells, each call changes what its clauses say and nothing else. A count of faults
/// is raised by the calls that answer `Failed` alone, so code over a host can't raise one itself; and
/// where a host tells what it has room for, they answer so for want of room alone.
pub trait Host {
    /// What the host tells.
    ghost outside: { Self → Outside };

    /// Opens a document by its name.
    fn open(&mut self, name: &Text) -> Opened
        ensures answer { MayOpen (outside self.old) name.now result }
        ensures change { Opens (outside self.old) name.now result (outside self.new) };

    /// Reads the next bytes of an open document, or with id 0 of the main document.
    fn read(&mut self, id: u32, room: &mut [u8]) -> Got
        requires open { IsReadable (outside self.old).open_ids id }
        requires room { 0 < length room.old }
        ensures answer { MayRead (outside self.old) id result room.new }
        ensures change { Reads (outside self.old) id result (outside self.new) };

    /// Gives an id back.
    fn close(&mut self, id: u32)
        requires { IsOpen (outside self.old).open_ids id }
        ensures { Closes (outside self.old) id (outside self.new) };

    /// Writes some of the bytes, from the first on.
    fn write(&mut self, lane: Lane, bytes: &[u8]) -> Put
        requires { 0 < length bytes.now }
        ensures answer { MayWrite (outside self.old) lane bytes.now result }
        ensures change { Writes (outside self.old) lane bytes.now result (outside self.new) };
}
