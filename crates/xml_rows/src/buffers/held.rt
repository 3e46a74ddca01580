//! Buffers whose copies are counted, so that one is taken off only where it is laid over another.

ghost use Rattle.std.specs.Prelude.{◌≡◌, ◌∷◌, ◌<◌, [], true, None, IfOk, IsSome, is_some, length, map};
ghost use Rattle.event_buffers.specs.Buffers as spec;
ghost use Rattle.event_buffers.specs.Buffers.{busy_at, copies_of};
ghost use Rattle.sheet_model.specs.Sound.{BuffersAreWhole, IsSmall};
ghost use Rattle.xml_rows.specs.Laid.{groups, pile};

use event_buffers::{BufferFault, Buffers, Told};
use rows::Trouble;
use sheet_model::Sheet;
use std::alloc::Global;
use std::marker::Model;
use stx_base::{Limits, Memory, Part};

/// Two buffers of the group 0 and one of the group 1, named by their numbers.
#[derive(Drop)]
pub struct Held {
    buffers: Buffers,
    /// How many copies are laid over the first one of each buffer of the group 0, and of the group 1.
    first: u32,
    second: u32,
}

impl Model for Held {
    ghost use Rattle.event_buffers.specs.Buffers.{Buffers as Plain};

    ghost Value = { Plain };

    ghost view = { λ held. held.buffers };

    ghost use Rattle.xml_rows.specs.Laid.{AreLaid};

    ghost invariant = { λ held. AreLaid held.first held.second held.buffers };
}

impl Held {
    pub fn new(alloc: Global, sheet: &Sheet, limits: &Limits) -> Result<Held, Memory>
        requires whole { BuffersAreWhole sheet.now }
        requires small { IsSmall sheet.now }
        requires groups { groups sheet.now.buffers ≡ 0 ∷ 0 ∷ 1 ∷ [] }
    {
        let buffers = Buffers::new(alloc, sheet, limits)?;
        Ok(Held {
            buffers,
            first: 0,
            second: 0,
        })
    }

    pub fn is_written(&self, id: u32) -> bool
        requires { id < 3 }
        ensures { result ≡ is_some (spec.written (copies_of self.now id)) }
    {
        self.buffers.is_written(id)
    }

    pub fn is_read(&self, id: u32) -> bool
        requires { id < 3 }
        ensures { result ≡ is_some (spec.read (copies_of self.now id)) }
    {
        self.buffers.is_read(id)
    }

    pub fn open_write(&mut self, id: u32, clear: bool) -> Result<(), BufferFault>
        requires { id < 3 }
    {
        self.buffers.open_write(id, clear)
    }

    pub fn open_read(&mut self, id: u32) -> Result<(), BufferFault>
        requires { id < 3 }
    {
        self.buffers.open_read(id)
    }

    pub fn put(&mut self, id: u32, part: Part) -> Result<(), BufferFault>
        requires id { id < 3 }
        requires written { IsSome (spec.written (copies_of self.old id)) }
    {
        self.buffers.put(id, part)
    }

    pub fn close_write(&mut self, id: u32) -> Result<(), BufferFault>
        requires id { id < 3 }
        requires written { IsSome (spec.written (copies_of self.old id)) }
    {
        self.buffers.close_write(id)
    }

    pub fn event(&self, id: u32, place: usize) -> Result<Option<Told>, Memory>
        requires id { id < 3 }
        requires read { IsSome (spec.read (copies_of self.now id)) }
    {
        self.buffers.event(id, place)
    }

    pub fn close_read(&mut self, id: u32)
        requires id { id < 3 }
        requires read { IsSome (spec.read (copies_of self.old id)) }
    {
        self.buffers.close_read(id)
    }

    pub fn shadow_first(&mut self) -> Result<(), Trouble> {
        if self.first == u32::MAX {
            return Err(Trouble::Row("too many copies"));
        }
        self.buffers.shadow(0)?;
        self.first += 1;
        Ok(())
    }

    pub fn shadow_second(&mut self) -> Result<(), Trouble> {
        if self.second == u32::MAX {
            return Err(Trouble::Row("too many copies"));
        }
        self.buffers.shadow(1)?;
        self.second += 1;
        Ok(())
    }

    /// Takes a copy off. Where one is open, or laid over none, there is no such call.
    pub fn unshadow_first(&mut self) -> Result<(), Trouble> {
        if self.first == 0 || !is_free(&mut self.buffers, 0) || !is_free(&mut self.buffers, 1) {
            return Err(Trouble::Row("a copy that can't be taken off"));
        }
        self.buffers.unshadow(0);
        self.first -= 1;
        Ok(())
    }

    pub fn unshadow_second(&mut self) -> Result<(), Trouble> {
        if self.second == 0 || !is_free(&mut self.buffers, 2) {
            return Err(Trouble::Row("a copy that can't be taken off"));
        }
        self.buffers.unshadow(1);
        self.second -= 1;
        Ok(())
    }
}

/// Whether the newest copy of a buffer is open for nothing, which is tried by opening it.
fn is_free(buffers: &mut Buffers, id: u32) -> bool
    requires { id < length buffers.old.buffers }
    ensures free { result ≡ true → busy_at buffers.old id ≡ None }
    ensures same { result ≡ true → buffers.new ≡ buffers.old }
    ensures piles { map pile buffers.new.buffers ≡ map pile buffers.old.buffers }
{
    let Ok(()) = buffers.open_read(id) else {
        return false;
    };
    if !buffers.is_read(id) {
        return false;
    }
    buffers.close_read(id);
    true
}
