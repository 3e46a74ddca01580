ghost use Rattle.std.specs.Prelude.{◌≡◌, ◌∷◌, ◌<◌, None, Some, IfOk, IfErr, OnOk, OnErr, IsSome, is_some, length, map};
ghost use Rattle.sheet_model.specs.Sound.{BuffersAreWhole, IsSmall};
ghost use Rattle.event_buffers.specs.Buffers as spec;
ghost use Rattle.event_buffers.specs.Buffers.{busy_at, copies_of, in_group, is_read, is_written, on_buffer, on_first, on_group, on_newest, read_at, refusal_at, taken_off, unclosed_at, CanTakeOff};
ghost use Rattle.event_buffers.specs.Declaring.{declared_by};
ghost use Rattle.event_buffers.specs.Layer.{closed, laid, opened_read, opened_write, with_part, IsCause};
ghost use Rattle.event_buffers.specs.Told.{IsToldAt};

use crate::buffer::Buffer;
use crate::content::Content;
use crate::fault::BufferFault;
use crate::told::Told;
use sheet_model::Sheet;
use std::alloc::Global;
use std::marker::Model;
use stx_base::{Limits, Memory, Part};

/// The buffers of a sheet, named by their places in it. Each has one copy of its content or more, one laid over another. Contracts
/// see of each buffer its copies, the newest first, and of each copy what is kept in it and what it is open for.
#[derive(Debug, Drop)]
pub struct Buffers {
    /// The greatest weight of a buffer that parts are put into.
    limit: u64,
    /// How many elements may be open in a buffer.
    elements: u32,
    buffers: Vec<Buffer>,
}

impl Model for Buffers {
    ghost use Rattle.event_buffers.specs.Buffers.{Buffers as Plain};

    ghost Value = { Plain };

    ghost view = { λ b. record { limit = b.limit; elements = b.elements; buffers = b.buffers.items } };
}

impl Buffers {
    /// The buffers of a sheet, each with one copy that holds what is declared, whatever that weighs.
    pub fn new(alloc: Global, sheet: &Sheet, limits: &Limits) -> Result<Buffers, Memory>
        requires whole { BuffersAreWhole sheet.now }
        requires small { IsSmall sheet.now }
        ensures { IfOk result (λ b. b ≡ record { limit = limits.now.buffer; elements = limits.now.elements; buffers = map declared_by sheet.now.buffers }) }
    {
        let mut buffers = Vec::with_capacity(alloc, sheet.buffers.len())?;
        for buffer in sheet.buffers.as_slice() {
            let declared = Content::of(alloc, &buffer.content)?;
            let buffer = Buffer::new(alloc, buffer.group, declared)?;
            buffers.push(buffer)?;
        }
        Ok(Buffers {
            limit: limits.buffer,
            elements: limits.elements,
            buffers,
        })
    }

    /// Whether a copy of a buffer is open to be written.
    pub fn is_written(&self, id: u32) -> bool
        requires { id < length self.now.buffers }
        ensures { result ≡ is_some (spec.written (copies_of self.now id)) }
    {
        let buffer = &self.buffers[id as usize];
        buffer.is_written()
    }

    /// Whether a copy of a buffer is open to be read.
    pub fn is_read(&self, id: u32) -> bool
        requires { id < length self.now.buffers }
        ensures { result ≡ is_some (spec.read (copies_of self.now id)) }
    {
        let buffer = &self.buffers[id as usize];
        buffer.is_read()
    }

    /// Lays a copy that holds what is declared over those of each buffer of a group. After a refusal nothing has changed.
    pub fn shadow(&mut self, group: u32) -> Result<(), Memory>
        ensures ok { OnOk result (self.new ≡ on_group (λ copies. laid ∷ copies) group self.old) }
        ensures err { OnErr result (self.new ≡ self.old) }
    {
        lay(&mut self.buffers, group)
    }

    /// Takes the newest copy of each buffer of a group off, which is laid over another and open for nothing. Allocates nothing.
    pub fn unshadow(&mut self, group: u32)
        requires { CanTakeOff group self.old }
        ensures { self.new ≡ on_group taken_off group self.old }
    {
        take_off(&mut self.buffers, group);
    }

    /// Opens a buffer's newest copy to be written, emptied first where `clear` says so. It is refused exactly where that copy is
    /// open. Allocates nothing.
    pub fn open_write(&mut self, id: u32, clear: bool) -> Result<(), BufferFault>
        requires { id < length self.old.buffers }
        ensures ok { OnOk result (self.new ≡ on_buffer (on_newest (opened_write self.old.elements clear)) id self.old) }
        ensures opened { OnOk result (busy_at self.old id ≡ None) }
        ensures busy { IfErr result (λ fault. busy_at self.old id ≡ Some fault) }
        ensures err { OnErr result (self.new ≡ self.old) }
    {
        let elements = self.elements;
        let buffer = &mut self.buffers[id as usize];
        buffer.open_write(elements, clear)
    }

    /// Opens a buffer's newest copy to be read. It is refused exactly where that copy is open. Allocates nothing.
    pub fn open_read(&mut self, id: u32) -> Result<(), BufferFault>
        requires { id < length self.old.buffers }
        ensures ok { OnOk result (self.new ≡ on_buffer (on_newest opened_read) id self.old) }
        ensures opened { OnOk result (busy_at self.old id ≡ None) }
        ensures busy { IfErr result (λ fault. busy_at self.old id ≡ Some fault) }
        ensures err { OnErr result (self.new ≡ self.old) }
    {
        let buffer = &mut self.buffers[id as usize];
        buffer.open_read()
    }

    /// Puts a part into the newest copy of a buffer that is open to be written. It is refused exactly where it has a fault, or else
    /// the copy would weigh more than the limit with it, or for want of memory. Then it is dropped, and all else is unchanged.
    pub fn put(&mut self, id: u32, part: Part) -> Result<(), BufferFault>
        requires id { id < length self.old.buffers }
        requires written { IsSome (spec.written (copies_of self.old id)) }
        ensures ok { OnOk result (self.new ≡ on_buffer (on_first is_written (with_part part)) id self.old) }
        ensures taken { OnOk result (refusal_at self.old id part ≡ None) }
        ensures fault { IfErr result (IsCause (refusal_at self.old id part)) }
        ensures err { OnErr result (self.new ≡ self.old) }
    {
        let limit = self.limit;
        let buffer = &mut self.buffers[id as usize];
        buffer.put(part, limit)
    }

    /// Closes the copy that parts are put into. It is refused exactly where an element is open in it. Allocates nothing.
    pub fn close_write(&mut self, id: u32) -> Result<(), BufferFault>
        requires id { id < length self.old.buffers }
        requires written { IsSome (spec.written (copies_of self.old id)) }
        ensures ok { OnOk result (self.new ≡ on_buffer (on_first is_written closed) id self.old) }
        ensures whole { OnOk result (unclosed_at self.old id ≡ None) }
        ensures fault { IfErr result (λ fault. unclosed_at self.old id ≡ Some fault) }
        ensures err { OnErr result (self.new ≡ self.old) }
    {
        let buffer = &mut self.buffers[id as usize];
        buffer.close_write()
    }

    /// The event at a place of the newest copy of a buffer that is open to be read, and the place behind it; none at the end. The
    /// first place is 0. Each event is made once it is asked for.
    pub fn event(&self, id: u32, place: usize) -> Result<Option<Told>, Memory>
        requires id { id < length self.now.buffers }
        requires read { IsSome (spec.read (copies_of self.now id)) }
        ensures { IfOk result (IsToldAt (read_at self.now id) place) }
    {
        let buffer = &self.buffers[id as usize];
        buffer.event(place)
    }

    /// Closes the copy that is read. Allocates nothing.
    pub fn close_read(&mut self, id: u32)
        requires id { id < length self.old.buffers }
        requires read { IsSome (spec.read (copies_of self.old id)) }
        ensures { self.new ≡ on_buffer (on_first is_read closed) id self.old }
    {
        let buffer = &mut self.buffers[id as usize];
        buffer.close_read();
    }
}

/// Lays a copy over those of each buffer of a group. After a refusal nothing has changed.
fn lay(buffers: &mut [Buffer], group: u32) -> Result<(), Memory>
    ensures ok { OnOk result (buffers.new ≡ map (in_group (λ copies. laid ∷ copies) group) buffers.old) }
    ensures err { OnErr result (buffers.new ≡ buffers.old) }
{
    for place in 0..buffers.len() {
        let buffer = &mut buffers[place];
        if buffer.lay(group).is_err() {
            take_off(&mut buffers[..place], group);
            return Err(Memory);
        }
    }
    Ok(())
}

/// Takes the newest copy of each buffer of a group off. Allocates nothing.
fn take_off(buffers: &mut [Buffer], group: u32)
    ensures { buffers.new ≡ map (in_group taken_off group) buffers.old }
{
    for buffer in buffers.iter_mut() {
        buffer.take_off(group);
    }
}
