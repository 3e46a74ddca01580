ghost use Rattle.std.specs.Prelude.{◌≡◌, ◌∷◌, [], None, IfOk, IfErr, OnOk, OnErr, is_some, position};
ghost use Rattle.std.specs.Option.{option_and_then};
ghost use Rattle.event_buffers.specs.Buffers.{held_by, in_group, is_read, is_written, newest, on_first, on_newest, taken_off, with_copies};
ghost use Rattle.event_buffers.specs.Buffers as spec;
ghost use Rattle.event_buffers.specs.Layer.{busy, closed, laid, opened_read, opened_write, refusal, unclosed, with_part, IsCause};
ghost use Rattle.event_buffers.specs.Told.{IsToldAt};

use crate::content::Content;
use crate::fault::BufferFault;
use crate::layer::Layer;
use crate::told::Told;
use std::alloc::Global;
use std::collections::VecDeque;
use std::marker::Model;
use stx_base::{Memory, Part};

/// A buffer of a group, with its copies, one laid over another.
#[derive(Debug, Drop)]
pub struct Buffer {
    alloc: Global,
    group: u32,
    declared: Content,
    /// The newest first.
    copies: VecDeque<Layer>,
}

impl Model for Buffer {
    ghost use Rattle.event_buffers.specs.Buffers.{Buffer as Plain};

    ghost Value = { Plain };

    ghost view = { λ buffer. record { group = buffer.group; declared = buffer.declared; copies = buffer.copies.items } };
}

impl Buffer {
    /// A buffer with one copy.
    pub fn new(alloc: Global, group: u32, declared: Content) -> Result<Buffer, Memory>
        ensures { IfOk result (λ buffer. buffer ≡ record { group = group; declared = declared; copies = laid ∷ [] }) }
    {
        let mut copies = VecDeque::new(alloc);
        copies.push_front(Layer::new(alloc))?;
        Ok(Buffer {
            alloc,
            group,
            declared,
            copies,
        })
    }

    /// Lays a copy over the others, where the buffer is of the group. After a refusal nothing has changed.
    pub fn lay(&mut self, group: u32) -> Result<(), Memory>
        ensures ok { OnOk result (self.new ≡ in_group (λ copies. laid ∷ copies) group self.old) }
        ensures err { OnErr result (self.new ≡ self.old) }
    {
        if self.group == group {
            self.copies.push_front(Layer::new(self.alloc))?;
        }
        Ok(())
    }

    /// Takes the newest copy off, where the buffer is of the group. Allocates nothing.
    pub fn take_off(&mut self, group: u32)
        ensures { self.new ≡ in_group taken_off group self.old }
    {
        if self.group == group {
            let _taken = self.copies.pop_front();
        }
    }

    /// Opens the newest copy to be written. Allocates nothing.
    pub fn open_write(&mut self, elements: u32, clear: bool) -> Result<(), BufferFault>
        ensures ok { OnOk result (self.new ≡ with_copies (on_newest (opened_write elements clear)) self.old) }
        ensures opened { OnOk result (option_and_then busy (newest self.old.copies) ≡ None) }
        ensures busy { IfErr result (λ fault. option_and_then busy (newest self.old.copies) ≡ Some fault) }
        ensures err { OnErr result (self.new ≡ self.old) }
    {
        match self.copies.front_mut() {
            Some(newest) => newest.open_write(elements, clear),
            None => Ok(()),
        }
    }

    /// Opens the newest copy to be read. Allocates nothing.
    pub fn open_read(&mut self) -> Result<(), BufferFault>
        ensures ok { OnOk result (self.new ≡ with_copies (on_newest opened_read) self.old) }
        ensures opened { OnOk result (option_and_then busy (newest self.old.copies) ≡ None) }
        ensures busy { IfErr result (λ fault. option_and_then busy (newest self.old.copies) ≡ Some fault) }
        ensures err { OnErr result (self.new ≡ self.old) }
    {
        match self.copies.front_mut() {
            Some(newest) => newest.open_read(),
            None => Ok(()),
        }
    }

    /// Puts a part into the newest copy that is open to be written.
    pub fn put(&mut self, part: Part, limit: u64) -> Result<(), BufferFault>
        ensures ok { OnOk result (self.new ≡ with_copies (on_first is_written (with_part part)) self.old) }
        ensures taken { OnOk result (option_and_then (refusal limit self.old.declared part) (spec.written self.old.copies) ≡ None) }
        ensures fault { IfErr result (IsCause (option_and_then (refusal limit self.old.declared part) (spec.written self.old.copies))) }
        ensures err { OnErr result (self.new ≡ self.old) }
    {
        match self.written() {
            Some(place) => self.copies[place].put(&self.declared, part, limit),
            None => Ok(()),
        }
    }

    /// Closes that copy, unless an element is open in it. Allocates nothing.
    pub fn close_write(&mut self) -> Result<(), BufferFault>
        ensures ok { OnOk result (self.new ≡ with_copies (on_first is_written closed) self.old) }
        ensures whole { OnOk result (option_and_then unclosed (spec.written self.old.copies) ≡ None) }
        ensures fault { IfErr result (λ fault. option_and_then unclosed (spec.written self.old.copies) ≡ Some fault) }
        ensures err { OnErr result (self.new ≡ self.old) }
    {
        match self.written() {
            Some(place) => self.copies[place].close_write(),
            None => Ok(()),
        }
    }

    /// The event at a place of the newest copy that is open to be read.
    pub fn event(&self, place: usize) -> Result<Option<Told>, Memory>
        ensures { IfOk result (IsToldAt (held_by self.now.declared (spec.read self.now.copies)) place) }
    {
        match self.read() {
            Some(copy) => self.copies[copy].event(&self.declared, place),
            None => Ok(None),
        }
    }

    /// Closes that copy. Allocates nothing.
    pub fn close_read(&mut self)
        ensures { self.new ≡ with_copies (on_first is_read closed) self.old }
    {
        if let Some(place) = self.read() {
            self.copies[place].close_read();
        }
    }

    pub fn is_written(&self) -> bool
        ensures { result ≡ is_some (spec.written self.now.copies) }
    {
        self.written().is_some()
    }

    pub fn is_read(&self) -> bool
        ensures { result ≡ is_some (spec.read self.now.copies) }
    {
        self.read().is_some()
    }

    /// Where the newest copy stands that is open to be written.
    fn written(&self) -> Option<usize>
        ensures { result ≡ position is_written self.now.copies }
    {
        self.copies.iter().position(|copy| copy.is_writing())
    }

    /// Where the newest copy stands that is open to be read.
    fn read(&self) -> Option<usize>
        ensures { result ≡ position is_read self.now.copies }
    {
        self.copies.iter().position(|copy| copy.is_reading())
    }
}
