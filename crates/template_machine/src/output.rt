//! The output of a run as bytes.

ghost use Rattle.std.specs.Prelude.{◌≡◌, []};
ghost use Rattle.result_writer.specs.Target.{fresh};
ghost use Rattle.template_machine.specs.Written.{bytes_of, notes_of, target_of};

use crate::sink::Sink;
use result_writer::{ResultFault, WriteStop, Writer};
use std::alloc::Global;
use std::mem;
use stx_base::{Attr, Binding, List, Memory, Name, Spare, Text};

/// The bytes that a run's parts settle, and its messages, each with a line feed.
#[derive(Debug, Drop)]
pub struct Output {
    writer: Writer,
    bytes: Vec<u8>,
    notes: Vec<u8>,
}

impl Output {
    /// None yet, of a run in whose output at most `limit` elements may be open at once. Allocates nothing.
    pub fn new(alloc: Global, limit: u32) -> Output
        ensures target { target_of result ≡ fresh limit }
        ensures bytes { bytes_of result ≡ [] }
        ensures notes { notes_of result ≡ [] }
    {
        Output {
            writer: Writer::new(alloc, limit),
            bytes: Vec::new(alloc),
            notes: Vec::new(alloc),
        }
    }

    /// Exchanges what was taken so far for other bytes and messages. Allocates nothing.
    pub fn exchange(&mut self, bytes: &mut Vec<u8>, notes: &mut Vec<u8>)
        ensures bytes { bytes.new.items ≡ bytes_of self.old }
        ensures notes { notes.new.items ≡ notes_of self.old }
        ensures own_bytes { bytes_of self.new ≡ bytes.old.items }
        ensures own_notes { notes_of self.new ≡ notes.old.items }
        // What the parts leave stays.
        ensures target { target_of self.new ≡ target_of self.old }
    {
        mem::swap(&mut self.bytes, bytes);
        mem::swap(&mut self.notes, notes);
    }
}

impl Sink for Output {
    ghost use Rattle.template_machine.specs.Written.{Wrote};
    ghost use Rattle.template_machine.specs.WrittenOn.{wrote_further, wrote_leaves, wrote_nothing};

    ghost output = { λ out. out.writer };

    ghost told = { Wrote };

    ghost nothing = { wrote_nothing };

    ghost further = { wrote_further };

    ghost leaves = { wrote_leaves };

    fn start(
        &mut self,
        name: Name,
        scope: &List<Binding>,
        _spare: &mut Spare,
    ) -> Result<(), WriteStop> {
        self.writer.put_start(name, scope, &mut self.bytes)
    }

    #[inline(always)]
    fn is_last_scope(&self, scope: &List<Binding>) -> bool {
        self.writer.is_last_scope(scope)
    }

    #[inline(always)]
    fn start_again(&mut self, name: Name, spare: &mut Spare) -> Result<(), WriteStop> {
        self.writer.put_start_again(name, spare, &mut self.bytes)
    }

    fn attribute(&mut self, name: Name, value: Text) -> Result<(), WriteStop> {
        self.writer.put_attribute(name, value)
    }

    #[inline(always)]
    fn attributes(&mut self, attrs: List<Attr>) -> Result<(), WriteStop> {
        self.writer.put_attributes_in_turn(attrs)
    }

    #[inline(always)]
    fn end(&mut self, name: &Name, spare: &mut Spare) -> Result<(), WriteStop> {
        self.writer.put_end_keeping(name, spare, &mut self.bytes)
    }

    #[inline(always)]
    fn chars(&mut self, text: &Text) -> Result<(), WriteStop> {
        self.writer.put_chars(text, &mut self.bytes)
    }

    fn cdata(&mut self, text: &Text) -> Result<(), WriteStop> {
        self.writer.put_cdata(text, &mut self.bytes)?;
        Ok(())
    }

    fn comment(&mut self, text: &Text) -> Result<(), WriteStop> {
        self.writer.put_comment(text, &mut self.bytes)
    }

    fn instruction(&mut self, target: &Text, text: &Text) -> Result<(), WriteStop> {
        self.writer.put_instruction(target, text, &mut self.bytes)
    }

    fn note(&mut self, text: &Text) -> Result<(), Memory> {
        let len = self.notes.len();
        let told = self.notes.extend_from_slice(text.as_str().as_bytes());
        if told.is_err() || self.notes.push(b'\n').is_err() {
            self.notes.truncate(len);
            return Err(Memory);
        }
        Ok(())
    }

    fn finish(&mut self) -> Result<(), ResultFault> {
        self.writer.finish()
    }
}
