ghost use Rattle.std.specs.Prelude.{◌≡◌, ◌<◌, ◌^◌, if◌then◌else◌, min, true, None, Some, IfOk, IfErr, OnOk, OnErr};
ghost use Rattle.event_buffers.specs.Layer as spec;
ghost use Rattle.event_buffers.specs.Layer.{closed, contents, fault_in, is_reading, is_shut, is_writing, laid, opened_read, opened_write, own_weight, refusal, unclosed, with_part, IsCause};
ghost use Rattle.event_buffers.specs.Told.{IsToldAt};
ghost use Rattle.event_buffers.specs.Weight.{kept_weight};

use crate::content::Content;
use crate::fault::BufferFault;
use crate::kept::{Kept, keep};
use crate::told::{Told, told_at};
use crate::weight::weight_behind;
use result_writer::{Opened, ResultFault};
use std::alloc::Global;
use std::marker::Model;
use stx_base::{Memory, Part};

/// What a copy is open for.
#[derive(Clone, Copy, Debug, PartialEq, Eq)]
enum Use {
    Shut,
    Writing,
    Reading,
}

/// One copy of a buffer.
#[derive(Debug, Drop)]
pub struct Layer {
    alloc: Global,
    /// Whether it begins with the declared content.
    declared: bool,
    /// What was put into it.
    kept: Vec<Kept>,
    /// What that weighs, a start tag that isn't settled yet too.
    weight: u64,
    usage: Use,
    /// What the parts leave that were put since it was opened to be written.
    target: Opened,
}

impl Model for Layer {
    ghost use Rattle.event_buffers.specs.Layer.{Layer as Plain};

    ghost Value = { Plain };

    ghost use Rattle.event_buffers.specs.Inside.{layer_of, IsWeighed};

    ghost view = { layer_of };

    ghost invariant = { IsWeighed };
}

impl Layer {
    /// A copy that holds the declared content, open for nothing. Allocates nothing.
    pub fn new(alloc: Global) -> Layer
        ensures { result ≡ laid }
    {
        Layer {
            alloc,
            declared: true,
            kept: Vec::new(alloc),
            weight: 0,
            usage: Use::Shut,
            target: Opened::new(alloc, 0),
        }
    }

    pub fn is_writing(&self) -> bool
        ensures { result ≡ is_writing self.now.state }
    {
        matches!(self.usage, Use::Writing)
    }

    pub fn is_reading(&self) -> bool
        ensures { result ≡ is_reading self.now.state }
    {
        matches!(self.usage, Use::Reading)
    }

    fn is_shut(&self) -> bool
        ensures { result ≡ is_shut self.now.state }
    {
        matches!(self.usage, Use::Shut)
    }

    /// Opens the copy to be written, emptied first where `clear` says so. Allocates nothing.
    pub fn open_write(&mut self, elements: u32, clear: bool) -> Result<(), BufferFault>
        ensures ok { OnOk result (self.new ≡ opened_write elements clear self.old) }
        ensures opened { OnOk result (spec.busy self.old ≡ None) }
        ensures busy { IfErr result (λ fault. spec.busy self.old ≡ Some fault) }
        ensures err { OnErr result (self.new ≡ self.old) }
    {
        if !self.is_shut() {
            return Err(BufferFault::Busy);
        }
        if clear {
            self.declared = false;
            self.kept.clear();
            self.weight = 0;
        }
        self.usage = Use::Writing;
        self.target = Opened::new(self.alloc, elements);
        Ok(())
    }

    /// Opens the copy to be read. Allocates nothing.
    pub fn open_read(&mut self) -> Result<(), BufferFault>
        ensures ok { OnOk result (self.new ≡ opened_read self.old) }
        ensures opened { OnOk result (spec.busy self.old ≡ None) }
        ensures busy { IfErr result (λ fault. spec.busy self.old ≡ Some fault) }
        ensures err { OnErr result (self.new ≡ self.old) }
    {
        if !self.is_shut() {
            return Err(BufferFault::Busy);
        }
        self.usage = Use::Reading;
        Ok(())
    }

    /// Puts a part into the copy, which is open to be written, behind the declared content where it begins with that.
    pub fn put(&mut self, declared: &Content, part: Part, limit: u64) -> Result<(), BufferFault>
        requires { is_writing self.old.state ≡ true }
        ensures ok { OnOk result (self.new ≡ with_part part self.old) }
        ensures taken { OnOk result (refusal limit declared.now part self.old ≡ None) }
        ensures fault { IfErr result (IsCause (refusal limit declared.now part self.old)) }
        ensures err { OnErr result (self.new ≡ self.old) }
    {
        match self.weight_behind(declared, &part, limit) {
            Ok(weight) => Ok(self.take(part, weight)?),
            Err(refused) => {
                drop(part);
                Err(refused)
            }
        }
    }

    /// What was put into the copy weighs with a part more, unless that is refused.
    fn weight_behind(&self, declared: &Content, part: &Part, limit: u64) -> Result<u64, BufferFault>
        requires { is_writing self.now.state ≡ true }
        ensures weight { IfOk result (λ weight. weight ≡ own_weight (with_part part.now self.now)) }
        ensures taken { OnOk result (refusal limit declared.now part.now self.now ≡ None) }
        ensures fault { IfErr result (IsCause (refusal limit declared.now part.now self.now)) }
    {
        if let Some(fault) = self.target.fault(part) {
            return Err(BufferFault::Result(fault));
        }
        let weight = weight_behind(self.weight, &self.target, part)?;
        if self.weight_before(declared) + weight > limit as u128 {
            return Err(BufferFault::Full);
        }
        Ok(weight as u64)
    }

    /// What the declared content weighs, where the copy begins with it, up to a bound that is over every limit.
    fn weight_before(&self, declared: &Content) -> u128
        ensures { result ≡ min (if self.now.declared then kept_weight declared.now else 0) (2 ^ 64) }
    {
        if self.declared { declared.weight() } else { 0 }
    }

    /// Takes a part that isn't refused, with which what was put weighs this. After a refusal the part is dropped, and all else is
    /// unchanged.
    fn take(&mut self, part: Part, weight: u64) -> Result<(), Memory>
        requires writing { is_writing self.old.state ≡ true }
        requires judged { fault_in self.old.state part ≡ None }
        requires weight { weight ≡ own_weight (with_part part self.old) }
        ensures ok { OnOk result (self.new ≡ with_part part self.old) }
        ensures err { OnErr result (self.new ≡ self.old) }
    {
        keep(&mut self.kept, &mut self.target, part)?;
        self.weight = weight;
        Ok(())
    }

    /// Closes the copy, which is open to be written, unless an element is open in it. Allocates nothing.
    pub fn close_write(&mut self) -> Result<(), BufferFault>
        requires { is_writing self.old.state ≡ true }
        ensures ok { OnOk result (self.new ≡ closed self.old) }
        ensures whole { OnOk result (unclosed self.old ≡ None) }
        ensures fault { IfErr result (λ fault. unclosed self.old ≡ Some fault) }
        ensures err { OnErr result (self.new ≡ self.old) }
    {
        if !self.target.closed() {
            return Err(BufferFault::Result(ResultFault::UnclosedResult));
        }
        self.usage = Use::Shut;
        Ok(())
    }

    /// Closes the copy, which is open to be read. Allocates nothing.
    pub fn close_read(&mut self)
        requires { is_reading self.old.state ≡ true }
        ensures { self.new ≡ closed self.old }
    {
        self.usage = Use::Shut;
    }

    /// The event at a place of what it holds.
    pub fn event(&self, declared: &Content, place: usize) -> Result<Option<Told>, Memory>
        ensures { IfOk result (IsToldAt (contents declared.now self.now) place) }
    {
        if self.declared {
            told_at(self.alloc, declared.as_slice(), &self.kept, place)
        } else {
            told_at(self.alloc, &[], &self.kept, place)
        }
    }
}
