ghost use Rattle.std.specs.Prelude.{◌≡◌, ℕ, ◌-◌, ◌<◌, ◌≤◌, [], ◌∷◌, ◌++◌, length, take, MatchOption, IfErr, OnOk, OnErr, Some, slice_get, slice_set};
ghost use Rattle.std.specs.Option.{option_copied};
ghost use Rattle.frame_stack.specs.Frame.{instance_of, shape};
ghost use Rattle.frame_stack.specs.Change.{changed, locals_of, with_depth, with_locals, with_next, with_pc, with_spent, with_turn};
ghost use Rattle.frame_stack.specs.Level.{instances};
ghost use Rattle.frame_stack.specs.Locals.{local, with_value};

use crate::counted::{Entry, counted};
use crate::fault::FrameFault;
use crate::frame::Frame;
use std::alloc::Global;
use std::marker::Model;
use stx_base::{List, Memory, Name};
use stxpath_values::Atom;

/// The frames of a run, the innermost last. The instances of a level are its templates' and procedures' bodies; two frames
/// are of one level where they have the same number and no list that is open by itself, of a source or of attributes, stands
/// between them.
#[derive(Debug, Drop)]
pub struct Frames {
    entries: Vec<Entry>,
}

impl Model for Frames {
    ghost use Rattle.frame_stack.specs.Stack.{FrameStack};

    ghost Value = { FrameStack };

    ghost use Rattle.frame_stack.specs.Counted.{AreCounted, frames_of};

    ghost view = { λ frames. record { frames = frames_of frames.entries.items } };

    ghost invariant = { λ frames. AreCounted frames.entries.items };
}

impl Frames {
    ghost use Rattle.frame_stack.specs.Stack.{IsFull, with_frames};

    /// No frames. Allocates nothing.
    pub fn new(alloc: Global) -> Frames
        ensures { result ≡ record { frames = [] } }
    {
        Frames {
            entries: Vec::new(alloc),
        }
    }

    /// Puts a frame on top, where a level may have so many instances. `Instances` is answered exactly for a body whose level
    /// has as many as it may have. After a refusal nothing has changed.
    pub fn push(&mut self, limit: u32, frame: Frame) -> Result<(), FrameFault>
        ensures ok { OnOk result (self.new ≡ with_frames (self.old.frames ++ frame ∷ []) self.old) }
        ensures room { OnOk result ((level : ℕ) → instance_of frame ≡ Some level → instances level self.old.frames < limit) }
        ensures err { OnErr result (self.new ≡ self.old) }
        ensures full { IfErr result (λ fault. fault ≡ FrameFault.Instances → IsFull limit frame self.old.frames) }
    {
        let entry = counted(&self.entries, limit, frame)?;
        self.entries.push(entry)?;
        Ok(())
    }

    /// Takes the top frame off; `None` exactly where there is none. Allocates nothing.
    pub fn pop(&mut self) -> Option<Frame>
        ensures { MatchOption result ((self.old.frames ≡ []) × (self.new ≡ self.old)) (λ frame. self.old ≡ with_frames (self.new.frames ++ frame ∷ []) self.new) }
    {
        match self.entries.pop() {
            Some(entry) => {
                let Entry { frame, .. } = entry;
                Some(frame)
            }
            None => None,
        }
    }

    /// The top frame; `None` exactly where there is none. Allocates nothing.
    pub fn top(&self) -> Option<&Frame>
        ensures { option_copied result ≡ slice_get self.now.frames (length self.now.frames - 1) }
    {
        match self.entries.last() {
            Some(entry) => Some(&entry.frame),
            None => None,
        }
    }

    /// Allocates nothing.
    pub fn count(&self) -> usize
        ensures { result ≡ length self.now.frames }
    {
        self.entries.len()
    }

    /// The frame at a place, of which the outermost is 0. Allocates nothing.
    pub fn at(&self, place: usize) -> &Frame
        requires { place < length self.now.frames }
        ensures { slice_get self.now.frames place ≡ Some result.now }
    {
        &self.entries[place].frame
    }

    /// Puts a frame in the place of one of the same variant and level, which is given back. Allocates nothing.
    pub fn replace(&mut self, place: usize, frame: Frame) -> Frame
        requires place { place < length self.old.frames }
        requires shape { (old : Frame) → slice_get self.old.frames place ≡ Some old → shape frame ≡ shape old }
        ensures new { self.new ≡ with_frames (slice_set self.old.frames place frame) self.old }
        ensures old { slice_get self.old.frames place ≡ Some result }
    {
        std::mem::replace(&mut self.entries[place].frame, frame)
    }

    /// Gives the body at a place another next operation. Allocates nothing.
    pub fn set_pc(&mut self, place: usize, next: u32)
        requires { place < length self.old.frames }
        ensures { self.new ≡ with_frames (changed (with_pc next) place self.old.frames) self.old }
    {
        let frame = &mut self.entries[place].frame;
        frame.set_pc(next);
    }

    /// Says whether the children of the node of the template's body at a place are processed or skipped. Allocates nothing.
    pub fn set_spent(&mut self, place: usize, gone: bool)
        requires { place < length self.old.frames }
        ensures { self.new ≡ with_frames (changed (with_spent gone) place self.old.frames) self.old }
    {
        let frame = &mut self.entries[place].frame;
        frame.set_spent(gone);
    }

    /// Says how many items the loop at a place has bound. Allocates nothing.
    pub fn set_turn(&mut self, place: usize, bound: usize)
        requires { place < length self.old.frames }
        ensures { self.new ≡ with_frames (changed (with_turn bound) place self.old.frames) self.old }
    {
        let frame = &mut self.entries[place].frame;
        frame.set_turn(bound);
    }

    /// Says what comes next in the list at a place, which is open by itself. Allocates nothing.
    pub fn set_next(&mut self, place: usize, number: usize)
        requires { place < length self.old.frames }
        ensures { self.new ≡ with_frames (changed (with_next number) place self.old.frames) self.old }
    {
        let frame = &mut self.entries[place].frame;
        frame.set_next(number);
    }

    /// Says how many of the nodes that are skipped are open. Allocates nothing.
    pub fn set_depth(&mut self, place: usize, nodes: u32)
        requires { place < length self.old.frames }
        ensures { self.new ≡ with_frames (changed (with_depth nodes) place self.old.frames) self.old }
    {
        let frame = &mut self.entries[place].frame;
        frame.set_depth(nodes);
    }

    /// Appends a local to those of the body at a place. After a refusal nothing has changed.
    pub fn push_local(&mut self, place: usize, name: Name, value: List<Atom>) -> Result<(), Memory>
        requires { place < length self.old.frames }
        ensures ok { OnOk result (self.new ≡ with_frames (changed (with_locals (λ locals. locals ++ local name value ∷ [])) place self.old.frames) self.old) }
        ensures err { OnErr result (self.new ≡ self.old) }
    {
        let frame = &mut self.entries[place].frame;
        frame.push_local(name, value)
    }

    /// Gives a local of the body at a place another value. Allocates nothing.
    pub fn set_local(&mut self, place: usize, index: usize, value: List<Atom>)
        requires place { place < length self.old.frames }
        requires index { (frame : Frame) → slice_get self.old.frames place ≡ Some frame → index < length (locals_of frame) }
        ensures { self.new ≡ with_frames (changed (with_locals (with_value index value)) place self.old.frames) self.old }
    {
        let frame = &mut self.entries[place].frame;
        frame.set_local(index, value);
    }

    /// Keeps the first `len` locals of the body at a place. Allocates nothing.
    pub fn cut_locals(&mut self, place: usize, len: usize)
        requires place { place < length self.old.frames }
        requires len { (frame : Frame) → slice_get self.old.frames place ≡ Some frame → len ≤ length (locals_of frame) }
        ensures { self.new ≡ with_frames (changed (with_locals (take len)) place self.old.frames) self.old }
    {
        let frame = &mut self.entries[place].frame;
        frame.cut_locals(len);
    }
}
