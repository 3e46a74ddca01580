//! Changes of a frame where it stands. One of another kind stays as it is.

ghost use Rattle.std.specs.Prelude.{◌≡◌, ◌≤◌, ◌<◌, [], ◌∷◌, ◌++◌, length, take, OnOk, OnErr};
ghost use Rattle.frame_stack.specs.Change.{locals_of, with_depth, with_locals, with_next, with_pc, with_spent, with_turn};
ghost use Rattle.frame_stack.specs.Locals.{local, with_value};

use crate::frame::Frame;
use stx_base::{List, Memory, Name};
use stxpath_values::Atom;

impl Frame {
    /// A body gets another next operation.
    pub(crate) fn set_pc(&mut self, next: u32)
        ensures { self.new ≡ with_pc next self.old }
    {
        match self {
            Frame::Body { pc, .. } => *pc = next,
            Frame::Call { pc, .. } => *pc = next,
            _ => {}
        }
    }

    /// Of the node of a template's body the children are processed or skipped, or aren't.
    pub(crate) fn set_spent(&mut self, gone: bool)
        ensures { self.new ≡ with_spent gone self.old }
    {
        if let Frame::Body { spent, .. } = self {
            *spent = gone;
        }
    }

    /// A loop has bound so many items.
    pub(crate) fn set_turn(&mut self, bound: usize)
        ensures { self.new ≡ with_turn bound self.old }
    {
        if let Frame::Loop { turn } = self {
            *turn = bound;
        }
    }

    /// In a list that is open by itself another number comes next.
    pub(crate) fn set_next(&mut self, number: usize)
        ensures { self.new ≡ with_next number self.old }
    {
        match self {
            Frame::Attributes { next, .. } => *next = number,
            Frame::Source { next, .. } => *next = number,
            _ => {}
        }
    }

    /// So many of the nodes that are skipped are open.
    pub(crate) fn set_depth(&mut self, nodes: u32)
        ensures { self.new ≡ with_depth nodes self.old }
    {
        if let Frame::Skip { depth } = self {
            *depth = nodes;
        }
    }

    /// A body gets one local more. After a refusal nothing has changed.
    pub(crate) fn push_local(&mut self, name: Name, value: List<Atom>) -> Result<(), Memory>
        ensures ok { OnOk result (self.new ≡ with_locals (λ locals. locals ++ local name value ∷ []) self.old) }
        ensures err { OnErr result (self.new ≡ self.old) }
    {
        match self {
            Frame::Body { locals, .. } => locals.push(name, value),
            Frame::Call { locals, .. } => locals.push(name, value),
            _ => Ok(()),
        }
    }

    /// A local of a body gets another value.
    pub(crate) fn set_local(&mut self, index: usize, value: List<Atom>)
        requires { index < length (locals_of self.old) }
        ensures { self.new ≡ with_locals (with_value index value) self.old }
    {
        match self {
            Frame::Body { locals, .. } => locals.set(index, value),
            Frame::Call { locals, .. } => locals.set(index, value),
            _ => {}
        }
    }

    /// A body keeps its first `len` locals.
    pub(crate) fn cut_locals(&mut self, len: usize)
        requires { len ≤ length (locals_of self.old) }
        ensures { self.new ≡ with_locals (take len) self.old }
    {
        match self {
            Frame::Body { locals, .. } => locals.cut(len),
            Frame::Call { locals, .. } => locals.cut(len),
            _ => {}
        }
    }
}
