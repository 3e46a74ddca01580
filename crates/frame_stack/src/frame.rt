ghost use Rattle.std.specs.Prelude.{◌≡◌};
ghost use Rattle.frame_stack.specs.Frame.{instance_of, is_instance, opens_list};

use crate::locals::Locals;
use std::alloc::Global;
use stx_base::{Copied, Memory};

/// What waits for its turn while what it opened goes on. `asked` is the instruction that opened it, and `spent` says that
/// the children of the frame's node are processed or skipped.
#[derive(Debug, Drop)]
pub enum Frame {
    /// A template's body, and the alternative of its pattern that chose it.
    Body {
        template: u32,
        alternative: u32,
        /// The operation that comes next.
        pc: u32,
        locals: Locals,
        level: u32,
        spent: bool,
    },
    /// A procedure's body.
    Call {
        procedure: u32,
        /// The operation that comes next.
        pc: u32,
        locals: Locals,
        level: u32,
    },
    /// An open list of attributes, by the number of the next one.
    Attributes {
        next: usize,
        asked: u32,
    },
    /// A loop: how many items it has bound so far, and 0 where it goes by a test.
    Loop {
        turn: usize,
    },
    /// Siblings that a body asked for.
    Region {
        asked: u32,
        level: u32,
    },
    /// A buffer that is read, by the number of its next event, or another document.
    Source {
        buffer: Option<u32>,
        next: usize,
        asked: u32,
    },
    /// Nodes that are skipped, so many of them open.
    Skip {
        depth: u32,
    },
    /// A node without a template.
    Pass {
        base: u32,
        level: u32,
        spent: bool,
    },
}

impl Frame {
    /// The level of which the frame is an instance.
    pub(crate) fn instance(&self) -> Option<u32>
        ensures { result ≡ instance_of self.now }
    {
        match self {
            Frame::Body { level, .. } => Some(*level),
            Frame::Call { level, .. } => Some(*level),
            Frame::Attributes { .. } => None,
            Frame::Loop { .. } => None,
            Frame::Region { .. } => None,
            Frame::Source { .. } => None,
            Frame::Skip { .. } => None,
            Frame::Pass { .. } => None,
        }
    }

    /// Whether the frame is an instance of the level.
    pub(crate) fn is_instance(&self, level: u32) -> bool
        ensures { result ≡ is_instance level self.now }
    {
        match self.instance() {
            Some(own) => own == level,
            None => false,
        }
    }

    /// Whether the levels above the frame are others than those below.
    pub(crate) fn opens_list(&self) -> bool
        ensures { result ≡ opens_list self.now }
    {
        match self {
            Frame::Attributes { .. } => true,
            Frame::Source { .. } => true,
            Frame::Body { .. } => false,
            Frame::Call { .. } => false,
            Frame::Loop { .. } => false,
            Frame::Region { .. } => false,
            Frame::Skip { .. } => false,
            Frame::Pass { .. } => false,
        }
    }
}

impl Copied for Frame {
    fn copy(&self, alloc: Global) -> Result<Frame, Memory> {
        match self {
            Frame::Body {
                template,
                alternative,
                pc,
                locals,
                level,
                spent,
            } => {
                let locals = locals.copy(alloc)?;
                Ok(Frame::Body {
                    template: *template,
                    alternative: *alternative,
                    pc: *pc,
                    locals,
                    level: *level,
                    spent: *spent,
                })
            }
            Frame::Call {
                procedure,
                pc,
                locals,
                level,
            } => {
                let locals = locals.copy(alloc)?;
                Ok(Frame::Call {
                    procedure: *procedure,
                    pc: *pc,
                    locals,
                    level: *level,
                })
            }
            Frame::Attributes { next, asked } => Ok(Frame::Attributes {
                next: *next,
                asked: *asked,
            }),
            Frame::Loop { turn } => Ok(Frame::Loop { turn: *turn }),
            Frame::Region { asked, level } => Ok(Frame::Region {
                asked: *asked,
                level: *level,
            }),
            Frame::Source {
                buffer,
                next,
                asked,
            } => Ok(Frame::Source {
                buffer: *buffer,
                next: *next,
                asked: *asked,
            }),
            Frame::Skip { depth } => Ok(Frame::Skip { depth: *depth }),
            Frame::Pass { base, level, spent } => Ok(Frame::Pass {
                base: *base,
                level: *level,
                spent: *spent,
            }),
        }
    }
}
