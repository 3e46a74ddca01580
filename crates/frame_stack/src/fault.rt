use std::alloc::{AllocError, AllocFailed};
use stx_base::Memory;
use thiserror::Error;

/// Why a frame was not pushed.
#[derive(Clone, Copy, Debug, PartialEq, Eq, Error)]
pub enum FrameFault {
    #[error("as many templates and procedures of the level are open as the limit allows")]
    Instances,
    #[error("out of memory")]
    Memory,
}

impl From<Memory> for FrameFault {
    ghost use Rattle.std.specs.Prelude.{◌≡◌};
    ghost use Rattle.frame_stack.specs.declared.fault.FrameFault.TheVariants as fault;

    ghost from_gives = { λ memory answer. answer ≡ fault.Memory };

    fn from(_memory: Memory) -> FrameFault {
        FrameFault::Memory
    }
}

impl From<AllocError> for FrameFault {
    ghost use Rattle.std.specs.Prelude.{◌≡◌};
    ghost use Rattle.frame_stack.specs.declared.fault.FrameFault.TheVariants as fault;

    ghost from_gives = { λ error answer. answer ≡ fault.Memory };

    fn from(_error: AllocError) -> FrameFault {
        FrameFault::Memory
    }
}

impl<T: Drop> From<AllocFailed<T>> for FrameFault {
    ghost use Rattle.std.specs.Prelude.{◌≡◌};
    ghost use Rattle.frame_stack.specs.declared.fault.FrameFault.TheVariants as fault;

    ghost from_gives = { λ error answer. answer ≡ fault.Memory };

    fn from(_error: AllocFailed<T>) -> FrameFault {
        FrameFault::Memory
    }
}
