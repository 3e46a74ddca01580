use std::alloc::{AllocError, AllocFailed};
use stx_base::Memory;
use thiserror::Error;

/// Why an element was not opened.
#[derive(Clone, Copy, Debug, PartialEq, Eq, Error)]
pub enum StackFault {
    #[error("as many elements are open as the limit allows")]
    Depth,
    #[error("out of memory")]
    Memory,
}

impl From<Memory> for StackFault {
    ghost use Rattle.std.specs.Prelude.{◌≡◌};
    ghost use Rattle.node_stack.specs.declared.fault.StackFault.TheVariants as fault;

    ghost from_gives = { λ memory answer. answer ≡ fault.Memory };

    fn from(_memory: Memory) -> StackFault {
        StackFault::Memory
    }
}

impl From<AllocError> for StackFault {
    ghost use Rattle.std.specs.Prelude.{◌≡◌};
    ghost use Rattle.node_stack.specs.declared.fault.StackFault.TheVariants as fault;

    ghost from_gives = { λ error answer. answer ≡ fault.Memory };

    fn from(_error: AllocError) -> StackFault {
        StackFault::Memory
    }
}

impl<T: Drop> From<AllocFailed<T>> for StackFault {
    ghost use Rattle.std.specs.Prelude.{◌≡◌};
    ghost use Rattle.node_stack.specs.declared.fault.StackFault.TheVariants as fault;

    ghost from_gives = { λ error answer. answer ≡ fault.Memory };

    fn from(_error: AllocFailed<T>) -> StackFault {
        StackFault::Memory
    }
}
