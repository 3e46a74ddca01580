use result_writer::ResultFault;
use stx_base::Memory;
use thiserror::Error;

/// Why a buffer refuses a call.
#[derive(Clone, Copy, Debug, PartialEq, Eq, Error)]
pub enum BufferFault {
    /// Its newest copy is open already.
    #[error("the buffer is open")]
    Busy,
    /// It would weigh more than the limit.
    #[error("the buffer is full")]
    Full,
    /// The part may not be put there, or an element is open at the end.
    #[error("{0}")]
    Result(ResultFault),
    #[error("out of memory")]
    Memory,
}

impl From<Memory> for BufferFault {
    ghost use Rattle.std.specs.Prelude.{◌≡◌};
    ghost use Rattle.event_buffers.specs.declared.fault.BufferFault.TheVariants as fault;

    ghost from_gives = { λ memory answer. answer ≡ fault.Memory };

    fn from(_memory: Memory) -> BufferFault {
        BufferFault::Memory
    }
}
