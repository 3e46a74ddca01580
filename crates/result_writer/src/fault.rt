use std::alloc::AllocError;
use stx_base::Memory;
use thiserror::Error;

/// Why a target refuses a part. Of the faults that apply to one part the first in this order is reported.
#[derive(Clone, Copy, Debug, PartialEq, Eq, Error)]
pub enum ResultFault {
    #[error("the name is not allowed in a result")]
    BadName,
    #[error("a character is not a Char")]
    BadChar,
    #[error("the comment is not allowed in a result")]
    BadComment,
    #[error("the processing instruction is not allowed in a result")]
    BadPi,
    #[error("an attribute after the start tag")]
    LateAttribute,
    #[error("an end without an open element")]
    UnmatchedEnd,
    #[error("an end of another element than the innermost one")]
    WrongEnd,
    #[error("an element of the result is left open")]
    UnclosedResult,
    #[error("more result elements are open than the limit")]
    ResultDepth,
}

/// Why a part was not taken.
#[derive(Clone, Copy, Debug, PartialEq, Eq, Error)]
pub enum WriteStop {
    #[error("{0}")]
    Fault(ResultFault),
    #[error("out of memory")]
    Memory,
}

impl From<ResultFault> for WriteStop {
    ghost use Rattle.std.specs.Prelude.{◌≡◌};
    ghost use Rattle.result_writer.specs.declared.fault.WriteStop.TheVariants.{Fault};

    ghost from_gives = { λ fault stop. stop ≡ Fault fault };

    fn from(fault: ResultFault) -> WriteStop {
        WriteStop::Fault(fault)
    }
}

impl From<Memory> for WriteStop {
    ghost use Rattle.std.specs.Prelude.{◌≡◌};
    ghost use Rattle.result_writer.specs.declared.fault.WriteStop.TheVariants as stop;

    ghost from_gives = { λ memory answer. answer ≡ stop.Memory };

    fn from(_memory: Memory) -> WriteStop {
        WriteStop::Memory
    }
}

impl From<AllocError> for WriteStop {
    ghost use Rattle.std.specs.Prelude.{◌≡◌};
    ghost use Rattle.result_writer.specs.declared.fault.WriteStop.TheVariants as stop;

    ghost from_gives = { λ error answer. answer ≡ stop.Memory };

    fn from(_error: AllocError) -> WriteStop {
        WriteStop::Memory
    }
}
