ghost use Rattle.std.specs.Prelude.{◌≡◌};
ghost use Rattle.stxpath_values.specs.declared.fault.EvalStop.TheVariants as stop;

use std::alloc::{AllocError, AllocFailed};
use stx_base::Memory;
use thiserror::Error;

/// Why an expression has no value.
#[derive(Clone, Copy, Debug, PartialEq, Eq, Error)]
pub enum EvalFault {
    #[error("a number lies outside of 64 bits")]
    Overflow,
    #[error("a number is divided by 0")]
    ZeroDivisor,
    #[error("a text writes a fraction where a whole number is meant")]
    Fraction,
    #[error("a text writes no whole number")]
    NotWhole,
    #[error("a list isn't one item")]
    NotOne,
    #[error("an item is no node")]
    NotNode,
    #[error("a list has more items than the limit")]
    SequenceTooLong,
    #[error("a text that is made has more characters than the limit")]
    TextTooLong,
    #[error("no such variable is in scope")]
    NoVariable,
}

/// Why an evaluation gives no value.
#[derive(Clone, Copy, Debug, PartialEq, Eq, Error)]
pub enum EvalStop {
    #[error("{0}")]
    Fault(EvalFault),
    #[error("out of memory")]
    Memory,
}

impl From<EvalFault> for EvalStop {
    ghost from_gives = { λ fault stopped. stopped ≡ stop.Fault fault };

    fn from(fault: EvalFault) -> EvalStop {
        EvalStop::Fault(fault)
    }
}

impl From<Memory> for EvalStop {
    ghost from_gives = { λ memory stopped. stopped ≡ stop.Memory };

    fn from(_memory: Memory) -> EvalStop {
        EvalStop::Memory
    }
}

impl From<AllocError> for EvalStop {
    ghost from_gives = { λ error stopped. stopped ≡ stop.Memory };

    fn from(_error: AllocError) -> EvalStop {
        EvalStop::Memory
    }
}

impl<T: Drop> From<AllocFailed<T>> for EvalStop {
    ghost from_gives = { λ error stopped. stopped ≡ stop.Memory };

    fn from(_error: AllocFailed<T>) -> EvalStop {
        EvalStop::Memory
    }
}
