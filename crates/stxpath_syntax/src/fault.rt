use std::alloc::{AllocError, AllocFailed};
use stx_base::Memory;
use thiserror::Error;

/// Why a text is no expression, pattern or template.
#[derive(Clone, Copy, Debug, PartialEq, Eq, Error)]
pub enum PathKind {
    #[error("a token with which no reading goes on")]
    Syntax,
    #[error("a fraction, or the operator div")]
    Fraction,
    #[error("a numeral outside of 64 bits")]
    Range,
    #[error("no function has this name")]
    UnknownFunction,
    #[error("a wrong number of arguments")]
    Arity,
    #[error("the prefix is not bound")]
    Prefix,
    #[error("too many open brackets, or an expression that is too high")]
    TooDeep,
}

/// A fault of a text, at a place that counts its characters from 0.
#[derive(Clone, Copy, Debug, PartialEq, Eq)]
pub struct PathFault {
    pub kind: PathKind,
    pub place: usize,
}

#[derive(Clone, Copy, Debug, PartialEq, Eq, Error)]
pub enum ParseFault {
    #[error("the text can not be read")]
    Path(PathFault),
    #[error("out of memory")]
    Memory,
}

impl From<Memory> for ParseFault {
    ghost use Rattle.std.specs.Prelude.{◌≡◌};
    ghost use Rattle.stxpath_syntax.specs.declared.fault.ParseFault.TheVariants as fault;

    ghost from_gives = { λ _ made. made ≡ fault.Memory };

    fn from(_error: Memory) -> ParseFault {
        ParseFault::Memory
    }
}

impl From<AllocError> for ParseFault {
    ghost use Rattle.std.specs.Prelude.{◌≡◌};
    ghost use Rattle.stxpath_syntax.specs.declared.fault.ParseFault.TheVariants as fault;

    ghost from_gives = { λ _ made. made ≡ fault.Memory };

    fn from(_error: AllocError) -> ParseFault {
        ParseFault::Memory
    }
}

impl<T: Drop> From<AllocFailed<T>> for ParseFault {
    ghost use Rattle.std.specs.Prelude.{◌≡◌};
    ghost use Rattle.stxpath_syntax.specs.declared.fault.ParseFault.TheVariants as fault;

    ghost from_gives = { λ _ made. made ≡ fault.Memory };

    fn from(_error: AllocFailed<T>) -> ParseFault {
        ParseFault::Memory
    }
}
