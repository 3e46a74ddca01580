ghost use Rattle.std.specs.Prelude.{◌≡◌};
ghost use Rattle.sheet_loader.specs.Meant.{stop_at};
ghost use Rattle.sheet_loader.specs.Values as spec;

use std::alloc::{AllocError, AllocFailed};
use stx_base::{Memory, Place, SheetCode};
use stxpath_syntax::{ParseFault, PathKind};

/// Why an element or a value is refused.
#[derive(Clone, Copy, Debug, PartialEq, Eq)]
pub enum Refused {
    Code(SheetCode),
    Memory,
}

/// Why a sheet is read no further.
#[derive(Clone, Copy, Debug, PartialEq, Eq)]
pub enum Stop {
    Fault(SheetCode, Place),
    Memory,
}

impl Refused {
    /// The same of an element at a place.
    pub fn at(self, place: Place) -> Stop
        ensures { result ≡ stop_at self place }
    {
        match self {
            Refused::Code(code) => Stop::Fault(code, place),
            Refused::Memory => Stop::Memory,
        }
    }
}

/// A fraction has a code of its own.
fn code_of(kind: PathKind) -> SheetCode
    ensures { result ≡ spec.code_of kind }
{
    match kind {
        PathKind::Fraction => SheetCode::Fraction,
        _ => SheetCode::BadPath,
    }
}

impl From<ParseFault> for Refused {
    ghost use Rattle.sheet_loader.specs.Meant.{IsOfFault};

    ghost from_gives = { IsOfFault };

    fn from(fault: ParseFault) -> Refused {
        match fault {
            ParseFault::Path(fault) => Refused::Code(code_of(fault.kind)),
            ParseFault::Memory => Refused::Memory,
        }
    }
}

impl From<Memory> for Refused {
    ghost use Rattle.std.specs.Prelude.{◌≡◌};
    ghost use Rattle.sheet_loader.specs.declared.refused.Refused.TheVariants as refused;

    ghost from_gives = { λ _ made. made ≡ refused.Memory };

    fn from(_error: Memory) -> Refused {
        Refused::Memory
    }
}

impl From<AllocError> for Refused {
    ghost use Rattle.std.specs.Prelude.{◌≡◌};
    ghost use Rattle.sheet_loader.specs.declared.refused.Refused.TheVariants as refused;

    ghost from_gives = { λ _ made. made ≡ refused.Memory };

    fn from(_error: AllocError) -> Refused {
        Refused::Memory
    }
}

impl<T: Drop> From<AllocFailed<T>> for Refused {
    ghost use Rattle.std.specs.Prelude.{◌≡◌};
    ghost use Rattle.sheet_loader.specs.declared.refused.Refused.TheVariants as refused;

    ghost from_gives = { λ _ made. made ≡ refused.Memory };

    fn from(_error: AllocFailed<T>) -> Refused {
        Refused::Memory
    }
}

impl From<Memory> for Stop {
    ghost use Rattle.std.specs.Prelude.{◌≡◌};
    ghost use Rattle.sheet_loader.specs.declared.refused.Stop.TheVariants as stop;

    ghost from_gives = { λ _ made. made ≡ stop.Memory };

    fn from(_error: Memory) -> Stop {
        Stop::Memory
    }
}
