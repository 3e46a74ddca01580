ghost use Rattle.std.specs.Prelude.{◌≡◌, Err as Fails};

use stx_base::Memory;

/// Why there is no next state: no reading goes on with the token, or memory was wanting.
#[derive(Clone, Copy)]
pub enum Stop {
    Stuck,
    Memory,
}

impl From<Memory> for Stop {
    ghost use Rattle.std.specs.Prelude.{◌≡◌};
    ghost use Rattle.stxpath_syntax.specs.declared.stop.Stop.TheVariants as stop;

    ghost from_gives = { λ _ made. made ≡ stop.Memory };

    fn from(_error: Memory) -> Stop {
        Stop::Memory
    }
}

/// A value in place of another, which is let go of. A tree is let go of here rather than where it stands: that all of it goes is
/// long to show of a tree, and here it is shown once for every type.
pub fn instead<T: Drop, U>(rest: T, value: U) -> U
    ensures { result ≡ value }
{
    drop(rest);
    value
}

/// Lets go of what no reading goes on with.
pub fn stuck<T: Drop, U>(rest: T) -> Result<U, Stop>
    ensures { result ≡ Fails Stop.Stuck }
{
    drop(rest);
    Err(Stop::Stuck)
}
