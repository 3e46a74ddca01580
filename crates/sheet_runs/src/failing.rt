//! How a run is told as in which the host failed.

ghost use Rattle.sheet_runs.specs.Counts.{FailsBy};

use fault_report::{HostFault, Outcome};
use std::alloc::Global;
use stx_base::{Memory, Text};

/// What stands for the main document's name, and for the output's.
const MAIN: &str = "-";

/// The host failed after so many bytes of the main document, or of the lane `Out`.
pub fn failure(alloc: Global, fault: HostFault, offset: u64) -> Outcome
    ensures { FailsBy fault offset result }
{
    match Text::of(alloc, MAIN) {
        Ok(file) => Outcome::Host {
            file,
            fault,
            offset,
        },
        Err(Memory) => Outcome::Memory,
    }
}
