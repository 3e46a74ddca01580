//! A whole run over a host.

ghost use Rattle.std.specs.Prelude.{◌≤◌, ◌^◌};
ghost use Rattle.sheet_runs.specs.Runs.{IsBegun, RunsSheet};

use crate::main_document::Main;
use crate::running::Running;
use fault_report::Outcome;
use run_engine::Engine;
use std::alloc::Global;
use stx_host::Host;

/// How a run over a host ended.
#[derive(Debug, Drop)]
pub enum End {
    /// With this outcome, which is still to be told.
    Told(Outcome),
    /// The host failed on the lane `Note`, so that nothing more is written.
    Unnoted,
}

/// What came of a run over a host.
#[derive(Debug, Drop)]
pub struct Ran {
    pub end: End,
    /// How many bytes of the main document were handed to the engine.
    pub input: u64,
    /// How many bytes `Out` took.
    pub output: u64,
}

/// Runs a sheet whose engine hasn't begun: it reads the documents that the engine asks for, and writes what is settled to `Out` and
/// the messages to `Note` before each read. Each document is given back.
pub fn run_sheet<H: Host>(alloc: Global, engine: Engine, main: Main, host: &mut H) -> Ran
    requires begun { IsBegun engine }
    requires input { engine.limits.input ≤ 2 ^ 50 }
    ensures { RunsSheet engine main (H.outside host.old) (H.outside host.new) result }
{
    let mut running = Running::new(alloc, engine, main);
    let halt = running.go(host);
    running.close_all(host);
    running.ran(halt)
}
