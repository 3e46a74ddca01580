ghost use Rattle.std.specs.Prelude.{◌≡◌};
ghost use Rattle.fault_report.specs.Line.{status_of};

use stx_base::{RunCode, SheetFault, Text, XmlFault};

/// Which call on the host failed.
#[derive(Clone, Copy, Debug, PartialEq, Eq)]
pub enum HostFault {
    /// Opening or reading a document other than the main one.
    Doc,
    /// Reading the main document.
    Read,
    /// Writing.
    Write,
}

/// How a run ends.
#[derive(Debug, Drop)]
pub enum Outcome {
    /// The document was read to its end and all was written.
    Done,
    /// An instruction of a sheet has a fault, or the result refuses what it puts.
    Run {
        file: Text,
        code: RunCode,
        /// Of the instruction's start tag.
        offset: u64,
    },
    /// The words are refused.
    Usage,
    /// The sheet is refused.
    Sheet(SheetFault),
    /// A document has a fault.
    Xml {
        file: Text,
        fault: XmlFault,
    },
    /// The host failed after `offset` bytes.
    Host {
        file: Text,
        fault: HostFault,
        offset: u64,
    },
    /// The work that one event of the main document may cost is spent, and an instruction needs more.
    Fuel {
        file: Text,
        /// Of the instruction's start tag.
        offset: u64,
    },
    /// Memory was wanting.
    Memory,
}

/// The status that the program ends with. Allocates nothing.
pub fn status(outcome: &Outcome) -> u8
    ensures { result ≡ status_of outcome.now }
{
    match outcome {
        Outcome::Done => 0,
        Outcome::Run { .. } => 1,
        Outcome::Usage => 2,
        Outcome::Sheet(_) => 3,
        Outcome::Xml { .. } => 4,
        Outcome::Host { .. } => 5,
        Outcome::Fuel { .. } => 6,
        Outcome::Memory => 7,
    }
}
