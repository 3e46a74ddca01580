ghost use Rattle.std.specs.Prelude.{◌≡◌, IfOk, IsOk, encode_utf8_all, string_bytes};
ghost use Rattle.stx_engine.specs.RunEnd.{end_of_run, end_of_sample, line_in, on_sample, status_in, summary};
ghost use Rattle.stx_engine.specs.declared.run_end.RunEnd.TheVariants as end;

use fault_report::{Outcome, line, status};
use sheet_runs::{End, Ran};
use std::alloc::Global;
use stx_base::{Memory, Text};

/// The status of a run that is done.
const DONE: u8 = 0;

/// The status where the host failed.
pub const HOST_FAILED: u8 = 5;

/// What a run on the sample that is done read and wrote.
#[derive(Clone, Copy, Debug)]
pub struct Summary {
    pub records: u64,
    /// How many bytes the sample has.
    pub input: u64,
    /// How many bytes `Out` took.
    pub output: u64,
}

/// How a run of the program ended.
#[derive(Debug, Drop)]
pub enum RunEnd {
    /// With this outcome.
    Told(Outcome),
    /// A run on the sample is done.
    Sampled(Summary),
    /// The host failed on the lane `Note`, so that nothing more is written.
    Unnoted,
}

impl RunEnd {
    /// The status that the program ends with.
    pub fn status(&self) -> u8
        ensures { result ≡ status_in self.now }
    {
        match self {
            RunEnd::Told(outcome) => status(outcome),
            RunEnd::Sampled(_) => DONE,
            RunEnd::Unnoted => HOST_FAILED,
        }
    }

    /// What is said last: a line with its line feed; nothing of a run on the main document, or of a sheet, that is done.
    pub fn line(&self, alloc: Global) -> Result<Text, Memory>
        ensures line { IfOk result (λ line. encode_utf8_all line ≡ line_in self.now) }
        // Nothing is wanting where nothing is said.
        ensures unnoted { self.now ≡ end.Unnoted → IsOk result }
    {
        match self {
            RunEnd::Told(outcome) => line(alloc, outcome),
            RunEnd::Sampled(read) => summary_line(alloc, *read),
            RunEnd::Unnoted => Ok(Text::new(alloc)),
        }
    }
}

impl Summary {
    /// How the run on the sample ended that has this outcome.
    pub fn end(self, outcome: Outcome) -> RunEnd
        ensures { result ≡ on_sample self outcome }
    {
        match outcome {
            Outcome::Done => RunEnd::Sampled(self),
            outcome => RunEnd::Told(outcome),
        }
    }
}

/// How a run on the main document ended.
pub fn end_of_run(ran: Ran) -> RunEnd
    ensures { result ≡ end_of_run ran.end }
{
    let Ran { end, .. } = ran;
    match end {
        End::Told(outcome) => RunEnd::Told(outcome),
        End::Unnoted => RunEnd::Unnoted,
    }
}

/// How a run on the sample of so many records ended.
pub fn end_of_sample(records: u64, ran: Ran) -> RunEnd
    ensures { result ≡ end_of_sample records ran ran.end }
{
    let Ran { end, input, output } = ran;
    let read = Summary {
        records,
        input,
        output,
    };
    match end {
        End::Told(outcome) => read.end(outcome),
        End::Unnoted => RunEnd::Unnoted,
    }
}

fn summary_line(alloc: Global, read: Summary) -> Result<Text, Memory>
    ensures { IfOk result (λ line. encode_utf8_all line ≡ summary read) }
{
    let line = summary_bytes(alloc, read)?;
    Ok(Text::from_string(line))
}

fn summary_bytes(alloc: Global, read: Summary) -> Result<String, Memory>
    ensures { IfOk result (λ line. string_bytes line ≡ summary read) }
{
    let Summary {
        records,
        input,
        output,
    } = read;
    let line = format!(in alloc; "sample: records {records}, input {input}, output {output}\n")?;
    Ok(line)
}
