//! Why a run goes on no more.

ghost use Rattle.std.specs.Prelude.{◌≡◌};
ghost use Rattle.std.specs.Result.{result_map_both};
ghost use Rattle.template_machine.specs.Ending as ending;
ghost use Rattle.template_machine.specs.Stops as spec;
ghost use Rattle.template_machine.specs.declared.stop.Stop.TheVariants as stop;

use crate::turn::Turn;
use event_buffers::BufferFault;
use frame_stack::FrameFault;
use result_writer::{ResultFault, WriteStop};
use std::alloc::{AllocError, AllocFailed};
use stx_base::{Memory, Place, RunCode, RunFault};
use stxpath_values::{EvalFault, EvalStop};

/// Why a run goes on no more.
#[derive(Clone, Copy, Debug, PartialEq, Eq)]
pub enum Stop {
    Fault(RunFault),
    /// The fuel is spent.
    Spent(Place),
    Memory,
}

impl Stop {
    pub fn fault(code: RunCode, at: Place) -> Stop
        ensures { result ≡ spec.fault code at }
    {
        Stop::Fault(RunFault { code, at })
    }

    pub fn turn(self) -> Turn
        ensures { result ≡ spec.turn_of self }
    {
        match self {
            Stop::Fault(fault) => Turn::Stopped(fault),
            Stop::Spent(at) => Turn::Spent(at),
            Stop::Memory => Turn::Memory,
        }
    }
}

impl From<Memory> for Stop {
    ghost from_gives = { λ memory answer. answer ≡ stop.Memory };

    fn from(_memory: Memory) -> Stop {
        Stop::Memory
    }
}

impl From<AllocError> for Stop {
    ghost from_gives = { λ error answer. answer ≡ stop.Memory };

    fn from(_error: AllocError) -> Stop {
        Stop::Memory
    }
}

impl<T: Drop> From<AllocFailed<T>> for Stop {
    ghost from_gives = { λ error answer. answer ≡ stop.Memory };

    fn from(_error: AllocFailed<T>) -> Stop {
        Stop::Memory
    }
}

/// What an expression gives at an instruction.
#[inline(always)]
pub fn evaluated<T>(given: Result<T, EvalStop>, at: Place) -> Result<T, Stop>
    ensures { result ≡ result_map_both (λ value. value) (spec.by_expression at) given }
{
    match given {
        Ok(value) => Ok(value),
        Err(stop) => Err(by_expression(stop, at)),
    }
}

/// Why an expression gives nothing. It stands apart, since most give something.
#[cold]
#[inline(never)]
fn by_expression(stop: EvalStop, at: Place) -> Stop
    ensures { result ≡ spec.by_expression at stop }
{
    match stop {
        EvalStop::Fault(fault) => Stop::fault(code_of(fault), at),
        EvalStop::Memory => Stop::Memory,
    }
}

/// What comes of a part that an instruction puts into the output.
#[inline(always)]
pub fn written(given: Result<(), WriteStop>, at: Place) -> Result<(), Stop>
    ensures { result ≡ result_map_both (λ done. done) (spec.by_part at) given }
{
    match given {
        Ok(()) => Ok(()),
        Err(stop) => Err(by_part(stop, at)),
    }
}

/// Why a part isn't put. It stands apart, since most parts are put.
#[cold]
#[inline(never)]
fn by_part(stop: WriteStop, at: Place) -> Stop
    ensures { result ≡ spec.by_part at stop }
{
    match stop {
        WriteStop::Fault(fault) => Stop::fault(result_code(fault), at),
        WriteStop::Memory => Stop::Memory,
    }
}

/// What comes of what an instruction does with a buffer.
pub fn buffered(given: Result<(), BufferFault>, at: Place) -> Result<(), Stop>
    ensures { result ≡ result_map_both (λ done. done) (spec.by_buffer at) given }
{
    match given {
        Ok(()) => Ok(()),
        Err(fault) => Err(by_buffer(fault, at)),
    }
}

/// Why nothing is done with a buffer.
#[cold]
#[inline(never)]
fn by_buffer(fault: BufferFault, at: Place) -> Stop
    ensures { result ≡ spec.by_buffer at fault }
{
    match fault {
        BufferFault::Busy => Stop::fault(RunCode::BufferBusy, at),
        BufferFault::Full => Stop::fault(RunCode::BufferFull, at),
        BufferFault::Result(fault) => Stop::fault(result_code(fault), at),
        BufferFault::Memory => Stop::Memory,
    }
}

/// What comes of a frame that an instruction pushes.
#[inline(always)]
pub fn pushed(given: Result<(), FrameFault>, at: Place) -> Result<(), Stop>
    ensures { result ≡ result_map_both (λ done. done) (spec.by_frame at) given }
{
    match given {
        Ok(()) => Ok(()),
        Err(fault) => Err(by_frame(fault, at)),
    }
}

/// Why a frame isn't pushed.
#[cold]
#[inline(never)]
fn by_frame(fault: FrameFault, at: Place) -> Stop
    ensures { result ≡ spec.by_frame at fault }
{
    match fault {
        FrameFault::Instances => Stop::fault(RunCode::Instances, at),
        FrameFault::Memory => Stop::Memory,
    }
}

/// The code of an expression's fault. In a sound sheet no variable is missing.
fn code_of(fault: EvalFault) -> RunCode
    ensures { result ≡ ending.code_of fault }
{
    match fault {
        EvalFault::Overflow => RunCode::Overflow,
        EvalFault::ZeroDivisor => RunCode::ZeroDivisor,
        EvalFault::Fraction => RunCode::Fraction,
        EvalFault::NotWhole => RunCode::NotWhole,
        EvalFault::NotOne => RunCode::NotOne,
        EvalFault::NotNode => RunCode::NotNode,
        EvalFault::SequenceTooLong => RunCode::SequenceTooLong,
        EvalFault::TextTooLong => RunCode::TextTooLong,
        EvalFault::NoVariable => RunCode::NotOne,
    }
}

/// The code of a part's fault.
fn result_code(fault: ResultFault) -> RunCode
    ensures { result ≡ ending.result_code fault }
{
    match fault {
        ResultFault::BadName => RunCode::BadName,
        ResultFault::BadChar => RunCode::BadChar,
        ResultFault::BadComment => RunCode::BadComment,
        ResultFault::BadPi => RunCode::BadPi,
        ResultFault::LateAttribute => RunCode::LateAttribute,
        ResultFault::UnmatchedEnd => RunCode::UnmatchedEnd,
        ResultFault::WrongEnd => RunCode::WrongEnd,
        ResultFault::UnclosedResult => RunCode::UnclosedResult,
        ResultFault::ResultDepth => RunCode::ResultDepth,
    }
}
