//! Laws of definitions by general recursion. Each function does nothing: its contract is the law, for all types of calls
//! `Q`, of results `R`, of what is said `O` and of ends `E`.

ghost use Rattle.stx_base.specs.CourseLaws.{OneEnd, OneResult, ResultOrEnd, RetEnds, HaltEnds, SayEnds, AskEnds, NoOtherEnd, FirstEnds, SecondEnds, ThenEnds, SaidFirst, SaysEnds, HasEnd, RefinedTo, RefinedBack};

/// A run has at most one end or result, and says the same on the way.
pub fn one_outcome<Q, R, O, E>()
    ensures end { OneEnd Q R O E }
    ensures result { OneResult Q R O E }
    ensures not_both { ResultOrEnd Q R O E }
{}

/// What an end is, by what is done first: a call does what its code says.
pub fn end_by_cases<Q, R, O, E>()
    ensures ret { RetEnds Q R O E }
    ensures halt { HaltEnds Q R O E }
    ensures say { SayEnds Q R O E }
    ensures ask { AskEnds Q R O E }
    ensures no_other { NoOtherEnd Q R O E }
{}

/// One thing and then another ends where the first ends, or where the second ends with the first's result.
pub fn one_then_another<Q, R, O, E>()
    ensures first { FirstEnds Q R O E }
    ensures second { SecondEnds Q R O E }
    ensures no_other { ThenEnds Q R O E }
{}

/// What was said first begins all that is said.
pub fn said_first<Q, R, O, E>()
    ensures begins { SaidFirst Q R O E }
    ensures rest { SaysEnds Q R O E }
{}

/// Where each call within a call weighs less than it, what gives no result has an end.
pub fn has_end<Q, R, O, E>()
    ensures { HasEnd Q R O E }
{}

/// Where one definition gives what another gives, each end of the first is one of the second, and the only one.
pub fn refined<Q, P, R, O, E>()
    ensures to { RefinedTo Q P R O E }
    ensures back { RefinedBack Q P R O E }
{}
