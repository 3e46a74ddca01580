//! Laws of the definitions, as contracts.
ghost use Rattle.fault_report.specs.Laws.{DoneAlone, KindsByName, RunCodesByName, SaidByName, SheetCodesByName};

/// A name tells its code from all others of its kind.
pub fn names()
    ensures kinds { KindsByName }
    ensures sheet_codes { SheetCodesByName }
    ensures run_codes { RunCodesByName }
{}

/// Nothing is said of a run that is done, and the line of every other one bears the program's name.
pub fn lines()
    ensures done { DoneAlone }
    ensures said { SaidByName }
{}
