//! Laws of the grammar.

ghost use Rattle.stxpath_syntax.specs.Laws as law;

/// Tokens have one reading at most.
pub fn one_reading()
    ensures { law.OneReading }
{}

/// Each text is read as one expression, pattern or template, or has one first fault: there is such an answer, and no other.
pub fn one_answer()
    ensures { law.OneAnswer }
{}

/// Each function has its name, and no name but its own.
pub fn named()
    ensures { law.Named }
{}

/// What is printed of an expression that was read is read as it again.
pub fn reads_back()
    ensures { law.ReadsBack }
{}

/// What some text is read as can be evaluated: its calls have permitted numbers of arguments, and it has at most 64
/// levels.
pub fn can_be_evaluated()
    ensures { law.CanAllBeEvaluated }
{}
