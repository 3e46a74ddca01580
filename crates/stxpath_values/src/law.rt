//! Laws about the definitions that the contracts cite. They do nothing.
ghost use Rattle.stxpath_values.specs.Laws.{CutAtWord, NumberIsRead, PlaceOfWord, QuotientAndRemainder, RemainderIsSmaller, RemainderOfNegative, RemainderOfPositive};

/// Division cuts towards 0, and a remainder has the sign of what was divided.
pub fn division()
    ensures whole { QuotientAndRemainder }
    ensures smaller { RemainderIsSmaller }
    ensures positive { RemainderOfPositive }
    ensures negative { RemainderOfNegative }
{}

/// A text that has a word is cut in three where the word first occurs.
pub fn cut_at_word()
    ensures joined { CutAtWord }
    ensures place { PlaceOfWord }
{}

/// A whole number's text is read as that number.
pub fn number_text()
    ensures { NumberIsRead }
{}
