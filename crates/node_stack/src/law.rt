//! Laws of the definitions, as contracts.

ghost use Rattle.node_stack.specs.Laws.{ComparesTexts, CountsLists, CountsNames, CountsPassing, TellsPositions};

/// What counters tell of a list, and how many they are.
pub fn counts()
    ensures passing { CountsPassing }
    ensures names { CountsNames }
{}

/// Texts are compared by their characters.
pub fn texts()
    ensures { ComparesTexts }
{}

/// What calls do to the counts is what they do to the lists of all nodes, and what positions tell of these.
pub fn paths()
    ensures lists { CountsLists }
    ensures positions { TellsPositions }
{}
