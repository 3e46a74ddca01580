//! Laws about the definitions that the reader's contract cites. They do nothing.
ghost use Rattle.xml_events.specs.Growing.{BeginningGoesOn, DocumentsGrow, WholeNeedsNoMore};
ghost use Rattle.xml_events.specs.Joined.{CDataIsText};
ghost use Rattle.xml_events.specs.Places.{OpenAreUnended, TextsAreCounted};
ghost use Rattle.xml_events.specs.Laws.{FirstFault, Flattened, HasDocument, IsTree, NoFault, OnlyTree, ToldAgrees};
ghost use Rattle.xml_events.specs.Shapes.{LexemesAreShapes};

/// What a reader has before it is the document's tree, however its bytes come.
pub fn documents()
    ensures { HasDocument }
{}

/// The lexemes of a document, whole or not, are its shapes, judged up to the first fault.
pub fn shapes()
    ensures { LexemesAreShapes }
{}

/// Where CDATA sections aren't recognised they are text like other.
pub fn joined()
    ensures { CDataIsText }
{}

/// What stands before a lexeme: the open elements, and the text that goes on.
pub fn places()
    ensures open { OpenAreUnended }
    ensures texts { TextsAreCounted }
{}

/// How far a document is read, and why it goes no further.
pub fn first_fault()
    ensures fault { FirstFault }
    ensures none { NoFault }
{}

/// The tree of a document, before texts are stripped and nodes are marked, is the one cut tree that flattens to its lexemes.
pub fn flattened()
    ensures tree { IsTree }
    ensures lexemes { Flattened }
    // No other tree does.
    ensures only { OnlyTree }
{}

/// An element that was told keeps what its start told of its first child, and what follows agrees with that.
pub fn agreeing()
    ensures { ToldAgrees }
{}

/// The tree of a document's first bytes grows with them.
pub fn growing()
    ensures { DocumentsGrow }
{}

/// A whole document needs no more, and the first bytes of one don't end it.
pub fn ending()
    ensures whole { WholeNeedsNoMore }
    ensures beginning { BeginningGoesOn }
{}
