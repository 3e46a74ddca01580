//! Laws about the definitions that the lexer's contract cites. They do nothing.
ghost use Rattle.xml_tokens.specs.Cuts.{JoinedAgain, OneCut, RestUnended, SomeCut};
ghost use Rattle.xml_tokens.specs.Run.{AnswersStay, FewUnread, LexemesStay, OneRun, SayingShapesAreRead, ShapesSayLexemes};
ghost use Rattle.xml_tokens.specs.Sayable.{LexemesAreSayable};
ghost use Rattle.xml_tokens.specs.Spelling.{LexemesAreSpelled, LinesAreSpelled, SpelledLexemesAreRead, SpelledLexemesAreShapes, SpelledLinesAreRead, SpelledTagsAreRead, SpelledTextsAreRead, TagsAreSpelled, TextsAreSpelled};

/// Each list of bytes is cut into shapes and a rest, and in one way.
pub fn cuts()
    ensures joined { JoinedAgain }
    ensures rest { RestUnended }
    ensures some { SomeCut }
    ensures one { OneCut }
{}

/// A document that is read to its end is the shapes that say its lexemes; and one whose shapes, none of them too long, say
/// lexemes, is read to its end as these.
pub fn lexemes()
    ensures said { ShapesSayLexemes }
    ensures read { SayingShapesAreRead }
{}

/// Where more bytes are wanted, few wait.
pub fn waiting()
    ensures { FewUnread }
{}

/// An answer other than `Need` stays, whatever bytes follow, and a document has one run.
pub fn answers()
    ensures stay { AnswersStay }
    ensures after { LexemesStay }
    ensures one { OneRun }
{}

/// What is read is spelled so, and what is spelled so is read.
pub fn texts()
    ensures read { SpelledTextsAreRead }
    ensures spelled { TextsAreSpelled }
    ensures read_lines { SpelledLinesAreRead }
    ensures spelled_lines { LinesAreSpelled }
{}

/// A tag is read exactly where it is spelled as XML has it.
pub fn tags()
    ensures read { SpelledTagsAreRead }
    ensures spelled { TagsAreSpelled }
{}

/// Bytes that spell a lexeme are a whole shape, and say it; and a shape says nothing that its bytes don't spell.
pub fn spelling()
    ensures shapes { SpelledLexemesAreShapes }
    ensures read { SpelledLexemesAreRead }
    ensures spelled { LexemesAreSpelled }
{}

/// Which characters and names stand in lexemes that are read.
pub fn said()
    ensures { LexemesAreSayable }
{}
