//! Laws of the definitions, as contracts.
ghost use Rattle.run_engine.specs.Fitting.{DocumentsFit, SectionsHold};
ghost use Rattle.run_engine.specs.More.{BeginsWithMeaning, CutsMakeNoDifference, EndsThere, PiecesComeFirst, TakesNoMore, WaitsForMore};
ghost use Rattle.run_engine.specs.Pieces.{AsksStay, PiecesFall, PiecesOpen, PiecesStay, WaitsFall};

use template_machine::law as machine_law;
use xml_events::laws as event_laws;
use xml_tokens::laws as token_laws;

/// The text of a lexeme that is a CDATA section may be one.
pub fn sections()
    ensures { SectionsHold }
{
    token_laws::cuts();
    token_laws::spelling();
    event_laws::shapes();
}

/// No element of a document stands deeper than the limit, and the texts of CDATA sections may be ones.
pub fn documents()
    ensures { DocumentsFit }
{
    sections();
}

/// There is an end to the pieces that documents wait for.
pub fn pieces()
    // Each piece is one fewer of the document that was asked for.
    ensures fall { PiecesFall }
    // Reading on needs no more.
    ensures stay { PiecesStay }
    // A document that is opened waits for as many as the limits say.
    ensures opened { PiecesOpen }
    // Only pieces of the main document change which documents may be asked for.
    ensures asks { AsksStay }
    // So there is an end to what is read before the main document goes on.
    ensures waits { WaitsFall }
{}

/// What a run still gives, whatever is still to come of the main document.
pub fn giving()
    // Before it begins that is what its sheet means on the document that comes.
    ensures begins { BeginsWithMeaning }
    // A piece that is handed in is the first of what is to come.
    ensures pieces { PiecesComeFirst }
    // However the bytes are cut, the same is to come.
    ensures cuts { CutsMakeNoDifference }
    // Behind the document's end nothing is.
    ensures ended { EndsThere }
    ensures over { TakesNoMore }
    // Where all is told that the bytes settle, it gives nothing until more comes.
    ensures waits { WaitsForMore }
{
    machine_law::by_code();
    machine_law::waiting();
    event_laws::documents();
}
