//! Laws of the definitions, as contracts.

ghost use Rattle.std.specs.Prelude.{codes};
ghost use Rattle.stx_engine.specs.Laws.{AnswerStays, AnswersAreRead, AnswersAreTaken, AnswersNest, BeginningIsOpen, PartsNest, SettledStays, TellsOrdinary, WholeIsOver};
ghost use Rattle.stx_engine.specs.Nesting.{EndsHaveStarts};
ghost use Rattle.stx_engine.specs.Older.{RunsAsBefore};

use crate::passed;
use template_machine::law as machine_law;

/// No end tag in a result of accepted parts lacks its start tag, wherever the result stops.
pub fn parts_nest()
    ensures { PartsNest }
{
    result_writer::law::prefixes_are_names();
}

/// The test for ordinary sheets is that.
pub fn ordinary()
    ensures { TellsOrdinary }
{}

/// What the program answers.
pub fn answers()
    // No end tag in it lacks its start tag, wherever it stops.
    ensures nested { AnswersNest }
    // Where no instruction is run, it isn't that one has a fault.
    ensures taken { AnswersAreTaken }
    // Where a run is done it is read back as the nodes of the result.
    ensures read { AnswersAreRead }
{
    xml_tokens::laws::said();
    result_writer::law::prefixes_are_names();
    run_engine::law::documents();
    run_parts::law::accepted();
    run_parts::law::sound();
    run_parts::law::read();
    machine_law::one_meaning();
    passed::meant();
    passed::documents();
}

/// What sheets that only pass documents through mean on a document's first bytes, and on all.
pub fn settled_stays()
    // What is settled stays so, whatever bytes follow, and a run that needs no more of the document is over.
    ensures settled { SettledStays }
    // So it is with the program's whole answer.
    ensures answer { AnswerStays }
    // A run on a whole document needs no more of it.
    ensures whole { WholeIsOver }
    // A run on its first bytes is not done.
    ensures beginning { BeginningIsOpen }
{
    machine_law::one_meaning();
    passed::meant();
    passed::settled_stays();
    passed::documents_end();
}

/// What a sheet of version 1.0 came to and did before there was version 1.1.
pub fn before()
    ensures { RunsAsBefore }
{
    sheet_loader::law::versions();
    xml_events::laws::joined();
}

/// Which end tags lack their start tags.
pub fn lone_ends()
    // One where no element is open.
    ensures alone { EndsHaveStarts (codes "</a>") → ⊥ }
    ensures twice { EndsHaveStarts (codes "<a></a></a>") → ⊥ }
    ensures empty { EndsHaveStarts (codes "<a/></a>") → ⊥ }
    // One where the innermost open element has another name.
    ensures other { EndsHaveStarts (codes "<a><b></a>") → ⊥ }
    ensures longer { EndsHaveStarts (codes "<a></ab>") → ⊥ }
    // None in quotes, in a comment, or unfinished.
    ensures none { EndsHaveStarts (codes "<a b='</c>'><!--</c>--></a></c") }
{}
