//! Laws of what passing a document through gives, as contracts.

ghost use Rattle.stx_engine.specs.inside.Accepted.{DocumentsAreTaken, DocumentsNest};
ghost use Rattle.stx_engine.specs.inside.Ending.{RunIsOpen, RunIsOver};
ghost use Rattle.stx_engine.specs.inside.Growing.{BytesStay, RunStays};
ghost use Rattle.stx_engine.specs.inside.Laws.{PassesAsMeant};
ghost use Rattle.stx_engine.specs.inside.Passing.{RunsAsMeant};

use sample_maker::law as sample_law;
use sheet_runs::law as sheet_law;
use template_machine::law as machine_law;

/// It is what the sheet means.
pub fn meant()
    ensures { PassesAsMeant }
{
    machine_law::without_templates();
}

/// A run of such a sheet does it.
pub fn runs()
    ensures { RunsAsMeant }
{
    meant();
    documents();
    machine_law::one_meaning();
    sheet_law::meant();
    sample_law::pieces();
}

/// A result takes all parts of a document, and no end tag in it lacks its start tag.
pub fn documents()
    ensures taken { DocumentsAreTaken }
    ensures nested { DocumentsNest }
{
    xml_tokens::laws::said();
    result_writer::law::prefixes_are_names();
}

/// What a document's first bytes settle stays so, whatever bytes follow.
pub fn settled_stays()
    // The output begins with what is settled.
    ensures output { BytesStay }
    // A run that needs no more of the document is over.
    ensures over { RunStays }
{
    xml_events::laws::growing();
}

/// Where a document has ended and where it hasn't.
pub fn documents_end()
    ensures whole { RunIsOver }
    ensures beginning { RunIsOpen }
{
    xml_events::laws::ending();
}
