//! Laws of the definitions, as contracts.
ghost use Rattle.read_back.specs.Laws.{DeclaresSound, ReadsComments, ReadsContents, ReadsEndTags, ReadsInstructions, ReadsResults, ReadsSections, ReadsStartTags, ReadsTexts, ReadsTheSame, ReadsValues, ResolvesNames, WritesShapes};

use result_writer::law as writer_law;
use xml_events::laws as event_laws;
use xml_names::laws as name_laws;
use xml_tokens::laws as token_laws;

/// What is written of texts, values, sections, comments and instructions is read as these.
pub fn leaves()
    ensures texts { ReadsTexts }
    ensures values { ReadsValues }
    ensures sections { ReadsSections }
    ensures comments { ReadsComments }
    ensures instructions { ReadsInstructions }
{
    token_laws::spelling();
    token_laws::texts();
}

/// What is written of a tag is read as its name, its declarations and its attributes.
pub fn tags()
    ensures start { ReadsStartTags }
    ensures end { ReadsEndTags }
{
    token_laws::spelling();
}

/// What is declared in a tag may be.
pub fn declarations()
    ensures { DeclaresSound }
{
    writer_law::prefixes_are_names();
}

/// Each name of a tag is read with its URI.
pub fn names()
    ensures { ResolvesNames }
{
    declarations();
    writer_law::names_are_written_once();
    writer_law::prefixes_are_bound();
    name_laws::qnames();
}

/// The shapes of nodes that are written say their lexemes.
pub fn shapes()
    ensures { WritesShapes }
{
    declarations();
    token_laws::spelling();
}

/// What is written is read back as the result.
pub fn results()
    ensures same { ReadsTheSame }
    ensures whole { ReadsResults }
    ensures content { ReadsContents }
{
    declarations();
    names();
    writer_law::nodes();
    writer_law::nodes_of_parts();
    token_laws::spelling();
    event_laws::shapes();
    event_laws::first_fault();
}
