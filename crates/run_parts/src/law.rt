//! Laws of the definitions, as contracts.
ghost use Rattle.run_parts.specs.Laws.{EndsWhole, PutsAccepted, PutsGood, PutsSound, ReadsRuns, SettlesParts};

use read_back::law as read_law;
use sheet_model::law as sheet_law;

/// The parts that a run puts, whatever the sheet does.
pub fn accepted()
    // The bytes that it writes are theirs.
    ensures settled { SettlesParts }
    // A result accepts them.
    ensures accepted { PutsAccepted }
    // Where the run is done they are a whole one.
    ensures whole { EndsWhole }
{
    sheet_law::order();
}

/// The parts that the run of an ordinary sheet puts: prefixes that are in force are names, or none, and each CDATA section may have its text.
pub fn sound()
    ensures { PutsSound }
{
    sheet_law::order();
}

/// Whatever is known of all bindings that a document declares is known of those in force where the run of an ordinary sheet puts elements.
pub fn in_force()
    ensures { PutsGood }
{
    sheet_law::order();
}

/// What the run of an ordinary sheet wrote is read back as the nodes of its parts, where the run is done.
pub fn read()
    ensures { ReadsRuns }
{
    accepted();
    in_force();
    read_law::results();
}
