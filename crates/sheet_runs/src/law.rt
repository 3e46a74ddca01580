//! Laws of the definitions, as contracts.

ghost use Rattle.sheet_runs.specs.Meant.{RunsKeepMeaning, RunsMean};

use run_engine::law as engine_law;

/// What a whole run says is what its sheet means on the main document's tree, where the sheet takes the nodes of the main document
/// alone, each list in order.
pub fn meant()
    ensures says { RunsMean }
    // Over a host: before each read of the main document all was written that the bytes read so far settle, in the end all that the sheet
    // means, and after any stop a beginning of that.
    ensures keeps { RunsKeepMeaning }
{
    engine_law::giving();
}
