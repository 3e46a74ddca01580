//! Laws of the definitions, as contracts.
ghost use Rattle.run_future.specs.Beside.{HeadsAreHeld, ListsHide, RegionsBegin, RegionsSkip};
ghost use Rattle.run_future.specs.Laws.{BuffersEnd, BuffersHoldNodes, DocumentsEnd, DoesAsAlone, DoesAsAloneAnywhere, EndsAreTold, GoesNoFurther, SourcesBegin, SourcesEnd, StandsInBuffer, StandsInDocument, WaitsForNodes};
ghost use Rattle.run_future.specs.MoreOf.{AbsentStops, CutsDoNotMatter, GivesAsAlone, NewestComesFirst, OpenedGoesOn, OpensWhole, TakesNothing, WaitsForNewest};

use template_machine::law as machine_law;
use xml_events::laws as event_laws;

/// Where the main document alone is read, that is what is said of it.
pub fn alone()
    // While a machine asks for an event of it.
    ensures asking { DoesAsAlone }
    // In any other state, while it is open, and once its end was told.
    ensures anywhere { DoesAsAloneAnywhere }
{
    machine_law::asking();
}

/// Sources that begin.
pub fn beginning()
    // What is left of a buffer at its beginning are its nodes.
    ensures nodes { BuffersHoldNodes }
    // What the instruction does that asks for them, and then all that waits, is what goes on within the source.
    ensures begins { SourcesBegin }
    // A run that has opened one stands there.
    ensures buffer { StandsInBuffer }
    ensures document { StandsInDocument }
{}

/// Sources that end.
pub fn ending()
    // One of which nothing is left goes on as the instruction that asked for it, which is over.
    ensures sources { SourcesEnd }
    // So does a buffer that is read to its end, and another document.
    ensures buffers { BuffersEnd }
    ensures documents { DocumentsEnd }
    ensures told { EndsAreTold }
{}

/// Runs that wait.
pub fn waiting()
    // For a document that is there what follows are its nodes, and for one that isn't a fault.
    ensures documents { WaitsForNodes }
    // Where no node of the newest document is ready nothing follows.
    ensures events { GoesNoFurther }
{}

/// Nodes that wait for their siblings, and heads.
pub fn regions()
    // What the instruction does that asks for siblings, and then all that waits, is what goes on while its node waits.
    ensures begins { RegionsBegin }
    // Children that aren't gone are skipped before.
    ensures skips { RegionsSkip }
    // A head that ends a region stands before what is still to come.
    ensures heads { HeadsAreHeld }
    // What stands below an open list of its own makes no difference to the levels above it.
    ensures levels { ListsHide }
{
    machine_law::without_templates();
}

/// What a run of an engine still gives, whatever is still to come of its documents.
pub fn giving()
    // Where the main document alone is read, that is what is said of it.
    ensures alone { GivesAsAlone }
    // A piece that is handed in is the first of what is to come of the newest document.
    ensures pieces { NewestComesFirst }
    // However its bytes are cut, the same is to come, and behind its end nothing of it.
    ensures cuts { CutsDoNotMatter }
    // Where all documents have ended nothing comes.
    ensures over { TakesNothing }
    // Where all is told of the newest, the run gives nothing until more comes.
    ensures waits { WaitsForNewest }
    // A document that is opened has all its nodes to come.
    ensures whole { OpensWhole }
    // Where one is waited for, it goes on with these nodes once it was opened, and stops where there is none.
    ensures opened { OpenedGoesOn }
    ensures absent { AbsentStops }
{
    alone();
    beginning();
    waiting();
    event_laws::documents();
}
