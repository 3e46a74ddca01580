//! Laws of the definitions, as contracts.

ghost use Rattle.std.specs.Prelude.{◌≡◌, ◌↔◌, List};
ghost use Rattle.stx_base.specs.Course.{Ends, Over};
ghost use Rattle.template_machine.specs.Alike.{ExpressionsSeeNodes, TextsSeeNodes, TrailsLookAlike};
ghost use Rattle.template_machine.specs.Copies.{CopiesAll, CopiesNothing, CopiesTexts, WritesDocuments, WritesNothing, WritesTexts};
ghost use Rattle.template_machine.specs.Ending.{Said, Ending};
ghost use Rattle.template_machine.specs.Placed.{BodiesStayWithin};
ghost use Rattle.template_machine.specs.Giving.{EndsAtCut, OpensOne};
ghost use Rattle.template_machine.specs.GoingOn.{JumpsGoOn, OperationsGoOn};
ghost use Rattle.template_machine.specs.Job.{Given};
ghost use Rattle.template_machine.specs.Laws.{AskingIsOpen, BodiesRunByCode, GoesOnByCode, KeepsLocals, PositionsCountEarlier, SkipsSilently};
ghost use Rattle.template_machine.specs.Meaning.{code, meaning};
ghost use Rattle.template_machine.specs.Order.{OrderMattersAmongEquals};
ghost use Rattle.template_machine.specs.Outcome.{AreNew, outcome};
ghost use Rattle.template_machine.specs.Listed.{CountsAreUnseen, ListsGoOnAlike};
ghost use Rattle.template_machine.specs.Passed.{PassesThrough};
ghost use Rattle.template_machine.specs.Patterned.{ChoicesSeeNodes, PatternsSeeNodes, TrailsPassAlike};
ghost use Rattle.template_machine.specs.Resuming.{Resumes};
ghost use Rattle.template_machine.specs.Rows.{Again, Assigned, Attributes, Buffered, EachItem, LastOfTwo, Nested, Sections, Twice};
ghost use Rattle.template_machine.specs.Stopping.{Broken, BrokenOther, Busy, ByKinds, Categories, Crowded, EnoughSources, Full, Going, Gone, Late, LeftOpen, NoDocument, OpenCopy, OtherDocument, Outermost, Parted, PassedOver, ReadSpent, Renewed, Short, TooManySources, Unmatched, Waits};
ghost use Rattle.template_machine.specs.Unchanged.{MeansAsBefore, PassesAsBefore, PutsNoSections, TestsPassAsBefore};
ghost use Rattle.xml_events.specs.Tree.{Forest};

use group_scope::law as choice_law;
use result_writer::law as written;

/// Each sheet has exactly one meaning on each tree, and `outcome` is it.
pub fn one_meaning()
    ensures some { (given : Given) → AreNew given → (tree : Forest) → (os : List Said) × (e : Ending) × Ends (code given) (meaning given tree) os e }
    ensures one { (given : Given) (tree : Forest) (os ps : List Said) (e f : Ending) → Ends (code given) (meaning given tree) os e → Ends (code given) (meaning given tree) ps f → (os ≡ ps) × (e ≡ f) }
    ensures function { (given : Given) → AreNew given → (tree : Forest) (os : List Said) (e : Ending) → Ends (code given) (meaning given tree) os e ↔ (outcome given tree ≡ Over os e) }
{}

/// What nodes without templates, and nodes that are passed over, say.
pub fn without_templates()
    // A sheet without templates puts what its root group passes through.
    ensures passed { PassesThrough }
    // Passing over nodes says nothing.
    ensures skipped { SkipsSilently }
{}

/// What each pass-through with a name makes of a whole document, in a sheet without templates.
pub fn copies()
    ensures all { CopiesAll }
    ensures texts { CopiesTexts }
    ensures nothing { CopiesNothing }
    // So it is with whole runs, and what is written of them.
    ensures documents { WritesDocuments }
    ensures written_texts { WritesTexts }
    ensures nothing_put { WritesNothing }
{
    written::nodes();
}

/// A list of instructions leaves the locals that were there: what is declared in it, and in all that it calls, is gone at its end.
pub fn locals_last()
    ensures { KeepsLocals }
{}

/// What the order of templates in a sheet matters for.
pub fn order()
    ensures { OrderMattersAmongEquals }
{
    choice_law::best();
}

/// What a sheet of version 1.0 means.
pub fn before()
    // It means the same by the definitions before there was version 1.1.
    ensures means { MeansAsBefore }
    // It puts no CDATA sections.
    ensures puts { PutsNoSections }
    // It passes through what it passed through before there were kinds.
    ensures passes { PassesAsBefore }
    // Its nodes pass the tests that they passed.
    ensures tests { TestsPassAsBefore }
{}

/// A machine that waits for an event has an open document.
pub fn asking()
    ensures { AskingIsOpen }
{}

/// A machine that waits for an event ends where no node is ready.
pub fn waiting()
    ensures { EndsAtCut }
{}

/// A machine that takes the nodes of the main document alone reads no other.
pub fn in_order()
    ensures { OpensOne }
{}

/// Positions count the earlier nodes of a list.
pub fn positions()
    ensures { PositionsCountEarlier }
{}

/// Bodies run by their code as they do by their instructions.
pub fn by_code()
    ensures runs { GoesOnByCode }
    ensures bodies { BodiesRunByCode }
{}

/// Each thing that is done is done by going on with what waits.
pub fn resuming()
    ensures { (given : Given) → Resumes given }
{}

/// An operation of a body's code goes on with what the run still does behind it.
pub fn operating()
    ensures operations { OperationsGoOn }
    ensures jumps { JumpsGoOn }
{}

/// Open lists go on by what is to come of them, however they are found.
pub fn listing()
    ensures alike { ListsGoOnAlike }
    ensures unseen { CountsAreUnseen }
{}

/// What expressions see of a path.
pub fn evaluating()
    ensures expressions { ExpressionsSeeNodes }
    ensures texts { TextsSeeNodes }
    ensures trails { TrailsLookAlike }
{}

/// What patterns see of a path, and so how a template is chosen.
pub fn choosing()
    ensures patterns { PatternsSeeNodes }
    ensures choices { ChoicesSeeNodes }
    ensures trails { TrailsPassAlike }
{}

/// What small sheets make of small documents.
pub fn worked_rows()
    ensures last_of_two { LastOfTwo }
    ensures sections { Sections }
    ensures nested { Nested }
    ensures again { Again }
    ensures twice { Twice }
    ensures attributes { Attributes }
    ensures buffered { Buffered }
    ensures assigned { Assigned }
    ensures each_item { EachItem }
{}

/// Small sheets that stop, or try where they would, and what they come to.
pub fn stopping_rows()
    ensures busy { Busy }
    ensures open_copy { OpenCopy }
    ensures crowded { Crowded }
    ensures parted { Parted }
    ensures left_open { LeftOpen }
    ensures unmatched { Unmatched }
    ensures late { Late }
    ensures other_document { OtherDocument }
    ensures no_document { NoDocument }
    ensures short { Short }
    ensures categories { Categories }
    ensures going { Going }
    ensures outermost { Outermost }
    ensures by_kinds { ByKinds }
    ensures gone { Gone }
    ensures renewed { Renewed }
    ensures read_spent { ReadSpent }
    ensures full { Full }
    ensures too_many_sources { TooManySources }
    ensures enough_sources { EnoughSources }
    ensures passed_over { PassedOver }
    ensures waits { Waits }
    ensures broken { Broken }
    ensures broken_other { BrokenOther }
{}

/// Each operation of a body's code leads on within it.
pub fn staying()
    ensures { BodiesStayWithin }
{}
