//! Laws of accepted parts and the names that a reader makes of them, as contracts.
ghost use Rattle.read_back.specs.PathLaws.{KnowsBindings, KnowsPath, ReadsHeldTags};

use crate::law::names;

/// What is in force by the writer is what is bound to a reader of the tags so far.
pub fn bindings()
    ensures path { KnowsPath }
    ensures bound { KnowsBindings }
{
    names();
}

/// Each tag that parts begin is read with its names, wherever it stands.
pub fn tags()
    ensures { ReadsHeldTags }
{
    names();
}
