//! Laws of the definitions, as contracts.

ghost use Rattle.result_writer.specs.Laws.{AcceptsNodes, Appends, DeclaresOnce, HoldsGoodTags, JudgesNodes, WritesOnce, BindsAttributes, BindsElement, BindsScope, MakesProper, ReadsNodes, Replaces, TextGrows, TextsJoin, WritesNodes, WritesPrefixes};

/// The text of parts begins the text of these parts and more.
pub fn text_grows()
    ensures { TextGrows }
{}

/// An attribute that is put again has the last value, in its first place.
pub fn attributes_of_one_name()
    ensures replaced { Replaces }
    ensures appended { Appends }
{}

/// Each prefix of a tag that is written is bound there to its URI.
pub fn prefixes_are_bound()
    ensures element { BindsElement }
    ensures attributes { BindsAttributes }
    ensures scope { BindsScope }
{}

/// The prefixes of a tag are names, where those of its scope are.
pub fn prefixes_are_names()
    ensures { WritesPrefixes }
{}

/// A tag has no name twice.
pub fn names_are_written_once()
    ensures held { HoldsGoodTags }
    ensures attributes { WritesOnce }
    ensures declarations { DeclaresOnce }
{}

/// The parts of nodes, judged, written and read as nodes.
pub fn nodes()
    ensures accepted { AcceptsNodes }
    ensures fault { JudgesNodes }
    ensures text { WritesNodes }
    ensures forest { ReadsNodes }
{}

/// Parts are nodes in which no two texts touch and none is empty.
pub fn nodes_of_parts()
    ensures proper { MakesProper }
    // Texts that touch are one.
    ensures join { TextsJoin }
{}
