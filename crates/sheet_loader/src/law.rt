//! Laws of the definitions, as contracts.

ghost use Rattle.std.specs.Prelude.{List, Option};
ghost use Rattle.sheet_loader.specs.Content.{WritesNodes};
ghost use Rattle.sheet_loader.specs.Laws.{ComesToOne, LoadsAsBefore, ReadsInOneWay};
ghost use Rattle.sheet_loader.specs.Reading.{File};
ghost use Rattle.sheet_loader.specs.Resuming.{Begins, CutsList, EndsList, OpensElement, OpensFile, OpensLiteral, OpensPart, PassesOver, TakesElement, TakesText};
ghost use Rattle.sheet_loader.specs.Rows.{Again, Empty, Included, Includes, Kinds, Lost, Missing, NoBranch, NoElement, NoName, NoTransform, OtherVersion, OutOfPlace, Sections, SpaceInPlace, TextOutOfPlace, UnknownBeforeMissing, Waits};
ghost use Rattle.sheet_loader.specs.Sounding.{LoadedIsSound};
ghost use Rattle.sheet_loader.specs.Standing.{GivenStands};
ghost use Rattle.sheet_loader.specs.Values.{Reads};
ghost use Rattle.sheet_loader.specs.Weighing.{DocumentsWeighLittle, GivenIsFew};

/// Texts of the path language are read in one way, which the definitions of sheets are given.
pub fn readings()
    ensures { ReadsInOneWay }
{}

/// Each set of files comes to one answer: a sheet, or how its reading ends without one, with the names that were opened.
pub fn one_answer()
    ensures { ComesToOne }
{}

/// Sheets of version 1.0 are read as they were before there was version 1.1.
pub fn versions()
    ensures { LoadsAsBefore }
{}

/// In a sheet that is given the groups are a tree, each number in it names an entry, and the files are those that were opened.
pub fn standing()
    ensures { GivenStands }
{}

/// A sheet that is loaded is sound, where documents may nest no deeper than bodies, if it is small enough to be numbered.
pub fn soundness()
    ensures { LoadedIsSound }
{}

/// A sheet has few entries beside what its files weigh, and these weigh no more than they have bytes.
pub fn weighing()
    ensures sheets { GivenIsFew }
    ensures documents { DocumentsWeighLittle }
{}

/// A buffer begins with the nodes of its element, written as they are.
pub fn content()
    ensures { WritesNodes }
{}

/// Each thing that comes is done by going on with what is open.
pub fn resuming()
    ensures ends { (reads : Reads) (files : List (Option File)) → EndsList reads files }
    ensures cuts { (reads : Reads) (files : List (Option File)) → CutsList reads files }
    ensures passes_over { (reads : Reads) (files : List (Option File)) → PassesOver reads files }
    ensures text { (reads : Reads) (files : List (Option File)) → TakesText reads files }
    ensures element { (reads : Reads) (files : List (Option File)) → TakesElement reads files }
    ensures opens_element { (reads : Reads) (files : List (Option File)) → OpensElement reads files }
    ensures opens_file { (reads : Reads) (files : List (Option File)) → OpensFile reads files }
    ensures opens_literal { (reads : Reads) (files : List (Option File)) → OpensLiteral reads files }
    ensures opens_part { (reads : Reads) (files : List (Option File)) → OpensPart reads files }
    ensures begins { Begins }
{}

/// What small sheets come to.
pub fn small_sheets()
    ensures empty { Empty }
    ensures no_transform { NoTransform }
    ensures no_element { NoElement }
    ensures out_of_place { OutOfPlace }
    ensures text_out_of_place { TextOutOfPlace }
    ensures space_in_place { SpaceInPlace }
    ensures unknown_before_missing { UnknownBeforeMissing }
    ensures missing { Missing }
    ensures no_name { NoName }
    ensures other_version { OtherVersion }
    ensures kinds { Kinds }
    ensures sections { Sections }
    ensures again { Again }
    ensures no_branch { NoBranch }
    ensures lost { Lost }
    ensures includes { Includes }
    ensures included { Included }
    ensures waits { Waits }
{}
