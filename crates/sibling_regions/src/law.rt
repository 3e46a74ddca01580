//! Laws of the definitions, as contracts.
ghost use Rattle.sibling_regions.specs.Laws.{CodeCanBeAsked, ListHides, NoneWhereNoneEnds, OutermostIsFirst, TopEndsLast, TopRises};

/// Which region is the outermost one, and what a frame more changes.
pub fn outermost()
    ensures first { OutermostIsFirst }
    ensures none { NoneWhereNoneEnds }
    ensures list { ListHides }
    ensures top { TopEndsLast }
{}

/// Which frames and which code may be asked.
pub fn standing()
    ensures levels { TopRises }
    ensures conditions { CodeCanBeAsked }
{}
