//! What follows of the calls of a host, for code that makes many of them.
ghost use Rattle.stx_host.specs.Laws.{NothingBetween, BetweenJoins, BetweenOpen, BetweenRead, BetweenClose, BetweenWrites, BetweenFault, GivenIsOpen, StaysOpen, GivenBack, CountsJoin, CountsAtOpen, CountsAtRead, CountsAtClose, CountsAtWrite, RoseAndLater, LaterAndRose};

/// The acts of calls one after another, what the lanes took by them, and what they read of the
/// main document, add up.
pub fn acts_add_up()
    ensures nothing { NothingBetween }
    ensures join { BetweenJoins }
    ensures open { BetweenOpen }
    ensures read { BetweenRead }
    ensures close { BetweenClose }
    ensures writes { BetweenWrites }
    ensures fault { BetweenFault }
{}

/// An id stays open from the call that gives it to the one that gives it back, and then the ids are
/// as they were.
pub fn ids_come_and_go()
    ensures given { GivenIsOpen }
    ensures stays { StaysOpen }
    ensures back { GivenBack }
{}

/// No call lowers a count, and what rose in one call has risen over any stretch of time around it.
pub fn counts_go_on()
    ensures join { CountsJoin }
    ensures open { CountsAtOpen }
    ensures read { CountsAtRead }
    ensures close { CountsAtClose }
    ensures write { CountsAtWrite }
    ensures rose_and_later { RoseAndLater }
    ensures later_and_rose { LaterAndRose }
{}
