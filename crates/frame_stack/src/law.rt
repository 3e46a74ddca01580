//! Laws of the definitions, as contracts.
ghost use Rattle.frame_stack.specs.Laws.{InstanceCounts, ListBegins, NoneCounts, OthersStay, ToldByShapes};

/// How many instances a level has with one frame more.
pub fn levels()
    ensures instance { InstanceCounts }
    ensures others { OthersStay }
    ensures list { ListBegins }
    ensures none { NoneCounts }
    ensures shapes { ToldByShapes }
{}
