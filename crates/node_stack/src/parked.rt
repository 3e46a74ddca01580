//! Nodes that wait beside the path.

ghost use Rattle.std.specs.Prelude.{◌≡◌};
ghost use Rattle.node_stack.specs.Open.{ended_in};
ghost use Rattle.node_stack.specs.Path.{parked};
ghost use Rattle.node_stack.specs.Stack as stack;

use crate::node::Leaf;
use crate::open::{Ended, OpenElement, kept, view_leaf};
use crate::own::Own;
use crate::tally::Tally;

/// A node that was taken off the path before it ended, with its counts.
#[derive(Drop)]
pub struct Parked {
    pub(crate) node: Waiting,
}

#[derive(Drop)]
pub(crate) enum Waiting {
    Element(OpenElement, Own),
    Leaf(Leaf, Own),
}

/// A node of the list that the counters count, to wait with its counts.
pub(crate) fn put_aside(ended: Ended, siblings: &Tally) -> Waiting
    ensures { parked (ended_in siblings.now ended) ≡ stack.waiting result }
{
    match ended {
        Ended::Element(element) => {
            let own = kept(element.own, element.view(), siblings);
            Waiting::Element(element, own)
        }
        Ended::Leaf(leaf, own) => {
            let own = kept(own, view_leaf(&leaf), siblings);
            Waiting::Leaf(leaf, own)
        }
    }
}
