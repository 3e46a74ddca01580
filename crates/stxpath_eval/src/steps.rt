//! One step along a path.

ghost use Rattle.std.specs.Prelude.{◌≡◌, ◌<◌, ◌≤◌, ◌+◌, ◌^◌, ◌⊎◌, ℕ, length, nat_le, true, false};
ghost use Rattle.std.specs.List.{list_any, list_all};
ghost use Rattle.node_stack.specs.Path.{node_at};
ghost use Rattle.node_stack.specs.Stack.{path};
ghost use Rattle.stxpath_eval.specs.Steps as spec;

use node_stack::{NodeStack, NodeView, passes};
use stx_base::{List, NodeTest};
use stxpath_syntax::{Link, PathStep};
use stxpath_values::{Atom, EvalFault, Item, truth};

/// The places from one to another.
#[derive(Clone, Copy, Debug)]
pub struct Within {
    pub from: usize,
    pub to: usize,
}

/// Between which places, the last one at most, all those lie that a step from these leads to.
pub fn reachable(link: Link, places: &[usize], last: usize) -> Within
    ensures order { result.from ≤ result.to }
    ensures size { result.to ≤ last }
    ensures before { (p : ℕ) → p < result.from → list_any (λ from. spec.leads link from p) places.now ≡ false }
    ensures behind { (p : ℕ) → result.to < p → p ≤ last → list_any (λ from. spec.leads link from p) places.now ≡ false }
{
    match places {
        [only] => reachable_from(link, *only, last),
        _ => Within {
            from: first_led(link, nearest(places, last), last),
            to: last,
        },
    }
}

fn reachable_from(link: Link, place: usize, last: usize) -> Within
    ensures order { result.from ≤ result.to }
    ensures size { result.to ≤ last }
    ensures before { (p : ℕ) → p < result.from → spec.leads link place p ≡ false }
    ensures behind { (p : ℕ) → result.to < p → p ≤ last → spec.leads link place p ≡ false }
{
    if place >= last {
        return Within {
            from: last,
            to: last,
        };
    }
    match link {
        Link::Start => Within {
            from: place,
            to: place,
        },
        Link::Slash => Within {
            from: place + 1,
            to: place + 1,
        },
        Link::Deep => Within {
            from: place + 1,
            to: last,
        },
    }
}

/// Before which place, the last one at most, there is none that a step from this one or a later one leads to.
fn first_led(link: Link, place: usize, last: usize) -> usize
    ensures size { result ≤ last }
    ensures before { (from p : ℕ) → place ≤ from → p < result → spec.leads link from p ≡ false }
{
    if place >= last {
        return last;
    }
    match link {
        Link::Start => place,
        Link::Slash | Link::Deep => place + 1,
    }
}

/// The least of the places, or the last one where they are no less.
fn nearest(places: &[usize], last: usize) -> usize
    ensures { list_all (λ place. nat_le result place) places.now ≡ true }
{
    let mut nearest = last;
    for place in places {
        nearest = nearest.min(*place);
    }
    nearest
}

/// Whether a step leads from one of the places to a place that passes.
pub fn leads_to(step: &PathStep, places: &[usize], stack: &NodeStack, place: usize) -> bool
    requires { place < length (path stack.now).nodes }
    ensures { result ≡ spec.leads_to step.now.link step.now.test (path stack.now) places.now place }
{
    is_led(step.link, places, place) && is_reached(&step.test, stack, place)
}

fn is_led(link: Link, places: &[usize], place: usize) -> bool
    ensures { result ≡ list_any (λ from. spec.leads link from place) places.now }
{
    places.iter().any(|from| leads(link, *from, place))
}

fn leads(link: Link, from: usize, place: usize) -> bool
    ensures { result ≡ spec.leads link from place }
{
    match link {
        Link::Start => place == from,
        Link::Slash => place > 0 && place - 1 == from,
        Link::Deep => from < place,
    }
}

/// Whether a step may end at a place: no attribute, and one that passes.
fn is_reached(test: &NodeTest, stack: &NodeStack, place: usize) -> bool
    requires { place < length (path stack.now).nodes }
    ensures { result ≡ spec.is_reached test.now (node_at (path stack.now) place) }
{
    match stack.view(place) {
        NodeView::Attribute(_) => false,
        view => passes(test, view),
    }
}

/// Whether a predicate's value holds at a position.
pub fn holds_by(position: u64, items: &List<Item>) -> Result<bool, EvalFault>
    requires { position < 2 ^ 63 }
    ensures { result ≡ spec.holds_by position items.now }
{
    match items.as_slice() {
        [Item::Atom(Atom::Whole(number))] => Ok(*number == position as i64),
        _ => truth(items),
    }
}
