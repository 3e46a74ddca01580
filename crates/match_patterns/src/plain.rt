//! Patterns without predicates.

ghost use Rattle.std.specs.Prelude.{◌≡◌, ◌<◌, length, true, IsTrue, ◌↔◌, Option, List as Items};
ghost use Rattle.std.specs.List.{list_all};
ghost use Rattle.node_stack.specs.Stack.{path};
ghost use Rattle.match_patterns.specs.Fits.{at_current, fits, is_bare, is_plain};
ghost use Rattle.match_patterns.specs.Walk.{EndBefore, IsEnding};
ghost use Rattle.stx_base.specs.declared.limits.Limits.{Limits};
ghost use Rattle.stx_base.specs.declared.name.Name.{Name};
ghost use Rattle.stxpath_values.specs.declared.value.Atom.{Atom};

use crate::walk::{Ending, first_ending};
use node_stack::{NodeStack, passes};
use stx_base::NodeTest;
use stxpath_syntax::{Alternative, Link, PathStep};

/// Whether an alternative without predicates fits the current node. Allocates nothing.
pub fn matches_plain(alternative: &Alternative, stack: &NodeStack) -> bool
    requires { is_plain alternative.now ≡ true }
    // Whatever the variables and limits are.
    ensures { (vars : Name → Option (Items Atom)) (limits : Limits) → result ≡ fits alternative.now (at_current vars limits (path stack.now)) }
{
    let last = stack.len() - 1;
    match alternative {
        Alternative::Root => passes(&NodeTest::Document, stack.view(last)),
        Alternative::Steps(steps) => ends_at(steps.as_slice(), last, stack).is_here(),
    }
}

/// Whether steps end at a place.
#[cycle(plain)]
fn ends_at(steps: &[PathStep], place: usize, stack: &NodeStack) -> Ending
    requires place { place < length (path stack.now).nodes }
    requires bare { list_all is_bare steps.now ≡ true }
    ensures { (vars : Name → Option (Items Atom)) (limits : Limits) → IsEnding (at_current vars limits (path stack.now)) steps.now place result }
{
    let Some((step, front)) = steps.split_last() else {
        return Ending::NotBefore;
    };
    if !passes(&step.test, stack.view(place)) {
        return Ending::Elsewhere;
    }
    if front.is_empty() {
        return first_ending(step.link, place);
    }
    match step.link {
        Link::Start => Ending::NotBefore,
        Link::Slash => match place.checked_sub(1) {
            Some(before) => ends_at(front, before, stack),
            None => Ending::NotBefore,
        },
        Link::Deep => {
            if end_before(front, place, stack) {
                Ending::Here
            } else {
                Ending::NotBefore
            }
        }
    }
}

/// Whether steps end at a place before another.
#[cycle(plain)]
fn end_before(steps: &[PathStep], place: usize, stack: &NodeStack) -> bool
    requires place { place < length (path stack.now).nodes }
    requires bare { list_all is_bare steps.now ≡ true }
    ensures { (vars : Name → Option (Items Atom)) (limits : Limits) → (IsTrue result ↔ EndBefore (at_current vars limits (path stack.now)) steps.now place) }
{
    for before in (0..place).rev() {
        match ends_at(steps, before, stack) {
            Ending::Here => return true,
            Ending::NotBefore => return false,
            Ending::Elsewhere => {}
        }
    }
    false
}
