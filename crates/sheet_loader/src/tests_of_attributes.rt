//! Patterns that are tests of attributes and nothing else.

ghost use Rattle.std.specs.Prelude.{◌≡◌};
ghost use Rattle.std.specs.List.{list_all};
ghost use Rattle.sheet_loader.specs.Values as spec;

use stx_base::NodeTest;
use stxpath_syntax::{Alternative, Link, PathStep, Pattern};

fn is_attribute_test(test: &NodeTest) -> bool
    ensures { result ≡ spec.is_attribute_test test.now }
{
    match test {
        NodeTest::AttrName(_) | NodeTest::AttrPrefix(_) | NodeTest::AnyAttr => true,
        _ => false,
    }
}

fn is_bare(link: Link) -> bool
    ensures { result ≡ spec.is_bare link }
{
    match link {
        Link::Start => true,
        Link::Slash | Link::Deep => false,
    }
}

/// Whether there is one step alone, a test of attributes without predicates.
fn is_lone_test(steps: &[PathStep]) -> bool
    ensures { result ≡ spec.is_lone_test steps.now }
{
    match steps {
        [step] => is_bare(step.link) && is_attribute_test(&step.test) && step.predicates.is_empty(),
        _ => false,
    }
}

fn is_test(alternative: &Alternative) -> bool
    ensures { result ≡ spec.are_tests alternative.now }
{
    match alternative {
        Alternative::Root => false,
        Alternative::Steps(steps) => is_lone_test(steps.as_slice()),
    }
}

/// Whether each alternative of a pattern is a lone test of attributes.
pub fn are_tests(pattern: &Pattern) -> bool
    ensures { result ≡ list_all spec.are_tests pattern.now.alternatives }
{
    pattern.alternatives.as_slice().iter().all(|a| is_test(a))
}
