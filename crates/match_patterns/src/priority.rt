ghost use Rattle.std.specs.Prelude.{◌≡◌};
ghost use Rattle.match_patterns.specs.Priority as spec;

use stx_base::NodeTest;
use stxpath_syntax::{Alternative, Link};

/// The priority, in hundredths, of an alternative whose template says none. Allocates nothing.
pub fn default_priority(alternative: &Alternative) -> i32
    ensures { result ≡ spec.default_priority alternative.now }
{
    let Alternative::Steps(steps) = alternative else {
        return 50;
    };
    match steps.as_slice() {
        [step] if matches!(step.link, Link::Start) && step.predicates.is_empty() => {
            test_priority(&step.test)
        }
        _ => 50,
    }
}

fn test_priority(test: &NodeTest) -> i32
    ensures { result ≡ spec.test_priority test.now }
{
    match test {
        NodeTest::Name(_) | NodeTest::AttrName(_) | NodeTest::Pi(_) => 0,
        NodeTest::Prefix(_) | NodeTest::AttrPrefix(_) => -25,
        NodeTest::Document
        | NodeTest::AnyElement
        | NodeTest::AnyNode
        | NodeTest::Chars
        | NodeTest::CData
        | NodeTest::Comment
        | NodeTest::AnyPi
        | NodeTest::AnyAttr => -50,
    }
}
