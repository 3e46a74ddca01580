//! Counts that a node keeps while it waits.

ghost use Rattle.std.specs.Prelude.{◌≡◌, ◌-◌, ◌≤◌};

use crate::tally::MOST;
use stx_base::NodeTest;

/// How many earlier nodes of its list pass the tests that a node passes.
#[derive(Clone, Copy)]
pub(crate) struct Own {
    /// Elements of its name, instructions for its target, or CDATA nodes.
    pub alike: u64,
    /// Elements of its namespace.
    pub of_namespace: u64,
    /// Elements, texts, comments or instructions.
    pub of_kind: u64,
    pub nodes: u64,
    ghost alike_bounded: { alike ≤ 9223372036854775806 },
    ghost of_namespace_bounded: { of_namespace ≤ 9223372036854775806 },
    ghost of_kind_bounded: { of_kind ≤ 9223372036854775806 },
    ghost nodes_bounded: { nodes ≤ 9223372036854775806 },
}

impl Own {
    ghost use Rattle.node_stack.specs.Counts.{capped};
    ghost use Rattle.node_stack.specs.Open.{own_count};

    /// What these counts are beside the one node that is counted in each, as far as positions tell.
    pub fn beside_one(alike: u64, of_namespace: u64, of_kind: u64, nodes: u64) -> Own
        ensures alike { result.alike ≡ capped (alike - 1) }
        ensures of_namespace { result.of_namespace ≡ capped (of_namespace - 1) }
        ensures of_kind { result.of_kind ≡ capped (of_kind - 1) }
        ensures nodes { result.nodes ≡ capped (nodes - 1) }
    {
        Own {
            alike: alike.saturating_sub(1).min(MOST),
            of_namespace: of_namespace.saturating_sub(1).min(MOST),
            of_kind: of_kind.saturating_sub(1).min(MOST),
            nodes: nodes.saturating_sub(1).min(MOST),
        }
    }

    /// How many pass a test that the node passes.
    pub fn count(&self, test: &NodeTest) -> u64
        ensures value { result ≡ own_count self.now test.now }
        ensures bound { result ≤ 9223372036854775806 }
    {
        match test {
            NodeTest::Name(_) | NodeTest::Pi(_) | NodeTest::CData => self.alike,
            NodeTest::Prefix(_) => self.of_namespace,
            NodeTest::AnyElement | NodeTest::Chars | NodeTest::Comment | NodeTest::AnyPi => {
                self.of_kind
            }
            NodeTest::AnyNode => self.nodes,
            NodeTest::Document
            | NodeTest::AttrName(_)
            | NodeTest::AttrPrefix(_)
            | NodeTest::AnyAttr => 0,
        }
    }
}
