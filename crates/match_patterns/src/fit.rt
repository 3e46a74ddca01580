ghost use Rattle.std.specs.Prelude.{◌≡◌, IfOk};
ghost use Rattle.node_stack.specs.Stack.{path};
ghost use Rattle.match_patterns.specs.Fits.{at_current, fits};
ghost use Rattle.stxpath_syntax.specs.Shape.{PredicatesCanBeEvaluated};

use crate::walk::ends_at;
use node_stack::{NodeStack, passes};
use std::alloc::Global;
use stx_base::{Limits, Memory, NodeTest};
use stxpath_eval::Vars;
use stxpath_syntax::Alternative;

/// Whether an alternative fits the current node. A predicate that faults is false.
pub fn matches<V: Vars>(
    alloc: Global,
    alternative: &Alternative,
    stack: &NodeStack,
    vars: &V,
    limits: &Limits,
) -> Result<bool, Memory>
    requires { PredicatesCanBeEvaluated alternative.now }
    ensures { IfOk result (λ b. b ≡ fits alternative.now (at_current (V.value_of vars.now) limits.now (path stack.now))) }
{
    let last = stack.len() - 1;
    match alternative {
        Alternative::Root => Ok(passes(&NodeTest::Document, stack.view(last))),
        Alternative::Steps(steps) => {
            let ending = ends_at(alloc, steps.as_slice(), last, stack, vars, limits)?;
            Ok(ending.is_here())
        }
    }
}
