//! What expressions are evaluated with.

ghost use Rattle.std.specs.Prelude.{◌≡◌, ◌-◌, true, length};
ghost use Rattle.node_stack.specs.Path.{is_told};
ghost use Rattle.node_stack.specs.Stack.{path};

use node_stack::NodeStack;
use std::alloc::Global;
use stx_base::{Limits, NodeTest};

/// What an expression sees at the current node.
#[derive(Drop)]
pub struct Setting<'a, V> {
    pub alloc: Global,
    pub stack: &'a NodeStack,
    pub vars: V,
    /// By which positions count.
    pub test: &'a NodeTest,
    pub limits: &'a Limits,
    ghost told: { is_told (path stack.now) (length (path stack.now).nodes - 1) test.now ≡ true },
}
