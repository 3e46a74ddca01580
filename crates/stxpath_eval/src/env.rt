ghost use Rattle.std.specs.Prelude.{◌≡◌, List as Items, Option};
ghost use Rattle.std.specs.Option.{option_copied};
ghost use Rattle.stx_base.specs.declared.name.Name.{Name};
ghost use Rattle.stxpath_values.specs.declared.value.Atom.{Atom};

use stx_base::{Limits, List, Name, NodeTest};
use stxpath_values::Atom;

/// The variables in sight.
pub trait Vars {
    ghost value_of: { Self → Name → Option (Items Atom) };

    /// The value of a variable; `None` where there is none of the expanded name.
    fn get(&self, name: &Name) -> Option<&List<Atom>>
        ensures { option_copied result ≡ value_of self.now name.now };
}

/// What an expression sees beside the path.
#[derive(Drop)]
pub struct Env<'a, V: Vars> {
    pub vars: &'a V,
    /// The current node's place.
    pub place: usize,
    /// The test of the step that chose the current node, for `position()`.
    pub test: &'a NodeTest,
    pub limits: &'a Limits,
}
