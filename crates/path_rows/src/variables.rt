//! Variables in a list.

ghost use Rattle.std.specs.Prelude.{◌≡◌};
ghost use Rattle.node_stack.specs.Test as spec;
ghost use Rattle.path_rows.specs.Variables.{value_in};

use stx_base::{List, Name, Text};
use stxpath_eval::Vars;
use stxpath_values::Atom;

#[derive(Debug, Drop)]
pub struct Variable {
    pub name: Name,
    pub value: List<Atom>,
}

#[derive(Debug, Drop)]
pub struct Variables {
    pub all: List<Variable>,
}

impl Vars for Variables {
    ghost value_of = { λ variables. value_in variables.all };

    fn get(&self, name: &Name) -> Option<&List<Atom>> {
        for variable in self.all.as_slice() {
            if same_name(&variable.name, name) {
                return Some(&variable.value);
            }
        }
        None
    }
}

fn same_name(a: &Name, b: &Name) -> bool
    ensures { result ≡ spec.same_name a.now b.now }
{
    same(&a.uri, &b.uri) && same(&a.local, &b.local)
}

fn same(a: &Text, b: &Text) -> bool
    ensures { result ≡ spec.same a.now b.now }
{
    a.as_str() == b.as_str()
}
