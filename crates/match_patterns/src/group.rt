ghost use Rattle.std.specs.Prelude.{◌≡◌};
ghost use Rattle.std.specs.Option.{option_copied};
ghost use Rattle.match_patterns.specs.Grouping.{Seen};

use stx_base::{List, Name};
use stxpath_eval::Vars;
use stxpath_values::Atom;

/// The variables of all groups.
pub trait GroupVars {
    ghost seen: { Self → Seen };

    /// The value of the group variable that a body of the group sees under the name; `None` where there is none.
    fn get(&self, group: u32, name: &Name) -> Option<&List<Atom>>
        ensures { option_copied result ≡ seen self.now group name.now };
}

/// The variables that one group sees.
#[derive(Drop)]
pub struct InGroup<'a, G: GroupVars> {
    pub all: &'a G,
    pub group: u32,
}

impl<G: GroupVars> Vars for InGroup<'_, G> {
    ghost value_of = { λ v name. G.seen v.all.now v.group name };

    fn get(&self, name: &Name) -> Option<&List<Atom>> {
        self.all.get(self.group, name)
    }
}
