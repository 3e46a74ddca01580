//! What choices have in common.

ghost use Rattle.std.specs.Prelude.{◌≡◌, Some, option_map};
ghost use Rattle.group_scope.specs.Choice as spec;

use crate::rank::{Chosen, Rank};
use match_patterns::default_priority;
use sheet_model::Template;
use stxpath_syntax::Alternative;

pub fn chosen_of(best: Option<Rank>) -> Option<Chosen>
    ensures { result ≡ option_map spec.chosen_of best }
{
    match best {
        Some(rank) => Some(rank.chosen()),
        None => None,
    }
}

/// The priority of an alternative in hundredths: what its template says, or else its default.
pub fn priority(template: &Template, alternative: &Alternative) -> i32
    ensures { result ≡ spec.priority_of template.now alternative.now }
{
    match template.priority {
        Some(priority) => priority,
        None => default_priority(alternative),
    }
}
