//! For which rows a template is.

ghost use Rattle.std.specs.Prelude.{◌≡◌, Some, option_map};
ghost use Rattle.group_scope.specs.Homes as spec;

use crate::category::parent_of;
use crate::key::Home;
use sheet_model::{Group, Template, Visibility};
use stx_base::List;

/// The homes of a template.
pub fn homes(groups: &List<Group>, template: &Template) -> [Option<Home>; 3]
    ensures { result ≡ spec.homes groups.now template.now }
{
    let group = template.group;
    let shared = match template.visibility {
        Visibility::Local => None,
        Visibility::Group => Some(Home::Within(group)),
        Visibility::Global => Some(Home::Everywhere),
    };
    [
        Some(Home::Own(group)),
        public_home(groups, template),
        shared,
    ]
}

/// The parent of its group, where the template is public.
fn public_home(groups: &List<Group>, template: &Template) -> Option<Home>
    ensures { result ≡ spec.public_home groups.now template.now }
{
    if !template.public {
        return None;
    }
    match parent_of(groups, template.group) {
        Some(parent) => Some(Home::Own(parent)),
        None => None,
    }
}
