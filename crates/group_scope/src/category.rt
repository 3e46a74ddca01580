//! From where a base group sees templates.

ghost use Rattle.std.specs.Prelude.{◌≡◌, ◌==◌, length, slice_get};
ghost use Rattle.std.specs.List.{list_any};
ghost use Rattle.group_scope.specs.Choice as spec;
ghost use Rattle.sheet_model.specs.Groups.{around_within};
ghost use Rattle.sheet_model.specs.Groups as groups_;

use crate::rank::Category;
use sheet_model::{Group, Sheet, Template, Visibility};
use stx_base::List;

/// The least category of a template for a base group.
pub fn category(sheet: &Sheet, base: u32, template: &Template) -> Option<Category>
    ensures { result ≡ spec.category sheet.now base template.now }
{
    if is_own(&sheet.groups, base, template) {
        return Some(Category::Own);
    }
    match template.visibility {
        Visibility::Local => None,
        Visibility::Group => {
            let levels = sheet.groups.len();
            if is_around(&sheet.groups, levels, template.group, base) {
                Some(Category::Around)
            } else {
                None
            }
        }
        Visibility::Global => Some(Category::Everywhere),
    }
}

fn is_own(groups: &List<Group>, base: u32, template: &Template) -> bool
    ensures { result ≡ spec.is_own groups.now base template.now }
{
    template.group == base
        || (template.public && is_number(base, parent_of(groups, template.group)))
}

fn is_number(number: u32, other: Option<u32>) -> bool
    ensures { result ≡ spec.is_number number other }
{
    match other {
        Some(other) => other == number,
        None => false,
    }
}

pub fn parent_of(groups: &List<Group>, group: u32) -> Option<u32>
    ensures { result ≡ groups_.parent_of groups.now group }
{
    groups.get(group as usize)?.parent
}

/// Whether a group stands so many levels around another, or is it.
fn is_around(groups: &List<Group>, levels: usize, outer: u32, inner: u32) -> bool
    ensures { result ≡ list_any (λ g. g == outer) (around_within groups.now levels inner) }
{
    if inner == outer {
        return true;
    }
    let Some(fewer) = levels.checked_sub(1) else {
        return false;
    };
    match parent_of(groups, inner) {
        Some(parent) => is_around(groups, fewer, outer, parent),
        None => false,
    }
}
