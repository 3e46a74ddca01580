//! Alternatives as rows hold them.

ghost use Rattle.std.specs.Prelude.{◌≡◌, IfOk, IsPermutation};
ghost use Rattle.group_scope.specs.Entries as spec;

use crate::rank::{Category, Rank};
use std::alloc::AllocError;

/// An alternative of a template. Within one category the greater of two is the better one.
#[derive(Clone, Copy, Debug, PartialEq, Eq, PartialOrd, Ord)]
pub struct Entry {
    /// In hundredths.
    pub priority: i32,
    pub template: u32,
    pub alternative: u32,
    /// It fits whatever passes the test of its last step.
    pub by_test: bool,
}

impl Entry {
    pub fn ranked(self, category: Category) -> Rank
        ensures { result ≡ spec.ranked self category }
    {
        Rank {
            category,
            priority: self.priority,
            template: self.template,
            alternative: self.alternative,
        }
    }
}

/// The same ones, the best first.
pub fn best_first(entries: Vec<Entry>) -> Result<Vec<Entry>, AllocError>
    ensures same { IfOk result (λ sorted. IsPermutation entries.items sorted.items) }
    ensures sorted { IfOk result (λ sorted. spec.IsBestFirst sorted.items) }
{
    let mut entries = entries;
    entries.sort()?;
    entries.as_mut_slice().reverse();
    Ok(entries)
}
