//! Rows of alternatives, each under its key.

ghost use Rattle.std.specs.Prelude.{◌≡◌, ◌++◌, [], ◌∷◌, OnOk, OnErr, false, if◌then◌else◌};
ghost use Rattle.group_scope.specs.Keyed.{Key as UnderKey, has, row_in, same};

use crate::entry::Entry;
use crate::key::{Home, Key, Test};
use crate::marks::Marks;
use indexmap::IndexMap;
use std::alloc::Global;
use stx_base::{List, Memory};

/// The rows of a scope.
#[derive(Drop)]
pub struct Rows {
    map: IndexMap<Key, List<Entry>>,
    marks: Marks,
    // There is no row of a kind of home or test that isn't marked, so it needn't be looked up.
    ghost marked: { (key : UnderKey) → has marks key ≡ false → row_in map key ≡ [] },
}

impl Rows {
    ghost use Rattle.std.specs.Bool.{OnFalse};
    ghost use Rattle.group_scope.specs.Rows as spec;
    ghost use Rattle.group_scope.specs.declared.key.Test.{Test as Under};

    pub fn new(alloc: Global) -> Rows
        ensures { (key : spec.Key) → spec.row result key ≡ [] }
    {
        Rows {
            map: IndexMap::new(alloc),
            marks: Marks::none(),
        }
    }

    /// Whether there may be rows of a home.
    #[inline(always)]
    pub fn may_have(&self, home: Home) -> bool
        ensures { OnFalse result ((test : Under) → spec.row self.now (record { home = home; test = test }) ≡ []) }
    {
        self.marks.has_home(home)
    }

    /// Whether there may be rows of tests of a kind, in any home.
    #[inline(always)]
    pub fn may_have_kind(&self, test: Test) -> bool
        ensures { OnFalse result ((key : spec.Key) → spec.test_kind key.test ≡ spec.test_kind test → spec.row self.now key ≡ []) }
    {
        self.marks.has_kind(test)
    }

    /// Whether there may be rows of tests of a kind of which a text has no number.
    #[inline(always)]
    pub fn may_have_unknown(&self) -> bool
        ensures { OnFalse result ((key : spec.Key) → spec.is_known key.test ≡ false → spec.row self.now key ≡ []) }
    {
        self.marks.has_unknown()
    }

    /// The row under a key; empty where there is none.
    #[inline(always)]
    pub fn get(&self, key: Key) -> &[Entry]
        ensures { result.now ≡ spec.row self.now key }
    {
        if !self.marks.has(key) {
            return &[];
        }
        match self.map.get(&key) {
            Some(row) => row.as_slice(),
            None => &[],
        }
    }

    /// Appends to the row under a key.
    fn push(&mut self, alloc: Global, key: Key, entry: Entry) -> Result<(), Memory>
        ensures { OnOk result ((other : spec.Key) → spec.row self.new other ≡ if spec.same key other then spec.row self.old other ++ entry ∷ [] else spec.row self.old other) }
    {
        self.marks = self.marks.with(key);
        add(alloc, &mut self.map, key, entry)
    }

    /// Appends to the rows of a test for each of several homes.
    pub fn push_all(
        &mut self,
        alloc: Global,
        homes: &[Option<Home>],
        test: Test,
        entry: Entry,
    ) -> Result<(), Memory>
        ensures { OnOk result ((key : spec.Key) → spec.row self.new key ≡ spec.row self.old key ++ spec.entered homes.now test key entry) }
    {
        for home in homes {
            if let Some(home) = home {
                self.push(alloc, Key { home: *home, test }, entry)?;
            }
        }
        Ok(())
    }
}

/// Appends to the row under a key.
fn add(
    alloc: Global,
    map: &mut IndexMap<Key, List<Entry>>,
    key: Key,
    entry: Entry,
) -> Result<(), Memory>
    ensures ok { OnOk result ((other : UnderKey) → row_in map.new other ≡ if same key other then row_in map.old other ++ entry ∷ [] else row_in map.old other) }
    ensures err { OnErr result ((other : UnderKey) → row_in map.new other ≡ row_in map.old other) }
{
    match map.get_mut(&key) {
        Some(row) => row.push(entry),
        None => {
            let mut row = List::new(alloc);
            row.push(entry)?;
            map.insert(key, row)?;
            Ok(())
        }
    }
}
