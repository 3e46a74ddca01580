ghost use Rattle.std.specs.Prelude.{◌≡◌, [], ◌∷◌, ◌++◌, ◌<◌, ◌-◌, ◌^◌, length, take, slice_get, slice_set, ◌↔◌, IsTrue, IfOk, MatchOption, OnOk, OnErr, OnSome};
ghost use Rattle.std.specs.Option.{option_copied};

use crate::copied::Copied;
use crate::memory::Memory;
use std::alloc::Global;
use std::marker::Model;

/// A `Vec` that contracts see as the list of its items, so that a copy equals what it copies.
#[derive(Debug, Drop)]
pub struct List<T> {
    items: Vec<T>,
}

impl<T> Model for List<T> {
    ghost use Rattle.std.specs.Prelude.{List as Items};
    ghost use Rattle.std.specs.Coded.{coded_list};

    ghost Value = { Items T };

    ghost coded = { coded_list T.code };

    ghost view = { λ list. list.items.items };
}

impl<T> List<T> {
    /// The empty list. Allocates nothing.
    pub fn new(alloc: Global) -> List<T>
        ensures { result ≡ [] }
    {
        List {
            items: Vec::new(alloc),
        }
    }

    pub fn from_vec(items: Vec<T>) -> List<T>
        ensures { result ≡ items.items }
    {
        List { items }
    }

    pub fn into_vec(self) -> Vec<T>
        ensures { result.items ≡ self }
    {
        let List { items } = self;
        items
    }

    pub fn as_slice(&self) -> &[T]
        ensures { result.now ≡ self.now }
    {
        self.items.as_slice()
    }

    pub fn len(&self) -> usize
        ensures value { result ≡ length self.now }
        ensures bound { result < 2 ^ 63 }
    {
        self.items.len()
    }

    pub fn is_empty(&self) -> bool
        ensures { IsTrue result ↔ (self.now ≡ []) }
    {
        self.items.is_empty()
    }

    pub fn get(&self, index: usize) -> Option<&T>
        ensures value { option_copied result ≡ slice_get self.now index }
        ensures within { OnSome result (index < length self.now) }
    {
        self.items.get(index)
    }

    pub fn last(&self) -> Option<&T>
        ensures { option_copied result ≡ slice_get self.now (length self.now - 1) }
    {
        self.items.last()
    }

    /// Takes the last item off. Allocates nothing.
    pub fn pop(&mut self) -> Option<T>
        ensures { MatchOption result ((self.old ≡ []) × (self.new ≡ [])) (λ last. self.old ≡ self.new ++ last ∷ []) }
    {
        self.items.pop()
    }
}

impl<T: Drop> List<T> {
    /// Appends an item. After a refusal the list is unchanged and the item is dropped.
    pub fn push(&mut self, item: T) -> Result<(), Memory>
        ensures ok { OnOk result (self.new ≡ self.old ++ item ∷ []) }
        ensures err { OnErr result (self.new ≡ self.old) }
    {
        self.items.push(item)?;
        Ok(())
    }

    /// Puts an item in place of the one at `index`, which is dropped. Allocates nothing.
    pub fn set(&mut self, index: usize, item: T)
        requires { index < length self.old }
        ensures { self.new ≡ slice_set self.old index item }
    {
        self.items[index] = item;
    }

    /// Drops all items but the first `len`. Allocates nothing.
    pub fn truncate(&mut self, len: usize)
        ensures { self.new ≡ take len self.old }
    {
        self.items.truncate(len);
    }
}

impl<T: Copied + Drop> Copied for List<T> {
    fn copy(&self, alloc: Global) -> Result<List<T>, Memory> {
        let mut items = Vec::with_capacity(alloc, self.items.len())?;
        for item in &self.items {
            let copy = item.copy(alloc)?;
            items.push(copy)?;
        }
        Ok(List { items })
    }
}
