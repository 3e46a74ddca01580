//! A stack that contracts see as a list with the top first.

ghost use Rattle.std.specs.Prelude.{◌≡◌, ◌<◌, ◌^◌, [], ◌∷◌, ◌↔◌, length, IsTrue, MatchOption, OnOk, OnErr};
ghost use Rattle.std.specs.Option.{option_copied};
ghost use Rattle.stxpath_syntax.specs.Stacks.{top};

use std::alloc::Global;
use std::marker::Model;
use stx_base::{List, Memory};

#[derive(Drop)]
pub struct Stack<T> {
    items: Vec<T>,
}

impl<T> Model for Stack<T> {
    ghost use Rattle.std.specs.Prelude.{List as Items, reverse};
    ghost use Rattle.std.specs.Coded.{coded_list};

    ghost Value = { Items T };

    ghost coded = { coded_list T.code };

    ghost view = { λ stack. reverse stack.items.items };
}

impl<T> Stack<T> {
    /// The empty stack. Allocates nothing.
    pub fn new(alloc: Global) -> Stack<T>
        ensures { result ≡ [] }
    {
        Stack {
            items: Vec::new(alloc),
        }
    }

    /// The list's items, the first on top. Allocates nothing.
    pub fn from_list(list: List<T>) -> Stack<T>
        ensures value { result ≡ list }
        ensures size { length result < 2 ^ 64 }
    {
        let mut items = list.into_vec();
        items.reverse();
        Stack { items }
    }

    pub fn is_empty(&self) -> bool
        ensures { IsTrue result ↔ (self.now ≡ []) }
    {
        self.items.is_empty()
    }

    pub fn top(&self) -> Option<&T>
        ensures { option_copied result ≡ top self.now }
    {
        self.items.last()
    }

    /// Takes the top off. Allocates nothing.
    pub fn pop(&mut self) -> Option<T>
        ensures { MatchOption result ((self.old ≡ []) × (self.new ≡ [])) (λ item. self.old ≡ item ∷ self.new) }
    {
        self.items.pop()
    }
}

impl<T: Drop> Stack<T> {
    /// Lays an item on top. After a refusal the stack is unchanged and the item is dropped.
    pub fn push(&mut self, item: T) -> Result<(), Memory>
        ensures ok { OnOk result (self.new ≡ item ∷ self.old) }
        ensures err { OnErr result (self.new ≡ self.old) }
    {
        self.items.push(item)?;
        Ok(())
    }
}
