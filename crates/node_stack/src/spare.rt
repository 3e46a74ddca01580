//! Texts and lists of counters that are done with, kept so that the next ones need no memory of their own.

ghost use Rattle.std.specs.Prelude.{◌≡◌, [], IfOk};

use crate::names::{Named, Names};
use std::alloc::Global;
use stx_base::{Memory, Name, Spare, Text};

// No more lists are kept.
const MOST: usize = 64;

/// What counters of names can use again. It shows in nothing.
#[derive(Drop)]
pub(crate) struct SpareNames {
    alloc: Global,
    texts: Spare,
    lists: Vec<Vec<Named>>,
}

impl SpareNames {
    /// Allocates nothing.
    pub fn new(alloc: Global) -> SpareNames {
        SpareNames {
            alloc,
            texts: Spare::new(alloc),
            lists: Vec::new(alloc),
        }
    }

    /// A list of no names. Allocates nothing.
    pub fn list(&mut self) -> Vec<Named>
        ensures { result.items ≡ [] }
    {
        let mut list = match self.lists.pop() {
            Some(list) => list,
            None => Vec::new(self.alloc),
        };
        list.clear();
        list
    }

    /// A name that came once.
    pub fn named(&mut self, name: &Name) -> Result<Named, Memory>
        ensures uri { IfOk result (λ named. named.uri ≡ name.now.uri) }
        ensures local { IfOk result (λ named. named.local ≡ name.now.local) }
        ensures again { IfOk result (λ named. named.again ≡ 0) }
    {
        let uri = self.text(&name.uri)?;
        let local = self.text(&name.local)?;
        Ok(Named::new(uri, local))
    }

    /// A copy, which needs no memory where it is empty.
    fn text(&mut self, text: &Text) -> Result<Text, Memory>
        ensures { IfOk result (λ copied. copied ≡ text.now) }
    {
        if text.is_empty() {
            Ok(Text::new(self.alloc))
        } else {
            self.texts.text(text.as_str())
        }
    }

    /// Keeps the list and the texts of names, as far as there is room.
    pub fn keep(&mut self, names: Names) {
        let mut few = names.into_few();
        while let Some(named) = few.pop() {
            self.texts.keep(named.uri);
            self.texts.keep(named.local);
        }
        if few.capacity() > 0 && self.lists.len() < MOST {
            // Where memory doesn't suffice, it is dropped.
            let _ = self.lists.push(few);
        }
    }
}
