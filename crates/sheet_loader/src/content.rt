//! What the list of an element comes to.

ghost use Rattle.std.specs.Prelude.{◌≡◌, [], ◌++◌, map, not, length, ◌==◌, IfOk, OnOk};
ghost use Rattle.sheet_loader.specs.Contents.{Holds};
ghost use Rattle.sheet_loader.specs.Meant.{item_of};
ghost use Rattle.sheet_loader.specs.Sorting.{Sorts, added, closed, put, taken};

use crate::item::Item;
use sheet_model::{Instr, Variable, When, WithParam};
use std::alloc::Global;
use std::mem;
use stx_base::{List, Memory, Place, Text};
use stxpath_syntax::Expr;

/// What the list of an element comes to, each thing with its like.
#[derive(Drop)]
pub struct Content {
    alloc: Global,
    pub params: List<Variable>,
    /// An else belongs to the if before it.
    pub body: List<Instr>,
    pub branches: List<When>,
    pub otherwise: List<Instr>,
    pub values: List<WithParam>,
    /// The characters of all texts.
    pub text: Text,
}

/// An if behind which an else may stand.
#[derive(Drop)]
struct OpenIf {
    test: Expr,
    body: List<Instr>,
    at: Place,
}

/// What the first items of a list come to.
#[derive(Drop)]
struct Sorter {
    content: Content,
    /// What comes last in the body, where it is an if.
    open_if: Option<OpenIf>,
}

impl OpenIf {
    fn with_else(self, other: List<Instr>) -> Instr
        ensures { result ≡ Instr.If self.test self.body other self.at }
    {
        let OpenIf { test, body, at } = self;
        Instr::If {
            test,
            body,
            other,
            at,
        }
    }
}

impl Sorter {
    fn new(alloc: Global) -> Sorter
        ensures { Sorts [] result }
    {
        Sorter {
            content: Content::new(alloc),
            open_if: None,
        }
    }

    fn take(&mut self, item: Item) -> Result<(), Memory>
        ensures { OnOk result (self.new ≡ taken (item_of item) self.old) }
    {
        match item {
            Item::Else(other) => self.close_if(other),
            item => self.put_behind(item),
        }
    }

    /// Takes an item that is no else: an if before has none.
    fn put_behind(&mut self, item: Item) -> Result<(), Memory>
        ensures { OnOk result (self.new ≡ put (item_of item) (closed [] self.old)) }
    {
        let none = List::new(self.content.alloc);
        match self.close_if(none) {
            Ok(()) => self.put(item),
            Err(error) => {
                drop(item);
                Err(error)
            }
        }
    }

    /// The if before has this else, where there is one.
    fn close_if(&mut self, other: List<Instr>) -> Result<(), Memory>
        ensures { OnOk result (self.new ≡ closed other self.old) }
    {
        match self.open_if.take() {
            None => {
                drop(other);
                Ok(())
            }
            Some(open_if) => self.content.body.push(open_if.with_else(other)),
        }
    }

    /// Takes an item behind which no else of an if before may stand.
    fn put(&mut self, item: Item) -> Result<(), Memory>
        ensures { OnOk result (self.new ≡ put (item_of item) self.old) }
    {
        match item {
            Item::If { test, body, at } => {
                self.open_if = Some(OpenIf { test, body, at });
                Ok(())
            }
            item => self.content.add(item),
        }
    }

    fn finish(self) -> Result<Content, Memory>
        ensures { IfOk result (λ content. content ≡ (closed [] self).content) }
    {
        let mut sorter = self;
        let none = List::new(sorter.content.alloc);
        let ended = sorter.close_if(none);
        let Sorter { content, open_if } = sorter;
        drop(open_if);
        match ended {
            Ok(()) => Ok(content),
            Err(error) => {
                drop(content);
                Err(error)
            }
        }
    }
}

impl Content {
    fn new(alloc: Global) -> Content
        ensures { Holds [] result }
    {
        Content {
            alloc,
            params: List::new(alloc),
            body: List::new(alloc),
            branches: List::new(alloc),
            otherwise: List::new(alloc),
            values: List::new(alloc),
            text: Text::new(alloc),
        }
    }

    /// Takes an item that is no if and no else, of which something else is done.
    fn add(&mut self, item: Item) -> Result<(), Memory>
        ensures { OnOk result (self.new ≡ added (item_of item) self.old) }
    {
        match item {
            Item::Instruction(instr) => self.body.push(instr),
            Item::Local { name, select, at } => self.body.push(Instr::Local { name, select, at }),
            Item::Branch(when) => self.branches.push(when),
            Item::Otherwise(body) => self.add_otherwise(body),
            Item::Param(param) => self.params.push(param),
            Item::Value(value) => self.values.push(value),
            Item::Text(text) => self.text.push_str(text.as_str()),
            item => {
                drop(item);
                Ok(())
            }
        }
    }

    fn add_otherwise(&mut self, body: List<Instr>) -> Result<(), Memory>
        ensures { OnOk result (self.new ≡ record self.old { otherwise = self.old.otherwise ++ body }) }
    {
        for instr in body.into_vec() {
            self.otherwise.push(instr)?;
        }
        Ok(())
    }

    /// What a list with these items comes to.
    pub fn of(alloc: Global, items: List<Item>) -> Result<Content, Memory>
        ensures { IfOk result (λ content. Holds (map item_of items) content) }
    {
        sorted(alloc, items)?.finish()
    }

    pub fn has_branches(&self) -> bool
        ensures { result ≡ not (length self.now.branches == 0) }
    {
        !self.branches.is_empty()
    }

    pub fn take_params(&mut self) -> List<Variable>
        ensures value { result ≡ self.old.params }
        ensures others { self.new ≡ record self.old { params = [] } }
    {
        mem::replace(&mut self.params, List::new(self.alloc))
    }

    pub fn take_body(&mut self) -> List<Instr>
        ensures value { result ≡ self.old.body }
        ensures others { self.new ≡ record self.old { body = [] } }
    {
        mem::replace(&mut self.body, List::new(self.alloc))
    }

    pub fn take_branches(&mut self) -> List<When>
        ensures value { result ≡ self.old.branches }
        ensures others { self.new ≡ record self.old { branches = [] } }
    {
        mem::replace(&mut self.branches, List::new(self.alloc))
    }

    pub fn take_otherwise(&mut self) -> List<Instr>
        ensures value { result ≡ self.old.otherwise }
        ensures others { self.new ≡ record self.old { otherwise = [] } }
    {
        mem::replace(&mut self.otherwise, List::new(self.alloc))
    }

    pub fn take_values(&mut self) -> List<WithParam>
        ensures value { result ≡ self.old.values }
        ensures others { self.new ≡ record self.old { values = [] } }
    {
        mem::replace(&mut self.values, List::new(self.alloc))
    }

    pub fn take_text(&mut self) -> Text
        ensures value { result ≡ self.old.text }
        ensures others { self.new ≡ record self.old { text = [] } }
    {
        mem::replace(&mut self.text, Text::new(self.alloc))
    }
}

fn sorted(alloc: Global, items: List<Item>) -> Result<Sorter, Memory>
    ensures { IfOk result (λ sorter. Sorts (map item_of items) sorter) }
{
    let mut sorter = Sorter::new(alloc);
    for item in items.into_vec() {
        sorter.take(item)?;
    }
    Ok(sorter)
}
